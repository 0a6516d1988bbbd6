//! Comprehensions of which no two members go together, as the shapes of their items say.

ghost use Rattle.std.specs.Prelude.{List, IsTrue};
ghost use Rattle.lois_base.specs.Atom.{Atom};
ghost use Rattle.lois_base.specs.Tree.{comp_of};
ghost use Rattle.lois_base.specs.Values.{PointValue};
ghost use Rattle.lois_algebra.specs.Gathered.{IsCompMember};
ghost use Rattle.lois_automata.specs.Adding.{IsMadeOfTwo, IsStepOf};
ghost use Rattle.lois_automata.specs.Projections.{AllAgree};

use crate::parts::{pair_parts, step_parts};
use lois_base::Comp;
use lois_relate::clash;

/// Whether an item is no pair, or the first parts of both clash: so no two members are pairs with the same first part.
pub fn keys_clash(first: &Comp, second: &Comp) -> bool
    ensures { IsTrue result → (c : List Atom) → AllAgree (IsCompMember (comp_of first.now) c) (IsCompMember (comp_of second.now) c) }
{
    let Some((key, _)) = pair_parts(&first.item) else {
        return true;
    };
    let Some((other_key, _)) = pair_parts(&second.item) else {
        return true;
    };
    clash(key, other_key)
}

/// Whether an item is no triple, or the letters of both clash: so no two members are steps with the same letter.
pub fn letters_clash(first: &Comp, second: &Comp) -> bool
    ensures { IsTrue result → (c : List Atom) (w : PointValue) → IsMadeOfTwo IsStepOf (IsCompMember (comp_of first.now) c) (IsCompMember (comp_of second.now) c) w → ⊥ }
{
    let Some(one) = step_parts(&first.item) else {
        return true;
    };
    let Some(other) = step_parts(&second.item) else {
        return true;
    };
    clash(one.letter, other.letter)
}
