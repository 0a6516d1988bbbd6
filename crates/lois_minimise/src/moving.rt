//! Moves from the targets of steps back to their sources.

ghost use Rattle.std.specs.Prelude.{◌≡◌, Bool, List, length, IsTrue, IfOk, OnOk};
ghost use Rattle.lois_base.specs.Atom.{Atom};
ghost use Rattle.lois_base.specs.Data.{TermD, coll, comps_of};
ghost use Rattle.lois_base.specs.Fits.{ItemsFit};
ghost use Rattle.lois_base.specs.Over.{CompIsOver, ItemsAreOver};
ghost use Rattle.lois_base.specs.Tree.{tree, comp_of};
ghost use Rattle.lois_base.specs.Validity.{AdmitsItems};
ghost use Rattle.lois_base.specs.Values.{PointValue, point};
ghost use Rattle.lois_algebra.specs.Gathered.{IsCompMember};
ghost use Rattle.lois_automata.specs.Adding.{AddsOfTwo, AddsWithEach, IsMadeOfTwo};
ghost use Rattle.lois_minimise.specs.Classes.{AreBackward, IsMoveBack, IsOrderedTerm};

use lois_algebra::push_comp;
use lois_automata::{into_step, pair_comps, pair_of_terms, step_parts};
use lois_base::{Comp, Comps, NoMemory, Structure, Term};
use lois_constraint::meet;
use lois_elim::quantifier_free;
use lois_relate::{clash, equal_formula};
use lois_terms::shape;
use std::alloc::Global;

/// Of two steps with the same letter, whose sources are in order, a move from the pair of the targets, put in order, back to the
/// pair of the sources.
pub fn backward<T: Structure>(alloc: Global, steps: &Comps, size: usize) -> Result<Comps, NoMemory>
    requires steps { ItemsAreOver T.ordered size (comps_of steps.now) }
    ensures moves { IfOk result (λ r. (c : List Atom) → length c ≡ size → AreBackward (point (coll (comps_of steps.now)) c) (point (coll (comps_of r)) c)) }
    ensures levels { IfOk result (λ r. ItemsFit size (comps_of r)) }
    ensures operators { IfOk result (λ r. (o : Bool) → AdmitsItems o (comps_of steps.now) → AdmitsItems o (comps_of r)) }
{
    let mut moves = Comps::new(alloc);
    for first in steps.as_slice() {
        add_moves::<T>(alloc, &mut moves, first, steps, size)?;
    }
    Ok(moves)
}

fn add_moves<T: Structure>(
    alloc: Global,
    moves: &mut Comps,
    first: &Comp,
    others: &Comps,
    size: usize,
) -> Result<(), NoMemory>
    requires first { CompIsOver T.ordered size (comp_of first.now) }
    requires second { ItemsAreOver T.ordered size (comps_of others.now) }
    ensures { OnOk result (AddsWithEach IsMoveBack size (comp_of first.now) (comps_of others.now) (comps_of moves.old) (comps_of moves.new)) }
{
    for second in others.as_slice() {
        add_move_back::<T>(alloc, moves, first, second, size)?;
    }
    Ok(())
}

fn add_move_back<T: Structure>(
    alloc: Global,
    moves: &mut Comps,
    first: &Comp,
    second: &Comp,
    size: usize,
) -> Result<(), NoMemory>
    requires first { CompIsOver T.ordered size (comp_of first.now) }
    requires second { CompIsOver T.ordered size (comp_of second.now) }
    ensures { OnOk result (AddsOfTwo IsMoveBack size (comp_of first.now) (comp_of second.now) (comps_of moves.old) (comps_of moves.new)) }
{
    if has_no_move(first, second) {
        return Ok(());
    }
    let both = pair_comps(alloc, first, second, size)?;
    let Some(one) = into_step(both.first) else {
        return Ok(());
    };
    let Some(other) = into_step(both.second) else {
        return Ok(());
    };
    if shape(&one.source) > shape(&other.source) {
        return Ok(());
    }
    let inner = size + both.binders;
    let same = equal_formula(alloc, &one.letter, &other.letter, inner)?;
    let found = quantifier_free::<T>(alloc, &same, inner)?;
    let guard = meet(alloc, &both.guard, &found)?;
    let source = pair_of_terms(alloc, one.source, other.source)?;
    let target = ordered_pair(alloc, one.target, other.target)?;
    let item = pair_of_terms(alloc, target, source)?;
    push_comp(
        moves,
        Comp {
            binders: both.binders,
            guard,
            item,
        },
    )
}

// Whether no two members are steps with the same letter whose sources are in order, as is seen before they are put beside one another.
fn has_no_move(first: &Comp, second: &Comp) -> bool
    ensures { IsTrue result → (c : List Atom) (w : PointValue) → IsMadeOfTwo IsMoveBack (IsCompMember (comp_of first.now) c) (IsCompMember (comp_of second.now) c) w → ⊥ }
{
    let Some(one) = step_parts(&first.item) else {
        return true;
    };
    let Some(other) = step_parts(&second.item) else {
        return true;
    };
    if shape(one.source) > shape(other.source) {
        return true;
    }
    clash(one.letter, other.letter)
}

// The two in a pair, in order.
fn ordered_pair(alloc: Global, one: Term, other: Term) -> Result<Term, NoMemory>
    ensures { IfOk result (λ r. IsOrderedTerm (tree one) (tree other) (tree r)) }
{
    if shape(&one) <= shape(&other) {
        return pair_of_terms(alloc, one, other);
    }
    pair_of_terms(alloc, other, one)
}
