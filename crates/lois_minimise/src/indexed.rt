//! Sets that are asked often, by the shapes of their items.

ghost use Rattle.std.specs.Prelude.{◌≡◌, ◌+◌, ◌<◌, ◌^◌, Bool, IsTrue, ◌↔◌, [], ◌∷◌, map, IfOk};
ghost use Rattle.lois_base.specs.Data.{coll, comps_of};
ghost use Rattle.lois_base.specs.Fits.{ConstraintFits, ItemsFit};
ghost use Rattle.lois_base.specs.Over.{IsOver, ItemsAreOver};
ghost use Rattle.lois_base.specs.Tree.{tree};
ghost use Rattle.lois_base.specs.Validity.{AdmitsConstraint, AdmitsTerm, AdmitsItems, ItemsHaveBoundedWidths};
ghost use Rattle.lois_terms.specs.Shapes.{item_shape};
ghost use Rattle.lois_automata.specs.Built.{HoldsWhereMember, AreTargets};

use crate::members::comp_membership;
use lois_automata::targets_from;
use lois_base::{Comps, Constraint, NoMemory, Structure, Term};
use lois_constraint::{or, prune};
use lois_terms::{Index, shape};
use std::alloc::Global;

/// A constraint over `size + by` levels that holds exactly where the item is in the set of the comprehensions, whose levels
/// are the first `size`. The index is of the shapes of their items.
pub fn indexed_membership<T: Structure>(
    alloc: Global,
    item: &Term,
    set: &Comps,
    index: &Index,
    size: usize,
    by: usize,
) -> Result<Constraint, NoMemory>
    requires levels { size + by < 2 ^ 64 }
    requires item { IsOver T.ordered (size + by) (tree item.now) }
    requires set { ItemsAreOver T.ordered size (comps_of set.now) }
    requires shapes { index.now ≡ map item_shape set.now }
    ensures truth { IfOk result (HoldsWhereMember size by (tree item.now) (coll (comps_of set.now))) }
    ensures fits { IfOk result (ConstraintFits (size + by)) }
    ensures operators { IfOk result (λ r. (o : Bool) → AdmitsTerm o (tree item.now) → AdmitsItems o (comps_of set.now) → AdmitsConstraint o r) }
{
    let comps = set.as_slice();
    let mut found = Constraint::new(alloc);
    for place in index.positions(shape(item)) {
        let one = comp_membership::<T>(alloc, item, &comps[*place], size, by)?;
        if is_always(&one) {
            return Ok(one);
        }
        found = or(alloc, &found, &one)?;
    }
    if found.len() < 2 {
        return Ok(found);
    }
    prune(alloc, &found)
}

// Whether it is the constraint with one empty cube, which holds everywhere.
fn is_always(constraint: &Constraint) -> bool
    ensures { IsTrue result ↔ (constraint.now ≡ [] ∷ []) }
{
    match constraint.as_slice() {
        [cube] => cube.len() == 0,
        _ => false,
    }
}

/// What pairs lead to from members of a set: the second parts of those whose first part is in the set `held`. Members of `moves`
/// that are no pairs are left out.
pub fn targets_in<T: Structure>(
    alloc: Global,
    moves: &Comps,
    held: &Comps,
    size: usize,
) -> Result<Comps, NoMemory>
    requires over { ItemsAreOver T.ordered size (comps_of moves.now) }
    requires held { ItemsAreOver T.ordered size (comps_of held.now) }
    ensures members { IfOk result (λ r. AreTargets size (coll (comps_of moves.now)) (coll (comps_of held.now)) (coll (comps_of r))) }
    ensures levels { IfOk result (λ r. ItemsFit size (comps_of r)) }
    ensures operators { IfOk result (λ r. (o : Bool) → AdmitsItems o (comps_of moves.now) → AdmitsItems o (comps_of held.now) → AdmitsItems o (comps_of r)) }
    ensures widths { IfOk result (λ r. ItemsHaveBoundedWidths (comps_of moves.now) → ItemsHaveBoundedWidths (comps_of r)) }
{
    let set = Term::Coll(held.copy(alloc)?);
    let Term::Coll(targets) = targets_from::<T>(alloc, moves, &set, size)? else {
        unreachable!()
    };
    Ok(targets)
}
