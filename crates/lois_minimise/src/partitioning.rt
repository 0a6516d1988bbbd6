//! A set partitioned into those of its members that are in another set, and those that are not.

ghost use Rattle.std.specs.Prelude.{◌≡◌, ℕ, Bool, not, ◌&&◌, List, length, map, IfOk, OnOk};
ghost use Rattle.lois_base.specs.Atom.{Atom};
ghost use Rattle.lois_base.specs.Data.{coll, comp, comps_of};
ghost use Rattle.lois_base.specs.Fits.{ConstraintFits, ItemsFit};
ghost use Rattle.lois_base.specs.Over.{CompIsOver, ItemsAreOver};
ghost use Rattle.lois_base.specs.Tree.{tree, comp_of};
ghost use Rattle.lois_base.specs.Validity.{AdmitsConstraint, AdmitsItems, ItemsHaveBoundedWidths};
ghost use Rattle.lois_base.specs.Truth.{holds};
ghost use Rattle.lois_base.specs.Values.{point};
ghost use Rattle.lois_terms.specs.Shapes.{item_shape};
ghost use Rattle.lois_algebra.specs.Gathered.{IsPut};
ghost use Rattle.lois_minimise.specs.Classes.{IsPartition, AddsPartition};

use crate::indexed::indexed_membership;
use lois_algebra::push_comp;
use lois_base::{Comp, Comps, Constraint, NoMemory, Structure};
use lois_constraint::{and_not, meet};
use lois_terms::{Index, index_by_shape};
use std::alloc::Global;

/// Two sets: of what is in another one, and of what isn't.
#[derive(Drop)]
pub struct Partition {
    pub inside: Comps,
    pub outside: Comps,
}

/// The members of `items` that are in `set`, and those that aren't. One membership of each comprehension serves both.
pub fn partition_by<T: Structure>(
    alloc: Global,
    items: &Comps,
    set: &Comps,
    size: usize,
) -> Result<Partition, NoMemory>
    requires over { ItemsAreOver T.ordered size (comps_of items.now) }
    requires set { ItemsAreOver T.ordered size (comps_of set.now) }
    ensures shared { IfOk result (λ r. (c : List Atom) → length c ≡ size → IsPartition (point (coll (comps_of items.now)) c) (point (coll (comps_of set.now)) c) (point (coll (comps_of r.inside)) c) (point (coll (comps_of r.outside)) c)) }
    ensures levels { IfOk result (λ r. ItemsFit size (comps_of r.inside) × ItemsFit size (comps_of r.outside)) }
    ensures operators { IfOk result (λ r. (o : Bool) → AdmitsItems o (comps_of items.now) → AdmitsItems o (comps_of set.now) → AdmitsItems o (comps_of r.inside) × AdmitsItems o (comps_of r.outside)) }
    ensures widths { IfOk result (λ r. ItemsHaveBoundedWidths (comps_of items.now) → ItemsHaveBoundedWidths (comps_of r.inside) × ItemsHaveBoundedWidths (comps_of r.outside)) }
{
    let index = index_by_shape(alloc, set.as_slice())?;
    let mut inside = Comps::new(alloc);
    let mut outside = Comps::new(alloc);
    for one in items.as_slice() {
        partition_comp::<T>(alloc, &mut inside, &mut outside, one, set, &index, size)?;
    }
    Ok(Partition { inside, outside })
}

fn partition_comp<T: Structure>(
    alloc: Global,
    inside: &mut Comps,
    outside: &mut Comps,
    one: &Comp,
    set: &Comps,
    index: &Index,
    size: usize,
) -> Result<(), NoMemory>
    requires over { CompIsOver T.ordered size (comp_of one.now) }
    requires set { ItemsAreOver T.ordered size (comps_of set.now) }
    requires shapes { index.now ≡ map item_shape set.now }
    ensures { OnOk result (AddsPartition size (comp_of one.now) (coll (comps_of set.now)) (comps_of inside.old) (comps_of inside.new) (comps_of outside.old) (comps_of outside.new)) }
{
    let found = indexed_membership::<T>(alloc, &one.item, set, index, size, one.binders)?;
    let here = within(alloc, &one.guard, &found)?;
    let there = beyond(alloc, &one.guard, &found)?;
    put_under(alloc, inside, one, here)?;
    put_under(alloc, outside, one, there)
}

// Where the guard holds and the other constraint does. Most often that holds nowhere.
fn within(alloc: Global, guard: &Constraint, found: &Constraint) -> Result<Constraint, NoMemory>
    ensures truth { IfOk result (λ r. (e : List Atom) → holds e r ≡ (holds e guard.now && holds e found.now)) }
    ensures fits { IfOk result (λ r. (n : ℕ) → ConstraintFits n guard.now → ConstraintFits n found.now → ConstraintFits n r) }
    ensures operators { IfOk result (λ r. (o : Bool) → AdmitsConstraint o guard.now → AdmitsConstraint o found.now → AdmitsConstraint o r) }
{
    if found.len() == 0 {
        return Ok(Constraint::new(alloc));
    }
    meet(alloc, guard, found)
}

// Where the guard holds and the other constraint doesn't.
fn beyond(alloc: Global, guard: &Constraint, found: &Constraint) -> Result<Constraint, NoMemory>
    ensures truth { IfOk result (λ r. (e : List Atom) → holds e r ≡ (holds e guard.now && not (holds e found.now))) }
    ensures fits { IfOk result (λ r. (n : ℕ) → ConstraintFits n guard.now → ConstraintFits n found.now → ConstraintFits n r) }
    ensures operators { IfOk result (λ r. (o : Bool) → AdmitsConstraint o guard.now → AdmitsConstraint o found.now → AdmitsConstraint o r) }
{
    if found.len() == 0 {
        return guard.copy(alloc);
    }
    and_not(alloc, guard, found)
}

// A comprehension under another guard.
fn put_under(alloc: Global, made: &mut Comps, one: &Comp, guard: Constraint) -> Result<(), NoMemory>
    ensures { OnOk result (IsPut (comp one.now.binders guard (tree one.now.item)) (comps_of made.old) (comps_of made.new)) }
{
    if guard.len() == 0 {
        return Ok(());
    }
    let item = one.item.copy(alloc)?;
    push_comp(
        made,
        Comp {
            binders: one.binders,
            guard,
            item,
        },
    )
}
