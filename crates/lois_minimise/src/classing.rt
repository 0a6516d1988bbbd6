//! States with their classes.

ghost use Rattle.std.specs.Prelude.{◌≡◌, ℕ, ◌+◌, ◌<◌, ◌^◌, Bool, List, length, IfOk, OnOk};
ghost use Rattle.lois_base.specs.Atom.{Atom};
ghost use Rattle.lois_base.specs.Data.{coll, comps_of};
ghost use Rattle.lois_base.specs.Fits.{Fits, ItemsFit};
ghost use Rattle.lois_base.specs.Over.{IsOver, CompIsOver, ItemsAreOver};
ghost use Rattle.lois_base.specs.Tree.{tree, comp_of};
ghost use Rattle.lois_base.specs.Validity.{AdmitsTerm, AdmitsItems, HasBoundedWidths, ItemsHaveBoundedWidths};
ghost use Rattle.lois_base.specs.Values.{point};
ghost use Rattle.lois_terms.specs.Collections.{IsColl};
ghost use Rattle.lois_terms.specs.Shapes.{shape_of};
ghost use Rattle.lois_minimise.specs.Classes.{AreClassed, ArePairsOfShape, AddsClass, AddsOfShape, IsClassTerm, IsSingletonOf};

use lois_algebra::push_comp;
use lois_automata::{insert_levels, pair_of_terms, pair_parts, targets_from};
use lois_base::{Comp, Comps, Constraint, NoMemory, Structure, Term};
use lois_terms::shape;
use std::alloc::Global;

/// Each member of the set `nodes` in a pair with its class: the set of the values that a pair of the set `alike` leads it to.
pub fn with_classes<T: Structure>(
    alloc: Global,
    nodes: &Comps,
    alike: &Comps,
    size: usize,
) -> Result<Comps, NoMemory>
    requires nodes { ItemsAreOver T.ordered size (comps_of nodes.now) }
    requires alike { ItemsAreOver T.ordered size (comps_of alike.now) }
    ensures classed { IfOk result (λ r. (c : List Atom) → length c ≡ size → AreClassed (point (coll (comps_of nodes.now)) c) (point (coll (comps_of alike.now)) c) (point (coll (comps_of r)) c)) }
    ensures levels { IfOk result (λ r. ItemsFit size (comps_of r)) }
    ensures operators { IfOk result (λ r. (o : Bool) → AdmitsItems o (comps_of nodes.now) → AdmitsItems o (comps_of alike.now) → AdmitsItems o (comps_of r)) }
    ensures widths { IfOk result (λ r. ItemsHaveBoundedWidths (comps_of nodes.now) → ItemsHaveBoundedWidths (comps_of alike.now) → ItemsHaveBoundedWidths (comps_of r)) }
{
    let mut classes = Comps::new(alloc);
    for comp in nodes.as_slice() {
        add_class::<T>(alloc, &mut classes, comp, alike, size)?;
    }
    Ok(classes)
}

fn add_class<T: Structure>(
    alloc: Global,
    classes: &mut Comps,
    comp: &Comp,
    alike: &Comps,
    size: usize,
) -> Result<(), NoMemory>
    requires over { CompIsOver T.ordered size (comp_of comp.now) }
    requires alike { ItemsAreOver T.ordered size (comps_of alike.now) }
    ensures { OnOk result (AddsClass size (comp_of comp.now) (coll (comps_of alike.now)) (comps_of classes.old) (comps_of classes.new)) }
{
    let class = class_of::<T>(alloc, &comp.item, alike, size, comp.binders)?;
    let guard = comp.guard.copy(alloc)?;
    let own = comp.item.copy(alloc)?;
    let item = pair_of_terms(alloc, own, class)?;
    push_comp(
        classes,
        Comp {
            binders: comp.binders,
            guard,
            item,
        },
    )
}

// What pairs of `alike` lead the item to, as a term among `by` more levels.
fn class_of<T: Structure>(
    alloc: Global,
    item: &Term,
    alike: &Comps,
    size: usize,
    by: usize,
) -> Result<Term, NoMemory>
    requires room { size + by < 2 ^ 64 }
    requires item { IsOver T.ordered (size + by) (tree item.now) }
    requires alike { ItemsAreOver T.ordered size (comps_of alike.now) }
    ensures class { IfOk result (λ r. IsClassTerm size by (coll (comps_of alike.now)) (tree item.now) (tree r)) }
    ensures set { IfOk result (λ r. IsColl (tree r)) }
    ensures levels { IfOk result (λ r. Fits (size + by) (tree r)) }
    ensures operators { IfOk result (λ r. (o : Bool) → AdmitsTerm o (tree item.now) → AdmitsItems o (comps_of alike.now) → AdmitsTerm o (tree r)) }
    ensures widths { IfOk result (λ r. ItemsHaveBoundedWidths (comps_of alike.now) → HasBoundedWidths (tree r)) }
{
    let pairs = Term::Coll(pairs_of_shape(alloc, alike, item)?);
    let Term::Coll(raised) = insert_levels(alloc, &pairs, size, by)? else {
        unreachable!()
    };
    let own = single(alloc, item)?;
    targets_from::<T>(alloc, &raised, &own, size + by)
}

// The pairs whose first part has the shape of the term: no others lead on from its values.
fn pairs_of_shape(alloc: Global, pairs: &Comps, t: &Term) -> Result<Comps, NoMemory>
    ensures members { IfOk result (λ r. (n : ℕ) → ArePairsOfShape n (shape_of (tree t.now)) (coll (comps_of pairs.now)) (coll (comps_of r))) }
    ensures levels { IfOk result (λ r. (n : ℕ) → ItemsFit n (comps_of pairs.now) → ItemsFit n (comps_of r)) }
    ensures operators { IfOk result (λ r. (o : Bool) → AdmitsItems o (comps_of pairs.now) → AdmitsItems o (comps_of r)) }
    ensures widths { IfOk result (λ r. ItemsHaveBoundedWidths (comps_of pairs.now) → ItemsHaveBoundedWidths (comps_of r)) }
{
    let wanted = shape(t);
    let mut made = Comps::new(alloc);
    for comp in pairs.as_slice() {
        add_of_shape(alloc, &mut made, comp, wanted)?;
    }
    Ok(made)
}

fn add_of_shape(alloc: Global, made: &mut Comps, comp: &Comp, wanted: u64) -> Result<(), NoMemory>
    ensures { OnOk result ((n : ℕ) → AddsOfShape n wanted (comp_of comp.now) (comps_of made.old) (comps_of made.new)) }
{
    let Some((first, _)) = pair_parts(&comp.item) else {
        return Ok(());
    };
    if shape(first) != wanted {
        return Ok(());
    }
    let guard = comp.guard.copy(alloc)?;
    let item = comp.item.copy(alloc)?;
    push_comp(
        made,
        Comp {
            binders: comp.binders,
            guard,
            item,
        },
    )
}

// The set of one item.
fn single(alloc: Global, item: &Term) -> Result<Term, NoMemory>
    ensures members { IfOk result (λ r. IsSingletonOf (tree item.now) (tree r)) }
    ensures set { IfOk result (λ r. IsColl (tree r)) }
    ensures levels { IfOk result (λ r. (n : ℕ) → n < 2 ^ 64 → Fits n (tree item.now) → Fits n (tree r)) }
    ensures operators { IfOk result (λ r. (o : Bool) → AdmitsTerm o (tree item.now) → AdmitsTerm o (tree r)) }
{
    let mut items = Comps::new(alloc);
    items.push(Comp {
        binders: 0,
        guard: Constraint::always(alloc)?,
        item: item.copy(alloc)?,
    })?;
    Ok(Term::Coll(items))
}
