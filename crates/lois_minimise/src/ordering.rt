//! Pairs in the order of the shapes of their parts: of two pairs of which one is the other turned, one alone is looked at.

ghost use Rattle.std.specs.Prelude.{◌≡◌, ℕ, Bool, List, length, IfOk, OnOk};
ghost use Rattle.lois_base.specs.Atom.{Atom};
ghost use Rattle.lois_base.specs.Data.{coll, comps_of};
ghost use Rattle.lois_base.specs.Fits.{ItemsFit};
ghost use Rattle.lois_base.specs.Tree.{comp_of};
ghost use Rattle.lois_base.specs.Validity.{AdmitsItems, ItemsHaveBoundedWidths};
ghost use Rattle.lois_base.specs.Values.{point};
ghost use Rattle.lois_automata.specs.Projections.{AddsOfOne};
ghost use Rattle.lois_minimise.specs.Classes.{AreMadeOf, AreBothWays, IsInOrder, IsTurned};

use lois_algebra::{push_comp, union};
use lois_automata::{pair, pair_parts};
use lois_base::{Comp, Comps, NoMemory, Term};
use lois_terms::shape;
use std::alloc::Global;

/// Those of the pairs whose parts are in order.
pub fn pairs_in_order(alloc: Global, pairs: &Comps) -> Result<Comps, NoMemory>
    ensures members { IfOk result (λ r. (n : ℕ) → AreMadeOf IsInOrder n (coll (comps_of pairs.now)) (coll (comps_of r))) }
    ensures levels { IfOk result (λ r. (n : ℕ) → ItemsFit n (comps_of pairs.now) → ItemsFit n (comps_of r)) }
    ensures operators { IfOk result (λ r. (o : Bool) → AdmitsItems o (comps_of pairs.now) → AdmitsItems o (comps_of r)) }
    ensures widths { IfOk result (λ r. ItemsHaveBoundedWidths (comps_of pairs.now) → ItemsHaveBoundedWidths (comps_of r)) }
{
    let mut made = Comps::new(alloc);
    for comp in pairs.as_slice() {
        add_in_order(alloc, &mut made, comp)?;
    }
    Ok(made)
}

fn add_in_order(alloc: Global, made: &mut Comps, comp: &Comp) -> Result<(), NoMemory>
    ensures { OnOk result ((n : ℕ) → AddsOfOne IsInOrder n (comp_of comp.now) (comps_of made.old) (comps_of made.new)) }
{
    let Some((first, second)) = pair_parts(&comp.item) else {
        return Ok(());
    };
    if shape(first) > shape(second) {
        return Ok(());
    }
    let guard = comp.guard.copy(alloc)?;
    let item = comp.item.copy(alloc)?;
    push_comp(
        made,
        Comp {
            binders: comp.binders,
            guard,
            item,
        },
    )
}

/// The pairs, and each pair turned whose parts have different shapes.
pub fn both_ways(alloc: Global, pairs: &Comps) -> Result<Comps, NoMemory>
    ensures members { IfOk result (λ r. (n : ℕ) (c : List Atom) → length c ≡ n → AreBothWays (point (coll (comps_of pairs.now)) c) (point (coll (comps_of r)) c)) }
    ensures levels { IfOk result (λ r. (n : ℕ) → ItemsFit n (comps_of pairs.now) → ItemsFit n (comps_of r)) }
    ensures operators { IfOk result (λ r. (o : Bool) → AdmitsItems o (comps_of pairs.now) → AdmitsItems o (comps_of r)) }
    ensures widths { IfOk result (λ r. ItemsHaveBoundedWidths (comps_of pairs.now) → ItemsHaveBoundedWidths (comps_of r)) }
{
    let own = Term::Coll(pairs.copy(alloc)?);
    let other = Term::Coll(turned(alloc, pairs)?);
    let Term::Coll(both) = union(alloc, &own, &other)? else {
        unreachable!()
    };
    Ok(both)
}

// The pairs turned whose parts have different shapes, of pairs that are in order.
fn turned(alloc: Global, pairs: &Comps) -> Result<Comps, NoMemory>
    ensures members { IfOk result (λ r. (n : ℕ) → AreMadeOf IsTurned n (coll (comps_of pairs.now)) (coll (comps_of r))) }
    ensures levels { IfOk result (λ r. (n : ℕ) → ItemsFit n (comps_of pairs.now) → ItemsFit n (comps_of r)) }
    ensures operators { IfOk result (λ r. (o : Bool) → AdmitsItems o (comps_of pairs.now) → AdmitsItems o (comps_of r)) }
    ensures widths { IfOk result (λ r. ItemsHaveBoundedWidths (comps_of pairs.now) → ItemsHaveBoundedWidths (comps_of r)) }
{
    let mut made = Comps::new(alloc);
    for comp in pairs.as_slice() {
        add_turned(alloc, &mut made, comp)?;
    }
    Ok(made)
}

fn add_turned(alloc: Global, made: &mut Comps, comp: &Comp) -> Result<(), NoMemory>
    ensures { OnOk result ((n : ℕ) → AddsOfOne IsTurned n (comp_of comp.now) (comps_of made.old) (comps_of made.new)) }
{
    let Some((first, second)) = pair_parts(&comp.item) else {
        return Ok(());
    };
    if shape(second) <= shape(first) {
        return Ok(());
    }
    let guard = comp.guard.copy(alloc)?;
    let item = pair(alloc, second, first)?;
    push_comp(
        made,
        Comp {
            binders: comp.binders,
            guard,
            item,
        },
    )
}
