//! The second parts of pairs.

ghost use Rattle.std.specs.Prelude.{ℕ, Bool, IfOk, OnOk};
ghost use Rattle.lois_base.specs.Data.{coll, comps_of};
ghost use Rattle.lois_base.specs.Fits.{Fits, ItemsFit};
ghost use Rattle.lois_base.specs.Tree.{tree, comp_of};
ghost use Rattle.lois_base.specs.Validity.{AdmitsTerm, AdmitsItems, HasBoundedWidths, ItemsHaveBoundedWidths};
ghost use Rattle.lois_terms.specs.Collections.{IsColl};
ghost use Rattle.lois_automata.specs.Projections.{AddsOfOne};
ghost use Rattle.lois_minimise.specs.Classes.{AreSeconds, IsSecondOf};

use lois_algebra::push_comp;
use lois_automata::pair_parts;
use lois_base::{Comp, Comps, NoMemory, Term};
use std::alloc::Global;

/// The second parts of the pairs.
pub fn second_parts(alloc: Global, pairs: &Comps) -> Result<Term, NoMemory>
    ensures members { IfOk result (λ r. (n : ℕ) → AreSeconds n (coll (comps_of pairs.now)) (tree r)) }
    ensures set { IfOk result (λ r. IsColl (tree r)) }
    ensures levels { IfOk result (λ r. (n : ℕ) → ItemsFit n (comps_of pairs.now) → Fits n (tree r)) }
    ensures operators { IfOk result (λ r. (o : Bool) → AdmitsItems o (comps_of pairs.now) → AdmitsTerm o (tree r)) }
    ensures widths { IfOk result (λ r. ItemsHaveBoundedWidths (comps_of pairs.now) → HasBoundedWidths (tree r)) }
{
    let mut made = Comps::new(alloc);
    for comp in pairs.as_slice() {
        add_second(alloc, &mut made, comp)?;
    }
    Ok(Term::Coll(made))
}

fn add_second(alloc: Global, made: &mut Comps, comp: &Comp) -> Result<(), NoMemory>
    ensures { OnOk result ((n : ℕ) → AddsOfOne IsSecondOf n (comp_of comp.now) (comps_of made.old) (comps_of made.new)) }
{
    let Some((_, second)) = pair_parts(&comp.item) else {
        return Ok(());
    };
    let guard = comp.guard.copy(alloc)?;
    let item = second.copy(alloc)?;
    push_comp(
        made,
        Comp {
            binders: comp.binders,
            guard,
            item,
        },
    )
}
