//! Sets made of the steps of an automaton.

ghost use Rattle.std.specs.Prelude.{◌≡◌, ℕ, Bool, IfOk, OnOk};
ghost use Rattle.lois_base.specs.Data.{coll, comps_of};
ghost use Rattle.lois_base.specs.Fits.{Fits, ItemsFit};
ghost use Rattle.lois_base.specs.Tree.{tree, comp_of};
ghost use Rattle.lois_base.specs.Validity.{AdmitsTerm, AdmitsItems};
ghost use Rattle.lois_terms.specs.Collections.{IsColl};
ghost use Rattle.lois_automata.specs.Projections.{AreProjected, AreNonTriples, AddsOfOne, IsProjectionOf, IsNonTriple, projected_term};

use crate::parts::{Step, pair, step_parts};
use lois_algebra::push_comp;
use lois_base::{Comp, Comps, NoMemory, Term};
use std::alloc::Global;

/// What is made of the source, the letter and the target of a step.
#[derive(Clone, Copy)]
pub enum Projection {
    Source,
    Label,
    Target,
    // the source with the letter
    Outgoing,
    // the source with the target
    Move,
    // the target with the source
    Back,
    // the source with the letter, and the target
    Keyed,
}

/// What the shape makes of the steps that are triples. The others are left out.
pub fn project_steps(alloc: Global, steps: &Comps, shape: Projection) -> Result<Term, NoMemory>
    ensures set { IfOk result (λ r. IsColl (tree r)) }
    ensures members { IfOk result (λ r. (n : ℕ) → AreProjected n shape (coll (comps_of steps.now)) (tree r)) }
    ensures levels { IfOk result (λ r. (n : ℕ) → ItemsFit n (comps_of steps.now) → Fits n (tree r)) }
    ensures operators { IfOk result (λ r. (o : Bool) → AdmitsItems o (comps_of steps.now) → AdmitsTerm o (tree r)) }
{
    let mut made = Comps::new(alloc);
    for comp in steps.as_slice() {
        add_projected(alloc, &mut made, comp, shape)?;
    }
    Ok(Term::Coll(made))
}

fn add_projected(
    alloc: Global,
    made: &mut Comps,
    comp: &Comp,
    shape: Projection,
) -> Result<(), NoMemory>
    ensures { OnOk result ((n : ℕ) → AddsOfOne (IsProjectionOf shape) n (comp_of comp.now) (comps_of made.old) (comps_of made.new)) }
{
    let Some(step) = step_parts(&comp.item) else {
        return Ok(());
    };
    let item = shaped(alloc, shape, step)?;
    let guard = comp.guard.copy(alloc)?;
    push_comp(
        made,
        Comp {
            binders: comp.binders,
            guard,
            item,
        },
    )
}

fn shaped(alloc: Global, shape: Projection, step: Step<'_>) -> Result<Term, NoMemory>
    ensures { IfOk result (λ r. tree r ≡ projected_term shape (tree step.entry.source.now) (tree step.entry.letter.now) (tree step.entry.target.now)) }
{
    match shape {
        Projection::Source => step.source.copy(alloc),
        Projection::Label => step.letter.copy(alloc),
        Projection::Target => step.target.copy(alloc),
        Projection::Outgoing => pair(alloc, step.source, step.letter),
        Projection::Move => pair(alloc, step.source, step.target),
        Projection::Back => pair(alloc, step.target, step.source),
        Projection::Keyed => {
            let key = pair(alloc, step.source, step.letter)?;
            pair(alloc, &key, step.target)
        }
    }
}

/// The steps that are no triples.
pub fn non_triples(alloc: Global, steps: &Comps) -> Result<Term, NoMemory>
    ensures set { IfOk result (λ r. IsColl (tree r)) }
    ensures members { IfOk result (λ r. (n : ℕ) → AreNonTriples n (coll (comps_of steps.now)) (tree r)) }
    ensures levels { IfOk result (λ r. (n : ℕ) → ItemsFit n (comps_of steps.now) → Fits n (tree r)) }
    ensures operators { IfOk result (λ r. (o : Bool) → AdmitsItems o (comps_of steps.now) → AdmitsTerm o (tree r)) }
{
    let mut others = Comps::new(alloc);
    for comp in steps.as_slice() {
        add_non_triple(alloc, &mut others, comp)?;
    }
    Ok(Term::Coll(others))
}

fn add_non_triple(alloc: Global, others: &mut Comps, comp: &Comp) -> Result<(), NoMemory>
    ensures { OnOk result ((n : ℕ) → AddsOfOne IsNonTriple n (comp_of comp.now) (comps_of others.old) (comps_of others.new)) }
{
    match step_parts(&comp.item) {
        Some(_) => Ok(()),
        None => push_comp(others, comp.copy(alloc)?),
    }
}
