//! The orbits of the set of a name in each case of results.

ghost use Rattle.std.specs.Prelude.{◌≡◌, [], ◌↔◌, IfOk, OnOk, IfSome, IfNone, IsTrue};
ghost use Rattle.std.specs.List.{All};
ghost use Rattle.lois_answers.specs.CaseView.{case_of};
ghost use Rattle.lois_answers.specs.Sound.{IsSound, IsSoundCase};
ghost use Rattle.lois_deciders.specs.OnlyAsked.{HasOnlyAsked};
ghost use Rattle.lois_census.specs.Censuses.{HasNamedLine, HasSet, AreOrbitsIn, AreCensusesOf, numbered};
ghost use Rattle.lois_census.specs.CensusSteps.{IsCensusAdded};
ghost use Rattle.lois_census.specs.Refusals.{IsFirstWithout, IsCensusAnswer};

use crate::counting::{Answer, Census, Censuses, Refusal};
use crate::listing::census;
use crate::orbits::Orbits;
use lois_answers::{Case, Cases, Results};
use lois_base::{Decider, Name, NoMemory, Structure, Term};
use lois_deciders::Chosen;
use std::alloc::Global;

/// The census of the set of the name in each case of `results` whose constraint holds, or why there is none. Every case is
/// looked at before, also one whose constraint is false. Errors: `NoMemory`, also where a level would pass the greatest usize.
pub fn census_of<T: Structure>(
    alloc: Global,
    results: &Results,
    name: &Name,
    chosen: &mut Chosen,
) -> Result<Answer, NoMemory>
    requires sound { IsSound results.now }
    requires structure { T.ordered ≡ results.now.order }
    ensures cause { IfOk result (IsCensusAnswer T.ordered results.now name.now) }

    // whatever is answered
    ensures only_asked { HasOnlyAsked (λ b. (⟦<dyn Decider as Decider>⟧ b.vtable).kind_of b.value) (λ b. (⟦<dyn Decider as Decider>⟧ b.vtable).questions b.value) chosen.old chosen.new }
{
    if results.parameters.len() > 0 {
        return Ok(Answer::Refused(Refusal::HasParameters));
    }
    if let Some(number) = first_without_line(&results.cases, name) {
        return Ok(Answer::Refused(Refusal::NoLine(name.copy(alloc)?, number)));
    }
    if let Some(number) = first_without_set(&results.cases, name) {
        return Ok(Answer::Refused(Refusal::NotASet(name.copy(alloc)?, number)));
    }
    let censuses = all_censuses::<T>(alloc, &results.cases, name, chosen)?;
    Ok(Answer::Listed(censuses))
}

fn has_line(case: &Case, name: &Name) -> bool
    ensures { IsTrue result ↔ HasNamedLine name.now (case_of case.now) }
{
    case.lines.last_named(name).is_some()
}

fn has_set(case: &Case, name: &Name) -> bool
    ensures { IsTrue result ↔ HasSet name.now (case_of case.now) }
{
    match case.lines.last_named(name) {
        Some(line) => matches!(&line.term, Term::Coll(_)),
        None => false,
    }
}

// The number of the first case that has no line of the name.
fn first_without_line(cases: &Cases, name: &Name) -> Option<usize>
    ensures some { IfSome result (IsFirstWithout (HasNamedLine name.now) cases.now) }
    ensures none { IfNone result (All (HasNamedLine name.now) cases.now) }
{
    for (index, case) in cases.as_slice().iter().enumerate() {
        if !has_line(case, name) {
            return Some(index + 1);
        }
    }
    None
}

// The number of the first case whose line of the name is no set, or that has none.
fn first_without_set(cases: &Cases, name: &Name) -> Option<usize>
    ensures some { IfSome result (IsFirstWithout (HasSet name.now) cases.now) }
    ensures none { IfNone result (All (HasSet name.now) cases.now) }
{
    for (index, case) in cases.as_slice().iter().enumerate() {
        if !has_set(case, name) {
            return Some(index + 1);
        }
    }
    None
}

fn all_censuses<T: Structure>(
    alloc: Global,
    cases: &Cases,
    name: &Name,
    chosen: &mut Chosen,
) -> Result<Censuses, NoMemory>
    requires sound { All (IsSoundCase T.ordered 0) cases.now }
    requires sets { All (HasSet name.now) cases.now }
    ensures censuses { IfOk result (AreCensusesOf T.ordered name.now (numbered 1 cases.now)) }
    ensures only_asked { HasOnlyAsked (λ b. (⟦<dyn Decider as Decider>⟧ b.vtable).kind_of b.value) (λ b. (⟦<dyn Decider as Decider>⟧ b.vtable).questions b.value) chosen.old chosen.new }
{
    let mut censuses = Censuses::new(alloc);
    for (index, case) in cases.as_slice().iter().enumerate() {
        add_census::<T>(alloc, index + 1, case, name, &mut censuses, chosen)?;
    }
    Ok(censuses)
}

// Puts the census of the case behind the others, if its constraint holds.
fn add_census<T: Structure>(
    alloc: Global,
    number: usize,
    case: &Case,
    name: &Name,
    censuses: &mut Censuses,
    chosen: &mut Chosen,
) -> Result<(), NoMemory>
    requires sound { IsSoundCase T.ordered 0 (case_of case.now) }
    requires set { HasSet name.now (case_of case.now) }
    ensures added { OnOk result (IsCensusAdded T.ordered name.now (record { number = number; case = case_of case.now }) censuses.old censuses.new) }
    ensures only_asked { HasOnlyAsked (λ b. (⟦<dyn Decider as Decider>⟧ b.vtable).kind_of b.value) (λ b. (⟦<dyn Decider as Decider>⟧ b.vtable).questions b.value) chosen.old chosen.new }
{
    if !case.when.at(&[]) {
        return Ok(());
    }
    let orbits = orbits_in::<T>(alloc, case, name, chosen)?;
    censuses.push(Census {
        case: number,
        orbits,
    })
}

fn orbits_in<T: Structure>(
    alloc: Global,
    case: &Case,
    name: &Name,
    chosen: &mut Chosen,
) -> Result<Orbits, NoMemory>
    requires sound { IsSoundCase T.ordered 0 (case_of case.now) }
    requires set { HasSet name.now (case_of case.now) }
    ensures orbits { IfOk result (AreOrbitsIn T.ordered name.now (case_of case.now)) }
    ensures only_asked { HasOnlyAsked (λ b. (⟦<dyn Decider as Decider>⟧ b.vtable).kind_of b.value) (λ b. (⟦<dyn Decider as Decider>⟧ b.vtable).questions b.value) chosen.old chosen.new }
{
    let Some(line) = case.lines.last_named(name) else {
        unreachable!()
    };
    census::<T>(alloc, &line.term, chosen)
}
