//! The run of the made script, and what its results come to.

ghost use Rattle.std.specs.Prelude.{◌≡◌, ◌≤◌, [], ◌∷◌, IfOk, IsSome};
ghost use Rattle.lois_answers.specs.ResultsData.{CaseD, LineD};
ghost use Rattle.lois_context.specs.ItemCounts.{comps_in};
ghost use Rattle.lois_run.specs.Services.{HasMadeResults};
ghost use Rattle.lois_run.specs.MadeCounts.{made_counts};
ghost use Rattle.lois_run.specs.declared.outcomes.Outcome.TheVariants.{Made as WasMade};

use crate::top::run_text;
use crate::{Made, Outcome};
use lois_answers::Results;
use lois_base::{NoMemory, Term};
use lois_deciders::Chosen;
use lois_make::make_script;
use std::alloc::Global;

/// The outcome of `make` with so many loops, with the decider that was chosen. The made script completes.
pub(crate) fn run_make(
    alloc: Global,
    count: u32,
    chosen: Option<Chosen>,
) -> Result<Outcome, NoMemory>
    requires some { 1 ≤ count }
    requires few { count ≤ 10000 }
    requires decider { IsSome chosen }
    ensures made { IfOk result (λ o. o ≡ WasMade (made_counts count)) }
    ensures results { IfOk result (λ o. HasMadeResults count) }
{
    let Some(mut chosen) = chosen else {
        unreachable!();
    };
    let text = make_script(alloc, count)?;
    let Outcome::Completed(results) = run_text(alloc, &text, &mut chosen)? else {
        unreachable!();
    };
    Ok(Outcome::Made(Made {
        statements: count,
        bytes: text.len(),
        cases: results.cases.len(),
        comprehensions: comprehensions_of(&results),
    }))
}

// How many comprehensions the set of the first line has, in the first case.
fn comprehensions_of(results: &Results) -> usize
    ensures { (one : CaseD) → (first : LineD) → results.now.cases ≡ one ∷ [] → one.lines ≡ first ∷ [] → result ≡ comps_in first.term }
{
    let [case, ..] = results.cases.as_slice() else {
        return 0;
    };
    let [line, ..] = case.lines.as_slice() else {
        return 0;
    };
    match &line.term {
        Term::Coll(comps) => comps.len(),
        _ => 0,
    }
}
