//! Runs scripts: what is printed at every choice of the parameters, or the trace of a failure.

ghost use Rattle.std.specs.Prelude.{◌≡◌, ◌≤◌, ◌<◌, ◌^◌, ℕ, List, length, map, IfOk, IfErr};
ghost use Rattle.std.specs.List.{All};
ghost use Rattle.lois_answers.specs.Sound.{HasTags};
ghost use Rattle.lois_base.specs.Patterns.{AreAlike};
ghost use Rattle.lois_base.specs.Truth.{sampled};
ghost use Rattle.lois_base.specs.declared.limits.TheConstants.{LONGEST_TEXT};
ghost use Rattle.lois_eval.specs.Throughout.{IfFault};
ghost use Rattle.lois_interp.specs.Interpreted.{AreResultsOf};
ghost use Rattle.lois_interp.specs.Failures.{IsFailureOf};
ghost use Rattle.lois_ranks.specs.Ranks.{AreRanks};
ghost use Rattle.lois_run.specs.Headline.{NamesFailure};
ghost use Rattle.lois_run.specs.Run.{IsRunOf};
ghost use Rattle.lois_script.specs.Limits.{Spells};
ghost use Rattle.lois_script.specs.View.{script_tree};

use crate::Outcome;
use crate::elements::{terms_of, with_terms};
use lois_answers::{Lines, Results, Trace, tags_are_names};
use lois_base::{NoMemory, Numbers};
use lois_command::place_at;
use lois_deciders::Chosen;
use lois_equality::EqualityAtoms;
use lois_interp::{interpret, parameter_names};
use lois_meaning::{Fault, Stop};
use lois_order::OrderAtoms;
use lois_ranks::rank_sample;
use lois_scope::Scoped;
use lois_shortest_word::{Word, drop_unused_numbers};
use std::alloc::Global;

/// What the script that the text spells comes to.
pub(crate) fn run(
    alloc: Global,
    text: &[u8],
    script: &Scoped,
    chosen: &mut Chosen,
) -> Result<Outcome, NoMemory>
    requires fits { length text.now ≤ LONGEST_TEXT }
    requires spelled { Spells text.now (script_tree script.now) }
    ensures { IfOk result (IsRunOf text.now (script_tree script.now)) }
{
    match interpreted(alloc, script, chosen) {
        Ok(results) => Ok(Outcome::Completed(results)),
        Err(Stop::Fault(fault)) => Ok(Outcome::Failed(trace(alloc, text, script, fault)?)),
        Err(Stop::NoMemory) => Err(NoMemory),
    }
}

// Over atoms of the script's structure.
fn interpreted(alloc: Global, script: &Scoped, chosen: &mut Chosen) -> Result<Results, Stop>
    requires { (text : List ℕ) × Spells text (script_tree script.now) }
    ensures results { IfOk result (AreResultsOf (script_tree script.now)) }
    ensures fault { IfErr result (λ s. IfFault s (IsFailureOf (script_tree script.now))) }
{
    if script.script().order {
        interpret::<OrderAtoms>(alloc, script, chosen)
    } else {
        interpret::<EqualityAtoms>(alloc, script, chosen)
    }
}

// Where a fault is in the text, and the rest of it, with ranks for its numbers and without those that no element uses.
fn trace(alloc: Global, text: &[u8], script: &Scoped, fault: Fault) -> Result<Trace, NoMemory>
    requires fits { length text.now ≤ LONGEST_TEXT }
    requires spelled { Spells text.now (script_tree script.now) }
    requires fault { IsFailureOf (script_tree script.now) fault }
    ensures { IfOk result (NamesFailure text.now (script_tree script.now)) }
{
    let script = script.script();
    let place = place_at(text, fault.pos.offset);
    let word = Word {
        sample: Numbers::from_vec(fault.sample),
        letters: terms_of(alloc, &fault.elements)?,
    };
    let short = drop_unused_numbers(alloc, word, script.parameters.len())?;
    let Word { sample, letters } = short;
    let sample = ranks(alloc, script.order, sample.as_slice())?;
    let elements = with_terms(alloc, &fault.elements, &letters)?;
    let numbers = sample.as_slice();
    numbers_are_small(numbers);
    element_tags_are_names(&elements);
    Ok(Trace {
        order: script.order,
        parameters: parameter_names(alloc, &script.parameters)?,
        line: place.line,
        column: place.column,
        kind: fault.kind,
        sample,
        elements,
    })
}

// By order where atoms are ordered, else in turn: a fault is one at all atoms that stand as its numbers do.
fn ranks(alloc: Global, ordered: bool, sample: &[u64]) -> Result<Numbers, NoMemory>
    ensures alike { IfOk result (λ r. AreAlike ordered (sampled sample.now) (sampled r)) }
    ensures ranked { IfOk result (AreRanks ordered) }
{
    if ordered {
        rank_sample::<OrderAtoms>(alloc, sample)
    } else {
        rank_sample::<EqualityAtoms>(alloc, sample)
    }
}

// Says of each number what its type says of each. It does nothing.
fn numbers_are_small(numbers: &[u64])
    ensures { All (λ a. a < 2 ^ 64) numbers.now }
{
    // for the prover: where the list is read, each of its items is a `u64`
    let _count = numbers.len();
}

// Says of each element what the type of a tag says of each. It does nothing.
fn element_tags_are_names(elements: &Lines)
    ensures { All (λ l. HasTags l.term) elements.now }
{
    for element in elements.as_slice() {
        tags_are_names(&element.term);
    }
}
