//! The top call.

ghost use Rattle.std.specs.Prelude.{◌≡◌, ℕ, ◌+◌, ◌≤◌, ◌⊎◌, List, IfOk, IfErr, length, map, string_bytes};
ghost use Rattle.lois_base.specs.declared.deciding.Kind.{Kind};
ghost use Rattle.lois_command.specs.Calls.{GaveUnder};
ghost use Rattle.lois_outside.specs.Faults.{Rose};
ghost use Rattle.lois_questions.specs.Causes.{AnswersText, IsOutcomeOf, OutcomeIsWritten};
ghost use Rattle.lois_questions.specs.Outcomes.{HasText};
ghost use Rattle.lois_questions.specs.Words.{Asks, IsUsage, limit_in, limit_of};
ghost use Rattle.lois_questions.specs.declared.outcomes.Outcome.{Outcome};

use crate::answers::{answer_picture, answer_same, answer_within, answer_word};
use crate::command_line::{Question, parse_question};
use crate::{Outcome, Refusal};
use lois_base::{Decider, NoMemory};
use lois_deciders::Chosen;
use lois_outside::{ReadError, Sink, Source, read_all, write_all};
use std::alloc::Global;

const WRITE_FAULT: u8 = 7;

const NO_MEMORY: u8 = 8;

// What the text comes to, once it is taken.
fn answer(
    alloc: Global,
    question: &Question,
    text: &[u8],
    chosen: &mut Chosen,
) -> Result<Outcome, NoMemory>
    ensures answer { IfOk result (AnswersText question.now text.now) }
    ensures written { IfOk result HasText }
{
    match question {
        Question::Word(name) => answer_word(alloc, text, name, chosen),
        Question::Within(first, second) => answer_within(alloc, text, first, second, chosen),
        Question::Same => answer_same(alloc, text, chosen),
        Question::Picture(name) => answer_picture(alloc, text, name, chosen),
    }
}

// What a question comes to that has its decider.
fn answer_source<S: Source>(
    alloc: Global,
    question: &Question,
    source: &mut S,
    chosen: &mut Chosen,
) -> Result<Outcome, NoMemory>
    ensures outcome { IfOk result (λ o. (words : List (List ℕ)) → (kinds : List Kind) → Asks question.now words → (IsUsage words kinds → ⊥) → IsOutcomeOf words kinds S.left S.faults S.takes source.old source.new o) }
    ensures count_never_falls { S.faults source.old ≤ S.faults source.new }
    ensures written { IfOk result HasText }
    ensures no_memory { IfErr result (λ e. GaveUnder S.left S.takes (limit_of question.now) (limit_of question.now) source.old source.new) }
{
    let limit = question.limit();
    match read_all(alloc, source, limit) {
        Ok(text) => answer(alloc, question, &text, chosen),
        Err(ReadError::ReadFault) => Ok(Outcome::ReadFault),
        Err(ReadError::TooLong(_)) => Ok(Outcome::Refused(Refusal::TooLong(limit))),
        Err(ReadError::NoMemory) => Err(NoMemory),
    }
}

/// What the words ask of the results whose text the source has left; `NoMemory` where memory ran out. The words are those after
/// the program's name. `word A` asks for a shortest word that the lines of the name A accept, `within A B` whether each word of
/// the lines of A is one of those of B, `same` whether two results, one behind the other, print the same, and `picture A` for
/// the graph of the line of A. The first decider is asked. A text of at most 1,048,576 bytes is read, and for `same` one of at
/// most 2,097,152.
pub fn outcome<S: Source>(
    alloc: Global,
    words: &[String],
    source: &mut S,
    deciders: Vec<Box<dyn Decider>>,
) -> Result<Outcome, NoMemory>
    ensures outcome { IfOk result (IsOutcomeOf (map string_bytes words.now) (map (λ b. kind_of b) deciders.items) S.left S.faults S.takes source.old source.new) }

    // After usage the source is as it was, also where memory ran out.
    ensures source_untouched { IsUsage (map string_bytes words.now) (map (λ b. kind_of b) deciders.items) → source.new ≡ source.old }
    ensures count_never_falls { S.faults source.old ≤ S.faults source.new }

    ensures written { IfOk result HasText }

    // Where memory ran out, no more was read than the question may be asked of.
    ensures no_memory { IfErr result (λ e. GaveUnder S.left S.takes (limit_in (map string_bytes words.now)) (limit_in (map string_bytes words.now)) source.old source.new) }
{
    let Some(question) = parse_question(alloc, words)? else {
        return Ok(Outcome::Usage);
    };
    let Some(mut chosen) = Chosen::choose(deciders, None) else {
        return Ok(Outcome::Usage);
    };
    answer_source(alloc, &question, source, &mut chosen)
}

/// Makes the outcome, writes its text and gives the exit status: that of the outcome, 7 where a call of the
/// sink failed, and 8 where memory ran out. The text is whole before the first call of the sink.
pub fn lois_ask<S: Source, K: Sink>(
    alloc: Global,
    words: &[String],
    source: &mut S,
    sink: &mut K,
    deciders: Vec<Box<dyn Decider>>,
) -> u8
    // Either memory ran out before the first call of the sink, or some outcome of the words and the source is told.
    ensures answer { ((result ≡ 8) × (sink.new ≡ sink.old) × GaveUnder S.left S.takes (limit_in (map string_bytes words.now)) (limit_in (map string_bytes words.now) + 1) source.old source.new) ⊎ ((o : Outcome) × IsOutcomeOf (map string_bytes words.now) (map (λ b. kind_of b) deciders.items) S.left S.faults S.takes source.old source.new o × HasText o × OutcomeIsWritten K.held K.faults K.puts sink.old sink.new o result) }

    // After usage the source is as it was, whatever becomes of the answer.
    ensures source_untouched { IsUsage (map string_bytes words.now) (map (λ b. kind_of b) deciders.items) → source.new ≡ source.old }
    ensures write_fault { result ≡ 7 → Rose (K.faults sink.old) (K.faults sink.new) }
    ensures reads_never_fall { S.faults source.old ≤ S.faults source.new }
    ensures writes_never_fall { K.faults sink.old ≤ K.faults sink.new }
{
    let Ok(outcome) = outcome(alloc, words, source, deciders) else {
        return NO_MEMORY;
    };
    let Ok(text) = outcome.text(alloc) else {
        return NO_MEMORY;
    };
    match write_all(sink, &text) {
        Ok(()) => outcome.status(),
        Err(_) => WRITE_FAULT,
    }
}
