//! The top call.

ghost use Rattle.std.specs.Prelude.{◌≡◌, ℕ, ◌+◌, ◌≤◌, ◌⊎◌, ◌↔◌, ◌&&◌, List, Option, is_none, IfOk, IfErr, IsSome, IsTrue, Ok, length, map, string_bytes};
ghost use Rattle.lois_base.specs.declared.deciding.Kind.{Kind};
ghost use Rattle.lois_outside.specs.Faults.{Rose};
ghost use Rattle.lois_command.specs.Calls.{GaveAtMost};
ghost use Rattle.lois_run.specs.Causes.{ReadsText, IsOutcomeOf};
ghost use Rattle.lois_run.specs.TextAnswers.{AnswersText};
ghost use Rattle.lois_run.specs.Outcomes.{OutcomeIsWritten, HasText};
ghost use Rattle.lois_base.specs.declared.limits.TheConstants.{LONGEST_TEXT};
ghost use Rattle.lois_run.specs.Words.{Requests, IsUsage, LacksDecider, wanted_kind, asks_decider};
ghost use Rattle.lois_run.specs.declared.outcomes.Outcome.{Outcome};
ghost use Rattle.lois_run.specs.declared.words.Command.TheVariants.{Run, Check, Reread, Make};

use crate::lines::{compare_text, count_text, translate_text};
use crate::made::run_make;
use crate::reading::{Read, read_text};
use crate::running::run;
use crate::words::{Command, parse_command};
use crate::{Outcome, Refusal};
use lois_base::limits::LONGEST_TEXT;
use lois_base::{Decider, Kind, NoMemory};
use lois_command::place_at;
use lois_deciders::Chosen;
use lois_outside::{ReadError, Sink, Source, read_all, write_all};
use lois_reader::{ResultError, read_answer};
use std::alloc::Global;

const WRITE_FAULT: u8 = 7;

const NO_MEMORY: u8 = 8;

// Which decider the command wants: the first of a kind, or the first of all.
fn wanted_kind(command: &Command) -> Option<Kind>
    ensures { result ≡ wanted_kind command.now }
{
    match command {
        Command::Run(kind) | Command::Make(_, kind) => *kind,
        Command::Check
        | Command::Reread
        | Command::Equal(_, _)
        | Command::Registers
        | Command::Census(_) => None,
    }
}

fn asks_decider(command: &Command) -> bool
    ensures { result ≡ asks_decider command.now }
{
    match command {
        Command::Run(_) | Command::Make(_, _) | Command::Equal(_, _) | Command::Census(_) => true,
        Command::Check | Command::Reread | Command::Registers => false,
    }
}

// Whether the command asks a decider and has none.
fn lacks_decider(command: &Command, chosen: &Option<Chosen>) -> bool
    ensures { result ≡ (asks_decider command.now && is_none chosen.now) }
{
    asks_decider(command) && chosen.is_none()
}

/// What a text comes to that is to be run.
pub(crate) fn run_text(alloc: Global, text: &[u8], chosen: &mut Chosen) -> Result<Outcome, NoMemory>
    requires { length text.now ≤ LONGEST_TEXT }
    ensures answer { IfOk result (λ o. (kind : Option Kind) → AnswersText (Run kind) text.now o) }
    ensures written { IfOk result HasText }
{
    match read_text(alloc, text)? {
        Read::Script(scoped) => run(alloc, text, &scoped, chosen),
        Read::Refused(refusal) => Ok(Outcome::Refused(refusal)),
    }
}

// What a text comes to that is to be checked.
fn check_text(alloc: Global, text: &[u8]) -> Result<Outcome, NoMemory>
    ensures answer { IfOk result (AnswersText Check text.now) }
    ensures written { IfOk result HasText }
{
    match read_text(alloc, text)? {
        Read::Script(scoped) => Ok(Outcome::Checked(scoped.into_script())),
        Read::Refused(refusal) => Ok(Outcome::Refused(refusal)),
    }
}

// What a text comes to that is to be read again.
fn reread_text(alloc: Global, text: &[u8]) -> Result<Outcome, NoMemory>
    ensures answer { IfOk result (AnswersText Reread text.now) }
    ensures written { IfOk result HasText }
{
    match read_answer(alloc, text) {
        Ok(answer) => Ok(Outcome::Reread(answer)),
        Err(ResultError::NotResults(offset)) => {
            Ok(Outcome::Refused(Refusal::NotResults(place_at(text, offset))))
        }
        Err(ResultError::NoMemory) => Err(NoMemory),
    }
}

// What the text comes to, once it is taken. A script is run with the decider that was chosen.
fn answer(
    alloc: Global,
    command: Command,
    text: &[u8],
    chosen: Option<Chosen>,
) -> Result<Outcome, NoMemory>
    requires fits { length text.now ≤ LONGEST_TEXT }
    requires reads { ReadsText command }
    requires decider { IsTrue (asks_decider command) → IsSome chosen }
    ensures answer { IfOk result (AnswersText command text.now) }
    ensures written { IfOk result HasText }
{
    match command {
        Command::Run(_) => match chosen {
            Some(mut chosen) => run_text(alloc, text, &mut chosen),
            None => unreachable!(),
        },
        Command::Check => check_text(alloc, text),
        Command::Reread => reread_text(alloc, text),
        Command::Make(_, _) => unreachable!(),
        Command::Equal(first, second) => match chosen {
            Some(mut chosen) => compare_text(alloc, text, &first, &second, &mut chosen),
            None => unreachable!(),
        },
        Command::Registers => translate_text(alloc, text),
        Command::Census(name) => match chosen {
            Some(mut chosen) => count_text(alloc, text, &name, &mut chosen),
            None => unreachable!(),
        },
    }
}

// What a command comes to that has its decider.
fn served<S: Source>(
    alloc: Global,
    command: Command,
    source: &mut S,
    chosen: Option<Chosen>,
) -> Result<Outcome, NoMemory>
    requires number { (count : ℕ) → (kind : Option Kind) → command ≡ Make count kind → (1 ≤ count) × (count ≤ 10000) }
    requires decider { IsTrue (asks_decider command) → IsSome chosen }
    ensures outcome { IfOk result (λ o. (words : List (List ℕ)) → (kinds : List Kind) → Requests command words → (LacksDecider command kinds → ⊥) → IsOutcomeOf words kinds S.left S.faults S.takes source.old source.new o) }
    ensures make_asks_nothing { (count : ℕ) → (kind : Option Kind) → command ≡ Make count kind → source.new ≡ source.old }
    ensures count_never_falls { S.faults source.old ≤ S.faults source.new }
    ensures written { IfOk result HasText }
    ensures no_memory { IfErr result (λ e. GaveAtMost S.left S.takes LONGEST_TEXT source.old source.new) }
{
    if let Command::Make(count, _) = command {
        return run_make(alloc, count, chosen);
    }
    match read_all(alloc, source, LONGEST_TEXT) {
        Ok(text) => answer(alloc, command, &text, chosen),
        Err(ReadError::ReadFault) => Ok(Outcome::ReadFault),
        Err(ReadError::TooLong(_)) => Ok(Outcome::Refused(Refusal::TooLong)),
        Err(ReadError::NoMemory) => Err(NoMemory),
    }
}

/// What the words ask for, of the text that the source has left; `NoMemory` where memory ran out.
/// The words are those after the program's name. `run` runs a script with the first decider, or with the first of the
/// kind that the option `--decider` names; `check` only reads it; `reread` reads results or a trace; `make` asks the source
/// nothing, and runs a script of its own.
///
/// A text of at most 1,048,576 bytes is read. A script either completes, or fails under some choice of its parameters.
pub fn outcome<S: Source>(
    alloc: Global,
    words: &[String],
    source: &mut S,
    deciders: Vec<Box<dyn Decider>>,
) -> Result<Outcome, NoMemory>
    ensures outcome { IfOk result (IsOutcomeOf (map string_bytes words.now) (map (λ b. kind_of b) deciders.items) S.left S.faults S.takes source.old source.new) }

    // After usage the source is as it was, also where memory ran out.
    ensures source_untouched { IsUsage (map string_bytes words.now) (map (λ b. kind_of b) deciders.items) → source.new ≡ source.old }
    // So it is after `make`.
    ensures make_asks_nothing { (count : ℕ) → (kind : Option Kind) → Requests (Make count kind) (map string_bytes words.now) → source.new ≡ source.old }
    ensures count_never_falls { S.faults source.old ≤ S.faults source.new }

    ensures written { IfOk result HasText }

    // Where memory ran out, no more was read than a script may have.
    ensures no_memory { IfErr result (λ e. GaveAtMost S.left S.takes LONGEST_TEXT source.old source.new) }
{
    let Some(command) = parse_command(alloc, words)? else {
        return Ok(Outcome::Usage);
    };
    let chosen = Chosen::choose(deciders, wanted_kind(&command));
    if lacks_decider(&command, &chosen) {
        return Ok(Outcome::Usage);
    }
    served(alloc, command, source, chosen)
}

/// Makes the outcome, writes its text and gives the exit status: that of the outcome, 7 where a call of the
/// sink failed, and 8 where memory ran out. The text is whole before the first call of the sink.
pub fn lois<S: Source, K: Sink>(
    alloc: Global,
    words: &[String],
    source: &mut S,
    sink: &mut K,
    deciders: Vec<Box<dyn Decider>>,
) -> u8
    // Either memory ran out before the first call of the sink, or some outcome of the words and the source is told.
    ensures answer { ((result ≡ 8) × (sink.new ≡ sink.old) × GaveAtMost S.left S.takes (LONGEST_TEXT + 1) source.old source.new) ⊎ ((o : Outcome) × IsOutcomeOf (map string_bytes words.now) (map (λ b. kind_of b) deciders.items) S.left S.faults S.takes source.old source.new o × HasText o × OutcomeIsWritten K.held K.faults K.puts sink.old sink.new o result) }

    // After usage and after `make` the source is as it was, whatever becomes of the answer.
    ensures source_untouched { IsUsage (map string_bytes words.now) (map (λ b. kind_of b) deciders.items) → source.new ≡ source.old }
    ensures make_asks_nothing { (count : ℕ) → (kind : Option Kind) → Requests (Make count kind) (map string_bytes words.now) → source.new ≡ source.old }
    ensures write_fault { result ≡ 7 → Rose (K.faults sink.old) (K.faults sink.new) }
    ensures reads_never_fall { S.faults source.old ≤ S.faults source.new }
    ensures writes_never_fall { K.faults sink.old ≤ K.faults sink.new }
{
    let Ok(outcome) = outcome(alloc, words, source, deciders) else {
        return NO_MEMORY;
    };
    let Ok(text) = outcome.text(alloc) else {
        return NO_MEMORY;
    };
    match write_all(sink, &text) {
        Ok(()) => outcome.status(),
        Err(_) => WRITE_FAULT,
    }
}
