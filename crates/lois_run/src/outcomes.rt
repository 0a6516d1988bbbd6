//! What the top call comes to.

ghost use Rattle.std.specs.Prelude.{◌≡◌, IfOk};
ghost use Rattle.lois_run.specs.Outcomes.{status_of, failure_status, refusal_text, made_text, outcome_text, HasText};
ghost use Rattle.lois_answers.specs.ResultsText.{lined};
ghost use Rattle.lois_answers.specs.TraceText.{answer_text};
ghost use Rattle.lois_reader.specs.Refusal.{IsSoundAnswer};

use crate::texts::{lexical_text, scope_text, syntax_text};
use lois_answers::{Answer, FaultKind, Results, Trace};
use lois_base::{Name, Names, NoMemory};
use lois_census::{Censuses, print_censuses};
use lois_command::{case_line, refused_line, text_line};
use lois_equal::{Difference, print_difference};
use lois_lexer::Place;
use lois_printer::{append, append_count, print_results, print_trace};
use lois_script::Script;
use lois_script_printer::print_script;
use std::alloc::Global;

/// Why a text is refused. The number is that of the cause, counted from 1 in the order in which the errors of `lex`,
/// `read_script` and `check` are declared. Cases of results are counted from 1.
#[derive(Drop)]
pub enum Refusal {
    /// The input has more than 1,048,576 bytes.
    TooLong,
    /// A place of the text has no token: 1 to 3.
    Lexical(u8, Place),
    /// The tokens are no script: 1 to 4.
    Syntax(u8, Place),
    /// The script is not well scoped: 1 to 5.
    Scope(u8, Place),
    /// The text is that of no results and no trace; where a line of results is looked for, of no results.
    NotResults(Place),
    /// The text is that of no register automaton.
    NotRegisters(Place),
    /// A case of the results has no line of that name.
    NoLine(Name, usize),
    /// At some choice that the case admits its line of that name holds no deterministic automaton.
    NotDeterministic(Name, usize),
    /// The results have parameters.
    HasParameters,
    /// The line of that name holds no set in the case.
    NotASet(Name, usize),
}

/// What `make` counts: the loops of the made script, its bytes, the cases of its results, and the comprehensions of the set
/// that it prints.
#[derive(Clone, Copy, PartialEq, Eq, Debug)]
pub struct Made {
    pub statements: u32,
    pub bytes: usize,
    pub cases: usize,
    pub comprehensions: usize,
}

const USAGE: &[u8] =
    b"usage: lois run|check|reread|make N|equal A B|registers|census A [--decider plain|graph|memo]";

/// What the top call comes to.
#[derive(Drop)]
pub enum Outcome {
    /// What the script printed.
    Completed(Results),
    /// Where and how it fails, under which choice of the parameters and for which elements of its loops.
    Failed(Trace),
    /// The results or the trace that the text is.
    Reread(Answer),
    /// A well-scoped script.
    Checked(Script),
    /// What the results of the made script come to.
    Made(Made),
    /// Two lines accept the same words in each case.
    Same,
    /// In the case of that number a word tells two lines apart, of which the named one accepts it. The names behind are the
    /// parameters of the results.
    Differ(usize, Difference, Name, Names),
    /// The results that hold the automaton of a register automaton.
    Translated(Results),
    /// One member of each orbit of a set, for each case that holds.
    Census(Censuses),
    Refused(Refusal),
    /// A call of the source failed.
    ReadFault,
    /// The words are none that the program takes.
    Usage,
}

impl Outcome {
    /// The exit status: 0 where the script has completed, was checked or was made, where the text was read again or translated, where
    /// two lines accept the same words and where orbits are listed, 1 to 4 where the script fails, 5 where the text is refused, 6 after a
    /// read fault, 9 where the words are none that the program takes, and 10 where two lines differ.
    pub fn status(&self) -> u8
        ensures { result ≡ status_of self.now }
    {
        match self {
            Outcome::Completed(_) => 0,
            Outcome::Failed(trace) => failure_status(trace.kind),
            Outcome::Reread(_) => 0,
            Outcome::Checked(_) => 0,
            Outcome::Made(_) => 0,
            Outcome::Same => 0,
            Outcome::Differ(_, _, _, _) => 10,
            Outcome::Translated(_) => 0,
            Outcome::Census(_) => 0,
            Outcome::Refused(_) => 5,
            Outcome::ReadFault => 6,
            Outcome::Usage => 9,
        }
    }

    /// The bytes that are written for the outcome.
    pub fn text(&self, alloc: Global) -> Result<Vec<u8>, NoMemory>
        requires { HasText self.now }
        ensures { IfOk result (λ text. text.items ≡ outcome_text self.now) }
    {
        match self {
            Outcome::Completed(results) => print_results(alloc, results),
            Outcome::Failed(trace) => print_trace(alloc, trace),
            Outcome::Reread(answer) => print_answer(alloc, answer),
            Outcome::Checked(script) => print_script(alloc, script),
            Outcome::Made(made) => made.text(alloc),
            Outcome::Same => text_line(alloc, b"equal"),
            Outcome::Differ(case, difference, name, parameters) => {
                print_difference(alloc, parameters, *case, difference, name)
            }
            Outcome::Translated(results) => print_results(alloc, results),
            Outcome::Census(censuses) => print_censuses(alloc, censuses),
            Outcome::Refused(refusal) => refusal.text(alloc),
            Outcome::ReadFault => Ok(Vec::new(alloc)),
            Outcome::Usage => text_line(alloc, USAGE),
        }
    }
}

// 1 for a false assertion, 3 and 4 for the limits of turns and of depth, and 2 for a value of the wrong kind.
fn failure_status(kind: FaultKind) -> u8
    ensures { result ≡ failure_status kind }
{
    match kind {
        FaultKind::Assertion => 1,
        FaultKind::TurnLimit => 3,
        FaultKind::DepthLimit => 4,
        FaultKind::NotASet
        | FaultKind::NotAtoms
        | FaultKind::NotATuple
        | FaultKind::NoSuchPart
        | FaultKind::NotAutomaton
        | FaultKind::NotDeterministic
        | FaultKind::NotComplete => 2,
    }
}

impl Made {
    fn text(&self, alloc: Global) -> Result<Vec<u8>, NoMemory>
        ensures { IfOk result (λ text. text.items ≡ made_text self.now) }
    {
        let mut text = Vec::new(alloc);
        append_count(alloc, &mut text, b"statements ", self.statements as usize)?;
        append_count(alloc, &mut text, b"bytes ", self.bytes)?;
        append_count(alloc, &mut text, b"cases ", self.cases)?;
        append_count(alloc, &mut text, b"comprehensions ", self.comprehensions)?;
        Ok(text)
    }
}

impl Refusal {
    fn text(&self, alloc: Global) -> Result<Vec<u8>, NoMemory>
        ensures { IfOk result (λ text. text.items ≡ lined (refusal_text self.now)) }
    {
        match self {
            Refusal::TooLong => text_line(alloc, b"refused: input over 1048576 bytes"),
            Refusal::Lexical(number, place) => refused_line(
                alloc,
                *place,
                lexical_text(*number).as_bytes(),
            ),
            Refusal::Syntax(number, place) => refused_line(
                alloc,
                *place,
                syntax_text(*number).as_bytes(),
            ),
            Refusal::Scope(number, place) => refused_line(
                alloc,
                *place,
                scope_text(*number).as_bytes(),
            ),
            Refusal::NotResults(place) => refused_line(alloc, *place, b"not results"),
            Refusal::NotRegisters(place) => refused_line(
                alloc,
                *place,
                b"not a register automaton",
            ),
            Refusal::NoLine(name, case) => { case_line(alloc, b"no line ", name, *case, b"") }
            Refusal::NotDeterministic(name, case) => {
                case_line(alloc, b"", name, *case, b" is no deterministic automaton")
            }
            Refusal::HasParameters => text_line(
                alloc,
                b"refused: census of results with parameters",
            ),
            Refusal::NotASet(name, case) => case_line(alloc, b"", name, *case, b" is no set"),
        }
    }
}

fn print_answer(alloc: Global, answer: &Answer) -> Result<Vec<u8>, NoMemory>
    requires { IsSoundAnswer answer.now }
    ensures { IfOk result (λ text. text.items ≡ answer_text answer.now) }
{
    match answer {
        Answer::Results(results) => print_results(alloc, results),
        Answer::Trace(trace) => print_trace(alloc, trace),
    }
}
