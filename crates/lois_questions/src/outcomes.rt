//! What the top call comes to.

ghost use Rattle.std.specs.Prelude.{◌≡◌, ◌++◌, IfOk, OnOk, codes};
ghost use Rattle.std.specs.Fmt.{decimal};
ghost use Rattle.std.specs.List.{flat_map};
ghost use Rattle.lois_answers.specs.ResultsText.{lined, spaced};
ghost use Rattle.lois_questions.specs.Outcomes.{status_of, input_text, at_choice_text, second_placed_text, refusal_text, outcome_text, HasText};

use lois_base::{Name, Names, NoMemory, Numbers};
use lois_command::{case_line, refused_line, text_line};
use lois_equal::{Difference, print_difference};
use lois_languages::print_word;
use lois_lexer::Place;
use lois_picture::{Graph, print_graph};
use lois_printer::{append, append_number};
use lois_same::{Contrast, print_contrast};
use lois_shortest_word::Word;
use std::alloc::Global;

/// Which text a refusal is about: the only one, or one of two.
#[derive(Drop)]
pub enum Input {
    Only,
    First,
    Second,
}

/// Why a text is refused. Cases of results are counted from 1.
#[derive(Drop)]
pub enum Refusal {
    /// The input has more than this many bytes.
    TooLong(usize),
    /// The text, or the first of two, is that of no results.
    NotResults(Place),
    /// The second text is that of no results.
    SecondNotResults(Place),
    /// A case of the results has no line of that name.
    NoLine(Name, usize),
    /// At some choice that the case admits its line of that name holds no automaton.
    NotAutomaton(Name, usize),
    /// At some choice that the case admits its line of that name holds no deterministic automaton.
    NotDeterministic(Name, usize),
    /// In the case that holds the last line of that name is no automaton and no set of pairs.
    NotGraph(Name, usize),
    /// A picture is asked for of results with parameters.
    HasParameters,
    /// No case holds at the choice.
    NoCase(Input, Numbers),
    /// Two cases hold at the choice, the earlier one first.
    TwoCases(Input, usize, usize, Numbers),
}

const USAGE: &[u8] = b"usage: lois_ask word A|within A B|same|picture A";

/// What the top call comes to. The names behind a word, a difference or a contrast are the parameters of the results.
#[derive(Drop)]
pub enum Outcome {
    /// The line of the case of that number accepts the word, and no line of an earlier case accepts any.
    Word(usize, Word, Names),
    /// No line accepts a word.
    NoWord,
    /// In each case the second line accepts each word that the first one accepts.
    Within,
    /// In the case of that number the first line, which is named, accepts a word that the second one doesn't.
    Beyond(usize, Difference, Name, Names),
    /// The two results say the same.
    Same,
    /// The one results are about atoms of equality, the other ones about those of an order.
    Structure,
    /// The parameters of the two results differ, or stand in another order.
    Parameters,
    /// At some choice the lines of the two results differ.
    Differ(Contrast, Names),
    /// The graph of the line that was asked for.
    Picture(Graph),
    Refused(Refusal),
    /// A call of the source failed.
    ReadFault,
    /// The words are none that the program takes.
    Usage,
}

impl Outcome {
    /// The exit status: 0 where there is a word or a graph, each word of the first line is one of the second, or two results say
    /// the same, 10 where that isn't so, 5 where the text is refused, 6 after a read fault, and 9 where the words are none that
    /// the program takes.
    pub fn status(&self) -> u8
        ensures { result ≡ status_of self.now }
    {
        match self {
            Outcome::Word(_, _, _) => 0,
            Outcome::NoWord => 10,
            Outcome::Within => 0,
            Outcome::Beyond(_, _, _, _) => 10,
            Outcome::Same => 0,
            Outcome::Structure => 10,
            Outcome::Parameters => 10,
            Outcome::Differ(_, _) => 10,
            Outcome::Picture(_) => 0,
            Outcome::Refused(_) => 5,
            Outcome::ReadFault => 6,
            Outcome::Usage => 9,
        }
    }

    /// The bytes that are written for the outcome.
    pub fn text(&self, alloc: Global) -> Result<Vec<u8>, NoMemory>
        requires { HasText self.now }
        ensures { IfOk result (λ text. text.items ≡ outcome_text self.now) }
    {
        match self {
            Outcome::Word(case, word, parameters) => print_word(alloc, parameters, *case, word),
            Outcome::NoWord => text_line(alloc, b"none"),
            Outcome::Within => text_line(alloc, b"within"),
            Outcome::Beyond(case, difference, name, parameters) => {
                print_difference(alloc, parameters, *case, difference, name)
            }
            Outcome::Same => text_line(alloc, b"same"),
            Outcome::Structure => text_line(alloc, b"differ in structure"),
            Outcome::Parameters => text_line(alloc, b"differ in parameters"),
            Outcome::Differ(contrast, parameters) => print_contrast(alloc, parameters, contrast),
            Outcome::Picture(graph) => print_graph(alloc, graph),
            Outcome::Refused(refusal) => refusal.text(alloc),
            Outcome::ReadFault => Ok(Vec::new(alloc)),
            Outcome::Usage => text_line(alloc, USAGE),
        }
    }
}

impl Refusal {
    fn text(&self, alloc: Global) -> Result<Vec<u8>, NoMemory>
        ensures { IfOk result (λ text. text.items ≡ lined (refusal_text self.now)) }
    {
        match self {
            Refusal::TooLong(limit) => too_long_line(alloc, *limit),
            Refusal::NotResults(place) => refused_line(alloc, *place, b"not results"),
            Refusal::SecondNotResults(place) => second_refused_line(alloc, *place),
            Refusal::NoLine(name, case) => { case_line(alloc, b"no line ", name, *case, b"") }
            Refusal::NotAutomaton(name, case) => {
                case_line(alloc, b"", name, *case, b" is no automaton")
            }
            Refusal::NotDeterministic(name, case) => {
                case_line(alloc, b"", name, *case, b" is no deterministic automaton")
            }
            Refusal::NotGraph(name, case) => {
                case_line(
                    alloc,
                    b"",
                    name,
                    *case,
                    b" is no automaton and no set of pairs",
                )
            }
            Refusal::HasParameters => {
                text_line(alloc, b"refused: picture of results with parameters")
            }
            Refusal::NoCase(input, sample) => no_case_line(alloc, input, sample),
            Refusal::TwoCases(input, first, second, sample) => {
                two_cases_line(alloc, input, *first, *second, sample)
            }
        }
    }
}

fn too_long_line(alloc: Global, limit: usize) -> Result<Vec<u8>, NoMemory>
    ensures { IfOk result (λ text. text.items ≡ lined (codes "refused: input over " ++ decimal limit ++ codes " bytes")) }
{
    let mut text = Vec::new(alloc);
    append(&mut text, b"refused: input over ")?;
    append_number(alloc, &mut text, limit as u64)?;
    append(&mut text, b" bytes\n")?;
    Ok(text)
}

fn second_refused_line(alloc: Global, place: Place) -> Result<Vec<u8>, NoMemory>
    ensures { IfOk result (λ text. text.items ≡ lined (second_placed_text place)) }
{
    let mut text = Vec::new(alloc);
    append(&mut text, b"refused at ")?;
    append_number(alloc, &mut text, place.line as u64)?;
    append(&mut text, b":")?;
    append_number(alloc, &mut text, place.column as u64)?;
    append(&mut text, b" of the second: not results")?;
    append(&mut text, b"\n")?;
    Ok(text)
}

fn no_case_line(alloc: Global, input: &Input, sample: &Numbers) -> Result<Vec<u8>, NoMemory>
    ensures { IfOk result (λ text. text.items ≡ lined (codes "refused: no case" ++ at_choice_text sample.now input.now)) }
{
    let mut text = Vec::new(alloc);
    append(&mut text, b"refused: no case")?;
    append_at_choice(alloc, &mut text, sample, input)?;
    append(&mut text, b"\n")?;
    Ok(text)
}

fn two_cases_line(
    alloc: Global,
    input: &Input,
    first: usize,
    second: usize,
    sample: &Numbers,
) -> Result<Vec<u8>, NoMemory>
    ensures { IfOk result (λ text. text.items ≡ lined (codes "refused: cases " ++ decimal first ++ codes " and " ++ decimal second ++ at_choice_text sample.now input.now)) }
{
    let mut text = Vec::new(alloc);
    append(&mut text, b"refused: cases ")?;
    append_number(alloc, &mut text, first as u64)?;
    append(&mut text, b" and ")?;
    append_number(alloc, &mut text, second as u64)?;
    append_at_choice(alloc, &mut text, sample, input)?;
    append(&mut text, b"\n")?;
    Ok(text)
}

fn append_at_choice(
    alloc: Global,
    text: &mut Vec<u8>,
    sample: &Numbers,
    input: &Input,
) -> Result<(), NoMemory>
    ensures appended { OnOk result (text.new.items ≡ text.old.items ++ at_choice_text sample.now input.now) }
{
    append(text, b" at choice")?;
    append_numbers(alloc, text, sample)?;
    append(text, input.text())
}

fn append_numbers(alloc: Global, text: &mut Vec<u8>, sample: &Numbers) -> Result<(), NoMemory>
    ensures appended { OnOk result (text.new.items ≡ text.old.items ++ flat_map (λ a. spaced (decimal a)) sample.now) }
{
    for number in sample.as_slice() {
        append(text, b" ")?;
        append_number(alloc, text, *number)?;
    }
    Ok(())
}

impl Input {
    // What stands behind the words about it.
    fn text(&self) -> &'static [u8]
        ensures { result.now ≡ input_text self.now }
    {
        match self {
            Input::Only => b"",
            Input::First => b" of the first",
            Input::Second => b" of the second",
        }
    }
}
