//! The answers to questions about the lines of results.

ghost use Rattle.std.specs.Prelude.{◌≡◌, length, IfOk};
ghost use Rattle.lois_answers.specs.Sound.{IsSound};
ghost use Rattle.lois_equal.specs.Differences.{AreBounded};
ghost use Rattle.lois_ranks.specs.Ranks.{AreRanks};
ghost use Rattle.lois_languages.specs.Inclusions.{IsInclusion, IfBeyond};
ghost use Rattle.lois_languages.specs.Witnesses.{IsWitness, IfFound};
ghost use Rattle.lois_picture.specs.Pictures.{IsPicture, HasPictureText};
ghost use Rattle.lois_same.specs.ContrastText.{ContrastFits};
ghost use Rattle.lois_same.specs.Likenesses.{IfDiffer};
ghost use Rattle.lois_questions.specs.Answers.{refusal_of, word_outcome, within_outcome, picture_refusal, picture_outcome, IsFlawed, HasFlawsAlone, IsFlawRefusal, IsSameOutcome};
ghost use Rattle.lois_questions.specs.Causes.{AnswersText};
ghost use Rattle.lois_questions.specs.Outcomes.{HasText};
ghost use Rattle.lois_questions.specs.declared.command_line.Question.TheVariants.{Word, Within, Same, Picture};

use crate::outcomes::Input;
use crate::{Outcome, Refusal};
use lois_answers::Results;
use lois_base::{Name, Names, NoMemory, Numbers};
use lois_cases::Partition;
use lois_command::{ResultsRead, results_of};
use lois_deciders::Chosen;
use lois_equality::EqualityAtoms;
use lois_languages::{Inclusion, LineFault, Witness, inclusion_of, word_of};
use lois_order::OrderAtoms;
use lois_picture::{Picture as Drawing, PictureFault, draw};
use lois_same::{Likeness, compare_results, first_length};
use std::alloc::Global;

fn refusal_of(fault: LineFault) -> Refusal
    ensures { result ≡ refusal_of fault }
{
    match fault {
        LineFault::NoLine(name, case) => Refusal::NoLine(name, case),
        LineFault::NotAutomaton(name, case) => Refusal::NotAutomaton(name, case),
        LineFault::NotDeterministic(name, case) => Refusal::NotDeterministic(name, case),
    }
}

/// What a text comes to in whose results a word is looked for that the lines of a name accept.
pub(crate) fn answer_word(
    alloc: Global,
    text: &[u8],
    name: &Name,
    chosen: &mut Chosen,
) -> Result<Outcome, NoMemory>
    ensures answer { IfOk result (AnswersText (Word name.now) text.now) }
    ensures written { IfOk result HasText }
{
    let results = match results_of(alloc, text)? {
        ResultsRead::Results(results) => results,
        ResultsRead::NotResults(place) => return Ok(Outcome::Refused(Refusal::NotResults(place))),
    };
    let witness = witness_in(alloc, &results, name, chosen)?;
    Ok(word_outcome(results.parameters, witness))
}

// Over atoms of the results' structure.
fn witness_in(
    alloc: Global,
    results: &Results,
    name: &Name,
    chosen: &mut Chosen,
) -> Result<Witness, NoMemory>
    requires sound { IsSound results.now }
    ensures witness { IfOk result (IsWitness (length results.now.parameters) name.now results.now.cases) }
    ensures usual { IfOk result (IfFound (λ w. AreBounded results.now.order w.letters)) }
    ensures ranked { IfOk result (IfFound (λ w. AreRanks results.now.order w.sample)) }
{
    if results.order {
        word_of::<OrderAtoms>(alloc, results, name, chosen)
    } else {
        word_of::<EqualityAtoms>(alloc, results, name, chosen)
    }
}

fn word_outcome(parameters: Names, witness: Witness) -> Outcome
    ensures { result ≡ word_outcome parameters witness }
{
    match witness {
        Witness::Nothing => Outcome::NoWord,
        Witness::Found(case, word) => Outcome::Word(case, word, parameters),
        Witness::Refused(fault) => Outcome::Refused(refusal_of(fault)),
    }
}

/// What a text comes to in whose results the words of the lines of one name are looked for among those of another.
pub(crate) fn answer_within(
    alloc: Global,
    text: &[u8],
    first: &Name,
    second: &Name,
    chosen: &mut Chosen,
) -> Result<Outcome, NoMemory>
    ensures answer { IfOk result (AnswersText (Within first.now second.now) text.now) }
    ensures written { IfOk result HasText }
{
    let results = match results_of(alloc, text)? {
        ResultsRead::Results(results) => results,
        ResultsRead::NotResults(place) => return Ok(Outcome::Refused(Refusal::NotResults(place))),
    };
    let inclusion = inclusion_in(alloc, &results, first, second, chosen)?;
    Ok(within_outcome(results.parameters, inclusion))
}

// Over atoms of the results' structure.
fn inclusion_in(
    alloc: Global,
    results: &Results,
    first: &Name,
    second: &Name,
    chosen: &mut Chosen,
) -> Result<Inclusion, NoMemory>
    requires sound { IsSound results.now }
    ensures inclusion { IfOk result (IsInclusion (length results.now.parameters) first.now second.now results.now.cases) }
    ensures usual { IfOk result (IfBeyond (λ d. AreBounded results.now.order d.word)) }
    ensures ranked { IfOk result (IfBeyond (λ d. AreRanks results.now.order d.sample)) }
{
    if results.order {
        inclusion_of::<OrderAtoms>(alloc, results, first, second, chosen)
    } else {
        inclusion_of::<EqualityAtoms>(alloc, results, first, second, chosen)
    }
}

fn within_outcome(parameters: Names, inclusion: Inclusion) -> Outcome
    ensures { result ≡ within_outcome parameters inclusion }
{
    match inclusion {
        Inclusion::Within => Outcome::Within,
        Inclusion::Beyond(case, difference, name) => Outcome::Beyond(
            case, difference, name, parameters,
        ),
        Inclusion::Refused(fault) => Outcome::Refused(refusal_of(fault)),
    }
}

/// What two texts come to, one behind the other, whose results are compared.
pub(crate) fn answer_same(
    alloc: Global,
    text: &[u8],
    chosen: &mut Chosen,
) -> Result<Outcome, NoMemory>
    ensures answer { IfOk result (AnswersText Same text.now) }
    ensures written { IfOk result HasText }
{
    let (first_text, second_text) = text.split_at(first_length(text));
    let first = match results_of(alloc, first_text)? {
        ResultsRead::Results(results) => results,
        ResultsRead::NotResults(place) => return Ok(Outcome::Refused(Refusal::NotResults(place))),
    };
    let second = match results_of(alloc, second_text)? {
        ResultsRead::Results(results) => results,
        ResultsRead::NotResults(place) => {
            return Ok(Outcome::Refused(Refusal::SecondNotResults(place)));
        }
    };
    let likeness = compare_results(alloc, &first, &second, chosen)?;
    Ok(same_outcome(first.parameters, likeness))
}

// Flaws are no partitions.
fn same_outcome(parameters: Names, likeness: Likeness) -> Outcome
    requires { HasFlawsAlone likeness }
    ensures { IsSameOutcome parameters likeness result }
{
    match likeness {
        Likeness::Same => Outcome::Same,
        Likeness::Structure => Outcome::Structure,
        Likeness::Parameters => Outcome::Parameters,
        Likeness::Differ(contrast) => Outcome::Differ(contrast, parameters),
        Likeness::First(flaw) => Outcome::Refused(flaw_refusal(Input::First, flaw)),
        Likeness::Second(flaw) => Outcome::Refused(flaw_refusal(Input::Second, flaw)),
    }
}

fn flaw_refusal(input: Input, flaw: Partition) -> Refusal
    requires { IsFlawed flaw }
    ensures { IsFlawRefusal input flaw result }
{
    match flaw {
        Partition::Overlap(first, second, sample) => {
            Refusal::TwoCases(input, first, second, sample)
        }
        Partition::Gap(sample) => Refusal::NoCase(input, sample),
        Partition::Whole => unreachable!(),
    }
}

/// What a text comes to in whose results the line of a name is drawn.
pub(crate) fn answer_picture(
    alloc: Global,
    text: &[u8],
    name: &Name,
    chosen: &mut Chosen,
) -> Result<Outcome, NoMemory>
    ensures answer { IfOk result (AnswersText (Picture name.now) text.now) }
    ensures written { IfOk result HasText }
{
    let results = match results_of(alloc, text)? {
        ResultsRead::Results(results) => results,
        ResultsRead::NotResults(place) => return Ok(Outcome::Refused(Refusal::NotResults(place))),
    };
    let picture = picture_in(alloc, &results, name, chosen)?;
    Ok(picture_outcome(alloc, picture))
}

// Over atoms of the results' structure.
fn picture_in(
    alloc: Global,
    results: &Results,
    name: &Name,
    chosen: &mut Chosen,
) -> Result<Drawing, NoMemory>
    requires sound { IsSound results.now }
    ensures picture { IfOk result (IsPicture results.now.order results.now name.now) }
    ensures text { IfOk result HasPictureText }
{
    if results.order {
        draw::<OrderAtoms>(alloc, results, name, chosen)
    } else {
        draw::<EqualityAtoms>(alloc, results, name, chosen)
    }
}

fn picture_outcome(alloc: Global, picture: Drawing) -> Outcome
    ensures { result ≡ picture_outcome picture }
{
    match picture {
        Drawing::Drawn(graph) => Outcome::Picture(graph),
        Drawing::Refused(fault) => Outcome::Refused(picture_refusal(alloc, fault)),
    }
}

fn picture_refusal(alloc: Global, fault: PictureFault) -> Refusal
    ensures { result ≡ picture_refusal fault }
{
    match fault {
        PictureFault::HasParameters => Refusal::HasParameters,
        PictureFault::NoCase => Refusal::NoCase(Input::Only, Numbers::new(alloc)),
        PictureFault::TwoCases(first, second) => {
            Refusal::TwoCases(Input::Only, first, second, Numbers::new(alloc))
        }
        PictureFault::NoLine(name, case) => Refusal::NoLine(name, case),
        PictureFault::NotGraph(name, case) => Refusal::NotGraph(name, case),
    }
}
