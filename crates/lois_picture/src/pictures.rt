//! The picture of a name's line in results.

ghost use Rattle.std.specs.Prelude.{◌≡◌, [], IfOk};
ghost use Rattle.lois_answers.specs.Sound.{IsSound};
ghost use Rattle.lois_cases.specs.Holding.{IsHolding};
ghost use Rattle.lois_deciders.specs.OnlyAsked.{HasOnlyAsked};
ghost use Rattle.lois_picture.specs.Pictures.{IsPicture, HasPictureText};

use crate::drawing::draw_value;
use crate::graphs::Graph;
use lois_answers::Results;
use lois_base::{Decider, Name, NoMemory, Structure};
use lois_cases::{Holding, find_case};
use lois_deciders::Chosen;
use std::alloc::Global;

/// Why there is no picture.
#[derive(Drop)]
pub enum PictureFault {
    HasParameters,
    // no case holds
    NoCase,
    // two cases hold, by their numbers, from 1, the earlier one first
    TwoCases(usize, usize),
    // the case that holds, by its number, from 1, has no line of the name
    NoLine(Name, usize),
    // its line of the name is neither an automaton nor a set of pairs
    NotGraph(Name, usize),
}

/// What is drawn of results.
#[derive(Drop)]
pub enum Picture {
    Drawn(Graph),
    Refused(PictureFault),
}

/// The graph of the automaton or the set of pairs that the line of the name holds, in the one case that holds of results without
/// parameters, or why there is none. Where the case has several lines of the name, the last one counts. Errors: `NoMemory`, also
/// where a level would pass the greatest usize.
pub fn draw<T: Structure>(
    alloc: Global,
    results: &Results,
    name: &Name,
    chosen: &mut Chosen,
) -> Result<Picture, NoMemory>
    requires sound { IsSound results.now }
    requires structure { T.ordered ≡ results.now.order }
    ensures picture { IfOk result (IsPicture T.ordered results.now name.now) }
    ensures text { IfOk result HasPictureText }

    // whatever is answered
    ensures only_asked { HasOnlyAsked (λ b. (⟦<dyn Decider as Decider>⟧ b.vtable).kind_of b.value) (λ b. (⟦<dyn Decider as Decider>⟧ b.vtable).questions b.value) chosen.old chosen.new }
{
    if results.parameters.len() > 0 {
        return Ok(Picture::Refused(PictureFault::HasParameters));
    }
    match find_case(&results.cases, &[]) {
        Holding::Nowhere => Ok(Picture::Refused(PictureFault::NoCase)),
        Holding::Twice(first, second) => {
            Ok(Picture::Refused(PictureFault::TwoCases(first, second)))
        }
        Holding::Once(number) => draw_case::<T>(alloc, results, number, name, chosen),
    }
}

// The picture of the case that holds alone.
fn draw_case<T: Structure>(
    alloc: Global,
    results: &Results,
    number: usize,
    name: &Name,
    chosen: &mut Chosen,
) -> Result<Picture, NoMemory>
    requires sound { IsSound results.now }
    requires structure { T.ordered ≡ results.now.order }
    requires parameters { results.now.parameters ≡ [] }
    requires holding { IsHolding [] results.now.cases (Holding.Once number) }
    ensures picture { IfOk result (IsPicture T.ordered results.now name.now) }
    ensures only_asked { HasOnlyAsked (λ b. (⟦<dyn Decider as Decider>⟧ b.vtable).kind_of b.value) (λ b. (⟦<dyn Decider as Decider>⟧ b.vtable).questions b.value) chosen.old chosen.new }
{
    let Some(case) = results.cases.get(number - 1) else {
        unreachable!()
    };
    let Some(line) = case.lines.last_named(name) else {
        let fault = PictureFault::NoLine(name.copy(alloc)?, number);
        return Ok(Picture::Refused(fault));
    };
    match draw_value::<T>(alloc, &line.term, chosen)? {
        Some(graph) => Ok(Picture::Drawn(graph)),
        None => {
            let fault = PictureFault::NotGraph(name.copy(alloc)?, number);
            Ok(Picture::Refused(fault))
        }
    }
}
