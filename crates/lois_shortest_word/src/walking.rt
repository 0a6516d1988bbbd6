//! The way of a shortest word: layers up to the first that has an initial state, and then letter by letter to a final state.

ghost use Rattle.std.specs.Prelude.{◌≡◌, ℕ, ◌+◌, ◌<◌, ◌^◌, Bool, List, [], length, IfOk};
ghost use Rattle.std.specs.List.{All};
ghost use Rattle.lois_base.specs.Atom.{Atom};
ghost use Rattle.lois_base.specs.Data.{comps_of};
ghost use Rattle.lois_base.specs.Fits.{ConstraintFits, Fits};
ghost use Rattle.lois_base.specs.Over.{ItemsAreOver};
ghost use Rattle.lois_base.specs.Tree.{tree};
ghost use Rattle.lois_base.specs.Validity.{AdmitsTerm, AdmitsItems, HasBoundedWidths, ItemsHaveBoundedWidths};
ghost use Rattle.lois_automata.specs.FiveSets.{automaton_of};
ghost use Rattle.lois_deciders.specs.OnlyAsked.{HasOnlyAsked};
ghost use Rattle.lois_shortest_word.specs.Layers.{IsReadable, AreLayers};
ghost use Rattle.lois_shortest_word.specs.Walks.{IsWay, HaveAtLeast, AreShiftedLetters, IsLengthened, IsWordOf};

use crate::layers::sources;
use crate::steps::{SymbolicStep, step_from};
use crate::symbolic_states::{SymbolicState, initial_state};
use crate::words::Word;
use lois_automata::{FiveSets, insert_levels};
use lois_base::{Constraint, Decider, NoMemory, Structure, Term, Terms};
use lois_deciders::Chosen;
use std::alloc::Global;

// The layers before the first that has an initial state, and a stage at such a state.
#[derive(Drop)]
struct Found {
    layers: Terms,
    stage: SymbolicState,
}

/// A shortest word that the automaton of these sets accepts, where it accepts one at some choice that `under` admits. Else the
/// call ends for want of memory alone.
pub fn word_of<T: Structure>(
    alloc: Global,
    sets: FiveSets<'_>,
    under: &Constraint,
    size: usize,
    chosen: &mut Chosen,
) -> Result<Word, NoMemory>
    requires steps { ItemsAreOver T.ordered size (comps_of sets.steps.now) }
    requires initial { ItemsAreOver T.ordered size (comps_of sets.initial.now) }
    requires accepting { ItemsAreOver T.ordered size (comps_of sets.accepting.now) }
    requires under { ConstraintFits size under.now }
    ensures word { IfOk result (λ w. IsWordOf size under.now (automaton_of sets.entry) w) }
    ensures operators { IfOk result (λ w. (o : Bool) → AdmitsItems o (comps_of sets.entry.steps.now) → All (AdmitsTerm o) w.letters) }
    ensures widths { IfOk result (λ w. ItemsHaveBoundedWidths (comps_of sets.entry.steps.now) → All HasBoundedWidths w.letters) }
    ensures only_asked { HasOnlyAsked (λ b. (⟦<dyn Decider as Decider>⟧ b.vtable).kind_of b.value) (λ b. (⟦<dyn Decider as Decider>⟧ b.vtable).questions b.value) chosen.old chosen.new }
{
    let found = nearest::<T>(alloc, sets, under, size, chosen)?;
    let Found { layers, stage } = found;
    let all = layers.as_slice();
    let mut here = stage;
    let mut letters = Terms::new(alloc);
    let mut left = all.len();
    'walking: while left > 0 {
        left -= 1;
        let layer = &all[left];
        let Some(step) = step_from::<T>(alloc, &here, sets.steps, layer, size, chosen)? else {
            unreachable!()
        };
        let SymbolicStep { letter, stage } = step;
        let by = stage.more - here.more;
        let longer = lengthened(alloc, &letters, letter, size + here.more, by)?;
        letters = longer;
        here = stage;
    }
    Ok(Word {
        sample: here.sample,
        letters,
    })
}

// The search is proved to end since a list's length is a usize. With ample memory it ends at the length of a shortest word.
fn nearest<T: Structure>(
    alloc: Global,
    sets: FiveSets<'_>,
    under: &Constraint,
    size: usize,
    chosen: &mut Chosen,
) -> Result<Found, NoMemory>
    requires steps { ItemsAreOver T.ordered size (comps_of sets.steps.now) }
    requires initial { ItemsAreOver T.ordered size (comps_of sets.initial.now) }
    requires accepting { ItemsAreOver T.ordered size (comps_of sets.accepting.now) }
    requires under { ConstraintFits size under.now }
    ensures layers { IfOk result (λ r. AreLayers size (automaton_of sets.entry) r.layers) }
    ensures readable { IfOk result (λ r. All (IsReadable T.ordered size) r.layers) }
    ensures way { IfOk result (λ r. IsWay size under.now (automaton_of sets.entry) (length r.layers) [] r.stage) }
    ensures shortest { IfOk result (λ r. HaveAtLeast size under.now (automaton_of sets.entry) (length r.layers)) }
    ensures operators { IfOk result (λ r. AdmitsTerm T.ordered (tree r.stage.state)) }
    ensures only_asked { HasOnlyAsked (λ b. (⟦<dyn Decider as Decider>⟧ b.vtable).kind_of b.value) (λ b. (⟦<dyn Decider as Decider>⟧ b.vtable).questions b.value) chosen.old chosen.new }
{
    let mut layers = Terms::new(alloc);
    let mut layer = Term::Coll(sets.accepting.copy(alloc)?);
    'layering: loop {
        if let Some(stage) = initial_state::<T>(alloc, sets.initial, &layer, under, size, chosen)? {
            return Ok(Found { layers, stage });
        }
        let _count = layers.len();
        let next = sources::<T>(alloc, sets.steps, &layer, size)?;
        layers.push(layer)?;
        layer = next;
    }
}

// The letters among `by` further levels, and one more letter, which has these already.
fn lengthened(
    alloc: Global,
    letters: &Terms,
    letter: Term,
    size: usize,
    by: usize,
) -> Result<Terms, NoMemory>
    requires letters { All (Fits size) letters.now }
    requires levels { size + by < 2 ^ 64 }
    requires letter { Fits (size + by) (tree letter) }
    ensures lengthened { IfOk result (IsLengthened size by letters.now (tree letter)) }
{
    let mut longer = moved(alloc, letters, size, by)?;
    longer.push(letter)?;
    Ok(longer)
}

fn moved(alloc: Global, letters: &Terms, size: usize, by: usize) -> Result<Terms, NoMemory>
    requires letters { All (Fits size) letters.now }
    requires levels { size + by < 2 ^ 64 }
    ensures moved { IfOk result (AreShiftedLetters size by letters.now) }
{
    let mut among = Terms::new(alloc);
    for letter in letters.as_slice() {
        among.push(insert_levels(alloc, letter, size, by)?)?;
    }
    Ok(among)
}
