//! The orbit-finite automaton of a register automaton.

ghost use Rattle.std.specs.Prelude.{◌≡◌, ◌≤◌, List, [], ◌∷◌, ◌++◌, None, map, length, replicate, IfOk, OnOk};
ghost use Rattle.std.specs.List.{All};
ghost use Rattle.lois_answers.specs.Sound.{IsSoundTerm};
ghost use Rattle.lois_base.specs.Data.{CompD, var, coll, comp, comps_of};
ghost use Rattle.lois_base.specs.Tree.{tree};
ghost use Rattle.lois_registers.specs.Placed.{AreMade, configuration_comp, configuration_term, configurations, five_terms, step_item, step_comp, step_comps};
ghost use Rattle.lois_registers.specs.MadeSteps.{AddsMade};
ghost use Rattle.lois_registers.specs.Translation.{IsTranslatedTo};
ghost use Rattle.lois_registers.specs.Valid.{IsRegisters};
ghost use Rattle.lois_registers.specs.Written.{IsWrittenFrom};

use crate::placements::{Placement, all_placements, configuration, place_guard, stored};
use crate::{RegStep, RegSteps, Registers};
use lois_base::{Comp, Comps, Constraint, Name, NoMemory, Term, Terms};
use lois_constraint::normalise;
use std::alloc::Global;

/// The configurations with this state.
fn add_configurations(
    alloc: Global,
    comps: &mut Comps,
    name: &Name,
    places: &[Placement],
) -> Result<(), NoMemory>
    ensures { OnOk result (comps.new ≡ comps.old ++ map (configuration_comp name.now) places.now) }
{
    for place in places {
        comps.push(Comp {
            binders: place.levels(),
            guard: Constraint::always(alloc)?,
            item: configuration(alloc, name, place.contents())?,
        })?;
    }
    Ok(())
}

/// The set of the configurations with these states.
fn configurations_of(alloc: Global, names: &[Name], places: &[Placement]) -> Result<Term, NoMemory>
    ensures { IfOk result (λ t. tree t ≡ coll (comps_of (configurations places.now names.now))) }
{
    let mut comps = Comps::new(alloc);
    for name in names {
        add_configurations(alloc, &mut comps, name, places)?;
    }
    Ok(Term::Coll(comps))
}

/// The triple of a step from the configurations at a placement.
fn step_triple(alloc: Global, step: &RegStep, place: &Placement) -> Result<Term, NoMemory>
    requires few { length place.now ≤ 4 }
    ensures { IfOk result (λ t. tree t ≡ step_item step.now place.now) }
{
    let letter = place.levels();
    let after = stored(alloc, place.contents(), &step.stored, letter)?;
    let mut parts = Terms::new(alloc);
    parts.push(configuration(alloc, &step.from, place.contents())?)?;
    parts.push(Term::Var(letter))?;
    parts.push(configuration(alloc, &step.to, &after)?)?;
    Ok(Term::Tup(parts))
}

/// The step from the configurations at a placement, left out where none of them takes it.
fn add_step(
    alloc: Global,
    comps: &mut Comps,
    step: &RegStep,
    place: &Placement,
) -> Result<(), NoMemory>
    requires few { length place.now ≤ 4 }
    ensures { OnOk result (AddsMade (step_comp step.now place.now ∷ []) comps.old comps.new) }
{
    let letter = place.levels();
    let placed = place_guard(alloc, &step.guard, place.contents(), letter)?;
    let guard = normalise(alloc, &placed)?;
    if guard.len() == 0 {
        return Ok(());
    }
    let item = step_triple(alloc, step, place)?;
    comps.push(Comp {
        binders: letter + 1,
        guard,
        item,
    })
}

/// A step from the configurations at each placement.
fn add_steps(
    alloc: Global,
    comps: &mut Comps,
    step: &RegStep,
    places: &[Placement],
) -> Result<(), NoMemory>
    requires few { All (λ os. length os ≤ 4) places.now }
    ensures { OnOk result (AddsMade (map (step_comp step.now) places.now) comps.old comps.new) }
{
    for place in places {
        add_step(alloc, comps, step, place)?;
    }
    Ok(())
}

/// The set of the steps.
fn steps_of(alloc: Global, steps: &RegSteps, places: &[Placement]) -> Result<Term, NoMemory>
    requires few { All (λ os. length os ≤ 4) places.now }
    ensures { IfOk result (λ t. (made : List CompD) × (tree t ≡ coll (comps_of made)) × AreMade (step_comps places.now steps.now) made) }
{
    let mut comps = Comps::new(alloc);
    for step in steps.as_slice() {
        add_steps(alloc, &mut comps, step, places)?;
    }
    Ok(Term::Coll(comps))
}

/// The set of one term without levels.
fn singleton(alloc: Global, item: Term) -> Result<Term, NoMemory>
    ensures { IfOk result (λ t. tree t ≡ coll (comps_of (comp 0 ([] ∷ []) (tree item) ∷ []))) }
{
    let mut comps = Comps::new(alloc);
    comps.push(Comp {
        binders: 0,
        guard: Constraint::always(alloc)?,
        item,
    })?;
    Ok(Term::Coll(comps))
}

/// The set of all atoms.
fn all_atoms(alloc: Global) -> Result<Term, NoMemory>
    ensures { IfOk result (λ t. tree t ≡ coll (comps_of (comp 1 ([] ∷ []) (var 0) ∷ []))) }
{
    let mut comps = Comps::new(alloc);
    comps.push(Comp {
        binders: 1,
        guard: Constraint::always(alloc)?,
        item: Term::Var(0),
    })?;
    Ok(Term::Coll(comps))
}

/// The configuration of the first state, in which every register is empty.
fn first_of(alloc: Global, state: &Name, registers: u32) -> Result<Term, NoMemory>
    ensures { IfOk result (λ t. tree t ≡ configuration_term state.now (replicate registers None)) }
{
    let mut contents = Vec::new(alloc);
    for _register in 0..registers {
        contents.push(None)?;
    }
    configuration(alloc, state, &contents)
}

/// A tuple of five.
fn five(
    alloc: Global,
    states: Term,
    letters: Term,
    steps: Term,
    initial: Term,
    accepting: Term,
) -> Result<Term, NoMemory>
    ensures { IfOk result (λ t. tree t ≡ five_terms (tree states) (tree letters) (tree steps) (tree initial) (tree accepting)) }
{
    let mut parts = Terms::new(alloc);
    parts.push(states)?;
    parts.push(letters)?;
    parts.push(steps)?;
    parts.push(initial)?;
    parts.push(accepting)?;
    Ok(Term::Tup(parts))
}

/// The automaton whose states are the configurations of `r`: tuples of a tag for the state and the contents of the registers,
/// where the tag `'none` stands for an empty one. Its letters are all atoms, and it accepts exactly the words of atoms that `r`
/// accepts. The term has no free level. Errors: `NoMemory`.
pub fn translate(alloc: Global, r: &Registers) -> Result<Term, NoMemory>
    requires valid { IsRegisters r.now }
    ensures automaton { IfOk result (λ t. IsTranslatedTo r.now (tree t)) }
    ensures written { IfOk result (λ t. IsWrittenFrom r.now (tree t)) }
    ensures sound { IfOk result (λ t. IsSoundTerm r.now.order 0 (tree t)) }
{
    let all = all_placements(alloc, r.registers)?;
    let places = all.as_slice();
    let states = configurations_of(alloc, r.states.as_slice(), places)?;
    let letters = all_atoms(alloc)?;
    let steps = steps_of(alloc, &r.steps, places)?;
    let initial = singleton(alloc, first_of(alloc, &r.initial, r.registers)?)?;
    let accepting = configurations_of(alloc, r.finals.as_slice(), places)?;
    five(alloc, states, letters, steps, initial, accepting)
}
