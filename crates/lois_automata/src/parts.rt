//! Tuples of two, three and five parts: pairs, steps, and the five sets of an automaton.

ghost use Rattle.std.specs.Prelude.{◌≡◌, IfOk, IfSome, IfNone, List};
ghost use Rattle.lois_base.specs.Atom.{Atom};
ghost use Rattle.lois_base.specs.Data.{TermD, comps_of};
ghost use Rattle.lois_base.specs.Tree.{tree};
ghost use Rattle.lois_automata.specs.Projections.{five_of, five_terms, pair_of, triple_of};
ghost use Rattle.lois_automata.specs.Machines.{IsAutomatonAt};

use lois_base::{Comps, NoMemory, Term, Terms};
use std::alloc::Global;

/// The three parts of a step.
#[derive(Clone, Copy)]
pub struct Step<'a> {
    pub source: &'a Term,
    pub letter: &'a Term,
    pub target: &'a Term,
}

/// The three parts of a step that is taken apart.
#[derive(Drop)]
pub struct StepTerms {
    pub source: Term,
    pub letter: Term,
    pub target: Term,
}

/// The five sets of an automaton, as they are written.
#[derive(Clone, Copy)]
pub struct FiveSets<'a> {
    pub states: &'a Comps,
    pub letters: &'a Comps,
    pub steps: &'a Comps,
    pub initial: &'a Comps,
    pub accepting: &'a Comps,
}

/// A tuple of copies of two terms.
pub fn pair(alloc: Global, first: &Term, second: &Term) -> Result<Term, NoMemory>
    ensures { IfOk result (λ r. tree r ≡ pair_of (tree first.now) (tree second.now)) }
{
    let mut parts = Terms::new(alloc);
    parts.push(first.copy(alloc)?)?;
    parts.push(second.copy(alloc)?)?;
    Ok(Term::Tup(parts))
}

/// A tuple of copies of three terms.
pub fn triple(alloc: Global, source: &Term, letter: &Term, target: &Term) -> Result<Term, NoMemory>
    ensures { IfOk result (λ r. tree r ≡ triple_of (tree source.now) (tree letter.now) (tree target.now)) }
{
    let mut parts = Terms::new(alloc);
    parts.push(source.copy(alloc)?)?;
    parts.push(letter.copy(alloc)?)?;
    parts.push(target.copy(alloc)?)?;
    Ok(Term::Tup(parts))
}

/// A tuple of two terms, which are taken as they are.
pub fn pair_of_terms(alloc: Global, first: Term, second: Term) -> Result<Term, NoMemory>
    ensures { IfOk result (λ r. tree r ≡ pair_of (tree first) (tree second)) }
{
    let mut parts = Terms::new(alloc);
    parts.push(first)?;
    parts.push(second)?;
    Ok(Term::Tup(parts))
}

/// A tuple of three terms, which are taken as they are.
pub fn triple_of_terms(
    alloc: Global,
    source: Term,
    letter: Term,
    target: Term,
) -> Result<Term, NoMemory>
    ensures { IfOk result (λ r. tree r ≡ triple_of (tree source) (tree letter) (tree target)) }
{
    let mut parts = Terms::new(alloc);
    parts.push(source)?;
    parts.push(letter)?;
    parts.push(target)?;
    Ok(Term::Tup(parts))
}

/// A tuple of five.
pub fn of_five(
    alloc: Global,
    states: Term,
    letters: Term,
    steps: Term,
    initial: Term,
    accepting: Term,
) -> Result<Term, NoMemory>
    ensures { IfOk result (λ r. tree r ≡ five_terms (tree states) (tree letters) (tree steps) (tree initial) (tree accepting)) }
{
    let mut parts = Terms::new(alloc);
    parts.push(states)?;
    parts.push(letters)?;
    parts.push(steps)?;
    parts.push(initial)?;
    parts.push(accepting)?;
    Ok(Term::Tup(parts))
}

/// The parts of a tuple of two.
pub fn pair_parts(t: &Term) -> Option<(&Term, &Term)>
    ensures some { IfSome result (λ p. tree t.now ≡ pair_of (tree p.0.now) (tree p.1.now)) }
    ensures none { IfNone result ((a b : TermD) → tree t.now ≡ pair_of a b → ⊥) }
{
    let Term::Tup(parts) = t else {
        return None;
    };
    let parts = parts.as_slice();
    if parts.len() != 2 {
        return None;
    }
    Some((&parts[0], &parts[1]))
}

/// The parts of a tuple of three.
pub fn step_parts(t: &Term) -> Option<Step<'_>>
    ensures some { IfSome result (λ s. tree t.now ≡ triple_of (tree s.source.now) (tree s.letter.now) (tree s.target.now)) }
    ensures none { IfNone result ((p l q : TermD) → tree t.now ≡ triple_of p l q → ⊥) }
{
    let Term::Tup(parts) = t else {
        return None;
    };
    let parts = parts.as_slice();
    if parts.len() != 3 {
        return None;
    }
    Some(Step {
        source: &parts[0],
        letter: &parts[1],
        target: &parts[2],
    })
}

/// The parts of a tuple of three, which is taken apart.
pub fn into_step(t: Term) -> Option<StepTerms>
    ensures some { IfSome result (λ s. tree t ≡ triple_of (tree s.source) (tree s.letter) (tree s.target)) }
    ensures none { IfNone result ((p l q : TermD) → tree t ≡ triple_of p l q → ⊥) }
{
    let Term::Tup(terms) = t else {
        return None;
    };
    let mut parts = terms.into_vec();
    if parts.len() != 3 {
        return None;
    }
    let target = parts.pop()?;
    let letter = parts.pop()?;
    let source = parts.pop()?;
    Some(StepTerms {
        source,
        letter,
        target,
    })
}

/// The five sets of a tuple of five sets. Other terms have no automaton as a value at any choice.
pub fn five(a: &Term) -> Option<FiveSets<'_>>
    ensures some { IfSome result (λ f. tree a.now ≡ five_of (comps_of f.states.now) (comps_of f.letters.now) (comps_of f.steps.now) (comps_of f.initial.now) (comps_of f.accepting.now)) }
    ensures none { IfNone result ((c : List Atom) → IsAutomatonAt (tree a.now) c → ⊥) }
{
    let Term::Tup(parts) = a else {
        return None;
    };
    let parts = parts.as_slice();
    if parts.len() != 5 {
        return None;
    }
    match (&parts[0], &parts[1], &parts[2], &parts[3], &parts[4]) {
        (
            Term::Coll(states),
            Term::Coll(letters),
            Term::Coll(steps),
            Term::Coll(initial),
            Term::Coll(accepting),
        ) => Some(FiveSets {
            states,
            letters,
            steps,
            initial,
            accepting,
        }),
        _ => None,
    }
}
