//! Lines that can't be asked for words.

ghost use Rattle.std.specs.Prelude.{IfOk};
ghost use Rattle.lois_base.specs.Fits.{ConstraintFits};
ghost use Rattle.lois_base.specs.Over.{IsOver};
ghost use Rattle.lois_base.specs.Tree.{tree};
ghost use Rattle.lois_deciders.specs.OnlyAsked.{HasOnlyAsked};
ghost use Rattle.lois_languages.specs.Faults.{DecidesAutomaton};

use lois_automata::{Verdict, check_automaton};
use lois_base::{Constraint, Decider, Name, NoMemory, Structure, Term};
use lois_deciders::Chosen;
use std::alloc::Global;

/// Why a case's lines can't be asked for words, with a name and the case's number, from 1.
#[derive(Drop)]
pub enum LineFault {
    // there is no line of that name
    NoLine(Name, usize),
    // at some choice that the case admits the line holds no automaton
    NotAutomaton(Name, usize),
    // at some choice that the case admits the line holds no deterministic automaton
    NotDeterministic(Name, usize),
}

/// Whether the value is an automaton at each choice that `under` admits. Errors: `NoMemory`, also where a level would pass the
/// greatest usize.
pub fn is_automaton<T: Structure>(
    alloc: Global,
    t: &Term,
    under: &Constraint,
    size: usize,
    chosen: &mut Chosen,
) -> Result<bool, NoMemory>
    requires over { IsOver T.ordered size (tree t.now) }
    requires under { ConstraintFits size under.now }
    ensures answer { IfOk result (DecidesAutomaton size under.now (tree t.now)) }
    ensures only_asked { HasOnlyAsked (λ b. (⟦<dyn Decider as Decider>⟧ b.vtable).kind_of b.value) (λ b. (⟦<dyn Decider as Decider>⟧ b.vtable).questions b.value) chosen.old chosen.new }
{
    match check_automaton::<T>(alloc, t, under, size, chosen)? {
        Verdict::Fails(_) => Ok(false),
        Verdict::Holds => Ok(true),
    }
}
