//! Worked texts: each function does nothing, and its contract states what some results or traces are written as.

ghost use Rattle.lois_answers.specs.TextRows.{AllAtoms, Interval, Tags, Classes, Loops, Choice, NoSet};

/// The texts of worked results: all atoms, an interval, two cases and the classes of an automaton.
pub fn worked_results()
    ensures all_atoms { AllAtoms }
    ensures interval { Interval }
    ensures tags { Tags }
    ensures classes { Classes }
{}

/// The texts of worked traces: an assertion in two loops, one on parameters, and a name that holds no set.
pub fn worked_traces()
    ensures loops { Loops }
    ensures choice { Choice }
    ensures no_set { NoSet }
{}
