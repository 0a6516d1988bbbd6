//! The laws of the meaning: each function does nothing, and its contract states a law that is proved.

ghost use Rattle.lois_meaning.specs.Examples.{AtomsAreAll, EachAtomIsAll, ParametersAreAtoms, DepthIsExact, OpensStores, CopiesArePrivate, IdleLoopsEnd, TurnsAreExact, PrintsTwoLines, AddsToSetsAlone, PathsNameElements, AcceptsOneAtom};
ghost use Rattle.lois_meaning.specs.Laws.{RunsAlike, IsDetermined, NeverBoth, KeepsNames};
ghost use Rattle.lois_meaning.specs.Operations.{TuplesExist, AcceptsByReach, ProductsAcceptBoth, ComplementsAcceptOthers, MinimalIsMinimal};

/// Stores that are the same give the same values, truths, failures and ends.
pub fn same_stores_run_alike()
    ensures alike { RunsAlike }
{}

/// What is given, what is true and what a run ends with and prints is determined, up to values that are the same.
pub fn meaning_is_determined()
    ensures determined { IsDetermined }
{}

/// Nothing both gives a value and fails, and no run both ends and fails.
pub fn nothing_ends_and_fails()
    ensures never_both { NeverBoth }
{}

/// A run keeps the names of its store, first and in order.
pub fn runs_keep_names()
    ensures names { KeepsNames }
{}

/// Which words the automata accept that the operations make.
pub fn operations_accept_what_they_should()
    ensures tuples { TuplesExist }
    ensures reach { AcceptsByReach }
    ensures product { ProductsAcceptBoth }
    ensures complement { ComplementsAcceptOthers }
    ensures minimal { MinimalIsMinimal }
{}

/// What small expressions and scripts mean.
pub fn examples_mean_what_they_should()
    ensures atoms { AtomsAreAll }
    ensures each_atom { EachAtomIsAll }
    ensures parameters { ParametersAreAtoms }
    ensures depth { DepthIsExact }
    ensures opening_stores { OpensStores }
    ensures private_copies { CopiesArePrivate }
    ensures idle_loops { IdleLoopsEnd }
    ensures turns { TurnsAreExact }
    ensures two_prints { PrintsTwoLines }
    ensures additions { AddsToSetsAlone }
    ensures paths { PathsNameElements }
    ensures automaton { AcceptsOneAtom }
{}
