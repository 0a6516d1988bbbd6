//! The laws of the made script: each function does nothing, and its contract states a law that is proved.

ghost use Rattle.lois_make.specs.Laws.{MadeIsSpelled, MadeIsWellScoped, MadeEnds, MadeNeverFails, NormalHasOneForEach, ResultsHaveMadeCounts};

/// The made script spells a script that keeps the limits.
pub fn made_script_is_spelled()
    ensures spelled { MadeIsSpelled }
    ensures scoped { MadeIsWellScoped }
{}

/// The made script prints the set of the pairs that its loops add, and fails nowhere.
pub fn made_script_ends()
    ensures ends { MadeEnds }
    ensures never_fails { MadeNeverFails }
{}

/// A normal set of the pairs has as many comprehensions as there are tags.
pub fn normal_sets_have_one_for_each_tag()
    ensures counted { NormalHasOneForEach }
{}

/// All results of the made script have one case with one line, whose set has a comprehension for each tag.
pub fn results_of_the_made_script_have_its_counts()
    ensures counts { ResultsHaveMadeCounts }
{}
