//! Each function does nothing, and its contract states laws that are proved.

ghost use Rattle.lois_laws.specs.Laws.{EqualIsOfTheRun, DifferenceIsOfTheRun, CensusIsOfTheRun};
ghost use Rattle.lois_laws.specs.Laws.{NoWordIsOfTheRun, WordIsOfTheRun, WithinIsOfTheRun, BeyondIsOfTheRun};
ghost use Rattle.lois_laws.specs.DataWords.{EqualIsOfDataWords, DifferenceIsOfDataWords};
ghost use Rattle.lois_laws.specs.TwoRuns.{RunsArePartitioned, SameIsOfTheRuns};

/// `run`, then `equal`: where the lines are found equal, at no choice a word tells apart what the script prints; a difference
/// tells it apart at its choice.
pub fn comparisons_are_of_the_run()
    ensures equal { EqualIsOfTheRun }
    ensures difference { DifferenceIsOfTheRun }
{}

/// `run`, then `word`: where no word is found, what the script prints accepts none at any choice; a word is accepted at its choice.
pub fn words_are_of_the_run()
    ensures none { NoWordIsOfTheRun }
    ensures word { WordIsOfTheRun }
{}

/// `run`, then `within`: where no word beyond is found, at no choice what the script prints under the first name accepts a word
/// that what it prints under the second doesn't; a word beyond is so accepted at its choice.
pub fn inclusions_are_of_the_run()
    ensures within { WithinIsOfTheRun }
    ensures beyond { BeyondIsOfTheRun }
{}

/// `run`, then `census`: there is one entry, and it lists the orbits of the set that the script prints.
pub fn censuses_are_of_the_run()
    ensures census { CensusIsOfTheRun }
{}

/// `registers`, then `equal`: which lists of atoms the register automata accept.
pub fn comparisons_are_of_data_words()
    ensures equal { EqualIsOfDataWords }
    ensures difference { DifferenceIsOfDataWords }
{}

/// Two runs, then `same`: the results of each are a partition, and they are found the same exactly where the scripts print the same.
pub fn likenesses_are_of_the_runs()
    ensures partitioned { RunsArePartitioned }
    ensures same { SameIsOfTheRuns }
{}
