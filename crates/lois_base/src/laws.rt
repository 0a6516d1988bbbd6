//! Laws of atoms, truth and values. They hold by the definitions alone, so each function here does nothing: its contract is
//! the law.

ghost use Rattle.lois_base.specs.Laws.{EqualIsEquivalence, IsDenseOrder, TruthRespectsEqual, SameIsEquivalence, SameIsRespected, SetsAreTheirMembers, OnlyItsLevelsCount, OnlyThePatternCounts, MapsKeepMeaning, SmallNumbersSuffice, NormalIsAsDeep};

/// Atoms are a dense total order without ends, and equal atoms may stand in place of one another.
pub fn atoms_are_ordered()
    ensures equality { EqualIsEquivalence }
    ensures order { IsDenseOrder }
{}

/// Constraints and formulas have the same truth at choices with equal atoms.
pub fn truth_respects_equality()
    ensures { TruthRespectsEqual }
{}

/// To be the same value is an equivalence, which membership, inclusion and depth respect. Sets are the same exactly where
/// each is included in the other.
pub fn same_is_an_equivalence()
    ensures equivalence { SameIsEquivalence }
    ensures respected { SameIsRespected }
    ensures sets { SetsAreTheirMembers }
{}

/// The truth of a constraint and the value of a term depend on no atom but those at the levels that occur in it.
pub fn only_its_levels_count()
    ensures { OnlyItsLevelsCount }
{}

/// The truth of constraints and formulas, and whether values are the same, depend only on which atoms are equal and, where `<` or
/// `<=` occurs, which are smaller. So every map of atoms that keeps these keeps truth and sameness.
pub fn maps_keep_meaning()
    ensures pattern { OnlyThePatternCounts }
    ensures maps { MapsKeepMeaning }
{}

/// For each choice of k atoms there are k whole numbers below k that are equal and smaller at exactly the same pairs of
/// positions. So each constraint over k levels has the same truth at both.
pub fn small_numbers_suffice()
    ensures { SmallNumbersSuffice }
{}

/// A normal term is written no deeper than its values are, where its constraint can be met. So a bound on the depth of values
/// is one of the text.
pub fn normal_terms_are_as_deep_as_their_values()
    ensures { NormalIsAsDeep }
{}
