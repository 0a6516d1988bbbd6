//! Whether two terms have the same value.

ghost use Rattle.std.specs.Prelude.{◌≡◌, IfOk, IfSome, IsNone, IsTrue, ◌↔◌};
ghost use Rattle.lois_base.specs.Fits.{ConstraintFits};
ghost use Rattle.lois_base.specs.Over.{IsOver};
ghost use Rattle.lois_base.specs.Tree.{tree};
ghost use Rattle.lois_deciders.specs.OnlyAsked.{HasOnlyAsked};
ghost use Rattle.lois_deciders.specs.Satisfiability.{IsCounterexample};
ghost use Rattle.lois_terms.specs.Collections.{IsColl};
ghost use Rattle.lois_same.specs.Members.{AreSameUnder, AreOtherUnder, IsValueContrastOrNone};

use crate::members::find_member_alone;
use lois_base::{Constraint, Decider, NoMemory, Numbers, Structure, Term};
use lois_deciders::Chosen;
use lois_elim::quantifier_free;
use lois_relate::equal_formula;
use std::alloc::Global;

/// How two values differ, at the first numbers of a sample.
#[derive(Drop)]
pub(crate) enum ValueContrast {
    // not both are sets
    Values(Numbers),
    // the term is a member of one of two sets alone: of the first, where the last part is true
    Member(Numbers, Term, bool),
}

fn is_set(term: &Term) -> bool
    ensures { IsTrue result ↔ IsColl (tree term.now) }
{
    matches!(term, Term::Coll(_))
}

/// How the values of two terms differ at some choice that `under` admits, if they do. Terms that are written alike have the same.
pub(crate) fn compare_values<T: Structure>(
    alloc: Global,
    term: &Term,
    other: &Term,
    under: &Constraint,
    size: usize,
    chosen: &mut Chosen,
) -> Result<Option<ValueContrast>, NoMemory>
    requires over { IsOver T.ordered size (tree term.now) }
    requires other { IsOver T.ordered size (tree other.now) }
    requires under { ConstraintFits size under.now }
    ensures contrast { IfOk result (IsValueContrastOrNone size under.now (tree term.now) (tree other.now)) }
    ensures only_asked { HasOnlyAsked (λ b. (⟦<dyn Decider as Decider>⟧ b.vtable).kind_of b.value) (λ b. (⟦<dyn Decider as Decider>⟧ b.vtable).questions b.value) chosen.old chosen.new }
{
    if term.is_equal(other) {
        return Ok(None);
    }
    if is_set(term) && is_set(other) {
        return compare_sets::<T>(alloc, term, other, under, size, chosen);
    }
    match find_other_values::<T>(alloc, term, other, under, size, chosen)? {
        Some(sample) => Ok(Some(ValueContrast::Values(sample))),
        None => Ok(None),
    }
}

// The same of two sets: they have the same value exactly where neither has a member that the other lacks.
fn compare_sets<T: Structure>(
    alloc: Global,
    set: &Term,
    other: &Term,
    under: &Constraint,
    size: usize,
    chosen: &mut Chosen,
) -> Result<Option<ValueContrast>, NoMemory>
    requires over { IsOver T.ordered size (tree set.now) }
    requires set { IsColl (tree set.now) }
    requires other { IsOver T.ordered size (tree other.now) }
    requires other_set { IsColl (tree other.now) }
    requires under { ConstraintFits size under.now }
    ensures contrast { IfOk result (IsValueContrastOrNone size under.now (tree set.now) (tree other.now)) }
    ensures only_asked { HasOnlyAsked (λ b. (⟦<dyn Decider as Decider>⟧ b.vtable).kind_of b.value) (λ b. (⟦<dyn Decider as Decider>⟧ b.vtable).questions b.value) chosen.old chosen.new }
{
    let first = find_member_alone::<T>(alloc, set, other, under, size, chosen)?;
    if let Some(alone) = first {
        return Ok(Some(ValueContrast::Member(alone.sample, alone.item, true)));
    }
    match find_member_alone::<T>(alloc, other, set, under, size, chosen)? {
        Some(alone) => Ok(Some(ValueContrast::Member(alone.sample, alone.item, false))),
        None => Ok(None),
    }
}

// Numbers at which `under` holds and the values aren't the same.
fn find_other_values<T: Structure>(
    alloc: Global,
    term: &Term,
    other: &Term,
    under: &Constraint,
    size: usize,
    chosen: &mut Chosen,
) -> Result<Option<Numbers>, NoMemory>
    requires over { IsOver T.ordered size (tree term.now) }
    requires other { IsOver T.ordered size (tree other.now) }
    requires under { ConstraintFits size under.now }
    ensures none { IfOk result (λ o. IsNone o → AreSameUnder size under.now (tree term.now) (tree other.now)) }
    ensures sample { IfOk result (λ o. IfSome o (AreOtherUnder size under.now (tree term.now) (tree other.now))) }
    ensures only_asked { HasOnlyAsked (λ b. (⟦<dyn Decider as Decider>⟧ b.vtable).kind_of b.value) (λ b. (⟦<dyn Decider as Decider>⟧ b.vtable).questions b.value) chosen.old chosen.new }
{
    let formula = equal_formula(alloc, term, other, size)?;
    let same = quantifier_free::<T>(alloc, &formula, size)?;
    match chosen.entails(alloc, under, &same, size)? {
        Some(sample) => Ok(Some(Numbers::from_vec(sample))),
        None => Ok(None),
    }
}
