//! Comprehensions beside one another, and sets of pairs.

ghost use Rattle.std.specs.Prelude.{◌≡◌, ℕ, ◌+◌, ◌<◌, ◌^◌, Bool, IfOk, OnOk};
ghost use Rattle.lois_base.specs.Data.{coll, comps_of};
ghost use Rattle.lois_base.specs.Fits.{ConstraintFits, Fits, CompFits, ItemsFit};
ghost use Rattle.lois_base.specs.Over.{CompIsOver, ItemsAreOver};
ghost use Rattle.lois_base.specs.Tree.{tree, comp_of};
ghost use Rattle.lois_base.specs.Validity.{AdmitsConstraint, AdmitsTerm, AdmitsComp, AdmitsItems, HasBoundedWidths, CompHasBoundedWidths, ItemsHaveBoundedWidths};
ghost use Rattle.lois_terms.specs.Collections.{IsColl};
ghost use Rattle.lois_automata.specs.Adding.{AddsOfTwo, AddsWithEach, IsPairOf, IsStepOf};
ghost use Rattle.lois_automata.specs.Built.{AreBeside, ArePairs};
ghost use Rattle.lois_automata.specs.Projections.{AreSideBySide, pair_of, triple_of};

use crate::memberships::insert_levels;
use crate::parts::{StepTerms, into_step, pair_of_terms, triple_of_terms};
use crate::unmatched::letters_clash;
use lois_algebra::push_comp;
use lois_base::{Comp, Comps, Constraint, NoMemory, Structure, Term};
use lois_constraint::meet;
use lois_elim::quantifier_free;
use lois_relate::equal_formula;
use lois_terms::instantiate;
use std::alloc::Global;

/// Two comprehensions, the binders of the second behind those of the first.
#[derive(Drop)]
pub struct PairedComp {
    pub binders: usize,
    pub guard: Constraint,
    pub first: Term,
    pub second: Term,
}

/// The comprehensions one behind the other: the guards together, and both items among the binders of both. Errors: `NoMemory`,
/// also where a level would pass the greatest usize.
pub fn pair_comps(
    alloc: Global,
    one: &Comp,
    other: &Comp,
    size: usize,
) -> Result<PairedComp, NoMemory>
    requires first { CompFits size (comp_of one.now) }
    requires second { CompFits size (comp_of other.now) }
    ensures made { IfOk result (λ r. AreBeside size (comp_of one.now) (comp_of other.now) r.binders r.guard (tree r.first) (tree r.second)) }
    ensures room { IfOk result (λ r. size + r.binders < 2 ^ 64) }
    ensures guard_fits { IfOk result (λ r. ConstraintFits (size + r.binders) r.guard) }
    ensures first_fits { IfOk result (λ r. Fits (size + r.binders) (tree r.first)) }
    ensures second_fits { IfOk result (λ r. Fits (size + r.binders) (tree r.second)) }
    ensures operators { IfOk result (λ r. (o : Bool) → AdmitsComp o (comp_of one.now) → AdmitsComp o (comp_of other.now) → AdmitsConstraint o r.guard × AdmitsTerm o (tree r.first) × AdmitsTerm o (tree r.second)) }
    ensures first_widths { IfOk result (λ r. CompHasBoundedWidths (comp_of one.now) → HasBoundedWidths (tree r.first)) }
    ensures second_widths { IfOk result (λ r. CompHasBoundedWidths (comp_of other.now) → HasBoundedWidths (tree r.second)) }
{
    let at = size + one.binders;
    if at.checked_add(other.binders).is_none() || !other.fits(at) {
        return Err(NoMemory);
    }
    let placed = instantiate(alloc, other, size, at)?;
    Ok(PairedComp {
        binders: one.binders + other.binders,
        guard: meet(alloc, &one.guard, &placed.guard)?,
        first: insert_levels(alloc, &one.item, at, other.binders)?,
        second: placed.item,
    })
}

/// The set of all pairs of a member of the one set and a member of the other.
pub fn pairs(alloc: Global, one: &Comps, other: &Comps, size: usize) -> Result<Term, NoMemory>
    requires first { ItemsFit size (comps_of one.now) }
    requires second { ItemsFit size (comps_of other.now) }
    ensures members { IfOk result (λ r. ArePairs size (coll (comps_of one.now)) (coll (comps_of other.now)) (tree r)) }
    ensures set { IfOk result (λ r. IsColl (tree r)) }
    ensures levels { IfOk result (λ r. Fits size (tree r)) }
    ensures operators { IfOk result (λ r. (o : Bool) → AdmitsItems o (comps_of one.now) → AdmitsItems o (comps_of other.now) → AdmitsTerm o (tree r)) }
    ensures widths { IfOk result (λ r. ItemsHaveBoundedWidths (comps_of one.now) → ItemsHaveBoundedWidths (comps_of other.now) → HasBoundedWidths (tree r)) }
{
    let mut made = Comps::new(alloc);
    for first in one.as_slice() {
        add_pairs(alloc, &mut made, first, other, size)?;
    }
    Ok(Term::Coll(made))
}

fn add_pairs(
    alloc: Global,
    made: &mut Comps,
    first: &Comp,
    others: &Comps,
    size: usize,
) -> Result<(), NoMemory>
    requires first { CompFits size (comp_of first.now) }
    requires second { ItemsFit size (comps_of others.now) }
    ensures { OnOk result (AddsWithEach IsPairOf size (comp_of first.now) (comps_of others.now) (comps_of made.old) (comps_of made.new)) }
{
    for second in others.as_slice() {
        add_pair(alloc, made, first, second, size)?;
    }
    Ok(())
}

fn add_pair(
    alloc: Global,
    made: &mut Comps,
    first: &Comp,
    second: &Comp,
    size: usize,
) -> Result<(), NoMemory>
    requires first { CompFits size (comp_of first.now) }
    requires second { CompFits size (comp_of second.now) }
    ensures { OnOk result (AddsOfTwo IsPairOf size (comp_of first.now) (comp_of second.now) (comps_of made.old) (comps_of made.new)) }
{
    let both = pair_comps(alloc, first, second, size)?;
    let item = pair_of_terms(alloc, both.first, both.second)?;
    push_comp(
        made,
        Comp {
            binders: both.binders,
            guard: both.guard,
            item,
        },
    )
}

/// A step for each two steps with the same letter: from the pair of the sources to the pair of the targets.
pub fn pair_steps<T: Structure>(
    alloc: Global,
    one: &Comps,
    other: &Comps,
    size: usize,
) -> Result<Term, NoMemory>
    requires first { ItemsAreOver T.ordered size (comps_of one.now) }
    requires second { ItemsAreOver T.ordered size (comps_of other.now) }
    ensures members { IfOk result (λ r. AreSideBySide size (coll (comps_of one.now)) (coll (comps_of other.now)) (tree r)) }
    ensures set { IfOk result (λ r. IsColl (tree r)) }
    ensures levels { IfOk result (λ r. Fits size (tree r)) }
    ensures operators { IfOk result (λ r. (o : Bool) → AdmitsItems o (comps_of one.now) → AdmitsItems o (comps_of other.now) → AdmitsTerm o (tree r)) }
    ensures widths { IfOk result (λ r. ItemsHaveBoundedWidths (comps_of one.now) → ItemsHaveBoundedWidths (comps_of other.now) → HasBoundedWidths (tree r)) }
{
    let mut made = Comps::new(alloc);
    for first in one.as_slice() {
        add_steps::<T>(alloc, &mut made, first, other, size)?;
    }
    Ok(Term::Coll(made))
}

fn add_steps<T: Structure>(
    alloc: Global,
    made: &mut Comps,
    first: &Comp,
    others: &Comps,
    size: usize,
) -> Result<(), NoMemory>
    requires first { CompIsOver T.ordered size (comp_of first.now) }
    requires second { ItemsAreOver T.ordered size (comps_of others.now) }
    ensures { OnOk result (AddsWithEach IsStepOf size (comp_of first.now) (comps_of others.now) (comps_of made.old) (comps_of made.new)) }
{
    for second in others.as_slice() {
        add_step::<T>(alloc, made, first, second, size)?;
    }
    Ok(())
}

fn add_step<T: Structure>(
    alloc: Global,
    made: &mut Comps,
    first: &Comp,
    second: &Comp,
    size: usize,
) -> Result<(), NoMemory>
    requires first { CompIsOver T.ordered size (comp_of first.now) }
    requires second { CompIsOver T.ordered size (comp_of second.now) }
    ensures { OnOk result (AddsOfTwo IsStepOf size (comp_of first.now) (comp_of second.now) (comps_of made.old) (comps_of made.new)) }
{
    if letters_clash(first, second) {
        return Ok(());
    }
    let both = pair_comps(alloc, first, second, size)?;
    let Some(one) = into_step(both.first) else {
        return Ok(());
    };
    let Some(other) = into_step(both.second) else {
        return Ok(());
    };
    let inner = size + both.binders;
    let same = equal_formula(alloc, &one.letter, &other.letter, inner)?;
    let found = quantifier_free::<T>(alloc, &same, inner)?;
    let guard = meet(alloc, &both.guard, &found)?;
    let item = step_of(alloc, one, other)?;
    push_comp(
        made,
        Comp {
            binders: both.binders,
            guard,
            item,
        },
    )
}

// The step from the pair of the sources to the pair of the targets, with the letter of the first.
fn step_of(alloc: Global, one: StepTerms, other: StepTerms) -> Result<Term, NoMemory>
    ensures { IfOk result (λ r. tree r ≡ triple_of (pair_of (tree one.source) (tree other.source)) (tree one.letter) (pair_of (tree one.target) (tree other.target))) }
{
    let source = pair_of_terms(alloc, one.source, other.source)?;
    let target = pair_of_terms(alloc, one.target, other.target)?;
    triple_of_terms(alloc, source, one.letter, target)
}
