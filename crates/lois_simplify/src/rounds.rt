//! One round of making a comprehension lean: what is seen of it before its item is simplified, and after.

ghost use Rattle.std.specs.Prelude.{◌≡◌, ◌+◌, ◌≤◌, [], ◌∷◌, IfOk, IsTrue};
ghost use Rattle.lois_base.specs.Fits.{ConstraintFits};
ghost use Rattle.lois_base.specs.Over.{CompIsOver};
ghost use Rattle.lois_base.specs.Tree.{comp_of};
ghost use Rattle.lois_deciders.specs.Satisfiability.{ConstraintIsSatisfiable};
ghost use Rattle.lois_simplify.specs.Rounds.{IsOpeningOf, IsClosingOf, IsKeptEverywhere};

use crate::fixing::{fixed_binder, tied_binder, unused_binder};
use crate::guards::is_always;
use crate::moving::without_binder;
use crate::oracle::Oracle;
use crate::shortening::reduced;
use lois_base::{Comp, Constraint, NoMemory, Structure};
use std::alloc::Global;

/// What one round makes of a comprehension. One that is shorter has a binder less.
#[derive(Drop)]
pub(crate) enum Round {
    Lean(Comp),
    Empty,
    Shorter(Comp),
}

/// A comprehension with members, a normalised guard and no fixed binder, and what holds in it.
#[derive(Drop)]
pub(crate) struct Open {
    pub(crate) comp: Comp,
    pub(crate) here: Constraint,
}

/// A round that is over before the item is looked at, or one that needs the item.
#[derive(Drop)]
pub(crate) enum Opening {
    Over(Round),
    Open(Open),
}

// The comprehension without the binders that its item doesn't use.
fn with_used_binders<T: Structure>(alloc: Global, comp: Comp, size: usize) -> Result<Comp, NoMemory>
    requires over { CompIsOver T.ordered size (comp_of comp) }
    ensures kept { IfOk result (λ r. IsKeptEverywhere size (comp_of comp) (comp_of r)) }
    ensures binders { IfOk result (λ r. r.binders ≤ comp.binders) }
{
    let mut current = comp;
    while let Some(binder) = unused_binder(&current.item, size, size + current.binders) {
        current = without_binder::<T>(alloc, &current, size, binder, 0)?;
    }
    Ok(current)
}

// The comprehension without the binders that its guard says to be equal to earlier levels.
fn without_tied_binders<T: Structure>(
    alloc: Global,
    comp: Comp,
    size: usize,
) -> Result<Comp, NoMemory>
    requires over { CompIsOver T.ordered size (comp_of comp) }
    ensures kept { IfOk result (λ r. IsKeptEverywhere size (comp_of comp) (comp_of r)) }
    ensures binders { IfOk result (λ r. r.binders ≤ comp.binders) }
{
    let mut current = comp;
    while let Some(tied) = tied_binder(&current.guard, size, size + current.binders) {
        current = without_binder::<T>(alloc, &current, size, tied.binder, tied.level)?;
    }
    Ok(current)
}

// Whether it is written as a comprehension that has one member at each choice.
fn has_one_member(alloc: Global, comp: &Comp) -> Result<bool, NoMemory>
    ensures { IfOk result (λ b. IsTrue b → (comp.now.binders ≡ 0) × (comp.now.guard ≡ [] ∷ [])) }
{
    if comp.binders != 0 {
        return Ok(false);
    }
    is_always(alloc, &comp.guard)
}

/// Drops a comprehension without members, and leaves out the first binder that is fixed. Binders that the item doesn't use, and
/// those that the guard says to be equal to earlier levels, go before any decider is asked. `met` says that `under` is known to be met somewhere: then nothing is asked about a comprehension
/// that has one member at each choice. `brief` says that the guard is to be read.
pub(crate) fn open_round<T: Structure, D: Oracle>(
    alloc: Global,
    comp: Comp,
    under: &Constraint,
    met: bool,
    brief: bool,
    size: usize,
    decider: &mut D,
) -> Result<Opening, NoMemory>
    requires sound { D.sound }
    requires over { CompIsOver T.ordered size (comp_of comp) }
    requires under_levels { ConstraintFits size under.now }
    requires met { IsTrue met → ConstraintIsSatisfiable size under.now }
    ensures opening { IfOk result (IsOpeningOf brief under.now size comp) }
    ensures asked { D.reaches decider.old decider.new }
{
    let used = with_used_binders::<T>(alloc, comp, size)?;
    let comp = without_tied_binders::<T>(alloc, used, size)?;
    let single = has_one_member(alloc, &comp)?;
    if met && single {
        let here = under.copy(alloc)?;
        return Ok(Opening::Open(Open { comp, here }));
    }
    open_asked::<T, D>(alloc, comp, under, brief, size, decider)
}

// The same where a decider has to be asked.
fn open_asked<T: Structure, D: Oracle>(
    alloc: Global,
    comp: Comp,
    under: &Constraint,
    brief: bool,
    size: usize,
    decider: &mut D,
) -> Result<Opening, NoMemory>
    requires sound { D.sound }
    requires over { CompIsOver T.ordered size (comp_of comp) }
    requires under_levels { ConstraintFits size under.now }
    ensures opening { IfOk result (IsOpeningOf brief under.now size comp) }
    ensures asked { D.reaches decider.old decider.new }
{
    let inner = size + comp.binders;
    let comp = Comp {
        binders: comp.binders,
        guard: reduced(alloc, &comp.guard, under, brief)?,
        item: comp.item,
    };
    let Some(met) = decider.both(alloc, under, &comp.guard, inner)? else {
        return Ok(Opening::Over(Round::Empty));
    };
    let here = met.constraint;
    let sample = met.sample.as_slice();
    let Some(fixed) = fixed_binder(alloc, &here, size, inner, sample, decider)? else {
        return Ok(Opening::Open(Open { comp, here }));
    };
    let shorter = without_binder::<T>(alloc, &comp, size, fixed.binder, fixed.level)?;
    Ok(Opening::Over(Round::Shorter(shorter)))
}

/// Leaves out the first binder that the item doesn't use. Where each is used, the comprehension is lean.
pub(crate) fn close_round<T: Structure>(
    alloc: Global,
    comp: Comp,
    size: usize,
) -> Result<Round, NoMemory>
    requires over { CompIsOver T.ordered size (comp_of comp) }
    ensures { IfOk result (IsClosingOf size comp) }
{
    let inner = size + comp.binders;
    match unused_binder(&comp.item, size, inner) {
        Some(binder) => Ok(Round::Shorter(without_binder::<T>(alloc, &comp, size, binder, 0)?)),
        None => Ok(Round::Lean(comp)),
    }
}
