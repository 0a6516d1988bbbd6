//! Readable terms.

ghost use Rattle.std.specs.Prelude.{◌≤◌, Bool, IfOk};
ghost use Rattle.lois_base.specs.Data.{depth};
ghost use Rattle.lois_base.specs.Fits.{ConstraintFits, Fits};
ghost use Rattle.lois_base.specs.Normal.{IsNormal};
ghost use Rattle.lois_base.specs.Over.{IsOver, ConstraintIsOver};
ghost use Rattle.lois_base.specs.Tree.{tree};
ghost use Rattle.lois_base.specs.Validity.{AdmitsTerm, HasBoundedWidths};
ghost use Rattle.lois_deciders.specs.OnlyAsked.{HasOnlyAsked};
ghost use Rattle.lois_readable.specs.Readable.{IsReadable};
ghost use Rattle.lois_simplify.specs.Irredundant.{HasNormalGuards};
ghost use Rattle.lois_simplify.specs.Plain.{HasPlainGuards};
ghost use Rattle.lois_simplify.specs.Simplification.{IsSameWhere, IsSimplification};

use crate::alike::has_alike;
use crate::joining::join;
use crate::splitting::split;
use crate::strengthening::strengthen;
use crate::weights::weight;
use lois_base::{Constraint, Decider, NoMemory, Structure, Term};
use lois_deciders::Chosen;
use lois_simplify::simplify_to_read;
use lois_terms::binds_nothing;
use std::alloc::Global;

// Each round splits what it can, and a split costs a binder.
const MOST_ROUNDS: usize = 16;

// Parts are written longer than they are once they are simplified.
const MOST_GROWTH: usize = 8;

/// The term for a reader, as `simplify_to_read` gives it, with its comprehensions split where each part needs fewer binders, and joined
/// where they have the same item. With the splits it is at most twice as long as the term. Errors: `NoMemory`.
pub fn make_readable<T: Structure>(
    alloc: Global,
    term: &Term,
    under: &Constraint,
    size: usize,
    chosen: &mut Chosen,
) -> Result<Term, NoMemory>
    requires over { IsOver T.ordered size (tree term.now) }
    requires under { ConstraintIsOver T.ordered size under.now }
    ensures value { IfOk result (λ r. IsSameWhere under.now size (tree term.now) (tree r)) }
    ensures normal { IfOk result (λ r. IsNormal (tree r) under.now size) }
    ensures guards { IfOk result (λ r. HasNormalGuards (tree r)) }
    ensures plain { IfOk result (λ r. HasPlainGuards (tree r) under.now size) }
    ensures levels { IfOk result (λ r. Fits size (tree r)) }
    ensures operators { IfOk result (λ r. (ordered : Bool) → AdmitsTerm ordered (tree term.now) → AdmitsTerm ordered (tree r)) }
    ensures widths { IfOk result (λ r. HasBoundedWidths (tree term.now) → HasBoundedWidths (tree r)) }
    ensures depth { IfOk result (λ r. depth (tree r) ≤ depth (tree term.now)) }

    // whatever is answered
    ensures only_asked { HasOnlyAsked (λ b. (⟦<dyn Decider as Decider>⟧ b.vtable).kind_of b.value) (λ b. (⟦<dyn Decider as Decider>⟧ b.vtable).questions b.value) chosen.old chosen.new }
{
    Ok(read::<T>(alloc, term, under, size, chosen)?)
}

// The same in one fact. What is split and simplified may have comprehensions with the same item.
fn read<T: Structure>(
    alloc: Global,
    term: &Term,
    under: &Constraint,
    size: usize,
    chosen: &mut Chosen,
) -> Result<Term, NoMemory>
    requires over { IsOver T.ordered size (tree term.now) }
    requires under { ConstraintIsOver T.ordered size under.now }
    ensures readable { IfOk result (λ r. IsReadable under.now size (tree term.now) (tree r)) }
    ensures only_asked { HasOnlyAsked (λ b. (⟦<dyn Decider as Decider>⟧ b.vtable).kind_of b.value) (λ b. (⟦<dyn Decider as Decider>⟧ b.vtable).questions b.value) chosen.old chosen.new }
{
    let parted = read_parted::<T>(alloc, term, under, size, chosen)?;
    read_joined::<T>(alloc, parted, under, size, chosen)
}

// Joined comprehensions stay where they are shorter.
fn read_joined<T: Structure>(
    alloc: Global,
    term: Term,
    under: &Constraint,
    size: usize,
    chosen: &mut Chosen,
) -> Result<Term, NoMemory>
    requires over { IsOver T.ordered size (tree term) }
    requires under { ConstraintIsOver T.ordered size under.now }
    requires normal { IsNormal (tree term) under.now size }
    requires guards { HasNormalGuards (tree term) }
    requires plain { HasPlainGuards (tree term) under.now size }
    ensures readable { IfOk result (λ r. IsReadable under.now size (tree term) (tree r)) }
    ensures only_asked { HasOnlyAsked (λ b. (⟦<dyn Decider as Decider>⟧ b.vtable).kind_of b.value) (λ b. (⟦<dyn Decider as Decider>⟧ b.vtable).questions b.value) chosen.old chosen.new }
{
    if !has_alike(alloc, &term)? {
        return Ok(term);
    }
    let joined = join(alloc, &term)?;
    if joined.is_equal(&term) {
        return Ok(term);
    }
    let strong = strengthen(alloc, &joined, under, size)?;
    let shorter = simplified::<T>(alloc, &strong, under, size, chosen)?;
    let most = weight(&term);
    if weight(&shorter) > most {
        return Ok(term);
    }
    Ok(shorter)
}

// A term that weighs more than twice as much once it is split is read whole.
fn read_parted<T: Structure>(
    alloc: Global,
    term: &Term,
    under: &Constraint,
    size: usize,
    chosen: &mut Chosen,
) -> Result<Term, NoMemory>
    requires over { IsOver T.ordered size (tree term.now) }
    requires under { ConstraintIsOver T.ordered size under.now }
    ensures readable { IfOk result (λ r. IsReadable under.now size (tree term.now) (tree r)) }
    ensures only_asked { HasOnlyAsked (λ b. (⟦<dyn Decider as Decider>⟧ b.vtable).kind_of b.value) (λ b. (⟦<dyn Decider as Decider>⟧ b.vtable).questions b.value) chosen.old chosen.new }
{
    if binds_nothing(term) {
        return simplified::<T>(alloc, term, under, size, chosen);
    }
    let parted = split_fully(alloc, term, under, size)?;
    let readable = simplified::<T>(alloc, &parted, under, size, chosen)?;
    if parted.is_equal(term) {
        return Ok(readable);
    }
    let most = weight(term).saturating_mul(2);
    if weight(&readable) > most {
        return simplified::<T>(alloc, term, under, size, chosen);
    }
    read_parts::<T>(alloc, readable, under, most, size, chosen)
}

// Parts can often be split once more when they are simplified.
fn read_parts<T: Structure>(
    alloc: Global,
    term: Term,
    under: &Constraint,
    most: usize,
    size: usize,
    chosen: &mut Chosen,
) -> Result<Term, NoMemory>
    requires over { IsOver T.ordered size (tree term) }
    requires under { ConstraintIsOver T.ordered size under.now }
    requires normal { IsNormal (tree term) under.now size }
    requires guards { HasNormalGuards (tree term) }
    requires plain { HasPlainGuards (tree term) under.now size }
    ensures readable { IfOk result (λ r. IsReadable under.now size (tree term) (tree r)) }
    ensures only_asked { HasOnlyAsked (λ b. (⟦<dyn Decider as Decider>⟧ b.vtable).kind_of b.value) (λ b. (⟦<dyn Decider as Decider>⟧ b.vtable).questions b.value) chosen.old chosen.new }
{
    let parted = split_fully(alloc, &term, under, size)?;
    if parted.is_equal(&term) {
        return Ok(term);
    }
    let further = simplified::<T>(alloc, &parted, under, size, chosen)?;
    if weight(&further) > most {
        return Ok(term);
    }
    Ok(further)
}

// Parts are split as long as that is worth it.
fn split_fully(
    alloc: Global,
    term: &Term,
    under: &Constraint,
    size: usize,
) -> Result<Term, NoMemory>
    requires levels { Fits size (tree term.now) }
    requires under_levels { ConstraintFits size under.now }
    ensures { IfOk result (λ r. IsSimplification under.now size (tree term.now) (tree r)) }
{
    let most = weight(term).saturating_mul(MOST_GROWTH);
    let mut whole = term.copy(alloc)?;
    for _round in 0..MOST_ROUNDS {
        let parted = split(alloc, &whole, under, size)?;
        if parted.is_equal(&whole) || weight(&parted) > most {
            return Ok(whole);
        }
        whole = parted;
    }
    Ok(whole)
}

fn simplified<T: Structure>(
    alloc: Global,
    term: &Term,
    under: &Constraint,
    size: usize,
    chosen: &mut Chosen,
) -> Result<Term, NoMemory>
    requires over { IsOver T.ordered size (tree term.now) }
    requires under { ConstraintIsOver T.ordered size under.now }
    ensures readable { IfOk result (λ r. IsReadable under.now size (tree term.now) (tree r)) }
    ensures only_asked { HasOnlyAsked (λ b. (⟦<dyn Decider as Decider>⟧ b.vtable).kind_of b.value) (λ b. (⟦<dyn Decider as Decider>⟧ b.vtable).questions b.value) chosen.old chosen.new }
{
    Ok(simplify_to_read::<T>(alloc, term, under, size, chosen)?)
}
