//! The terms of single forms of expressions.

ghost use Rattle.std.specs.Prelude.{◌≡◌, [], ◌∷◌, map, IfOk, IfErr, IfSome};
ghost use Rattle.std.specs.List.{Contains};
ghost use Rattle.lois_base.specs.Tree.{tree, comp_of};
ghost use Rattle.lois_base.specs.Data.{coll, comps_of};
ghost use Rattle.lois_base.specs.Data.{comp};
ghost use Rattle.lois_algebra.specs.Parts.{part_of};
ghost use Rattle.lois_context.specs.Slots.{SlotD};
ghost use Rattle.lois_eval.specs.Made.{bare, IsHeldBy, IsPartFault};
ghost use Rattle.lois_eval.specs.WellFormed.{IsNamed, names_of};
ghost use Rattle.lois_eval.specs.Throughout.{IfFault};

use crate::faults::fault_under;
use lois_algebra::project;
use lois_answers::FaultKind;
use lois_base::{Comp, Comps, Constraint, Name, NoMemory, Term, Terms};
use lois_context::{Content, Context, Shared};
use lois_meaning::Stop;
use lois_script::Pos;
use std::alloc::Global;

/// What a name holds.
pub(crate) fn look_up(alloc: Global, name: &Name, context: &Context) -> Result<Term, NoMemory>
    requires { IsNamed name.now (names_of context.now.store) }
    ensures { IfOk result (λ t. IsHeldBy name.now context.now.store (tree t)) }
{
    named(name, context).copy(alloc)
}

/// The same, shared with the context, but where a loop added to it.
pub(crate) fn share_named(
    alloc: Global,
    name: &Name,
    context: &Context,
) -> Result<Shared<Term>, NoMemory>
    requires { IsNamed name.now (names_of context.now.store) }
    ensures { IfOk result (λ t. IsHeldBy name.now context.now.store (tree t)) }
{
    named(name, context).whole(alloc)
}

fn named<'a>(name: &Name, context: &'a Context) -> &'a Content
    requires { IsNamed name.now (names_of context.now.store) }
    ensures { IsHeldBy name.now context.now.store (tree result.now) }
{
    match context.store.place_of(name) {
        Some(place) => &context.store.as_slice()[place].term,
        None => unreachable!(),
    }
}

/// The set of these values.
pub(crate) fn set_of(alloc: Global, values: &Terms) -> Result<Term, NoMemory>
    ensures { IfOk result (λ r. tree r ≡ coll (comps_of (map bare values.now))) }
{
    let mut comps = Comps::new(alloc);
    for value in values.as_slice() {
        comps.push(bare(alloc, value)?)?;
    }
    Ok(Term::Coll(comps))
}

fn bare(alloc: Global, value: &Term) -> Result<Comp, NoMemory>
    ensures { IfOk result (λ r. comp_of r ≡ bare (tree value.now)) }
{
    Ok(Comp {
        binders: 0,
        guard: Constraint::always(alloc)?,
        item: value.copy(alloc)?,
    })
}

/// The set of one value, where the guard holds.
pub(crate) fn singleton_set(alloc: Global, guard: &Constraint, item: Term) -> Result<Comps, Stop>
    ensures ok { IfOk result (λ r. r ≡ comp 0 guard.now (tree item) ∷ []) }
    ensures fault { IfErr result (λ s. IfFault s (λ f. ⊥)) }
{
    let mut comps = Comps::new(alloc);
    comps.push(Comp {
        binders: 0,
        guard: guard.copy(alloc)?,
        item,
    })?;
    Ok(comps)
}

/// A part of a tuple, counted from 1. Errors: a fault at the place where the term is no tuple, or has no such part.
pub(crate) fn part(
    alloc: Global,
    pos: Pos,
    tuple: Term,
    n: u32,
    context: &Context,
) -> Result<Term, Stop>
    ensures part { IfOk result (λ r. part_of (tree tuple) n ≡ Some (tree r)) }
    ensures fault { IfErr result (λ s. IfFault s (IsPartFault context.now (tree tuple) n pos.offset)) }
{
    part_in(alloc, pos, &tuple, n, context)
}

// Behind a reference: the proof of a function that owns a term goes through each kind of term at each `?`.
fn part_in(alloc: Global, pos: Pos, tuple: &Term, n: u32, context: &Context) -> Result<Term, Stop>
    ensures part { IfOk result (λ r. part_of (tree tuple.now) n ≡ Some (tree r)) }
    ensures fault { IfErr result (λ s. IfFault s (IsPartFault context.now (tree tuple.now) n pos.offset)) }
{
    match project(tuple, n as usize) {
        Some(found) => Ok(found.copy(alloc)?),
        None => Err(fault_under(alloc, pos, missing_part(tuple), &context.sample)),
    }
}

// Why a term hasn't got a part.
fn missing_part(term: &Term) -> FaultKind
    ensures { result ≡ Rattle.lois_eval.specs.Made.missing_part (tree term.now) }
{
    match term {
        Term::Tup(_) => FaultKind::NoSuchPart,
        _ => FaultKind::NotATuple,
    }
}
