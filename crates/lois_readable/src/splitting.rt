//! Terms whose comprehensions are split in two: where a literal holds, and where it doesn't.

ghost use Rattle.std.specs.Prelude.{ℕ, ◌+◌, Bool, List, OnOk, IfOk};
ghost use Rattle.lois_base.specs.Data.{tup, terms_of, comps_of};
ghost use Rattle.lois_base.specs.Fits.{ConstraintFits, Fits, PartsFit, CompFits, ItemsFit, LitFits};
ghost use Rattle.lois_base.specs.Tree.{tree, comp_of};
ghost use Rattle.lois_base.specs.Validity.{AdmitsComp, AdmitsLit};
ghost use Rattle.lois_readable.specs.Parts.{PutsParts};
ghost use Rattle.lois_simplify.specs.Simplification.{IsSimplification, set_of};

use crate::lines::{only_literal, split_of};
use lois_base::{Comp, Comps, Constraint, Lit, NoMemory, Term, Terms};
use lois_constraint::{and_not, meet};
use std::alloc::Global;

// Puts the comprehension behind the others in two parts: where the literal holds, and where it doesn't.
fn put_two(alloc: Global, parted: &mut Comps, comp: &Comp, lit: Lit) -> Result<(), NoMemory>
    requires { (ordered : Bool) → AdmitsComp ordered (comp_of comp.now) → AdmitsLit ordered lit }
    ensures { OnOk result ((u : List (List Lit)) (n : ℕ) → LitFits (n + comp.now.binders) lit → PutsParts u n parted.old parted.new (comp_of comp.now)) }
{
    let only = only_literal(alloc, lit)?;
    let inside = Comp {
        binders: comp.binders,
        guard: meet(alloc, &comp.guard, &only)?,
        item: comp.item.copy(alloc)?,
    };
    let outside = Comp {
        binders: comp.binders,
        guard: and_not(alloc, &comp.guard, &only)?,
        item: comp.item.copy(alloc)?,
    };
    parted.push(inside)?;
    parted.push(outside)
}

/// The term with its comprehensions split where each part needs fewer binders, the outer ones first: of what is split the items stay
/// as they are.
#[cycle(splitting)]
pub(crate) fn split(
    alloc: Global,
    term: &Term,
    under: &Constraint,
    size: usize,
) -> Result<Term, NoMemory>
    requires levels { Fits size (tree term.now) }
    requires under_levels { ConstraintFits size under.now }
    ensures { IfOk result (λ r. IsSimplification under.now size (tree term.now) (tree r)) }
{
    match term {
        Term::Var(level) => Ok(Term::Var(*level)),
        Term::Tag(_) => term.copy(alloc),
        Term::Tup(parts) => Ok(Term::Tup(split_parts(alloc, parts, under, size)?)),
        Term::Coll(comps) => Ok(Term::Coll(split_comps(alloc, comps, under, size)?)),
    }
}

#[cycle(splitting)]
fn split_parts(
    alloc: Global,
    parts: &Terms,
    under: &Constraint,
    size: usize,
) -> Result<Terms, NoMemory>
    requires levels { PartsFit size (terms_of parts.now) }
    requires under_levels { ConstraintFits size under.now }
    ensures { IfOk result (λ r. IsSimplification under.now size (tup (terms_of parts.now)) (tup (terms_of r))) }
{
    let mut parted = Terms::new(alloc);
    for part in parts.as_slice() {
        parted.push(split(alloc, part, under, size)?)?;
    }
    Ok(parted)
}

#[cycle(splitting)]
fn split_comps(
    alloc: Global,
    comps: &Comps,
    under: &Constraint,
    size: usize,
) -> Result<Comps, NoMemory>
    requires levels { ItemsFit size (comps_of comps.now) }
    requires under_levels { ConstraintFits size under.now }
    ensures { IfOk result (λ r. IsSimplification under.now size (set_of comps.now) (set_of r)) }
{
    let mut parted = Comps::new(alloc);
    for comp in comps.as_slice() {
        put_split(alloc, &mut parted, comp, under, size)?;
    }
    Ok(parted)
}

#[cycle(splitting)]
fn put_split(
    alloc: Global,
    parted: &mut Comps,
    comp: &Comp,
    under: &Constraint,
    size: usize,
) -> Result<(), NoMemory>
    requires levels { CompFits size (comp_of comp.now) }
    requires under_levels { ConstraintFits size under.now }
    ensures { OnOk result (PutsParts under.now size parted.old parted.new (comp_of comp.now)) }
{
    let inner = size + comp.binders;
    if let Some(lit) = split_of(alloc, comp, under, size, inner)? {
        return put_two(alloc, parted, comp, lit);
    }
    let here = meet(alloc, under, &comp.guard)?;
    let item = split(alloc, &comp.item, &here, inner)?;
    parted.push(Comp {
        binders: comp.binders,
        guard: comp.guard.copy(alloc)?,
        item,
    })
}
