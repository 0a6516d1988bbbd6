//! Items as they read where more is known around them. Nothing rests on how short they get.

use lois_base::{Comp, Comps, Constraint, Cube, Lit, NoMemory, Term, Terms};
use lois_constraint::{implies, meet, singleton};
use std::alloc::Global;

/// Whether the literal holds wherever `here` does.
pub(crate) fn is_known(alloc: Global, here: &Constraint, lit: Lit) -> Result<bool, NoMemory> {
    for cube in here.as_slice() {
        if !implies(alloc, cube, lit)? {
            return Ok(false);
        }
    }
    Ok(true)
}

fn unknown_literals(alloc: Global, cube: &Cube, here: &Constraint) -> Result<Cube, NoMemory> {
    let mut short = Cube::new(alloc);
    for lit in cube.as_slice() {
        if !is_known(alloc, here, *lit)? {
            short.push(*lit)?;
        }
    }
    Ok(short)
}

// The cubes that can hold where `here` does, without the literals that do in any case.
fn short_guard(
    alloc: Global,
    guard: &Constraint,
    here: &Constraint,
) -> Result<Constraint, NoMemory> {
    let mut short = Constraint::new(alloc);
    for cube in guard.as_slice() {
        let one = singleton(alloc, cube)?;
        let both = meet(alloc, here, &one)?;
        if both.len() != 0 {
            short.push(unknown_literals(alloc, cube, here)?)?;
        }
    }
    Ok(short)
}

/// The term with its guards without what is known of `here`, without comprehensions that have no members there.
#[cycle(surroundings)]
pub(crate) fn short_under(alloc: Global, term: &Term, here: &Constraint) -> Result<Term, NoMemory> {
    match term {
        Term::Var(level) => Ok(Term::Var(*level)),
        Term::Tag(_) => term.copy(alloc),
        Term::Tup(parts) => Ok(Term::Tup(short_parts(alloc, parts, here)?)),
        Term::Coll(comps) => Ok(Term::Coll(short_items(alloc, comps, here)?)),
    }
}

#[cycle(surroundings)]
fn short_parts(alloc: Global, parts: &Terms, here: &Constraint) -> Result<Terms, NoMemory> {
    let mut short = Terms::new(alloc);
    for part in parts.as_slice() {
        short.push(short_under(alloc, part, here)?)?;
    }
    Ok(short)
}

#[cycle(surroundings)]
fn short_items(alloc: Global, comps: &Comps, here: &Constraint) -> Result<Comps, NoMemory> {
    let mut short = Comps::new(alloc);
    for comp in comps.as_slice() {
        let inside = meet(alloc, here, &comp.guard)?;
        if inside.len() != 0 {
            short.push(short_comp(alloc, comp, here, &inside)?)?;
        }
    }
    Ok(short)
}

#[cycle(surroundings)]
fn short_comp(
    alloc: Global,
    comp: &Comp,
    here: &Constraint,
    inside: &Constraint,
) -> Result<Comp, NoMemory> {
    Ok(Comp {
        binders: comp.binders,
        guard: short_guard(alloc, &comp.guard, here)?,
        item: short_under(alloc, &comp.item, inside)?,
    })
}
