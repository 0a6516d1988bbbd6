//! Contexts, sets and constraints for the tests.

use lois_answers::Lines;
use lois_base::{
    Comp, Comps, Constraint, Cube, Decider, Lit, Name, NoMemory, Numbers, Op, Term, is_name,
};
use lois_context::{Context, Shared, Store, side};
use lois_deciders::{Chosen, GraphDecider};
use std::alloc::Global;
use std::process::Abort;
use std::test::Fail;

pub(crate) fn guard_of(alloc: Global, literals: &[Lit]) -> Result<Constraint, NoMemory> {
    let mut cube = Cube::new(alloc);
    for lit in literals {
        cube.push(*lit)?;
    }
    let mut constraint = Constraint::new(alloc);
    constraint.push(cube)?;
    Ok(constraint)
}

pub(crate) fn compared(
    alloc: Global,
    op: Op,
    left: usize,
    right: usize,
) -> Result<Constraint, NoMemory> {
    guard_of(alloc, &[Lit { op, left, right }])
}

// `{item for a binder if guard}` as one of a set's comprehensions
pub(crate) fn each(guard: Constraint, item: Term) -> Comp {
    Comp {
        binders: 1,
        guard,
        item,
    }
}

pub(crate) fn set_of<const N: usize>(alloc: Global, items: [Comp; N]) -> Result<Term, NoMemory> {
    let mut comps = Comps::new(alloc);
    for comp in Vec::from_array(alloc, items)? {
        comps.push(comp)?;
    }
    Ok(Term::Coll(comps))
}

pub(crate) fn chosen(alloc: Global) -> Result<Chosen, Fail> {
    let graph: Box<dyn Decider> = Box::new(alloc, GraphDecider::new())?;
    let mut deciders = Vec::new(alloc);
    deciders.push(graph)?;
    Ok(Chosen::choose(deciders, None).ok_or("no decider")?)
}

// the set of `{item for a binder}`, where the one literal holds
pub(crate) fn set_where(
    alloc: Global,
    literal: (usize, Op, usize),
    item: Term,
) -> Result<Term, NoMemory> {
    let (left, op, right) = literal;
    set_of(alloc, [each(compared(alloc, op, left, right)?, item)])
}

// the part of the context where the literal holds, which only has levels that the context has
pub(crate) fn part(
    rt: &impl Abort,
    alloc: Global,
    context: &Context,
    literal: (usize, Op, usize),
    chosen: &mut Chosen,
) -> Result<Option<Context>, NoMemory> {
    let (left, op, right) = literal;
    let condition = compared(alloc, op, left, right)?;
    assert!(rt; condition.fits(context.size));
    side(alloc, context, &condition, chosen)
}

pub(crate) fn name_of(rt: &impl Abort, alloc: Global, bytes: &[u8]) -> Result<Name, NoMemory> {
    assert!(rt; is_name(bytes));
    Name::from_bytes(alloc, bytes)
}

// parameters of which nothing is known, and an empty store
pub(crate) fn opening(rt: &impl Abort, alloc: Global, size: usize) -> Result<Context, NoMemory> {
    let when = Constraint::always(alloc)?;
    let mut sample = Numbers::new(alloc);
    for number in 0..size {
        sample.push(number as u64)?;
    }
    assert!(rt; when.fits(size) && sample.len() == size);
    assert!(rt; when.at(sample.as_slice()));
    let store = Store::new(alloc);
    let lines = Shared::new(alloc, Lines::new(alloc))?;
    Ok(Context {
        size,
        when,
        sample,
        store,
        lines,
    })
}

pub(crate) fn admits(context: &Context, choice: &[u64]) -> bool {
    choice.len() == context.size && context.when.at(choice)
}
