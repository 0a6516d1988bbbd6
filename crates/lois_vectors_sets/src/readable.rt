//! Worked sets as they are split for a reader, over atoms with an order.

use crate::making::{comps_of, each, guard_of, lit, set_of};
use lois_base::{Comp, Comps, Constraint, Decider, Lit, NoMemory, Op, Term};
use lois_deciders::{Chosen, GraphDecider};
use lois_order::OrderAtoms;
use lois_readable::make_readable;
use std::alloc::Global;
use std::process::Abort;
use std::test::Fail;

fn chosen(alloc: Global) -> Result<Chosen, Fail> {
    let graph: Box<dyn Decider> = Box::new(alloc, GraphDecider::new())?;
    let mut deciders = Vec::new(alloc);
    deciders.push(graph)?;
    Ok(Chosen::choose(deciders, None).ok_or("no decider")?)
}

// the set's comprehensions as they are read
fn readable(rt: &impl Abort, alloc: Global, comps: Comps) -> Result<Comps, Fail> {
    let mut chosen = chosen(alloc)?;
    let anywhere = Constraint::always(alloc)?;
    let set = Term::Coll(comps);
    assert!(rt; set.fits(0) && anywhere.fits(0));
    match make_readable::<OrderAtoms>(alloc, &set, &anywhere, 0, &mut chosen)? {
        Term::Coll(parts) => Ok(parts),
        _ => Err("not a set".into()),
    }
}

// holds where all literals of the one do, or all of the other
fn either(alloc: Global, one: &[Lit], other: &[Lit]) -> Result<Constraint, NoMemory> {
    let mut constraint = guard_of(alloc, one)?;
    for cube in guard_of(alloc, other)?.into_vec() {
        constraint.push(cube)?;
    }
    Ok(constraint)
}

// `{{$2 for $2 if $0=$1 and $0=$2 or $0!=$1 and $2<$0} for $0 $1}`
fn alone_or_all_below(alloc: Global) -> Result<Comps, NoMemory> {
    let alone = [lit(Op::Eq, 0, 1), lit(Op::Eq, 0, 2)];
    let below = [lit(Op::Ne, 0, 1), lit(Op::Lt, 2, 0)];
    let guard = either(alloc, &alone, &below)?;
    let item = Term::Var(2);
    let inner = Comp {
        binders: 1,
        guard,
        item,
    };
    set_of(alloc, 2, &[], Term::Coll(comps_of(alloc, [inner])?))
}

// whether it is `{$0} for $0`
fn is_alone(comp: &Comp) -> bool {
    match &comp.item {
        Term::Coll(inner) => match inner.as_slice() {
            [only] => {
                comp.binders == 1 && only.binders == 0 && matches!(only.item, Term::Var(0))
            }
            _ => false,
        },
        _ => false,
    }
}

fn holds_at(comp: &Comp, sample: &[u64]) -> bool {
    comp.guard.fits(sample.len()) && comp.guard.at(sample)
}

fn is_each_below(comp: &Comp) -> bool {
    comp.binders == 1
        && matches!(comp.item, Term::Var(1))
        && holds_at(comp, &[2, 1])
        && !holds_at(comp, &[1, 1])
        && !holds_at(comp, &[1, 2])
}

// whether it is `{$1 for $1 if $1<$0} for $0`
fn is_all_below(comp: &Comp) -> bool {
    match &comp.item {
        Term::Coll(inner) => match inner.as_slice() {
            [only] => comp.binders == 1 && is_each_below(only),
            _ => false,
        },
        _ => false,
    }
}

// the second binder only says which of two forms the item has
#[test]
fn a_binder_that_tells_two_forms_apart_goes(rt: HostRuntime) -> Result<(), Fail> {
    let alloc = rt.alloc();
    let parts = readable(&rt, alloc, alone_or_all_below(alloc)?)?;
    assert!(rt; parts.len() == 2);
    assert!(rt; parts.as_slice().iter().any(|comp| is_alone(comp)));
    assert!(rt; parts.as_slice().iter().any(|comp| is_all_below(comp)));
    Ok(())
}

// `{{$0, $1} for $0 $1 if $0<$1}`, of which both binders are needed
#[test]
fn what_needs_its_binders_stays(rt: HostRuntime) -> Result<(), Fail> {
    let alloc = rt.alloc();
    let both = comps_of(
        alloc,
        [
            each(alloc, 0, &[], Term::Var(0))?,
            each(alloc, 0, &[], Term::Var(1))?,
        ],
    )?;
    let pairs = set_of(alloc, 2, &[lit(Op::Lt, 0, 1)], Term::Coll(both))?;
    let parts = readable(&rt, alloc, pairs)?;
    assert!(rt; parts.len() == 1 && parts.as_slice()[0].binders == 2);
    Ok(())
}
