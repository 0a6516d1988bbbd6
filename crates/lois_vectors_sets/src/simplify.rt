//! Worked sets, over atoms with an order.

use crate::making::{comps_of, each, guard_of, lit, set_of};
use lois_base::{Comp, Comps, Constraint, Decider, Lit, NoMemory, Op, Term};
use lois_deciders::{Chosen, GraphDecider};
use lois_order::OrderAtoms;
use lois_simplify::{shortest, simplify};
use lois_strict::split_term;
use std::alloc::Global;
use std::process::Abort;
use std::test::Fail;

fn chosen(alloc: Global) -> Result<Chosen, Fail> {
    let graph: Box<dyn Decider> = Box::new(alloc, GraphDecider::new())?;
    let mut deciders = Vec::new(alloc);
    deciders.push(graph)?;
    Ok(Chosen::choose(deciders, None).ok_or("no decider")?)
}

// the set's comprehensions once it is simplified where the literals hold
fn simple(
    rt: &impl Abort,
    alloc: Global,
    comps: Comps,
    literals: &[Lit],
    size: usize,
) -> Result<Comps, Fail> {
    let mut chosen = chosen(alloc)?;
    let under = guard_of(alloc, literals)?;
    let set = Term::Coll(comps);
    assert!(rt; set.fits(size) && under.fits(size));
    match simplify::<OrderAtoms>(alloc, &set, &under, size, &mut chosen)? {
        Term::Coll(simple) => Ok(simple),
        _ => Err("not a set".into()),
    }
}

fn holds_at(comp: &Comp, sample: &[u64]) -> bool {
    comp.guard.fits(sample.len()) && comp.guard.at(sample)
}

// whether this is `{$0}` as it is written shortest
fn is_only_a(comps: &Comps) -> bool {
    match comps.as_slice() {
        [comp] => { comp.binders == 0 && holds_at(comp, &[7]) && matches!(comp.item, Term::Var(0)) }
        _ => false,
    }
}

// the one member, if it is a set
fn inside(comps: &Comps) -> Option<&Comps> {
    match comps.as_slice() {
        [comp] => match &comp.item {
            Term::Coll(inner) => Some(inner),
            _ => None,
        },
        _ => None,
    }
}

#[test]
fn what_has_no_members_goes(rt: HostRuntime) -> Result<(), Fail> {
    let alloc = rt.alloc();
    let unmet = [lit(Op::Lt, 1, 0), lit(Op::Lt, 0, 1)];
    let none = set_of(alloc, 1, &unmet, Term::Var(1))?;
    assert!(rt; simple(&rt, alloc, none, &[], 1)?.len() == 0);
    Ok(())
}

// whether `{$level for $1 if $1 .. $0}` is `{$0}` once it is simplified
fn comes_to_only_a(rt: &impl Abort, alloc: Global, op: Op, level: usize) -> Result<bool, Fail> {
    let comps = set_of(alloc, 1, &[lit(op, 1, 0)], Term::Var(level))?;
    Ok(is_only_a(&simple(rt, alloc, comps, &[], 1)?))
}

// the binder isn't used, or is fixed
#[test]
fn binders_that_tell_nothing_go(rt: HostRuntime) -> Result<(), Fail> {
    assert!(rt; comes_to_only_a(&rt, rt.alloc(), Op::Lt, 0)?);
    assert!(rt; comes_to_only_a(&rt, rt.alloc(), Op::Eq, 1)?);
    Ok(())
}

// `$1 for $1` where it stands so to `$0`
fn standing(alloc: Global, op: Op, left: usize, right: usize) -> Result<Comp, NoMemory> {
    each(alloc, 1, &[lit(op, left, right)], Term::Var(1))
}

fn three_ways(alloc: Global) -> Result<Comps, NoMemory> {
    let apart = standing(alloc, Op::Ne, 0, 1)?;
    let below = standing(alloc, Op::Lt, 1, 0)?;
    let above = standing(alloc, Op::Lt, 0, 1)?;
    comps_of(alloc, [apart, below, above])
}

// `$1 != $0` is covered by below and above together, and by neither alone
#[test]
fn what_the_others_cover_goes(rt: HostRuntime) -> Result<(), Fail> {
    let alloc = rt.alloc();
    let left = simple(&rt, alloc, three_ways(alloc)?, &[], 1)?;
    assert!(rt; left.len() == 2);
    assert!(rt; left.as_slice().iter().all(|comp| !holds_at(comp, &[1, 1])));
    Ok(())
}

// `{$0, $1 for $1 if $1=$0}`
fn written_twice(alloc: Global) -> Result<Comps, NoMemory> {
    let a = each(alloc, 0, &[], Term::Var(0))?;
    comps_of(alloc, [a, standing(alloc, Op::Eq, 0, 1)?])
}

// `{{$0}, {$0, $1 for $1 if $1=$0}}`, whose members are both `{$0}`
fn sets(alloc: Global) -> Result<Comps, NoMemory> {
    let short = Term::Coll(set_of(alloc, 0, &[], Term::Var(0))?);
    let long = Term::Coll(written_twice(alloc)?);
    let first = each(alloc, 0, &[], short)?;
    comps_of(alloc, [first, each(alloc, 0, &[], long)?])
}

#[test]
fn sets_inside_of_sets(rt: HostRuntime) -> Result<(), Fail> {
    let alloc = rt.alloc();
    let left = simple(&rt, alloc, sets(alloc)?, &[], 1)?;
    assert!(rt; is_only_a(inside(&left).ok_or("not one set")?));
    Ok(())
}

// `{$2 for $2 if $1<$2}` and `{$2 for $2 if $0<$2}`
fn above_both(alloc: Global) -> Result<Comps, NoMemory> {
    let above_b = each(alloc, 1, &[lit(Op::Lt, 1, 2)], Term::Var(2))?;
    let above_a = each(alloc, 1, &[lit(Op::Lt, 0, 2)], Term::Var(2))?;
    comps_of(alloc, [above_b, above_a])
}

// where `$0<$1`, and anywhere
#[test]
fn what_holds_around_counts(rt: HostRuntime) -> Result<(), Fail> {
    let alloc = rt.alloc();
    assert!(rt; simple(&rt, alloc, above_both(alloc)?, &[], 2)?.len() == 2);
    let left = simple(&rt, alloc, above_both(alloc)?, &[lit(Op::Lt, 0, 1)], 2)?;
    assert!(rt; left.len() == 1 && holds_at(&left.as_slice()[0], &[0, 2, 1]));
    Ok(())
}

#[test]
fn many_of_which_few_differ(rt: HostRuntime) -> Result<(), Fail> {
    let alloc = rt.alloc();
    let mut comps = Comps::new(alloc);
    for index in 0..10_000 {
        comps.push(each(alloc, 0, &[], Term::Var(index % 7))?)?;
    }
    assert!(rt; simple(&rt, alloc, comps, &[], 7)?.len() == 7);
    Ok(())
}

fn is_strict(c: &Constraint) -> bool {
    c.as_slice().iter().all(|cube| cube.as_slice().iter().all(|lit| lit.op != Op::AtMost))
}

// where `$0` is at most `$1`
#[test]
fn what_is_read_has_no_weak_inequality(rt: HostRuntime) -> Result<(), Fail> {
    let alloc = rt.alloc();
    let weak = guard_of(alloc, &[lit(Op::AtMost, 0, 1)])?;
    let always = Constraint::always(alloc)?;
    let read = shortest(alloc, &weak, &always)?;
    assert!(rt; is_strict(&read) && read.fits(2));
    assert!(rt; read.at(&[1, 2]) && read.at(&[2, 2]) && !read.at(&[2, 1]));
    Ok(())
}

// `{{$1 for $1 if $1<=$0}}`
fn set_of_those_at_most(alloc: Global) -> Result<Term, NoMemory> {
    let inner = Term::Coll(set_of(alloc, 1, &[lit(Op::AtMost, 1, 0)], Term::Var(1))?);
    Ok(Term::Coll(set_of(alloc, 0, &[], inner)?))
}

// whether the comprehension has the atom at `$1` where it is at most `$0`, without a weak inequality
fn has_those_at_most(comp: &Comp) -> bool {
    is_strict(&comp.guard)
        && holds_at(comp, &[2, 1])
        && holds_at(comp, &[1, 1])
        && !holds_at(comp, &[1, 2])
}

#[test]
fn sets_inside_are_split(rt: HostRuntime) -> Result<(), Fail> {
    let alloc = rt.alloc();
    let weak = set_of_those_at_most(alloc)?;
    let split = split_term(alloc, &weak)?;
    match &split {
        Term::Coll(outer) => {
            let inner = inside(outer).ok_or("not one set")?;
            assert!(rt; inner.as_slice().iter().any(|comp| has_those_at_most(comp)));
            Ok(())
        }
        _ => Err("not a set".into()),
    }
}
