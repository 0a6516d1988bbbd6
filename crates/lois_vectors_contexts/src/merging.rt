//! Contexts that hold the same are joined.

ghost use Rattle.std.specs.Prelude.{◌<◌};

use crate::contexts::inside;
use crate::making::{admits, chosen, compared, each, guard_of, name_of, opening, set_of};
use lois_base::{Constraint, Lit, Op, Term};
use lois_context::{Context, Split, merge_equal, side, split};
use std::alloc::Global;
use std::process::Abort;
use std::test::Fail;

// the empty set, or the set of it
fn nested(alloc: Global, depth: usize) -> Result<Term, Fail> {
    let empty = set_of(alloc, [])?;
    if depth == 0 {
        return Ok(empty);
    }
    let mut one = each(guard_of(alloc, &[])?, empty);
    one.binders = 0;
    Ok(set_of(alloc, [one])?)
}

// over so many parameters, `s` holds the set
fn holding(rt: &impl Abort, alloc: Global, size: usize, depth: usize) -> Result<Context, Fail> {
    let mut one = each(guard_of(alloc, &[])?, nested(alloc, depth)?);
    one.binders = 0;
    let elements = set_of(alloc, [one])?;
    let before = opening(rt, alloc, size)?;
    let name = name_of(rt, alloc, b"s")?;
    let mut entered = inside(rt, alloc, &before, &elements, &name)?;
    Ok(entered.pop().ok_or("the set has a member")?)
}

fn part(
    rt: &impl Abort,
    alloc: Global,
    context: &Context,
    condition: &Constraint,
) -> Result<Context, Fail> {
    assert!(rt; condition.fits(context.size));
    let mut chosen = chosen(alloc)?;
    Ok(side(alloc, context, condition, &mut chosen)?.ok_or("the condition can be met")?)
}

// the part of a context that holds the set, where the literal does
fn holding_where(
    rt: &impl Abort,
    alloc: Global,
    depth: usize,
    op: Op,
    left: usize,
    right: usize,
) -> Result<Context, Fail> {
    let context = holding(rt, alloc, 2, depth)?;
    part(rt, alloc, &context, &compared(alloc, op, left, right)?)
}

// a context that holds `{}`, where `$0` is `$1` and where it isn't
fn both_sides(rt: &impl Abort, alloc: Global) -> Result<Split, Fail> {
    let context = holding(rt, alloc, 2, 0)?;
    let equal = compared(alloc, Op::Eq, 0, 1)?;
    assert!(rt; equal.fits(context.size));
    Ok(split(alloc, context, &equal, &mut chosen(alloc)?)?)
}

fn listed(alloc: Global, both: Split) -> Result<Vec<Context>, Fail> {
    let yes = both.yes.ok_or("no side where it holds")?;
    let no = both.no.ok_or("no side where it doesn't")?;
    let mut contexts = Vec::new(alloc);
    contexts.push(yes)?;
    contexts.push(no)?;
    Ok(contexts)
}

#[test]
fn two_with_equal_stores_are_one(rt: HostRuntime) -> Result<(), Fail> {
    let alloc = rt.alloc();
    let contexts = listed(alloc, both_sides(&rt, alloc)?)?;
    let merged = merge_equal(alloc, contexts)?;
    assert_eq!(rt; merged.len(), 1);
    assert!(rt; admits(&merged[0], &[4, 4]) && admits(&merged[0], &[4, 7]));
    assert!(rt; merged[0].store.len() == 1);

    // that of the side where the two are equal
    let [first, second] = merged[0].sample.as_slice() else {
        return Err("not two numbers".into());
    };
    assert_eq!(rt; first, second);
    Ok(())
}

// the first and the last hold `{}`, the other one `{{}}`
fn three_parts(rt: &impl Abort, alloc: Global) -> Result<Vec<Context>, Fail> {
    let rows = [(0, Op::Lt, 0, 1), (1, Op::Lt, 1, 0), (0, Op::Eq, 0, 1)];
    let mut contexts = Vec::new(alloc);
    for (depth, op, left, right) in rows {
        contexts.push(holding_where(rt, alloc, depth, op, left, right)?)?;
    }
    Ok(contexts)
}

#[test]
fn two_of_three_are_joined(rt: HostRuntime) -> Result<(), Fail> {
    let alloc = rt.alloc();
    let merged = merge_equal(alloc, three_parts(&rt, alloc)?)?;
    assert_eq!(rt; merged.len(), 2);
    for (choice, first) in [([1, 2], true), ([2, 1], false), ([5, 5], true)] {
        assert_eq!(rt; admits(&merged[0], &choice), first);
        assert_eq!(rt; admits(&merged[1], &choice), !first);
    }
    let empty = holding(&rt, alloc, 2, 0)?;
    assert!(rt; merged[0].store.is_equal(&empty.store));
    let other = holding(&rt, alloc, 2, 1)?;
    assert!(rt; merged[1].store.is_equal(&other.store));
    Ok(())
}

// `$0` is the first of `$2` to `$11` that it equals at `first`, and `$1` at `second`
fn cell(alloc: Global, first: usize, second: usize) -> Result<Constraint, Fail>
    requires first { first < 10 }
    requires second { second < 10 }
{
    let mut literals = Vec::new(alloc);
    for (level, place) in [(0, first), (1, second)] {
        for other in 0..10 {
            let op = if other == place { Op::Eq } else { Op::Ne };
            if other <= place {
                literals.push(Lit {
                    op,
                    left: level,
                    right: 2 + other,
                })?;
            }
        }
    }
    Ok(guard_of(alloc, &literals)?)
}

// the part of `even` or `odd` where both parameters have their places
fn in_cell(
    rt: &impl Abort,
    alloc: Global,
    even: &Context,
    odd: &Context,
    first: usize,
    second: usize,
) -> Result<Context, Fail>
    requires first { first < 10 }
    requires second { second < 10 }
{
    let held = if first % 2 == second % 2 { even } else { odd };
    part(rt, alloc, held, &cell(alloc, first, second)?)
}

// where the two places are both even or both odd `{}` is held, and else `{{}}`
fn a_hundred(rt: &impl Abort, alloc: Global) -> Result<Vec<Context>, Fail> {
    let even = holding(rt, alloc, 12, 0)?;
    let odd = holding(rt, alloc, 12, 1)?;
    let mut contexts = Vec::new(alloc);
    for first in 0..10 {
        for second in 0..10 {
            contexts.push(in_cell(rt, alloc, &even, &odd, first, second)?)?;
        }
    }
    Ok(contexts)
}

#[test]
fn a_hundred_are_two(rt: HostRuntime) -> Result<(), Fail> {
    let alloc = rt.alloc();
    let contexts = a_hundred(&rt, alloc)?;
    assert_eq!(rt; contexts.len(), 100);
    let merged = merge_equal(alloc, contexts)?;
    assert_eq!(rt; merged.len(), 2);
    assert_eq!(rt; merged[0].when.len(), 50);
    let choice = [13, 14, 10, 11, 12, 13, 14, 15, 16, 17, 18, 19];
    assert!(rt; !admits(&merged[0], &choice) && admits(&merged[1], &choice));
    let choice = [13, 15, 10, 11, 12, 13, 14, 15, 16, 17, 18, 19];
    assert!(rt; admits(&merged[0], &choice) && !admits(&merged[1], &choice));
    let nowhere = [1, 15, 10, 11, 12, 13, 14, 15, 16, 17, 18, 19];
    assert!(rt; !admits(&merged[0], &nowhere) && !admits(&merged[1], &nowhere));
    Ok(())
}
