//! Worked questions, answered by trying small numbers as atoms.

use crate::making::{comps_of, each, lit, pair, set_of};
use lois_base::{Comp, Comps, Formula, Formulas, Lit, Name, NoMemory, Op, Term, is_name};
use lois_relate::{clash, equal_formula, included_formula, item_formula, member_formula};
use std::alloc::Global;
use std::process::Abort;
use std::test::Fail;

// Between the atoms of a choice lie enough others for the few quantifiers of these formulas.
const ATOMS: u64 = 25;

fn literal_holds(lit: Lit, choice: &[u64]) -> bool {
    let (Some(left), Some(right)) = (choice.get(lit.left), choice.get(lit.right)) else {
        return false;
    };
    match lit.op {
        Op::Eq => left == right,
        Op::Ne => left != right,
        Op::Lt => left < right,
        Op::AtMost => left <= right,
    }
}

#[cycle(trying)]
fn holds(f: &Formula, choice: &[u64], alloc: Global) -> Result<bool, NoMemory> {
    match f {
        Formula::Lit(lit) => Ok(literal_holds(*lit, choice)),
        Formula::All(parts) => Ok(!some_is(parts, choice, alloc, false)?),
        Formula::Any(parts) => some_is(parts, choice, alloc, true),
        Formula::Not(body) => Ok(!holds(body, choice, alloc)?),
        Formula::Exists(body) => is_for_some(body, choice, alloc, true),
        Formula::Forall(body) => Ok(!is_for_some(body, choice, alloc, false)?),
    }
}

#[cycle(trying)]
fn some_is(
    parts: &Formulas,
    choice: &[u64],
    alloc: Global,
    wanted: bool,
) -> Result<bool, NoMemory> {
    for part in parts.as_slice() {
        if holds(part, choice, alloc)? == wanted {
            return Ok(true);
        }
    }
    Ok(false)
}

#[cycle(trying)]
fn is_for_some(
    body: &Formula,
    choice: &[u64],
    alloc: Global,
    wanted: bool,
) -> Result<bool, NoMemory> {
    for atom in 0..ATOMS {
        let mut longer = Vec::from_slice(alloc, choice)?;
        longer.push(atom)?;
        if holds(body, longer.as_slice(), alloc)? == wanted {
            return Ok(true);
        }
    }
    Ok(false)
}

// `$2 for $2` where it stands so to another level
fn standing(alloc: Global, op: Op, left: usize, right: usize) -> Result<Comp, NoMemory> {
    each(alloc, 1, &[lit(op, left, right)], Term::Var(2))
}

// the set `{$2 for $2 if $0<$2}`, or above another level
fn above(alloc: Global, level: usize) -> Result<Comps, NoMemory> {
    comps_of(alloc, [standing(alloc, Op::Lt, level, 2)?])
}

// the set `{$2 for $2}`
fn atoms(alloc: Global) -> Result<Comps, NoMemory> {
    set_of(alloc, 1, &[], Term::Var(2))
}

// the comprehension `$3 for $3 if $2<$3` inside of another one
fn above_inside(alloc: Global) -> Result<Comp, NoMemory> {
    each(alloc, 1, &[lit(Op::Lt, 2, 3)], Term::Var(3))
}

// the set `{{$3 for $3 if $2<$3} for $2}`
fn sets_above(alloc: Global) -> Result<Comps, NoMemory> {
    let inner = Term::Coll(comps_of(alloc, [above_inside(alloc)?])?);
    set_of(alloc, 1, &[], inner)
}

// the comprehension `$2 for $2 if $0<$2` twice
fn above_twice(alloc: Global) -> Result<Comps, NoMemory> {
    let once = standing(alloc, Op::Lt, 0, 2)?;
    comps_of(alloc, [once, standing(alloc, Op::Lt, 0, 2)?])
}

// all atoms, in three pieces: above `$0`, `$0`, and below it
fn pieces(alloc: Global) -> Result<Comps, NoMemory> {
    let above = standing(alloc, Op::Lt, 0, 2)?;
    let same = standing(alloc, Op::Eq, 0, 2)?;
    let below = standing(alloc, Op::Lt, 2, 0)?;
    comps_of(alloc, [above, same, below])
}

// the set `{{$3 for $3 if $2<$3, $3 for $3 if $2<$3} for $2}`
fn sets_above_twice(alloc: Global) -> Result<Comps, NoMemory> {
    let inner = comps_of(alloc, [above_inside(alloc)?, above_inside(alloc)?])?;
    set_of(alloc, 1, &[], Term::Coll(inner))
}

// sets over the parameters `$0` and `$1`
#[derive(Clone, Copy, Debug)]
enum Set {
    // the atoms above the level
    Above(usize),
    AboveTwice,
    Pieces,
    Atoms,
    SetsAbove,
    SetsAboveTwice,
}

fn members(alloc: Global, set: Set) -> Result<Comps, NoMemory> {
    match set {
        Set::Above(level) => above(alloc, level),
        Set::AboveTwice => above_twice(alloc),
        Set::Pieces => pieces(alloc),
        Set::Atoms => atoms(alloc),
        Set::SetsAbove => sets_above(alloc),
        Set::SetsAboveTwice => sets_above_twice(alloc),
    }
}

// the set `{{..{item}..}}`, 60 deep
fn nested(alloc: Global, item: Term) -> Result<Term, NoMemory> {
    let mut term = item;
    for _ in 0..60 {
        term = Term::Coll(set_of(alloc, 0, &[], term)?);
    }
    Ok(term)
}

fn tag(rt: &impl Abort, alloc: Global, name: &[u8]) -> Result<Term, NoMemory> {
    assert!(rt; is_name(name));
    Ok(Term::Tag(Name::from_bytes(alloc, name)?))
}

// values over the parameters `$0` and `$1`
#[derive(Clone, Copy, Debug)]
enum Value<'a> {
    Atom(usize),
    Tag(&'a [u8]),
    // the pair of two levels
    Pair(usize, usize),
    Of(Set),
    // 60 sets around the level
    Nested(usize),
    NestedTag(&'a [u8]),
}

fn value_of(rt: &impl Abort, alloc: Global, value: Value<'_>) -> Result<Term, NoMemory> {
    match value {
        Value::Atom(level) => Ok(Term::Var(level)),
        Value::Tag(name) => tag(rt, alloc, name),
        Value::Pair(first, second) => {
            Ok(Term::Tup(pair(alloc, Term::Var(first), Term::Var(second))?))
        }
        Value::Of(made) => Ok(Term::Coll(members(alloc, made)?)),
        Value::Nested(level) => nested(alloc, Term::Var(level)),
        Value::NestedTag(name) => nested(alloc, tag(rt, alloc, name)?),
    }
}

// Where the formula holds: `$0` below, at and above `$1`.
fn truths(alloc: Global, f: &Formula) -> Result<[bool; 3], NoMemory> {
    Ok([
        holds(f, &[8, 16], alloc)?,
        holds(f, &[8, 8], alloc)?,
        holds(f, &[16, 8], alloc)?,
    ])
}

fn equal(rt: &impl Abort, alloc: Global, s: &Term, t: &Term) -> Result<[bool; 3], NoMemory> {
    assert!(rt; s.fits(2) && t.fits(2));
    truths(alloc, &equal_formula(alloc, s, t, 2)?)
}

fn member(rt: &impl Abort, alloc: Global, s: &Term, comps: Comps) -> Result<[bool; 3], NoMemory> {
    let t = Term::Coll(comps);
    assert!(rt; s.fits(2) && t.fits(2));
    truths(alloc, &member_formula(alloc, s, &t, 2)?)
}

fn included(
    rt: &impl Abort,
    alloc: Global,
    comps: Comps,
    others: Comps,
) -> Result<[bool; 3], NoMemory> {
    let s = Term::Coll(comps);
    let t = Term::Coll(others);
    assert!(rt; s.fits(2) && t.fits(2));
    truths(alloc, &included_formula(alloc, &s, &t, 2)?)
}

const ALWAYS: [bool; 3] = [true, true, true];

const NEVER: [bool; 3] = [false, false, false];

const EQUAL: [bool; 3] = [false, true, false];

const BELOW: [bool; 3] = [true, false, false];

const AT_LEAST: [bool; 3] = [false, true, true];

#[test]
fn values_are_equal(rt: HostRuntime) -> Result<(), Fail> {
    let alloc = rt.alloc();
    let rows = [
        (Value::Of(Set::Above(0)), Value::Of(Set::AboveTwice), ALWAYS),
        (Value::Of(Set::Pieces), Value::Of(Set::Atoms), ALWAYS),
        (Value::Of(Set::Above(0)), Value::Of(Set::Above(1)), EQUAL),
        (Value::Of(Set::Above(0)), Value::Of(Set::Atoms), NEVER),
        (
            Value::Of(Set::SetsAbove),
            Value::Of(Set::SetsAboveTwice),
            ALWAYS,
        ),
        (Value::Of(Set::SetsAbove), Value::Of(Set::Above(0)), NEVER),
        (Value::Tag(b"a"), Value::Atom(0), NEVER),
        (Value::Pair(0, 1), Value::Pair(1, 0), EQUAL),
        // deep sets stay small
        (Value::Nested(0), Value::Nested(1), EQUAL),
        (Value::Nested(0), Value::Nested(0), ALWAYS),
        (Value::NestedTag(b"a"), Value::NestedTag(b"b"), NEVER),
    ];
    for (first, second, wanted) in rows {
        let s = value_of(&rt, alloc, first)?;
        let t = value_of(&rt, alloc, second)?;
        assert_eq!(rt; equal(&rt, alloc, &s, &t)?, wanted, "{first:?} {second:?}");
    }
    Ok(())
}

// values that clash have another shape, wherever their atoms lie
#[test]
fn shapes_clash(rt: HostRuntime) -> Result<(), Fail> {
    let alloc = rt.alloc();
    let rows = [
        (Value::Tag(b"a"), Value::Tag(b"a"), false),
        (Value::Tag(b"a"), Value::Tag(b"b"), true),
        (Value::Tag(b"a"), Value::Atom(0), true),
        (Value::Atom(0), Value::Atom(1), false),
        (Value::Pair(0, 0), Value::Pair(0, 1), false),
        (Value::Pair(0, 1), Value::Of(Set::Atoms), true),
        (Value::Of(Set::SetsAbove), Value::Of(Set::Atoms), false),
    ];
    for (first, second, wanted) in rows {
        let s = value_of(&rt, alloc, first)?;
        let t = value_of(&rt, alloc, second)?;
        assert_eq!(rt; clash(&s, &t), wanted, "{first:?} {second:?}");
    }
    Ok(())
}

// tuples of other lengths, and tuples with a part that clashes
#[test]
fn tuples_clash(rt: HostRuntime) -> Result<(), Fail> {
    let alloc = rt.alloc();
    let mut three = pair(alloc, Term::Var(0), Term::Var(1))?;
    three.push(Term::Var(0))?;
    let two = value_of(&rt, alloc, Value::Pair(0, 1))?;
    let tagged = Term::Tup(pair(alloc, Term::Var(0), tag(&rt, alloc, b"a")?)?);
    assert!(rt; clash(&two, &Term::Tup(three)));
    assert!(rt; clash(&two, &tagged));
    assert!(rt; !clash(&tagged, &tagged));
    Ok(())
}

#[test]
fn members_are_found(rt: HostRuntime) -> Result<(), Fail> {
    let alloc = rt.alloc();
    let rows = [
        (Value::Atom(0), Set::Above(0), NEVER),
        (Value::Atom(1), Set::Above(0), BELOW),
        (Value::Of(Set::Above(0)), Set::SetsAbove, ALWAYS),
        (Value::Of(Set::Above(0)), Set::Atoms, NEVER),
    ];
    for (item, comps, wanted) in rows {
        let s = value_of(&rt, alloc, item)?;
        assert_eq!(rt;
            member(&rt, alloc, &s, members(alloc, comps)?)?,
            wanted,
            "{item:?} {comps:?}"
        );
    }
    Ok(())
}

// `$2`, behind `$0` and `$1`, is in `{$2 for $2 if $0<$2}` where it is above `$0`
#[test]
fn items_are_found_beside_others(rt: HostRuntime) -> Result<(), Fail> {
    let alloc = rt.alloc();
    let others = above(alloc, 0)?;
    assert!(rt; others.fits(2));
    let among = item_formula(alloc, &Term::Var(2), others.as_slice(), 2, 1)?;
    assert!(rt; holds(&among, &[8, 16, 12], alloc)?);
    assert!(rt; !holds(&among, &[8, 16, 8], alloc)?);
    Ok(())
}

#[test]
fn sets_are_included(rt: HostRuntime) -> Result<(), Fail> {
    let alloc = rt.alloc();
    let rows = [
        (Set::Above(0), Set::Atoms, ALWAYS),
        (Set::Atoms, Set::Above(0), NEVER),
        (Set::Above(0), Set::Above(1), AT_LEAST),
        (Set::Above(0), Set::SetsAbove, NEVER),
        (Set::SetsAbove, Set::SetsAbove, ALWAYS),
    ];
    for (first, second, wanted) in rows {
        let comps = members(alloc, first)?;
        assert_eq!(rt;
            included(&rt, alloc, comps, members(alloc, second)?)?,
            wanted,
            "{first:?} {second:?}"
        );
    }
    Ok(())
}
