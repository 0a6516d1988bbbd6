//! Worked terms.

use crate::making::{each, guard_of, lit, pair, set_of};
use lois_base::{Comp, Comps, Constraint, Cube, Lit, Name, NoMemory, Op, Term, is_name};
use lois_terms::{instantiate, is_within_depth, occurs, shift_term, with_guard};
use std::alloc::Global;
use std::process::Abort;
use std::test::Fail;

fn below(left: usize, right: usize) -> Lit {
    lit(Op::Lt, left, right)
}

fn equal(left: usize, right: usize) -> Lit {
    lit(Op::Eq, left, right)
}

// the comprehension `$1 for $1 if $0<$1` in a term of one level
fn atoms_above(alloc: Global) -> Result<Comp, NoMemory> {
    each(alloc, 1, &[below(0, 1)], Term::Var(1))
}

// the set `{$1 for $1 if $0<$1}`
fn set_of_atoms_above(alloc: Global) -> Result<Term, NoMemory> {
    Ok(Term::Coll(set_of(alloc, 1, &[below(0, 1)], Term::Var(1))?))
}

// the set `{{$1 for $1 if $0<$1} for $0}`
fn sets_of_atoms_above(alloc: Global) -> Result<Term, NoMemory> {
    let item = set_of_atoms_above(alloc)?;
    Ok(Term::Coll(set_of(alloc, 1, &[], item)?))
}

// that a set has one comprehension, of an atom, with these cubes and this level
fn is_set_of_atoms(rt: &impl Abort, set: &Term, cubes: &[&[Lit]], level: usize) {
    let Term::Coll(comps) = set else {
        panic!(rt; "no set");
    };
    assert_eq!(rt; comps.len(), 1);
    let comp = comps.get(0).expect(rt, "no comprehension");
    assert_eq!(rt; comp.binders, 1);
    assert_eq!(rt; comp.guard.len(), cubes.len());
    for (cube, wanted) in comp.guard.as_slice().iter().zip(cubes) {
        assert_eq!(rt; cube.as_slice(), *wanted);
    }
    assert!(rt; matches!(&comp.item, Term::Var(own) if *own == level));
}

fn shifted(
    rt: &impl Abort,
    alloc: Global,
    t: &Term,
    size: usize,
    from: usize,
    by: usize,
) -> Result<Term, NoMemory> {
    assert!(rt; from <= size);
    assert!(rt; size < 9);
    assert!(rt; by < 9);
    assert!(rt; t.fits(size));
    assert!(rt; t.fits(size + by));
    let raised = shift_term(alloc, t, from, by)?;
    assert!(rt; raised.fits(size + by));
    Ok(raised)
}

fn guarded(
    rt: &impl Abort,
    alloc: Global,
    comps: Comps,
    guard: &Constraint,
    size: usize,
) -> Result<Term, NoMemory> {
    let set = Term::Coll(comps);
    assert!(rt; set.fits(size) && guard.fits(size));
    with_guard(alloc, &set, guard)
}

#[test]
fn levels_rise(rt: HostRuntime) -> Result<(), Fail> {
    let alloc = rt.alloc();
    let above = set_of_atoms_above(alloc)?;
    let own = shifted(&rt, alloc, &above, 1, 1, 2)?;
    is_set_of_atoms(&rt, &own, &[&[below(0, 3)]], 3);
    let each = shifted(&rt, alloc, &above, 1, 0, 2)?;
    is_set_of_atoms(&rt, &each, &[&[below(2, 3)]], 3);
    Ok(())
}

#[test]
fn levels_rise_inside_of_sets(rt: HostRuntime) -> Result<(), Fail> {
    let alloc = rt.alloc();
    let sets = shifted(&rt, alloc, &sets_of_atoms_above(alloc)?, 0, 0, 1)?;
    let Term::Coll(comps) = &sets else {
        return Err("no set")?;
    };
    let comp = comps.get(0).ok_or("no comprehension")?;
    is_set_of_atoms(&rt, &comp.item, &[&[below(1, 2)]], 2);
    Ok(())
}

#[test]
fn binders_take_their_place(rt: HostRuntime) -> Result<(), Fail> {
    let alloc = rt.alloc();
    let above = atoms_above(alloc)?;
    assert!(rt; above.fits(1) && above.fits(4));
    let placed = instantiate(alloc, &above, 1, 4)?;
    assert_eq!(rt; placed.guard.len(), 1);
    let cube = placed.guard.get(0).ok_or("no cube")?;
    assert_eq!(rt; cube.as_slice(), [below(0, 4)].as_slice());
    assert!(rt; matches!(&placed.item, Term::Var(4)));
    Ok(())
}

// where $1 is no greater than $0
fn no_greater(alloc: Global) -> Result<Constraint, NoMemory> {
    let mut guard = guard_of(alloc, &[below(1, 0)])?;
    let mut other = Cube::new(alloc);
    other.push(equal(0, 1))?;
    guard.push(other)?;
    Ok(guard)
}

// the atoms above $0
#[test]
fn guards_are_conjoined(rt: HostRuntime) -> Result<(), Fail> {
    let alloc = rt.alloc();
    let comps = set_of(alloc, 1, &[below(0, 2)], Term::Var(2))?;
    let set = guarded(&rt, alloc, comps, &no_greater(alloc)?, 2)?;
    is_set_of_atoms(
        &rt,
        &set,
        &[&[below(1, 0), below(0, 2)], &[equal(0, 1), below(0, 2)]],
        2,
    );
    Ok(())
}

// `('start, $2)`
fn tagged(rt: &impl Abort, alloc: Global) -> Result<Term, NoMemory> {
    let name = b"start";
    assert!(rt; is_name(name));
    let start = Term::Tag(Name::from_bytes(alloc, name)?);
    Ok(Term::Tup(pair(alloc, start, Term::Var(2))?))
}

#[test]
fn levels_occur(rt: HostRuntime) -> Result<(), Fail> {
    let alloc = rt.alloc();
    let pair = tagged(&rt, alloc)?;
    let sets = sets_of_atoms_above(alloc)?;
    // the guard alone speaks of $0
    let rows = [
        (0, true, false),
        (1, true, false),
        (2, false, true),
        (3, false, false),
    ];
    for (level, in_sets, in_pair) in rows {
        assert_eq!(rt; occurs(level, &sets), in_sets, "{level}");
        assert_eq!(rt; occurs(level, &pair), in_pair, "{level}");
    }
    Ok(())
}

#[test]
fn terms_are_written_so_deep(rt: HostRuntime) -> Result<(), Fail> {
    let alloc = rt.alloc();
    assert!(rt; is_within_depth(&Term::Var(7), 0));
    let empty = Term::Coll(Comps::new(alloc));
    assert!(rt; !is_within_depth(&empty, 0) && is_within_depth(&empty, 1));
    let pair = Term::Tup(pair(alloc, empty, Term::Var(0))?);
    assert!(rt; !is_within_depth(&pair, 1) && is_within_depth(&pair, 2));
    Ok(())
}
