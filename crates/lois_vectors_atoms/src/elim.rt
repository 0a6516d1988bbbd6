//! Worked formulas, and made ones, whose answers stay small.

ghost use Rattle.std.specs.Prelude.{IsTrue};
ghost use Rattle.lois_base.specs.FormulaData.{FormulaFits, FormulasFit, formulas_of};
ghost use Rattle.lois_base.specs.FormulaView.{view, views};
ghost use Rattle.lois_base.specs.FormulaOperators.{AdmitsFormula, AdmitsFormulas};

use crate::making::{Comparison, Dice, constraint_of, lit};
use lois_base::Op::{Eq, Lt, Ne};
use lois_base::{Constraint, Cube, Formula, Formulas, NoMemory, Structure};
use lois_constraint::{conflict, entails};
use lois_elim::{for_some_more, quantifier_free};
use lois_equality::EqualityAtoms;
use lois_order::OrderAtoms;
use std::alloc::Global;
use std::process::Abort;
use std::test::Fail;
use std::time::{Duration, Instant};

// Whether the formula has levels below `size` and operators of the structure alone.
#[cycle(fitting)]
fn is_fit<T: Structure>(f: &Formula, size: usize) -> bool
    ensures levels { IsTrue result → FormulaFits size (view f.now) }
    ensures operators { IsTrue result → AdmitsFormula T.ordered (view f.now) }
{
    match f {
        Formula::Lit(lit) => lit.fits(size) && T::admits(lit.op),
        Formula::All(parts) => are_fit::<T>(parts, size),
        Formula::Any(parts) => are_fit::<T>(parts, size),
        Formula::Not(body) => is_fit::<T>(body, size),
        Formula::Exists(body) => match size.checked_add(1) {
            Some(inner) => is_fit::<T>(body, inner),
            None => false,
        },
        Formula::Forall(body) => match size.checked_add(1) {
            Some(inner) => is_fit::<T>(body, inner),
            None => false,
        },
    }
}

#[cycle(fitting)]
fn are_fit<T: Structure>(parts: &Formulas, size: usize) -> bool
    ensures levels { IsTrue result → FormulasFit size (formulas_of (views parts.now)) }
    ensures operators { IsTrue result → AdmitsFormulas T.ordered (formulas_of (views parts.now)) }
{
    for part in parts.as_slice() {
        let fit = is_fit::<T>(part, size);
        if !fit {
            return false;
        }
    }
    true
}

fn pair(alloc: Global, first: Comparison, second: Comparison) -> Result<Formulas, NoMemory> {
    let mut parts = Formulas::new(alloc);
    parts.push(Formula::Lit(lit(first)))?;
    parts.push(Formula::Lit(lit(second)))?;
    Ok(parts)
}

// How two literals are bound at the highest level.
#[derive(Clone, Copy, Debug)]
enum Binding {
    // both, for some atom
    Some,
    // one of them, for each atom
    Each,
}

fn bound(
    alloc: Global,
    binding: Binding,
    first: Comparison,
    second: Comparison,
) -> Result<Formula, NoMemory> {
    let parts = pair(alloc, first, second)?;
    match binding {
        Binding::Some => Ok(Formula::Exists(Formula::All(parts).boxed(alloc)?)),
        Binding::Each => Ok(Formula::Forall(Formula::Any(parts).boxed(alloc)?)),
    }
}

// What the answer says where `$0` is below, at and above `$1`.
fn truths<T: Structure>(
    rt: &impl Abort,
    alloc: Global,
    f: &Formula,
) -> Result<[bool; 3], NoMemory> {
    assert!(rt; is_fit::<T>(f, 2));
    let answer = quantifier_free::<T>(alloc, f, 2)?;
    Ok([answer.at(&[0, 1]), answer.at(&[0, 0]), answer.at(&[1, 0])])
}

const ALWAYS: [bool; 3] = [true, true, true];

const NEVER: [bool; 3] = [false, false, false];

const BELOW: [bool; 3] = [true, false, false];

#[test]
fn worked_formulas(rt: HostRuntime) -> Result<(), Fail> {
    let rows = [
        (Binding::Each, (0, Lt, 2), (2, Lt, 1), BELOW),
        (Binding::Some, (0, Lt, 2), (2, Lt, 1), BELOW),
        (Binding::Some, (0, Lt, 2), (2, Ne, 1), ALWAYS),
        (Binding::Some, (2, Lt, 0), (0, Lt, 2), NEVER),
    ];
    for (binding, first, second, wanted) in rows {
        let f = bound(rt.alloc(), binding, first, second)?;
        assert_eq!(rt;
            truths::<OrderAtoms>(&rt, rt.alloc(), &f)?,
            wanted,
            "{binding:?} {first:?} {second:?}"
        );
    }
    Ok(())
}

#[test]
fn formulas_without_quantifiers(rt: HostRuntime) -> Result<(), Fail> {
    let alloc = rt.alloc();
    let all = Formula::All(Formulas::new(alloc));
    assert_eq!(rt; truths::<OrderAtoms>(&rt, alloc, &all)?, ALWAYS);
    let any = Formula::Any(Formulas::new(alloc));
    assert_eq!(rt; truths::<OrderAtoms>(&rt, alloc, &any)?, NEVER);
    let equal = Formula::Not(Formula::Lit(lit((0, Ne, 1))).boxed(alloc)?);
    assert_eq!(rt;
        truths::<OrderAtoms>(&rt, alloc, &equal)?,
        [false, true, false]
    );
    Ok(())
}

#[test]
fn atoms_without_an_order(rt: HostRuntime) -> Result<(), Fail> {
    let alloc = rt.alloc();
    let differ = bound(alloc, Binding::Some, (2, Eq, 0), (2, Ne, 1))?;
    assert_eq!(rt;
        truths::<EqualityAtoms>(&rt, alloc, &differ)?,
        [true, false, true]
    );
    Ok(())
}

// Both atoms at the highest levels lie between the others.
fn with_two_between(alloc: Global, between: Constraint) -> Result<Constraint, NoMemory> {
    if between.fits(4) {
        return for_some_more::<OrderAtoms>(alloc, between, 2, 2);
    }
    Ok(between)
}

#[test]
fn several_levels_are_bound(rt: HostRuntime) -> Result<(), Fail> {
    let alloc = rt.alloc();
    let between = constraint_of(alloc, &[&[(0, Lt, 2), (2, Lt, 3), (3, Lt, 1)]])?;
    let bound = with_two_between(alloc, between)?;
    assert!(rt; bound.fits(2));
    assert!(rt; bound.at(&[0, 1]));
    assert!(rt; !bound.at(&[0, 0]) && !bound.at(&[1, 0]));
    Ok(())
}

// One of four literals over five levels.
fn made_clause(alloc: Global, dice: &mut Dice) -> Result<Formula, NoMemory> {
    let mut parts = Formulas::new(alloc);
    for _ in 0..4 {
        parts.push(Formula::Lit(dice.lit(5)))?;
    }
    Ok(Formula::Any(parts))
}

fn made_clauses(alloc: Global, dice: &mut Dice) -> Result<Formula, NoMemory> {
    let mut clauses = Formulas::new(alloc);
    for _ in 0..3 {
        clauses.push(made_clause(alloc, dice)?)?;
    }
    Ok(Formula::All(clauses))
}

// A formula with quantifiers over all levels from 3 on.
fn made(alloc: Global, dice: &mut Dice) -> Result<Formula, NoMemory> {
    let mut f = made_clauses(alloc, dice)?;
    for _ in 3..5 {
        let body = f.boxed(alloc)?;
        f = match dice.roll(2) {
            0 => Formula::Exists(body),
            _ => Formula::Forall(body),
        };
    }
    Ok(f)
}

// Whether the cube at that place contradicts itself or lies within another.
fn is_needless(alloc: Global, cubes: &[Cube], place: usize, cube: &Cube) -> Result<bool, NoMemory> {
    if conflict(alloc, cube)? {
        return Ok(true);
    }
    for (other_place, other) in cubes.iter().enumerate() {
        if place != other_place && entails(alloc, cube, other)? {
            return Ok(true);
        }
    }
    Ok(false)
}

// No cube contradicts itself or lies within another.
fn is_small(alloc: Global, c: &Constraint) -> Result<bool, NoMemory> {
    for (place, cube) in c.as_slice().iter().enumerate() {
        if is_needless(alloc, c.as_slice(), place, cube)? {
            return Ok(false);
        }
    }
    Ok(true)
}

#[test]
fn answers_stay_small_and_come_soon(rt: HostRuntime) -> Result<(), Fail> {
    let alloc = rt.alloc();
    let start = Instant::now(&rt)?;
    let mut dice = Dice { state: 7 };
    for round in 0..50 {
        let f = made(alloc, &mut dice)?;
        assert!(rt; is_fit::<OrderAtoms>(&f, 3));
        let answer = quantifier_free::<OrderAtoms>(alloc, &f, 3)?;
        // there are 13 weak orders of three atoms
        assert!(rt; answer.len() <= 13 && is_small(alloc, &answer)?, "{round}");
    }
    assert!(rt; start.elapsed(&rt)? < Duration::from_secs(30));
    Ok(())
}
