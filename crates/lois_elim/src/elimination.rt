//! Elimination of the quantifiers of a formula, from the inside out.

ghost use Rattle.std.specs.Prelude.{◌≡◌, ℕ, ◌+◌, Bool, List, [], ◌∷◌, length, IfOk, IsTrue, suc};
ghost use Rattle.lois_base.specs.Atom.{Atom};
ghost use Rattle.lois_base.specs.Fits.{LitFits, CubeFits, ConstraintFits};
ghost use Rattle.lois_base.specs.FormulaData.{FormulaFits, FormulasFit, all, any, exists, forall, formulas_of};
ghost use Rattle.lois_base.specs.FormulaView.{view, views};
ghost use Rattle.lois_base.specs.Truth.{lit_holds, cube_holds, holds};
ghost use Rattle.lois_base.specs.Validity.{AdmitsLit, AdmitsCube, AdmitsConstraint};
ghost use Rattle.lois_base.specs.FormulaOperators.{AdmitsFormula, AdmitsFormulas};
ghost use Rattle.lois_elim.specs.Bound.{AgreesWith};
ghost use Rattle.lois_elim.specs.Names.{AreNames, AgreesUnder, AgreesUnderWithBoth};
ghost use Rattle.lois_elim.specs.Turns.{in_turn, AgreesInTurn};

use crate::forced::forced;
use crate::levels::{append, for_each, for_some};
use crate::names::{level_named, literal_named, with_name};
use crate::turns::{is_in_turn, literals_of};
use lois_base::{Constraint, Cube, Formula, Formulas, Lit, NoMemory, Structure};
use lois_constraint::{and_not, meet, negate, prune};
use std::alloc::Global;

// The cube may be met everywhere or nowhere, so that it is pruned.
fn of_cube(alloc: Global, cube: Cube) -> Result<Constraint, NoMemory>
    ensures truth { IfOk result (λ r. (c : List Atom) → holds c r ≡ cube_holds c cube) }
    ensures levels { IfOk result (λ r. (n : ℕ) → CubeFits n cube → ConstraintFits n r) }
    ensures operators { IfOk result (λ r. (o : Bool) → AdmitsCube o cube → AdmitsConstraint o r) }
{
    let mut only = Constraint::new(alloc);
    only.push(cube)?;
    prune(alloc, &only)
}

fn of_literal(alloc: Global, lit: Lit) -> Result<Constraint, NoMemory>
    ensures truth { IfOk result (λ r. (c : List Atom) → holds c r ≡ lit_holds c lit) }
    ensures levels { IfOk result (λ r. (n : ℕ) → LitFits n lit → ConstraintFits n r) }
    ensures operators { IfOk result (λ r. (o : Bool) → AdmitsLit o lit → AdmitsConstraint o r) }
{
    let mut cube = Cube::new(alloc);
    cube.push(lit)?;
    of_cube(alloc, cube)
}

// The number of levels below a quantifier. No memory holds a choice of more atoms than the greatest usize.
pub fn with_one_more(size: usize) -> Result<usize, NoMemory>
    ensures { IfOk result (λ n. n ≡ suc size) }
{
    size.checked_add(1).ok_or(NoMemory)
}

// The highest level of a formula's body. No memory holds a choice of more atoms than the greatest usize.
fn level_bound(free: usize, bound: &[usize]) -> Result<usize, NoMemory>
    ensures { IfOk result (λ n. n ≡ free + length bound.now) }
{
    free.checked_add(bound.len()).ok_or(NoMemory)
}

/// A constraint that holds at each choice of `size` atoms exactly where the formula does. It uses levels
/// below `size` and operators of the formula alone, so `<` only where the formula has it. Errors: `NoMemory`, also
/// where a quantifier would take the greatest level that a usize names.
pub fn quantifier_free<T: Structure>(
    alloc: Global,
    f: &Formula,
    size: usize,
) -> Result<Constraint, NoMemory>
    requires levels { FormulaFits size (view f.now) }
    requires operators { AdmitsFormula T.ordered (view f.now) }
    ensures truth { IfOk result (AgreesWith size (view f.now)) }
    ensures levels { IfOk result (ConstraintFits size) }
    ensures operators { IfOk result (λ r. (o : Bool) → AdmitsFormula o (view f.now) → AdmitsConstraint o r) }
{
    under_names::<T>(alloc, f, size, &[], size)
}

// The formula's levels below `free` stand for themselves, and the later ones for those that `bound` lists, all below `size`.
#[cycle(elimination)]
fn under_names<T: Structure>(
    alloc: Global,
    f: &Formula,
    free: usize,
    bound: &[usize],
    size: usize,
) -> Result<Constraint, NoMemory>
    requires names { AreNames size free bound.now }
    requires levels { FormulaFits (free + length bound.now) (view f.now) }
    requires operators { AdmitsFormula T.ordered (view f.now) }
    ensures truth { IfOk result (AgreesUnder size free bound.now (view f.now)) }
    ensures levels { IfOk result (ConstraintFits size) }
    ensures operators { IfOk result (λ r. (o : Bool) → AdmitsFormula o (view f.now) → AdmitsConstraint o r) }
{
    match f {
        Formula::Lit(lit) => of_literal(alloc, literal_named(*lit, free, bound)),
        Formula::All(parts) => all_of::<T>(alloc, parts, free, bound, size),
        Formula::Any(parts) => any_of::<T>(alloc, parts, free, bound, size),
        Formula::Not(body) => negate(alloc, &under_names::<T>(alloc, body, free, bound, size)?),
        Formula::Exists(body) => some_of::<T>(alloc, body, free, bound, size),
        Formula::Forall(body) => each_of::<T>(alloc, body, free, bound, size),
    }
}

// Where the body says which atom it is, the quantifier's level is one more name of that atom's level.
#[cycle(elimination)]
fn some_of<T: Structure>(
    alloc: Global,
    body: &Formula,
    free: usize,
    bound: &[usize],
    size: usize,
) -> Result<Constraint, NoMemory>
    requires names { AreNames size free bound.now }
    requires levels { FormulaFits (suc (free + length bound.now)) (view body.now) }
    requires operators { AdmitsFormula T.ordered (view body.now) }
    ensures truth { IfOk result (AgreesUnder size free bound.now (exists (view body.now))) }
    ensures levels { IfOk result (ConstraintFits size) }
    ensures operators { IfOk result (λ r. (o : Bool) → AdmitsFormula o (view body.now) → AdmitsConstraint o r) }
{
    match forced(body, level_bound(free, bound)?) {
        Some(lower) => {
            let names = with_name(alloc, bound, level_named(lower, free, bound))?;
            under_names::<T>(alloc, body, free, names.as_slice(), size)
        }
        None => {
            let names = with_name(alloc, bound, size)?;
            let inner = under_names::<T>(
                alloc,
                body,
                free,
                names.as_slice(),
                with_one_more(size)?,
            )?;
            for_some::<T>(alloc, &inner, size)
        }
    }
}

#[cycle(elimination)]
fn each_of<T: Structure>(
    alloc: Global,
    body: &Formula,
    free: usize,
    bound: &[usize],
    size: usize,
) -> Result<Constraint, NoMemory>
    requires names { AreNames size free bound.now }
    requires levels { FormulaFits (suc (free + length bound.now)) (view body.now) }
    requires operators { AdmitsFormula T.ordered (view body.now) }
    ensures truth { IfOk result (AgreesUnder size free bound.now (forall (view body.now))) }
    ensures levels { IfOk result (ConstraintFits size) }
    ensures operators { IfOk result (λ r. (o : Bool) → AdmitsFormula o (view body.now) → AdmitsConstraint o r) }
{
    let names = with_name(alloc, bound, size)?;
    let inner = under_names::<T>(alloc, body, free, names.as_slice(), with_one_more(size)?)?;
    for_each::<T>(alloc, &inner, size)
}

// The constraint where a part holds too. What a negation denies is taken off, and not negated first.
#[cycle(elimination)]
fn meet_part<T: Structure>(
    alloc: Global,
    met: &Constraint,
    part: &Formula,
    free: usize,
    bound: &[usize],
    size: usize,
) -> Result<Constraint, NoMemory>
    requires names { AreNames size free bound.now }
    requires levels { FormulaFits (free + length bound.now) (view part.now) }
    requires operators { AdmitsFormula T.ordered (view part.now) }
    ensures truth { IfOk result (AgreesUnderWithBoth size free bound.now met.now (view part.now)) }
    ensures levels { IfOk result (λ r. ConstraintFits size met.now → ConstraintFits size r) }
    ensures operators { IfOk result (λ r. (o : Bool) → AdmitsConstraint o met.now → AdmitsFormula o (view part.now) → AdmitsConstraint o r) }
{
    match part {
        Formula::Not(body) => {
            and_not(
                alloc,
                met,
                &under_names::<T>(alloc, body, free, bound, size)?,
            )
        }
        _ => meet(
            alloc,
            met,
            &under_names::<T>(alloc, part, free, bound, size)?,
        ),
    }
}

// The constraint where those parts hold too whose turn it is. Once nothing is left, no part is eliminated any more.
#[cycle(elimination)]
fn meet_parts<T: Structure>(
    alloc: Global,
    start: Constraint,
    parts: &Formulas,
    negations: bool,
    free: usize,
    bound: &[usize],
    size: usize,
) -> Result<Constraint, NoMemory>
    requires names { AreNames size free bound.now }
    requires levels { FormulasFit (free + length bound.now) (formulas_of (views parts.now)) }
    requires operators { AdmitsFormulas T.ordered (formulas_of (views parts.now)) }
    ensures truth { IfOk result (AgreesInTurn size free bound.now (in_turn negations) start (formulas_of (views parts.now))) }
    ensures levels { IfOk result (λ r. ConstraintFits size start → ConstraintFits size r) }
    ensures operators { IfOk result (λ r. (o : Bool) → AdmitsConstraint o start → AdmitsFormulas o (formulas_of (views parts.now)) → AdmitsConstraint o r) }
{
    let mut met = start;
    for part in parts.as_slice() {
        if met.len() == 0 {
            return Ok(met);
        }
        if is_in_turn(part, negations) {
            met = meet_part::<T>(alloc, &met, part, free, bound, size)?;
        }
    }
    Ok(met)
}

// The literals first, all at once: they take no elimination, and what they leave is what the others are met with.
#[cycle(elimination)]
fn all_of<T: Structure>(
    alloc: Global,
    parts: &Formulas,
    free: usize,
    bound: &[usize],
    size: usize,
) -> Result<Constraint, NoMemory>
    requires names { AreNames size free bound.now }
    requires levels { FormulasFit (free + length bound.now) (formulas_of (views parts.now)) }
    requires operators { AdmitsFormulas T.ordered (formulas_of (views parts.now)) }
    ensures truth { IfOk result (AgreesUnder size free bound.now (all (formulas_of (views parts.now)))) }
    ensures levels { IfOk result (ConstraintFits size) }
    ensures operators { IfOk result (λ r. (o : Bool) → AdmitsFormulas o (formulas_of (views parts.now)) → AdmitsConstraint o r) }
{
    let literals = of_cube(alloc, literals_of(alloc, parts, free, bound)?)?;
    let met = meet_parts::<T>(alloc, literals, parts, false, free, bound, size)?;
    meet_parts::<T>(alloc, met, parts, true, free, bound, size)
}

// Whether the constraint is written as `true`: one cube without literals.
fn is_everywhere(c: &Constraint) -> bool
    ensures { IsTrue result → c.now ≡ [] ∷ [] }
{
    match c.as_slice() {
        [cube] => cube.len() == 0,
        _ => false,
    }
}

// Each part's cubes are pruned already, so that those of one part alone are left as they are. Where a part always holds, no other one
// is eliminated.
#[cycle(elimination)]
fn any_of<T: Structure>(
    alloc: Global,
    parts: &Formulas,
    free: usize,
    bound: &[usize],
    size: usize,
) -> Result<Constraint, NoMemory>
    requires names { AreNames size free bound.now }
    requires levels { FormulasFit (free + length bound.now) (formulas_of (views parts.now)) }
    requires operators { AdmitsFormulas T.ordered (formulas_of (views parts.now)) }
    ensures truth { IfOk result (AgreesUnder size free bound.now (any (formulas_of (views parts.now)))) }
    ensures levels { IfOk result (ConstraintFits size) }
    ensures operators { IfOk result (λ r. (o : Bool) → AdmitsFormulas o (formulas_of (views parts.now)) → AdmitsConstraint o r) }
{
    let mut found = Constraint::new(alloc);
    let mut filled: usize = 0;
    for part in parts.as_slice() {
        let cubes = under_names::<T>(alloc, part, free, bound, size)?;
        if is_everywhere(&cubes) {
            return Ok(cubes);
        }
        filled = filled.saturating_add(cubes.len().min(1));
        append(&mut found, cubes)?;
    }
    if filled < 2 {
        return Ok(found);
    }
    prune(alloc, &found)
}
