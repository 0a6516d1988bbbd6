//! Names for the levels of a term, and guards under names.

ghost use Rattle.std.specs.Prelude.{◌≡◌, ℕ, ◌+◌, ◌<◌, ◌^◌, ◌++◌, length, IfOk, IsTrue};
ghost use Rattle.lois_base.specs.Fits.{LitFits, CubeFits, ConstraintFits};
ghost use Rattle.lois_base.specs.FormulaView.{view};
ghost use Rattle.lois_base.specs.Truth.{cube_holds, holds};
ghost use Rattle.lois_base.specs.Validity.{AdmitsCube, AdmitsConstraint};
ghost use Rattle.lois_relate.specs.Built.{Defines};
ghost use Rattle.lois_relate.specs.Named.{atoms_named, AreBelow, level_range, named_lit};

use crate::building::{conjunction, disjunction, false_formula, true_formula};
use lois_base::{Constraint, Cube, Formula, Lit, NoMemory};
use std::alloc::Global;

// The number of levels inside of a comprehension. No memory holds a choice of more atoms than the greatest usize.
pub fn inner_size(size: usize, binders: usize) -> Result<usize, NoMemory>
    ensures { IfOk result (λ n. n ≡ size + binders) }
{
    size.checked_add(binders).ok_or(NoMemory)
}

// The names, and then those of `binders` further levels of the term, which are the levels from `size` on.
pub fn extend_names(
    alloc: Global,
    names: &[usize],
    size: usize,
    binders: usize,
) -> Result<Vec<usize>, NoMemory>
    ensures { IfOk result (λ r. r.items ≡ names.now ++ level_range size binders) }
{
    let inner = inner_size(size, binders)?;
    let mut longer = Vec::from_slice(alloc, names)?;
    for level in size..inner {
        longer.push(level)?;
    }
    Ok(longer)
}

fn named_literal(lit: Lit, names: &[usize]) -> Lit
    requires { LitFits (length names.now) lit }
    ensures { result ≡ named_lit names.now lit }
{
    Lit {
        op: lit.op,
        left: names[lit.left],
        right: names[lit.right],
    }
}

fn cube_formula(alloc: Global, cube: &Cube, names: &[usize]) -> Result<Formula, NoMemory>
    requires { CubeFits (length names.now) cube.now }
    ensures { IfOk result (λ f. (n : ℕ) → AreBelow n names.now → Defines n (λ c. IsTrue (cube_holds (atoms_named names.now c) cube.now)) (λ o. AdmitsCube o cube.now) (view f)) }
{
    let mut met = true_formula(alloc);
    for lit in cube.as_slice() {
        let literal = Formula::Lit(named_literal(*lit, names));
        met = conjunction(alloc, met, literal)?;
    }
    Ok(met)
}

// The guard of a comprehension whose levels have these names.
pub fn guard_formula(
    alloc: Global,
    guard: &Constraint,
    names: &[usize],
) -> Result<Formula, NoMemory>
    requires { ConstraintFits (length names.now) guard.now }
    ensures { IfOk result (λ f. (n : ℕ) → AreBelow n names.now → Defines n (λ c. IsTrue (holds (atoms_named names.now c) guard.now)) (λ o. AdmitsConstraint o guard.now) (view f)) }
{
    let mut found = false_formula(alloc);
    for cube in guard.as_slice() {
        let one = cube_formula(alloc, cube, names)?;
        found = disjunction(alloc, found, one)?;
    }
    Ok(found)
}
