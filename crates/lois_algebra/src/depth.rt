//! Where a value is deeper than a limit.

ghost use Rattle.std.specs.Prelude.{ℕ, ◌+◌, Bool, IfOk, IsTrue};
ghost use Rattle.lois_base.specs.Data.{terms_of, comps_of};
ghost use Rattle.lois_base.specs.Fits.{CubeFits, ConstraintFits, Fits, PartsFit, CompFits, ItemsFit};
ghost use Rattle.lois_base.specs.FormulaData.{FormulaFits};
ghost use Rattle.lois_base.specs.FormulaView.{view};
ghost use Rattle.lois_base.specs.Tree.{tree, comp_of};
ghost use Rattle.lois_base.specs.Truth.{cube_holds, holds};
ghost use Rattle.lois_base.specs.Validity.{AdmitsCube, AdmitsConstraint, AdmitsTerm, AdmitsParts, AdmitsComp, AdmitsItems};
ghost use Rattle.lois_base.specs.FormulaOperators.{AdmitsFormula};
ghost use Rattle.lois_base.specs.Values.{DeeperAt, SomePartDeeperAt, SomeMemberDeeperAt, OneDeeperAt};
ghost use Rattle.lois_relate.specs.Built.{Defines};
ghost use Rattle.lois_algebra.specs.Sets.{HoldsWhereDeeper};

use lois_base::{Comp, Comps, Constraint, Cube, Formula, NoMemory, Term, Terms};
use lois_relate::building::{
    conjunction, disjunction, false_formula, for_some, is_false_formula, is_true_formula,
    true_formula,
};
use std::alloc::Global;

/// A formula that holds at each choice of `size` atoms exactly where the value of the term is deeper than `limit`. It has `<` only where the term has it. Errors: `NoMemory`, also where a level would pass the greatest usize.
pub fn depth_formula(
    alloc: Global,
    t: &Term,
    limit: usize,
    size: usize,
) -> Result<Formula, NoMemory>
    requires { Fits size (tree t.now) }
    ensures truth { IfOk result (λ f. HoldsWhereDeeper size (tree t.now) limit (view f)) }
    ensures levels { IfOk result (λ f. FormulaFits size (view f)) }
    ensures operators { IfOk result (λ f. (ordered : Bool) → AdmitsTerm ordered (tree t.now) → AdmitsFormula ordered (view f)) }
{
    deeper(alloc, t, limit, size)
}

#[cycle(deepening)]
fn deeper(alloc: Global, t: &Term, limit: usize, size: usize) -> Result<Formula, NoMemory>
    requires { Fits size (tree t.now) }
    ensures { IfOk result (λ f. Defines size (λ c. DeeperAt (tree t.now) c limit) (λ o. AdmitsTerm o (tree t.now)) (view f)) }
{
    match t {
        Term::Var(_) => Ok(false_formula(alloc)),
        Term::Tag(_) => Ok(false_formula(alloc)),
        Term::Tup(parts) => {
            if limit == 0 {
                return Ok(true_formula(alloc));
            }
            some_part_deeper(alloc, parts, limit - 1, size)
        }
        Term::Coll(comps) => {
            if limit == 0 {
                return Ok(true_formula(alloc));
            }
            some_member_deeper(alloc, comps, limit - 1, size)
        }
    }
}

#[cycle(deepening)]
fn some_part_deeper(
    alloc: Global,
    terms: &Terms,
    limit: usize,
    size: usize,
) -> Result<Formula, NoMemory>
    requires { PartsFit size (terms_of terms.now) }
    ensures { IfOk result (λ f. Defines size (λ c. SomePartDeeperAt (terms_of terms.now) c limit) (λ o. AdmitsParts o (terms_of terms.now)) (view f)) }
{
    let mut found = false_formula(alloc);
    for part in terms.as_slice() {
        let one = deeper(alloc, part, limit, size)?;
        found = disjunction(alloc, found, one)?;
        if is_true_formula(&found) {
            return Ok(found);
        }
    }
    Ok(found)
}

#[cycle(deepening)]
fn some_member_deeper(
    alloc: Global,
    comps: &Comps,
    limit: usize,
    size: usize,
) -> Result<Formula, NoMemory>
    requires { ItemsFit size (comps_of comps.now) }
    ensures { IfOk result (λ f. Defines size (λ c. SomeMemberDeeperAt (comps_of comps.now) c limit) (λ o. AdmitsItems o (comps_of comps.now)) (view f)) }
{
    let mut found = false_formula(alloc);
    for comp in comps.as_slice() {
        let one = one_deeper(alloc, comp, limit, size)?;
        found = disjunction(alloc, found, one)?;
        if is_true_formula(&found) {
            return Ok(found);
        }
    }
    Ok(found)
}

// Where an item of the comprehension is deeper, at some choice of its binders that its guard admits.
#[cycle(deepening)]
fn one_deeper(alloc: Global, comp: &Comp, limit: usize, size: usize) -> Result<Formula, NoMemory>
    requires { CompFits size (comp_of comp.now) }
    ensures { IfOk result (λ f. Defines size (λ c. OneDeeperAt (comp_of comp.now) c limit) (λ o. AdmitsComp o (comp_of comp.now)) (view f)) }
{
    let deep = deeper(alloc, &comp.item, limit, size + comp.binders)?;
    if is_false_formula(&deep) {
        return Ok(deep);
    }
    let guard = constraint_formula(alloc, &comp.guard)?;
    for_some(alloc, conjunction(alloc, deep, guard)?, comp.binders)
}

fn constraint_formula(alloc: Global, constraint: &Constraint) -> Result<Formula, NoMemory>
    ensures { IfOk result (λ f. (n : ℕ) → ConstraintFits n constraint.now → Defines n (λ c. IsTrue (holds c constraint.now)) (λ o. AdmitsConstraint o constraint.now) (view f)) }
{
    let mut found = false_formula(alloc);
    for cube in constraint.as_slice() {
        let one = cube_formula(alloc, cube)?;
        found = disjunction(alloc, found, one)?;
    }
    Ok(found)
}

fn cube_formula(alloc: Global, cube: &Cube) -> Result<Formula, NoMemory>
    ensures { IfOk result (λ f. (n : ℕ) → CubeFits n cube.now → Defines n (λ c. IsTrue (cube_holds c cube.now)) (λ o. AdmitsCube o cube.now) (view f)) }
{
    let mut met = true_formula(alloc);
    for lit in cube.as_slice() {
        met = conjunction(alloc, met, Formula::Lit(*lit))?;
    }
    Ok(met)
}
