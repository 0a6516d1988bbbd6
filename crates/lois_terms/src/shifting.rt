//! Terms whose levels from some level on are raised.

ghost use Rattle.std.specs.Prelude.{◌≡◌, ℕ, ◌+◌, ◌≤◌, ◌^◌, IfOk, Bool, map};
ghost use Rattle.lois_base.specs.Data.{terms_of, comps_of};
ghost use Rattle.lois_base.specs.Fits.{Fits};
ghost use Rattle.lois_base.specs.Shift.{shift_level, shift_lit, shift_cube, shift_constraint, shift, shift_comp, top, top_of_lits, top_of_cubes, top_of_comp, top_of_parts, top_of_items};
ghost use Rattle.lois_base.specs.Tree.{tree, comp_of};
ghost use Rattle.lois_base.specs.Validity.{AdmitsTerm, HasBoundedWidths};
ghost use Rattle.lois_terms.specs.Shifted.{CanShift, IsShifted};

use lois_base::{Comp, Comps, Constraint, Cube, Lit, NoMemory, Term, Terms};
use std::alloc::Global;

/// The term with every level from `from` on raised by `by`. Where `by` atoms are put in after the first `from`, it has the value that the term has without them.
pub fn shift_term(alloc: Global, t: &Term, from: usize, by: usize) -> Result<Term, NoMemory>
    requires { CanShift from by (tree t.now) }
    ensures raised { IfOk result (λ r. tree r ≡ shift from by (tree t.now)) }
    ensures value { IfOk result (λ r. IsShifted from by (tree t.now) (tree r)) }
    ensures levels { IfOk result (λ r. (n : ℕ) → from ≤ n → Fits n (tree t.now) → Fits (n + by) (tree t.now) → Fits (n + by) (tree r)) }
    ensures operators { IfOk result (λ r. (ordered : Bool) → AdmitsTerm ordered (tree t.now) → AdmitsTerm ordered (tree r)) }
    ensures widths { IfOk result (λ r. HasBoundedWidths (tree t.now) → HasBoundedWidths (tree r)) }
{
    shifted_term(alloc, t, from, by)
}

#[cycle(shift)]
#[tactic(auto, using(lois_base::proofs::Shifted::shift_parts_of, lois_base::proofs::Shifted::shift_items_of))]
pub(crate) fn shifted_term(
    alloc: Global,
    t: &Term,
    from: usize,
    by: usize,
) -> Result<Term, NoMemory>
    requires { top (tree t.now) + by ≤ 2 ^ 64 }
    ensures { IfOk result (λ r. tree r ≡ shift from by (tree t.now)) }
{
    match t {
        Term::Var(level) => Ok(Term::Var(shifted_level(*level, from, by))),
        Term::Tag(name) => Ok(Term::Tag(name.copy(alloc)?)),
        Term::Tup(parts) => Ok(Term::Tup(shifted_terms(alloc, parts, from, by)?)),
        Term::Coll(comps) => Ok(Term::Coll(shifted_comps(alloc, comps, from, by)?)),
    }
}

#[cycle(shift)]
fn shifted_terms(alloc: Global, terms: &Terms, from: usize, by: usize) -> Result<Terms, NoMemory>
    requires { top_of_parts (terms_of terms.now) + by ≤ 2 ^ 64 }
    ensures { IfOk result (λ r. r ≡ map (shift from by) terms.now) }
{
    let mut shifted = Terms::new(alloc);
    for part in terms.as_slice() {
        shifted.push(shifted_term(alloc, part, from, by)?)?;
    }
    Ok(shifted)
}

#[cycle(shift)]
fn shifted_comps(alloc: Global, comps: &Comps, from: usize, by: usize) -> Result<Comps, NoMemory>
    requires { top_of_items (comps_of comps.now) + by ≤ 2 ^ 64 }
    ensures { IfOk result (λ r. r ≡ map (shift_comp from by) comps.now) }
{
    let mut shifted = Comps::new(alloc);
    for comp in comps.as_slice() {
        shifted.push(shifted_comp(alloc, comp, from, by)?)?;
    }
    Ok(shifted)
}

#[cycle(shift)]
fn shifted_comp(alloc: Global, comp: &Comp, from: usize, by: usize) -> Result<Comp, NoMemory>
    requires { top_of_comp (comp_of comp.now) + by ≤ 2 ^ 64 }
    ensures { IfOk result (λ r. comp_of r ≡ shift_comp from by (comp_of comp.now)) }
{
    Ok(Comp {
        binders: comp.binders,
        guard: shifted_constraint(alloc, &comp.guard, from, by)?,
        item: shifted_term(alloc, &comp.item, from, by)?,
    })
}

fn shifted_level(level: usize, from: usize, by: usize) -> usize
    requires { level + 1 + by ≤ 2 ^ 64 }
    ensures { result ≡ shift_level from by level }
{
    if level < from { level } else { level + by }
}

fn shifted_lit(lit: Lit, from: usize, by: usize) -> Lit
    requires left { lit.left + 1 + by ≤ 2 ^ 64 }
    requires right { lit.right + 1 + by ≤ 2 ^ 64 }
    ensures { result ≡ shift_lit from by lit }
{
    Lit {
        op: lit.op,
        left: shifted_level(lit.left, from, by),
        right: shifted_level(lit.right, from, by),
    }
}

fn shifted_cube(alloc: Global, cube: &Cube, from: usize, by: usize) -> Result<Cube, NoMemory>
    requires { top_of_lits cube.now + by ≤ 2 ^ 64 }
    ensures { IfOk result (λ r. r ≡ shift_cube from by cube.now) }
{
    let mut shifted = Cube::new(alloc);
    for lit in cube.as_slice() {
        shifted.push(shifted_lit(*lit, from, by))?;
    }
    Ok(shifted)
}

pub(crate) fn shifted_constraint(
    alloc: Global,
    constraint: &Constraint,
    from: usize,
    by: usize,
) -> Result<Constraint, NoMemory>
    requires { top_of_cubes constraint.now + by ≤ 2 ^ 64 }
    ensures { IfOk result (λ r. r ≡ shift_constraint from by constraint.now) }
{
    let mut shifted = Constraint::new(alloc);
    for cube in constraint.as_slice() {
        shifted.push(shifted_cube(alloc, cube, from, by)?)?;
    }
    Ok(shifted)
}
