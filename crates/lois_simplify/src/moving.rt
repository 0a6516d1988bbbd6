//! Terms with one level left out, and another in its place.

ghost use Rattle.std.specs.Prelude.{◌≡◌, ◌+◌, ◌-◌, ◌<◌, ◌≤◌, IfOk, map, Bool};
ghost use Rattle.lois_base.specs.Fits.{ConstraintFits, CompFits};
ghost use Rattle.lois_base.specs.Rename.{rename, rename_comp, rename_lit, rename_cube, rename_constraint};
ghost use Rattle.lois_base.specs.Tree.{tree, comp_of};
ghost use Rattle.lois_base.specs.Validity.{AdmitsConstraint};
ghost use Rattle.lois_base.specs.Bound.{HoldsForSome};
ghost use Rattle.lois_simplify.specs.Moved.{moved};

use lois_base::{Comp, Comps, Constraint, Cube, Lit, NoMemory, Structure, Term, Terms};
use lois_elim::for_some;
use std::alloc::Global;

fn moved_level(level: usize, gone: usize, to: usize) -> usize
    ensures { result ≡ moved gone to level }
{
    if level == gone {
        to
    } else if gone < level {
        level - 1
    } else {
        level
    }
}

fn moved_lit(lit: Lit, gone: usize, to: usize) -> Lit
    ensures { result ≡ rename_lit (moved gone to) lit }
{
    Lit {
        op: lit.op,
        left: moved_level(lit.left, gone, to),
        right: moved_level(lit.right, gone, to),
    }
}

fn moved_cube(alloc: Global, cube: &Cube, gone: usize, to: usize) -> Result<Cube, NoMemory>
    ensures { IfOk result (λ r. r ≡ rename_cube (moved gone to) cube.now) }
{
    let mut moved = Cube::new(alloc);
    for lit in cube.as_slice() {
        moved.push(moved_lit(*lit, gone, to))?;
    }
    Ok(moved)
}

// The constraint with the level `gone` at `to`, and the levels above it one down.
fn moved_constraint(
    alloc: Global,
    constraint: &Constraint,
    gone: usize,
    to: usize,
) -> Result<Constraint, NoMemory>
    ensures { IfOk result (λ r. r ≡ rename_constraint (moved gone to) constraint.now) }
{
    let mut moved = Constraint::new(alloc);
    for cube in constraint.as_slice() {
        moved.push(moved_cube(alloc, cube, gone, to)?)?;
    }
    Ok(moved)
}

// The term with the level `gone` at `to`, and the levels above it one down.
#[cycle(moving)]
#[tactic(auto, using(lois_base::proofs::Lists::parts_renamed, lois_base::proofs::Lists::items_renamed))]
fn moved_term(alloc: Global, t: &Term, gone: usize, to: usize) -> Result<Term, NoMemory>
    ensures { IfOk result (λ r. tree r ≡ rename (moved gone to) (tree t.now)) }
{
    match t {
        Term::Var(level) => Ok(Term::Var(moved_level(*level, gone, to))),
        Term::Tag(name) => Ok(Term::Tag(name.copy(alloc)?)),
        Term::Tup(parts) => Ok(Term::Tup(moved_terms(alloc, parts, gone, to)?)),
        Term::Coll(comps) => Ok(Term::Coll(moved_comps(alloc, comps, gone, to)?)),
    }
}

#[cycle(moving)]
fn moved_terms(alloc: Global, terms: &Terms, gone: usize, to: usize) -> Result<Terms, NoMemory>
    ensures { IfOk result (λ r. r ≡ map (rename (moved gone to)) terms.now) }
{
    let mut moved = Terms::new(alloc);
    for part in terms.as_slice() {
        moved.push(moved_term(alloc, part, gone, to)?)?;
    }
    Ok(moved)
}

#[cycle(moving)]
fn moved_comps(alloc: Global, comps: &Comps, gone: usize, to: usize) -> Result<Comps, NoMemory>
    ensures { IfOk result (λ r. r ≡ map (rename_comp (moved gone to)) comps.now) }
{
    let mut moved = Comps::new(alloc);
    for comp in comps.as_slice() {
        moved.push(moved_comp(alloc, comp, gone, to)?)?;
    }
    Ok(moved)
}

#[cycle(moving)]
fn moved_comp(alloc: Global, comp: &Comp, gone: usize, to: usize) -> Result<Comp, NoMemory>
    ensures { IfOk result (λ r. comp_of r ≡ rename_comp (moved gone to) (comp_of comp.now)) }
{
    Ok(Comp {
        binders: comp.binders,
        guard: moved_constraint(alloc, &comp.guard, gone, to)?,
        item: moved_term(alloc, &comp.item, gone, to)?,
    })
}

/// The comprehension without one of its binders: the guard holds for some atom at it, and in the item `other` stands in its
/// place. `size` is the number of levels around the comprehension.
pub(crate) fn without_binder<T: Structure>(
    alloc: Global,
    comp: &Comp,
    size: usize,
    binder: usize,
    other: usize,
) -> Result<Comp, NoMemory>
    requires levels { CompFits size (comp_of comp.now) }
    requires operators { AdmitsConstraint T.ordered comp.now.guard }
    requires from { size ≤ binder }
    requires below { binder < size + comp.now.binders }
    ensures binders { IfOk result (λ r. r.binders + 1 ≡ comp.now.binders) }
    ensures guard { IfOk result (λ r. HoldsForSome (size + r.binders) (rename_constraint (moved binder (size + r.binders)) comp.now.guard) r.guard) }
    ensures guard_levels { IfOk result (λ r. ConstraintFits (size + r.binders) r.guard) }
    ensures guard_operators { IfOk result (λ r. (o : Bool) → AdmitsConstraint o comp.now.guard → AdmitsConstraint o r.guard) }
    ensures item { IfOk result (λ r. tree r.item ≡ rename (moved binder other) (tree comp.now.item)) }
{
    let binders = comp.binders - 1;
    let top = size + binders;
    let turned = moved_constraint(alloc, &comp.guard, binder, top)?;
    Ok(Comp {
        binders,
        guard: for_some::<T>(alloc, &turned, top)?,
        item: moved_term(alloc, &comp.item, binder, other)?,
    })
}
