//! Terms without one of their levels, where the levels above it go one down.

ghost use Rattle.std.specs.Prelude.{◌≡◌, IfOk, map};
ghost use Rattle.lois_base.specs.Rename.{rename, rename_comp, rename_lit, rename_cube, rename_constraint};
ghost use Rattle.lois_base.specs.Tree.{tree, comp_of};
ghost use Rattle.lois_shortest_word.specs.Shortened.{lowered};

use lois_base::{Comp, Comps, Constraint, Cube, Lit, NoMemory, Term, Terms};
use std::alloc::Global;

fn lowered_level(level: usize, gone: usize) -> usize
    ensures { result ≡ lowered gone level }
{
    if gone < level { level - 1 } else { level }
}

fn lowered_lit(lit: Lit, gone: usize) -> Lit
    ensures { result ≡ rename_lit (lowered gone) lit }
{
    Lit {
        op: lit.op,
        left: lowered_level(lit.left, gone),
        right: lowered_level(lit.right, gone),
    }
}

fn lowered_cube(alloc: Global, cube: &Cube, gone: usize) -> Result<Cube, NoMemory>
    ensures { IfOk result (λ r. r ≡ rename_cube (lowered gone) cube.now) }
{
    let mut low = Cube::new(alloc);
    for lit in cube.as_slice() {
        low.push(lowered_lit(*lit, gone))?;
    }
    Ok(low)
}

fn lowered_constraint(
    alloc: Global,
    constraint: &Constraint,
    gone: usize,
) -> Result<Constraint, NoMemory>
    ensures { IfOk result (λ r. r ≡ rename_constraint (lowered gone) constraint.now) }
{
    let mut low = Constraint::new(alloc);
    for cube in constraint.as_slice() {
        low.push(lowered_cube(alloc, cube, gone)?)?;
    }
    Ok(low)
}

#[cycle(lowering)]
#[tactic(auto, using(lois_base::proofs::Lists::parts_renamed, lois_base::proofs::Lists::items_renamed))]
fn lowered_term(alloc: Global, t: &Term, gone: usize) -> Result<Term, NoMemory>
    ensures { IfOk result (λ r. tree r ≡ rename (lowered gone) (tree t.now)) }
{
    match t {
        Term::Var(level) => Ok(Term::Var(lowered_level(*level, gone))),
        Term::Tag(name) => Ok(Term::Tag(name.copy(alloc)?)),
        Term::Tup(parts) => Ok(Term::Tup(lowered_terms(alloc, parts, gone)?)),
        Term::Coll(comps) => Ok(Term::Coll(lowered_comps(alloc, comps, gone)?)),
    }
}

/// The terms with each level above `gone` one down.
#[cycle(lowering)]
pub(crate) fn lowered_terms(alloc: Global, terms: &Terms, gone: usize) -> Result<Terms, NoMemory>
    ensures { IfOk result (λ r. r ≡ map (rename (lowered gone)) terms.now) }
{
    let mut low = Terms::new(alloc);
    for part in terms.as_slice() {
        low.push(lowered_term(alloc, part, gone)?)?;
    }
    Ok(low)
}

#[cycle(lowering)]
fn lowered_comps(alloc: Global, comps: &Comps, gone: usize) -> Result<Comps, NoMemory>
    ensures { IfOk result (λ r. r ≡ map (rename_comp (lowered gone)) comps.now) }
{
    let mut low = Comps::new(alloc);
    for comp in comps.as_slice() {
        low.push(lowered_comp(alloc, comp, gone)?)?;
    }
    Ok(low)
}

#[cycle(lowering)]
fn lowered_comp(alloc: Global, comp: &Comp, gone: usize) -> Result<Comp, NoMemory>
    ensures { IfOk result (λ r. comp_of r ≡ rename_comp (lowered gone) (comp_of comp.now)) }
{
    Ok(Comp {
        binders: comp.binders,
        guard: lowered_constraint(alloc, &comp.guard, gone)?,
        item: lowered_term(alloc, &comp.item, gone)?,
    })
}
