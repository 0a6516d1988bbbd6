//! Sets under a further guard.

ghost use Rattle.std.specs.Prelude.{◌≡◌, ℕ, ◌++◌, IfOk, OnOk, Bool, map};
ghost use Rattle.lois_base.specs.Data.{depth};
ghost use Rattle.lois_base.specs.Fits.{ConstraintFits, Fits};
ghost use Rattle.lois_base.specs.Normal.{both};
ghost use Rattle.lois_base.specs.Tree.{tree};
ghost use Rattle.lois_base.specs.Validity.{AdmitsConstraint, AdmitsTerm, HasBoundedWidths};
ghost use Rattle.lois_terms.specs.Guarded.{KeepsWhere, IsEmptyElsewhere, guarded, guarded_comp};
ghost use Rattle.lois_terms.specs.Collections.{IsColl};

use lois_base::{Comp, Comps, Constraint, Cube, NoMemory, Term};
use std::alloc::Global;

/// The set that has the members of the set `t` where `c` holds, and none elsewhere.
pub fn with_guard(alloc: Global, t: &Term, c: &Constraint) -> Result<Term, NoMemory>
    requires { IsColl (tree t.now) }
    ensures conjoined { IfOk result (λ r. tree r ≡ guarded c.now (tree t.now)) }
    ensures kept { IfOk result (λ r. KeepsWhere c.now (tree t.now) (tree r)) }
    ensures empty { IfOk result (λ r. IsEmptyElsewhere c.now (tree r)) }
    ensures set { IfOk result (λ r. IsColl (tree r)) }
    ensures levels { IfOk result (λ r. (n : ℕ) → Fits n (tree t.now) → ConstraintFits n c.now → Fits n (tree r)) }
    ensures operators { IfOk result (λ r. (ordered : Bool) → AdmitsTerm ordered (tree t.now) → AdmitsConstraint ordered c.now → AdmitsTerm ordered (tree r)) }
    ensures widths { IfOk result (λ r. HasBoundedWidths (tree t.now) → HasBoundedWidths (tree r)) }
    ensures height { IfOk result (λ r. depth (tree r) ≡ depth (tree t.now)) }
{
    guarded_set(alloc, t, c)
}

#[tactic(auto, using(crate::proofs::UnderGuard::guarded_items_of))]
fn guarded_set(alloc: Global, t: &Term, c: &Constraint) -> Result<Term, NoMemory>
    requires { IsColl (tree t.now) }
    ensures { IfOk result (λ r. tree r ≡ guarded c.now (tree t.now)) }
{
    match t {
        Term::Coll(comps) => Ok(Term::Coll(guarded_comps(alloc, comps, c)?)),
        _ => unreachable!(),
    }
}

fn guarded_comps(alloc: Global, comps: &Comps, c: &Constraint) -> Result<Comps, NoMemory>
    ensures { IfOk result (λ r. r ≡ map (guarded_comp c.now) comps.now) }
{
    let mut guarded = Comps::new(alloc);
    for comp in comps.as_slice() {
        guarded.push(Comp {
            binders: comp.binders,
            guard: conjoined(alloc, c, &comp.guard)?,
            item: comp.item.copy(alloc)?,
        })?;
    }
    Ok(guarded)
}

// each cube of the one with each of the other
fn conjoined(alloc: Global, a: &Constraint, b: &Constraint) -> Result<Constraint, NoMemory>
    ensures { IfOk result (λ r. r ≡ both a.now b.now) }
{
    let mut product = Constraint::new(alloc);
    for cube in a.as_slice() {
        add_each(alloc, &mut product, cube, b)?;
    }
    Ok(product)
}

fn add_each(
    alloc: Global,
    product: &mut Constraint,
    cube: &Cube,
    others: &Constraint,
) -> Result<(), NoMemory>
    ensures { OnOk result (product.new ≡ product.old ++ map (λ d. cube.now ++ d) others.now) }
{
    for other in others.as_slice() {
        product.push(joined_cube(alloc, cube, other)?)?;
    }
    Ok(())
}

fn joined_cube(alloc: Global, a: &Cube, b: &Cube) -> Result<Cube, NoMemory>
    ensures { IfOk result (λ r. r ≡ a.now ++ b.now) }
{
    let mut joined = a.copy(alloc)?;
    for lit in b.as_slice() {
        joined.push(*lit)?;
    }
    Ok(joined)
}
