//! Unions, and the set of all atoms.

ghost use Rattle.std.specs.Prelude.{◌≡◌, ℕ, ◌+◌, ◌<◌, ◌^◌, max, ◌++◌, Bool, [], ◌∷◌, IfOk, OnOk};
ghost use Rattle.lois_base.specs.Data.{depth};
ghost use Rattle.lois_base.specs.Fits.{Fits};
ghost use Rattle.lois_base.specs.Tree.{tree, comp_of};
ghost use Rattle.lois_base.specs.Validity.{AdmitsTerm, HasBoundedWidths};
ghost use Rattle.lois_terms.specs.Collections.{IsColl};
ghost use Rattle.lois_algebra.specs.Sets.{IsUnion, HasAllAtoms};

use lois_base::{Comp, Comps, Constraint, NoMemory, Term};
use std::alloc::Global;

/// The set that has the members of either of the two sets.
pub fn union(alloc: Global, s: &Term, t: &Term) -> Result<Term, NoMemory>
    requires left { IsColl (tree s.now) }
    requires right { IsColl (tree t.now) }
    ensures members { IfOk result (λ r. IsUnion (tree s.now) (tree t.now) (tree r)) }
    ensures set { IfOk result (λ r. IsColl (tree r)) }
    ensures levels { IfOk result (λ r. (n : ℕ) → Fits n (tree s.now) → Fits n (tree t.now) → Fits n (tree r)) }
    ensures operators { IfOk result (λ r. (ordered : Bool) → AdmitsTerm ordered (tree s.now) → AdmitsTerm ordered (tree t.now) → AdmitsTerm ordered (tree r)) }
    ensures widths { IfOk result (λ r. HasBoundedWidths (tree s.now) → HasBoundedWidths (tree t.now) → HasBoundedWidths (tree r)) }
    ensures depth { IfOk result (λ r. depth (tree r) ≡ max (depth (tree s.now)) (depth (tree t.now))) }
{
    match (s, t) {
        (Term::Coll(comps), Term::Coll(others)) => {
            let mut joined = comps.copy(alloc)?;
            add_all(alloc, &mut joined, others)?;
            Ok(Term::Coll(joined))
        }
        _ => unreachable!(),
    }
}

fn add_all(alloc: Global, comps: &mut Comps, others: &Comps) -> Result<(), NoMemory>
    ensures { OnOk result (comps.new ≡ comps.old ++ others.now) }
{
    for comp in others.as_slice() {
        comps.push(comp.copy(alloc)?)?;
    }
    Ok(())
}

/// The set of all atoms, as a term of `size` levels.
pub fn all_atoms(alloc: Global, size: usize) -> Result<Term, NoMemory>
    requires { size + 1 < 2 ^ 64 }
    ensures members { IfOk result (λ r. HasAllAtoms size (tree r)) }
    ensures set { IfOk result (λ r. IsColl (tree r)) }
    ensures levels { IfOk result (λ r. Fits size (tree r)) }
    ensures operators { IfOk result (λ r. (ordered : Bool) → AdmitsTerm ordered (tree r)) }
    ensures widths { IfOk result (λ r. HasBoundedWidths (tree r)) }
    ensures depth { IfOk result (λ r. depth (tree r) ≡ 1) }
{
    let comp = Comp {
        binders: 1,
        guard: Constraint::always(alloc)?,
        item: Term::Var(size),
    };
    Ok(Term::Coll(singleton(alloc, comp)?))
}

fn singleton(alloc: Global, comp: Comp) -> Result<Comps, NoMemory>
    ensures { IfOk result (λ r. r ≡ comp_of comp ∷ []) }
{
    let mut comps = Comps::new(alloc);
    comps.push(comp)?;
    Ok(comps)
}
