//! Terms without `<=`.

ghost use Rattle.std.specs.Prelude.{◌≡◌, ℕ, Bool, List, IfOk};
ghost use Rattle.lois_base.specs.Atom.{Atom};
ghost use Rattle.lois_base.specs.Data.{depth, terms_of, comps_of};
ghost use Rattle.lois_base.specs.Fits.{Fits};
ghost use Rattle.lois_base.specs.Tree.{tree, comp_of};
ghost use Rattle.lois_base.specs.Validity.{AdmitsTerm, HasBoundedWidths, IsStrictTerm};
ghost use Rattle.lois_base.specs.Values.{point, IsSame};
ghost use Rattle.lois_strict.specs.Split.{TermIsSplit, PartsAreSplit, CompIsSplit, ItemsAreSplit};

use crate::constraints::split_constraint;
use lois_base::{Comp, Comps, NoMemory, Term, Terms};
use std::alloc::Global;

/// A term without `<=` that has the same value at each choice: each guard is split. Errors: `NoMemory`.
pub fn split_term(alloc: Global, term: &Term) -> Result<Term, NoMemory>
    ensures value { IfOk result (λ r. (c : List Atom) → IsSame (point (tree term.now) c) (point (tree r) c)) }
    ensures strict { IfOk result (λ r. IsStrictTerm (tree r)) }
    ensures levels { IfOk result (λ r. (n : ℕ) → Fits n (tree term.now) → Fits n (tree r)) }
    ensures operators { IfOk result (λ r. (o : Bool) → AdmitsTerm o (tree term.now) → AdmitsTerm o (tree r)) }
    ensures widths { IfOk result (λ r. HasBoundedWidths (tree term.now) → HasBoundedWidths (tree r)) }
    ensures depth { IfOk result (λ r. depth (tree r) ≡ depth (tree term.now)) }
{
    let split = split_guards(alloc, term)?;
    Ok(split)
}

// The term with each guard split.
#[cycle(splitting)]
fn split_guards(alloc: Global, term: &Term) -> Result<Term, NoMemory>
    ensures { IfOk result (λ r. TermIsSplit (tree term.now) (tree r)) }
{
    match term {
        Term::Var(level) => Ok(Term::Var(*level)),
        Term::Tag(name) => Ok(Term::Tag(name.copy(alloc)?)),
        Term::Tup(parts) => Ok(Term::Tup(split_parts(alloc, parts)?)),
        Term::Coll(comps) => Ok(Term::Coll(split_items(alloc, comps)?)),
    }
}

#[cycle(splitting)]
fn split_parts(alloc: Global, terms: &Terms) -> Result<Terms, NoMemory>
    ensures { IfOk result (λ r. PartsAreSplit (terms_of terms.now) (terms_of r)) }
{
    let mut split = Terms::new(alloc);
    for part in terms.as_slice() {
        split.push(split_guards(alloc, part)?)?;
    }
    Ok(split)
}

#[cycle(splitting)]
fn split_items(alloc: Global, comps: &Comps) -> Result<Comps, NoMemory>
    ensures { IfOk result (λ r. ItemsAreSplit (comps_of comps.now) (comps_of r)) }
{
    let mut split = Comps::new(alloc);
    for comp in comps.as_slice() {
        split.push(split_comp(alloc, comp)?)?;
    }
    Ok(split)
}

#[cycle(splitting)]
fn split_comp(alloc: Global, comp: &Comp) -> Result<Comp, NoMemory>
    ensures { IfOk result (λ r. CompIsSplit (comp_of comp.now) (comp_of r)) }
{
    Ok(Comp {
        binders: comp.binders,
        guard: split_constraint(alloc, &comp.guard)?,
        item: split_guards(alloc, &comp.item)?,
    })
}
