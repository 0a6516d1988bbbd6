//! Terms whose guards are written anew with what surrounds them, where that is shorter.

ghost use Rattle.std.specs.Prelude.{Bool, [], ◌∷◌, IfOk, IsTrue};
ghost use Rattle.lois_base.specs.Data.{tup, terms_of, comps_of};
ghost use Rattle.lois_base.specs.Fits.{ConstraintFits, Fits, PartsFit, CompFits, ItemsFit};
ghost use Rattle.lois_base.specs.Tree.{tree, comp_of};
ghost use Rattle.lois_base.specs.Validity.{AdmitsComp};
ghost use Rattle.lois_readable.specs.Strengthened.{IsGuardWithin};
ghost use Rattle.lois_simplify.specs.Simplification.{IsSimplification, set_of};

use crate::ordering::comp_has_order;
use crate::weights::guard_weight;
use lois_base::{Comp, Comps, Constraint, NoMemory, Term, Terms};
use lois_constraint::meet;
use lois_simplify::shortest;
use std::alloc::Global;

// A guard with more cubes is left as it is.
const MOST_CUBES: usize = 16;

// What surrounds a comprehension may only be said in its guard where that brings no order to a term without it.
fn is_worth_strengthening(comp: &Comp) -> bool
    ensures { IsTrue result → (ordered : Bool) → AdmitsComp ordered (comp_of comp.now) → IsTrue ordered }
{
    comp.guard.len() > 1 && comp.guard.len() <= MOST_CUBES && comp_has_order(comp)
}

// The guard, or a shorter one that speaks of what `under` does too.
fn guard_within(alloc: Global, comp: &Comp, under: &Constraint) -> Result<Constraint, NoMemory>
    ensures { IfOk result (IsGuardWithin under.now (comp_of comp.now)) }
{
    if !is_worth_strengthening(comp) {
        return comp.guard.copy(alloc);
    }
    let strong = meet(alloc, under, &comp.guard)?;
    let short = shortest(alloc, &strong, under)?;
    if guard_weight(&short) < guard_weight(&comp.guard) {
        return Ok(short);
    }
    comp.guard.copy(alloc)
}

/// The term with its guards written anew where what surrounds them makes them shorter.
#[cycle(strengthening)]
pub(crate) fn strengthen(
    alloc: Global,
    term: &Term,
    under: &Constraint,
    size: usize,
) -> Result<Term, NoMemory>
    requires levels { Fits size (tree term.now) }
    requires under_levels { ConstraintFits size under.now }
    ensures { IfOk result (λ r. IsSimplification under.now size (tree term.now) (tree r)) }
{
    match term {
        Term::Var(level) => Ok(Term::Var(*level)),
        Term::Tag(_) => term.copy(alloc),
        Term::Tup(parts) => Ok(Term::Tup(strengthen_parts(alloc, parts, under, size)?)),
        Term::Coll(comps) => Ok(Term::Coll(strengthen_comps(alloc, comps, under, size)?)),
    }
}

#[cycle(strengthening)]
fn strengthen_parts(
    alloc: Global,
    parts: &Terms,
    under: &Constraint,
    size: usize,
) -> Result<Terms, NoMemory>
    requires levels { PartsFit size (terms_of parts.now) }
    requires under_levels { ConstraintFits size under.now }
    ensures { IfOk result (λ r. IsSimplification under.now size (tup (terms_of parts.now)) (tup (terms_of r))) }
{
    let mut strong = Terms::new(alloc);
    for part in parts.as_slice() {
        strong.push(strengthen(alloc, part, under, size)?)?;
    }
    Ok(strong)
}

#[cycle(strengthening)]
fn strengthen_comps(
    alloc: Global,
    comps: &Comps,
    under: &Constraint,
    size: usize,
) -> Result<Comps, NoMemory>
    requires levels { ItemsFit size (comps_of comps.now) }
    requires under_levels { ConstraintFits size under.now }
    ensures { IfOk result (λ r. IsSimplification under.now size (set_of comps.now) (set_of r)) }
{
    let mut strong = Comps::new(alloc);
    for comp in comps.as_slice() {
        strong.push(strengthen_comp(alloc, comp, under, size)?)?;
    }
    Ok(strong)
}

#[cycle(strengthening)]
fn strengthen_comp(
    alloc: Global,
    comp: &Comp,
    under: &Constraint,
    size: usize,
) -> Result<Comp, NoMemory>
    requires levels { CompFits size (comp_of comp.now) }
    requires under_levels { ConstraintFits size under.now }
    ensures { IfOk result (λ r. IsSimplification under.now size (set_of (comp_of comp.now ∷ [])) (set_of (comp_of r ∷ []))) }
{
    let inner = size + comp.binders;
    let guard = guard_within(alloc, comp, under)?;
    let here = meet(alloc, under, &guard)?;
    let item = strengthen(alloc, &comp.item, &here, inner)?;
    Ok(Comp {
        binders: comp.binders,
        guard,
        item,
    })
}
