//! How the values of terms stand to one another, as constraints.

ghost use Rattle.std.specs.List.{All};
ghost use Rattle.std.specs.Prelude.{◌≡◌, ◌<◌, ◌≤◌, ◌↔◌, ℕ, [], ◌∷◌, Bool, true, List, length, map, Contains, IfOk, IfErr, IfSome, IsNone, IsTrue, IsFalse};
ghost use Rattle.lois_base.specs.Atom.{Atom};
ghost use Rattle.lois_base.specs.Fits.{Fits, ConstraintFits};
ghost use Rattle.lois_base.specs.FormulaData.{FormulaFits};
ghost use Rattle.lois_base.specs.FormulaView.{view};
ghost use Rattle.lois_base.specs.Tree.{tree, comp_of};
ghost use Rattle.lois_base.specs.Truth.{holds};
ghost use Rattle.lois_base.specs.Validity.{AdmitsTerm, AdmitsConstraint};
ghost use Rattle.lois_base.specs.FormulaOperators.{AdmitsFormula};
ghost use Rattle.lois_base.specs.Over.{IsOver};
ghost use Rattle.lois_base.specs.Values.{point, IsSame, IsIn, IsIncluded};
ghost use Rattle.lois_relate.specs.Relations.{HoldsWhereIn};
ghost use Rattle.lois_terms.specs.Collections.{IsColl};
ghost use Rattle.lois_eval.specs.Candidates.{HasValueAt};
ghost use Rattle.lois_eval.specs.Compared.{IsBelowFault, AreAtomsBelow};
ghost use Rattle.lois_eval.specs.Throughout.{IfFault};

use crate::faults::fault_under;
use lois_answers::FaultKind;
use lois_base::{Comp, Constraint, Cube, Formula, Lit, NoMemory, Op, Structure, Term};
use lois_constraint::negate;
use lois_context::Context;
use lois_elim::quantifier_free;
use lois_meaning::Stop;
use lois_relate::building::{disjunction, false_formula, is_true_formula};
use lois_relate::{clash, equal_formula, included_formula, item_formula_among};
use lois_script::Pos;
use std::alloc::Global;

/// Where both have the same value.
pub(crate) fn equal<T: Structure>(
    alloc: Global,
    s: &Term,
    t: &Term,
    size: usize,
) -> Result<Constraint, NoMemory>
    requires left { IsOver T.ordered size (tree s.now) }
    requires right { IsOver T.ordered size (tree t.now) }
    ensures truth { IfOk result (λ r. (c : List Atom) → length c ≡ size → IsTrue (holds c r) ↔ IsSame (point (tree s.now) c) (point (tree t.now) c)) }
    ensures levels { IfOk result (λ r. ConstraintFits size r) }
    ensures operators { IfOk result (λ r. (o : Bool) → AdmitsTerm o (tree s.now) → AdmitsTerm o (tree t.now) → AdmitsConstraint o r) }
{
    let formula = equal_formula(alloc, s, t, size)?;
    quantifier_free::<T>(alloc, &formula, size)
}

/// Where the values are different.
pub(crate) fn unequal<T: Structure>(
    alloc: Global,
    s: &Term,
    t: &Term,
    size: usize,
) -> Result<Constraint, NoMemory>
    requires left { IsOver T.ordered size (tree s.now) }
    requires right { IsOver T.ordered size (tree t.now) }
    ensures truth { IfOk result (λ r. (c : List Atom) → length c ≡ size → IsFalse (holds c r) ↔ IsSame (point (tree s.now) c) (point (tree t.now) c)) }
    ensures levels { IfOk result (λ r. ConstraintFits size r) }
    ensures operators { IfOk result (λ r. (o : Bool) → AdmitsTerm o (tree s.now) → AdmitsTerm o (tree t.now) → AdmitsConstraint o r) }
{
    let same = equal::<T>(alloc, s, t, size)?;
    negate(alloc, &same)
}

/// Where the value of `s` is in the set `t`.
pub(crate) fn within<T: Structure>(
    alloc: Global,
    s: &Term,
    t: &Term,
    size: usize,
) -> Result<Constraint, NoMemory>
    requires left { IsOver T.ordered size (tree s.now) }
    requires right { IsOver T.ordered size (tree t.now) }
    requires right_set { IsColl (tree t.now) }
    ensures truth { IfOk result (λ r. (c : List Atom) → length c ≡ size → IsTrue (holds c r) ↔ IsIn (point (tree s.now) c) (point (tree t.now) c)) }
    ensures levels { IfOk result (λ r. ConstraintFits size r) }
    ensures operators { IfOk result (λ r. (o : Bool) → AdmitsTerm o (tree s.now) → AdmitsTerm o (tree t.now) → AdmitsConstraint o r) }
{
    let formula = membership(alloc, s, t, size)?;
    quantifier_free::<T>(alloc, &formula, size)
}

// The formula for it, from those comprehensions alone whose items may have the value. Where the first of them settles it, the
// others aren't looked for.
fn membership(alloc: Global, s: &Term, t: &Term, size: usize) -> Result<Formula, NoMemory>
    requires element { Fits size (tree s.now) }
    requires levels { Fits size (tree t.now) }
    requires set { IsColl (tree t.now) }
    ensures truth { IfOk result (λ f. HoldsWhereIn size (tree s.now) (tree t.now) (view f)) }
    ensures levels { IfOk result (λ f. FormulaFits size (view f)) }
    ensures operators { IfOk result (λ f. (o : Bool) → AdmitsTerm o (tree s.now) → AdmitsTerm o (tree t.now) → AdmitsFormula o (view f)) }
{
    match t {
        Term::Coll(comps) => {
            let others = comps.as_slice();
            let Some(first) = first_candidate(s, others) else {
                return Ok(false_formula(alloc));
            };
            let here = item_formula_among(alloc, s, others, &[first], size, 0)?;
            if is_true_formula(&here) {
                return Ok(here);
            }
            let places = later_candidates(alloc, s, others, first + 1)?;
            let there = item_formula_among(alloc, s, others, places.as_slice(), size, 0)?;
            disjunction(alloc, here, there)
        }
        _ => unreachable!(),
    }
}

// The place of the first comprehension whose item doesn't clash with the term, if there is one.
fn first_candidate(s: &Term, comps: &[Comp]) -> Option<usize>
    ensures first { IfSome result (λ p. (p < length comps.now) × ((i : ℕ) → i < p → HasValueAt (map comp_of comps.now) (tree s.now) i → ⊥)) }
    ensures none { IsNone result → (i : ℕ) → HasValueAt (map comp_of comps.now) (tree s.now) i → ⊥ }
{
    for (place, comp) in comps.iter().enumerate() {
        if !clash(&comp.item, s) {
            return Some(place);
        }
    }
    None
}

// The places of all such comprehensions from an index on.
fn later_candidates(
    alloc: Global,
    s: &Term,
    comps: &[Comp],
    from: usize,
) -> Result<Vec<usize>, NoMemory>
    ensures inside { IfOk result (λ r. All (λ i. i < length comps.now) r.items) }
    ensures all { IfOk result (λ r. (i : ℕ) → from ≤ i → HasValueAt (map comp_of comps.now) (tree s.now) i → Contains r.items i) }
{
    let mut places = Vec::new(alloc);
    for place in from..comps.len() {
        if !clash(&comps[place].item, s) {
            places.push(place)?;
        }
    }
    Ok(places)
}

/// Where each member of the set `s` is in the set `t`.
pub(crate) fn included<T: Structure>(
    alloc: Global,
    s: &Term,
    t: &Term,
    size: usize,
) -> Result<Constraint, NoMemory>
    requires left { IsOver T.ordered size (tree s.now) }
    requires left_set { IsColl (tree s.now) }
    requires right { IsOver T.ordered size (tree t.now) }
    requires right_set { IsColl (tree t.now) }
    ensures truth { IfOk result (λ r. (c : List Atom) → length c ≡ size → IsTrue (holds c r) ↔ IsIncluded (point (tree s.now) c) (point (tree t.now) c)) }
    ensures levels { IfOk result (λ r. ConstraintFits size r) }
    ensures operators { IfOk result (λ r. (o : Bool) → AdmitsTerm o (tree s.now) → AdmitsTerm o (tree t.now) → AdmitsConstraint o r) }
{
    let formula = included_formula(alloc, s, t, size)?;
    quantifier_free::<T>(alloc, &formula, size)
}

/// Where the first atom is below the second. Errors: a fault at the place of the one that is no atom.
pub(crate) fn below(
    alloc: Global,
    s: &Term,
    s_pos: Pos,
    t: &Term,
    t_pos: Pos,
    context: &Context,
) -> Result<Constraint, Stop>
    requires left { Fits context.now.size (tree s.now) }
    requires right { Fits context.now.size (tree t.now) }
    ensures truth { IfOk result (AreAtomsBelow (tree s.now) (tree t.now)) }
    ensures levels { IfOk result (λ r. ConstraintFits context.now.size r) }
    ensures operators { IfOk result (λ r. AdmitsConstraint true r) }
    ensures fault { IfErr result (λ e. IfFault e (IsBelowFault context.now (tree s.now) s_pos.offset (tree t.now) t_pos.offset)) }
{
    match s {
        Term::Var(left) => match t {
            Term::Var(right) => Ok(literal(
                alloc,
                Lit {
                    op: Op::Lt,
                    left: *left,
                    right: *right,
                },
            )?),
            _ => Err(fault_under(alloc, t_pos, FaultKind::NotAtoms, &context.sample)),
        },
        _ => Err(fault_under(alloc, s_pos, FaultKind::NotAtoms, &context.sample)),
    }
}

fn literal(alloc: Global, lit: Lit) -> Result<Constraint, NoMemory>
    ensures { IfOk result (λ r. r ≡ (lit ∷ []) ∷ []) }
{
    let mut cube = Cube::new(alloc);
    cube.push(lit)?;
    let mut constraint = Constraint::new(alloc);
    constraint.push(cube)?;
    Ok(constraint)
}
