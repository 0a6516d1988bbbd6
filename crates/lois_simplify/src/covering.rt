//! Comprehensions whose members the others have.

ghost use Rattle.std.specs.Prelude.{◌≡◌, ◌+◌, [], ◌∷◌, ◌++◌, drop, map, Bool, IfOk, OnOk, IsTrue, IsFalse, Contains, option_map, option_to_list};
ghost use Rattle.std.specs.List.{All};
ghost use Rattle.lois_base.specs.Data.{CompD, comp, var, comps_of};
ghost use Rattle.lois_base.specs.Fits.{ConstraintFits};
ghost use Rattle.lois_base.specs.FormulaData.{FormulaFits};
ghost use Rattle.lois_base.specs.FormulaView.{view};
ghost use Rattle.lois_base.specs.Tree.{tree, comp_of};
ghost use Rattle.lois_base.specs.FormulaOperators.{AdmitsFormula};
ghost use Rattle.lois_base.specs.Over.{CompIsOver, ItemsAreOver};
ghost use Rattle.lois_relate.specs.Relations.{HoldsWhereItemIn};
ghost use Rattle.lois_terms.specs.Shapes.{item_shape};
ghost use Rattle.lois_simplify.specs.Candidates.{AddsCandidates, behind};
ghost use Rattle.lois_simplify.specs.Covered.{IsCovered};
ghost use Rattle.lois_simplify.specs.Lean.{IsIrredundantComp, HasOwn, EachHasOwn};
ghost use Rattle.lois_simplify.specs.Simplification.{IsSimplification, set_of};

use crate::guards::inside;
use crate::oracle::Oracle;
use crate::sampling::fails_at_sample;
use lois_base::{Comp, Comps, Constraint, NoMemory, Structure, Term};
use lois_elim::quantifier_free;
use lois_relate::building::is_false_formula;
use lois_relate::item_formula;
use lois_terms::{Index, index_by_shape, shape};
use std::alloc::Global;
use std::mem;

// Puts the comprehension behind those that are kept, and its item's shape behind theirs.
fn keep(
    alloc: Global,
    kept: &mut Comps,
    kept_shapes: &mut Index,
    comp: Comp,
) -> Result<(), NoMemory>
    requires { kept_shapes.old ≡ map item_shape kept.old }
    ensures kept { OnOk result (kept.new ≡ kept.old ++ comp_of comp ∷ []) }
    ensures shapes { OnOk result (kept_shapes.new ≡ map item_shape kept.new) }
{
    kept_shapes.push(alloc, shape(&comp.item))?;
    kept.push(comp)
}

// Copies those of the comprehensions whose items have the shape to the end of the candidates. The index has the shapes of all
// from `first` on.
fn add_candidates(
    alloc: Global,
    candidates: &mut Comps,
    comps: &[Comp],
    shapes: &Index,
    first: usize,
    shape: u64,
) -> Result<(), NoMemory>
    requires { drop first shapes.now ≡ map item_shape (map comp_of comps.now) }
    ensures { OnOk result (AddsCandidates shape (map comp_of comps.now) candidates.old candidates.new) }
{
    for position in shapes.positions(shape) {
        add_candidate(alloc, candidates, comps, first, *position)?;
    }
    Ok(())
}

fn add_candidate(
    alloc: Global,
    candidates: &mut Comps,
    comps: &[Comp],
    first: usize,
    position: usize,
) -> Result<(), NoMemory>
    ensures { OnOk result (candidates.new ≡ candidates.old ++ option_to_list (behind first (map comp_of comps.now) position)) }
{
    if let Some(comp) = behind(comps, first, position) {
        candidates.push(comp.copy(alloc)?)?;
    }
    Ok(())
}

// The comprehension at a position of a list of which those before `first` are gone.
fn behind(comps: &[Comp], first: usize, position: usize) -> Option<&Comp>
    ensures { option_map (λ k. comp_of k.now) result ≡ behind first (map comp_of comps.now) position }
{
    if position < first {
        return None;
    }
    comps.get(position - first)
}

// Whether the others have each member of the comprehension wherever `under` holds. Where none of them can have the item, they
// haven't the members that the comprehension has; a sample shows that of most.
fn is_covered_by<T: Structure, D: Oracle>(
    alloc: Global,
    comp: &Comp,
    others: &Comps,
    under: &Constraint,
    size: usize,
    decider: &mut D,
) -> Result<bool, NoMemory>
    requires sound { D.sound }
    requires over { CompIsOver T.ordered size (comp_of comp.now) }
    requires other { ItemsAreOver T.ordered size (comps_of others.now) }
    requires under_levels { ConstraintFits size under.now }
    requires lean { IsIrredundantComp under.now size (comp_of comp.now) }
    ensures covered { IfOk result (λ b. IsTrue b → IsCovered under.now size others.now (comp_of comp.now)) }
    ensures own { IfOk result (λ b. IsFalse b → HasOwn under.now size others.now (comp_of comp.now)) }
    ensures asked { D.reaches decider.old decider.new }
{
    let items = others.as_slice();
    let membership = item_formula(alloc, &comp.item, items, size, comp.binders)?;
    if is_false_formula(&membership) {
        return Ok(false);
    }
    let inner = size + comp.binders;
    let here = inside(alloc, under, &comp.guard)?;
    if fails_at_sample(alloc, &membership, &here, inner, decider)? {
        return Ok(false);
    }
    let within = quantifier_free::<T>(alloc, &membership, inner)?;
    let counterexample = decider.counterexample(alloc, &here, &within, inner)?;
    Ok(counterexample.is_none())
}

// Whether those before it and behind it have each member of the comprehension wherever `under` holds. Only those whose items have
// its shape can have any. The index has the shapes of those behind it from `first` on.
fn is_covered<T: Structure, D: Oracle>(
    alloc: Global,
    comp: &Comp,
    kept: &Comps,
    kept_shapes: &Index,
    coming: &[Comp],
    shapes: &Index,
    first: usize,
    under: &Constraint,
    size: usize,
    decider: &mut D,
) -> Result<bool, NoMemory>
    requires sound { D.sound }
    requires over { CompIsOver T.ordered size (comp_of comp.now) }
    requires kept { ItemsAreOver T.ordered size (comps_of kept.now) }
    requires coming { ItemsAreOver T.ordered size (comps_of (map comp_of coming.now)) }
    requires kept_shapes { kept_shapes.now ≡ map item_shape kept.now }
    requires coming_shapes { drop first shapes.now ≡ map item_shape (map comp_of coming.now) }
    requires under_levels { ConstraintFits size under.now }
    requires lean { IsIrredundantComp under.now size (comp_of comp.now) }
    ensures covered { IfOk result (λ b. IsTrue b → IsCovered under.now size (kept.now ++ map comp_of coming.now) (comp_of comp.now)) }
    ensures own { IfOk result (λ b. IsFalse b → HasOwn under.now size (kept.now ++ map comp_of coming.now) (comp_of comp.now)) }
    ensures asked { D.reaches decider.old decider.new }
{
    let shape = shape(&comp.item);
    let mut candidates = Comps::new(alloc);
    add_candidates(
        alloc,
        &mut candidates,
        kept.as_slice(),
        kept_shapes,
        0,
        shape,
    )?;
    add_candidates(alloc, &mut candidates, coming, shapes, first, shape)?;
    is_covered_by::<T, D>(alloc, comp, &candidates, under, size, decider)
}

// What stands in the place of a comprehension that was moved.
fn moved_away(alloc: Global) -> Comp
    ensures { comp_of result ≡ comp 0 [] (var 0) }
{
    Comp {
        binders: 0,
        guard: Constraint::new(alloc),
        item: Term::Var(0),
    }
}

/// The comprehensions without those whose members the others have wherever `under` holds. One pass serves, since the others
/// only get fewer.
pub(crate) fn uncovered<T: Structure, D: Oracle>(
    alloc: Global,
    comps: Comps,
    under: &Constraint,
    size: usize,
    decider: &mut D,
) -> Result<Comps, NoMemory>
    requires sound { D.sound }
    requires over { ItemsAreOver T.ordered size (comps_of comps) }
    requires under_levels { ConstraintFits size under.now }
    requires lean { All (IsIrredundantComp under.now size) comps }
    ensures kept { IfOk result (λ r. IsSimplification under.now size (set_of comps) (set_of r)) }
    ensures only { IfOk result (λ r. (k : CompD) → Contains r k → Contains comps k) }
    ensures own { IfOk result (λ r. EachHasOwn under.now size [] r []) }
    ensures asked { D.reaches decider.old decider.new }
{
    let mut items = comps.into_vec();
    let shapes = index_by_shape(alloc, items.as_slice())?;
    let mut kept = Comps::new(alloc);
    let mut kept_shapes = Index::new(alloc);
    for index in 0..items.len() {
        let comp = mem::replace(&mut items[index], moved_away(alloc));
        let coming = &items[index + 1..];
        let first = index + 1;
        if !is_covered::<T, D>(
            alloc,
            &comp,
            &kept,
            &kept_shapes,
            coming,
            &shapes,
            first,
            under,
            size,
            decider,
        )? {
            keep(alloc, &mut kept, &mut kept_shapes, comp)?;
        }
    }
    Ok(kept)
}
