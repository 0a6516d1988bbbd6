//! The round that spreads over moves: from what a family holds to what a move leads to.

ghost use Rattle.std.specs.Prelude.{◌≡◌, ℕ, ◌+◌, Bool, IfOk, OnOk, ◌⊎◌};
ghost use Rattle.lois_base.specs.Data.{coll, comps_of};
ghost use Rattle.lois_base.specs.Fits.{ConstraintFits, Fits, ItemsFit};
ghost use Rattle.lois_base.specs.Over.{IsOver, CompIsOver, ItemsAreOver};
ghost use Rattle.lois_base.specs.Tree.{tree, comp_of};
ghost use Rattle.lois_base.specs.Validity.{AdmitsConstraint, AdmitsTerm, AdmitsItems, HasBoundedWidths, ItemsHaveBoundedWidths};
ghost use Rattle.lois_terms.specs.Collections.{IsColl};
ghost use Rattle.lois_automata.specs.Built.{AreTargets, AddsTarget};
ghost use Rattle.lois_base.specs.OneProof.{items_prop};
ghost use Rattle.lois_automata.specs.KeyShapes.{shapes_in};
ghost use Rattle.lois_automata.specs.Rounds.{RoundParameters, IsSettled};
ghost use Rattle.lois_automata.specs.RoundsLaw.{settled_prop};

use crate::joining::{
    copy_family, fresh_family, is_empty_family, is_over_nodes, is_same_family, join_family,
    set_of_family,
};
use crate::memberships::{index_of, membership_indexed};
use crate::parts::pair_parts;
use lois_algebra::push_comp;
use lois_base::{Comp, Comps, Constraint, NoMemory, Structure, Term};
use lois_constraint::meet;
use lois_order::OrderAtoms;
use lois_rounds::{Family, Round};
use lois_terms::Index;
use std::alloc::Global;

/// Propagates along the moves of a set, from nodes to nodes. A move is a pair; other members of the set are ignored.
#[derive(Drop)]
pub struct FrontierRound {
    pub size: usize,
    pub under: Constraint,
    pub nodes: Comps,
    pub moves: Comps,
    // what was answered last, and what was new in it: moves lead from the rest of it to nothing that it doesn't hold
    pub known: Family,
    pub frontier: Family,
    ghost under_fits: { ConstraintFits size under },
    ghost nodes_fit: { ItemsFit size (comps_of nodes) } by { items_prop size (comps_of nodes) },
    ghost moves_fit: { ItemsFit size (comps_of moves) } by { items_prop size (comps_of moves) },
    ghost settled: { IsSettled (record { size = size; under = under; nodes = comps_of nodes; moves = coll (comps_of moves) }) known frontier } by { settled_prop (record { size = size; under = under; nodes = comps_of nodes; moves = coll (comps_of moves) }) known frontier },
}

impl Round for FrontierRound {
    ghost use Rattle.lois_base.specs.Data.{coll, comps_of};
    ghost use Rattle.lois_base.specs.Validity.{AdmitsConstraint, AdmitsItems};
    ghost use Rattle.lois_automata.specs.Rounds.{RoundParameters, Propagates};
    ghost use Rattle.lois_automata.specs.RoundsLaw.{spreads_respect};

    ghost leads = { λ r. Propagates (record { size = r.size; under = r.under; nodes = comps_of r.nodes; moves = coll (comps_of r.moves) }) };

    ghost admits = { λ r o. AdmitsConstraint o r.under × AdmitsItems o (comps_of r.nodes) × AdmitsItems o (comps_of r.moves) };

    ghost respects = { λ r. spreads_respect (record { size = r.size; under = r.under; nodes = comps_of r.nodes; moves = coll (comps_of r.moves) }) };

    // A family may have any operators, so quantifiers are eliminated over ordered atoms. These are the same atoms, and an
    // answer has `<` only where what it is made of has it.
    fn next(&mut self, alloc: Global, family: &Family) -> Result<Option<Family>, NoMemory> {
        if !is_over_nodes(family, &self.nodes, self.size) {
            return Ok(None);
        }
        // the slices are taken for what their clauses tell: levels are below sizes
        let _members = family.as_slice();
        let frontier = frontier_of(&self.known, &self.frontier, family);
        let _frontier = frontier.as_slice();
        let held = set_of_family(alloc, &self.nodes, frontier)?;
        let targets = targets_from::<OrderAtoms>(alloc, &self.moves, &held, self.size)?;
        let fresh = fresh_family::<OrderAtoms>(
            alloc,
            &self.nodes,
            family,
            &targets,
            &self.under,
            self.size,
        )?;
        let _fresh = fresh.as_slice();
        if is_empty_family(&fresh) {
            return Ok(None);
        }
        let joined = join_family(alloc, family, &fresh)?;
        let known = copy_family(alloc, &joined)?;
        self.known = known;
        self.frontier = fresh;
        Ok(Some(joined))
    }
}

// What is new in a family: all of it, where it isn't the one that is known.
fn frontier_of<'a>(known: &Family, frontier: &'a Family, family: &'a Family) -> &'a Family
    ensures { (x : RoundParameters) → IsSettled x known.now frontier.now → IsSettled x family.now result.now }
{
    if is_same_family(known, family) {
        return frontier;
    }
    family
}

/// What pairs lead to from members of a set: the second parts of those whose first part is in the set `held`. Members of `moves` that
/// are no pairs are left out.
pub fn targets_from<T: Structure>(
    alloc: Global,
    moves: &Comps,
    held: &Term,
    size: usize,
) -> Result<Term, NoMemory>
    requires over { ItemsAreOver T.ordered size (comps_of moves.now) }
    requires held { IsOver T.ordered size (tree held.now) }
    requires held_set { IsColl (tree held.now) }
    ensures members { IfOk result (λ r. AreTargets size (coll (comps_of moves.now)) (tree held.now) (tree r)) }
    ensures set { IfOk result (λ r. IsColl (tree r)) }
    ensures levels { IfOk result (λ r. Fits size (tree r)) }
    ensures operators { IfOk result (λ r. (o : Bool) → AdmitsItems o (comps_of moves.now) → AdmitsTerm o (tree held.now) → AdmitsTerm o (tree r)) }
    ensures widths { IfOk result (λ r. ItemsHaveBoundedWidths (comps_of moves.now) → HasBoundedWidths (tree r)) }
{
    let index = index_of(alloc, held)?;
    let mut targets = Comps::new(alloc);
    for comp in moves.as_slice() {
        add_target::<T>(alloc, &mut targets, comp, held, &index, size)?;
    }
    Ok(Term::Coll(targets))
}

fn add_target<T: Structure>(
    alloc: Global,
    targets: &mut Comps,
    comp: &Comp,
    held: &Term,
    index: &Index,
    size: usize,
) -> Result<(), NoMemory>
    requires over { CompIsOver T.ordered size (comp_of comp.now) }
    requires held { IsOver T.ordered size (tree held.now) }
    requires held_set { IsColl (tree held.now) }
    requires shapes { index.now ≡ shapes_in (tree held.now) }
    ensures { OnOk result (AddsTarget size (comp_of comp.now) (tree held.now) (comps_of targets.old) (comps_of targets.new)) }
{
    let Some((from, to)) = pair_parts(&comp.item) else {
        return Ok(());
    };
    let found = membership_indexed::<T>(alloc, from, held, index, size, comp.binders)?;
    if found.len() == 0 {
        return Ok(());
    }
    let guard = meet(alloc, &comp.guard, &found)?;
    let item = to.copy(alloc)?;
    push_comp(
        targets,
        Comp {
            binders: comp.binders,
            guard,
            item,
        },
    )
}
