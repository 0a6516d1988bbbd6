//! Steps between classes.

ghost use Rattle.std.specs.Prelude.{◌≡◌, ℕ, Bool, IsTrue, List, length, map, slice_get, Some, IfOk, IfSome, IfNone, OnOk};
ghost use Rattle.lois_base.specs.Atom.{Atom};
ghost use Rattle.lois_base.specs.Data.{TermD, CompD, coll, comps_of};
ghost use Rattle.lois_base.specs.Fits.{Fits, CompFits, ItemsFit};
ghost use Rattle.lois_base.specs.Over.{ItemsAreOver};
ghost use Rattle.lois_base.specs.Tree.{tree, comp_of};
ghost use Rattle.lois_base.specs.Validity.{AdmitsTerm, AdmitsItems, HasBoundedWidths, ItemsHaveBoundedWidths};
ghost use Rattle.lois_base.specs.Values.{point};
ghost use Rattle.lois_terms.specs.Collections.{IsColl};
ghost use Rattle.lois_terms.specs.Shapes.{shape_of, item_shape};
ghost use Rattle.lois_automata.specs.Projections.{AddsOfOne, pair_of, triple_of};
ghost use Rattle.lois_minimise.specs.Classes.{AreClassSteps, AreStepMoves, AreTransitions, AddsTransition, AddsTransitions, IsStepMove, transition_of};

use crate::indexed::targets_in;
use lois_algebra::push_comp;
use lois_automata::{pair_comps, pair_of_terms, pair_parts, pairs, triple};
use lois_base::{Comp, Comps, NoMemory, Structure, Term};
use lois_terms::{Index, index_by_shape, shape};
use std::alloc::Global;

// A pair of a state with its class and a letter, and a pair of a state with its class.
#[derive(Clone, Copy)]
struct Transition<'a> {
    source: &'a Term,
    class: &'a Term,
    letter: &'a Term,
    target: &'a Term,
    next: &'a Term,
}

/// A step for each step between states: from the class that the pairs have for its source to the one that they have for its
/// target.
pub fn class_steps<T: Structure>(
    alloc: Global,
    classes: &Comps,
    letters: &Comps,
    steps: &Comps,
    size: usize,
) -> Result<Term, NoMemory>
    requires classes { ItemsAreOver T.ordered size (comps_of classes.now) }
    requires letters { ItemsAreOver T.ordered size (comps_of letters.now) }
    requires steps { ItemsAreOver T.ordered size (comps_of steps.now) }
    ensures steps { IfOk result (λ r. (c : List Atom) → length c ≡ size → AreClassSteps (point (coll (comps_of classes.now)) c) (point (coll (comps_of letters.now)) c) (point (coll (comps_of steps.now)) c) (point (tree r) c)) }
    ensures set { IfOk result (λ r. IsColl (tree r)) }
    ensures levels { IfOk result (λ r. Fits size (tree r)) }
    ensures operators { IfOk result (λ r. (o : Bool) → AdmitsItems o (comps_of classes.now) → AdmitsItems o (comps_of letters.now) → AdmitsItems o (comps_of steps.now) → AdmitsTerm o (tree r)) }
    ensures widths { IfOk result (λ r. ItemsHaveBoundedWidths (comps_of classes.now) → ItemsHaveBoundedWidths (comps_of letters.now) → HasBoundedWidths (tree r)) }
{
    let Term::Coll(reads) = pairs(alloc, classes, letters, size)? else {
        unreachable!()
    };
    let both = transitions(alloc, &reads, classes, steps, size)?;
    let moves = step_moves(alloc, &both)?;
    let between = targets_in::<T>(alloc, &moves, steps, size)?;
    Ok(Term::Coll(between))
}

// The pairs of a read, which is a pair of a state with its class and a letter, and a state with its class, without those that no
// step has the shape of: there are few steps beside these pairs.
fn transitions(
    alloc: Global,
    reads: &Comps,
    classes: &Comps,
    steps: &Comps,
    size: usize,
) -> Result<Comps, NoMemory>
    requires reads { ItemsFit size (comps_of reads.now) }
    requires classes { ItemsFit size (comps_of classes.now) }
    ensures members { IfOk result (λ r. AreTransitions size (coll (comps_of reads.now)) (coll (comps_of classes.now)) (coll (comps_of steps.now)) (coll (comps_of r))) }
    ensures levels { IfOk result (λ r. ItemsFit size (comps_of r)) }
    ensures operators { IfOk result (λ r. (o : Bool) → AdmitsItems o (comps_of reads.now) → AdmitsItems o (comps_of classes.now) → AdmitsItems o (comps_of r)) }
    ensures widths { IfOk result (λ r. ItemsHaveBoundedWidths (comps_of reads.now) → ItemsHaveBoundedWidths (comps_of classes.now) → ItemsHaveBoundedWidths (comps_of r)) }
{
    let shapes = index_by_shape(alloc, steps.as_slice())?;
    let mut made = Comps::new(alloc);
    for read in reads.as_slice() {
        add_transitions(alloc, &mut made, read, classes, &shapes, size)?;
    }
    Ok(made)
}

fn add_transitions(
    alloc: Global,
    made: &mut Comps,
    read: &Comp,
    classes: &Comps,
    shapes: &Index,
    size: usize,
) -> Result<(), NoMemory>
    requires read { CompFits size (comp_of read.now) }
    requires classes { ItemsFit size (comps_of classes.now) }
    ensures { OnOk result ((steps : List CompD) → shapes.now ≡ map item_shape steps → AddsTransitions size (comp_of read.now) (comps_of classes.now) (coll (comps_of steps)) (comps_of made.old) (comps_of made.new)) }
{
    for class in classes.as_slice() {
        add_transition(alloc, made, read, class, shapes, size)?;
    }
    Ok(())
}

fn add_transition(
    alloc: Global,
    made: &mut Comps,
    read: &Comp,
    class: &Comp,
    shapes: &Index,
    size: usize,
) -> Result<(), NoMemory>
    requires read { CompFits size (comp_of read.now) }
    requires class { CompFits size (comp_of class.now) }
    ensures { OnOk result ((steps : List CompD) → shapes.now ≡ map item_shape steps → AddsTransition size (comp_of read.now) (comp_of class.now) (coll (comps_of steps)) (comps_of made.old) (comps_of made.new)) }
{
    if !is_step_shape(alloc, &read.item, &class.item, shapes)? {
        return Ok(());
    }
    let both = pair_comps(alloc, read, class, size)?;
    let item = pair_of_terms(alloc, both.first, both.second)?;
    push_comp(
        made,
        Comp {
            binders: both.binders,
            guard: both.guard,
            item,
        },
    )
}

// Whether one of the shapes is that of a step from the state of the read to the state of the class.
fn is_step_shape(alloc: Global, read: &Term, class: &Term, shapes: &Index) -> Result<bool, NoMemory>
    ensures { IfOk result (λ b. (q x l r z : TermD) (i : ℕ) → tree read.now ≡ pair_of (pair_of q x) l → tree class.now ≡ pair_of r z → slice_get shapes.now i ≡ Some (shape_of (triple_of q l r)) → IsTrue b) }
{
    let Some((from, letter)) = pair_parts(read) else {
        return Ok(false);
    };
    let Some((source, _)) = pair_parts(from) else {
        return Ok(false);
    };
    let Some((target, _)) = pair_parts(class) else {
        return Ok(false);
    };
    let step = triple(alloc, source, letter, target)?;
    Ok(shapes.positions(shape(&step)).len() > 0)
}

// Of each transition, the pair of the step between its states and the step between their classes.
fn step_moves(alloc: Global, transitions: &Comps) -> Result<Comps, NoMemory>
    ensures moves { IfOk result (λ r. (n : ℕ) → AreStepMoves n (coll (comps_of transitions.now)) (coll (comps_of r))) }
    ensures levels { IfOk result (λ r. (n : ℕ) → ItemsFit n (comps_of transitions.now) → ItemsFit n (comps_of r)) }
    ensures operators { IfOk result (λ r. (o : Bool) → AdmitsItems o (comps_of transitions.now) → AdmitsItems o (comps_of r)) }
    ensures widths { IfOk result (λ r. ItemsHaveBoundedWidths (comps_of transitions.now) → ItemsHaveBoundedWidths (comps_of r)) }
{
    let mut moves = Comps::new(alloc);
    for comp in transitions.as_slice() {
        add_move(alloc, &mut moves, comp)?;
    }
    Ok(moves)
}

fn add_move(alloc: Global, moves: &mut Comps, comp: &Comp) -> Result<(), NoMemory>
    ensures { OnOk result ((n : ℕ) → AddsOfOne IsStepMove n (comp_of comp.now) (comps_of moves.old) (comps_of moves.new)) }
{
    let Some(parts) = transition_parts(&comp.item) else {
        return Ok(());
    };
    let item = step_move(alloc, parts)?;
    let guard = comp.guard.copy(alloc)?;
    push_comp(
        moves,
        Comp {
            binders: comp.binders,
            guard,
            item,
        },
    )
}

fn step_move(alloc: Global, parts: Transition<'_>) -> Result<Term, NoMemory>
    ensures { IfOk result (λ r. tree r ≡ pair_of (triple_of (tree parts.entry.source.now) (tree parts.entry.letter.now) (tree parts.entry.target.now)) (triple_of (tree parts.entry.class.now) (tree parts.entry.letter.now) (tree parts.entry.next.now))) }
{
    let step = triple(alloc, parts.source, parts.letter, parts.target)?;
    let between = triple(alloc, parts.class, parts.letter, parts.next)?;
    pair_of_terms(alloc, step, between)
}

fn transition_parts(t: &Term) -> Option<Transition<'_>>
    ensures some { IfSome result (λ p. tree t.now ≡ transition_of (tree p.source.now) (tree p.class.now) (tree p.letter.now) (tree p.target.now) (tree p.next.now)) }
    ensures none { IfNone result ((q x l r z : TermD) → tree t.now ≡ transition_of q x l r z → ⊥) }
{
    let (read, to) = pair_parts(t)?;
    let (from, letter) = pair_parts(read)?;
    let (source, class) = pair_parts(from)?;
    let (target, next) = pair_parts(to)?;
    Some(Transition {
        source,
        class,
        letter,
        target,
        next,
    })
}
