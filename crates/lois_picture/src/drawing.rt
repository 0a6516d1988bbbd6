//! The graph of an automaton or of a set of pairs.

ghost use Rattle.std.specs.Prelude.{◌≡◌, [], IfOk};
ghost use Rattle.lois_base.specs.Data.{coll, comps_of};
ghost use Rattle.lois_base.specs.Over.{IsOver};
ghost use Rattle.lois_base.specs.Tree.{tree};
ghost use Rattle.lois_base.specs.Values.{point};
ghost use Rattle.lois_automata.specs.Projections.{five_of};
ghost use Rattle.lois_deciders.specs.OnlyAsked.{HasOnlyAsked};
ghost use Rattle.lois_picture.specs.Drawing.{IsClosedSet, MovesJoin, IsGraphOrNone, IsRelationGraphOrNone};
ghost use Rattle.lois_picture.specs.Graphs.{IsGraphOf};

use crate::graphs::Graph;
use crate::linking::link_nodes;
use crate::marks::mark_nodes;
use crate::relations::ends_in;
use lois_automata::{FiveSets, Verdict, check_automaton, five};
use lois_base::{Comps, Constraint, Decider, NoMemory, Structure, Term};
use lois_census::census;
use lois_deciders::Chosen;
use std::alloc::Global;

/// The graph of a value without parameters, or `None` where it is neither an automaton nor a set of pairs.
pub fn draw_value<T: Structure>(
    alloc: Global,
    value: &Term,
    chosen: &mut Chosen,
) -> Result<Option<Graph>, NoMemory>
    requires over { IsOver T.ordered 0 (tree value.now) }
    ensures graph { IfOk result (IsGraphOrNone T.ordered (tree value.now)) }
    ensures only_asked { HasOnlyAsked (λ b. (⟦<dyn Decider as Decider>⟧ b.vtable).kind_of b.value) (λ b. (⟦<dyn Decider as Decider>⟧ b.vtable).questions b.value) chosen.old chosen.new }
{
    if let Some(sets) = five(value) {
        return draw_five::<T>(alloc, value, sets, chosen);
    }
    match value {
        Term::Coll(pairs) => draw_relation::<T>(alloc, pairs, chosen),
        _ => Ok(None),
    }
}

// The graph of a tuple of five sets, which is no set of pairs.
fn draw_five<T: Structure>(
    alloc: Global,
    value: &Term,
    sets: FiveSets<'_>,
    chosen: &mut Chosen,
) -> Result<Option<Graph>, NoMemory>
    requires over { IsOver T.ordered 0 (tree value.now) }
    requires five { tree value.now ≡ five_of (comps_of sets.states.now) (comps_of sets.letters.now) (comps_of sets.steps.now) (comps_of sets.initial.now) (comps_of sets.accepting.now) }
    ensures graph { IfOk result (IsGraphOrNone T.ordered (tree value.now)) }
    ensures only_asked { HasOnlyAsked (λ b. (⟦<dyn Decider as Decider>⟧ b.vtable).kind_of b.value) (λ b. (⟦<dyn Decider as Decider>⟧ b.vtable).questions b.value) chosen.old chosen.new }
{
    let always = Constraint::always(alloc)?;
    match check_automaton::<T>(alloc, value, &always, 0, chosen)? {
        Verdict::Fails(_) => Ok(None),
        Verdict::Holds => {
            let states = set_of(alloc, sets.states)?;
            let steps = set_of(alloc, sets.steps)?;
            let initial = set_of(alloc, sets.initial)?;
            let accepting = set_of(alloc, sets.accepting)?;
            let graph = draw_graph::<T>(alloc, &states, &steps, &initial, &accepting, chosen)?;
            Ok(Some(graph))
        }
    }
}

fn set_of(alloc: Global, comps: &Comps) -> Result<Term, NoMemory>
    ensures { IfOk result (λ r. tree r ≡ coll (comps_of comps.now)) }
{
    Ok(Term::Coll(comps.copy(alloc)?))
}

// The graph of a set of pairs, or `None` where some member is no pair. No node has a mark.
fn draw_relation<T: Structure>(
    alloc: Global,
    pairs: &Comps,
    chosen: &mut Chosen,
) -> Result<Option<Graph>, NoMemory>
    requires over { IsOver T.ordered 0 (coll (comps_of pairs.now)) }
    ensures graph { IfOk result (IsRelationGraphOrNone T.ordered (coll (comps_of pairs.now))) }
    ensures only_asked { HasOnlyAsked (λ b. (⟦<dyn Decider as Decider>⟧ b.vtable).kind_of b.value) (λ b. (⟦<dyn Decider as Decider>⟧ b.vtable).questions b.value) chosen.old chosen.new }
{
    let Some(ends) = ends_in::<T>(alloc, pairs, chosen)? else {
        return Ok(None);
    };
    let moves = set_of(alloc, pairs)?;
    let none = Term::Coll(Comps::new(alloc));
    let graph = draw_graph::<T>(alloc, &ends, &moves, &none, &none, chosen)?;
    Ok(Some(graph))
}

// The graph with a node for each orbit of `nodes` and an edge for each orbit of `moves`.
fn draw_graph<T: Structure>(
    alloc: Global,
    nodes: &Term,
    moves: &Term,
    initial: &Term,
    accepting: &Term,
    chosen: &mut Chosen,
) -> Result<Graph, NoMemory>
    requires nodes { IsClosedSet T.ordered (tree nodes.now) }
    requires moves { IsClosedSet T.ordered (tree moves.now) }
    requires initial { IsClosedSet T.ordered (tree initial.now) }
    requires accepting { IsClosedSet T.ordered (tree accepting.now) }
    requires joined { MovesJoin (point (tree nodes.now) []) (point (tree moves.now) []) }
    ensures graph { IfOk result (IsGraphOf T.ordered (tree nodes.now) (tree moves.now) (tree initial.now) (tree accepting.now)) }
    ensures only_asked { HasOnlyAsked (λ b. (⟦<dyn Decider as Decider>⟧ b.vtable).kind_of b.value) (λ b. (⟦<dyn Decider as Decider>⟧ b.vtable).questions b.value) chosen.old chosen.new }
{
    let orbits = census::<T>(alloc, nodes, chosen)?;
    let marked = mark_nodes::<T>(alloc, &orbits, initial, accepting)?;
    let moved = census::<T>(alloc, moves, chosen)?;
    let edges = link_nodes::<T>(alloc, &moved, &marked)?;
    Ok(Graph {
        nodes: marked,
        edges,
    })
}
