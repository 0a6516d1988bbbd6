//! Orbits of steps as edges between nodes.

ghost use Rattle.std.specs.Prelude.{◌≡◌, length, map, IfOk, OnOk};
ghost use Rattle.std.specs.List.{All};
ghost use Rattle.lois_base.specs.Over.{IsOver};
ghost use Rattle.lois_base.specs.Tree.{tree};
ghost use Rattle.lois_base.specs.Truth.{sampled};
ghost use Rattle.lois_base.specs.Values.{point};
ghost use Rattle.lois_census.specs.Left.{IsUsable};
ghost use Rattle.lois_census.specs.OrbitView.{orbit_of};
ghost use Rattle.lois_census.specs.Orbits.{IsInListedOrbit};
ghost use Rattle.lois_picture.specs.Drawing.{TellsOrbit, LiesInNode, HasListedEnds, IsEdgeOf, shapes_of};
ghost use Rattle.lois_picture.specs.EdgeView.{edge_of};
ghost use Rattle.lois_picture.specs.Graphs.{node_orbits, edge_orbits, HasItsEnds};
ghost use Rattle.lois_picture.specs.NodeView.{node_of};

use crate::ends::ends_of;
use crate::graphs::{Edge, Edges, Node, Nodes};
use crate::marks::copy_orbit;
use lois_base::{NoMemory, Structure, Term};
use lois_census::{Orbit, Orbits, in_orbit};
use lois_terms::{Index, shape};
use std::alloc::Global;

/// An edge for each of the orbits, in order, whose steps lead from values in the nodes to values in the nodes.
pub fn link_nodes<T: Structure>(
    alloc: Global,
    moves: &Orbits,
    nodes: &Nodes,
) -> Result<Edges, NoMemory>
    requires moves { All (IsUsable T.ordered) moves.now }
    requires nodes { All (λ v. IsUsable T.ordered v.orbit) nodes.now }
    requires listed { All (HasListedEnds T.ordered nodes.now) moves.now }
    ensures orbits { IfOk result (λ r. edge_orbits r ≡ moves.now) }
    ensures ends { IfOk result (All (HasItsEnds T.ordered nodes.now)) }
{
    let shapes = index_shapes(alloc, nodes)?;
    let mut edges = Edges::new(alloc);
    for orbit in moves.as_slice() {
        let edge = make_edge::<T>(alloc, orbit, nodes, &shapes)?;
        edges.push(edge)?;
    }
    Ok(edges)
}

fn index_shapes(alloc: Global, nodes: &Nodes) -> Result<Index, NoMemory>
    ensures { IfOk result (λ r. r ≡ shapes_of nodes.now) }
{
    let mut shapes = Index::new(alloc);
    for node in nodes.as_slice() {
        shapes.push(alloc, shape(&node.orbit.item))?;
    }
    Ok(shapes)
}

fn make_edge<T: Structure>(
    alloc: Global,
    orbit: &Orbit,
    nodes: &Nodes,
    shapes: &Index,
) -> Result<Edge, NoMemory>
    requires usable { IsUsable T.ordered (orbit_of orbit.now) }
    requires nodes { All (λ v. IsUsable T.ordered v.orbit) nodes.now }
    requires shapes { shapes.now ≡ shapes_of nodes.now }
    requires listed { HasListedEnds T.ordered nodes.now (orbit_of orbit.now) }
    ensures { IfOk result (λ r. IsEdgeOf T.ordered nodes.now (orbit_of orbit.now) (edge_of r)) }
{
    let Some(ends) = ends_of(&orbit.item) else {
        unreachable!()
    };
    let sample = orbit.sample.as_slice();
    let from = find_node::<T>(alloc, ends.source, sample, nodes, shapes)?;
    let to = find_node::<T>(alloc, ends.target, sample, nodes, shapes)?;
    Ok(Edge {
        orbit: copy_orbit(alloc, orbit)?,
        from,
        to,
    })
}

// The number of the node, from 1, that has the value of the term at the sample. Only nodes of the value's shape are asked.
fn find_node<T: Structure>(
    alloc: Global,
    t: &Term,
    sample: &[u64],
    nodes: &Nodes,
    shapes: &Index,
) -> Result<usize, NoMemory>
    requires over { IsOver T.ordered (length sample.now) (tree t.now) }
    requires nodes { All (λ v. IsUsable T.ordered v.orbit) nodes.now }
    requires shapes { shapes.now ≡ shapes_of nodes.now }
    requires listed { IsInListedOrbit T.ordered (node_orbits nodes.now) (point (tree t.now) (sampled sample.now)) }
    ensures { IfOk result (LiesInNode T.ordered nodes.now (tree t.now) sample.now) }
{
    let all = nodes.as_slice();
    for position in shapes.positions(shape(t)) {
        if lies_in::<T>(alloc, t, sample, &all[*position])? {
            return Ok(*position + 1);
        }
    }
    unreachable!()
}

// Whether the term's value is in the node, at the sample and at all choices alike to it.
fn lies_in<T: Structure>(
    alloc: Global,
    t: &Term,
    sample: &[u64],
    node: &Node,
) -> Result<bool, NoMemory>
    requires over { IsOver T.ordered (length sample.now) (tree t.now) }
    requires node { IsUsable T.ordered (orbit_of node.now.orbit) }
    ensures { IfOk result (TellsOrbit T.ordered (tree t.now) sample.now (orbit_of node.now.orbit)) }
{
    let inside = in_orbit::<T>(alloc, t, sample.len(), &node.orbit)?;
    Ok(inside.at(sample))
}
