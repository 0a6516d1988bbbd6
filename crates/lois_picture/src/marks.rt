//! Orbits as nodes, with their marks.

ghost use Rattle.std.specs.Prelude.{◌≡◌, IfOk};
ghost use Rattle.std.specs.List.{All};
ghost use Rattle.lois_base.specs.Tree.{tree};
ghost use Rattle.lois_census.specs.Left.{IsUsable};
ghost use Rattle.lois_census.specs.OrbitView.{orbit_of};
ghost use Rattle.lois_picture.specs.Drawing.{IsClosedSet};
ghost use Rattle.lois_picture.specs.Graphs.{node_orbits, IsMarkOf};
ghost use Rattle.lois_picture.specs.NodeView.{node_of};

use crate::graphs::{Node, Nodes};
use lois_automata::membership;
use lois_base::{NoMemory, Structure, Term};
use lois_census::{Orbit, Orbits};
use std::alloc::Global;

/// A node for each of the orbits, in order, with the marks of its values.
pub fn mark_nodes<T: Structure>(
    alloc: Global,
    orbits: &Orbits,
    starts: &Term,
    ends: &Term,
) -> Result<Nodes, NoMemory>
    requires usable { All (IsUsable T.ordered) orbits.now }
    requires initial { IsClosedSet T.ordered (tree starts.now) }
    requires accepting { IsClosedSet T.ordered (tree ends.now) }
    ensures orbits { IfOk result (λ r. node_orbits r ≡ orbits.now) }
    ensures initial { IfOk result (All (λ v. IsMarkOf T.ordered (tree starts.now) v.orbit v.initial)) }
    ensures accepting { IfOk result (All (λ v. IsMarkOf T.ordered (tree ends.now) v.orbit v.accepting)) }
{
    let mut nodes = Nodes::new(alloc);
    for orbit in orbits.as_slice() {
        let node = mark_node::<T>(alloc, orbit, starts, ends)?;
        nodes.push(node)?;
    }
    Ok(nodes)
}

fn mark_node<T: Structure>(
    alloc: Global,
    orbit: &Orbit,
    starts: &Term,
    ends: &Term,
) -> Result<Node, NoMemory>
    requires usable { IsUsable T.ordered (orbit_of orbit.now) }
    requires initial { IsClosedSet T.ordered (tree starts.now) }
    requires accepting { IsClosedSet T.ordered (tree ends.now) }
    ensures orbit { IfOk result (λ r. orbit_of r.orbit ≡ orbit_of orbit.now) }
    ensures initial { IfOk result (λ r. IsMarkOf T.ordered (tree starts.now) (orbit_of orbit.now) r.initial) }
    ensures accepting { IfOk result (λ r. IsMarkOf T.ordered (tree ends.now) (orbit_of orbit.now) r.accepting) }
{
    let initial = is_within::<T>(alloc, orbit, starts)?;
    let accepting = is_within::<T>(alloc, orbit, ends)?;
    Ok(Node {
        orbit: copy_orbit(alloc, orbit)?,
        initial,
        accepting,
    })
}

/// An equal orbit.
pub fn copy_orbit(alloc: Global, orbit: &Orbit) -> Result<Orbit, NoMemory>
    ensures { IfOk result (λ r. orbit_of r ≡ orbit_of orbit.now) }
{
    Ok(Orbit {
        item: orbit.item.copy(alloc)?,
        sample: orbit.sample.copy(alloc)?,
    })
}

// Whether the orbit's values are in the set: all of them are, or none is.
fn is_within<T: Structure>(alloc: Global, orbit: &Orbit, set: &Term) -> Result<bool, NoMemory>
    requires usable { IsUsable T.ordered (orbit_of orbit.now) }
    requires set { IsClosedSet T.ordered (tree set.now) }
    ensures { IfOk result (IsMarkOf T.ordered (tree set.now) (orbit_of orbit.now)) }
{
    let sample = orbit.sample.as_slice();
    let found = membership::<T>(alloc, &orbit.item, set, 0, sample.len())?;
    Ok(found.at(sample))
}
