//! Graphs: their nodes and edges, and lists of both.

ghost use Rattle.std.specs.Prelude.{◌≡◌, [], ◌∷◌, ◌++◌, length, map, slice_get, option_map, OnOk, OnErr};

use lois_base::NoMemory;
use lois_census::Orbit;
use std::alloc::Global;
use std::marker::Model;

/// An orbit of states, or of the ends of pairs, and whether its values are initial and accepting.
#[derive(Drop)]
pub struct Node {
    pub orbit: Orbit,
    pub initial: bool,
    pub accepting: bool,
}

/// An orbit of steps, or of pairs, with the numbers of the nodes that it leaves and enters, counted from 1.
#[derive(Drop)]
pub struct Edge {
    pub orbit: Orbit,
    pub from: usize,
    pub to: usize,
}

/// A list of nodes.
#[derive(Drop)]
pub struct Nodes {
    items: Vec<Node>,
}

impl Model for Nodes {
    ghost use Rattle.std.specs.Prelude.{List, map};
    ghost use Rattle.lois_picture.specs.GraphData.{NodeD, nodes_code};
    ghost use Rattle.lois_picture.specs.NodeView.{node_of};

    ghost Value = { List NodeD };

    ghost coded = { nodes_code };

    ghost view = { λ a. map node_of a.items.items };
}

/// A list of edges.
#[derive(Drop)]
pub struct Edges {
    items: Vec<Edge>,
}

impl Model for Edges {
    ghost use Rattle.std.specs.Prelude.{List, map};
    ghost use Rattle.lois_picture.specs.GraphData.{EdgeD, edges_code};
    ghost use Rattle.lois_picture.specs.EdgeView.{edge_of};

    ghost Value = { List EdgeD };

    ghost coded = { edges_code };

    ghost view = { λ a. map edge_of a.items.items };
}

/// A graph of orbits.
#[derive(Drop)]
pub struct Graph {
    pub nodes: Nodes,
    pub edges: Edges,
}

impl Nodes {
    ghost use Rattle.lois_picture.specs.NodeView.{node_of};

    /// No nodes.
    pub fn new(alloc: Global) -> Self
        ensures empty { result ≡ [] }
    {
        Nodes {
            items: Vec::new(alloc),
        }
    }

    /// How many nodes there are.
    pub fn len(&self) -> usize
        ensures counted { result ≡ length self.now }
    {
        self.items.len()
    }

    /// The node at an index, counted from 0, if there is one.
    pub fn get(&self, index: usize) -> Option<&Node>
        ensures item { option_map (λ v. node_of v.now) result ≡ slice_get self.now index }
    {
        self.items.get(index)
    }

    /// The nodes, first to last.
    pub fn as_slice(&self) -> &[Node]
        ensures items { map node_of result.now ≡ self.now }
    {
        &self.items
    }

    /// Puts a node at the end; fails for want of memory alone, and then nothing has changed.
    pub fn push(&mut self, item: Node) -> Result<(), NoMemory>
        ensures appended { OnOk result (self.new ≡ self.old ++ node_of item ∷ []) }
        ensures unchanged { OnErr result (self.new ≡ self.old) }
    {
        self.items.push(item).map_err(|_| NoMemory)
    }
}

impl Edges {
    ghost use Rattle.lois_picture.specs.EdgeView.{edge_of};

    /// No edges.
    pub fn new(alloc: Global) -> Self
        ensures empty { result ≡ [] }
    {
        Edges {
            items: Vec::new(alloc),
        }
    }

    /// How many edges there are.
    pub fn len(&self) -> usize
        ensures counted { result ≡ length self.now }
    {
        self.items.len()
    }

    /// The edge at an index, counted from 0, if there is one.
    pub fn get(&self, index: usize) -> Option<&Edge>
        ensures item { option_map (λ e. edge_of e.now) result ≡ slice_get self.now index }
    {
        self.items.get(index)
    }

    /// The edges, first to last.
    pub fn as_slice(&self) -> &[Edge]
        ensures items { map edge_of result.now ≡ self.now }
    {
        &self.items
    }

    /// Puts an edge at the end; fails for want of memory alone, and then nothing has changed.
    pub fn push(&mut self, item: Edge) -> Result<(), NoMemory>
        ensures appended { OnOk result (self.new ≡ self.old ++ edge_of item ∷ []) }
        ensures unchanged { OnErr result (self.new ≡ self.old) }
    {
        self.items.push(item).map_err(|_| NoMemory)
    }
}
