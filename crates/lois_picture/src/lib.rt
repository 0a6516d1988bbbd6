//! Pictures of results: the graph of an automaton or of a binary relation, one node for each orbit of states or of ends of pairs, and
//! one edge for each orbit of steps or of pairs.
#![tactic(auto)]

mod drawing;
mod ends;
mod graphs;
mod linking;
mod marks;
mod pictures;
mod relations;
mod texts;

pub use graphs::{Edge, Edges, Graph, Node, Nodes};
pub use pictures::{Picture, PictureFault, draw};
pub use texts::print_graph;
