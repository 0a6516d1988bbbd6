//! The text of a graph, in Graphviz' DOT.

ghost use Rattle.std.specs.Prelude.{◌≡◌, ◌++◌, ℕ, drop, length, map, IfOk, OnOk, codes};
ghost use Rattle.std.specs.List.{All, flat_map};
ghost use Rattle.lois_base.specs.Fits.{Fits};
ghost use Rattle.lois_base.specs.Tree.{tree};
ghost use Rattle.lois_census.specs.OrbitView.{orbit_of};
ghost use Rattle.lois_census.specs.Orbits.{FitsSample};
ghost use Rattle.lois_picture.specs.EdgeView.{edge_of};
ghost use Rattle.lois_picture.specs.GraphText.{number_name, named_text, node_label, label_at, end_text, ends_text, edge_label, marks_text, quoted, node_text, nodes_text, edge_text, graph_text};
ghost use Rattle.lois_picture.specs.Graphs.{edge_orbits, node_orbits, HasGraphText};
ghost use Rattle.lois_picture.specs.NodeView.{node_of};

use crate::graphs::{Edge, Edges, Graph, Node, Nodes};
use lois_automata::{pair_parts, step_parts};
use lois_base::{Name, Names, NoMemory, Numbers, Term};
use lois_census::Orbit;
use lois_printer::{append, append_number, append_term};
use std::alloc::Global;

/// The text of the graph, which Graphviz lays out: a line for each node, numbered from 1, and a line for each edge. Errors:
/// `NoMemory`.
pub fn print_graph(alloc: Global, graph: &Graph) -> Result<Vec<u8>, NoMemory>
    requires { HasGraphText graph.now }
    ensures text { IfOk result (λ t. t.items ≡ graph_text graph.now) }
{
    let mut text = Vec::new(alloc);
    append(&mut text, b"digraph {\n")?;
    let labels = append_nodes(alloc, &mut text, &graph.nodes)?;
    append_edges(alloc, &mut text, &labels, &graph.edges)?;
    append(&mut text, b"}\n")?;
    Ok(text)
}

// The lines of the nodes, and their labels, which those of the edges are compared with.
fn append_nodes(alloc: Global, text: &mut Vec<u8>, nodes: &Nodes) -> Result<Vec<Vec<u8>>, NoMemory>
    requires { All FitsSample (node_orbits nodes.now) }
    ensures appended { OnOk result (text.new.items ≡ text.old.items ++ nodes_text 1 nodes.now) }
    ensures labels { IfOk result (λ r. map (λ l. l.items) r.items ≡ map node_label nodes.now) }
{
    let mut labels = Vec::new(alloc);
    for (index, node) in nodes.as_slice().iter().enumerate() {
        let label = spell_node(alloc, &node.orbit)?;
        append_node(alloc, text, index + 1, node, &label)?;
        labels.push(label)?;
    }
    Ok(labels)
}

fn spell_node(alloc: Global, orbit: &Orbit) -> Result<Vec<u8>, NoMemory>
    requires { FitsSample (orbit_of orbit.now) }
    ensures { IfOk result (λ r. r.items ≡ named_text orbit.now.sample (tree orbit.now.item)) }
{
    let names = name_numbers(alloc, &orbit.sample)?;
    spell_term(alloc, &names, &orbit.sample, &orbit.item)
}

// A name for each number.
fn name_numbers(alloc: Global, sample: &Numbers) -> Result<Names, NoMemory>
    ensures { IfOk result (λ r. r ≡ map number_name sample.now) }
{
    let mut names = Names::new(alloc);
    for number in sample.as_slice() {
        names.push(name_number(alloc, *number)?)?;
    }
    Ok(names)
}

fn name_number(alloc: Global, number: u64) -> Result<Name, NoMemory>
    ensures { IfOk result (λ r. r ≡ number_name number) }
{
    let mut bytes = Vec::new(alloc);
    append(&mut bytes, b"x")?;
    append_number(alloc, &mut bytes, number)?;
    Name::from_bytes(alloc, &bytes)
}

// The term at the sample, whose numbers have these names.
fn spell_term(alloc: Global, names: &Names, sample: &Numbers, t: &Term) -> Result<Vec<u8>, NoMemory>
    requires names { names.now ≡ map number_name sample.now }
    requires levels { Fits (length sample.now) (tree t.now) }
    ensures { IfOk result (λ r. r.items ≡ named_text sample.now (tree t.now)) }
{
    let mut text = Vec::new(alloc);
    append_term(alloc, &mut text, names, sample.len(), t)?;
    Ok(text)
}

fn append_node(
    alloc: Global,
    text: &mut Vec<u8>,
    number: usize,
    node: &Node,
    label: &[u8],
) -> Result<(), NoMemory>
    requires { label.now ≡ node_label (node_of node.now) }
    ensures { OnOk result (text.new.items ≡ text.old.items ++ node_text number (node_of node.now)) }
{
    append(text, b"  n")?;
    append_number(alloc, text, number as u64)?;
    append(text, b" [")?;
    append_label(text, label)?;
    append_marks(text, node)?;
    append(text, b"]\n")
}

fn append_label(text: &mut Vec<u8>, label: &[u8]) -> Result<(), NoMemory>
    ensures { OnOk result (text.new.items ≡ text.old.items ++ quoted label.now) }
{
    append(text, b"label=\"")?;
    append(text, label)?;
    append(text, b"\"")
}

fn append_marks(text: &mut Vec<u8>, node: &Node) -> Result<(), NoMemory>
    ensures { OnOk result (text.new.items ≡ text.old.items ++ marks_text (node_of node.now)) }
{
    if node.initial {
        append(text, b", style=bold")?;
    }
    if node.accepting {
        append(text, b", peripheries=2")?;
    }
    Ok(())
}

fn append_edges(
    alloc: Global,
    text: &mut Vec<u8>,
    labels: &[Vec<u8>],
    edges: &Edges,
) -> Result<(), NoMemory>
    requires { All FitsSample (edge_orbits edges.now) }
    ensures { OnOk result (text.new.items ≡ text.old.items ++ flat_map (edge_text (map (λ l. l.items) labels.now)) edges.now) }
{
    for edge in edges.as_slice() {
        append_edge(alloc, text, labels, edge)?;
    }
    Ok(())
}

fn append_edge(
    alloc: Global,
    text: &mut Vec<u8>,
    labels: &[Vec<u8>],
    edge: &Edge,
) -> Result<(), NoMemory>
    requires { FitsSample (orbit_of edge.now.orbit) }
    ensures { OnOk result (text.new.items ≡ text.old.items ++ edge_text (map (λ l. l.items) labels.now) (edge_of edge.now)) }
{
    let label = spell_edge(alloc, labels, edge)?;
    append(text, b"  n")?;
    append_number(alloc, text, edge.from as u64)?;
    append(text, b" -> n")?;
    append_number(alloc, text, edge.to as u64)?;
    append(text, b" [")?;
    append_label(text, &label)?;
    append(text, b"]\n")
}

// The letter of a step and the ends that its nodes don't tell; of a pair the ends alone.
fn spell_edge(alloc: Global, labels: &[Vec<u8>], edge: &Edge) -> Result<Vec<u8>, NoMemory>
    requires { FitsSample (orbit_of edge.now.orbit) }
    ensures { IfOk result (λ r. r.items ≡ edge_label (map (λ l. l.items) labels.now) (edge_of edge.now)) }
{
    let sample = &edge.orbit.sample;
    let item = &edge.orbit.item;
    let names = name_numbers(alloc, sample)?;
    if let Some(step) = step_parts(item) {
        let mut label = spell_term(alloc, &names, sample, step.letter)?;
        let ends = spell_ends(alloc, labels, edge, &names, step.source, step.target)?;
        append(&mut label, &ends)?;
        return Ok(label);
    }
    if let Some((source, target)) = pair_parts(item) {
        let ends = spell_ends(alloc, labels, edge, &names, source, target)?;
        return without_first(alloc, &ends);
    }
    spell_term(alloc, &names, sample, item)
}

fn without_first(alloc: Global, text: &[u8]) -> Result<Vec<u8>, NoMemory>
    ensures { IfOk result (λ r. r.items ≡ drop 1 text.now) }
{
    let rest = match text {
        [_, rest @ ..] => rest,
        [] => &[],
    };
    Ok(Vec::from_slice(alloc, rest)?)
}

fn spell_ends(
    alloc: Global,
    labels: &[Vec<u8>],
    edge: &Edge,
    names: &Names,
    source: &Term,
    target: &Term,
) -> Result<Vec<u8>, NoMemory>
    requires names { names.now ≡ map number_name edge.now.orbit.sample }
    requires source { Fits (length edge.now.orbit.sample) (tree source.now) }
    requires target { Fits (length edge.now.orbit.sample) (tree target.now) }
    ensures { IfOk result (λ r. r.items ≡ ends_text (map (λ l. l.items) labels.now) (edge_of edge.now) (tree source.now) (tree target.now)) }
{
    let sample = &edge.orbit.sample;
    let leaves = spell_term(alloc, names, sample, source)?;
    let enters = spell_term(alloc, names, sample, target)?;
    let mut text = Vec::new(alloc);
    append_end(&mut text, b" from ", label_of(labels, edge.from), &leaves)?;
    append_end(&mut text, b" to ", label_of(labels, edge.to), &enters)?;
    Ok(text)
}

// The label of the node of that number, counted from 1.
fn label_of(labels: &[Vec<u8>], number: usize) -> &[u8]
    ensures { result.now ≡ label_at (map (λ l. l.items) labels.now) number }
{
    match labels.get(number.saturating_sub(1)) {
        Some(label) => label.as_slice(),
        None => &[],
    }
}

// An end of a step, unless it is spelled as its node's label.
fn append_end(text: &mut Vec<u8>, word: &[u8], label: &[u8], spelled: &[u8]) -> Result<(), NoMemory>
    ensures { OnOk result (text.new.items ≡ text.old.items ++ end_text word.now label.now spelled.now) }
{
    if label == spelled {
        return Ok(());
    }
    append(text, word)?;
    append(text, spelled)
}
