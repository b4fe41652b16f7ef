// The first places of literals on a trail. Where a trail is cut nothing has to be taken back: a place counts only where
// such a literal stands there.
ghost use Rattle.std.specs.Prelude.{◌≡◌, ◌<◌, ◌≤◌, ◌+◌, ◌↔◌, IfOk, IsTrue, ℕ, List, length, get_or};
ghost use Rattle.ml_graph.specs.Graph.{size, node_at};
ghost use Rattle.ml_graph.specs.declared.node.Node.TheVariants.{Lit};
ghost use Rattle.ml_sequent.specs.private.Notes.{HasLiteral, AreFirsts, HasFirsts, IsConflict};

use crate::trail::Trail;
use ml_base::NoMemory;
use ml_graph::{ModalGraph, Node};
use std::alloc::Global;
use std::marker::Model;

/// For each proposition the first place on a trail with a literal of it, for both signs; of others the place may be
/// any. Contracts see both lists.
#[derive(Drop)]
pub(crate) struct Literals {
    positives: Vec<usize>,
    negatives: Vec<usize>,
}

impl Model for Literals {
    ghost use Rattle.ml_sequent.specs.private.Notes.{LiteralList};

    ghost Value = { LiteralList };

    ghost view = { λ a. record { positives = a.positives.items; negatives = a.negatives.items } };
}

impl Literals {
    /// Nothing is noted yet.
    pub fn new(alloc: Global, graph: &ModalGraph) -> Result<Literals, NoMemory>
        ensures { IfOk result (λ literals. (nodes : List ℕ) → HasFirsts graph.now nodes 0 literals) }
    {
        let props = graph.props().len();
        Ok(Literals {
            positives: vec![in alloc; 0; props]?,
            negatives: vec![in alloc; 0; props]?,
        })
    }

    /// Notes the node at this place, behind all before it: does False stand there, or a literal whose opposite stands
    /// before it?
    pub fn note(&mut self, graph: &ModalGraph, trail: &Trail, place: usize) -> bool
        requires room { trail.now.room ≡ size graph.now }
        requires place { place < length trail.now.nodes }
        requires firsts { HasFirsts graph.now trail.now.nodes place self.old }
        ensures firsts { HasFirsts graph.now trail.now.nodes (place + 1) self.new }
        ensures conflict { IsTrue result ↔ IsConflict graph.now trail.now.nodes place }
    {
        graph.keeps();
        match *graph.node(trail.node(place)) {
            Node::False => true,
            Node::Lit {
                prop,
                positive: true,
            } => {
                note_first(graph, trail, &mut self.positives, place, prop, true);
                stands_before(graph, trail, &self.negatives, place, prop, false)
            }
            Node::Lit {
                prop,
                positive: false,
            } => {
                note_first(graph, trail, &mut self.negatives, place, prop, false);
                stands_before(graph, trail, &self.positives, place, prop, true)
            }
            _ => false,
        }
    }
}

/// Is this the literal of the proposition with the sign?
fn is_literal(node: Node, prop: u32, positive: bool) -> bool
    ensures { IsTrue result ↔ (node ≡ Lit prop positive) }
{
    match node {
        Node::Lit {
            prop: own,
            positive: sign,
        } => own == prop && sign == positive,
        _ => false,
    }
}

/// Does the literal stand before this place?
fn stands_before(
    graph: &ModalGraph,
    trail: &Trail,
    firsts: &[usize],
    place: usize,
    prop: u32,
    positive: bool,
) -> bool
    requires room { trail.now.room ≡ size graph.now }
    requires place { place ≤ length trail.now.nodes }
    requires prop { prop < length graph.now.props }
    requires firsts { AreFirsts graph.now trail.now.nodes place positive firsts.now }
    ensures { IsTrue result ↔ HasLiteral graph.now trail.now.nodes place prop positive }
{
    let first = firsts[prop as usize];
    if first >= place {
        return false;
    }
    is_literal(*graph.node(trail.node(first)), prop, positive)
}

/// Notes the literal that stands at this place.
fn note_first(
    graph: &ModalGraph,
    trail: &Trail,
    firsts: &mut Vec<usize>,
    place: usize,
    prop: u32,
    positive: bool,
)
    requires room { trail.now.room ≡ size graph.now }
    requires place { place ≤ length trail.now.nodes }
    requires prop { prop < length graph.now.props }
    requires here { node_at graph.now (get_or trail.now.nodes place 0) ≡ Lit prop positive }
    requires firsts { AreFirsts graph.now trail.now.nodes place positive firsts.old.items }
    ensures { AreFirsts graph.now trail.now.nodes (place + 1) positive firsts.new.items }
{
    if !stands_before(graph, trail, firsts, place, prop, positive) {
        firsts[prop as usize] = place;
    }
}
