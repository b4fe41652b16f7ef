// What is noted of the nodes of a trail, place by place, so that a clash and the least open or-node cost no look at all
// of them.
ghost use Rattle.std.specs.Prelude.{◌≡◌, ◌<◌, ◌≤◌, ◌+◌, ◌⊎◌, ◌↔◌, ℕ, List, [], None, IfOk, IsTrue, length, get_or};
ghost use Rattle.ml_graph.specs.Graph.{size, node_at};
ghost use Rattle.ml_graph.specs.declared.node.Node.TheVariants.{Or};
ghost use Rattle.ml_sequent.specs.declared.choice.Side.{Side};
ghost use Rattle.ml_sequent.specs.private.ConnectedParts.{IsLeast};
ghost use Rattle.ml_sequent.specs.private.Descents.{Falls};
ghost use Rattle.ml_sequent.specs.private.Notes.{IsNoted, HasOpen, KeepsNotes, noted_first, cut_first, cut, with_candidates, IsOpenAt};
ghost use Rattle.ml_sequent.specs.private.Tournament.{Holds};

use crate::choice::Choice;
use crate::descent::Descent;
use crate::literals::Literals;
use crate::questions::is_open;
use crate::tournament::Tournament;
use crate::trail::Trail;
use ml_base::NoMemory;
use ml_graph::{ModalGraph, Node};
use std::alloc::Global;
use std::marker::Model;

/// How many places of a trail were noted, and of these: where its literals stand first; the first place with False or
/// with a literal whose opposite stands before it; the first one with a node that may lie on a cycle; and among other
/// numbers all or-nodes without a side.
#[derive(Drop)]
pub(crate) struct Notes {
    done: usize,
    literals: Literals,
    conflict: Option<usize>,
    suspect: Option<usize>,
    candidates: Tournament,
}

impl Model for Notes {
    ghost use Rattle.ml_sequent.specs.private.Notes.{NotesList};

    ghost Value = { NotesList };

    ghost view = { λ a. record {
      done = a.done;
      literals = a.literals;
      conflict = a.conflict;
      suspect = a.suspect;
      candidates = a.candidates;
    } };
}

impl Notes {
    /// Nothing is noted yet.
    pub fn new(alloc: Global, graph: &ModalGraph) -> Result<Notes, NoMemory>
        ensures { IfOk result (λ notes. (ranks : List ℕ) (choice : List (ℕ × Side)) (nodes : List ℕ)
            → KeepsNotes graph.now ranks choice nodes notes) }
    {
        Ok(Notes {
            done: 0,
            literals: Literals::new(alloc, graph)?,
            conflict: None,
            suspect: None,
            candidates: Tournament::new(alloc, graph.size())?,
        })
    }

    /// Notes all places of the trail that were not noted.
    pub fn note_all(&mut self, graph: &ModalGraph, descent: &Descent, trail: &Trail)
        requires room { trail.now.room ≡ size graph.now }
        requires falls { Falls graph.now descent.now }
        requires within { self.old.done ≤ length trail.now.nodes }
        requires noted { IsNoted graph.now descent.now trail.now.nodes self.old.done self.old }
        ensures done { self.new.done ≡ length trail.now.nodes }
        ensures noted { IsNoted graph.now descent.now trail.now.nodes self.new.done self.new }
        ensures has_open { (c : List (ℕ × Side)) → HasOpen graph.now c trail.now.nodes self.old.done self.old.candidates
            → HasOpen graph.now c trail.now.nodes self.new.done self.new.candidates }
    {
        while self.done < trail.len() {
            self.note(graph, descent, trail);
        }
    }

    /// Notes the next place.
    fn note(&mut self, graph: &ModalGraph, descent: &Descent, trail: &Trail)
        requires room { trail.now.room ≡ size graph.now }
        requires falls { Falls graph.now descent.now }
        requires place { self.old.done < length trail.now.nodes }
        requires noted { IsNoted graph.now descent.now trail.now.nodes self.old.done self.old }
        ensures done { self.new.done ≡ self.old.done + 1 }
        ensures noted { IsNoted graph.now descent.now trail.now.nodes (self.old.done + 1) self.new }
        ensures has_open { (c : List (ℕ × Side)) → HasOpen graph.now c trail.now.nodes self.old.done self.old.candidates
            → HasOpen graph.now c trail.now.nodes (self.old.done + 1) self.new.candidates }
    {
        let _len = trail.len();
        let place = self.done;
        let node = trail.node(place);
        let is_conflict = self.literals.note(graph, trail, place);
        self.conflict = noted_first(self.conflict, is_conflict, place);
        let is_suspect = descent.may_cycle(graph, node);
        self.suspect = noted_first(self.suspect, is_suspect, place);
        add_candidate(graph, node, &mut self.candidates);
        self.done = place + 1;
    }

    /// Forgets all from this place on.
    pub fn cut(&mut self, len: usize)
        ensures { self.new ≡ cut len self.old }
    {
        self.done = self.done.min(len);
        self.conflict = cut_first(self.conflict, len);
        self.suspect = cut_first(self.suspect, len);
    }

    /// How many places were noted.
    pub fn done(&self) -> usize
        ensures { result ≡ self.now.done }
    {
        self.done
    }

    /// Does a place that was noted have False, or a literal whose opposite stands before it?
    pub fn has_conflict(&self) -> bool
        ensures { IsTrue result ↔ (self.now.conflict ≡ None → ⊥) }
    {
        self.conflict.is_some()
    }

    /// Does one have a node that may lie on a cycle?
    pub fn has_suspect(&self) -> bool
        ensures { IsTrue result ↔ (self.now.suspect ≡ None → ⊥) }
    {
        self.suspect.is_some()
    }

    /// The least or-node of the trail without a side, among the candidates. Those before it are no candidates any more.
    pub fn least_open(&mut self, graph: &ModalGraph, choice: &Choice, trail: &Trail) -> Option<u32>
        requires room { trail.now.room ≡ size graph.now }
        requires candidates { self.old.candidates.room ≡ size graph.now }
        ensures others { self.new ≡ with_candidates self.new.candidates self.old }
        ensures room { self.new.candidates.room ≡ self.old.candidates.room }
        ensures kept { (n : ℕ) → Holds self.old.candidates n → IsOpenAt graph.now choice.now trail.now.nodes n
            → Holds self.new.candidates n }
        ensures least { IsLeast
            (λ n. Holds self.old.candidates n × IsOpenAt graph.now choice.now trail.now.nodes n) result }
    {
        least_open(graph, choice, trail, &mut self.candidates)
    }

    /// Makes the node a candidate again, whose side was taken back. It may be any number.
    pub fn reopen(&mut self, node: u32)
        ensures others { self.new ≡ with_candidates self.new.candidates self.old }
        ensures room { self.new.candidates.room ≡ self.old.candidates.room }
        ensures kept { (n : ℕ) → Holds self.old.candidates n → Holds self.new.candidates n }
        ensures added { node < self.old.candidates.room → Holds self.new.candidates node }
    {
        if node < self.candidates.room() {
            self.candidates.put(node);
        }
    }
}

/// Is this an or-node of the trail, without a side? It may be any number.
fn is_open_at(graph: &ModalGraph, choice: &Choice, trail: &Trail, node: u32) -> bool
    requires { trail.now.room ≡ size graph.now }
    ensures { IsTrue result ↔ IsOpenAt graph.now choice.now trail.now.nodes node }
{
    trail.contains(node) && is_open(graph, choice, node)
}

/// The least or-node of the trail without a side, among these candidates. Those before it are taken away.
fn least_open(
    graph: &ModalGraph,
    choice: &Choice,
    trail: &Trail,
    candidates: &mut Tournament,
) -> Option<u32>
    requires room { trail.now.room ≡ size graph.now }
    requires candidates { candidates.old.room ≡ size graph.now }
    ensures room { candidates.new.room ≡ candidates.old.room }
    ensures kept { (n : ℕ) → Holds candidates.old n → IsOpenAt graph.now choice.now trail.now.nodes n
        → Holds candidates.new n }
    ensures least { IsLeast
        (λ n. Holds candidates.old n × IsOpenAt graph.now choice.now trail.now.nodes n) result }
{
    let mut next = candidates.least();
    while let Some(node) = next {
        if is_open_at(graph, choice, trail, node) {
            return Some(node);
        }
        candidates.remove(node);
        next = candidates.least();
    }
    None
}

/// Adds a node, if it is an Or.
fn add_candidate(graph: &ModalGraph, node: u32, candidates: &mut Tournament)
    requires node { node < size graph.now }
    requires room { candidates.old.room ≡ size graph.now }
    ensures room { candidates.new.room ≡ candidates.old.room }
    ensures kept { (n : ℕ) → Holds candidates.old n → Holds candidates.new n }
    ensures added { (l r : ℕ) → node_at graph.now node ≡ Or l r → Holds candidates.new node }
{
    if matches!(*graph.node(node), Node::Or { .. }) {
        candidates.put(node);
    }
}

/// Where there was no such place before, this one, if it is one.
fn noted_first(found: Option<usize>, holds: bool, place: usize) -> Option<usize>
    ensures { result ≡ noted_first found holds place }
{
    match found {
        Some(first) => Some(first),
        None => { if holds { Some(place) } else { None } }
    }
}

/// The place, if it isn't behind the end.
fn cut_first(found: Option<usize>, len: usize) -> Option<usize>
    ensures { result ≡ cut_first found len }
{
    match found {
        Some(place) => { if place < len { Some(place) } else { None } }
        None => None,
    }
}
