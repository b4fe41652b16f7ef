// The search along local walks: it visits each place once, and its memory serves many searches.
ghost use Rattle.std.specs.Prelude.{◌≡◌, ◌+◌, ◌*◌, ◌<◌, ◌≤◌, ℕ, true, List, [], ◌∷◌, IfOk, OnOk, IsTrue, ◌↔◌, length, get_or, map, All};
ghost use Rattle.ml_lists.specs.Ascending.{ascending};
ghost use Rattle.ml_lists.specs.Member.{IsMember};
ghost use Rattle.ml_graph.specs.Graph.{size};
ghost use Rattle.ml_sequent.specs.LocalWalk.{children};
ghost use Rattle.ml_sequent.specs.declared.reach.Visit.{Visit};
ghost use Rattle.ml_sequent.specs.private.Reach.{mark, code, onto, onward, above, behind, unranked, ranked, IsVisited, IsSearch, HasReached, IsRanked, HasRoom, marked_nodes};

use crate::children::{LocalChildren, children};
use crate::choice::Choice;
use crate::levels::Levels;
use crate::sets::ascending;
use ml_base::NoMemory;
use ml_graph::ModalGraph;
use std::alloc::Global;
use std::marker::Model;

/// A place of the search: a node, and the rank of the lowest priority on the way there.
#[derive(Clone, Copy, Debug, PartialEq, Eq)]
pub(crate) struct Visit {
    pub node: u32,
    pub rank: u32,
}

/// A search: what it found, each place once, and marks for it. Contracts see the width, which is above all ranks, the
/// number of marks, and what was found.
#[derive(Drop)]
pub(crate) struct Reach {
    width: usize,
    marks: Vec<bool>,
    found: Vec<Visit>,
}

impl Model for Reach {
    ghost use Rattle.std.specs.Prelude.{length};
    ghost use Rattle.ml_sequent.specs.private.Reach.{ReachList, IsMarked};

    ghost Value = { ReachList };

    ghost view = { λ a. record { width = a.width; room = length a.marks.items; found = a.found.items } };

    ghost invariant = { λ a. IsMarked a.width a.marks.items a.found.items };
}

impl Reach {
    /// A search with room for so many nodes, each with ranks below `width`, that found nothing.
    pub fn new(alloc: Global, nodes: u32, width: u32) -> Result<Reach, NoMemory>
        ensures { IfOk result (λ reach. reach ≡ record { width = width; room = width * nodes; found = [] }) }
    {
        let marks = vec![in alloc; false; width as usize * nodes as usize]?;
        Ok(Reach {
            width: width as usize,
            marks,
            found: Vec::new(alloc),
        })
    }

    /// Forgets what was found.
    ///
    /// Cost: linear in what was found, where that is no more than an eighth of the marks; otherwise all marks are taken away.
    pub fn clear(&mut self)
        ensures { self.new ≡ record { width = self.old.width; room = self.old.room; found = [] } }
    {
        unmark(self.width, &self.found, &mut self.marks);
        self.found.clear();
    }

    /// Adds a place, if it is new.
    pub fn visit(&mut self, visit: Visit) -> Result<(), NoMemory>
        requires rank { visit.rank < self.old.width }
        requires room { self.old.width * visit.node + visit.rank < self.old.room }
        ensures width { self.new.width ≡ self.old.width }
        ensures room { self.new.room ≡ self.old.room }
        ensures visited { OnOk result (IsVisited (visit ∷ []) self.old.found self.new.found) }
    {
        let place = self.width * visit.node as usize + visit.rank as usize;
        if !self.marks[place] {
            self.found.push(visit)?;
            self.marks[place] = true;
        }
        Ok(())
    }

    /// Was the place found?
    pub fn has(&self, visit: Visit) -> bool
        requires rank { visit.rank < self.now.width }
        requires room { self.now.width * visit.node + visit.rank < self.now.room }
        ensures { IsTrue result ↔ IsMember visit self.now.found }
    {
        self.marks[self.width * visit.node as usize + visit.rank as usize]
    }

    /// What was found.
    pub fn found(&self) -> &[Visit]
        ensures value { result.now ≡ self.now.found }
        ensures few { length result.now ≤ self.now.room }
        ensures low { (v : Visit) → IsMember v result.now → (v.rank < self.now.width) × (code self.now.width v < self.now.room) }
    {
        &self.found
    }

    /// The nodes of the places that were found, ascending, where these have rank 0 in a graph of so many nodes.
    ///
    /// Cost: linear in the nodes of the graph where more than an eighth of them was found, and otherwise `n log n` in what
    /// was found.
    pub fn nodes(&self, alloc: Global, size: u32) -> Result<Vec<u32>, NoMemory>
        requires room { self.now.room ≡ self.now.width * size }
        requires ranks { All (λ v. v.rank ≡ 0) self.now.found }
        ensures { IfOk result (λ nodes. nodes.items ≡ ascending (map (λ v. v.node) self.now.found)) }
    {
        if self.found.len() > size as usize / 8 {
            return marked_nodes(alloc, self.width, &self.marks, size, self.found.len());
        }
        let nodes = self.found.iter().map(|v| v.node).collect(alloc)?;
        Ok(ascending(nodes))
    }
}

/// The nodes below `size` that are marked with rank 0, ascending. There is room at once for so many as `expected`.
fn marked_nodes(
    alloc: Global,
    width: usize,
    marks: &[bool],
    size: u32,
    expected: usize,
) -> Result<Vec<u32>, NoMemory>
    requires { (n : ℕ) → n < size → width * n < length marks.now }
    ensures { IfOk result (λ nodes. nodes.items ≡ marked_nodes width marks.now size) }
{
    let mut nodes = Vec::with_capacity(alloc, expected)?;
    for node in 0..size {
        if marks[width * node as usize] {
            nodes.push(node)?;
        }
    }
    Ok(nodes)
}

/// Takes away the marks of these places, or all of them if these are a good part.
fn unmark(width: usize, found: &[Visit], marks: &mut Vec<bool>)
    requires { All (λ v. code width v < length marks.old.items) found.now }
    ensures size { length marks.new.items ≡ length marks.old.items }
    ensures unmarked { (m : ℕ) → mark marks.new.items m ≡ true
        → (mark marks.old.items m ≡ true) × ((v : Visit) → IsMember v found.now → m ≡ code width v → ⊥) }
{
    if found.len() > marks.len() / 8 {
        marks.fill(false);
        return;
    }
    for visit in found {
        marks[width * visit.node as usize + visit.rank as usize] = false;
    }
}

/// Visits the place at a node that is entered with a rank, unless its rank is below the floor.
fn visit_onto(
    graph: &ModalGraph,
    levels: &Levels,
    floor: u32,
    rank: u32,
    node: u32,
    reach: &mut Reach,
) -> Result<(), NoMemory>
    requires node { node < size graph.now }
    requires ranked { IsRanked graph.now levels.now }
    requires room { HasRoom graph.now levels.now reach.old }
    ensures room { HasRoom graph.now levels.now reach.new }
    ensures visited { OnOk result (IsVisited (above floor (onto levels.now.ranks rank node ∷ [])) reach.old.found reach.new.found) }
{
    graph.keeps();
    let rank = rank.min(levels.rank(node));
    if rank < floor {
        return Ok(());
    }
    reach.visit(Visit { node, rank })
}

/// Visits the places to which the search goes on, but for those with ranks below the floor.
fn go_on(
    graph: &ModalGraph,
    choice: &Choice,
    levels: &Levels,
    floor: u32,
    visit: Visit,
    reach: &mut Reach,
) -> Result<(), NoMemory>
    requires node { visit.node < size graph.now }
    requires ranked { IsRanked graph.now levels.now }
    requires room { HasRoom graph.now levels.now reach.old }
    ensures room { HasRoom graph.now levels.now reach.new }
    ensures visited { OnOk result (IsVisited (behind graph.now choice.now levels.now.ranks floor visit) reach.old.found reach.new.found) }
{
    match children(graph, choice, visit.node) {
        LocalChildren::Leaf => Ok(()),
        LocalChildren::One(child) => visit_onto(graph, levels, floor, visit.rank, child, reach),
        LocalChildren::Two(left, right) => {
            visit_onto(graph, levels, floor, visit.rank, left, reach)?;
            visit_onto(graph, levels, floor, visit.rank, right, reach)
        }
    }
}

/// Goes on from all that was found behind the first `done` places, until nothing is new.
fn finish(
    graph: &ModalGraph,
    choice: &Choice,
    levels: &Levels,
    floor: u32,
    done: usize,
    reach: &mut Reach,
) -> Result<(), NoMemory>
    requires ranked { IsRanked graph.now levels.now }
    requires room { HasRoom graph.now levels.now reach.old }
    ensures room { HasRoom graph.now levels.now reach.new }
    ensures reached { OnOk result ((C : List Visit)
        → IsSearch (behind graph.now choice.now levels.now.ranks floor) C done reach.old.found
        → HasReached (behind graph.now choice.now levels.now.ranks floor) C reach.new.found) }
{
    let mut i = done;
    while i < reach.found().len() {
        let visit = reach.found()[i];
        go_on(graph, choice, levels, floor, visit, reach)?;
        i += 1;
    }
    Ok(())
}

/// Visits these nodes with rank 0, and forgets what was found before.
fn visit_all(
    graph: &ModalGraph,
    levels: &Levels,
    nodes: &[u32],
    reach: &mut Reach,
) -> Result<(), NoMemory>
    requires nodes { All (λ n. n < size graph.now) nodes.now }
    requires ranked { IsRanked graph.now levels.now }
    requires room { HasRoom graph.now levels.now reach.old }
    ensures room { HasRoom graph.now levels.now reach.new }
    ensures visited { OnOk result (IsVisited (map unranked nodes.now) [] reach.new.found) }
{
    reach.clear();
    for node in nodes {
        reach.visit(Visit {
            node: *node,
            rank: 0,
        })?;
    }
    Ok(())
}

/// Finds what local walks reach from these nodes, with rank 0 throughout.
pub(crate) fn reach_all(
    graph: &ModalGraph,
    choice: &Choice,
    levels: &Levels,
    nodes: &[u32],
    reach: &mut Reach,
) -> Result<(), NoMemory>
    requires nodes { All (λ n. n < size graph.now) nodes.now }
    requires ranked { IsRanked graph.now levels.now }
    requires room { HasRoom graph.now levels.now reach.old }
    ensures room { HasRoom graph.now levels.now reach.new }
    ensures reached { OnOk result (HasReached (onward graph.now choice.now levels.now.ranks) (map unranked nodes.now) reach.new.found) }
{
    visit_all(graph, levels, nodes, reach)?;
    finish(graph, choice, levels, 0, 0, reach)
}

/// Finds what local walks reach from a child and these nodes, where these lead to one another and to the child alone: it
/// goes on from the child.
pub(crate) fn reach_more(
    graph: &ModalGraph,
    choice: &Choice,
    levels: &Levels,
    nodes: &[u32],
    child: u32,
    reach: &mut Reach,
) -> Result<(), NoMemory>
    requires nodes { All (λ n. n < size graph.now) nodes.now }
    requires closed { (n m : ℕ) → IsMember n nodes.now → IsMember m (children graph.now choice.now n) → IsMember m (child ∷ nodes.now) }
    requires child { child < size graph.now }
    requires ranked { IsRanked graph.now levels.now }
    requires room { HasRoom graph.now levels.now reach.old }
    ensures room { HasRoom graph.now levels.now reach.new }
    ensures reached { OnOk result (HasReached (onward graph.now choice.now levels.now.ranks) (map unranked (child ∷ nodes.now)) reach.new.found) }
{
    visit_all(graph, levels, nodes, reach)?;
    let done = reach.found().len();
    reach.visit(Visit {
        node: child,
        rank: 0,
    })?;
    finish(graph, choice, levels, 0, done, reach)
}

/// Finds what local walks reach from a node, with the ranks of the lowest priorities on them.
pub(crate) fn reach_from(
    graph: &ModalGraph,
    choice: &Choice,
    levels: &Levels,
    node: u32,
    reach: &mut Reach,
) -> Result<(), NoMemory>
    requires node { node < size graph.now }
    requires ranked { IsRanked graph.now levels.now }
    requires room { HasRoom graph.now levels.now reach.old }
    ensures room { HasRoom graph.now levels.now reach.new }
    ensures reached { OnOk result (HasReached (onward graph.now choice.now levels.now.ranks) (ranked levels.now.ranks node ∷ []) reach.new.found) }
{
    reach.clear();
    reach.visit(Visit {
        node,
        rank: levels.rank(node),
    })?;
    finish(graph, choice, levels, 0, 0, reach)
}

/// Finds what local walks reach from the children of a node through nodes of no lower priority; each place that it finds
/// has the rank of the node.
pub(crate) fn reach_behind(
    graph: &ModalGraph,
    choice: &Choice,
    levels: &Levels,
    node: u32,
    reach: &mut Reach,
) -> Result<(), NoMemory>
    requires node { node < size graph.now }
    requires ranked { IsRanked graph.now levels.now }
    requires room { HasRoom graph.now levels.now reach.old }
    ensures room { HasRoom graph.now levels.now reach.new }
    ensures reached { OnOk result (HasReached
        (behind graph.now choice.now levels.now.ranks (get_or levels.now.ranks node 0))
        (behind graph.now choice.now levels.now.ranks (get_or levels.now.ranks node 0) (ranked levels.now.ranks node))
        reach.new.found) }
{
    reach.clear();
    let floor = levels.rank(node);
    go_on(
        graph,
        choice,
        levels,
        floor,
        Visit { node, rank: floor },
        reach,
    )?;
    finish(graph, choice, levels, floor, 0, reach)
}
