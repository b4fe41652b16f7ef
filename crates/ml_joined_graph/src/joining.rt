// Graphs put together, with Ands above.
ghost use Rattle.std.specs.Prelude.{◌≡◌, IfOk};
ghost use Rattle.std.specs.List.{IsDistinct};
ghost use Rattle.std.specs.Str.{bytes_eq};

use crate::conjunct::{Conjunct, graph_of};
use crate::totals::{Total, node_of, total_of};
use indexmap::IndexSet;
use ml_arrays::{NONE, more_numbers, number, put, small};
use ml_base::{Action, Name, NoMemory};
use ml_graph::{ModalGraph, Node};
use std::alloc::Global;

/// The priority of nodes that lie on no closed walk, or on one that no trace has to leave.
const PLAIN: u32 = 2;

/// How many nodes a graph may have.
const MOST: usize = u32::MAX as usize;

/// The graphs of conjuncts put together.
#[derive(Drop)]
pub(crate) struct Joined {
    pub graph: ModalGraph,
    /// Of each conjunct the node that stands for it, which no other one has.
    pub tops: Vec<u32>,
}

/// The nodes as they are put together.
#[derive(Drop)]
struct Nodes {
    nodes: Vec<Node>,
    priorities: Vec<u32>,
    /// The constants, each once, or `NONE`: False and True.
    constants: Vec<u32>,
    /// Of each proposition its literals, each once, or `NONE`: the negative and the positive one.
    literals: Vec<u32>,
    /// The node that asks each state for an edge, or `NONE`.
    total: u32,
    tops: Vec<u32>,
}

/// What the numbers of one graph become.
#[derive(Drop)]
struct Numbers {
    props: Vec<u32>,
    actions: Vec<u32>,
    nodes: Vec<u32>,
}

/// Writes the places of names among others, behind which they are put if they aren't there.
fn write_props(
    graph: &ModalGraph,
    all: &mut IndexSet<Name>,
    places: &mut Vec<u32>,
) -> Result<(), NoMemory>
    requires { IsDistinct bytes_eq all.old.keys }
    ensures { IsDistinct bytes_eq all.new.keys }
{
    places.clear();
    for name in graph.props() {
        let (place, _) = all.insert_full(name.copy()?)?;
        places.push(small(place))?;
    }
    Ok(())
}

/// The same of actions.
fn write_actions(
    graph: &ModalGraph,
    all: &mut IndexSet<Action>,
    places: &mut Vec<u32>,
) -> Result<(), NoMemory>
    requires { IsDistinct bytes_eq all.old.keys }
    ensures { IsDistinct bytes_eq all.new.keys }
{
    places.clear();
    for action in graph.actions() {
        let (place, _) = all.insert_full(action.copy()?)?;
        places.push(small(place))?;
    }
    Ok(())
}

impl Numbers {
    fn empty(alloc: Global) -> Numbers {
        Numbers {
            props: Vec::new(alloc),
            actions: Vec::new(alloc),
            nodes: Vec::new(alloc),
        }
    }

    /// A node with these numbers.
    fn node(&self, node: Node) -> Node {
        match node {
            Node::True | Node::False => node,
            Node::Lit { prop, positive } => Node::Lit {
                prop: number(&self.props, prop),
                positive,
            },
            Node::And { left, right } => Node::And {
                left: number(&self.nodes, left),
                right: number(&self.nodes, right),
            },
            Node::Or { left, right } => Node::Or {
                left: number(&self.nodes, left),
                right: number(&self.nodes, right),
            },
            Node::Diamond { action, to } => Node::Diamond {
                action: number(&self.actions, action),
                to: number(&self.nodes, to),
            },
            Node::Square { action, to } => Node::Square {
                action: number(&self.actions, action),
                to: number(&self.nodes, to),
            },
        }
    }
}

impl Nodes {
    fn empty(alloc: Global) -> Nodes {
        Nodes {
            nodes: Vec::new(alloc),
            priorities: Vec::new(alloc),
            constants: Vec::new(alloc),
            literals: Vec::new(alloc),
            total: NONE,
            tops: Vec::new(alloc),
        }
    }

    /// Adds a node; its number.
    fn push(&mut self, node: Node, priority: u32) -> Result<u32, NoMemory> {
        let number = small(self.nodes.len());
        self.nodes.push(node)?;
        self.priorities.push(priority)?;
        Ok(number)
    }

    fn constant(&mut self, value: bool) -> Result<u32, NoMemory> {
        more_numbers(&mut self.constants, 2, NONE)?;
        let place = if value { 1 } else { 0 };
        let known = number(&self.constants, place);
        if known != NONE {
            return Ok(known);
        }
        let new = self.push(if value { Node::True } else { Node::False }, PLAIN)?;
        put(&mut self.constants, place, new);
        Ok(new)
    }

    fn literal(&mut self, prop: u32, positive: bool) -> Result<u32, NoMemory> {
        let place = prop
            .saturating_mul(2)
            .saturating_add(if positive { 1 } else { 0 });
        more_numbers(&mut self.literals, (place as usize).saturating_add(1), NONE)?;
        let known = number(&self.literals, place);
        if known != NONE {
            return Ok(known);
        }
        let new = self.push(Node::Lit { prop, positive }, PLAIN)?;
        put(&mut self.literals, place, new);
        Ok(new)
    }

    /// The node that asks each state for an edge by an action.
    fn total(&mut self, action: u32) -> Result<u32, NoMemory> {
        if self.total == NONE {
            let to = self.constant(true)?;
            let has_edge = self.push(Node::Diamond { action, to }, PLAIN)?;
            let leads_on = has_edge.saturating_add(1);
            let total = leads_on.saturating_add(1);
            self.push(Node::Square { action, to: total }, PLAIN)?;
            self.push(
                Node::And {
                    left: has_edge,
                    right: leads_on,
                },
                PLAIN,
            )?;
            self.total = total;
        }
        Ok(self.total)
    }

    /// Puts in the graph of a conjunct, whose names have their numbers, with a node above it.
    fn put_in(&mut self, graph: &ModalGraph, numbers: &mut Numbers) -> Result<(), NoMemory> {
        let part = total_of(graph);
        numbers.nodes.clear();
        let first = self.nodes.len();
        self.number_all(graph, part, numbers)?;
        self.fill_all(graph, first, numbers);
        let start = match part {
            Some(part) => part.start,
            None => graph.root(),
        };
        let start = number(&numbers.nodes, start);
        let top = self.push(
            Node::And {
                left: start,
                right: start,
            },
            PLAIN,
        )?;
        self.tops.push(top)?;
        Ok(())
    }

    /// Gives each node its number.
    fn number_all(
        &mut self,
        graph: &ModalGraph,
        part: Option<Total>,
        numbers: &mut Numbers,
    ) -> Result<(), NoMemory> {
        let total = match part {
            Some(part) => self.total(number(&numbers.actions, part.action))?,
            None => NONE,
        };
        for (n, (node, priority)) in graph.nodes().iter().zip(graph.priorities()).enumerate() {
            let new = match part {
                Some(part) if part.has(graph, small(n)) => total,
                _ => self.number_one(*node, *priority, numbers)?,
            };
            numbers.nodes.push(new)?;
        }
        Ok(())
    }

    /// A constant or a literal has the number of the one that is known; any other node a new one, and waits.
    fn number_one(
        &mut self,
        node: Node,
        priority: u32,
        numbers: &Numbers,
    ) -> Result<u32, NoMemory> {
        match node {
            Node::True => self.constant(true),
            Node::False => self.constant(false),
            Node::Lit { prop, positive } => self.literal(number(&numbers.props, prop), positive),
            _ => self.push(node, priority),
        }
    }

    /// The nodes that wait, from this number on, lead to those of their numbers.
    fn fill_all(&mut self, graph: &ModalGraph, first: usize, numbers: &Numbers) {
        for (n, new) in numbers.nodes.iter().enumerate() {
            let node = node_of(graph, small(n));
            match node {
                Node::True | Node::False | Node::Lit { .. } => {}
                _ if (*new as usize) < first || *new == self.total => {}
                _ => self.fill_one(*new, numbers.node(node)),
            }
        }
    }

    fn fill_one(&mut self, n: u32, node: Node) {
        if let Some(place) = self.nodes.get_mut(n as usize) {
            *place = node;
        }
    }

    /// The node that says all of these, as a tree of Ands.
    fn conjunction(&mut self, alloc: Global) -> Result<u32, NoMemory> {
        let mut row = Vec::from_slice(alloc, &self.tops)?;
        if row.is_empty() {
            return self.constant(true);
        }
        for i in 0..usize::MAX {
            let (Some(left), Some(right)) = (
                row.get(i.saturating_mul(2)).copied(),
                row.get(i.saturating_mul(2).saturating_add(1)).copied(),
            ) else {
                break;
            };
            let both = self.push(Node::And { left, right }, PLAIN)?;
            row.push(both)?;
        }
        Ok(number(&row, small(row.len()).saturating_sub(1)))
    }

    /// The root: all conjuncts, and what is asked of each state.
    fn root(&mut self, alloc: Global) -> Result<u32, NoMemory> {
        let all = self.conjunction(alloc)?;
        if self.total == NONE {
            return Ok(all);
        }
        let right = self.total;
        self.push(Node::And { left: all, right }, PLAIN)
    }
}

/// The graph of these nodes and names; `None` where they make none.
fn built(
    alloc: Global,
    nodes: Vec<Node>,
    priorities: Vec<u32>,
    root: u32,
    props: IndexSet<Name>,
    actions: IndexSet<Action>,
) -> Result<Option<ModalGraph>, NoMemory>
    requires props { IsDistinct bytes_eq props.keys }
    requires actions { IsDistinct bytes_eq actions.keys }
{
    let props = props.into_iter().collect(alloc)?;
    let actions = actions.into_iter().collect(alloc)?;
    if nodes.len() > MOST || priorities.len() != nodes.len() {
        return Ok(None);
    }
    match ModalGraph::build(nodes, priorities, root, props, actions) {
        Ok(graph) => Ok(Some(graph)),
        Err(_) => Ok(None),
    }
}

/// Puts in the graph of a conjunct; tells whether its closure isn't too large.
fn put_one(
    alloc: Global,
    conjunct: Conjunct,
    nodes: &mut Nodes,
    props: &mut IndexSet<Name>,
    actions: &mut IndexSet<Action>,
    numbers: &mut Numbers,
) -> Result<bool, NoMemory>
    requires props { IsDistinct bytes_eq props.old.keys }
    requires actions { IsDistinct bytes_eq actions.old.keys }
    ensures props { IsDistinct bytes_eq props.new.keys }
    ensures actions { IsDistinct bytes_eq actions.new.keys }
{
    let Some(graph) = graph_of(alloc, conjunct)? else {
        return Ok(false);
    };
    put_graph(&graph, nodes, props, actions, numbers)?;
    Ok(true)
}

fn put_graph(
    graph: &ModalGraph,
    nodes: &mut Nodes,
    props: &mut IndexSet<Name>,
    actions: &mut IndexSet<Action>,
    numbers: &mut Numbers,
) -> Result<(), NoMemory>
    requires props { IsDistinct bytes_eq props.old.keys }
    requires actions { IsDistinct bytes_eq actions.old.keys }
    ensures props { IsDistinct bytes_eq props.new.keys }
    ensures actions { IsDistinct bytes_eq actions.new.keys }
{
    write_props(graph, props, &mut numbers.props)?;
    write_actions(graph, actions, &mut numbers.actions)?;
    nodes.put_in(graph, numbers)
}

/// Puts in the graphs of all conjuncts, one after the other; tells whether none of their closures is too large.
fn put_all(
    alloc: Global,
    conjuncts: &[Conjunct],
    nodes: &mut Nodes,
    props: &mut IndexSet<Name>,
    actions: &mut IndexSet<Action>,
) -> Result<bool, NoMemory>
    requires props { IsDistinct bytes_eq props.old.keys }
    requires actions { IsDistinct bytes_eq actions.old.keys }
    ensures props { IsDistinct bytes_eq props.new.keys }
    ensures actions { IsDistinct bytes_eq actions.new.keys }
{
    let mut numbers = Numbers::empty(alloc);
    for conjunct in conjuncts {
        if !put_one(alloc, *conjunct, nodes, props, actions, &mut numbers)? {
            return Ok(false);
        }
    }
    Ok(true)
}

/// The same, with the Ands above; the root, if none of the closures is too large.
fn fill(
    alloc: Global,
    conjuncts: &[Conjunct],
    nodes: &mut Nodes,
    props: &mut IndexSet<Name>,
    actions: &mut IndexSet<Action>,
) -> Result<Option<u32>, NoMemory>
    requires props { IsDistinct bytes_eq props.old.keys }
    requires actions { IsDistinct bytes_eq actions.old.keys }
    ensures props { IsDistinct bytes_eq props.new.keys }
    ensures actions { IsDistinct bytes_eq actions.new.keys }
{
    if !put_all(alloc, conjuncts, nodes, props, actions)? {
        return Ok(None);
    }
    let root = nodes.root(alloc)?;
    Ok(Some(root))
}

/// The graphs of all conjuncts in one; `None` where the closure of one is too large.
pub(crate) fn put_together(
    alloc: Global,
    conjuncts: &[Conjunct],
) -> Result<Option<Joined>, NoMemory> {
    let mut nodes = Nodes::empty(alloc);
    let mut props = IndexSet::new(alloc);
    let mut actions = IndexSet::new(alloc);
    let Some(root) = fill(alloc, conjuncts, &mut nodes, &mut props, &mut actions)? else {
        return Ok(None);
    };
    let Nodes {
        nodes,
        priorities,
        tops,
        ..
    } = nodes;
    match built(alloc, nodes, priorities, root, props, actions)? {
        Some(graph) => Ok(Some(Joined { graph, tops })),
        None => Ok(None),
    }
}
