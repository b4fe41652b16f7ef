// An order of the arcs in which a search for heights has little to do, and a guess where a cycle is.
//
// Nothing that is answered depends on what stands here: only how many passes over the arcs a search makes. So no contract
// says more than that these calls are safe and end; a read past the end of a table gives 0.
//
// The arcs of at least a priority are walked depth first, and their strongly connected components come with it (Tarjan,
// Depth-first search and linear graph algorithms, 1972): an arc of the priority itself whose ends are in one component
// lies on a cycle. An arc comes behind those of the vertex that it leads to, but where a cycle forbids it, so what can be
// reached from a component arrives at its root, from which the walk entered it. Then come arcs of the component that lead
// to the root, those that are nearer to it first, which carry that on to all its vertices. So one pass in this order
// carries numbers from the ends of walks to their beginnings, round cycles too.

use crate::one_sided::graph::OneSided;
use ml_base::NoMemory;
use std::alloc::Global;

/// Arcs by the vertex at one of their ends, as chained lists. Arc k stands there as k + 1, and 0 ends a list.
#[derive(Drop)]
struct Chains {
    /// For each vertex its first arc.
    first: Vec<usize>,
    /// For each arc the next one of the same vertex.
    next: Vec<usize>,
}

/// The arcs that leave each vertex, and those that enter it.
#[derive(Drop)]
pub(crate) struct Ends {
    leaving: Chains,
    entering: Chains,
}

/// The order in which arcs are tried, and the guess.
#[derive(Drop)]
pub(crate) struct Order {
    /// Numbers of arcs, in that order.
    pub(crate) arcs: Vec<usize>,
    /// The number of an arc that may lie on a cycle.
    pub(crate) guess: Option<usize>,
}

/// A walk depth first that is under way.
#[derive(Drop)]
struct Visit {
    /// The place of each vertex among those that wait, counted from 1, when it was met; 0 where it was not.
    met: Vec<usize>,
    /// The lowest such place that each vertex is known to reach.
    low: Vec<usize>,
    /// A number of the component of each vertex whose component is done, and 0 elsewhere.
    component: Vec<usize>,
    /// The vertices whose component is not done, in the order in which they were met.
    waiting: Vec<usize>,
    /// The vertices that are being walked from, each with the arc to try next, as `Leaving` has it.
    path: Vec<(usize, usize)>,
    /// Which vertices are known to lead to the root of their component along arcs of the order.
    is_back: Vec<bool>,
    /// Those of the component that was closed last.
    back: Vec<usize>,
    /// The arcs of the vertices that are done, and the arcs in their components that lead to the roots.
    order: Vec<usize>,
}

/// The entry of a table, and 0 past its end.
fn entry(table: &[usize], at: usize) -> usize {
    if at < table.len() { table[at] } else { 0 }
}

/// Writes an entry of a table that has one there.
fn put(table: &mut [usize], at: usize, value: usize) {
    if at < table.len() {
        table[at] = value;
    }
}

/// Puts the next arc in front of the list of a vertex.
fn chain_arc(chains: &mut Chains, vertex: usize) -> Result<(), NoMemory> {
    let first = entry(&chains.first, vertex);
    chains.next.push(first)?;
    let number = chains.next.len();
    put(&mut chains.first, vertex, number);
    Ok(())
}

/// Lists without arcs.
fn no_chains(alloc: Global, size: usize) -> Result<Chains, NoMemory> {
    Ok(Chains {
        first: vec![in alloc; 0; size]?,
        next: Vec::new(alloc),
    })
}

/// The arcs by their ends.
pub(crate) fn arcs_by_ends(alloc: Global, graph: &OneSided) -> Result<Ends, NoMemory> {
    let mut leaving = no_chains(alloc, graph.size as usize)?;
    let mut entering = no_chains(alloc, graph.size as usize)?;
    for arc in &graph.arcs {
        chain_arc(&mut leaving, arc.from as usize)?;
        chain_arc(&mut entering, arc.to as usize)?;
    }
    Ok(Ends { leaving, entering })
}

/// Meets a vertex.
fn meet(leaving: &Chains, visit: &mut Visit, vertex: usize) -> Result<(), NoMemory> {
    visit.waiting.push(vertex)?;
    let place = visit.waiting.len();
    put(&mut visit.met, vertex, place);
    put(&mut visit.low, vertex, place);
    visit.path.push((vertex, entry(&leaving.first, vertex)))?;
    Ok(())
}

/// Notes that a vertex reaches a place among those that wait.
fn reach(visit: &mut Visit, vertex: usize, place: usize) {
    if place < entry(&visit.low, vertex) {
        put(&mut visit.low, vertex, place);
    }
}

/// Follows an arc from a vertex that is being walked from.
fn follow(leaving: &Chains, visit: &mut Visit, vertex: usize, to: usize) -> Result<(), NoMemory> {
    let place = entry(&visit.met, to);
    if place == 0 {
        meet(leaving, visit, to)?;
    } else if entry(&visit.component, to) == 0 {
        reach(visit, vertex, place);
    }
    Ok(())
}

/// Closes the component of a vertex from which no earlier one is reached.
fn close_component(visit: &mut Visit, root: usize) {
    for _ in 0..u64::MAX {
        let Some(member) = visit.waiting.pop() else {
            return;
        };
        put(&mut visit.component, member, root.saturating_add(1));
        if member == root {
            return;
        }
    }
}

/// Puts the arc of this number into the order, if it is the first found that leads on from a vertex of the component to
/// its root.
fn reach_back(
    graph: &OneSided,
    priority: u32,
    visit: &mut Visit,
    root: usize,
    number: usize,
) -> Result<(), NoMemory> {
    if number >= graph.arcs.len() || graph.arcs[number].priority < priority {
        return Ok(());
    }
    let from = graph.arcs[number].from as usize;
    let is_member = entry(&visit.component, from) == root.saturating_add(1);
    if is_member && from < visit.is_back.len() && !visit.is_back[from] {
        visit.is_back[from] = true;
        visit.back.push(from)?;
        visit.order.push(number)?;
    }
    Ok(())
}

/// Puts arcs into the order along which all vertices of a component lead to its root, those that are nearer to it first.
fn lead_back(
    graph: &OneSided,
    entering: &Chains,
    priority: u32,
    visit: &mut Visit,
    root: usize,
) -> Result<(), NoMemory> {
    visit.back.clear();
    visit.back.push(root)?;
    if root < visit.is_back.len() {
        visit.is_back[root] = true;
    }
    for done in 0..usize::MAX {
        if done >= visit.back.len() {
            break;
        }
        let mut arc = entry(&entering.first, visit.back[done]);
        for _ in 0..u64::MAX {
            if arc == 0 {
                break;
            }
            reach_back(graph, priority, visit, root, arc - 1)?;
            arc = entry(&entering.next, arc - 1);
        }
    }
    Ok(())
}

/// Leaves a vertex all of whose arcs were tried.
fn leave(
    graph: &OneSided,
    ends: &Ends,
    priority: u32,
    visit: &mut Visit,
    vertex: usize,
) -> Result<(), NoMemory> {
    let mut arc = entry(&ends.leaving.first, vertex);
    for _ in 0..u64::MAX {
        if arc == 0 {
            break;
        }
        visit.order.push(arc - 1)?;
        arc = entry(&ends.leaving.next, arc - 1);
    }
    let low = entry(&visit.low, vertex);
    if low == entry(&visit.met, vertex) {
        close_component(visit, vertex);
        lead_back(graph, &ends.entering, priority, visit, vertex)?;
    }
    if let Some((before, arc)) = visit.path.pop() {
        visit.path.push((before, arc))?;
        reach(visit, before, low);
    }
    Ok(())
}

/// Goes on by one arc, or leaves a vertex; false where the walk is over.
fn go_on(
    graph: &OneSided,
    ends: &Ends,
    priority: u32,
    visit: &mut Visit,
) -> Result<bool, NoMemory> {
    let Some((vertex, arc)) = visit.path.pop() else {
        return Ok(false);
    };
    if arc == 0 || arc > graph.arcs.len() {
        leave(graph, ends, priority, visit, vertex)?;
        return Ok(true);
    }
    visit
        .path
        .push((vertex, entry(&ends.leaving.next, arc - 1)))?;
    let tried = graph.arcs[arc - 1];
    if tried.priority >= priority {
        follow(&ends.leaving, visit, vertex, tried.to as usize)?;
    }
    Ok(true)
}

/// An arc of this priority whose ends are in one component.
fn guess(graph: &OneSided, priority: u32, component: &[usize]) -> Option<usize> {
    for (k, arc) in graph.arcs.iter().enumerate() {
        let from = entry(component, arc.from as usize);
        if arc.priority == priority && from == entry(component, arc.to as usize) {
            return Some(k);
        }
    }
    None
}

/// The order of the arcs for a priority, and the guess. Linear in the vertices and the arcs.
pub(crate) fn order_of(
    alloc: Global,
    graph: &OneSided,
    ends: &Ends,
    priority: u32,
) -> Result<Order, NoMemory> {
    let size = graph.size as usize;
    let mut visit = Visit {
        met: vec![in alloc; 0; size]?,
        low: vec![in alloc; 0; size]?,
        component: vec![in alloc; 0; size]?,
        waiting: Vec::new(alloc),
        path: Vec::new(alloc),
        is_back: vec![in alloc; false; size]?,
        back: Vec::new(alloc),
        order: Vec::new(alloc),
    };
    for root in 0..size {
        if entry(&visit.met, root) == 0 {
            meet(&ends.leaving, &mut visit, root)?;
            for _ in 0..u64::MAX {
                if !go_on(graph, ends, priority, &mut visit)? {
                    break;
                }
            }
        }
    }
    let guess = guess(graph, priority, &visit.component);
    Ok(Order {
        arcs: visit.order,
        guess,
    })
}
