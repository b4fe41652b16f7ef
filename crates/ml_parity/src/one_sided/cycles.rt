// The search for a cycle through an arc.

ghost use Rattle.std.specs.Prelude.{◌≡◌, ◌<◌, ◌%◌, ℕ, true, Contains, IfOk, IfSome, List, MatchOption, OnOk, length};
ghost use Rattle.ml_parity.specs.OneSided.{IsEvenCycle, IsWalk};
ghost use Rattle.ml_parity.specs.private.HeightSteps.{Comes, FindsAlong, IsSearch, IsSpread, IsWay, LeadBack, LoopAt, missing};
ghost use Rattle.ml_parity.specs.private.SinkGame.{flag_at};
ghost use Rattle.ml_parity.specs.declared.one_sided.graph.Arc.{Arc};

use crate::one_sided::graph::{Arc, OneSided};
use crate::one_sided::order::Order;
use ml_base::NoMemory;
use std::alloc::Global;

/// Vertices from which a goal is reached, found so far.
#[derive(Drop)]
struct Search {
    /// Where walks shall lead.
    goal: u64,
    /// Which vertices are found.
    found: Vec<bool>,
    /// For each vertex found, but the goal, an arc to the goal or to a vertex that was found before it; in the order in
    /// which they were found.
    steps: Vec<Arc>,
}

/// Finds the vertex that an arc leaves, if the vertex that it leads to is found.
fn find_along(
    graph: &OneSided,
    priority: u32,
    arc: Arc,
    search: &mut Search,
) -> Result<bool, NoMemory>
    requires member { Contains graph.now.arcs arc }
    requires search { IsSearch graph.now priority search.old.goal search.old.found.items search.old.steps.items }
    ensures search { OnOk result (IsSearch graph.now priority search.new.goal search.new.found.items search.new.steps.items) }
    ensures goal { OnOk result (search.new.goal ≡ search.old.goal) }
    ensures finds { IfOk result (FindsAlong priority search.old.found.items search.new.found.items arc) }
{
    let _size = graph.size;
    if arc.priority < priority
        || search.found[arc.from as usize]
        || !search.found[arc.to as usize]
    {
        return Ok(false);
    }
    search.steps.push(arc)?;
    search.found[arc.from as usize] = true;
    Ok(true)
}

/// Finds the vertex that the arc of this number leaves, if there is such an arc and the vertex that it leads to is found.
fn find_at(
    graph: &OneSided,
    priority: u32,
    number: usize,
    search: &mut Search,
) -> Result<bool, NoMemory>
    requires { IsSearch graph.now priority search.old.goal search.old.found.items search.old.steps.items }
    ensures search { OnOk result (IsSearch graph.now priority search.new.goal search.new.found.items search.new.steps.items) }
    ensures goal { OnOk result (search.new.goal ≡ search.old.goal) }
    ensures spread { IfOk result (IsSpread graph.now priority search.old.found.items search.new.found.items 0) }
{
    if number >= graph.arcs.len() {
        return Ok(false);
    }
    find_along(graph, priority, graph.arcs[number], search)
}

/// Finds vertices along arcs in this order.
fn spread_in_order(
    graph: &OneSided,
    priority: u32,
    order: &[usize],
    search: &mut Search,
) -> Result<bool, NoMemory>
    requires { IsSearch graph.now priority search.old.goal search.old.found.items search.old.steps.items }
    ensures search { OnOk result (IsSearch graph.now priority search.new.goal search.new.found.items search.new.steps.items) }
    ensures goal { OnOk result (search.new.goal ≡ search.old.goal) }
    ensures spread { IfOk result (IsSpread graph.now priority search.old.found.items search.new.found.items 0) }
{
    let mut changed = false;
    for k in order {
        if find_at(graph, priority, *k, search)? {
            changed = true;
        }
    }
    Ok(changed)
}

/// Finds vertices along arcs in this order, and then along all arcs.
fn spread(
    graph: &OneSided,
    priority: u32,
    order: &[usize],
    search: &mut Search,
) -> Result<bool, NoMemory>
    requires { IsSearch graph.now priority search.old.goal search.old.found.items search.old.steps.items }
    ensures search { OnOk result (IsSearch graph.now priority search.new.goal search.new.found.items search.new.steps.items) }
    ensures goal { OnOk result (search.new.goal ≡ search.old.goal) }
    ensures spread { IfOk result (IsSpread graph.now priority search.old.found.items search.new.found.items (length graph.now.arcs)) }
{
    let mut changed = spread_in_order(graph, priority, order, search)?;
    for arc in &graph.arcs {
        if find_along(graph, priority, *arc, search)? {
            changed = true;
        }
    }
    Ok(changed)
}

/// The way that the steps show from a vertex to the goal.
fn way_along(alloc: Global, steps: &[Arc], start: u64, goal: u64) -> Result<Vec<Arc>, NoMemory>
    requires back { LeadBack steps.now goal }
    requires comes { Comes steps.now (length steps.now) goal start }
    ensures { IfOk result (λ way. IsWay steps.now start goal way.items) }
{
    let mut way = Vec::new(alloc);
    let mut at = start;
    let mut rest = steps.len();
    while rest > 0 {
        rest -= 1;
        let step = steps[rest];
        if at != goal && step.from == at {
            way.push(step)?;
            at = step.to;
        }
    }
    Ok(way)
}

/// A walk along arcs of at least this priority from one vertex to another, if there is one.
fn walk_between(
    alloc: Global,
    graph: &OneSided,
    priority: u32,
    order: &[usize],
    start: u64,
    goal: u64,
) -> Result<Option<Vec<Arc>>, NoMemory>
    requires begins { start < graph.now.size }
    requires ends { goal < graph.now.size }
    ensures { IfOk result (λ o. MatchOption
        o
        ((xs : List Arc) → ¬ (IsWalk graph.now priority start xs goal))
        (λ way. IsWalk graph.now priority start way.items goal)) }
{
    let mut found = vec![in alloc; false; graph.size as usize]?;
    found[goal as usize] = true;
    let mut search = Search {
        goal,
        found,
        steps: Vec::new(alloc),
    };
    while spread(graph, priority, order, &mut search)? {}
    if !search.found[start as usize] {
        return Ok(None);
    }
    Ok(Some(way_along(alloc, &search.steps, start, goal)?))
}

/// An even cycle through this arc along arcs of at least its even priority, if there is one.
fn cycle_through(
    alloc: Global,
    graph: &OneSided,
    order: &[usize],
    arc: Arc,
) -> Result<Option<Vec<Arc>>, NoMemory>
    requires even { arc.priority % 2 ≡ 0 }
    requires member { Contains graph.now.arcs arc }
    ensures { IfOk result (λ o. MatchOption
        o
        ((xs : List Arc) → ¬ (IsWalk graph.now arc.priority arc.to xs arc.from))
        (λ cycle. IsEvenCycle graph.now cycle.items)) }
{
    let _size = graph.size;
    let Some(mut cycle) = walk_between(alloc, graph, arc.priority, order, arc.to, arc.from)? else {
        return Ok(None);
    };
    cycle.push(arc)?;
    Ok(Some(cycle))
}

/// The even cycle that was guessed, where the guess was right.
pub(crate) fn guessed_cycle(
    alloc: Global,
    graph: &OneSided,
    priority: u32,
    order: &Order,
) -> Result<Option<Vec<Arc>>, NoMemory>
    requires { priority % 2 ≡ 0 }
    ensures { IfOk result (λ o. IfSome o (λ cycle. IsEvenCycle graph.now cycle.items)) }
{
    let Some(k) = order.guess else {
        return Ok(None);
    };
    if k >= graph.arcs.len() || graph.arcs[k].priority != priority {
        return Ok(None);
    }
    cycle_through(alloc, graph, &order.arcs, graph.arcs[k])
}

/// An even cycle along arcs of at least this even priority, one of which has it, where there is one.
pub(crate) fn cycle_at(
    alloc: Global,
    graph: &OneSided,
    priority: u32,
    order: &[usize],
) -> Result<Vec<Arc>, NoMemory>
    requires even { priority % 2 ≡ 0 }
    requires there { LoopAt graph.now priority }
    ensures { IfOk result (λ cycle. IsEvenCycle graph.now cycle.items) }
{
    for arc in &graph.arcs {
        if arc.priority == priority {
            if let Some(cycle) = cycle_through(alloc, graph, order, *arc)? {
                return Ok(cycle);
            }
        }
    }
    unreachable!()
}
