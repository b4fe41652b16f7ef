// The local phase on graphs of small formulas, worked out by hand.
ghost use Rattle.std.specs.Prelude.{◌<◌, All, IfOk, IfSome};
ghost use Rattle.ml_graph.specs.Graph.{size};
ghost use Rattle.ml_sequent.specs.Spread.{IsSpread};

use crate::graphs::{NOT_P, P, graph_of};
use ml_base::NoMemory;
use ml_graph::{ModalGraph, Node};
use ml_sequent::{
    Choice, ClashCause, LocalPhase, Sequent, Side, Spread, clash, diamonds, open_or, spread, step,
};
use ml_trace::{LocalTraces, Triple};
use std::alloc::Global;
use std::test::Fail;

// The sequent of these nodes, if they are nodes of the graph.
fn sequent_of(alloc: Global, graph: &ModalGraph, nodes: &[u32]) -> Result<Option<Sequent>, Fail>
    ensures { IfOk result (λ found. IfSome found (λ sequent. All (λ n. n < size graph.now) sequent)) }
{
    let sequent = Sequent::of(alloc, nodes)?;
    let size = graph.size();
    if sequent.values().iter().all(|n| *n < size) {
        Ok(Some(sequent))
    } else {
        Ok(None)
    }
}

// The choice of this side, or of none.
fn choice_of(alloc: Global, chosen: Option<(u32, Side)>) -> Result<Choice, Fail> {
    let choice = Choice::empty(alloc);
    match chosen {
        Some((node, side)) => Ok(choice.with(node, side)?),
        None => Ok(choice),
    }
}

// What is asked of a spread: the clash, the open or-node, and how many diamonds there are.
type Answers = (Option<ClashCause>, Option<u32>, usize);

// What is answered of the spread of a sequent.
fn answers_in(
    alloc: Global,
    graph: &ModalGraph,
    sequent: &Sequent,
    choice: &Choice,
) -> Result<Answers, Fail>
    requires { All (λ n. n < size graph.now) sequent.now }
{
    let spread = spread(alloc, graph, sequent, choice)?;
    let cause = clash(alloc, graph, &spread)?;
    let diamonds = diamonds(alloc, graph, &spread)?;
    Ok((cause, open_or(graph, &spread), diamonds.len()))
}

// A node, the side that is chosen, and what is answered of the spread of the node.
type Row = (u32, Option<(u32, Side)>, Answers);

// Is this answered?
fn is_answered(
    alloc: Global,
    graph: &ModalGraph,
    from: u32,
    chosen: Option<(u32, Side)>,
    wanted: Answers,
) -> Result<bool, Fail> {
    let choice = choice_of(alloc, chosen)?;
    match sequent_of(alloc, graph, &[from])? {
        Some(sequent) => Ok(answers_in(alloc, graph, &sequent, &choice)? == wanted),
        None => Ok(false),
    }
}

// The place of the first row of which something else is answered.
fn first_wrong(alloc: Global, graph: &ModalGraph, rows: &[Row]) -> Result<Option<usize>, Fail> {
    for (place, (from, chosen, wanted)) in rows.iter().enumerate() {
        if !is_answered(alloc, graph, *from, *chosen, *wanted)? {
            return Ok(Some(place));
        }
    }
    Ok(None)
}

// A fixpoint at 0 and its dual at 1, and a node with a diamond and False.
const FIXPOINTS: [Node; 8] = [
    Node::And { left: 2, right: 2 },
    Node::And { left: 3, right: 3 },
    Node::And { left: 0, right: 0 },
    Node::And { left: 1, right: 1 },
    Node::And { left: 5, right: 6 },
    Node::Diamond { action: 0, to: 0 },
    Node::Or { left: 7, right: 5 },
    Node::False,
];

const OF_FIXPOINTS: [Row; 5] = [
    (0, None, (Some(ClashCause::Cycle(0)), None, 0)),
    (1, None, (None, None, 0)),
    (4, None, (None, Some(6), 1)),
    (
        4,
        Some((6, Side::Left)),
        (Some(ClashCause::False(7)), None, 1),
    ),
    (4, Some((6, Side::Right)), (None, None, 1)),
];

#[test]
fn spreads_of_fixpoints(rt: HostRuntime) -> Result<(), Fail> {
    let graph = graph_of(rt.alloc(), &FIXPOINTS, &[1, 0, 2, 2, 2, 2, 2, 2])?;
    assert_eq!(rt; first_wrong(rt.alloc(), &graph, &OF_FIXPOINTS)?, None);
    Ok(())
}

// The step along the first diamond of a sequent's spread, with no side chosen.
fn first_step(
    alloc: Global,
    graph: &ModalGraph,
    sequent: &Sequent,
) -> Result<(Sequent, LocalTraces), Fail>
    requires { All (λ n. n < size graph.now) sequent.now }
{
    let spread = spread(alloc, graph, sequent, &Choice::empty(alloc))?;
    let diamonds = diamonds(alloc, graph, &spread)?;
    if diamonds.is_empty() {
        return Err(Fail::new("no diamond"));
    }
    Ok(step(alloc, graph, sequent, &spread, diamonds[0])?)
}

// A triple.
fn triple(from: u32, lowest: u32, to: u32) -> Triple {
    Triple { from, lowest, to }
}

// Are these the local traces, in any order?
fn are_these(traces: &LocalTraces, wanted: &[Triple]) -> bool {
    let triples = traces.triples();
    triples.len() == wanted.len() && wanted.iter().all(|triple| triples.contains(triple))
}

// Does the first step from the sequent of these nodes lead to this sequent, with these local traces?
fn is_step(
    alloc: Global,
    graph: &ModalGraph,
    from: &[u32],
    next: &[u32],
    wanted: &[Triple],
) -> Result<bool, Fail> {
    match sequent_of(alloc, graph, from)? {
        Some(sequent) => {
            let (found, traces) = first_step(alloc, graph, &sequent)?;
            Ok(found.nodes()?.as_slice() == next && are_these(&traces, wanted))
        }
        None => Ok(false),
    }
}

// 0 leads to 1 and 2, 1 back to 0 and to the diamond, 2 to the square; at 5 no side is chosen
const WALKS: [Node; 8] = [
    Node::And { left: 1, right: 2 },
    Node::And { left: 3, right: 0 },
    Node::And { left: 4, right: 4 },
    Node::Diamond { action: 0, to: 6 },
    Node::Square { action: 0, to: 7 },
    Node::Or { left: 3, right: 4 },
    Node::True,
    Node::True,
];

#[test]
fn walks_by_hand(rt: HostRuntime) -> Result<(), Fail> {
    let graph = graph_of(rt.alloc(), &WALKS, &[3, 1, 2, 5, 4, 0, 8, 8])?;
    // with and without the way over 1 and back; 3 leads nowhere, 5 neither
    let wanted = [
        triple(0, 1, 6),
        triple(0, 1, 7),
        triple(0, 2, 7),
        triple(1, 1, 6),
        triple(1, 1, 7),
        triple(2, 2, 7),
        triple(3, 5, 6),
    ];
    assert!(rt; is_step(rt.alloc(), &graph, &[0, 1, 2, 3, 5], &[6, 7], &wanted)?);
    Ok(())
}

// A least fixpoint at 0; both literals of p at 2; an or-node at 5, with False on its left; and 0 and 5 at 7.
const CAUSES: [Node; 8] = [
    Node::And { left: 1, right: 1 },
    Node::And { left: 0, right: 0 },
    Node::And { left: 3, right: 4 },
    P,
    NOT_P,
    Node::Or { left: 6, right: 3 },
    Node::False,
    Node::And { left: 0, right: 5 },
];

// Is this a cause in the spread of a sequent, with no side chosen?
fn is_cause_in(
    alloc: Global,
    graph: &ModalGraph,
    sequent: &Sequent,
    cause: ClashCause,
) -> Result<bool, Fail>
    requires { All (λ n. n < size graph.now) sequent.now }
{
    let mut phase = LocalPhase::new(alloc, graph)?;
    let spread = phase.spread(sequent, &Choice::empty(alloc))?;
    Ok(phase.is_cause(&spread, cause)?)
}

// A node and a cause, and is this one in the spread of the node?
const IN_SPREADS: [(u32, ClashCause, bool); 8] = [
    (6, ClashCause::False(6), true),
    (2, ClashCause::False(6), false),
    (2, ClashCause::Pair(3, 4), true),
    (2, ClashCause::Pair(4, 3), false),
    (3, ClashCause::Pair(3, 4), false),
    (0, ClashCause::Cycle(0), true),
    (0, ClashCause::Cycle(1), false),
    (0, ClashCause::Cycle(99), false),
];

// The place of the first row of which it is told otherwise.
fn first_wrong_cause(
    alloc: Global,
    graph: &ModalGraph,
    rows: &[(u32, ClashCause, bool)],
) -> Result<Option<usize>, Fail> {
    for (place, (from, cause, wanted)) in rows.iter().enumerate() {
        let told = match sequent_of(alloc, graph, &[*from])? {
            Some(sequent) => is_cause_in(alloc, graph, &sequent, *cause)?,
            None => return Err(Fail::new("no such node")),
        };
        if told != *wanted {
            return Ok(Some(place));
        }
    }
    Ok(None)
}

#[test]
fn causes_in_spreads(rt: HostRuntime) -> Result<(), Fail> {
    let graph = graph_of(rt.alloc(), &CAUSES, &[1, 2, 2, 2, 2, 2, 2, 2])?;
    assert_eq!(rt; first_wrong_cause(rt.alloc(), &graph, &IN_SPREADS)?, None);
    Ok(())
}

// Are these the nodes of the spread with a side chosen at its open or-node; `None` if it has none?
fn is_longer(
    phase: &mut LocalPhase,
    spread: &Spread,
    side: Side,
    wanted: Option<&[u32]>,
) -> Result<bool, NoMemory>
    requires { IsSpread phase.old spread.now }
{
    match phase.open_or(spread) {
        Some(node) => Ok(wanted == Some(phase.extended(spread, node, side)?.nodes())),
        None => Ok(wanted.is_none()),
    }
}

// The same of the spread of a sequent.
fn is_extended_in(
    alloc: Global,
    graph: &ModalGraph,
    sequent: &Sequent,
    side: Side,
    wanted: Option<&[u32]>,
) -> Result<bool, Fail>
    requires { All (λ n. n < size graph.now) sequent.now }
{
    let mut phase = LocalPhase::new(alloc, graph)?;
    let spread = phase.spread(sequent, &Choice::empty(alloc))?;
    Ok(is_longer(&mut phase, &spread, side, wanted)?)
}

// The same of the spread of a node.
fn is_extended(
    alloc: Global,
    graph: &ModalGraph,
    from: u32,
    side: Side,
    wanted: Option<&[u32]>,
) -> Result<bool, Fail> {
    match sequent_of(alloc, graph, &[from])? {
        Some(sequent) => is_extended_in(alloc, graph, &sequent, side, wanted),
        None => Ok(false),
    }
}

#[test]
fn spreads_with_a_side_more(rt: HostRuntime) -> Result<(), Fail> {
    let alloc = rt.alloc();
    let graph = graph_of(alloc, &CAUSES, &[1, 2, 2, 2, 2, 2, 2, 2])?;
    assert!(rt; is_extended(alloc, &graph, 7, Side::Left, Some(&[0, 1, 5, 6, 7]))?);
    assert!(rt; is_extended(alloc, &graph, 7, Side::Right, Some(&[0, 1, 3, 5, 7]))?);
    assert!(rt; is_extended(alloc, &graph, 2, Side::Left, None)?);
    Ok(())
}
