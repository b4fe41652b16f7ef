// Causes that others name, checked one at a time.
ghost use Rattle.std.specs.Prelude.{◌<◌, ◌↔◌, IfOk, IsTrue};
ghost use Rattle.ml_graph.specs.Graph.{size};
ghost use Rattle.ml_sequent.specs.declared.clashes.ClashCause.TheVariants.{False, Pair};
ghost use Rattle.ml_sequent.specs.Spread.{IsSpread, IsCause, IsPair};
ghost use Rattle.ml_sequent.specs.private.Reach.{IsRanked, HasRoom};

use crate::clashes::{ClashCause, is_false, negative_prop, on_odd_cycle, positive_prop};
use crate::levels::Levels;
use crate::reach::Reach;
use crate::spreads::Spread;
use ml_base::NoMemory;
use ml_graph::ModalGraph;

/// Are these the positive and the negative literal of one proposition?
pub(crate) fn is_pair(graph: &ModalGraph, positive: u32, negative: u32) -> bool
    requires positive { positive < size graph.now }
    requires negative { negative < size graph.now }
    ensures { IsTrue result ↔ IsPair graph.now positive negative }
{
    match positive_prop(*graph.node(positive)) {
        Some(prop) => negative_prop(*graph.node(negative)) == Some(prop),
        None => false,
    }
}

/// Is this a False of the spread?
fn has_false(graph: &ModalGraph, spread: &Spread, node: u32) -> bool
    requires { IsSpread graph.now spread.now }
    ensures { IsTrue result ↔ IsCause graph.now spread.now (False node) }
{
    if !spread.contains(node) {
        return false;
    }
    is_false(*graph.node(node))
}

/// Are these the literals of one proposition, and both in the spread?
fn has_pair(graph: &ModalGraph, spread: &Spread, positive: u32, negative: u32) -> bool
    requires { IsSpread graph.now spread.now }
    ensures { IsTrue result ↔ IsCause graph.now spread.now (Pair positive negative) }
{
    if !spread.contains(positive) || !spread.contains(negative) {
        return false;
    }
    is_pair(graph, positive, negative)
}

/// Is this a cause of a clash in the spread?
pub(crate) fn is_cause_by(
    graph: &ModalGraph,
    levels: &Levels,
    reach: &mut Reach,
    spread: &Spread,
    cause: ClashCause,
) -> Result<bool, NoMemory>
    requires spread { IsSpread graph.now spread.now }
    requires ranked { IsRanked graph.now levels.now }
    requires room { HasRoom graph.now levels.now reach.old }
    ensures room { HasRoom graph.now levels.now reach.new }
    ensures cause { IfOk result (λ b. IsTrue b ↔ IsCause graph.now spread.now cause) }
{
    match cause {
        ClashCause::False(node) => Ok(has_false(graph, spread, node)),
        ClashCause::Pair(p, q) => Ok(has_pair(graph, spread, p, q)),
        ClashCause::Cycle(node) => {
            if !spread.contains(node) {
                return Ok(false);
            }
            on_odd_cycle(graph, spread.choice(), levels, node, reach)
        }
    }
}
