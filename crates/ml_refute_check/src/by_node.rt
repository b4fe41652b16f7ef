// Items and local traces found by their node, in lists that rise by it.
ghost use Rattle.std.specs.Prelude.{◌≡◌, ◌↔◌, All, IsTrue};
ghost use Rattle.ml_lists.specs.Member.{IsMember};
ghost use Rattle.ml_refutation.specs.declared.refutation.Item.{Item};
ghost use Rattle.ml_refute_check.specs.private.Sources.{RiseByNode, RiseByTarget, IsReached};
ghost use Rattle.ml_trace.specs.declared.letters.Triple.{Triple};

use ml_refutation::Item;
use ml_trace::Triple;

/// The items at a node.
///
/// Cost: logarithmic in the items.
pub(crate) fn items_at(items: &[Item], node: u32) -> &[Item]
    requires { RiseByNode items.now }
    ensures { (a : Item) → IsMember a result.now ↔ (IsMember a items.now × (a.node ≡ node)) }
{
    let rest = &items[items.partition_point(|item| item.node < node)..];
    &rest[..rest.partition_point(|item| item.node <= node)]
}

/// The traces to a node.
///
/// Cost: logarithmic in the traces.
pub(crate) fn traces_to(traces: &[Triple], node: u32) -> &[Triple]
    requires { RiseByTarget traces.now }
    ensures { (t : Triple) → IsMember t result.now ↔ (IsMember t traces.now × (t.to ≡ node)) }
{
    let rest = &traces[traces.partition_point(|trace| trace.to < node)..];
    &rest[..rest.partition_point(|trace| trace.to <= node)]
}

/// Does one of these traces lead to each of the nodes?
///
/// Cost: the logarithm of the traces for each node.
pub(crate) fn lead_to_all(traces: &[Triple], nodes: &[u32]) -> bool
    requires { RiseByTarget traces.now }
    ensures { IsTrue result ↔ All (IsReached traces.now) nodes.now }
{
    for node in nodes {
        if traces_to(traces, *node).is_empty() {
            return false;
        }
    }
    true
}

/// Sorts traces by their targets.
pub(crate) fn sort_by_target(traces: &mut Vec<Triple>)
    ensures rise { RiseByTarget traces.new.items }
    ensures same { (t : Triple) → IsMember t traces.new.items ↔ IsMember t traces.old.items }
{
    traces.sort_unstable_by_key(|trace| trace.to);
}
