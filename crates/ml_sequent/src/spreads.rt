// Spreads, as values.
ghost use Rattle.std.specs.Prelude.{◌≡◌, ◌↔◌, IsTrue};
ghost use Rattle.ml_lists.specs.Ascending.{IsAscending};
ghost use Rattle.ml_lists.specs.Member.{IsMember};

use crate::choice::Choice;
use ml_base::IdSet;
use std::marker::Model;

/// A spread: nodes that hold together at a state, and the choice under which they do. Contracts see the ascending list of
/// the nodes with the choice.
#[derive(Debug, Drop)]
pub struct Spread {
    nodes: IdSet,
    choice: Choice,
}

impl Model for Spread {
    ghost use Rattle.ml_sequent.specs.Spread.{SpreadList};

    ghost Value = { SpreadList };

    ghost view = { λ a. record { nodes = a.nodes; choice = a.choice } };
}

impl Spread {
    /// The spread of these nodes.
    pub(crate) fn of(nodes: Vec<u32>, choice: Choice) -> Spread
        requires { IsAscending nodes.items }
        ensures nodes { result.nodes ≡ nodes.items }
        ensures choice { result.choice ≡ choice }
    {
        Spread {
            nodes: IdSet::from_ascending(nodes),
            choice,
        }
    }

    /// Is the node in the spread?
    ///
    /// Cost: logarithmic in the spread.
    pub fn contains(&self, node: u32) -> bool
        ensures { IsTrue result ↔ IsMember node self.now.nodes }
    {
        self.nodes.contains(node)
    }

    /// The nodes, ascending.
    pub fn nodes(&self) -> &[u32]
        ensures value { result.now ≡ self.now.nodes }
        ensures ascends { IsAscending result.now }
    {
        self.nodes.values()
    }

    /// The choice under which the nodes were found.
    pub fn choice(&self) -> &Choice
        ensures { result.now ≡ self.now.choice }
    {
        &self.choice
    }
}
