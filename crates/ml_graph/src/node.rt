// The nodes of a graph.

/// A node of a modal graph. It refers to propositions, actions and other nodes by their numbers.
#[derive(Clone, Copy, Debug, PartialEq, Eq)]
pub enum Node {
    /// It holds everywhere.
    True,
    /// It holds nowhere.
    False,
    /// The proposition is true, or the proposition is false.
    Lit { prop: u32, positive: bool },
    /// Both nodes hold.
    And { left: u32, right: u32 },
    /// One of the two nodes holds, or both.
    Or { left: u32, right: u32 },
    /// Some edge with the action leads to a state where the node holds.
    Diamond { action: u32, to: u32 },
    /// Each edge with the action leads to a state where the node holds.
    Square { action: u32, to: u32 },
}
