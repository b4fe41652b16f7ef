// The nodes and priorities of a graph that is being made.
ghost use Rattle.std.specs.Prelude.{◌≡◌, ◌++◌, [], ◌∷◌, OnOk, OnErr};

use ml_base::NoMemory;
use ml_graph::Node;
use std::alloc::Global;

/// The nodes and priorities so far.
#[derive(Drop)]
pub struct Draft {
    pub nodes: Vec<Node>,
    pub priorities: Vec<u32>,
}

impl Draft {
    /// No nodes.
    pub fn new(alloc: Global) -> Draft
        ensures nodes { result.nodes.items ≡ [] }
        ensures priorities { result.priorities.items ≡ [] }
    {
        Draft {
            nodes: Vec::new(alloc),
            priorities: Vec::new(alloc),
        }
    }

    /// Puts the two nodes of an occurrence behind those so far, with their priorities.
    ///
    /// # Errors
    /// `NoMemory` alone, and then the draft is as before.
    ///
    /// Cost: constant on average.
    pub fn put(&mut self, nodes: (Node, Node), priorities: (u32, u32)) -> Result<(), NoMemory>
        ensures nodes { OnOk result (self.new.nodes.items ≡ self.old.nodes.items ++ nodes.0 ∷ nodes.1 ∷ []) }
        ensures priorities { OnOk result (self.new.priorities.items ≡ self.old.priorities.items ++ priorities.0 ∷ priorities.1 ∷ []) }
        ensures kept { OnErr result (self.new.nodes.items ≡ self.old.nodes.items) }
        ensures kept_priorities { OnErr result (self.new.priorities.items ≡ self.old.priorities.items) }
    {
        let size = self.nodes.len();
        self.nodes.extend_from_slice(&[nodes.0, nodes.1])?;
        if let Err(no_memory) = self
            .priorities
            .extend_from_slice(&[priorities.0, priorities.1])
        {
            self.nodes.truncate(size);
            return Err(NoMemory::from(no_memory));
        }
        Ok(())
    }
}
