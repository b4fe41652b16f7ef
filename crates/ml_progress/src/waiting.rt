// The vertices that wait to be lifted, in a queue.

ghost use Rattle.std.specs.Prelude.{◌≡◌, ◌<◌, ◌≤◌, ◌+◌, ◌-◌, ◌∷◌, [], ℕ, None, OnOk, MatchOption, false, get_or, length, set, true, IfOk};
ghost use Rattle.ml_parity.specs.Game.{HasMove, size};
ghost use Rattle.ml_progress.specs.Measure.{measure_at};
ghost use Rattle.ml_progress.specs.private.Waits.{AreChained, InChain, IsWaiting, Woken};

use crate::predecessors::Predecessors;
use crate::table::Table;
use ml_base::NoMemory;
use std::alloc::Global;
use std::collections::VecDeque;

/// The vertices that wait, first those that have waited longest.
#[derive(Drop)]
pub(crate) struct Waiting {
    /// The vertices.
    pub(crate) queue: VecDeque<usize>,
    /// Which vertices stand in the queue.
    pub(crate) flags: Vec<bool>,
}

impl Waiting {
    /// All vertices wait.
    pub(crate) fn all(alloc: Global, vertices: usize) -> Result<Waiting, NoMemory>
        ensures waiting { IfOk result (λ w. IsWaiting w.flags.items w.queue.items) }
        ensures long { IfOk result (λ w. length w.flags.items ≡ vertices) }
        ensures all { IfOk result (λ w. (v : ℕ) → v < vertices → get_or w.flags.items v false ≡ true) }
    {
        let mut queue = VecDeque::with_capacity(alloc, vertices)?;
        for vertex in 0..vertices {
            queue.push_back(vertex)?;
        }
        let flags = vec![in alloc; true; vertices]?;
        Ok(Waiting { queue, flags })
    }

    /// Takes the vertex that has waited longest.
    pub(crate) fn take(&mut self) -> Option<usize>
        requires { IsWaiting self.old.flags.items self.old.queue.items }
        ensures waiting { IsWaiting self.new.flags.items self.new.queue.items }
        ensures taken { MatchOption
            result
            ((self.old.queue.items ≡ []) × (self.new.flags.items ≡ self.old.flags.items))
            (λ v. (v < length self.old.flags.items) × (self.old.queue.items ≡ v ∷ self.new.queue.items)
            × (self.new.flags.items ≡ set self.old.flags.items v false)) }
    {
        let vertex = self.queue.pop_front()?;
        self.flags[vertex] = false;
        Some(vertex)
    }

    /// Puts a vertex into the queue, if it doesn't stand there and hasn't the top.
    fn add(&mut self, table: &Table, vertex: usize) -> Result<(), NoMemory>
        requires low { vertex < length self.old.flags.items }
        requires long { length self.old.flags.items ≡ length table.now.rows }
        requires waiting { IsWaiting self.old.flags.items self.old.queue.items }
        ensures waiting { OnOk result (IsWaiting self.new.flags.items self.new.queue.items) }
        ensures woken { OnOk result (Woken table.now.rows self.old.flags.items self.new.flags.items (λ u. u ≡ vertex)) }
        ensures few { OnOk result (length self.new.queue.items ≤ length self.old.queue.items + 1) }
    {
        if self.flags[vertex] || table.is_top(vertex) {
            return Ok(());
        }
        self.queue.push_back(vertex)?;
        self.flags[vertex] = true;
        Ok(())
    }

    /// Puts all vertices with a move to this one into the queue, but for those with the top.
    pub(crate) fn add_predecessors(
        &mut self,
        predecessors: &Predecessors,
        table: &Table,
        vertex: usize,
    ) -> Result<(), NoMemory>
        requires low { vertex < length self.old.flags.items }
        requires long { length self.old.flags.items ≡ length table.now.rows }
        requires chained { AreChained (length self.old.flags.items)
            predecessors.now.last.items predecessors.now.arrows.items }
        requires waiting { IsWaiting self.old.flags.items self.old.queue.items }
        ensures waiting { OnOk result (IsWaiting self.new.flags.items self.new.queue.items) }
        ensures woken { OnOk result (Woken table.now.rows self.old.flags.items self.new.flags.items
            (λ u. InChain predecessors.now.arrows.items u (get_or predecessors.now.last.items vertex 0))) }
        ensures few { OnOk result (length self.new.queue.items
            ≤ length self.old.queue.items + length predecessors.now.arrows.items) }
    {
        let mut at = predecessors.last[vertex];
        while at > 0 {
            let arrow = predecessors.arrows[at - 1];
            self.add(table, arrow.source)?;
            at = arrow.before;
        }
        Ok(())
    }
}
