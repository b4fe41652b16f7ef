// The decision game of a graph that Even wins, and where Even's moves lead in it.
ghost use Rattle.std.specs.Prelude.{◌≡◌, ◌<◌, ◌≤◌, MatchOption, length};
ghost use Rattle.ml_parity.specs.Solution.{choice_at};
ghost use Rattle.ml_extract.specs.Extraction.{EvenWins};
ghost use Rattle.ml_extract.specs.private.WonPositions.{IsWon, IsEnd, GoesOn, IsChosenEnd, AreBehind};

use ml_graph::ModalGraph;
use ml_parity::{Player, Solution};
use ml_product::Arena;

/// The decision game of a graph, with a solution by which Even wins it.
#[derive(Clone, Copy)]
pub(crate) struct WonGame<'a> {
    pub graph: &'a ModalGraph,
    pub arena: &'a Arena,
    pub solution: &'a Solution,
}

impl WonGame<'_> {
    /// Where Even's move leads, if it chooses a side; `None` exactly where no or-node is open.
    fn choice_at(&self, position: u32) -> Option<u32>
        requires even { EvenWins self.now.graph.now self.now.arena.now self.now.solution.now }
        requires won { IsWon self.now.arena.now self.now.solution.now position }
        ensures { MatchOption
            result
            (IsEnd self.now.graph.now self.now.arena.now position)
            (GoesOn self.now.graph.now self.now.arena.now self.now.solution.now position) }
    {
        match self.arena.owner(position) {
            Player::Even => self.move_at(position),
            Player::Odd => None,
        }
    }

    /// Where Even's move leads, if it leads to a position.
    fn move_at(&self, position: u32) -> Option<u32>
        requires even { EvenWins self.now.graph.now self.now.arena.now self.now.solution.now }
        requires won { IsWon self.now.arena.now self.now.solution.now position }
        ensures { MatchOption
            result
            (length self.now.arena.now.positions ≤ choice_at self.now.solution.now.choice position)
            (λ next. (next < length self.now.arena.now.positions)
            × (next ≡ choice_at self.now.solution.now.choice position)) }
    {
        let solution = self.solution;
        let next = solution.choice[position as usize];
        if next < u64::from(self.arena.size()) {
            Some(next as u32)
        } else {
            None
        }
    }

    /// Where Even's choices from a position end: no or-node is open there.
    ///
    /// Cost: linear in the choices.
    pub(crate) fn end_of(&self, first: u32) -> u32
        requires even { EvenWins self.now.graph.now self.now.arena.now self.now.solution.now }
        requires won { IsWon self.now.arena.now self.now.solution.now first }
        ensures { IsChosenEnd self.now.graph.now self.now.arena.now self.now.solution.now first result }
    {
        let mut last = first;
        while let Some(next) = self.choice_at(last) {
            last = next;
        }
        last
    }

    /// The positions to which the diamonds lead where no or-node is open.
    pub(crate) fn behind(&self, last: u32) -> &[u64]
        requires even { EvenWins self.now.graph.now self.now.arena.now self.now.solution.now }
        requires won { IsWon self.now.arena.now self.now.solution.now last }
        requires is_end { IsEnd self.now.graph.now self.now.arena.now last }
        ensures { AreBehind self.now.graph.now self.now.arena.now last result.now }
    {
        match self.arena.owner(last) {
            Player::Even => &[],
            Player::Odd => self.arena.moves(last),
        }
    }
}
