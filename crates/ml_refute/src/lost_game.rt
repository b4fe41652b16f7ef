// What is done at a position of a decision game that Odd wins.
ghost use Rattle.std.specs.Prelude.{◌≡◌, ◌<◌, ◌==◌, [], length, get_or, IfOk};
ghost use Rattle.std.specs.List.{position_or_len};
ghost use Rattle.ml_parity.specs.Solution.{choice_at};
ghost use Rattle.ml_product.specs.DecisionGame.{IsResolved};
ghost use Rattle.ml_product.specs.Position.{neutral, start_of};
ghost use Rattle.ml_trace.specs.Marks.{priority};
ghost use Rattle.ml_trace.specs.MarkOrder.{FitsBelow};
ghost use Rattle.ml_refute.specs.private.Found.{OddWins, IsWon, IsSpreadAt, LeavesTo, IsTurnAt, AreSides};

use ml_base::NoMemory;
use ml_graph::ModalGraph;
use ml_parity::Solution;
use ml_product::Arena;
use ml_sequent::{Branch, ClashCause};
use ml_trace::Mark;

/// What is done at a position of a lost game.
#[derive(Clone, Copy)]
pub(crate) enum LostTurn {
    /// The spread clashes.
    Clash(ClashCause),
    /// This is the least or-node at which a side is still to be chosen.
    Open(u32),
    /// Odd's choice leads along this diamond, the least one that leads there.
    Leave(u32),
}

/// The decision game of a graph, with a solution by which Odd wins it.
#[derive(Clone, Copy)]
pub(crate) struct LostGame<'a> {
    pub graph: &'a ModalGraph,
    pub arena: &'a Arena,
    pub solution: &'a Solution,
}

impl LostGame<'_> {
    /// What is done at a position with the spread of this branch.
    ///
    /// # Errors
    /// `NoMemory` alone.
    ///
    /// Cost: that of what is asked of the branch, and linear in the moves.
    pub(crate) fn turn_at(&self, branch: &mut Branch, v: u32) -> Result<LostTurn, NoMemory>
        requires odd { OddWins self.now.graph.now self.now.arena.now self.now.solution.now }
        requires won { IsWon self.now.arena.now self.now.solution.now v }
        requires graph { branch.old.graph ≡ self.now.graph.now }
        requires spread { IsSpreadAt self.now.graph.now self.now.arena.now v branch.old.spread }
        ensures same { branch.new ≡ branch.old }
        ensures turn { IfOk result (IsTurnAt self.now.graph.now self.now.arena.now self.now.solution.now v) }
    {
        match branch.clash()? {
            Some(cause) => Ok(LostTurn::Clash(cause)),
            None => match branch.open_or() {
                Some(node) => Ok(LostTurn::Open(node)),
                None => Ok(LostTurn::Leave(self.diamond_of(branch, v)?)),
            },
        }
    }

    /// The least diamond along which Odd's choice leads, where nothing clashes and no or-node is open.
    fn diamond_of(&self, branch: &Branch, v: u32) -> Result<u32, NoMemory>
        requires odd { OddWins self.now.graph.now self.now.arena.now self.now.solution.now }
        requires won { IsWon self.now.arena.now self.now.solution.now v }
        requires graph { branch.now.graph ≡ self.now.graph.now }
        requires spread { IsSpreadAt self.now.graph.now self.now.arena.now v branch.now.spread }
        requires resolved { IsResolved self.now.graph.now branch.now.spread }
        ensures { IfOk result
            (LeavesTo self.now.graph.now self.now.arena.now self.now.solution.now v branch.now.spread) }
    {
        let diamonds = branch.diamonds()?;
        let place = self.place_of_choice(v);
        Ok(diamonds[place])
    }

    /// The first place of the choice among the moves.
    fn place_of_choice(&self, v: u32) -> usize
        requires odd { OddWins self.now.graph.now self.now.arena.now self.now.solution.now }
        requires won { IsWon self.now.arena.now self.now.solution.now v }
        ensures { result ≡ position_or_len
            (λ w. w == choice_at self.now.solution.now.choice v)
            (get_or self.now.arena.now.moves v []) }
    {
        place_in(self.arena.moves(v), self.choice_at(v))
    }

    /// The choice at a vertex.
    fn choice_at(&self, v: u32) -> u64
        requires odd { OddWins self.now.graph.now self.now.arena.now self.now.solution.now }
        requires won { IsWon self.now.arena.now self.now.solution.now v }
        ensures { result ≡ choice_at self.now.solution.now.choice v }
    {
        let solution = self.solution;
        solution.choice[v as usize]
    }

    /// Where Odd's choice leads from a vertex that is left.
    pub(crate) fn next_of(&self, v: u32) -> u32
        requires odd { OddWins self.now.graph.now self.now.arena.now self.now.solution.now }
        requires won { IsWon self.now.arena.now self.now.solution.now v }
        requires next { IsWon self.now.arena.now self.now.solution.now (choice_at self.now.solution.now.choice v) }
        ensures { result ≡ choice_at self.now.solution.now.choice v }
    {
        let _size = self.arena.size();
        self.choice_at(v) as u32
    }

    /// The vertices of both sides of the or-node that is open.
    pub(crate) fn sides_of(&self, v: u32, node: u32) -> (u32, u32)
        requires odd { OddWins self.now.graph.now self.now.arena.now self.now.solution.now }
        requires won { IsWon self.now.arena.now self.now.solution.now v }
        requires turn { IsTurnAt self.now.graph.now self.now.arena.now self.now.solution.now v (LostTurn.Open node) }
        ensures { AreSides self.now.graph.now self.now.arena.now self.now.solution.now v node result.0 result.1 }
    {
        let _size = self.arena.size();
        let moves = self.arena.moves(v);
        (moves[0] as u32, moves[1] as u32)
    }

    /// The mark whose priority a position has.
    pub(crate) fn mark_of(&self, v: u32) -> Mark
        requires odd { OddWins self.now.graph.now self.now.arena.now self.now.solution.now }
        requires low { v < length self.now.arena.now.positions }
        ensures { (m : Mark)
            → FitsBelow (neutral self.now.graph.now) m
            → (get_or self.now.arena.now.positions v (start_of self.now.graph.now)).priority ≡ priority (neutral self.now.graph.now) m
            → result ≡ m }
    {
        mark_with(
            self.arena.position(0).priority,
            self.arena.position(v).priority,
        )
    }
}

/// The mark with a priority, where this is the neutral one.
fn mark_with(neutral: u32, number: u32) -> Mark
    ensures { (m : Mark) → FitsBelow neutral m → number ≡ priority neutral m → result ≡ m }
{
    if number == neutral {
        Mark::Neutral
    } else if number % 2 == 0 {
        Mark::Red(number / 2)
    } else {
        Mark::Green(number / 2)
    }
}

/// The first place of a vertex among these.
fn place_in(vertices: &[u64], v: u64) -> usize
    ensures { result ≡ position_or_len (λ w. w == v) vertices.now }
{
    for (i, w) in vertices.iter().enumerate() {
        if *w == v {
            return i;
        }
    }
    vertices.len()
}
