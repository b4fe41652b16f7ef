// What is found of a problem, stage by stage.
ghost use Rattle.std.specs.Prelude.{◌≡◌};
ghost use Rattle.ml_decide.specs.Measures.{answer_of};

use ml_front::Answer;

/// What is found of a problem: its graph, its decision game and the answer, or what came before the limit that was passed.
#[derive(Clone, Copy, PartialEq, Eq)]
pub enum Finding {
    /// The graph has so many nodes, and the game so many positions.
    Decided {
        nodes: u32,
        positions: u32,
        satisfiable: bool,
    },
    /// The graph has so many nodes, and the game more positions than the limit.
    GamePassed {
        nodes: u32,
    },
    /// The closure has more nodes than are decided, so there is no graph.
    ClosurePassed,
}

impl Finding {
    /// The answer about the problem.
    pub fn answer(self) -> Answer
        ensures { result ≡ answer_of self }
    {
        match self {
            Finding::Decided {
                satisfiable: true,
                ..
            } => Answer::Satisfiable,
            Finding::Decided {
                satisfiable: false,
                ..
            } => Answer::Unsatisfiable,
            Finding::GamePassed { .. } | Finding::ClosurePassed => Answer::Undecided,
        }
    }
}
