// Where a graph holds.
ghost use Rattle.std.specs.Prelude.{◌<◌, ◌↔◌, IfOk, IsTrue};
ghost use Rattle.ml_graph.specs.CheckingGame.{Holds};

use crate::checking::checking_game;
use crate::modal_graph::ModalGraph;
use ml_base::NoMemory;
use ml_kripke::Structure;
use ml_parity::{Player, solve};
use std::alloc::Global;

/// Does the graph hold at the state? It does exactly if Even wins the checking game from the state and the root.
///
/// # Errors
/// `NoMemory` alone.
///
/// Cost: that of the checking game and of `ml_parity::solve` on it.
pub fn holds_at(
    alloc: Global,
    graph: &ModalGraph,
    structure: &Structure,
    state: u32,
) -> Result<bool, NoMemory>
    requires { state < structure.now.states }
    ensures { IfOk result (λ holds. IsTrue holds ↔ Holds graph.now structure.now state) }
{
    let _root = graph.root();
    let (game, vertex) = checking_game(alloc, graph, structure, state)?;
    let solution = solve(alloc, &game)?;
    match solution.winner[vertex as usize] {
        Player::Even => Ok(true),
        Player::Odd => Ok(false),
    }
}
