// Models, extracted from the decision game where Even wins it.
//
// `model_of` makes the model of Even's moves: a structure and a state at which the graph holds. `specs/Model.antt` says
// which model it is, over a graph, an arena and a solution; `laws::models_hold` is the theorem that the graph holds at its
// start. In the program the game with its solution is a `WonGame`; `States` are numbered first, and then their `Parts`,
// labels and edges, are gathered.
//
// Below stand `ml_product`, the decision game, `ml_parity` with the solutions of games, `ml_sequent` with the spreads, and
// `ml_kripke` with structures.
#![tactic(auto)]

pub mod laws;
mod making;
mod parts;
mod states;
mod won_game;

pub use making::model_of;
