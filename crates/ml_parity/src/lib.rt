// Parity games: the definition, the determinacy law, and solvers that are proved against the definition.
//
// Two players move a token along the edges of a finite graph for ever. Each vertex has an owner, who moves there, and
// a priority. The lowest priority that is met infinitely often decides: an even one is good for Even, an odd one for
// Odd. The definition (`specs/Game.antt`, `specs/Winner.antt`) speaks of positional strategies, and of plays as lassos.
//
// The calls to know:
// - `solve` answers who wins each vertex of a game, and by which moves: Zielonka's recursion, with its frames on a list.
// - `Game::build` makes a game of three lists, and refuses lists that are none.
// - `laws::determined` does nothing; its contract is the determinacy law, over the definition alone.
// - `heights` treats a graph in which one player makes all moves (`OneSided::build`): it counts the longest walks, or finds
//   a cycle of even lowest priority. `heights_ok` tests numbers against the definition (`specs/Heights.antt`).
// The lemmas beside the law are for the proofs of crates above: `proofs/Winners.antt` (the winners as a map),
// `OneStep` (a vertex by its successors), `SingleMoves` (sinks, and vertices that are forced to one move), `AlongPlays`
// (along plays that follow the strategy), `Carried` (winners carried from one game to another along a map of a region,
// with the same players or with exchanged ones), `Comparison` (two games that differ at some vertices of a region),
// `Memory` (finite memory is not needed), `SolutionFacts` (what a solution tells), `HeightTables` (the longest counts are
// heights; where there are heights there is no even cycle).
//
// Below stand `ml_lists`, the mathematics of lists, loops and search, and `ml_base`, for its error. Above stand the crates
// whose answers are games: checking games of structures and graphs, and the decision game.
#![tactic(auto)]

mod fill;
pub mod games;
pub mod laws;
pub mod one_sided;
pub mod players;
pub mod solutions;
mod zielonka;

pub use games::{Game, GameRefusal};
pub use one_sided::answer::{EvenCycle, Heights};
pub use one_sided::check::heights_ok;
pub use one_sided::graph::{Arc, OneSided};
pub use one_sided::search::heights;
pub use players::Player;
pub use solutions::Solution;
pub use zielonka::solve;
