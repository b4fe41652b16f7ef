// Answers from few positions: a structure at which a graph holds, or a refutation of it, without the whole decision game.
//
// The calls to know:
// - `search` answers with a model or a refutation, and is undecided only where the decision game of the graph passes its
//   limit: what the search alone doesn't find, the whole game decides.
// - `by_whole_game` is the other half alone: it answers by the decision game, and is undecided exactly where that passes the
//   limit. `solved_game` gives the game itself with its solution, and `shown` what it shows.
// - `seek` is the search alone, for tests and measurements.
//
// Four searches make candidates, of which nothing is proved: that for words (`ml_search_frames`), that for weak threads
// (`ml_search_focus`), that for other threads, in copies of the graph (`ml_search_copies`), and that for any graph
// (`ml_search_rounds`). A check lets them out: a structure by claims that are looked through, or else by the checking game
// (`checking_models`), a refutation by the rules of acceptance (`checking_refutations`). So whatever the engines do, an answer
// is right (`specs/Found.antt`).
//
// Below stand the engines, the decision game (`ml_product`) with what is made of it (`ml_extract`, `ml_refute`), graphs and the
// checking game (`ml_graph`), its cheap check (`ml_witness`), and the checker of refutations (`ml_refute_check`).
#![tactic(auto)]

mod checking_models;
mod checking_refutations;
mod found;
mod refusals;
mod searching;
mod well_formed;
mod whole_game;

pub use found::Found;
pub use refusals::SearchRefusal;
pub use searching::{search, seek};
pub use whole_game::{SolvedGame, by_whole_game, shown, solved_game};
