// Realizability: is there a machine all of whose words satisfy a formula of LTL, whatever its inputs are?
//
// `realize` answers a task with such a machine, or with an environment that defeats every machine. `specs/Realizing.antt` says
// what that means, `specs/TaskGame.antt` which game decides it and how large it is. No task has both: `laws::never_both`. Each
// is too large, or its game is, or an outcome is found: `laws::some_outcome`. How large the two are depends on no names and
// numbers: `laws::one_game`.
//
// The way there: the word automaton of the negated formula (`ml_word_automaton`), its letters for all valuations, its histories
// (`ml_determinise`), and the game over these (`ml_synthesis`). Tasks and their texts stand in `ml_task`.
#![tactic(auto)]

pub mod laws;
mod letters;
mod realizing;
mod refusals;

pub use letters::row_of;
pub use realizing::{MOST_NODES, realize};
pub use refusals::RealizeRefusal;
