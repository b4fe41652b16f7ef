// Parity games from files, in PGSolver's format, and the text of their solutions.
//
// `read` gives the game that a text stands for, with the ids of its vertices (`Named`), exactly as `specs/Tokens.antt`,
// `specs/Grammar.antt` and `specs/GameText.antt` say, or the place where the text is refused (`specs/Refusals.antt`).
// `read_checked` reads a game with a solution behind it, as claims about its vertices (`specs/CheckedText.antt`), and
// `check_solution` checks them. `write` gives the text of a solution of such a game (`specs/SolutionText.antt`). `laws` says
// that each text has one answer, and what the limits are.
//
// Below stand `ml_parity`, with games and solutions, `ml_game_check`, with claims, `ml_text`, for blanks and digits, and
// `ml_lines`, for numbers.
#![tactic(auto)]

mod assembling;
mod checked;
mod claiming;
mod entries;
mod finding;
pub mod laws;
mod limits;
mod named;
mod reader;
mod reading;
mod refusal;
mod scan;
mod writing;

pub use checked::{ClaimedGame, read_checked};
pub use finding::{SolutionFinding, check_solution};
pub use limits::{
    GREATEST_NUMBER, LONGEST_CHECKED_TEXT, LONGEST_GAME_TEXT, MOST_SUCCESSORS, MOST_VERTICES,
};
pub use named::Named;
pub use reading::read;
pub use refusal::GameTextRefusal;
pub use writing::write;
