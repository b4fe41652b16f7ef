// Büchi automata from files, in HOA, the format of automata over infinite words.
//
// `read` gives the automaton that a text stands for, exactly as `specs/Tokens.antt`, `specs/Grammar.antt` and
// `specs/AutomatonText.antt` say, or the place where the text is refused (`specs/Refusals.antt`). What is read is a profile
// of the format's first version: Büchi automata with guards on the edges, of at most 1,000 states and 8 propositions.
// A `Buchi` keeps these limits. `laws` says that each text has one answer, and what the limits are.
//
// What writers of such texts have alike is here too (`specs/WrittenLines.antt`): the lines before the acceptance, those around
// the states, and literals. `ml_buchi` and `ml_labelled` write texts.
//
// Below stand `ml_text`, for blanks and digits, and `ml_lines`, for numbers.
#![tactic(auto)]

mod buchi;
mod guard;
pub mod laws;
mod level;
mod limits;
mod numbers;
mod reader;
mod reading;
mod refusal;
mod token;
mod writing;

pub use buchi::{Buchi, BuchiEdge, Quoted};
pub use guard::Guard;
pub use limits::{
    LONGEST_AUTOMATON_TEXT, MOST_EDGES, MOST_OPEN, MOST_OPERATORS, MOST_PROPS, MOST_STATES,
};
pub use reading::read;
pub use refusal::HoaRefusal;
pub use writing::{
    PropName, write_body_line, write_last_line, write_opening, write_signed, write_state_line,
};
