// Problems of all logics, and the heads of documents about them.
//
// A `Problem` is a formula of any logic with its sense. `read` gives the problem of a text, `negated` the one in the
// other sense, `print` the canonical text, and `graph` the modal graph that holds where the problem does; what a problem
// asks stands in `specs/Problems.antt`. Formulas are made of others by `negation`, `conjunction`, `joined` and, by definitions,
// `replaced`, within the limit on their size. Whoever stands above needs no word of any one logic.
//
// A document begins with five lines, its head, and goes on with a body. `read_head` reads the head where one answer is
// wanted, in either version, and tells the first bad line where there is none; `write_head` writes it. What a head is,
// and by which rules it is refused, stands in `specs/HeadRules.antt`, and what a document shows by head and body in
// `specs/Documents.antt`.
//
// The logics are the mu-calculus, PDL, CTL*, LTL, and LTL on single words. CTL* and LTL speak of the structures in which each
// state has an edge by `_`, and LTL on words of those in which each has exactly one. The closure of a problem of CTL* and LTL,
// from which its graph is made, may be too large: `graph` says so.
//
// `laws` says that the graph of a problem holds where the problem does, and that each text is a head or is refused at
// one line.
//
// Below stand the formulas of the logics (`ml_mu`, `ml_pdl`, `ml_ctl`, `ml_ltl`) and their graphs (`ml_mu_graph`,
// `ml_pdl_graph`, `ml_blocks`, `ml_word_graph`), `ml_graph` (graphs), `ml_lines` (lines and words) and `ml_lists` (documents as
// places and rules); above stand the crates that decide problems, and those that check and write documents.
#![tactic(auto)]

mod answer;
mod connecting;
mod enumerating;
mod head_rule;
pub mod laws;
mod logic;
mod problem;
mod reading;
mod replacing;
mod title;
mod writing;

pub use answer::Answer;
pub use connecting::{conjunction, joined, keeps, negation, occurrences, truth};
pub use enumerating::enumeration;
pub use head_rule::HeadRule;
pub use logic::Logic;
pub use problem::{
    AnyFormula, MOST_NODES, Problem, copy, copy_formula, graph, negated, print, read,
};
pub use reading::{Head, read_head};
pub use replacing::{Definitions, replaced};
pub use writing::{append_head, write_head};
