// LTL with bounded operators, `X[n]`, `F[m:n]` and `G[m:n]`: its formulas, their texts, and what they are written out.
//
// Formulas in files of requirements may have such operators; texts of `decide` have none, and are those of `ml_ltl`.
// Begin with `BoundedFormula`, which contracts see as the plain formula of `specs/Formula.antt`. `parse` gives the formula of
// a text, exactly as `specs/Grammar.antt`, `specs/Text.antt` and `specs/Parsing.antt` say, and `written_out` the formula of LTL
// that it stands for, as `specs/WrittenOut.antt` says. The module `laws` has what is true of texts.
//
// Below stand `ml_text`, with tokens and grammars, and `ml_ctl`, with the formulas of LTL.
#![tactic(auto)]

mod forms;
mod formula;
pub mod laws;
mod notation;
mod numbers;
mod parsing;
mod signs;
mod term;
mod writing_out;

pub use formula::BoundedFormula;
pub use parsing::parse;
pub use term::{Bound, Reach, Term};
pub use writing_out::written_out;
