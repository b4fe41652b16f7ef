// LTL: its formulas, what they mean, and their texts.
//
// A formula of LTL is a path formula of CTL* without quantifiers, so all that is said and done of formulas stands in
// `ml_ctl`, with the language as a part: the terms, the plain formula in contracts, the truth along paths, the grammar, and
// the functions. Here they have the names of LTL.
//
// Begin with `Formula`; `parse` gives the formula of a text, and `print` its canonical text. What a formula means at a
// state, and where a problem holds, stands in `specs/Problem.antt`. The module `laws` has what is true of problems.
//
// Below stand `ml_ctl`, and with it `ml_text` and `ml_base`.
#![tactic(auto)]

mod formula;
pub mod laws;

pub use formula::{Formula, parse};
pub use ml_ctl::{append_text, copy, occurrences, print};
