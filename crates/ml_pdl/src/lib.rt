// Propositional dynamic logic: its formulas and programs, what they mean, and their texts.
//
// Begin with `Formula`, which contracts see as the plain formula of `specs/Formula.antt`; `parse` gives the formula of a
// text, exactly as `specs/Grammar.antt`, `specs/Text.antt` and `specs/Parsing.antt` say, and `print` its canonical text.
// What formulas and programs mean stands in `specs/Meaning.antt`, and where a problem holds in `specs/Problem.antt`. The
// module `laws` has what is true of texts and of meanings.
//
// Below stand `ml_text`, with tokens and grammars, `ml_lines`, with what is written whole or not at all, and `ml_base`, with
// structures; above stands `ml_pdl_graph`, with their graphs.
#![tactic(auto)]

mod connecting;
mod copying;
mod forms;
mod formula;
pub mod laws;
mod marking;
mod notation;
mod parsing;
mod printing;
mod replacing;
mod signs;
mod term;

pub use connecting::{conjunction, negation, truth};
pub use copying::{copy, occurrences};
pub use formula::Formula;
pub use parsing::parse;
pub use printing::{append_text, print};
pub use replacing::replaced;
pub use term::{Modality, Program, Term};
