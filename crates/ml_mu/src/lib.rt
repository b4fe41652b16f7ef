// The modal mu-calculus: its formulas, their meaning over Kripke structures, and their texts.
//
// Begin with `Formula`, which contracts see as the plain formula of `specs/Formula.antt`; `parse` gives the formula of
// a text, exactly as `specs/Grammar.antt` and `specs/Parsing.antt` say, and `print` its canonical text. What a formula
// means stands in `specs/Meaning.antt`, what a problem is in `specs/Problem.antt`; `evaluate` computes the meaning on a
// structure, and `holds` asks for one state. The module `laws` has what is true of texts and of meanings: a text has
// one answer, binders mean fixpoints.
//
// Below stand `ml_base` (names, structures), `ml_kripke` (the structures that a program holds), `ml_lines` (lines),
// `ml_text` (tokens and grammars) and `ml_lists` (iterates); above stand the graph of a formula and the program.
#![tactic(auto)]

mod connecting;
mod copying;
mod evaluator;
mod forms;
mod formula;
pub mod laws;
mod notation;
mod parsing;
mod printing;
mod replacing;
mod signs;
mod term;
mod variables;

pub use connecting::{conjunction, negation, truth};
pub use copying::{copy, occurrences};
pub use evaluator::{evaluate, holds};
pub use formula::Formula;
pub use parsing::parse;
pub use printing::{append_text, print};
pub use replacing::replaced;
pub use term::{Fixpoint, Modality, Term};
