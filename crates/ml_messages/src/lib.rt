// What is told people on standard error about an answer: where an input is at fault, and why.
//
// `explanation` takes a command, its input and what its answer says, and tells this in a sentence: the line and the column of
// a formula's fault, the word that is found there and what may follow in its place; the line of a document that is at fault,
// and what its rule asks; and, where a document is checked, which formula it speaks of. `words_fault` takes words that are no
// command, and tells which of them is at fault.
//
// `warnings` tells, beside an answer, which propositions of a file of requirements stand in one formula alone.
//
// No contract speaks of these sentences. The output and the status of a call are those of `ml_driver::run`, whatever is told
// here.
//
// Below stand `ml_driver`, for commands and what is said of them; `ml_front` and `ml_written`, whose parsers say what may
// follow; and `ml_spec`, for lines and columns. Above stands the program.
#![tactic(auto)]

mod answers;
mod documents;
mod expected;
mod explaining;
mod formulas;
mod grammar;
mod hints;
mod lone;
mod names;
mod requirements;
mod rules;
mod shown;
mod words;

pub use explaining::explanation;
pub use lone::warnings;
pub use words::words_fault;
