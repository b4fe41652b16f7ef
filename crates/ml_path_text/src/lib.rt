// A document shows a structure and a formula: is there a path of the structure that shows the formula, and which?
//
// `path_of` reads a document that answers `satisfiable`, and answers what a model checker is asked for: for a problem of LTL a
// path that shows it, for `E f` of CTL* one that satisfies f, and for `A f` one that doesn't, so that it shows how `A f` fails.
// It tells the path in two lines, and behind them stands a document of its own: the word of the labels along the path, which
// whoever checks LTL on words confirms. Or it tells that there is no such path.
//
// What is asked of a path stands in `specs/PathProblems.antt`, how one is written in `specs/WrittenPath.antt`, and what is
// found of a text in `specs/Found.antt`. `laws` says that exactly one thing is found, and that it agrees with
// `ml_model_check`.
//
// Below stand `ml_paths`, which looks for paths; `ml_model_check`, for documents; `ml_front`, for problems and heads;
// `ml_kripke`, for structures and bodies; `ml_word_check`, for words. Above stands the program.
#![tactic(auto)]

mod admitted;
mod finding;
pub mod laws;
mod problems;
mod searching;
mod writing;

pub use finding::PathFinding;
pub use searching::path_of;
