// Refutations: what is written where no structure meets a graph, so that anyone can check it.
//
// A `Refutation` is a list of entries. Each has a sequent, that is nodes of a graph which would have to hold at one
// state; items, which trace how the nodes came there; heights, which bound how often bad steps can come; and a decision:
// for each way to choose sides at or-nodes, a clash, or a diamond along which the entry is left for another one.
// Sequents and stacks stand in tables, `Lists`, in which entries and items name them by their places, so that many can
// have the same. Contracts see it as the plain refutation of `specs/Refutation.antt`.
//
// Below stand `ml_trace`, whose items and marks these are, and `ml_sequent`, whose clashes. Above stand the texts of
// refutations, what makes them, and the checker.
#![tactic(auto)]

pub mod laws;
mod lists;
mod refutation;

pub use lists::Lists;
pub use refutation::{Decision, Entry, Item, NESTING_LIMIT, Refutation};
