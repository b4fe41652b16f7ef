// Small word automata of the formulas of tasks, ready to be counted, of which nothing is claimed.
//
// A machine realizes a task if no word of it is accepted by an automaton of the negated formula, and an environment defeats it
// if none is accepted by an automaton of the formula itself. `ml_make_engine` looks for such ones by counting, along each
// run, how often an accepting arc was passed. So few states matter, and few accepting arcs. Whoever uses what comes of this
// checks it: no clause says what these automata accept. It is proved that this crate is safe and that it ends.
//
// - `formulas` has the formulas with negations at names alone; `branches` what a set of them asks of a moment and of the next
//   one; `sets` the automaton whose states are such sets.
// - `degeneralising` passes the untils in turn, so that runs accept by arcs: letters with the same arcs are one class.
// - `shrinking`, `lessening` and `simulation` make automata smaller.
// - `counting` is what comes of all this, and `making` has the calls: `add_automata` of a task, and `sets_of_formula` of a
//   formula alone, for whoever passes the untils in another way.
//
// Source: Gastin and Oddoux, Fast LTL to Büchi automata translation (2001); Somenzi and Bloem, Efficient Büchi automata from
// LTL formulae (2000).
//
// Below stand tasks (`ml_task`), and lists that are read and written anywhere (`ml_arrays`).
#![tactic(auto)]

mod automata;
mod branches;
mod counting;
mod degeneralising;
mod formulas;
mod lessening;
mod making;
mod sets;
mod shrinking;
mod simulation;

pub use counting::{Count, Counting, CountingArc};
pub use making::{add_automata, letters_of, sets_of_formula};
pub use sets::{Edge, Sets};
