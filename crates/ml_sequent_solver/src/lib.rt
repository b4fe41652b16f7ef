// Queries about one sequent of a graph, answered by a solver that learns, of which nothing is claimed.
//
// A query asks for choices at the or-nodes of a sequent under which it can stand: no clash, each or-node settled, and no
// target set that was refuted before (a core) within the targets along a standing diamond. The answer is such a leaf, or a
// tree of choices all of whose ends clash, with what it used of the sequent. Nothing is said of the answers: who uses them
// checks what comes of them. It is proved that queries are safe and that they end.
//
// - `Terms` is what depends on the graph alone, and `Part` some of its nodes with their strong components.
// - `Branch` is the spread of a sequent under choices, with what follows; it grows by unit propagation and is taken back.
//   Cores (`Core`) are watched by two of their nodes.
// - `Solver` asks queries: choices by activity (`choices`, with a heap in `order`), analysis of clashes, jumps back past
//   choices that don't matter.
//
// Source: Marques-Silva and Sakallah, GRASP (1999); Moskewicz and others, Chaff (2001).
//
// Below stand `ml_graph`, and lists that are read and written anywhere (`ml_arrays`).
#![tactic(auto)]

mod branches;
mod choices;
mod cores;
mod marks;
mod order;
mod parts;
mod solver;
mod spreading;
mod terms;
mod threads;
mod trees;
mod watching;

pub use branches::{Branch, Clash, Facts, Targets, Why};
pub use cores::{Core, Cores, FOR_GOOD, OFF};
pub use marks::Marks;
pub use parts::Part;
pub use solver::{Outcome, Solver};
pub use terms::Terms;
pub use threads::Threads;
pub use trees::{Tree, Trees};
pub use watching::Watches;
