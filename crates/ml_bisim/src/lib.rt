// The bisimulation quotient of a Kripke structure.
//
// Two states of a structure are bisimilar if no formula can tell them apart. The quotient has one state for each class of
// bisimilar states: the smallest structure in which every formula holds where it held before. What this has to do with
// formulas is proved above, in `ml_bisim_problems`: those of all logics are carried over, and those of modal logic tell
// states apart that aren't bisimilar.
//
// The calls to know:
// - `quotient` makes the quotient of a structure, and tells the class of each state.
// - `laws` says what that is good for: a modal graph holds at a state exactly where it holds at the state's class, and
//   no two states of the quotient are bisimilar.
//
// Below stand `ml_kripke`, for structures, and `ml_graph`, for graphs and the game that says where they hold.
#![tactic(auto)]

mod choice;
mod edges;
pub mod laws;
mod merging;
mod naming;
mod numbering;
mod partition;
mod places;
mod quotients;
mod rounds;
mod signatures;

pub use merging::quotient;
pub use quotients::Quotient;
