// Whether a graph holds at a state of a structure, told cheaply where it can be.
//
// `surely_holds` answers true only where the graph holds; false says nothing. It makes claims about pairs of a state and a
// node, with ranks, and looks each of them through (`specs/private/Claims.antt`). The checking game isn't made: there is one
// number for each pair. Of the making nothing is proved but that it is safe and ends.
//
// - `making` makes the claims: the strong components of the graph are evaluated from below, least fixpoints by
//   what enters, greatest ones by what is taken out.
// - `checking` looks them through.
//
// Below stand graphs and the checking game (`ml_graph`), and structures (`ml_kripke`). Above stands the search, which asks the
// checking game itself where this says false.
#![tactic(auto)]

mod checking;
mod holding;
mod making;
mod rows;

pub use holding::surely_holds;
