// What is learned of a graph while models or refutations of it are searched: cores, of which nothing is claimed.
//
// A core is a set of nodes that can't all stand. Some are known for good; others for one thread, an eventuality that has to
// be ended, and so many steps: those of a component of threads are its frames. Cores of frames are tried one step higher
// (`pushing`), until some refute each other (`concluding`), and are settled for good (`settling`). Once the root is refuted,
// the cores make a refutation (`refutations`, with decisions from the trees of `ml_sequent_solver`). Two searches learn so: the
// one of `ml_search_frames`, for words, and that of `ml_search_focus`. It is proved that all is safe and ends.
//
// Source: Bradley, SAT-based model checking without unrolling (2011); Li and others, SAT-based explicit LTL reasoning (2015).
//
// Below stand the solver (`ml_sequent_solver`), graphs (`ml_graph`), candidates (`ml_candidates`), and what those for
// refutations are made of (`ml_refutation`).
#![tactic(auto)]

mod concluding;
mod decisions;
mod knowing;
mod learning;
mod pushing;
mod refutations;
mod settling;

pub use concluding::Concluded;
pub use knowing::{Knowledge, lies_within, steps_of};
