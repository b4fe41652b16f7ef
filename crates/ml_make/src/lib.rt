// Machines and environments from few positions, for the tasks of `ml_realize`.
//
// `make` answers a task with a machine that realizes it, or with an environment that defeats it. A search that claims nothing
// (`ml_make_engine`) makes a candidate; it is let out if the check of machines (`ml_machine_check`) says that it holds, and if
// its states are numbered breadth first and no more than a document may have (`ml_realize_text`). Else the whole game decides
// (`ml_realize`), and each refusal is one of that. `specs/Making.antt` says what an answer is; `laws` says that there is one
// for each task whose game isn't too large, and never two that differ in who wins.
//
// Below stand these four, with tasks (`ml_task`) and what is made of them (`ml_synthesis`).
#![tactic(auto)]

mod fitting;
pub mod laws;
mod making;
mod numbering;

pub use making::make;
