// Tasks for a machine, and their texts.
//
// A task has inputs and outputs, which are propositions, and a formula of LTL that speaks of these alone. Its text has three
// lines:
//
//     inputs request
//     outputs grant
//     formula G(request -> F grant)
//
// `read` gives the task of a text, or tells its first bad line. What a task is stands in `specs/Task.antt`, what its texts are
// in `specs/TaskText.antt`; `laws` says that each text is one of one task, or has one first bad line.
//
// Below stand `ml_ltl`, for the formula, and `ml_lines`, for lines and words; above stands `ml_realize`, which looks for a
// machine.
#![tactic(auto)]

pub mod laws;
mod limits;
mod lines;
mod reading;
mod task;
mod task_rule;
mod words;

pub use limits::LONGEST_TASK_TEXT;
pub use reading::read;
pub use task::{MOST_NAMES, Task};
pub use task_rule::TaskRule;
