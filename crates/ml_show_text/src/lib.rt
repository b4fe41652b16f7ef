// Documents as people read them, from their texts.
//
// `show` reads a document of whichever kind and writes what it says, as a text for people. Its first two lines tell its kind
// (`Kind`): a machine or an environment of a task, or that neither is told, or what is decided of a problem, satisfiable,
// unsatisfiable or undecided. A document of answers is shown behind its specification (`ReadAs`). Which texts are documents, and
// where another text is refused, is said in `specs/Shown.antt` in the words of the crates that check documents:
// `ml_model_check`, `ml_refute_check`, `ml_realize_text` and `ml_answers`. The body of an
// undecided document has its rules here, in `specs/UndecidedBodies.antt`, and so has the document of an undecided task, in
// `specs/UndecidedTasks.antt`. `laws` says that each text is a document or has one first bad line.
//
// Below stand the readers of documents and `ml_show`, which writes the pages; above stands the program.
#![tactic(auto)]

mod answers;
mod cause_rule;
mod input;
mod kind;
pub mod laws;
mod limits;
mod refusal;
mod showing;
mod undecided;
mod undecided_tasks;

pub use cause_rule::CauseRule;
pub use input::{ReadAs, read_as};
pub use kind::{Kind, kind_of};
pub use limits::LONGEST_SHOWN;
pub use refusal::{ShowFault, ShowRefusal};
pub use showing::show;
