// Documents of machines and environments checked: is the machine right, or the environment?
//
// `check_document` reads the document of a task with a machine or an environment, as `ml_realize_text` writes it, and checks
// it anew: it trusts nothing of who wrote it. Where the machine isn't right, or the environment, it shows a word of it as a
// document of its own, which whoever checks LTL on words confirms. What is found of a text stands in `specs/Found.antt`;
// `laws` says that exactly one thing is found, and that what is made and written for a task is found right.
//
// Below stand `ml_realize_text`, for the documents; `ml_machine_check`, which looks for the word; `ml_paths`, for the
// structure of a word; and `ml_model_check`, for the document of a structure. Above stands the program.
#![tactic(auto)]

mod checking;
mod finding;
mod labels;
pub mod laws;
mod showing;

pub use checking::check_document;
pub use finding::MachineFinding;
