// Files of requirements and questions, answered as text.
//
// `ask_text` reads a specification, has its questions answered, and writes the answers: as lines, one for each question, or as
// a document, where what shows each answer stands behind its line. It tells what the answers come to: whether all is as whoever
// wrote the text means it. A text that is no specification is refused.
//
// What is told of a text stands in `specs/Told.antt`, over what answers say (`ml_replies`) and their lines and documents
// (`ml_answers`). `laws` says that something is told of each text, and that two things told of one text never contradict each
// other. That whoever checks such a document confirms it is a law of `ml_answers`.
//
// Below stand answers to questions (`ml_ask`), specifications (`ml_spec`), and the texts of structures (`ml_kripke`) and
// refutations (`ml_refutation_text`). Above stands the program.
#![tactic(auto)]

mod asking;
mod document;
pub mod laws;
mod lines;
mod told;
mod verdict;
mod words;

pub use asking::ask_text;
pub use told::{Form, Told, Verdict, WrittenAnswers};
