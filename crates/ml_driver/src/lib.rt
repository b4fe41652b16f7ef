// The program as one call over a source and a sink.
//
// `run` reads the words, then the source to its end, computes the answer as a value, makes its whole output as bytes,
// and only then writes. Its contract (`specs/Run.antt`) says which status and output are due, and what each status
// leaves behind. `call` does the same, and gives back what the output says as a value (`specs/Calls.antt`), for those who tell
// people of it; `answer` answers a command on a text, with no source and no sink.
//
// Which words are a command stands in `specs/Words.antt`, and in `table.rt`. What an answer of one line says, and the line,
// stands in `specs/Said.antt`. What the answers of `decide` and `valid` mean, in any of the five logics, stands in
// `specs/Decision.antt` (they are decisions of `ml_decide`, which knows nothing of texts), what `quotient` answers in
// `specs/Quotients.antt`, what `solve-game` answers in `specs/Games.antt`, what `check-game` answers in
// `specs/CheckedGames.antt`, what `determinise` answers in `specs/Automata.antt`, what `automaton` answers in
// `specs/Translations.antt`, what `path` answers in `specs/Paths.antt`, what `check-machine` answers in
// `specs/CheckedMachines.antt`, what `realize` and `make` answer in `specs/Tasks.antt`, what `ask` answers in
// `specs/Asked.antt`, and which texts `show` shows in `ml_show_text`. Which documents in outputs are confirmed stands in
// `specs/Confirmed.antt`. `Status::code` is the number with which the program ends. `laws` says that some status is due for all
// words and each input, and one alone but for `find`, `prove`, `make` and `ask`; that answers are exact; and that what is
// written is found to be right.
//
// Below stand all crates that it calls; above stand only the program `mlsolver` and its messages.
#![tactic(auto)]

mod asking;
mod bench;
mod check;
mod checking_answers;
mod checking_games;
mod checking_machines;
mod command;
mod decide;
mod determinising;
mod engine;
mod finding_paths;
mod input;
pub mod laws;
mod output;
mod question;
mod quotienting;
mod realizing;
mod refusing;
mod said;
mod showing;
mod solving;
mod status;
mod table;
mod top;
mod translating;
mod words;

pub use command::{Command, GREATEST_LIMIT, LONGEST_DOCUMENT, LONGEST_NUMBER, LONGEST_TEXT};
pub use engine::Engine;
pub use output::Output;
pub use question::Question;
pub use said::{Said, Size, TextKind};
pub use status::Status;
pub use table::{Further, TABLE, Verb};
pub use top::{Ending, answer, call, run};
pub use words::command_of;
