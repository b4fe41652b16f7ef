// Answers to questions about requirements, and whether a structure meets requirements and a question.
//
// A question is asked of some of the requirements of a specification: can these be met together where the question is asked? An
// answer is a structure that shows it; or a conflict, requirements among them that can't be met together, with a refutation and
// what is known without each of them; or it stays open. `Answered` holds a question with its answer. What answers say stands in
// `specs/Replies.antt`, over `specs/Meeting.antt`, and their plain values in `specs/Answers.antt`.
//
// The call to know is `meets`: it checks a structure for requirements and a question, formula by formula where that is enough.
// Whoever checks several structures makes the problems once, by `problems_of`, and calls `meets_by`. `laws` says what answers
// mean, that fewer requirements can be met wherever more can, that conflicts are apart, and that there always are answers.
//
// Below stand specifications (`ml_spec`), structures that are checked (`ml_model_check`) and decisions (`ml_decide`), of which
// the laws speak. Above stand the crates that find answers (`ml_ask`), and those that write and check them.
#![tactic(auto)]

mod answer;
mod checking;
pub mod laws;
mod outcome;
mod problems;

pub use answer::{Answer, Answered, Core, Part, Without};
pub use checking::{meets, meets_by};
pub use outcome::Meets;
pub use problems::{problem_of_item, problems_of};
