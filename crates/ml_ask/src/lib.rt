// Questions about requirements, answered.
//
// `ask` answers the questions of a specification: whether all requirements can be met together, and where they can't, whether
// the rest can; whether something can happen where they are met, and whether something follows from them. Each comes down to
// one question: has some structure a state at which the joined formula of requirements and a question holds?
//
// An answer is a structure for all requirements of which the question is asked; or some that have none, with a refutation, and
// for each of them a structure for the others; or it stays open. Answers and what they say stand in `ml_replies`.
//
// Inside, `seeking` looks for a structure of all requirements: by `earlier` answers; by `searching`, one search with all
// formulas at once and some with those that clash, of which nothing is claimed; by `narrowing`, with few of them first; and at
// last with all together. `leaving` leaves out of requirements that can't be met together those that aren't needed for it, and
// shows for each of the rest that it is. `hints` are structures that were found on the way.
//
// Below stand what answers say and structures that are checked (`ml_replies`), specifications (`ml_spec`), decisions
// (`ml_decide`) and the search with all formulas at once (`ml_joined_graph`).
#![tactic(auto)]

mod asked;
mod asking;
mod copying;
mod deciding;
mod earlier;
mod hints;
mod leaving;
mod narrowing;
mod searching;
mod seeking;
mod sets;
mod sought;

pub use asking::ask;
