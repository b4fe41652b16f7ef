// Formulas as texts of files have them: those of LTL may have bounded operators, which `decide` reads in no text.
//
// Begin with `Written`. `read` gives the formula of a text in a logic, and `meaning` the formula of any logic that it stands
// for, exactly as `specs/Written.antt` says. `add_propositions` and `first_undeclared` are for files that declare their
// propositions: what stands in a formula, and where the first stands that isn't declared (`specs/Propositions.antt`,
// `specs/Places.antt`). The module `laws` has what is true of texts.
//
// Below stand the formulas of the logics, `ml_bounded` among them, and `ml_front`, with formulas of any logic.
#![tactic(auto)]

mod collecting;
pub mod laws;
mod passing;
mod places;
mod propositions;
mod written;

pub use collecting::add_propositions;
pub use places::first_undeclared;
pub use propositions::is_proposition;
pub use written::{Written, meaning, read};
