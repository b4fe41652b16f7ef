// Families of formulas: a formula for each number of a range, as measurements and tests want it.
//
// `formula` gives the text of a family's formula for a number, and `logic_name` the logic that it is of; a family is
// named by a word (`Family::word`, `Family::named`). What the texts are stands in `specs/Families.antt`, and `laws` says
// that each is parsed in its logic.
//
// Below stand `ml_base`, `ml_lines`, which appends numbers, and the formulas of the logics (`ml_mu`, `ml_pdl`, `ml_ctl`),
// which the law alone speaks of; above stands `ml_driver`.
#![tactic(auto)]

mod family;
pub mod laws;
mod texts;

pub use family::{Family, logic_name};
pub use texts::{GenRefusal, formula};
