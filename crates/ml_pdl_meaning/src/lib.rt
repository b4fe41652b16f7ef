// The meaning of PDL, computed: the set of the states at which a formula holds, and the relation of a program.
//
// Begin with `evaluate`; `holds` asks for one state, and `relates` whether a run of a program leads from one state to
// another. What formulas and programs mean stands in `ml_pdl/specs/Meaning.antt`.
//
// Below stand `ml_pdl`, with formulas, programs and their meaning, and `ml_kripke`, with structures; above stand tests.
#![tactic(auto)]

mod evaluator;
mod sets;

pub use evaluator::{evaluate, holds, relates};
