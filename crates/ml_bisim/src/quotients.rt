// What a quotient is: a structure, and the class of each state.

use ml_kripke::Structure;

/// A quotient, and the class of each state of the structure of which it was made: a state of the quotient.
#[derive(Drop)]
pub struct Quotient {
    pub structure: Structure,
    pub class: Vec<u32>,
}
