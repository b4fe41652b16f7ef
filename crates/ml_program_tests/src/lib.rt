// Tests of evaluators that no command calls. They stand here, above all crates that they call, so that none of those is proved
// a second time for its tests. What the program answers to words and inputs is told by the rows of `ml_examples`.
//
//   meaning_tests  formulas and programs evaluated on a whole structure
#![tactic(auto)]

#[cfg(test)]
mod meaning_tests;
