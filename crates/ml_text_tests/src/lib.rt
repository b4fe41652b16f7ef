// Tests of texts that no command of the program writes. They stand here, above the crates that they call, so that none of
// those is proved a second time for its tests. Texts with what they stand for, or with their refusals, are rows of
// `ml_examples`.
//
//   specification_tests  requirements and questions: where texts are refused, what is joined
//   writing_tests   a model, a refutation in version 1, and formulas alone
#![tactic(auto)]

#[cfg(test)]
mod specification_tests;
#[cfg(test)]
mod writing_tests;
