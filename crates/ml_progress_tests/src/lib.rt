// Tests of progress measures, which no command shows. They stand here, above the crates that they call, so that none of those
// is proved a second time for its tests.
//
//   worked_tests   measures that were worked out by hand
#![tactic(auto)]

#[cfg(test)]
mod worked_tests;
