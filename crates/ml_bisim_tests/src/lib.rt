// Tests of quotients. They stand here, above the crates that they call, so that none of those is proved a second time for its
// tests.
//
//   quotient_tests   the classes of bisimilar states, worked out by hand
#![tactic(auto)]

#[cfg(test)]
mod quotient_tests;
