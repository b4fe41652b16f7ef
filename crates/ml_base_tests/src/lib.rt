// Tests of streams and sets of numbers. They stand here, above `ml_base`, so that it isn't proved a second time for
// them.
#![tactic(auto)]

#[cfg(test)]
mod base_tests;
