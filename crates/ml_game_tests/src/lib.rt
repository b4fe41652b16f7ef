// Tests of the local phase on graphs: of the calls that make each spread anew, and of what they say of graphs worked out by
// hand. They stand here, above the crates that they call, so that none of those is proved a second time for its tests.
//
//   graphs         the graphs that tests take
//   sequent_tests  spreads, clashes, splits and steps
#![tactic(auto)]

#[cfg(test)]
mod graphs;
#[cfg(test)]
mod sequent_tests;
