// Tests of the automata of formulas of LTL. They stand here, above the crates that they call, so that none of those is
// proved a second time for its tests.
//
//   automaton_tests  word automata of small formulas, worked out by hand
//   translate_tests  Büchi automata of small formulas, as texts
#![tactic(auto)]

#[cfg(test)]
mod automaton_tests;
#[cfg(test)]
mod translate_tests;
