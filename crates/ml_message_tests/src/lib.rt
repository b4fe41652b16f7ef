// Tests of what is told people on standard error. They stand here, above the crate that they call, so that it isn't proved a
// second time for its tests.
//
//   formulas    where formulas are refused, and what may follow there
//   documents   where documents, tasks, games, automata and requirements are refused, and of which problem a document speaks
//   words       why words are no command
#![tactic(auto)]

#[cfg(test)]
mod documents;
#[cfg(test)]
mod formulas;
#[cfg(test)]
mod words;
