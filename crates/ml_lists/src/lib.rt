// General mathematics that the crates above share: numbers, lists, sequences, lassos, counting and search.
//
// Nothing here knows a formula, a structure or a game, and nothing here runs: the crate has definitions (`specs/`)
// and lemmas (`proofs/`) alone. A crate above names them as `Rattle.ml_lists.specs.Lowest` or
// `Rattle.ml_lists.proofs.Pigeons`. What to know first:
// - `Search`: a search below a bound finds a number with one property, or shows that each has the other; the first
//   such number; one at which a function is least.
// - `Lasso`: a list with a loop start, its round, and the lowest number on its loop. `Loops` and `Walks` treat loops as
//   sequences, which are easier to cut and to map; `Unrolling` the endless sequence that a lasso stands for.
// - `Pigeons`: a sequence or list of more than n numbers below n takes one value twice.
// - `Counting`, `Growing`, `Reach`: how many numbers pass a test, sets that grow and come to rest, ways along a relation.
// It stands on nothing but std; every crate may stand on it.
#![tactic(auto)]
