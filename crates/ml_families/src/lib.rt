// The decision games of the families of formulas, measured for all numbers.
//
// `ml_gen` has the families, their formulas and how many occurrences these have; `bench` of `ml_driver` measures one of
// them. Here stand the laws that say how many positions their decision games have for each number, and nothing that runs.
//
// The laws stand on one lemma (`proofs/Listed`): positions that are reached, the start among them, of which none stands
// twice and from which moves lead to one another alone, are all that are reached. The games of `step` and `loop` are
// lines of positions (`Kinds` there), those of `and` and `or` trees of choices (`proofs/Trees`).
//
// Below stand `ml_gen`, the graphs of the mu-calculus and of PDL (`ml_mu_graph`, `ml_pdl_graph`), and `ml_product`.
#![tactic(auto)]

pub mod laws;
