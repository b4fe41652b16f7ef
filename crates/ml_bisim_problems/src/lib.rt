// Problems and the quotient of a structure: what holds at a state holds at its class, and formulas tell classes apart.
//
// `laws` says the first of the problems of all logics, and the second of formulas of modal logic: states at which the same
// formulas hold are bisimilar, so that no structure that says the same has fewer states than the quotient. Nothing here runs:
// the functions are empty, their contracts are the theorems.
//
// Below stand `ml_bisim`, for quotients and the same law of graphs, and `ml_front`, for problems and their graphs.
#![tactic(auto)]

pub mod laws;
