// What holds of the families by their definitions alone: the functions do nothing, their contracts are the theorems.
ghost use Rattle.std.specs.Prelude.{◌+◌, ◌-◌, ◌^◌};
ghost use Rattle.ml_gen.specs.Formulas.{and_formula, loop_formula, or_formula, step_formula};
ghost use Rattle.ml_families.specs.Sizes.{LoopsAreSatisfiable, MuGames, PdlGames};

/// The decision game of the family's formula for `n`, from 1 on, has one position in `and`, `2^(n+1) - 1` in `or`, and
/// `n + 1` in `step` and in `loop`.
pub fn games_are_counted()
    ensures conjunctions { MuGames and_formula (λ n. 1) }
    ensures disjunctions { MuGames or_formula (λ n. 2 ^ (n + 1) - 1) }
    ensures steps { PdlGames step_formula (λ n. n + 1) }
    ensures loops { PdlGames loop_formula (λ n. n + 1) }
{}

/// The formulas of `loop` are satisfiable.
pub fn loops_are_satisfiable()
    ensures { LoopsAreSatisfiable }
{}
