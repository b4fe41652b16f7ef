// What holds of the families by their definitions alone: the functions do nothing, their contracts are the theorems.
ghost use Rattle.ml_gen.specs.Formulas.{AreCounted};
ghost use Rattle.ml_gen.specs.Parsed.{AreParsed, ParsedAsOne};

/// The text of each family, for each number of its range, is parsed as the family's formula for this number, in its logic,
/// and as no other formula.
pub fn are_parsed()
    ensures parsed { AreParsed }
    ensures only { ParsedAsOne }
{}

/// The family's formula for `n`, from 1 on, has `2n - 1` occurrences in `and`, `4n - 1` in `or` and `fair`, `2n + 7` in
/// `step`, and `2n` in `loop`.
pub fn are_counted()
    ensures { AreCounted }
{}
