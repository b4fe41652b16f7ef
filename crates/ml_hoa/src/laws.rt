// What holds of texts and answers by their definitions alone: the functions do nothing, their contracts are the theorems.
ghost use Rattle.std.specs.Prelude.{◌≡◌};
ghost use Rattle.ml_hoa.specs.Laws.{IsUnambiguous, OneAnswer};
ghost use Rattle.ml_hoa.specs.declared.limits.TheConstants as limit;

/// A text is read as one automaton at most; it is read or refused, never both, and but for want of memory it is refused in
/// one way at most. So `read` answers each exactly where it is said to come.
pub fn one_answer()
    ensures unambiguous { IsUnambiguous }
    ensures answer { OneAnswer }
{}

/// An automaton text has at most 1,000 states, 8 propositions and 100,000 edges, and each label at most 1,000 operators and
/// 1,000 open parentheses; programs take up to 16,777,216 bytes.
pub fn limits()
    ensures states { limit.MOST_STATES ≡ 1000 }
    ensures props { limit.MOST_PROPS ≡ 8 }
    ensures edges { limit.MOST_EDGES ≡ 100000 }
    ensures operators { limit.MOST_OPERATORS ≡ 1000 }
    ensures open { limit.MOST_OPEN ≡ 1000 }
    ensures bytes { limit.LONGEST_AUTOMATON_TEXT ≡ 16777216 }
{}
