// Laws about the definitions alone: empty functions, each of whose contract is a theorem.

ghost use Rattle.ml_parity.specs.Law.{DeterminacyLaw};

/// The determinacy law: in each parity game, of any number of vertices, each vertex is won by exactly one player, and
/// for each player one positional strategy wins from every vertex that this player wins.
///
/// Does nothing when called. Source: Emerson and Jutla (1991) and Mostowski (1991); the proof goes after Haddad's.
pub fn determined()
    ensures law { DeterminacyLaw }
{}
