// Laws over the definitions alone: no caller runs these functions, their contracts are the theorems.
ghost use Rattle.ml_mu_graph.specs.Binders.{BinderIsLeast};
ghost use Rattle.ml_mu_graph.specs.Laws.{GraphsAgree};

/// The checking game on the graph of a formula whose variables are bound and positive agrees with the formula's meaning by
/// iterated sets: on every finite structure, at every state, in the plain sense and negated. Unguarded formulas and names
/// that are bound again are no exception.
///
/// Does nothing when called. Source: Emerson and Jutla (1991), for the game; the proof goes by verdicts written into
/// graphs (`proofs/Agreement`) and by `binders_are_least`.
pub fn agrees()
    ensures { GraphsAgree }
{}

/// In a region that no move leaves, with a sink for each player, let recurring for ever be bad for a player. Then the
/// states at which that player wins a binder's vertex are the least set that contains the states at whose body the player
/// wins with the verdicts of the set, among the sets whose verdicts can be written into the game.
///
/// Does nothing when called. Source: the idea that a variable is a verdict is that of Emerson and Jutla (1991); the proof
/// uses no ranks and no signatures.
pub fn binders_are_least()
    ensures { BinderIsLeast }
{}
