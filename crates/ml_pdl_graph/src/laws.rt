// Laws over the definitions alone: no caller runs these functions, their contracts are the theorems.
ghost use Rattle.ml_pdl_graph.specs.Laws.{GraphsAgree};

/// The checking game on the graph of a formula of PDL agrees with the formula's meaning by relations: on every finite
/// structure, at every state, in the plain sense and negated. Stars may be nested, and tests may hold any formulas.
///
/// Does nothing when called. Source: Fischer and Ladner (1979), for the logic, and Streett (1982), for infinite repetition;
/// the proof goes by walks that follow a strategy (`ml_nodes`, `proofs/EndlessWalks`).
pub fn agrees()
    ensures { GraphsAgree }
{}
