// Laws about the definitions alone: empty functions, each of whose contract is a theorem.

ghost use Rattle.ml_extract.specs.Extraction.{ModelsHold, OneModel, SomeModel, StatesAreMet};

/// A graph, an arena and a solution have one model at most, with one start.
///
/// Does nothing when called.
pub fn one_model()
    ensures { OneModel }
{}

/// Where Even wins the decision game of a graph, the states of the model begin exactly at the positions at which no side is
/// chosen yet and to which plays come that follow Even's moves from the first position.
///
/// Does nothing when called.
pub fn states_are_met()
    ensures { StatesAreMet }
{}

/// Where Even wins the decision game of a graph, the model of Even's moves is a structure at whose start the graph holds,
/// each of its states is reached from the start along edges, and each edge has the action of a diamond of the graph. Graphs
/// and arenas are of any size; which solution of the arena's game Even's moves are taken from doesn't matter.
///
/// Does nothing when called.
pub fn models_hold()
    ensures { ModelsHold }
{}

/// Where Even wins the decision game of a graph, there is a model of Even's moves. It has at most as many states as the game
/// has positions.
///
/// Does nothing when called.
pub fn some_model()
    ensures { SomeModel }
{}
