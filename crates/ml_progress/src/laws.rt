// Laws about the definitions alone: empty functions, each of whose contract is a theorem.

ghost use Rattle.ml_progress.specs.Law.{MeasureLaw, OneLeastMeasure, OneMeasured, SomeMeasured};

/// The least progress measure of a player has a list exactly at the vertices that the player wins, in each parity game,
/// of any number of vertices.
///
/// Does nothing when called. Source: Jurdziński, Small progress measures for solving parity games (2000).
pub fn least_measure_tells()
    ensures law { MeasureLaw }
{}

/// Each parity game has a least progress measure of each player, with a solution that they tell and whose moves are the
/// first ones that progress. It has one of each player at most; so the winners are given, and where the owner wins, the
/// moves.
///
/// Does nothing when called.
pub fn some_measures()
    ensures some { SomeMeasured }
    ensures least { OneLeastMeasure }
    ensures one { OneMeasured }
{}
