// What holds of items and their rows: the functions do nothing, their contracts are the theorems.
ghost use Rattle.ml_blocks.specs.Agreement.{GraphsAgree, GraphsHold, LinearGraphsAgree, LinearGraphsHold};
ghost use Rattle.ml_blocks.specs.ClosureLaws.{OneSize, SomeGraph};
ghost use Rattle.ml_blocks.specs.EdgesGoOn.{EdgesGoOn};
ghost use Rattle.ml_blocks.specs.FiniteClosures.{ClosuresAreFinite};
ghost use Rattle.ml_blocks.specs.OneGraph.{OneGraph};
ghost use Rattle.ml_blocks.specs.Laws.{EventualitiesAreLeast, EventualitiesComeTrue, OthersAreGreatest, RowsSayTheSame, TruthIsDecided};

/// Truth of a formula is decided at each place of a path along which its quantified formulas are; so that of a formula of
/// LTL always is.
pub fn truth_is_decided()
    ensures { TruthIsDecided }
{}

/// An item asks at a place what its row says, where an item that is put off asks the same of the next place.
///
/// `same`: the item is a fixed point of its row. `least`: an eventuality is what as many iterates from nowhere reach as the
/// path has places. `greatest`: each other item is what as many iterates from everywhere reach.
#[tactic(auto, using(crate::proofs::RowsOfItems::rows_say_the_same, crate::proofs::RowsOfItems::eventualities_are_least, crate::proofs::RowsOfItems::others_are_greatest))]
pub fn rows_are_sound()
    ensures same { RowsSayTheSame }
    ensures least { EventualitiesAreLeast }
    ensures greatest { OthersAreGreatest }
{}

/// An eventuality that is asked at a place comes true: so many steps ahead, less than the path has places, the first way of
/// its row is what the path does, and the second way until then.
#[tactic(auto, using(crate::proofs::ComingTrue::eventualities_come_true))]
pub fn eventualities_come_true()
    ensures { EventualitiesComeTrue }
{}

/// The checking game on the graph of a problem of CTL* or LTL agrees with the problem's meaning along lassos: on every finite
/// structure in which each state has an edge by `_`, at every state, in the plain sense and negated. Even wins where the
/// problem holds, and Odd where it fails.
///
/// `states`: problems of CTL*, with quantifiers nested in any way. `paths`: problems of LTL, of which a negated one asks for a
/// path that satisfies the negation; this is said of formulas with quantifiers too. `states_exactly`,
/// `paths_exactly`: so the graph holds exactly where the problem does.
///
/// Does nothing when called. Source: Emerson and Sistla (1984), for the logic; the proof goes by strategies along lassos and by
/// lassos along strategies (`proofs/PathsWin`, `proofs/WinsGivePath`).
pub fn graphs_agree()
    ensures states { GraphsAgree }
    ensures paths { LinearGraphsAgree }
    ensures states_exactly { GraphsHold }
    ensures paths_exactly { LinearGraphsHold }
{}

/// A problem has one graph at most: graphs of one closure have the same nodes with the same numbers and priorities. They may
/// differ in where they list the names of propositions and actions, and in names that stand at no node.
pub fn one_graph()
    ensures { OneGraph }
{}

/// A problem has a graph of at most so many nodes, or more than so many are reached from the root of its closure.
pub fn some_graph()
    ensures { SomeGraph }
{}

/// More than so many nodes are reached from the root of a closure exactly where the graph of the closure has more.
pub fn one_size()
    ensures { OneSize }
{}

/// The closure of a problem of CTL* or LTL is finite: for some n not more than n nodes are reached from its root.
pub fn closures_are_finite()
    ensures { ClosuresAreFinite }
{}

/// Where the graph of a closure holds at a state of a structure, whatever structure it is, each state that is reached from
/// there along edges by `_` has an edge by `_`.
pub fn edges_go_on()
    ensures { EdgesGoOn }
{}
