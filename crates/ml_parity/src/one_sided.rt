// One-sided graphs: in the words of games, one player makes all moves. Their heights are progress measures of least rank.
//
// `graph` has the graphs, `search` the call that answers heights or an even cycle, `check` the test of numbers that are
// given; `order` (in which arcs are tried) and `cycles` serve the search.

pub mod answer;
pub mod check;
mod cycles;
pub mod graph;
mod order;
pub mod search;
