// Solutions of parity games, checked.
//
// A claim says of a vertex who wins it, and maybe by which move. Claims may be right or not, and need not be there for every
// vertex: `specs/RightClaims.antt` says when they are right, by four rules that can be looked through one by one. `check` looks
// them through, and names a vertex and the rule that its claim breaks (`specs/Verdicts.antt`). `laws` says what right claims
// are good for: each vertex is won by the player who is claimed to win it, by the moves that are claimed; and of each solution
// the claims are right.
//
// The first three rules are looked up (`early`). For the fourth an engine of which nothing is claimed (`looking`, `halving`,
// `nests`, `arcs`, and what it shares with other engines: `numbers`, `Arc`, `Strong`) finds a row of the vertices by which no
// cycle is bad, or a bad cycle; `sorted` and `circles` check these, and `fourth` puts it together. Where the check fails a game
// is solved (`cycles`, `ways`).
//
// Below stands `ml_parity`, for games, plays and winners, and for the solver.
#![tactic(auto)]

mod arcs;
mod checking;
mod circles;
mod claims;
mod cycles;
mod early;
mod fourth;
mod halving;
pub mod laws;
mod looking;
mod nests;
pub mod numbers;
mod sorted;
mod strong;
mod verdict;
mod ways;

pub use arcs::Arc;
pub use checking::check;
pub use claims::Claim;
pub use strong::Strong;
pub use verdict::{Rule, Verdict};
