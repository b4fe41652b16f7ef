// Whether an automaton follows another one, as ranks say that it does.
//
// Nothing is asked of the ranks: whoever finds them has them looked through here.
ghost use Rattle.std.specs.Prelude.{◌≡◌, true, None, get_or, map};
ghost use Rattle.ml_lists.specs.Member.{IsMember};
ghost use Rattle.ml_labelled.specs.private.Following as plain;
ghost use Rattle.ml_labelled.specs.private.Following.{Answered, Answers, AreAnswered, Falls, Follows, PairFollows, StateFollowed};
ghost use Rattle.ml_labelled.specs.private.Views.{edge_of, rows_of};

use crate::labelled::CubeEdge;
use crate::trimming::has_all;

// Of each state of one automaton, for each state of another one, the rank at which this one follows it, if it does.
#[derive(Drop)]
pub(crate) struct Ranks {
    pub rows: Vec<Vec<Option<u32>>>,
}

fn rank_in(row: &[Option<u32>], x: usize) -> Option<u32>
    ensures { result ≡ get_or row.now x None }
{
    if x < row.len() { row[x] } else { None }
}

// may an edge answer another one from a rank to the next, where they accept as these say?
fn falls(rank: u32, next: u32, followed: bool, follows: bool) -> bool
    ensures { result ≡ true → Falls rank next followed follows }
{
    if follows {
        return true;
    }
    if followed { next < rank } else { next <= rank }
}

impl Ranks {
    pub(crate) fn rank_of(&self, p: usize, x: usize) -> Option<u32>
        ensures { result ≡ plain.rank_of self.now p x }
    {
        if p < self.rows.len() {
            rank_in(&self.rows[p], x)
        } else {
            None
        }
    }

    // does the second edge answer the first one from the rank?
    fn answers(&self, rank: u32, edge: &CubeEdge, other: &CubeEdge) -> bool
        ensures { result ≡ true → Answers self.now rank (edge_of edge.now) (edge_of other.now) }
    {
        match self.rank_of(edge.to as usize, other.to as usize) {
            Some(next) => falls(rank, next, edge.accepting, other.accepting),
            None => false,
        }
    }

    // is the edge answered under each letter?
    fn is_answered(&self, rank: u32, edge: &CubeEdge, others: &[CubeEdge]) -> bool
        ensures { result ≡ true → Answered self.now rank (edge_of edge.now) (map edge_of others.now) }
    {
        for other in others {
            if self.answers(rank, edge, other) {
                if has_all(&edge.cube, &other.cube) {
                    return true;
                }
            }
        }
        false
    }

    fn are_answered(&self, rank: u32, edges: &[CubeEdge], others: &[CubeEdge]) -> bool
        ensures { result ≡ true → AreAnswered self.now rank (map edge_of edges.now) (map edge_of others.now) }
    {
        for edge in edges {
            if !self.is_answered(rank, edge, others) {
                return false;
            }
        }
        true
    }

    // does the state x follow p, if the ranks say so?
    fn pair_follows(&self, p: usize, x: usize, edges: &[CubeEdge], others: &[CubeEdge]) -> bool
        ensures { result ≡ true → PairFollows self.now p x (map edge_of edges.now) (map edge_of others.now) }
    {
        match self.rank_of(p, x) {
            Some(rank) => self.are_answered(rank, edges, others),
            None => true,
        }
    }

    fn state_followed(&self, p: usize, edges: &[CubeEdge], others: &[Vec<CubeEdge>]) -> bool
        ensures { result ≡ true → StateFollowed self.now p (map edge_of edges.now) (rows_of others.now) }
    {
        for (x, row) in others.iter().enumerate() {
            if !self.pair_follows(p, x, edges, row) {
                return false;
            }
        }
        true
    }

    // Do the states of the second automaton follow those of the first, as the ranks say? The cost is linear in the pairs of
    // their edges.
    pub(crate) fn follows(&self, rows: &[Vec<CubeEdge>], others: &[Vec<CubeEdge>]) -> bool
        ensures { result ≡ true → Follows self.now (rows_of rows.now) (rows_of others.now) }
    {
        for (p, row) in rows.iter().enumerate() {
            if !self.state_followed(p, row, others) {
                return false;
            }
        }
        true
    }
}
