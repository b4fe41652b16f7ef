// What the search comes to.
use ml_candidates::Candidate;

/// What the search came to.
#[derive(Drop)]
pub enum Sought {
    /// What may be an answer.
    Found(Candidate),
    /// A bad trace can't be told by where it stays.
    NotWeak,
    /// The thread of this node goes to two nodes along one diamond.
    Splits(u32),
    /// Enough was done, or what may be an answer couldn't be made.
    GaveUp,
}

/// What the search came to, and how many steps of the solver were made.
#[derive(Drop)]
pub struct Trial {
    pub sought: Sought,
    pub spent: u64,
}
