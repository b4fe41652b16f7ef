// Questions that are asked of requirements.
use ml_spec::{Question, Specification};

/// A question that is asked of some requirements of a specification.
#[derive(Clone, Copy)]
pub(crate) struct Asked<'a> {
    pub specification: &'a Specification,
    /// Is the requirement with this number one of them? Of other items it says nothing.
    pub among: &'a [bool],
    pub question: Question,
    /// How many positions the decision game of a problem may have.
    pub limit: u32,
}
