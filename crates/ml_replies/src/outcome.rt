// What comes of checking a structure.

/// Does a structure meet requirements and a question?
#[derive(Clone, Copy, Debug, PartialEq, Eq)]
pub enum Meets {
    /// It meets them.
    Yes,
    /// It doesn't: the logic doesn't speak of it, or a formula fails.
    No,
    /// That can't be told: a closure is too large or the joined formula too long, and nothing that can be checked fails.
    Unknown,
}
