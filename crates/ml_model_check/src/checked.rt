// What checking a document finds.
use ml_base::DocFault;

/// What checking a document finds.
#[derive(Clone, Copy, PartialEq, Eq)]
pub enum Checked {
    /// The problem of the document holds at the start of its structure.
    Holds,
    /// The problem doesn't hold there.
    Fails,
    /// The document shows no structure: its first bad line, and the lowest rule that this line breaks.
    Unreadable(DocFault),
    /// This state, the least such one, has no edge by `_`, where the logic wants each state to have one.
    NotTotal(u32),
    /// This state, the least such one, hasn't exactly one edge by `_`, where the logic wants that of each state.
    NotAWord(u32),
    /// The formula's closure is too large to be checked.
    ClosureTooLarge,
}
