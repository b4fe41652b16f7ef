// Where a document is refused.

/// Where a document is refused: its first bad line, counted from 1, and the lowest rule that is broken there. What
/// each rule asks for stands with the reader of that kind of document.
#[derive(Clone, Copy, Debug, PartialEq, Eq)]
pub struct DocFault {
    pub line: u64,
    pub rule: u32,
}
