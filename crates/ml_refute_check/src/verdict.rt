// What checking an unsatisfiable document finds.
use ml_base::DocFault;

/// What checking an unsatisfiable document finds.
#[derive(Clone, Copy, PartialEq, Eq)]
pub enum Verdict {
    /// The document shows a refutation that breaks no rule: its problem holds nowhere.
    Accepted,
    /// The document shows no refutation: its first bad line, and the lowest rule that this line breaks.
    Unreadable(DocFault),
    /// The document shows a refutation, and this line, counted from 1, is the first with a broken rule of acceptance,
    /// of which this is the lowest.
    Rejected { line: u64, rule: u32 },
}
