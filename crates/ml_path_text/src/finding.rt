// One of these is found of the paths of a document.
use ml_base::DocFault;
use ml_decision_text::WrittenText;

/// What is found of the paths of a document.
#[derive(Drop)]
pub enum PathFinding {
    /// A path that shows the path problem, as it is written: its two lines, and the document of the word along it.
    Path(WrittenText),
    /// No path from the start shows it.
    NoPath,
    /// The word automaton of the path problem has too many nodes.
    ClosureTooLarge,
    /// This state, the least such one, has no edge by `_`, where the logic wants each state to have one.
    NotTotal(u32),
    /// This state, the least such one, hasn't exactly one edge by `_`, where the logic wants that of each state.
    NotAWord(u32),
    /// The document asks for no path of a structure: its first bad line, and the lowest rule that this line breaks.
    Unreadable(DocFault),
}
