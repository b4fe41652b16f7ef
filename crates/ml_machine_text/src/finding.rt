// What is found in the document of a machine or an environment.
use ml_base::DocFault;
use ml_decision_text::WrittenText;

/// What is found in the document of a machine or an environment.
#[derive(Drop)]
pub enum MachineFinding {
    /// The machine realizes the task, or the environment defeats it.
    Holds,
    /// It doesn't, as this word shows: the document of the problem of LTL on words that holds on it.
    Fails(WrittenText),
    /// The graph of the word automaton has too many nodes.
    ClosureTooLarge,
    /// The text is no document of a machine or an environment: its first bad line, and the lowest rule that this line breaks.
    Unreadable(DocFault),
}
