// The versions of documents.

/// The version of the words in which a document is written; its first line tells it.
#[derive(Clone, Copy, Debug, PartialEq, Eq)]
pub enum Version {
    One,
    Two,
}
