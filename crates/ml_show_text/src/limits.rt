// How long documents may be that are shown.

/// How many bytes a document has at most that is shown.
pub const LONGEST_SHOWN: usize = 134_217_728;
