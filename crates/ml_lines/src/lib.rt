// Documents as lines of words: what every document that is written or read is made of.
//
// A document is lines, each ended by one LF; a line is words, separated by one blank; a number is a word, in decimal
// without leading zeros. A line is written from its left to its right: `write_word` or `write_number` for its first
// word, `write_next_word` or `write_next_number` for each further one, and `end_line`. Each of them appends to the
// bytes that it is lent, and leaves them as they were where memory is wanting; `whole_or_none` makes the same of what
// several of them write.
// A text is read line by line with `split_line`, and a line word by word; `specs/Faults.antt` says where a format of
// documents (`ml_lists`) refuses a text. Below stand `ml_base` and `ml_lists`; above stand all crates that write
// or read documents.
#![tactic(auto)]

mod read;
mod refusal;
mod write;

pub use read::{
    are_words, four_words, more_number, more_words, one_number, one_word, read_number, split_line,
    split_word, text_behind, two_words, word_behind,
};
pub use refusal::LineRefusal;
pub use write::{
    end_line, whole_or_none, write_next_number, write_next_word, write_number, write_word,
};
