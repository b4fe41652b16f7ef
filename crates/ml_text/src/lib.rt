// What the texts of the logics share: bytes, words, tokens, and the reader of texts, which is one for all logics.
//
// Every text is read as tokens that blanks may separate. The signs are the same in all logics, and any
// byte that begins no sign and no word is a token by itself, so one scanner serves all: a logic only says
// which letters begin a word (`WordStart`), and which tokens its grammar has. What the grammars of the logics share is
// said in `specs/`: a grammar as tables (`Grammar`), texts as items (`Items`), where texts are refused (`Refusals`).
//
// Begin with `Notation`, what a logic tells the reader: its signs, the forms of its operands, its operators, and how a tree
// is made. `read` then reads a text of it, in one pass, within the limits; which of `Refusals` a text meets is proved
// once, in `proofs/Exact`. `next_token` is the first token at or behind an offset; `constant_of` knows the words that all
// logics reserve, `operator_level` how tight their connectives bind, and `infix` how these are written. The module `laws`
// has the theorems on tokens: the longest one is taken, and the tokens of a text cover it.
//
// Below stands `ml_base` (names, refusals); above stand the parsers of the logics.
#![tactic(auto)]

mod bytes;
mod forms;
pub mod laws;
mod limits;
mod named_signs;
mod notation;
mod operators;
mod reading;
mod stack;
mod stepping;
mod token;
mod words;

pub use bytes::{is_blank, is_digit, is_letter, is_lower, is_upper, is_word_byte};
pub use forms::{Frame, Mode, Role, Turn};
pub use limits::{Bracket, MOST_OCCURRENCES, MOST_OPEN};
pub use named_signs::{OwnSign, Sign, bracket_of, kind_of, sign_of};
pub use notation::Notation;
pub use operators::{infix, operator_level};
pub use reading::{Reading, read};
pub use token::{Operator, Placed, Token, WordStart, next_token};
pub use words::constant_of;
