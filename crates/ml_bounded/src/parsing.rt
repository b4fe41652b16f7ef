// Texts to formulas.
ghost use Rattle.std.specs.Prelude.{MatchResult};
ghost use Rattle.ml_bounded.specs.Parsing.{IsParsedAs, IsRefusedBy};

use crate::BoundedFormula;
use crate::notation::Reader;
use ml_base::ParseRefusal;
use ml_text::{Reading, read};
use std::alloc::Global;

/// The formula that a text stands for.
///
/// The text may have any length; blanks stand between tokens as they like.
///
/// # Errors
/// Each with the byte at which it comes; the first place is named, and of several at one place the first in this order.
/// - `Syntax` at the first token with which no text of the grammar goes on, such as a second number of a bounded operator
///   that is less than the first, or at the text's end where all of it begins a text and is none.
/// - `TooMany` at the token with which more than 1,000 occurrences are counted, a bounded operator as one.
/// - `TooNested` at the parenthesis with which more than 1,000 are open.
/// - `NameTooLong` at a word of more than 64 bytes.
/// - `NoMemory`.
///
/// Cost: linear in the text. No call is nested deeper than the formula, which has at most 1,000 occurrences.
pub fn parse(alloc: Global, text: &[u8]) -> Result<BoundedFormula, ParseRefusal>
    ensures { MatchResult result (IsParsedAs text.now) (IsRefusedBy text.now) }
{
    let Reading { tree, .. } = read::<Reader>(alloc, &Reader, text)?;
    Ok(BoundedFormula::new(tree))
}
