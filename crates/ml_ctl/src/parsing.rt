// Texts to formulas.
ghost use Rattle.std.specs.Prelude.{MatchResult};
ghost use Rattle.ml_ctl.specs.Parsing.{IsParsedAs, IsRefusedBy};

use crate::notation::Reader;
use crate::{Ctl, Formula, FormulaOf, Language, Words};
use ml_base::ParseRefusal;
use ml_text::{Reading, read};
use std::alloc::Global;
use std::marker::PhantomData;

/// The formula of a language that a text stands for.
///
/// The text may have any length; blanks stand between tokens as they like.
///
/// # Errors
/// Each with the byte at which it comes; the first place is named, and of several at one place the first in this order.
/// - `Syntax` at the first token with which no text of the grammar goes on, or at the text's end where all of it begins
///   a text and is none. `E` and `A` are in no text of LTL.
/// - `TooMany` at the token with which more than 1,000 occurrences are counted.
/// - `TooNested` at the parenthesis with which more than 1,000 are open.
/// - `NameTooLong` at a word of more than 64 bytes.
/// - `NoMemory`.
///
/// Cost: linear in the text. No call is nested deeper than the formula, which has at most 1,000 occurrences.
pub fn parse_in<W: Words>(alloc: Global, text: &[u8]) -> Result<FormulaOf<W>, ParseRefusal>
    ensures { MatchResult result (IsParsedAs W.language text.now) (IsRefusedBy W.language text.now) }
{
    let Reading { tree, .. } = read::<Reader<W>>(alloc, &Reader { words: PhantomData }, text)?;
    Ok(FormulaOf::new(tree))
}

/// The formula of CTL* that a text stands for.
///
/// # Errors
/// As those of `parse_in`.
///
/// Cost: as that of `parse_in`.
pub fn parse(alloc: Global, text: &[u8]) -> Result<Formula, ParseRefusal>
    ensures { MatchResult result (IsParsedAs Language.Ctl text.now) (IsRefusedBy Language.Ctl text.now) }
{
    parse_in::<Ctl>(alloc, text)
}
