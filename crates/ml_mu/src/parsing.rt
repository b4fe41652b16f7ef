// Texts to formulas.
ghost use Rattle.std.specs.Prelude.{MatchResult};
ghost use Rattle.ml_mu.specs.Parsing.{IsParsedAs, IsRefusedBy};

use crate::Formula;
use crate::notation::Mu;
use crate::variables::{first_fault, standings};
use ml_base::ParseRefusal;
use ml_text::{Reading, read};
use std::alloc::Global;

/// The formula that a text stands for.
///
/// The text may have any length; blanks stand between tokens as they like.
///
/// # Errors
/// Each with the byte at which it comes; the first place of `Syntax`, `TooMany`, `TooNested` and `NameTooLong` is
/// named, and of several at one place the first in this order.
/// - `Syntax` at the first token with which no text of the grammar goes on, or at the text's end where all of it begins
///   a text and is none.
/// - `TooMany` at the token with which more than 1,000 occurrences are counted.
/// - `TooNested` at the parenthesis with which more than 1,000 are open.
/// - `NameTooLong` at a word of more than 64 bytes.
/// - `Unbound` and `NotPositive`, only where none of these comes, at the first variable without a binder around it, or
///   with an odd number of negations or an iff between its binder and itself.
/// - `NoMemory`.
///
/// Cost: linear in the text. No call is nested deeper than the formula, which has at most 1,000 occurrences.
pub fn parse(alloc: Global, text: &[u8]) -> Result<Formula, ParseRefusal>
    ensures { MatchResult result (IsParsedAs text.now) (IsRefusedBy text.now) }
{
    let Reading { tree, places } = read::<Mu>(alloc, &Mu, text)?;
    let standings = standings(alloc, &tree)?;
    match first_fault(standings.as_slice(), places.as_slice()) {
        Some(refusal) => Err(refusal),
        None => Ok(Formula::new(tree)),
    }
}
