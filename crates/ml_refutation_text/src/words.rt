// Reading the words of a line.
ghost use Rattle.std.specs.Prelude.{◌≡◌, ◌<◌, ◌^◌, ◌-◌, [], ◌∷◌, MatchOption, IfOk, IfErr, All, min};
ghost use Rattle.ml_base.specs.declared.version.Version.{Version};
ghost use Rattle.ml_lines.specs.Lines.{number};
ghost use Rattle.ml_refutation_text.specs.BodyRules.{Place, kinds, numbered};
ghost use Rattle.std.specs.Option.{option_copied};
ghost use Rattle.ml_lines.specs.Reading.{words_of, words_behind, value, AreWords, IsNumber};
ghost use Rattle.ml_refutation_text.specs.RefutationText.{numbers, guess_word};
ghost use Rattle.ml_refutation_text.specs.LineKinds.{Spells};
ghost use Rattle.ml_refutation_text.specs.LineKinds.{IsSpelt, IsOfKind, open_kind, Fixed};
ghost use Rattle.ml_refutation.specs.Guesses.{FitsGuess};
ghost use Rattle.ml_refutation.specs.Refutation as refutation;
ghost use Rattle.ml_refutation_text.specs.private.Reads.{IsPlaced, HasRoom, IsNext, IsUsual, TellsFault};
ghost use Rattle.ml_refutation_text.specs.private.WordReads.{FitsAGuess};

use crate::body_rule::BodyRule;
use crate::rest::{Rest, fault, next_line};
use ml_base::{DocRefusal, NoMemory};
use ml_lines::{are_words, more_words, read_number, split_word, two_words, word_behind};
use std::alloc::Global;

// the number of a line that is a fixed word and a number, at each place of that kind
pub(crate) fn read_numbered<'a>(at: Rest<'a>, fixed: &[u8]) -> Result<(u32, Rest<'a>), DocRefusal>
    requires { HasRoom at }
    ensures read { IfOk result (λ r. IsNext at.entry (fixed.now ∷ number r.0 ∷ []) r.1 × AreWords (fixed.now ∷ number r.0 ∷ []) × (r.0 < 2 ^ 32)) }
    ensures refused { IfErr result (λ e. (v : Version) (p : Place) → kinds p ≡ numbered fixed.now ∷ [] → IsUsual p → TellsFault v p at.entry e) }
{
    let (line, rest) = match next_line(at) {
        Ok(next) => next,
        Err(refusal) => return Err(refusal),
    };
    match word_behind(line, fixed) {
        Some(word) => match read_number(word) {
            Some(n) => Ok((n, rest)),
            None => Err(fault(at.line, BodyRule::Numbers)),
        },
        None => Err(fault(at.line, BodyRule::OfKind)),
    }
}

// the two words behind a fixed one, where the line is these three
pub(crate) fn words_behind_fixed<'a>(line: &'a [u8], fixed: &[u8]) -> Option<(&'a [u8], &'a [u8])>
    ensures { MatchOption result (¬ (IsPlaced fixed.now (words_of line.now)))
        (λ p. AreWords (words_of line.now) × (words_of line.now ≡ fixed.now ∷ p.0.now ∷ p.1.now ∷ [])) }
{
    match more_words(line) {
        Some((first, rest)) => {
            if first == fixed && are_words(line) {
                two_words(rest)
            } else {
                None
            }
        }
        None => None,
    }
}

// what stands behind a fixed word, where the line begins with it
pub(crate) fn listed_words<'a>(line: &'a [u8], fixed: &[u8]) -> Option<Option<&'a [u8]>>
    ensures { MatchOption result (¬ (IsOfKind (open_kind (Fixed fixed.now ∷ [])) (words_of line.now)))
        (λ behind. AreWords (words_of line.now) × (words_of line.now ≡ fixed.now ∷ words_behind (option_copied behind))) }
{
    let (first, behind) = split_word(line);
    if first == fixed && are_words(line) {
        Some(behind)
    } else {
        None
    }
}

// the numbers that the words behind a blank are; `None` where one of them is none
pub(crate) fn read_numbers(
    alloc: Global,
    behind: Option<&[u8]>,
) -> Result<Option<Vec<u32>>, NoMemory>
    ensures { IfOk result (λ read. MatchOption read (¬ (All IsNumber (words_behind (option_copied behind.entry))))
        (λ ns. (words_behind (option_copied behind.entry) ≡ numbers ns.items) × All refutation.Fits ns.items)) }
{
    let mut ns = Vec::new(alloc);
    let mut left = behind;
    while let Some(text) = left {
        let (word, rest) = split_word(text);
        match read_number(word) {
            Some(n) => ns.push(n)?,
            None => return Ok(None),
        }
        left = rest;
    }
    Ok(Some(ns))
}

// the odd priority that a word tells, or that it tells none; `None` where it is neither a number nor `-`
pub(crate) fn read_guess(word: &[u8]) -> Option<Option<u32>>
    ensures { MatchOption result (¬ (FitsAGuess word.now)) (λ odd. (word.now ≡ guess_word odd) × FitsGuess odd) }
{
    if word == b"-".as_slice() {
        return Some(None);
    }
    match read_number(word) {
        Some(odd) => Some(Some(odd)),
        None => None,
    }
}

// the number that a word spells, however great, or the greatest of 64 bits, where it is above that
pub(crate) fn read_any(word: &[u8]) -> Option<u64>
    ensures { MatchOption result (¬ (IsSpelt word.now)) (λ n. Spells word.now (value word.now) × (n ≡ min (value word.now) (2 ^ 64 - 1))) }
{
    if word.is_empty() {
        return None;
    }
    if word.len() > 1 && word[0] == b'0' {
        return None;
    }
    let mut n: u64 = 0;
    for byte in word {
        if !byte.is_ascii_digit() {
            return None;
        }
        n = n.saturating_mul(10).saturating_add(u64::from(byte - b'0'));
    }
    Some(n)
}
