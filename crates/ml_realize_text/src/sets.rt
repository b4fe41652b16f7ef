// A set of names is read from words of a line.
ghost use Rattle.std.specs.Prelude.{ℕ, ◌≡◌, ◌≢◌, ◌<◌, ◌≤◌, ◌^◌, ◌∷◌, ◌++◌, [], MatchOption, codes, length};
ghost use Rattle.std.specs.Option.{option_copied};
ghost use Rattle.ml_lines.specs.Lines.{Line, Word};
ghost use Rattle.ml_lines.specs.Reading.{words_behind, words_of};
ghost use Rattle.ml_task.specs.NameSets.{members};
ghost use Rattle.ml_realize_text.specs.RealizeRules.{IsSet};
ghost use Rattle.ml_realize_text.specs.RealizeText.{set_words};

use memchr::memrchr;
use ml_base::Name;
use ml_lines::{split_word, text_behind};

// what stands behind the members of a set
fn behind_members<'a>(text: &'a [u8], names: &[Name], set: u32) -> Option<&'a [u8]>
    ensures { MatchOption result ((w : Word) (ws : Line) → words_of text.now ≢ members names.now set ++ w ∷ ws)
        (λ rest. words_of text.now ≡ members names.now set ++ words_of rest.now) }
{
    match names.split_first() {
        Some((name, others)) => {
            if set % 2 == 1 {
                match text_behind(text, name.bytes()) {
                    Some(behind) => behind_members(behind, others, set / 2),
                    None => None,
                }
            } else {
                behind_members(text, others, set / 2)
            }
        }
        None => Some(text),
    }
}

// what stands behind the words of a set, and of a blank
pub(crate) fn behind_set<'a>(text: &'a [u8], names: &[Name], set: u32) -> Option<&'a [u8]>
    requires { set < 2 ^ length names.now }
    ensures { MatchOption result ((w : Word) (ws : Line) → words_of text.now ≢ set_words names.now set ++ w ∷ ws)
        (λ rest. words_of text.now ≡ set_words names.now set ++ words_of rest.now) }
{
    if set == 0 {
        text_behind(text, b"-")
    } else {
        behind_members(text, names, set)
    }
}

// the set whose members the words behind a blank are
fn set_of(names: &[Name], behind: Option<&[u8]>) -> Option<u32>
    requires { length names.now ≤ 8 }
    ensures { MatchOption result ((s : ℕ) → words_behind (option_copied behind.entry) ≢ members names.now s)
        (λ s. (s < 2 ^ length names.now) × (words_behind (option_copied behind.entry) ≡ members names.now s)) }
{
    match behind {
        Some(text) => match names.split_first() {
            Some((name, others)) => {
                let (word, rest) = split_word(text);
                if word == name.bytes() {
                    match set_of(others, rest) {
                        Some(set) => Some(2 * set + 1),
                        None => None,
                    }
                } else {
                    match set_of(others, behind) {
                        Some(set) => Some(2 * set),
                        None => None,
                    }
                }
            }
            None => None,
        },
        None => Some(0),
    }
}

// the set that the words of a text are
pub(crate) fn read_set(text: &[u8], names: &[Name]) -> Option<u32>
    requires { length names.now ≤ 8 }
    ensures { MatchOption result (¬ (IsSet names.now (words_of text.now)))
        (λ s. (s < 2 ^ length names.now) × (words_of text.now ≡ set_words names.now s)) }
{
    if text == b"-".as_slice() {
        Some(0)
    } else {
        set_of(names, Some(text))
    }
}

// the last word of a text, and what stands before its blank, where there is one
pub(crate) fn split_last_word(text: &[u8]) -> Option<(&[u8], &[u8])>
    ensures { MatchOption result (length (words_of text.now) ≡ 1)
        (λ p. words_of text.now ≡ words_of p.0.now ++ p.1.now ∷ []) }
{
    match memrchr(b' ', text) {
        Some(end) => Some((&text[..end], &text[end + 1..])),
        None => None,
    }
}
