// Reading a text line by line, a line word by word, and a number.
ghost use Rattle.std.specs.Prelude.{ℕ, ◌≡◌, ◌≢◌, ◌==◌, ◌∷◌, ◌+◌, ◌*◌, ◌<◌, ◌≤◌, ◌^◌, ◌-◌, [], MatchOption, true, false, length, position};
ghost use Rattle.std.specs.List.{list_all};
ghost use Rattle.std.specs.Str.{all_ascii_digits};
ghost use Rattle.std.specs.Option.{option_copied};
ghost use Rattle.ml_lines.specs.Lines.{Word, Line, number};
ghost use Rattle.ml_lines.specs.Reading as reading;
ghost use Rattle.ml_lines.specs.Reading.{words_of, words_behind, lines_of, left_of, AreWords, IsNumber, IsTextBehind, IsWordBehind, value};

use memchr::memchr;

/// The first line of a text, without its LF, and what stands behind it; `None` where the text has no whole line.
///
/// Cost: linear in the line.
pub fn split_line(text: &[u8]) -> Option<(&[u8], &[u8])>
    ensures lines { MatchOption result (lines_of text.now ≡ []) (λ p. lines_of text.now ≡ words_of p.0.now ∷ lines_of p.1.now) }
    ensures left { MatchOption result (left_of text.now ≡ text.now) (λ p. left_of text.now ≡ left_of p.1.now) }
    ensures shorter { MatchOption result (Unit {0}) (λ p. length p.1.now + 1 ≤ length text.now) }
{
    match line_end(text) {
        Some(end) => Some((&text[..end], &text[end + 1..])),
        None => None,
    }
}

/// The first word of a line, and what stands behind the blank that ends it, where there is one.
///
/// Cost: linear in the word.
pub fn split_word(line: &[u8]) -> (&[u8], Option<&[u8]>)
    ensures words { words_of line.now ≡ result.0.now ∷ words_behind (option_copied result.1) }
    ensures shorter { MatchOption result.1 (Unit {0}) (λ rest. length rest.now + 1 ≤ length line.now) }
{
    match word_end(line) {
        Some(end) => (&line[..end], Some(&line[end + 1..])),
        None => (line, None),
    }
}

/// The first word of a line, and what stands behind its blank; `None` where the line is one word.
pub fn more_words(line: &[u8]) -> Option<(&[u8], &[u8])>
    ensures { MatchOption result (length (words_of line.now) ≡ 1) (λ p. words_of line.now ≡ p.0.now ∷ words_of p.1.now) }
{
    match split_word(line) {
        (word, Some(rest)) => Some((word, rest)),
        (_, None) => None,
    }
}

/// The word of a line of one word; `None` where it has more.
pub fn one_word(line: &[u8]) -> Option<&[u8]>
    ensures { MatchOption result (length (words_of line.now) ≢ 1) (λ w. words_of line.now ≡ w.now ∷ []) }
{
    match split_word(line) {
        (word, None) => Some(word),
        (_, Some(_)) => None,
    }
}

/// The words of a line of two words; `None` where it has fewer or more.
pub fn two_words(line: &[u8]) -> Option<(&[u8], &[u8])>
    ensures { MatchOption result (length (words_of line.now) ≢ 2) (λ p. words_of line.now ≡ p.0.now ∷ p.1.now ∷ []) }
{
    let (first, rest) = more_words(line)?;
    let second = one_word(rest)?;
    Some((first, second))
}

/// The words of a line of four words; `None` where it has fewer or more.
pub fn four_words(line: &[u8]) -> Option<(&[u8], &[u8], &[u8], &[u8])>
    ensures { MatchOption result (length (words_of line.now) ≢ 4)
        (λ p. words_of line.now ≡ p.0.now ∷ p.1.now ∷ p.2.now ∷ p.3.now ∷ []) }
{
    let (first, rest) = more_words(line)?;
    let (second, rest) = more_words(rest)?;
    let (third, fourth) = two_words(rest)?;
    Some((first, second, third, fourth))
}

/// The second word of a line of two words, of which the first is this one and both have at least one byte; `None` for any
/// other line.
///
/// Cost: linear in the line.
pub fn word_behind<'a>(line: &'a [u8], fixed: &[u8]) -> Option<&'a [u8]>
    ensures { MatchOption result (¬ (IsWordBehind fixed.now (words_of line.now)))
        (λ word. AreWords (words_of line.now) × (words_of line.now ≡ fixed.now ∷ word.now ∷ [])) }
{
    match two_words(line) {
        Some((first, second)) => {
            if first == fixed && are_words(line) {
                Some(second)
            } else {
                None
            }
        }
        None => None,
    }
}

/// What stands behind the first word of a line and its blank, where that word is this one; `None` for any other line.
///
/// Cost: linear in the word.
pub fn text_behind<'a>(line: &'a [u8], fixed: &[u8]) -> Option<&'a [u8]>
    ensures { MatchOption result (¬ (IsTextBehind fixed.now (words_of line.now)))
        (λ text. words_of line.now ≡ fixed.now ∷ words_of text.now) }
{
    match more_words(line) {
        Some((first, rest)) => { if first == fixed { Some(rest) } else { None } }
        None => None,
    }
}

// A text is long: the LF is sought many bytes at once.
fn line_end(text: &[u8]) -> Option<usize>
    ensures { result ≡ position reading.is_line_end text.now }
{
    memchr(b'\n', text)
}

// A word is short: the blank is sought byte by byte.
fn word_end(line: &[u8]) -> Option<usize>
    ensures { result ≡ position reading.is_blank line.now }
{
    line.iter().position(|byte| *byte == b' ')
}

/// Has each word of the line at least one byte? So no two blanks stand side by side, and none at an end.
///
/// Cost: linear in the line.
pub fn are_words(line: &[u8]) -> bool
    ensures { result ≡ list_all reading.is_word (words_of line.now) }
{
    line.split(|byte| *byte == b' ').all(|word| is_word(word))
}

fn is_word(word: &[u8]) -> bool
    ensures { result ≡ reading.is_word word.now }
{
    !word.is_empty()
}

/// The number that a word spells, in decimal and without leading zeros; `None` exactly where it spells none that fits
/// 32 bits.
///
/// Cost: linear in the word.
pub fn read_number(word: &[u8]) -> Option<u32>
    ensures { MatchOption result (¬ (IsNumber word.now)) (λ n. (word.now ≡ number n) × (n < 2 ^ 32)) }
{
    if word.is_empty() {
        return None;
    }
    if word.len() > 1 && word[0] == b'0' {
        return None;
    }
    if word.len() > MOST_DIGITS {
        return None;
    }
    match digits_value(word) {
        Some(n) => fitting(n),
        None => None,
    }
}

// how many digits a number of 32 bits has at most
const MOST_DIGITS: usize = 10;

fn fitting(n: u64) -> Option<u32>
    ensures { MatchOption result (2 ^ 32 ≤ n) (λ m. (m ≡ n) × (n < 2 ^ 32)) }
{
    u32::try_from(n).ok()
}

// the number whose digits a word is; none where it has other bytes
fn digits_value(word: &[u8]) -> Option<u64>
    requires { length word.now ≤ 10 }
    ensures { MatchOption result (all_ascii_digits word.now ≡ false)
        (λ n. (all_ascii_digits word.now ≡ true) × (n ≡ value word.now)) }
{
    let mut n = 0;
    for byte in word {
        if !byte.is_ascii_digit() {
            return None;
        }
        n = 10 * n + u64::from(byte - b'0');
    }
    Some(n)
}

/// The number that the first word of a line spells, and what stands behind its blank; `None` where the line is one word,
/// or the word spells none that fits 32 bits.
///
/// Cost: linear in the word.
pub fn more_number(line: &[u8]) -> Option<(u32, &[u8])>
    ensures { MatchOption result
        ((n : ℕ) (word : Word) (words : Line) → n < 2 ^ 32 → words_of line.now ≢ number n ∷ word ∷ words)
        (λ p. (words_of line.now ≡ number p.0 ∷ words_of p.1.now) × (p.0 < 2 ^ 32)) }
{
    let (word, rest) = more_words(line)?;
    Some((read_number(word)?, rest))
}

/// The number that the one word of a line spells; `None` where it has more words, or spells none that fits 32 bits.
///
/// Cost: linear in the line.
#[tactic(auto, using(crate::proofs::WordBytes::one_number_is))]
pub fn one_number(line: &[u8]) -> Option<u32>
    ensures { MatchOption result ((n : ℕ) → n < 2 ^ 32 → words_of line.now ≢ number n ∷ [])
        (λ n. (words_of line.now ≡ number n ∷ []) × (n < 2 ^ 32)) }
{
    read_number(line)
}
