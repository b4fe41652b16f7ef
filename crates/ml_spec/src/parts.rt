// The parts of an item.
ghost use Rattle.std.specs.Prelude.{◌≡◌, true, false, drop, MatchOption};
ghost use Rattle.std.specs.List.{list_all, position_or_len, prefix_len};
ghost use Rattle.ml_text.specs.Bytes.{is_blank};
ghost use Rattle.ml_spec.specs.Items as items;

use ml_base::LONGEST_NAME;
use ml_text::{is_blank, is_digit, is_letter};

// what stands behind the blanks at the front
pub(crate) fn without_blanks(bytes: &[u8]) -> &[u8]
    ensures { result.now ≡ items.without_blanks bytes.now }
{
    &bytes[blank_length(bytes)..]
}

// how many blanks stand at the front
pub(crate) fn blank_length(bytes: &[u8]) -> usize
    ensures { result ≡ prefix_len is_blank bytes.now }
{
    bytes.iter().take_while(|byte| is_blank(**byte)).count()
}

fn word_length(bytes: &[u8]) -> usize
    ensures { result ≡ position_or_len is_blank bytes.now }
{
    bytes.iter().take_while(|byte| !is_blank(**byte)).count()
}

fn name_length(bytes: &[u8]) -> usize
    ensures { result ≡ prefix_len items.is_name_byte bytes.now }
{
    bytes.iter().take_while(|byte| is_name_byte(**byte)).count()
}

fn is_name_byte(byte: u8) -> bool
    ensures { result ≡ items.is_name_byte byte }
{
    is_letter(byte) || is_digit(byte) || byte == b'_' || byte == b'-' || byte == b'.'
}

/// Is it a name: a letter, and then letters, digits, `_`, `-` and `.`, 1 to 64 bytes in all?
pub fn is_name(run: &[u8]) -> bool
    ensures { result ≡ items.is_name run.now }
{
    match run.split_first() {
        Some((first, rest)) => {
            is_letter(*first) && are_name_bytes(rest) && run.len() <= LONGEST_NAME
        }
        None => false,
    }
}

fn are_name_bytes(bytes: &[u8]) -> bool
    ensures { result ≡ list_all items.is_name_byte bytes.now }
{
    bytes.iter().all(|byte| is_name_byte(*byte))
}

/// The first word of an item, and what stands behind it and its blanks.
pub fn split_word(item: &[u8]) -> (&[u8], &[u8])
    ensures word { result.0.now ≡ items.first_word item.now }
    ensures behind { result.1.now ≡ items.behind_word item.now }
{
    let end = word_length(item);
    (&item[..end], without_blanks(&item[end..]))
}

/// The run of bytes of names with which the text behind an item's first word begins, and what stands behind the run and its
/// blanks.
pub fn split_name(behind_word: &[u8]) -> (&[u8], &[u8])
    ensures name { result.0.now ≡ items.name_run behind_word.now }
    ensures behind { result.1.now ≡ items.behind_run behind_word.now }
{
    let end = name_length(behind_word);
    (&behind_word[..end], without_blanks(&behind_word[end..]))
}

/// What stands behind the colon with which the text behind an item's name begins; `None` where it begins with none.
pub fn behind_colon(behind_name: &[u8]) -> Option<&[u8]>
    ensures { MatchOption result (items.begins_with_colon behind_name.now ≡ false)
        (λ text. (items.begins_with_colon behind_name.now ≡ true) × (text.now ≡ drop 1 behind_name.now)) }
{
    match behind_name.split_first() {
        Some((b':', text)) => Some(text),
        _ => None,
    }
}
