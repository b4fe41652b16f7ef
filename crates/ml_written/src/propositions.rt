// Which words may be propositions.
ghost use Rattle.std.specs.Prelude.{◌≡◌};
ghost use Rattle.std.specs.List.{list_all};
ghost use Rattle.ml_text.specs.Bytes as bytes;
ghost use Rattle.ml_text.specs.Words.{is_word_from};
ghost use Rattle.ml_written.specs.Places.{begins_lower};
ghost use Rattle.ml_written.specs.Propositions.{is_proposition, is_reserved, is_spelled};

use ml_base::LONGEST_NAME;
use ml_front::Logic;
use ml_text::{is_lower, is_word_byte};

/// May a word be a proposition of a logic? It begins with a lower-case letter, goes on with letters, digits and `_`, isn't
/// reserved, and has at most 64 bytes.
///
/// Cost: linear in the word.
pub fn is_proposition(logic: Logic, word: &[u8]) -> bool
    ensures { result ≡ is_proposition logic word.now }
{
    is_spelled(logic, word) && word.len() <= LONGEST_NAME
}

/// Is a word spelled as a proposition of a logic?
pub(crate) fn is_spelled(logic: Logic, word: &[u8]) -> bool
    ensures { result ≡ is_spelled logic word.now }
{
    is_lower_word(word) && !is_reserved(logic, word)
}

// a lower-case letter, and then letters, digits and `_`
fn is_lower_word(word: &[u8]) -> bool
    ensures { result ≡ is_word_from bytes.is_lower word.now }
{
    match word {
        [] => false,
        [first, rest @ ..] => is_lower(*first) && are_word_bytes(rest),
    }
}

fn are_word_bytes(text: &[u8]) -> bool
    ensures { result ≡ list_all bytes.is_word_byte text.now }
{
    text.iter().all(|byte| is_word_byte(*byte))
}

// Does a logic reserve this word?
fn is_reserved(logic: Logic, word: &[u8]) -> bool
    ensures { result ≡ is_reserved logic word.now }
{
    match word {
        b"tt" | b"true" | b"ff" | b"false" => true,
        b"mu" | b"nu" => logic == Logic::Mu,
        b"repeat" => logic == Logic::Pdl,
        _ => false,
    }
}

/// Does a name begin with a lower-case letter?
pub(crate) fn begins_lower(name: &[u8]) -> bool
    ensures { result ≡ begins_lower name.now }
{
    match name {
        [] => false,
        [first, ..] => is_lower(*first),
    }
}
