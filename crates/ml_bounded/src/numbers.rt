// Numbers in texts: one to three digits, the longest such token.
ghost use Rattle.std.specs.Prelude.{◌≡◌, ◌≤◌, ◌-◌, IsTrue, length, reverse, take};
ghost use Rattle.std.specs.List.{take_while};
ghost use Rattle.ml_text.specs.Bytes as bytes;
ghost use Rattle.ml_bounded.specs.Numbers.{begins_number, number_at};

use ml_text::is_digit;

fn digit(byte: u8) -> u16
    requires { IsTrue (bytes.is_digit byte) }
    ensures value { result ≡ byte - 48 }
    ensures small { result ≤ 9 }
{
    u16::from(byte - b'0')
}

/// The number with which a text begins, or 0 where it begins with no digit.
#[tactic(auto, using(crate::proofs::Digits::short_has_none, crate::proofs::Digits::first_has_none))]
pub(crate) fn number(text: &[u8]) -> u16
    ensures { result ≡ number_at text.now }
{
    match text {
        [a, b, c, ..] if is_digit(*a) && is_digit(*b) && is_digit(*c) => {
            100 * digit(*a) + 10 * digit(*b) + digit(*c)
        }
        [a, b, ..] if is_digit(*a) && is_digit(*b) => 10 * digit(*a) + digit(*b),
        [a, ..] if is_digit(*a) => digit(*a),
        _ => 0,
    }
}

// How many digits stand at the end.
fn digits_at_end(text: &[u8]) -> usize
    ensures { result ≡ length (take_while bytes.is_digit (reverse text.now)) }
{
    text.iter()
        .rev()
        .take_while(|byte| is_digit(**byte))
        .count()
}

/// Does a number begin at this byte, if it is a digit outside a word?
pub(crate) fn begins_number(text: &[u8], at: usize) -> bool
    requires { at ≤ length text.now }
    ensures { result ≡ begins_number text.now at }
{
    digits_at_end(&text[..at]) % 3 == 0
}
