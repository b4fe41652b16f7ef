// Blanks, letters and the bytes of words. Every test is about ASCII alone: no byte from 128 on passes any.
ghost use Rattle.std.specs.Prelude.{◌≡◌};
ghost use Rattle.ml_text.specs.Bytes.{is_blank, is_digit, is_letter, is_lower, is_upper, is_word_byte};

/// Is this a blank: a space, a tab, a CR or a LF?
pub fn is_blank(byte: u8) -> bool
    ensures { result ≡ is_blank byte }
{
    matches!(byte, b' ' | b'\t' | b'\r' | b'\n')
}

/// Is this a letter from a to z?
pub fn is_lower(byte: u8) -> bool
    ensures { result ≡ is_lower byte }
{
    matches!(byte, b'a'..=b'z')
}

/// Is this a letter from A to Z?
pub fn is_upper(byte: u8) -> bool
    ensures { result ≡ is_upper byte }
{
    matches!(byte, b'A'..=b'Z')
}

/// Is this a letter?
pub fn is_letter(byte: u8) -> bool
    ensures { result ≡ is_letter byte }
{
    is_lower(byte) || is_upper(byte)
}

/// Is this a digit from 0 to 9?
pub fn is_digit(byte: u8) -> bool
    ensures { result ≡ is_digit byte }
{
    matches!(byte, b'0'..=b'9')
}

/// May this byte stand in a word behind its first letter: is it a letter, a digit or `_`?
pub fn is_word_byte(byte: u8) -> bool
    ensures { result ≡ is_word_byte byte }
{
    is_letter(byte) || is_digit(byte) || byte == b'_'
}
