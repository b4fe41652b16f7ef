// Writing a line, word by word.
ghost use Rattle.std.specs.Prelude.{◌≡◌, [], ◌∷◌, ◌++◌, take, OnOk, OnErr, vec_len};
ghost use Rattle.ml_lines.specs.Lines.{number, next};

use ml_base::NoMemory;

/// Appends a word.
///
/// # Errors
/// `NoMemory` alone, and then `out` is as before.
///
/// Cost: linear in the word, over many calls.
pub fn write_word(out: &mut Vec<u8>, word: &[u8]) -> Result<(), NoMemory>
    ensures ok { OnOk result (out.new.items ≡ out.old.items ++ word.now) }
    ensures err { OnErr result (out.new.items ≡ out.old.items) }
{
    out.extend_from_slice(word)?;
    Ok(())
}

/// Appends the word for a number: its decimal digits, without leading zeros.
///
/// # Errors
/// `NoMemory` alone, and then `out` is as before.
///
/// Cost: linear in the digits, over many calls.
pub fn write_number(out: &mut Vec<u8>, n: u64) -> Result<(), NoMemory>
    ensures ok { OnOk result (out.new.items ≡ out.old.items ++ number n) }
    ensures err { OnErr result (out.new.items ≡ out.old.items) }
{
    let end = out.len();
    let written = write_digits(out, n);
    whole_or_none(out, end, written)
}

/// Appends a blank and a word behind it.
///
/// # Errors
/// `NoMemory` alone, and then `out` is as before.
///
/// Cost: linear in the word, over many calls.
pub fn write_next_word(out: &mut Vec<u8>, word: &[u8]) -> Result<(), NoMemory>
    ensures ok { OnOk result (out.new.items ≡ out.old.items ++ next word.now) }
    ensures err { OnErr result (out.new.items ≡ out.old.items) }
{
    out.push(b' ')?;
    if let Err(no_memory) = write_word(out, word) {
        let _ = out.pop();
        return Err(no_memory);
    }
    Ok(())
}

/// Appends a blank and the word for a number behind it.
///
/// # Errors
/// `NoMemory` alone, and then `out` is as before.
///
/// Cost: linear in the digits, over many calls.
pub fn write_next_number(out: &mut Vec<u8>, n: u64) -> Result<(), NoMemory>
    ensures ok { OnOk result (out.new.items ≡ out.old.items ++ next (number n)) }
    ensures err { OnErr result (out.new.items ≡ out.old.items) }
{
    out.push(b' ')?;
    if let Err(no_memory) = write_number(out, n) {
        let _ = out.pop();
        return Err(no_memory);
    }
    Ok(())
}

/// Appends the LF that ends a line.
///
/// # Errors
/// `NoMemory` alone, and then `out` is as before.
pub fn end_line(out: &mut Vec<u8>) -> Result<(), NoMemory>
    ensures ok { OnOk result (out.new.items ≡ out.old.items ++ 10 ∷ []) }
    ensures err { OnErr result (out.new.items ≡ out.old.items) }
{
    out.push(b'\n')?;
    Ok(())
}

/// Hands on what a writer answered, and cuts what it appended unless it wrote all: `end` is the length that `out` had
/// before. So what is written by several calls stands in `out` whole or not at all.
///
/// # Errors
/// That of `written`; `out` then ends at `end`.
///
/// Cost: constant.
pub fn whole_or_none<E: Drop>(
    out: &mut Vec<u8>,
    end: usize,
    written: Result<(), E>,
) -> Result<(), E>
    ensures answer { result ≡ written }
    ensures whole { OnOk result (out.new.items ≡ out.old.items) }
    ensures none { OnErr result (out.new.items ≡ take end out.old.items) }
{
    if written.is_err() {
        out.truncate(end);
    }
    written
}

// The last digit stands behind those of the tenth.
fn write_digits(out: &mut Vec<u8>, n: u64) -> Result<(), NoMemory>
    ensures ok { OnOk result (out.new.items ≡ out.old.items ++ number n) }
    ensures front { take (vec_len out.old) out.new.items ≡ out.old.items }
{
    if n >= 10 {
        write_digits(out, n / 10)?;
    }
    out.push(b'0' + (n % 10) as u8)?;
    Ok(())
}
