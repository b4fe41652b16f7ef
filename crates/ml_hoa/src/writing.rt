// What all texts of automata that are written have alike.
ghost use Rattle.std.specs.Prelude.{◌≡◌, Bool, ℕ, List, [], ◌∷◌, ◌++◌, codes, length, map, OnOk};
ghost use Rattle.std.specs.List.{flat_map};
ghost use Rattle.ml_lines.specs.Lines.{line_text, next, number, text_of};
ghost use Rattle.ml_hoa.specs.WrittenLines.{body_line, last_line, opening_lines, quoted, signed, state_line};

use crate::buchi::Quoted;
use ml_base::{Name, NoMemory};
use ml_lines::{end_line, write_next_number, write_number, write_word};

/// What is the name of a proposition, of which the ghost member `name` has the bytes.
pub trait PropName {
    ghost name: { Self → List ℕ };

    /// The bytes that stand between the quotes.
    fn name_bytes(&self) -> &[u8]
        ensures { result.now ≡ name self.now };
}

impl PropName for Name {
    ghost name = { λ n. n };

    fn name_bytes(&self) -> &[u8] {
        self.bytes()
    }
}

impl PropName for Quoted {
    ghost name = { λ n. n };

    fn name_bytes(&self) -> &[u8] {
        self.bytes()
    }
}

fn write_line(out: &mut Vec<u8>, word: &[u8]) -> Result<(), NoMemory>
    ensures { OnOk result (out.new.items ≡ out.old.items ++ line_text (word.now ∷ [])) }
{
    write_word(out, word)?;
    end_line(out)
}

fn write_numbered(out: &mut Vec<u8>, word: &[u8], n: u64) -> Result<(), NoMemory>
    ensures { OnOk result (out.new.items ≡ out.old.items ++ line_text (word.now ∷ number n ∷ [])) }
{
    write_word(out, word)?;
    write_next_number(out, n)?;
    end_line(out)
}

fn write_quoted(out: &mut Vec<u8>, name: &[u8]) -> Result<(), NoMemory>
    ensures { OnOk result (out.new.items ≡ out.old.items ++ next (quoted name.now)) }
{
    write_word(out, b" \"")?;
    write_word(out, name)?;
    out.push(b'"')?;
    Ok(())
}

fn write_names<N: PropName>(out: &mut Vec<u8>, props: &[N]) -> Result<(), NoMemory>
    ensures { OnOk result (out.new.items ≡ out.old.items ++ flat_map next (map quoted (map N.name props.now))) }
{
    for prop in props {
        write_quoted(out, prop.name_bytes())?;
    }
    Ok(())
}

fn write_props<N: PropName>(out: &mut Vec<u8>, props: &[N]) -> Result<(), NoMemory>
    ensures { OnOk result (out.new.items ≡ out.old.items
        ++ line_text (codes "AP:" ∷ number (length props.now) ∷ map quoted (map N.name props.now))) }
{
    write_word(out, b"AP:")?;
    write_next_number(out, props.len() as u64)?;
    write_names(out, props)?;
    end_line(out)
}

/// Appends the lines before the acceptance: an automaton of so many states, of which 0 is the first, with these
/// propositions.
///
/// # Errors
/// `NoMemory` alone, and then some of the bytes may be there.
///
/// Cost: linear in the bytes.
pub fn write_opening<N: PropName>(
    out: &mut Vec<u8>,
    states: usize,
    props: &[N],
) -> Result<(), NoMemory>
    ensures { OnOk result (out.new.items ≡ out.old.items ++ text_of (opening_lines states (map N.name props.now))) }
{
    write_line(out, b"HOA: v1")?;
    write_numbered(out, b"States:", states as u64)?;
    write_numbered(out, b"Start:", 0)?;
    write_props(out, props)
}

/// Appends the line before the states.
///
/// # Errors
/// `NoMemory` alone, and then some of the bytes may be there.
pub fn write_body_line(out: &mut Vec<u8>) -> Result<(), NoMemory>
    ensures { OnOk result (out.new.items ≡ out.old.items ++ line_text body_line) }
{
    write_line(out, b"--BODY--")
}

/// Appends the line before the edges of a state.
///
/// # Errors
/// `NoMemory` alone, and then some of the bytes may be there.
pub fn write_state_line(out: &mut Vec<u8>, state: usize) -> Result<(), NoMemory>
    ensures { OnOk result (out.new.items ≡ out.old.items ++ line_text (state_line state)) }
{
    write_numbered(out, b"State:", state as u64)
}

/// Appends a literal: this proposition, or its negation where it isn't positive.
///
/// # Errors
/// `NoMemory` alone, and then some of the bytes may be there.
pub fn write_signed(out: &mut Vec<u8>, positive: bool, prop: u64) -> Result<(), NoMemory>
    ensures { OnOk result (out.new.items ≡ out.old.items ++ signed positive prop) }
{
    if !positive {
        out.push(b'!')?;
    }
    write_number(out, prop)
}

/// Appends the last line.
///
/// # Errors
/// `NoMemory` alone, and then some of the bytes may be there.
pub fn write_last_line(out: &mut Vec<u8>) -> Result<(), NoMemory>
    ensures { OnOk result (out.new.items ≡ out.old.items ++ line_text last_line) }
{
    write_line(out, b"--END--")
}
