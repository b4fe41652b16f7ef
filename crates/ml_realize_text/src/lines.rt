// Machines and environments have these parts of lines in common.
ghost use Rattle.std.specs.Prelude.{◌≡◌, ◌++◌, ◌∷◌, [], codes, OnOk};
ghost use Rattle.std.specs.List.{flat_map};
ghost use Rattle.ml_lines.specs.Lines.{line_text, next, number};
ghost use Rattle.ml_realize_text.specs.RealizeText.{set_words, goto_words};
ghost use Rattle.ml_task.specs.NameSets.{members};

use ml_base::{Name, NoMemory};
use ml_lines::{end_line, write_next_number, write_next_word, write_word};

// names behind others
pub(crate) fn write_names(out: &mut Vec<u8>, names: &[Name]) -> Result<(), NoMemory>
    ensures { OnOk result (out.new.items ≡ out.old.items ++ flat_map next names.now) }
{
    for name in names {
        write_next_word(out, name.bytes())?;
    }
    Ok(())
}

// the names that are in a set, behind others
fn write_members(out: &mut Vec<u8>, names: &[Name], set: u64) -> Result<(), NoMemory>
    ensures { OnOk result (out.new.items ≡ out.old.items ++ flat_map next (members names.now set)) }
{
    match names.split_first() {
        Some((name, others)) => {
            if set % 2 == 1 {
                write_next_word(out, name.bytes())?;
            }
            write_members(out, others, set / 2)
        }
        None => Ok(()),
    }
}

// a set behind other words
pub(crate) fn write_set(out: &mut Vec<u8>, names: &[Name], set: u64) -> Result<(), NoMemory>
    ensures { OnOk result (out.new.items ≡ out.old.items ++ flat_map next (set_words names.now set)) }
{
    let end = out.len();
    write_members(out, names, set)?;
    if out.len() == end {
        write_next_word(out, b"-")?;
    }
    Ok(())
}

// a line of a word and a number
pub(crate) fn write_numbered(out: &mut Vec<u8>, word: &[u8], n: u64) -> Result<(), NoMemory>
    ensures { OnOk result (out.new.items ≡ out.old.items ++ line_text (word.now ∷ number n ∷ [])) }
{
    write_word(out, word)?;
    write_next_number(out, n)?;
    end_line(out)
}

// the end of a line that leads to a state
pub(crate) fn write_goto(out: &mut Vec<u8>, state: u32) -> Result<(), NoMemory>
    ensures { OnOk result (out.new.items ≡ out.old.items ++ (flat_map next (goto_words state) ++ 10 ∷ [])) }
{
    write_next_word(out, b"goto")?;
    write_next_number(out, u64::from(state))?;
    end_line(out)
}
