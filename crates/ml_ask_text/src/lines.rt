// The lines of answers.
ghost use Rattle.std.specs.Prelude.{◌≡◌, ◌++◌, IfOk, OnOk, map};
ghost use Rattle.std.specs.List.{flat_map, list_any};
ghost use Rattle.ml_lines.specs.Lines.{line_text, next};
ghost use Rattle.ml_answers.specs.Lines as lines;
ghost use Rattle.ml_answers.specs.Lines.{because_words, line_of, lines_of, needed_name, perhaps_words, reply_words, unsettled_name};
ghost use Rattle.ml_replies.specs.Answers.{part_of, replied_of, reply_of};

use crate::words::{first_word, name_at, wants_structure, write_asked_name};
use ml_base::NoMemory;
use ml_lines::{end_line, write_next_word, write_word};
use ml_replies::{Answer, Answered, Part, Without};
use ml_spec::Item;

fn yes_or_no(yes: bool) -> &'static [u8]
    ensures { result.now ≡ lines.yes_or_no yes }
{
    if yes { b"yes" } else { b"no" }
}

// is there a structure without the requirement?
fn is_needed(part: &Part) -> bool
    ensures { result ≡ lines.is_needed (part_of part.now) }
{
    match part.without {
        Without::Met(_) => true,
        Without::Open => false,
    }
}

fn some_needed(parts: &[Part]) -> bool
    ensures { result ≡ list_any (λ p. lines.is_needed (part_of p)) parts.now }
{
    parts.iter().any(|part| is_needed(part))
}

fn some_unsettled(parts: &[Part]) -> bool
    ensures { result ≡ list_any (λ p. lines.is_unsettled (part_of p)) parts.now }
{
    parts.iter().any(|part| !is_needed(part))
}

// the name of a requirement without which there is a structure
fn write_if_needed(out: &mut Vec<u8>, items: &[Item], part: &Part) -> Result<(), NoMemory>
    ensures { OnOk result (out.new.items ≡ out.old.items ++ flat_map next (needed_name items.now (part_of part.now))) }
{
    if is_needed(part) {
        write_next_word(out, name_at(items, part.requirement))
    } else {
        Ok(())
    }
}

// the names of all such
fn write_needed(out: &mut Vec<u8>, items: &[Item], parts: &[Part]) -> Result<(), NoMemory>
    ensures { OnOk result (out.new.items
        ≡ out.old.items ++ flat_map (λ p. flat_map next (needed_name items.now (part_of p))) parts.now) }
{
    for part in parts {
        write_if_needed(out, items, part)?;
    }
    Ok(())
}

// the name of a requirement without which it stays open
fn write_if_unsettled(out: &mut Vec<u8>, items: &[Item], part: &Part) -> Result<(), NoMemory>
    ensures { OnOk result (out.new.items ≡ out.old.items ++ flat_map next (unsettled_name items.now (part_of part.now))) }
{
    if is_needed(part) {
        Ok(())
    } else {
        write_next_word(out, name_at(items, part.requirement))
    }
}

// the names of all such
fn write_unsettled(out: &mut Vec<u8>, items: &[Item], parts: &[Part]) -> Result<(), NoMemory>
    ensures { OnOk result (out.new.items
        ≡ out.old.items ++ flat_map (λ p. flat_map next (unsettled_name items.now (part_of p))) parts.now) }
{
    for part in parts {
        write_if_unsettled(out, items, part)?;
    }
    Ok(())
}

fn write_because(out: &mut Vec<u8>, items: &[Item], parts: &[Part]) -> Result<(), NoMemory>
    ensures { OnOk result (out.new.items ≡ out.old.items ++ flat_map next (because_words items.now (map part_of parts.now))) }
{
    if some_needed(parts) {
        write_needed(out, items, parts)
    } else {
        write_next_word(out, b"-")
    }
}

fn write_perhaps(out: &mut Vec<u8>, items: &[Item], parts: &[Part]) -> Result<(), NoMemory>
    ensures { OnOk result (out.new.items ≡ out.old.items ++ flat_map next (perhaps_words items.now (map part_of parts.now))) }
{
    if some_unsettled(parts) {
        write_next_word(out, b"perhaps:")?;
        write_unsettled(out, items, parts)?;
    }
    Ok(())
}

// the words of an answer, where `wants` tells whether a structure says yes
fn write_reply(
    out: &mut Vec<u8>,
    items: &[Item],
    wants: bool,
    answer: &Answer,
) -> Result<(), NoMemory>
    ensures { OnOk result (out.new.items ≡ out.old.items ++ flat_map next (reply_words items.now wants (reply_of answer.now))) }
{
    match answer {
        Answer::Yes(_) => write_next_word(out, yes_or_no(wants)),
        Answer::No(core) => {
            write_next_word(out, yes_or_no(!wants))?;
            write_next_word(out, b"because")?;
            write_because(out, items, &core.parts)?;
            write_perhaps(out, items, &core.parts)
        }
        Answer::Open => write_next_word(out, b"open"),
    }
}

/// Appends the line of a question and its answer.
///
/// # Errors
/// `NoMemory` alone.
pub(crate) fn write_line(
    out: &mut Vec<u8>,
    items: &[Item],
    answered: &Answered,
) -> Result<(), NoMemory>
    ensures { OnOk result (out.new.items ≡ out.old.items ++ line_text (line_of items.now (replied_of answered.now))) }
{
    write_word(out, first_word(items, answered.question))?;
    write_asked_name(out, items, answered.question)?;
    let wants = wants_structure(items, answered.question);
    write_reply(out, items, wants, &answered.answer)?;
    end_line(out)
}

/// Appends the lines of the answers.
///
/// # Errors
/// `NoMemory` alone.
pub(crate) fn write_lines(
    out: &mut Vec<u8>,
    items: &[Item],
    answers: &[Answered],
) -> Result<(), NoMemory>
    ensures { OnOk result (out.new.items ≡ out.old.items ++ lines_of items.now (map replied_of answers.now)) }
{
    for answered in answers {
        write_line(out, items, answered)?;
    }
    Ok(())
}
