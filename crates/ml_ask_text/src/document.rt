// The document of answers.
ghost use Rattle.std.specs.Prelude.{◌≡◌, ◌++◌, IfOk, OnOk, map};
ghost use Rattle.std.specs.List.{flat_map, AllByRecursion};
ghost use Rattle.ml_kripke.specs.ModelText.{model_text};
ghost use Rattle.ml_lines.specs.Lines.{line_text};
ghost use Rattle.ml_answers.specs.Documents.{last_line, title_line, without_line};
ghost use Rattle.ml_replies.specs.Answers.{part_of, replied_of, reply_of};
ghost use Rattle.ml_ask_text.specs.private.Written.{block_text, body_text, document_text, part_text};
ghost use Rattle.ml_ask_text.specs.private.Written.{AreShown, IsPartShown, IsRepliedShown, IsReplyShown, IsShown};

use crate::lines::write_line;
use crate::words::name_at;
use ml_base::{NoMemory, Version};
use ml_kripke::{Model, append_model};
use ml_lines::{end_line, write_next_word, write_word};
use ml_refutation_text::append_refutation;
use ml_replies::{Answer, Answered, Core, Part, Without};
use ml_spec::Item;
use std::alloc::Global;

// the text of a structure
fn put_model(out: &mut Vec<u8>, model: &Model) -> Result<(), NoMemory>
    ensures text { OnOk result (out.new.items ≡ out.old.items ++ model_text model.now.structure model.now.start) }
    ensures shown { OnOk result (IsShown model.now.structure model.now.start) }
{
    // whoever asks a structure for its states learns what its type keeps
    let _states = model.structure.states();
    append_model(out, model)
}

// the line before the structure without a requirement
fn write_without_line(out: &mut Vec<u8>, items: &[Item], number: usize) -> Result<(), NoMemory>
    ensures { OnOk result (out.new.items ≡ out.old.items ++ line_text (without_line items.now number)) }
{
    write_word(out, b"without")?;
    write_next_word(out, name_at(items, number))?;
    end_line(out)
}

// the structure without a requirement, behind its line
fn write_rest(
    out: &mut Vec<u8>,
    items: &[Item],
    number: usize,
    model: &Model,
) -> Result<(), NoMemory>
    ensures text { OnOk result (out.new.items ≡ out.old.items
        ++ (line_text (without_line items.now number) ++ model_text model.now.structure model.now.start)) }
    ensures shown { OnOk result (IsShown model.now.structure model.now.start) }
{
    write_without_line(out, items, number)?;
    put_model(out, model)
}

// that of one part, where a structure is known
fn write_part(out: &mut Vec<u8>, items: &[Item], part: &Part) -> Result<(), NoMemory>
    ensures text { OnOk result (out.new.items ≡ out.old.items ++ part_text items.now (part_of part.now)) }
    ensures shown { OnOk result (IsPartShown (part_of part.now)) }
{
    match &part.without {
        Without::Met(model) => write_rest(out, items, part.requirement, model),
        Without::Open => Ok(()),
    }
}

// those of all parts
fn write_parts(out: &mut Vec<u8>, items: &[Item], parts: &[Part]) -> Result<(), NoMemory>
    ensures text { OnOk result (out.new.items ≡ out.old.items ++ flat_map (part_text items.now) (map part_of parts.now)) }
    ensures shown { OnOk result (AllByRecursion IsPartShown (map part_of parts.now)) }
{
    for part in parts {
        write_part(out, items, part)?;
    }
    Ok(())
}

// the refutation of a core, and the structures without each of its requirements
fn write_core(alloc: Global, out: &mut Vec<u8>, items: &[Item], core: &Core) -> Result<(), NoMemory>
    ensures text { OnOk result (out.new.items ≡ out.old.items ++ body_text items.now (reply_of (Answer.No core.now))) }
    ensures shown { OnOk result (AllByRecursion IsPartShown (map part_of core.now.parts.items)) }
{
    append_refutation(alloc, out, &core.refutation, Version::Two)?;
    write_parts(out, items, &core.parts)
}

// what stands behind the line of an answer
fn write_body(
    alloc: Global,
    out: &mut Vec<u8>,
    items: &[Item],
    answer: &Answer,
) -> Result<(), NoMemory>
    ensures text { OnOk result (out.new.items ≡ out.old.items ++ body_text items.now (reply_of answer.now)) }
    ensures shown { OnOk result (IsReplyShown (reply_of answer.now)) }
{
    match answer {
        Answer::Yes(model) => put_model(out, model),
        Answer::No(core) => write_core(alloc, out, items, core),
        Answer::Open => Ok(()),
    }
}

// the line of a question and its answer, and what stands behind it
fn write_block(
    alloc: Global,
    out: &mut Vec<u8>,
    items: &[Item],
    answered: &Answered,
) -> Result<(), NoMemory>
    ensures text { OnOk result (out.new.items ≡ out.old.items ++ block_text items.now (replied_of answered.now)) }
    ensures shown { OnOk result (IsRepliedShown (replied_of answered.now)) }
{
    write_line(out, items, answered)?;
    write_body(alloc, out, items, &answered.answer)
}

// those of all
fn write_blocks(
    alloc: Global,
    out: &mut Vec<u8>,
    items: &[Item],
    answers: &[Answered],
) -> Result<(), NoMemory>
    ensures text { OnOk result (out.new.items ≡ out.old.items ++ flat_map (block_text items.now) (map replied_of answers.now)) }
    ensures shown { OnOk result (AreShown (map replied_of answers.now)) }
{
    for answered in answers {
        write_block(alloc, out, items, answered)?;
    }
    Ok(())
}

fn write_title(out: &mut Vec<u8>) -> Result<(), NoMemory>
    ensures { OnOk result (out.new.items ≡ out.old.items ++ line_text title_line) }
{
    write_word(out, b"mlsolver")?;
    write_next_word(out, b"answers")?;
    write_next_word(out, b"1")?;
    end_line(out)
}

fn write_end(out: &mut Vec<u8>) -> Result<(), NoMemory>
    ensures { OnOk result (out.new.items ≡ out.old.items ++ line_text last_line) }
{
    write_word(out, b"end")?;
    end_line(out)
}

/// The document of the answers.
///
/// # Errors
/// `NoMemory` alone.
pub(crate) fn document_of(
    alloc: Global,
    items: &[Item],
    answers: &[Answered],
) -> Result<Vec<u8>, NoMemory>
    ensures text { IfOk result (λ out. out.items ≡ document_text items.now (map replied_of answers.now)) }
    ensures shown { OnOk result (AreShown (map replied_of answers.now)) }
{
    let mut out = Vec::new(alloc);
    write_title(&mut out)?;
    write_blocks(alloc, &mut out, items, answers)?;
    write_end(&mut out)?;
    Ok(out)
}
