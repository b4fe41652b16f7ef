// A path is written as two lines, and a document of its word behind them.
ghost use Rattle.std.specs.Prelude.{◌≡◌, ◌++◌, [], ◌∷◌, IfOk, OnOk, codes, map};
ghost use Rattle.ml_lines.specs.Lines.{line_text, number};
ghost use Rattle.ml_model_check.specs.Checked.{IsCheckedAs};
ghost use Rattle.ml_model_check.specs.declared.checked.Checked.TheVariants.{Holds};
ghost use Rattle.ml_paths.specs.Paths.{IsShown};
ghost use Rattle.ml_path_text.specs.Found.{IsConfirmedText};
ghost use Rattle.ml_path_text.specs.WrittenPath.{path_document, path_lines, path_text};

use crate::problems::PathProblem;
use ml_base::NoMemory;
use ml_decision_text::{WrittenText, append_satisfied};
use ml_kripke::{Model, Structure};
use ml_lines::{end_line, write_next_number, write_word};
use ml_paths::{Path, run_along};
use std::alloc::Global;

// the line of the states
fn write_path(out: &mut Vec<u8>, states: &[u32]) -> Result<(), NoMemory>
    ensures { OnOk result (out.new.items ≡ out.old.items ++ line_text (codes "path" ∷ map number states.now)) }
{
    write_word(out, b"path")?;
    for state in states {
        write_next_number(out, u64::from(*state))?;
    }
    end_line(out)
}

// the line of the loop start
fn write_loop(out: &mut Vec<u8>, place: usize) -> Result<(), NoMemory>
    ensures { OnOk result (out.new.items ≡ out.old.items ++ line_text (codes "loop" ∷ number place ∷ [])) }
{
    write_word(out, b"loop")?;
    write_next_number(out, place as u64)?;
    end_line(out)
}

// both lines
fn lines_of(alloc: Global, path: &Path) -> Result<Vec<u8>, NoMemory>
    ensures { IfOk result (λ lines. lines.items ≡ path_lines path.now) }
{
    let mut lines = Vec::new(alloc);
    write_path(&mut lines, path.states())?;
    write_loop(&mut lines, path.loop_start())?;
    Ok(lines)
}

// the document of the word along the path
fn document_of(
    alloc: Global,
    structure: &Structure,
    _start: u32,
    asked: PathProblem,
    path: &Path,
) -> Result<Vec<u8>, NoMemory>
    requires { IsShown structure.now _start asked.formula asked.negated path.now }
    ensures text { IfOk result (λ document.
        document.items ≡ path_document structure.now path.now asked.formula asked.negated) }
    ensures holds { IfOk result (λ document. IsCheckedAs document.items Holds) }
{
    structure.keeps();
    let _root = asked.formula.root();
    let run = run_along(alloc, structure, path)?;
    run.keeps();
    let mut document = Vec::new(alloc);
    append_satisfied(&mut document, &asked.on_words(), &Model::new(run, 0))?;
    Ok(document)
}

/// A path as it is written: its lines, and the document of the word along it, which whoever checks documents confirms.
///
/// # Errors
/// `NoMemory` alone.
///
/// Cost: that of `ml_paths::run_along`, and linear in the text.
pub(crate) fn written_path(
    alloc: Global,
    structure: &Structure,
    _start: u32,
    asked: PathProblem,
    path: &Path,
) -> Result<WrittenText, NoMemory>
    requires { IsShown structure.now _start asked.formula asked.negated path.now }
    ensures text { IfOk result (λ text. text ≡ path_text structure.now path.now asked.formula asked.negated) }
    ensures confirmed { IfOk result IsConfirmedText }
{
    let mut text = lines_of(alloc, path)?;
    let document = document_of(alloc, structure, _start, asked, path)?;
    text.extend_from_slice(document.as_slice())?;
    Ok(WrittenText::new(text))
}
