// A document of realizability is written as a whole.
ghost use Rattle.std.specs.Prelude.{◌≡◌, ◌++◌, ◌∷◌, [], codes, IfOk, OnOk};
ghost use Rattle.ml_ctl.specs.Canonical.{canonical_text};
ghost use Rattle.ml_lines.specs.Lines.{line_text, text_of};
ghost use Rattle.ml_synthesis.specs.declared.outcome.Outcome.TheVariants.{Made, Defeated};
ghost use Rattle.ml_task.specs.Task.{task_of};
ghost use Rattle.ml_realize_text.specs.RealizeText as text;
ghost use Rattle.ml_realize_text.specs.RealizeText.{answer_word, cause_line, head_lines, outcome_answer, outcome_lines, outcome_text, undecided_text};

use crate::cause::Cause;
use crate::environments::write_environment;
use crate::lines::{write_names, write_numbered};
use crate::machines::write_machine;
use crate::realizability::Realizability;
use ml_base::{Name, NoMemory};
use ml_lines::{end_line, write_next_word, write_word};
use ml_ltl::append_text;
use ml_synthesis::Outcome;
use ml_task::Task;
use std::alloc::Global;

/// The document of a task with a machine that realizes it, or an environment that defeats every machine.
///
/// # Errors
/// `NoMemory` alone.
///
/// Cost: linear in the text.
pub fn write(alloc: Global, task: &Task, outcome: &Outcome) -> Result<Vec<u8>, NoMemory>
    ensures { IfOk result (λ bytes. bytes.items
        ≡ outcome_text (task_of task.now.inputs.items task.now.outputs.items task.now.formula) outcome.now) }
{
    let mut out = Vec::new(alloc);
    write_head(&mut out, answer_of(outcome), task)?;
    write_outcome(&mut out, task, outcome)?;
    write_end(&mut out)?;
    Ok(out)
}

/// The document of a task of which neither is told, and why.
///
/// # Errors
/// `NoMemory` alone.
///
/// Cost: linear in the text.
pub fn write_undecided(alloc: Global, task: &Task, cause: Cause) -> Result<Vec<u8>, NoMemory>
    ensures { IfOk result (λ bytes. bytes.items
        ≡ undecided_text (task_of task.now.inputs.items task.now.outputs.items task.now.formula) cause) }
{
    let mut out = Vec::new(alloc);
    write_head(&mut out, Realizability::Undecided, task)?;
    write_cause(&mut out, cause)?;
    write_end(&mut out)?;
    Ok(out)
}

fn answer_of(outcome: &Outcome) -> Realizability
    ensures { result ≡ outcome_answer outcome.now }
{
    match outcome {
        Outcome::Made(_) => Realizability::Realizable,
        Outcome::Defeated(_) => Realizability::Unrealizable,
    }
}

fn answer_word(answer: Realizability) -> &'static [u8]
    ensures { result.now ≡ text.answer_word answer }
{
    match answer {
        Realizability::Realizable => b"realizable",
        Realizability::Unrealizable => b"unrealizable",
        Realizability::Undecided => b"undecided",
    }
}

fn write_answer(out: &mut Vec<u8>, answer: Realizability) -> Result<(), NoMemory>
    ensures { OnOk result (out.new.items ≡ out.old.items ++ line_text (codes "answer" ∷ text.answer_word answer ∷ [])) }
{
    write_word(out, b"answer")?;
    write_next_word(out, answer_word(answer))?;
    end_line(out)
}

fn write_title(out: &mut Vec<u8>) -> Result<(), NoMemory>
    ensures { OnOk result (out.new.items
        ≡ out.old.items ++ line_text (codes "mlsolver" ∷ codes "realize" ∷ codes "1" ∷ [])) }
{
    write_word(out, b"mlsolver realize 1")?;
    end_line(out)
}

#[tactic(auto, using(crate::proofs::WrittenParts::line_written))]
fn write_listed(out: &mut Vec<u8>, word: &[u8], names: &[Name]) -> Result<(), NoMemory>
    ensures { OnOk result (out.new.items ≡ out.old.items ++ line_text (word.now ∷ names.now)) }
{
    write_word(out, word)?;
    write_names(out, names)?;
    end_line(out)
}

fn write_formula(out: &mut Vec<u8>, task: &Task) -> Result<(), NoMemory>
    ensures { OnOk result (out.new.items
        ≡ out.old.items ++ line_text (codes "formula" ∷ canonical_text task.now.formula ∷ [])) }
{
    write_word(out, b"formula ")?;
    append_text(out, &task.formula)?;
    end_line(out)
}

fn write_head(out: &mut Vec<u8>, answer: Realizability, task: &Task) -> Result<(), NoMemory>
    ensures { OnOk result (out.new.items ≡ out.old.items
        ++ text_of (head_lines answer (task_of task.now.inputs.items task.now.outputs.items task.now.formula))) }
{
    write_title(out)?;
    write_answer(out, answer)?;
    write_listed(out, b"inputs", &task.inputs)?;
    write_listed(out, b"outputs", &task.outputs)?;
    write_formula(out, task)?;
    Ok(())
}

fn write_outcome(out: &mut Vec<u8>, task: &Task, outcome: &Outcome) -> Result<(), NoMemory>
    ensures { OnOk result (out.new.items ≡ out.old.items
        ++ text_of (outcome_lines (task_of task.now.inputs.items task.now.outputs.items task.now.formula) outcome.now)) }
{
    match outcome {
        Outcome::Made(machine) => write_machine(out, &task.inputs, &task.outputs, machine),
        Outcome::Defeated(environment) => {
            write_environment(out, &task.inputs, &task.outputs, environment)
        }
    }
}

fn write_cause(out: &mut Vec<u8>, cause: Cause) -> Result<(), NoMemory>
    ensures { OnOk result (out.new.items ≡ out.old.items ++ line_text (cause_line cause)) }
{
    match cause {
        Cause::Positions(most) => write_numbered(out, b"cause positions", u64::from(most)),
        Cause::Closure(most) => write_numbered(out, b"cause closure", u64::from(most)),
    }
}

fn write_end(out: &mut Vec<u8>) -> Result<(), NoMemory>
    ensures { OnOk result (out.new.items ≡ out.old.items ++ text_of (text.end_line ∷ [])) }
{
    write_word(out, b"end")?;
    end_line(out)
}
