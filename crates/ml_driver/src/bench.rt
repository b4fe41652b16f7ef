// The formulas of families: their texts, and how large they, their graphs and their decision games are.
//
// `generate` writes the text of a family's formula. `measure` reads it back as a problem, which `ml_decide` measures; what is
// found is written as five lines.
ghost use Rattle.std.specs.Prelude.{◌≡◌, true, [], ◌∷◌, ◌++◌, codes, IfOk, OnOk};
ghost use Rattle.ml_front.specs.Logics.{IsWellFormed, some_logic};
ghost use Rattle.ml_gen.specs.Families.{family_word, formula_text, logic_name};
ghost use Rattle.ml_gen.specs.FamilyRanges.{is_in_range};
ghost use Rattle.ml_lines.specs.Lines.{line_text, number};
ghost use Rattle.ml_driver.specs.Bench as measures;
ghost use Rattle.ml_driver.specs.Bench.{IsMeant, bench_text};
ghost use Rattle.ml_driver.specs.Run.{IsAnswer};
ghost use Rattle.ml_driver.specs.Said.{IsTold, is_answered};
ghost use Rattle.ml_driver.specs.private.Findings.{nodes_line, positions_line};

use crate::command::GREATEST_LIMIT;
use crate::{Command, Output, Status};
use ml_base::{NoMemory, ParseRefusal};
use ml_decide::Finding;
use ml_front::{Answer, Logic, Problem, occurrences, read};
use ml_gen::{Family, GenRefusal, formula};
use ml_lines::{end_line, write_next_number, write_next_word, write_word};
use std::alloc::Global;

// the answer to `gen`
pub(crate) fn generate(alloc: Global, family: Family, n: u32) -> Result<Output, NoMemory>
    requires { is_in_range family n ≡ true }
    ensures answer { IfOk result (λ output. IsAnswer (Command.Gen family n) [] output.status output.bytes.items) }
    ensures told { IfOk result (λ output. IsTold is_answered output.status output.bytes.items output.said) }
{
    let mut bytes = text_for(alloc, family, n)?;
    end_line(&mut bytes)?;
    Ok(Output {
        status: Status::Yes,
        bytes,
        said: None,
    })
}

// the answer to `bench`
pub(crate) fn measure(alloc: Global, family: Family, n: u32) -> Result<Output, NoMemory>
    requires { is_in_range family n ≡ true }
    ensures answer { IfOk result (λ output. IsAnswer (Command.Bench family n) [] output.status output.bytes.items) }
    ensures told { IfOk result (λ output. IsTold is_answered output.status output.bytes.items output.said) }
{
    let problem = problem_for(alloc, family, n)?;
    measured(alloc, family, n, &problem)
}

// the same of the family's problem
fn measured(alloc: Global, family: Family, n: u32, problem: &Problem) -> Result<Output, NoMemory>
    requires meant { IsMeant family n problem.now }
    requires well_formed { IsWellFormed problem.now.formula }
    ensures answer { IfOk result (λ output. IsAnswer (Command.Bench family n) [] output.status output.bytes.items) }
    ensures told { IfOk result (λ output. IsTold is_answered output.status output.bytes.items output.said) }
{
    let finding = ml_decide::measure(alloc, problem, GREATEST_LIMIT)?;
    let status = status_of(finding.answer());
    let count = occurrences(&problem.formula);
    Ok(Output {
        status,
        bytes: report(alloc, family, n, count, finding)?,
        said: None,
    })
}

fn text_for(alloc: Global, family: Family, n: u32) -> Result<Vec<u8>, NoMemory>
    requires { is_in_range family n ≡ true }
    ensures { IfOk result (λ text. text.items ≡ formula_text family n) }
{
    match formula(alloc, family, n) {
        Ok(text) => Ok(text),
        Err(GenRefusal::NoMemory) => Err(NoMemory),
        Err(GenRefusal::OutOfFamily) => unreachable!(),
    }
}

fn problem_for(alloc: Global, family: Family, n: u32) -> Result<Problem, NoMemory>
    requires { is_in_range family n ≡ true }
    ensures { IfOk result (IsMeant family n) }
{
    let text = text_for(alloc, family, n)?;
    match read(alloc, logic_for(family), &text) {
        Ok(problem) => Ok(problem),
        Err(refusal) => Err(want_of(refusal)),
    }
}

// the one refusal of a family's text
fn want_of(refusal: ParseRefusal) -> NoMemory
    requires { refusal ≡ ParseRefusal.NoMemory }
{
    match refusal {
        ParseRefusal::NoMemory => NoMemory,
        ParseRefusal::Syntax { .. }
        | ParseRefusal::Unbound { .. }
        | ParseRefusal::NotPositive { .. }
        | ParseRefusal::TooMany { .. }
        | ParseRefusal::TooNested { .. }
        | ParseRefusal::NameTooLong { .. } => unreachable!(),
    }
}

fn logic_for(family: Family) -> Logic
    ensures { result ≡ some_logic (logic_name family) }
{
    match family {
        Family::And | Family::Or => Logic::Mu,
        Family::Step | Family::Loop => Logic::Pdl,
        Family::Fair => Logic::Ltl,
    }
}

fn status_of(answer: Answer) -> Status
    ensures status { result ≡ measures.status_of answer }
    ensures answered { is_answered result ≡ true }
{
    match answer {
        Answer::Satisfiable => Status::Yes,
        Answer::Unsatisfiable => Status::No,
        Answer::Undecided => Status::Undecided,
    }
}

// ---- what is written

fn report(
    alloc: Global,
    family: Family,
    n: u32,
    count: u32,
    finding: Finding,
) -> Result<Vec<u8>, NoMemory>
    ensures { IfOk result (λ lines. lines.items ≡ bench_text family n count finding) }
{
    let mut lines = Vec::new(alloc);
    append_request(&mut lines, family, n)?;
    append_number(&mut lines, b"occurrences", count)?;
    append_nodes(&mut lines, finding)?;
    append_positions(&mut lines, finding)?;
    append_word(&mut lines, b"answer", finding.answer().word())?;
    Ok(lines)
}

fn append_request(lines: &mut Vec<u8>, family: Family, n: u32) -> Result<(), NoMemory>
    ensures { OnOk result (lines.new.items ≡ lines.old.items ++ line_text (codes "bench" ∷ family_word family ∷ number n ∷ [])) }
{
    write_word(lines, b"bench")?;
    write_next_word(lines, family.word())?;
    write_next_number(lines, u64::from(n))?;
    end_line(lines)
}

fn append_nodes(lines: &mut Vec<u8>, finding: Finding) -> Result<(), NoMemory>
    ensures { OnOk result (lines.new.items ≡ lines.old.items ++ line_text (nodes_line finding)) }
{
    match finding {
        Finding::Decided { nodes, .. } | Finding::GamePassed { nodes } => {
            append_number(lines, b"nodes", nodes)
        }
        Finding::ClosurePassed => append_word(lines, b"nodes", b"passed"),
    }
}

fn append_positions(lines: &mut Vec<u8>, finding: Finding) -> Result<(), NoMemory>
    ensures { OnOk result (lines.new.items ≡ lines.old.items ++ line_text (positions_line finding)) }
{
    match finding {
        Finding::Decided { positions, .. } => append_number(lines, b"positions", positions),
        Finding::GamePassed { .. } => append_word(lines, b"positions", b"passed"),
        Finding::ClosurePassed => append_word(lines, b"closure", b"passed"),
    }
}

// a line of two words, of which the second is a number
fn append_number(lines: &mut Vec<u8>, word: &[u8], value: u32) -> Result<(), NoMemory>
    ensures { OnOk result (lines.new.items ≡ lines.old.items ++ line_text (word.now ∷ number value ∷ [])) }
{
    write_word(lines, word)?;
    write_next_number(lines, u64::from(value))?;
    end_line(lines)
}

// a line of two words
fn append_word(lines: &mut Vec<u8>, word: &[u8], next: &[u8]) -> Result<(), NoMemory>
    ensures { OnOk result (lines.new.items ≡ lines.old.items ++ line_text (word.now ∷ next.now ∷ [])) }
{
    write_word(lines, word)?;
    write_next_word(lines, next)?;
    end_line(lines)
}
