// Automata of formulas of LTL.
ghost use Rattle.std.specs.Prelude.{IfOk};
ghost use Rattle.ml_ctl.specs.Parsing.{IsParsedAs};
ghost use Rattle.ml_ctl.specs.declared.language.Language.TheVariants.{Ltl};
ghost use Rattle.ml_driver.specs.Run.{IsAnswer};
ghost use Rattle.ml_driver.specs.Said.{IsTold, is_yes};

use crate::refusing::formula_refused;
use crate::{Command, Output, Said, Size, Status};
use ml_base::NoMemory;
use ml_ltl::{Formula, parse};
use ml_translate::{MOST_NODES, TranslateRefusal, automaton_of_formula, write};
use std::alloc::Global;

// the answer to `automaton` on the text of a formula
pub(crate) fn translate_text(alloc: Global, limit: u32, text: &[u8]) -> Result<Output, NoMemory>
    ensures answer { IfOk result (λ output. IsAnswer (Command.Automaton limit) text.now output.status output.bytes.items) }
    ensures told { IfOk result (λ output. IsTold is_yes output.status output.bytes.items output.said) }
{
    match parse(alloc, text) {
        Ok(formula) => answer(alloc, limit, text, &formula),
        Err(refusal) => match formula_refused(refusal) {
            Some(said) => Output::refused(alloc, said),
            None => Err(NoMemory),
        },
    }
}

// the answer about the formula of the text
fn answer(alloc: Global, limit: u32, _text: &[u8], formula: &Formula) -> Result<Output, NoMemory>
    requires { IsParsedAs Ltl _text.now formula.now }
    ensures answer { IfOk result (λ output. IsAnswer (Command.Automaton limit) _text.now output.status output.bytes.items) }
    ensures told { IfOk result (λ output. IsTold is_yes output.status output.bytes.items output.said) }
{
    match automaton_of_formula(alloc, formula, limit) {
        Ok(automaton) => Ok(Output {
            status: Status::Yes,
            bytes: write(alloc, &automaton)?,
            said: None,
        }),
        Err(TranslateRefusal::ClosureTooLarge) => {
            let said = Said::Undecided {
                size: Size::Closure,
                limit: MOST_NODES,
            };
            Ok(Output {
                status: Status::Undecided,
                bytes: said.line(alloc)?,
                said: Some(said),
            })
        }
        Err(TranslateRefusal::Passed) => {
            let said = Said::Undecided {
                size: Size::Positions,
                limit,
            };
            Ok(Output {
                status: Status::Undecided,
                bytes: said.line(alloc)?,
                said: Some(said),
            })
        }
        Err(TranslateRefusal::NoMemory) => Err(NoMemory),
    }
}
