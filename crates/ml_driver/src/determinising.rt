// Automata made deterministic from their texts.
ghost use Rattle.std.specs.Prelude.{◌≤◌, IfOk};
ghost use Rattle.ml_driver.specs.Run.{IsAnswer};
ghost use Rattle.ml_driver.specs.Said.{IsTold, is_yes};

use crate::refusing::automaton_refused;
use crate::{Command, Output, Said, Size, Status};
use ml_base::NoMemory;
use ml_buchi::{determinise, write};
use ml_determinise::DetRefusal;
use ml_hoa::read;
use std::alloc::Global;

// the answer to `determinise` on the text of an automaton
pub(crate) fn determinise_text(alloc: Global, limit: u32, text: &[u8]) -> Result<Output, NoMemory>
    requires { 1 ≤ limit }
    ensures answer { IfOk result (λ output. IsAnswer (Command.Determinise limit) text.now output.status output.bytes.items) }
    ensures told { IfOk result (λ output. IsTold is_yes output.status output.bytes.items output.said) }
{
    let automaton = match read(alloc, text) {
        Ok(automaton) => automaton,
        Err(refusal) => {
            return match automaton_refused(refusal) {
                Some(said) => Output::refused(alloc, said),
                None => Err(NoMemory),
            };
        }
    };
    match determinise(alloc, &automaton, limit) {
        Ok(deterministic) => Ok(Output {
            status: Status::Yes,
            bytes: write(alloc, &deterministic)?,
            said: None,
        }),
        Err(DetRefusal::Passed) => {
            let said = Said::Undecided {
                size: Size::States,
                limit,
            };
            Ok(Output {
                status: Status::Undecided,
                bytes: said.line(alloc)?,
                said: Some(said),
            })
        }
        Err(DetRefusal::NoMemory) => Err(NoMemory),
    }
}
