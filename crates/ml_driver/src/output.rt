// Outputs.
ghost use Rattle.std.specs.Prelude.{◌≡◌, ℕ, Bool, IfOk};
ghost use Rattle.ml_driver.specs.Said.{IsSaid, IsTold, said_text, status_said};
ghost use Rattle.ml_driver.specs.declared.status.Status.{Status};

use crate::{Said, Status};
use ml_base::NoMemory;
use std::alloc::Global;

/// The answer to a command: a status, the whole output that goes with it, and what this says.
#[derive(Drop)]
pub struct Output {
    pub status: Status,
    pub bytes: Vec<u8>,
    /// What the first line says; `None` where the output is a text.
    pub said: Option<Said>,
}

impl Output {
    // one line
    pub(crate) fn line(alloc: Global, said: Said) -> Result<Output, NoMemory>
        ensures status { IfOk result (λ output. output.status ≡ status_said said) }
        ensures output { IfOk result (λ output. output.bytes.items ≡ said_text said) }
        ensures both { IfOk result (λ output. IsSaid said output.status output.bytes.items) }
        ensures told { (text : Status → Bool) → IfOk result (λ output. IsTold text output.status output.bytes.items output.said) }
    {
        Ok(Output {
            status: said.status(),
            bytes: said.line(alloc)?,
            said: Some(said),
        })
    }
    // why the input is refused
    pub(crate) fn refused(alloc: Global, said: Said) -> Result<Output, NoMemory>
        requires { Status.Text ≡ status_said said }
        ensures status { IfOk result (λ output. output.status ≡ Status.Text) }
        ensures output { IfOk result (λ output. output.bytes.items ≡ said_text said) }
        ensures both { IfOk result (λ output. (output.status ≡ Status.Text) × (output.bytes.items ≡ said_text said)) }
        ensures told { (text : Status → Bool) → IfOk result (λ output. IsTold text output.status output.bytes.items output.said) }
    {
        Output::line(alloc, said)
    }
}
