// The inputs of commands.
ghost use Rattle.std.specs.Prelude.{◌≡◌, IfOk, IfErr, OnOk};
ghost use Rattle.ml_base.specs.KnownCounts.{AreFaultsAt};
ghost use Rattle.ml_driver.specs.Run.{IsWithin, WasGiven};
ghost use Rattle.ml_driver.specs.Statuses.{longest_input};
ghost use Rattle.ml_driver.specs.private.Inputs.{IsRefusedInput};

use crate::Command;
use ml_base::{ReadRefusal, Source, read_all};
use std::alloc::Global;

// the source to its end, or nothing where the command takes no input
pub(crate) fn input_of<S: Source>(
    alloc: Global,
    command: Command,
    source: &mut S,
) -> Result<Vec<u8>, ReadRefusal>
    ensures given { IfOk result (λ text.
        WasGiven (longest_input command) (S.remaining source.old) (S.remaining source.new) text.items) }
    ensures fits { IfOk result (λ text. IsWithin command text.items) }
    ensures calm { OnOk result (S.faults source.new ≡ S.faults source.old) }
    ensures refused { IfErr result (λ refusal.
        IsRefusedInput command refusal (S.remaining source.old) (S.remaining source.new)) }
    ensures faults { IfErr result (λ refusal. AreFaultsAt refusal (S.faults source.old) (S.faults source.new)) }
{
    match command.longest_input() {
        Some(longest) => read_all(alloc, source, longest),
        None => Ok(Vec::new(alloc)),
    }
}
