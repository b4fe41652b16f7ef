// The lines of a body are read one after the other, and the first bad one is told.
ghost use Rattle.std.specs.Prelude.{ℕ, ◌≡◌, ◌<◌, ◌≤◌, ◌^◌, ◌∷◌, [], IfErr, IfOk, List, length};
ghost use Rattle.ml_lines.specs.Lines.{Word};
ghost use Rattle.ml_realize_text.specs.RealizeRules.{AtEnd, AtPlay, AtReply, AtState, AtStates, AtStep, Signals};
ghost use Rattle.ml_realize_text.specs.RealizeText.{answer_line, play_line, state_line, states_line, step_line};
ghost use Rattle.ml_realize_text.specs.private.Reads.{Goes, HasRoom, IsEnded, StepFits, TellsFault, environment_of, machine_of};

use crate::body_lines::{check_state, play_of, reply_of, states_of, step_of};
use crate::line_rule::LineRule;
use crate::rest::{Rest, ended, fault, next_line};
use ml_base::{DocRefusal, Name};
use ml_synthesis::MachineStep;

// how many states there are
pub(crate) fn read_states<'a>(at: Rest<'a>) -> Result<(u32, Rest<'a>), DocRefusal>
    requires { HasRoom at }
    ensures read { IfOk result (λ r. Goes at.entry (states_line r.0 ∷ []) r.1) }
    ensures some { IfOk result (λ r. (0 < r.0) × (r.0 < 2 ^ 32)) }
    ensures refused { IfErr result (λ e. (g : Signals) → TellsFault (AtStates g) at.entry e) }
{
    match next_line(at) {
        Some((line, rest)) => match states_of(line) {
            Ok(states) => Ok((states, rest)),
            Err(rule) => Err(fault(at.line, rule)),
        },
        None => Err(fault(at.line, LineRule::OfKind)),
    }
}

// the line of this state
pub(crate) fn read_state<'a>(at: Rest<'a>, state: u32) -> Result<Rest<'a>, DocRefusal>
    requires { HasRoom at }
    ensures read { IfOk result (λ rest. Goes at.entry (state_line state ∷ []) rest) }
    ensures refused { IfErr result (λ e. (g : Signals) (n : ℕ) → TellsFault (AtState g n state) at.entry e) }
{
    match next_line(at) {
        Some((line, rest)) => match check_state(line, state) {
            Ok(()) => Ok(rest),
            Err(rule) => Err(fault(at.line, rule)),
        },
        None => Err(fault(at.line, LineRule::OfKind)),
    }
}

// what a machine of so many states does on a set of inputs
pub(crate) fn read_step<'a>(
    at: Rest<'a>,
    inputs: &[Name],
    outputs: &[Name],
    states: u32,
    set: u32,
) -> Result<(MachineStep, Rest<'a>), DocRefusal>
    requires room { HasRoom at }
    requires is_set { set < 2 ^ length inputs.now }
    requires few { length outputs.now ≤ 8 }
    ensures read { IfOk result (λ r. Goes at.entry (step_line inputs.now outputs.now (set, r.0) ∷ []) r.1) }
    ensures fits { IfOk result (λ r. StepFits (length outputs.now) states r.0) }
    ensures refused { IfErr result (λ e. (i : ℕ) → TellsFault (AtStep (machine_of inputs.now outputs.now) states i set) at.entry e) }
{
    match next_line(at) {
        Some((line, rest)) => match step_of(line, inputs, outputs, states, set) {
            Ok(step) => Ok((step, rest)),
            Err(rule) => Err(fault(at.line, rule)),
        },
        None => Err(fault(at.line, LineRule::OfKind)),
    }
}

// the set of inputs that an environment plays
pub(crate) fn read_play<'a>(at: Rest<'a>, inputs: &[Name]) -> Result<(u32, Rest<'a>), DocRefusal>
    requires room { HasRoom at }
    requires few { length inputs.now ≤ 8 }
    ensures read { IfOk result (λ r. Goes at.entry (play_line inputs.now r.0 ∷ []) r.1) }
    ensures is_set { IfOk result (λ r. r.0 < 2 ^ length inputs.now) }
    ensures refused { IfErr result (λ e. (outs : List Word) (n i : ℕ) → TellsFault (AtPlay (environment_of inputs.now outs) n i) at.entry e) }
{
    match next_line(at) {
        Some((line, rest)) => match play_of(line, inputs) {
            Ok(set) => Ok((set, rest)),
            Err(rule) => Err(fault(at.line, rule)),
        },
        None => Err(fault(at.line, LineRule::OfKind)),
    }
}

// where an environment of so many states goes on a set of outputs
pub(crate) fn read_reply<'a>(
    at: Rest<'a>,
    outputs: &[Name],
    states: u32,
    set: u32,
) -> Result<(u32, Rest<'a>), DocRefusal>
    requires room { HasRoom at }
    requires is_set { set < 2 ^ length outputs.now }
    ensures read { IfOk result (λ r. Goes at.entry (answer_line outputs.now (set, r.0) ∷ []) r.1) }
    ensures leads { IfOk result (λ r. r.0 < states) }
    ensures refused { IfErr result (λ e. (ins : List Word) (i : ℕ) → TellsFault (AtReply (environment_of ins outputs.now) states i set) at.entry e) }
{
    match next_line(at) {
        Some((line, rest)) => match reply_of(line, outputs, states, set) {
            Ok(next) => Ok((next, rest)),
            Err(rule) => Err(fault(at.line, rule)),
        },
        None => Err(fault(at.line, LineRule::OfKind)),
    }
}

// the line `end`, behind which nothing stands
pub(crate) fn read_end(at: Rest) -> Result<(), DocRefusal>
    requires { HasRoom at }
    ensures read { IfOk result (λ none. IsEnded at.entry) }
    ensures refused { IfErr result (TellsFault AtEnd at.entry) }
{
    match next_line(at) {
        Some((line, rest)) => {
            if line == b"end".as_slice() {
                ended(rest)
            } else {
                Err(fault(at.line, LineRule::OfKind))
            }
        }
        None => Err(fault(at.line, LineRule::OfKind)),
    }
}
