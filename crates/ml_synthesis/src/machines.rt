// Machines and environments.
ghost use Rattle.std.specs.Prelude.{◌≡◌, map};
ghost use Rattle.std.specs.Global.{Vec};
ghost use Rattle.ml_parity.specs.Refusal.{lists_of};
ghost use Rattle.ml_synthesis.specs.declared.machines.MachineStep.{MachineStep};

use std::marker::Model;

/// What a machine does in a state where it gets a set of inputs: the set of outputs that it gives, and its next state.
#[derive(Clone, Copy, PartialEq, Eq)]
pub struct MachineStep {
    pub give: u32,
    pub next: u32,
}

/// A machine: for each state its steps, one for each set of inputs, sets ascending. It begins in state 0. Contracts see
/// the lists of steps.
#[derive(Drop)]
pub struct Machine {
    pub steps: Vec<Vec<MachineStep>>,
}

impl Machine {
    /// The steps of each state, one for each set of inputs, sets ascending.
    ///
    /// Cost: constant.
    pub fn steps(&self) -> &[Vec<MachineStep>]
        ensures { map (λ (row : Vec MachineStep). row.items) result.now ≡ self.now }
    {
        &self.steps
    }
}

impl Model for Machine {
    ghost use Rattle.std.specs.Prelude.{map};
    ghost use Rattle.std.specs.Global.{Vec};
    ghost use Rattle.ml_synthesis.specs.Machines.{MachineTable};
    ghost use Rattle.ml_synthesis.specs.declared.machines.MachineStep.{MachineStep};

    ghost Value = { MachineTable };

    ghost view = { λ a. map (λ (row : Vec MachineStep). row.items) a.steps.items };
}

/// An environment: for each state the set of inputs that it plays, and its next states, one for each set of outputs,
/// sets ascending. It begins in state 0. Contracts see the two lists.
#[derive(Drop)]
pub struct Environment {
    pub plays: Vec<u32>,
    pub next: Vec<Vec<u32>>,
}

impl Environment {
    /// The set of inputs that each state plays.
    ///
    /// Cost: constant.
    pub fn plays(&self) -> &[u32]
        ensures { result.now ≡ self.now.plays }
    {
        &self.plays
    }

    /// The next states of each state, one for each set of outputs, sets ascending.
    ///
    /// Cost: constant.
    pub fn next(&self) -> &[Vec<u32>]
        ensures { lists_of result.now ≡ self.now.next }
    {
        &self.next
    }
}

impl Model for Environment {
    ghost use Rattle.ml_parity.specs.Refusal.{lists_of};
    ghost use Rattle.ml_synthesis.specs.Machines.{EnvironmentTable};

    ghost Value = { EnvironmentTable };

    ghost view = { λ a. record { plays = a.plays.items; next = lists_of a.next.items } };
}
