// Machines and environments for tasks.
ghost use Rattle.std.specs.Prelude.{◌≡◌, ◌+◌, ◌++◌, ◌^◌, ◌<◌, ◌≤◌, length, IfOk, OnOk, IsErrOf, true};
ghost use Rattle.ml_graph.specs.Graph.{size};
ghost use Rattle.ml_determinise.specs.Histories.{StaysBelow};
ghost use Rattle.ml_task.specs.Task.{names_of, task_of};
ghost use Rattle.ml_word_automaton.specs.Letters.{IsAutomatonOf};
ghost use Rattle.ml_realize.specs.Realizing.{IsRight};
ghost use Rattle.ml_realize.specs.TaskGame.{IsFound, IsLarge, IsRowOf, PassesLimit, most_nodes};
ghost use Rattle.ml_realize.specs.private.Rows.{IsPlayed, Passes};
ghost use Rattle.ml_realize.specs.declared.refusals.RealizeRefusal.TheVariants as refusal;

use crate::letters::row_of;
use crate::refusals::{RealizeRefusal, of_automaton};
use ml_determinise::{DetRefusal, determinise};
use ml_synthesis::{Outcome, SynthesisRefusal, synthesise};
use ml_task::Task;
use ml_trace::Letter;
use ml_word_automaton::{WordAutomaton, automaton_of};
use std::alloc::Global;

/// How many nodes the graph of a word automaton has at most.
pub const MOST_NODES: u32 = 4096;

/// A machine that realizes a task, or an environment that defeats it.
///
/// `limit` is 1 or more.
///
/// Back comes the machine, each of whose words satisfies the formula, or the environment, none of whose words does. A
/// machine's states are the histories that its steps reach, an environment's the histories with the priorities with which it
/// reaches them; both are numbered breadth first from the start, sets ascending.
///
/// # Errors
/// `ClosureTooLarge` exactly where the graph of the word automaton of the negated formula has more than 4,096 nodes;
/// `Passed` exactly where it hasn't, and the game has more than `limit` positions; `NoMemory`.
///
/// Cost: a letter for each of the 2^n valuations of n names, a step of a history for each history and letter, and that of
/// solving the game.
/// Source: Pnueli and Rosner, On the synthesis of a reactive module (1989).
pub fn realize(alloc: Global, task: &Task, limit: u32) -> Result<Outcome, RealizeRefusal>
    requires { 1 ≤ limit }
    ensures right { IfOk result (IsRight (task_of task.now.inputs.items task.now.outputs.items task.now.formula)) }
    ensures found { IfOk result (IsFound (task_of task.now.inputs.items task.now.outputs.items task.now.formula) limit) }
    ensures passed { IsErrOf result refusal.Passed
        → PassesLimit (task_of task.now.inputs.items task.now.outputs.items task.now.formula) limit }
    ensures too_large { IsErrOf result refusal.ClosureTooLarge
        → IsLarge (task_of task.now.inputs.items task.now.outputs.items task.now.formula) }
{
    let automaton = match automaton_of(alloc, &task.formula, true, MOST_NODES) {
        Ok(automaton) => automaton,
        Err(refusal) => return Err(of_automaton(refusal)),
    };
    let row = row_of(alloc, &automaton, &task.inputs, &task.outputs)?;
    let states = automaton.states().len() as u32;
    let (inputs, outputs) = (task.inputs.len() as u32, task.outputs.len() as u32);
    match play(alloc, states, &row, inputs, outputs, limit) {
        Ok(outcome) => Ok(outcome),
        Err(refusal) => Err(refusal),
    }
}

// how many sets of so many names there are
fn sets(names: u32) -> u32
    requires { names ≤ 8 }
    ensures { result ≡ 2 ^ names }
{
    1 << names
}

// The game over the histories of a Büchi automaton that begins in state 0, with a letter for each valuation.
fn play(
    alloc: Global,
    states: u32,
    row: &[Letter],
    inputs: u32,
    outputs: u32,
    limit: u32,
) -> Result<Outcome, RealizeRefusal>
    requires few { inputs + outputs ≤ 8 }
    requires few_states { states ≤ 2 ^ 30 }
    requires some { 0 < states }
    requires stays { StaysBelow states row.now }
    requires one_each { length row.now ≡ 2 ^ (inputs + outputs) }
    requires limit { 1 ≤ limit }
    ensures played { IfOk result (IsPlayed states row.now inputs outputs limit) }
    ensures passed { IsErrOf result refusal.Passed → Passes states row.now inputs outputs limit }
    ensures not_large { ¬ (IsErrOf result refusal.ClosureTooLarge) }
{
    // each history has a position for each set of inputs
    let most = limit / sets(inputs);
    if most == 0 {
        return Err(RealizeRefusal::Passed);
    }
    let moves = match determinise(alloc, states, 0, row, most) {
        Ok(moves) => moves,
        Err(DetRefusal::Passed) => return Err(RealizeRefusal::Passed),
        Err(DetRefusal::NoMemory) => return Err(RealizeRefusal::NoMemory),
    };
    match synthesise(alloc, &moves, inputs, outputs, 2 * (states + 1), limit) {
        Ok(outcome) => Ok(outcome),
        Err(SynthesisRefusal::Passed) => Err(RealizeRefusal::Passed),
        Err(SynthesisRefusal::NoMemory) => Err(RealizeRefusal::NoMemory),
    }
}
