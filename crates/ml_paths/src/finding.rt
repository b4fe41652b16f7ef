// Paths found.
ghost use Rattle.std.specs.Prelude.{◌<◌, IfOk, length};
ghost use Rattle.ml_paths.specs.Paths.{IsFound};
ghost use Rattle.ml_paths.specs.Shortest.{ShowsShortest};
ghost use Rattle.ml_paths.specs.private.Shortening.{IsShortened};
ghost use Rattle.ml_paths.specs.private.Systems.{IsPathFound, path_from};
ghost use Rattle.ml_word_automaton.specs.Letters.{IsAutomatonOf};

use crate::found::{Found, Path};
use crate::letters::letters_of;
use crate::shortening::shortest_path;
use crate::systems::{swapped_back, system_from};
use ml_base::NoMemory;
use ml_emptiness::{SystemLasso, accepted_lasso};
use ml_graph::ClosureRefusal;
use ml_kripke::Structure;
use ml_ltl::Formula;
use ml_word_automaton::{WordAutomaton, automaton_of};
use std::alloc::Global;

/// How many nodes the graph of the word automaton of a formula may have, where paths are looked for.
pub const MOST_NODES: u32 = 65_536;

// the lasso of the system, as the shortest path of the structure
fn path_of(alloc: Global, start: u32, lasso: &SystemLasso) -> Result<Path, NoMemory>
    requires { lasso.now.loop_start < length lasso.now.states.items }
    ensures { IfOk result (λ path. IsShortened path (path_from start lasso.now)) }
{
    let states = swapped_back(alloc, start, &lasso.states)?;
    Ok(shortest_path(states, lasso.loop_start))
}

// a path that the automaton accepts
fn path_in(
    alloc: Global,
    structure: &Structure,
    start: u32,
    formula: &Formula,
    _negated: bool,
    automaton: &WordAutomaton,
) -> Result<Option<Path>, NoMemory>
    requires start { start < structure.now.states }
    requires automaton { IsAutomatonOf automaton.now formula.now _negated }
    ensures { IfOk result (IsPathFound structure.now start formula.now _negated) }
{
    // whoever asks a structure and a formula learns what their types keep
    structure.keeps();
    let _root = formula.root();
    let letters = letters_of(alloc, automaton, structure)?;
    let system = system_from(alloc, structure, start, &letters.numbers)?;
    match accepted_lasso(alloc, &system, &letters.row)? {
        Some(lasso) => Ok(Some(path_of(alloc, start, &lasso)?)),
        None => Ok(None),
    }
}

/// A path of a structure from a state that satisfies a formula, or its negation where the formula is negated.
///
/// `start` is a state of the structure. A state from which no edge by `_` leads is on no path.
///
/// Back comes `ClosureTooLarge` exactly where the graph of the word automaton, of the formula or of its negation, has more than
/// `MOST_NODES` nodes. Else it is `Path`, with such a path, exactly where there is one, and `NoPath` exactly where there is
/// none. No shorter path has the same endless sequence of states as the one that is shown.
///
/// # Errors
/// `NoMemory` alone.
///
/// Cost: that of the word automaton and of its letter for each different label of a state; for each state a look among its
/// labels for each proposition; that of `ml_emptiness::accepted_lasso`; and the length of its lasso, times the number of
/// divisors of the length of the loop.
///
/// Source: Vardi and Wolper, An automata-theoretic approach to automatic program verification (1986).
pub fn find(
    alloc: Global,
    structure: &Structure,
    start: u32,
    formula: &Formula,
    negated: bool,
) -> Result<Found, NoMemory>
    requires { start < structure.now.states }
    ensures found { IfOk result (IsFound structure.now start formula.now negated) }
    ensures shortest { IfOk result ShowsShortest }
{
    let automaton = match automaton_of(alloc, formula, negated, MOST_NODES) {
        Ok(automaton) => automaton,
        Err(ClosureRefusal::ClosureTooLarge) => return Ok(Found::ClosureTooLarge),
        Err(ClosureRefusal::NoMemory) => return Err(NoMemory),
    };
    match path_in(alloc, structure, start, formula, negated, &automaton)? {
        Some(path) => Ok(Found::Path(path)),
        None => Ok(Found::NoPath),
    }
}
