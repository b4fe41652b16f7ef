// The search for a word of a system that an automaton accepts.
ghost use Rattle.std.specs.Prelude.{IfOk, MatchOption, length};
ghost use Rattle.ml_emptiness.specs.Emptiness.{IsEmpty, IsFound};
ghost use Rattle.ml_emptiness.specs.Systems.{IsSystem, table_of};
ghost use Rattle.ml_emptiness.specs.private.Found.{AreFound};

use crate::lassos::{SystemLasso, lasso_round};
use crate::leaving::by_source;
use crate::pairs::{Both, Pairs, reached_pairs};
use crate::systems::Move;
use ml_base::NoMemory;
use ml_parity::{OneSided, heights};
use ml_trace::Letter;
use std::alloc::Global;

// a lasso through the pairs that are reached
fn lasso_in(alloc: Global, both: &Both, found: Pairs) -> Result<Option<SystemLasso>, NoMemory>
    requires system { IsSystem (length both.now.letters.now) (table_of both.now.system.now) }
    requires found { AreFound both.now.letters.now (table_of both.now.system.now) found }
    ensures { IfOk result (λ lasso. MatchOption lasso
        (IsEmpty both.now.letters.now (table_of both.now.system.now))
        (λ l. IsFound both.now.letters.now (table_of both.now.system.now) l.states.items l.letters.items l.loop_start)) }
{
    let Pairs {
        pairs,
        arcs,
        origins,
    } = found;
    let graph = OneSided::build(pairs.len() as u64, 2, arcs);
    match heights(alloc, &graph)? {
        Ok(_) => Ok(None),
        Err(cycle) => {
            let lasso = lasso_round(alloc, both, &graph, pairs.as_slice(), &origins, &cycle.arcs)?;
            Ok(Some(lasso))
        }
    }
}

/// A lasso of the system with a word that the automaton accepts; `None` exactly where it accepts no word of the system.
///
/// `system` has for each state its moves, and there is a state; each letter is a place of `row`, which has the automaton's
/// transitions under each letter. Both begin in their state 0.
///
/// # Errors
/// `NoMemory` alone.
///
/// Cost: a hash of a pair of states for each joint move from a pair that is reached; a sort of the row's transitions; then
/// that of `ml_parity::heights` with the greatest priority 2.
///
/// Source: Vardi and Wolper, An automata-theoretic approach to automatic program verification (1986).
pub fn accepted_lasso(
    alloc: Global,
    system: &[Vec<Move>],
    row: &[Letter],
) -> Result<Option<SystemLasso>, NoMemory>
    requires { IsSystem (length row.now) (table_of system.now) }
    ensures { IfOk result (λ lasso. MatchOption lasso
        (IsEmpty row.now (table_of system.now))
        (λ l. IsFound row.now (table_of system.now) l.states.items l.letters.items l.loop_start)) }
{
    let letters = by_source(alloc, row)?;
    let both = Both {
        system,
        letters: &letters,
    };
    let found = reached_pairs(alloc, &both)?;
    let lasso = lasso_in(alloc, &both, found)?;
    Ok(lasso)
}
