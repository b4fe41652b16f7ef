// The graphs of formulas of CTL* and LTL.
ghost use Rattle.std.specs.Prelude.{◌≤◌, IfOk, IsErrOf};
ghost use Rattle.ml_graph.specs.Graph.{size};
ghost use Rattle.ml_ctl.specs.Formula.{occurrences};
ghost use Rattle.ml_ctl.specs.Problem.{HoldsAt};
ghost use Rattle.ml_ctl.specs.Term.{formula_of};
ghost use Rattle.ml_ltl.specs.Problem as ltl;
ghost use Rattle.ml_blocks.specs.Agreement.{HoldsWhere};
ghost use Rattle.ml_nodes.specs.ClosureGraph.{IsGraphFrom};
ghost use Rattle.ml_blocks.specs.BlockGraph.{IsGraphAt, linear_start_of, start_of};
ghost use Rattle.ml_blocks.specs.BlockClosures.{IsBlockGraph};
ghost use Rattle.ml_blocks.specs.Closures.{HasMoreThan};
ghost use Rattle.ml_blocks.specs.Places.{Root, forms};
ghost use Rattle.ml_blocks.specs.private.Views.{begin_place, start_place};

use crate::numbering::numbered;
use crate::spots::Beginning;
use crate::table::Table;
use ml_ctl::Term;
use ml_graph::{ClosureRefusal, ModalGraph};
use ml_nodes::{Lists, Names};
use std::alloc::Global;

// the graph of a problem that starts with a block of this sign, or else with a state
fn made(
    alloc: Global,
    term: &Term,
    first: Option<bool>,
    positive: bool,
    beginning: Beginning,
    max: u32,
) -> Result<ModalGraph, ClosureRefusal>
    requires few { occurrences (formula_of term.now) ≤ 1000 }
    ensures graph { IfOk result (λ g. IsGraphFrom forms g
        (begin_place beginning (start_place first (formula_of term.now) positive))) }
    ensures fits { IfOk result (λ g. size g ≤ max) }
    ensures too_large { IsErrOf result ClosureRefusal.ClosureTooLarge
        → HasMoreThan (begin_place beginning (start_place first (formula_of term.now) positive)) max }
{
    let names = Names::of_paths(alloc, term)?;
    let table = Table::of(alloc, &names, first, term)?;
    let draft = numbered(alloc, &table, first, positive, beginning, max)?;
    let lists = Lists::of(alloc, draft, names)?;
    Ok(lists.into_graph(0))
}

/// The modal graph of a formula of CTL*, or of its negation, if its closure has at most so many nodes: on every structure in
/// which each state has an edge by `_` it holds exactly where the formula does, or doesn't.
///
/// # Errors
/// `ClosureTooLarge` exactly where the closure has more than `max` nodes. `NoMemory`.
///
/// Cost: each node of the closure is made once; a node of a block takes the time and the memory of its items, squared at
/// most, and any other node constant time; nodes are found by their hashes. Calls are nested at most as deep as the formula,
/// or as a block has items.
pub fn graph_of(
    alloc: Global,
    formula: &ml_ctl::Formula,
    negated: bool,
    max: u32,
) -> Result<ModalGraph, ClosureRefusal>
    ensures graph { IfOk result (λ g. IsGraphAt g (start_of formula.now negated)) }
    ensures agrees { IfOk result (λ g. HoldsWhere g (λ m s. HoldsAt m s formula.now negated)) }
    ensures fits { IfOk result (λ g. size g ≤ max) }
    ensures too_large { IsErrOf result ClosureRefusal.ClosureTooLarge → HasMoreThan (Root (start_of formula.now negated)) max }
{
    made(alloc, formula.root(), None, !negated, Beginning::Root, max)
}

/// The modal graph of a problem of LTL, if its closure has at most so many nodes: on every structure in which each state has
/// an edge by `_` it holds exactly where some path satisfies the formula, or its negation.
///
/// # Errors
/// `ClosureTooLarge` exactly where the closure has more than `max` nodes. `NoMemory`.
///
/// Cost: each node of the closure is made once; a node of a block takes the time and the memory of its items, squared at
/// most, and any other node constant time; nodes are found by their hashes. Calls are nested at most as deep as the formula,
/// or as a block has items.
pub fn ltl_graph_of(
    alloc: Global,
    formula: &ml_ltl::Formula,
    negated: bool,
    max: u32,
) -> Result<ModalGraph, ClosureRefusal>
    ensures graph { IfOk result (λ g. IsGraphAt g (linear_start_of formula.now negated)) }
    ensures agrees { IfOk result (λ g. HoldsWhere g (λ m s. ltl.HoldsAt m s formula.now negated)) }
    ensures fits { IfOk result (λ g. size g ≤ max) }
    ensures too_large { IsErrOf result ClosureRefusal.ClosureTooLarge → HasMoreThan (Root (linear_start_of formula.now negated)) max }
{
    made(
        alloc,
        formula.root(),
        Some(!negated),
        true,
        Beginning::Root,
        max,
    )
}

/// The modal graph of the nodes that are reached from the block of a problem of LTL, which is node 0, if these are at most so
/// many: without the root of `ltl_graph_of`, and without its part that asks each state for an edge.
///
/// # Errors
/// `ClosureTooLarge` exactly where more than `max` nodes are reached from the block. `NoMemory`.
///
/// Cost: as that of `ltl_graph_of`.
pub fn ltl_block_graph_of(
    alloc: Global,
    formula: &ml_ltl::Formula,
    negated: bool,
    max: u32,
) -> Result<ModalGraph, ClosureRefusal>
    ensures graph { IfOk result (λ g. IsBlockGraph g formula.now negated) }
    ensures fits { IfOk result (λ g. size g ≤ max) }
    ensures too_large { IsErrOf result ClosureRefusal.ClosureTooLarge → HasMoreThan (linear_start_of formula.now negated) max }
{
    made(
        alloc,
        formula.root(),
        Some(!negated),
        true,
        Beginning::Start,
        max,
    )
}
