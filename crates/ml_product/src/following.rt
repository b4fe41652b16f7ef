// The step along a diamond, with the history and the mark that it leads to.
ghost use Rattle.std.specs.Prelude.{◌≡◌, ◌≤◌, ◌^◌, IfOk};
ghost use Rattle.ml_graph.specs.Graph.{IsGraph};
ghost use Rattle.ml_trace.specs.Marks.{priority};
ghost use Rattle.ml_sequent.specs.Spread.{IsSpreadOf};
ghost use Rattle.ml_sequent.specs.Step.{IsDiamondOf};
ghost use Rattle.ml_product.specs.Position.{automaton_states, Follows};
ghost use Rattle.ml_product.specs.DecisionGame.{IsReached};
ghost use Rattle.ml_product.specs.View.{viewed};
ghost use Rattle.ml_product.specs.private.Pools.{position_of};
ghost use Rattle.ml_product.specs.private.Exploring.{AreTerms};

use crate::pool::Fresh;
use crate::view::View;
use ml_base::NoMemory;
use ml_sequent::Branch;
use ml_trace::{letter_of, priority_of};
use std::alloc::Global;

/// What is asked of the graph at each position: its odd priorities, and the neutral priority.
#[derive(Drop)]
pub(crate) struct Terms {
    pub(crate) odds: Vec<u32>,
    pub(crate) neutral: u32,
}

// the position to which the step along a diamond leads
pub(crate) fn follow(
    alloc: Global,
    branch: &mut Branch,
    terms: &Terms,
    view: View,
    diamond: u32,
) -> Result<Fresh, NoMemory>
    requires is_graph { IsGraph branch.old.graph }
    requires small { automaton_states branch.old.graph ≤ 2 ^ 30 }
    requires terms { AreTerms branch.old.graph terms.now }
    requires reached { IsReached branch.old.graph (viewed view) }
    requires sequent { branch.old.sequent ≡ view.sequent.now }
    requires spread { IsSpreadOf branch.old.graph view.sequent.now (viewed view).choice branch.old.spread }
    requires diamond { IsDiamondOf branch.old.graph branch.old.spread diamond }
    ensures same { branch.new ≡ branch.old }
    ensures follows { IfOk result (λ fresh.
        Follows branch.old.graph (viewed view.entry) branch.old.spread diamond (position_of fresh)) }
{
    let (sequent, traces) = branch.step(diamond)?;
    let letter = letter_of(alloc, traces, &terms.odds)?;
    let (history, mark) = view.history.step(&letter)?;
    Ok(Fresh {
        sequent,
        history,
        priority: priority_of(mark, terms.neutral),
    })
}
