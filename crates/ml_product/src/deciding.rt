// The exploration of a decision: from a position without a choice along both sides of each open or-node, with one
// branch.
ghost use Rattle.std.specs.Prelude.{◌≡◌, ◌<◌, ◌≤◌, ◌^◌, [], OnOk, IsErrOf, length};
ghost use Rattle.ml_graph.specs.Graph.{IsGraph};
ghost use Rattle.ml_sequent.specs.Choice.{with_side};
ghost use Rattle.ml_sequent.specs.Spread.{IsSpreadOf, IsOpenOr};
ghost use Rattle.ml_product.specs.declared.refusals.ExploreRefusal.TheVariants as refusal;
ghost use Rattle.ml_product.specs.Position.{automaton_states};
ghost use Rattle.ml_product.specs.DecisionGame.{HasMoreThan};
ghost use Rattle.ml_product.specs.private.Pools.{positions_of};
ghost use Rattle.ml_product.specs.private.Exploring.{AreTerms, Explores, at_place, HasNoneBelow, IsAt, IsOpen, IsUnderway, IsWaiting, Repeats, IsExplored, AreRooted};

use crate::following::Terms;
use crate::pool::Pool;
use crate::recorded::Recorded;
use crate::recording::Turns;
use crate::refusals::ExploreRefusal;
use crate::trees::Trees;
use crate::turns::{Turn, choose, take_turn};
use ml_base::NoMemory;
use ml_sequent::{Branch, Side};
use std::alloc::Global;

// from the position at which the branch stands; the branch is as before then
#[cycle(deciding)]
fn explore_at(
    alloc: Global,
    branch: &mut Branch,
    terms: &Terms,
    pool: &mut Pool,
    turns: &mut Turns,
    limit: u32,
    v: u32,
) -> Result<(), ExploreRefusal>
    requires is_graph { IsGraph branch.old.graph }
    requires small { automaton_states branch.old.graph ≤ 2 ^ 30 }
    requires terms { AreTerms branch.old.graph terms.now }
    requires underway { IsUnderway branch.old.graph limit pool.old turns.old }
    requires at { IsAt branch.old.graph limit pool.old v branch.old.spread }
    requires sequent { branch.old.sequent ≡ (at_place branch.old.graph (positions_of pool.old) v).sequent }
    requires fresh { HasNoneBelow (positions_of pool.old) (at_place branch.old.graph (positions_of pool.old) v) }
    ensures same { OnOk result (branch.new ≡ branch.old) }
    ensures explored { OnOk result (IsExplored branch.old.graph limit pool.old turns.old v pool.new turns.new) }
    ensures passed { IsErrOf result refusal.Passed → HasMoreThan branch.old.graph limit }
{
    match take_turn(alloc, branch, terms, pool, limit, v)? {
        Turn::Ended(found) => Ok(turns.record(v, found)?),
        Turn::Open(node) => explore_open(alloc, branch, terms, pool, turns, limit, v, node),
    }
}

// the same where an or-node is open
#[cycle(deciding)]
fn explore_open(
    alloc: Global,
    branch: &mut Branch,
    terms: &Terms,
    pool: &mut Pool,
    turns: &mut Turns,
    limit: u32,
    v: u32,
    node: u32,
) -> Result<(), ExploreRefusal>
    requires is_graph { IsGraph branch.old.graph }
    requires small { automaton_states branch.old.graph ≤ 2 ^ 30 }
    requires terms { AreTerms branch.old.graph terms.now }
    requires underway { IsUnderway branch.old.graph limit pool.old turns.old }
    requires at { IsAt branch.old.graph limit pool.old v branch.old.spread }
    requires sequent { branch.old.sequent ≡ (at_place branch.old.graph (positions_of pool.old) v).sequent }
    requires is_open { IsOpen branch.old.graph branch.old.spread node }
    requires fresh { HasNoneBelow (positions_of pool.old) (at_place branch.old.graph (positions_of pool.old) v) }
    ensures same { OnOk result (branch.new ≡ branch.old) }
    ensures explored { OnOk result (IsExplored branch.old.graph limit pool.old turns.old v pool.new turns.new) }
    ensures passed { IsErrOf result refusal.Passed → HasMoreThan branch.old.graph limit }
{
    let (left, right) = choose(branch, terms, pool, limit, v, node)?;
    turns.record(v, Recorded::Chosen([left as u64, right as u64]))?;
    explore_side(
        alloc,
        branch,
        terms,
        pool,
        turns,
        limit,
        node,
        Side::Left,
        left,
    )?;
    explore_side(
        alloc,
        branch,
        terms,
        pool,
        turns,
        limit,
        node,
        Side::Right,
        right,
    )
}

// from the position with a side more
#[cycle(deciding)]
fn explore_side(
    alloc: Global,
    branch: &mut Branch,
    terms: &Terms,
    pool: &mut Pool,
    turns: &mut Turns,
    limit: u32,
    node: u32,
    side: Side,
    w: u32,
) -> Result<(), ExploreRefusal>
    requires is_graph { IsGraph branch.old.graph }
    requires small { automaton_states branch.old.graph ≤ 2 ^ 30 }
    requires terms { AreTerms branch.old.graph terms.now }
    requires underway { IsUnderway branch.old.graph limit pool.old turns.old }
    requires spread { IsSpreadOf branch.old.graph branch.old.sequent branch.old.spread.choice branch.old.spread }
    requires node { IsOpenOr branch.old.graph branch.old.spread node }
    requires number { w < length (positions_of pool.old) }
    requires sequent { branch.old.sequent ≡ (at_place branch.old.graph (positions_of pool.old) w).sequent }
    requires choice { with_side branch.old.spread.choice node side
        ≡ (at_place branch.old.graph (positions_of pool.old) w).choice }
    requires fresh { HasNoneBelow (positions_of pool.old) (at_place branch.old.graph (positions_of pool.old) w) }
    ensures same { OnOk result (branch.new ≡ branch.old) }
    ensures explored { OnOk result (IsExplored branch.old.graph limit pool.old turns.old w pool.new turns.new) }
    ensures passed { IsErrOf result refusal.Passed → HasMoreThan branch.old.graph limit }
{
    branch.choose(node, side)?;
    explore_at(alloc, branch, terms, pool, turns, limit, w)?;
    branch.undo();
    Ok(())
}

// begins at the sequent of a position without a choice
fn begin_at(branch: &mut Branch, pool: &Pool, limit: u32, v: u32) -> Result<(), NoMemory>
    requires is_graph { IsGraph branch.old.graph }
    requires explores { Explores branch.old.graph limit pool.now }
    requires number { v < length (positions_of pool.now) }
    requires unchosen { (at_place branch.old.graph (positions_of pool.now) v).choice ≡ [] }
    ensures graph { branch.new.graph ≡ branch.old.graph }
    ensures at { OnOk result (IsAt branch.old.graph limit pool.now v branch.new.spread) }
    ensures sequent { OnOk result
        (branch.new.sequent ≡ (at_place branch.old.graph (positions_of pool.now) v).sequent) }
{
    let view = pool.view(v);
    branch.begin(view.sequent.copy()?)
}

// records of a position what was found at another one
fn repeat(turns: &mut Turns, v: u32, other: u32) -> Result<(), NoMemory>
    ensures { OnOk result (Repeats turns.old v other turns.new) }
{
    let found = turns.found(other)?;
    turns.record(v, found)
}

// where an or-node is open at a position without a choice: where sides were chosen with its sequent and its history
// before, at a position that differs in its priority alone, the same was found
fn explore_tree(
    alloc: Global,
    branch: &mut Branch,
    terms: &Terms,
    pool: &mut Pool,
    turns: &mut Turns,
    trees: &mut Trees,
    limit: u32,
    v: u32,
    node: u32,
) -> Result<(), ExploreRefusal>
    requires is_graph { IsGraph branch.old.graph }
    requires small { automaton_states branch.old.graph ≤ 2 ^ 30 }
    requires terms { AreTerms branch.old.graph terms.now }
    requires underway { IsUnderway branch.old.graph limit pool.old turns.old }
    requires at { IsAt branch.old.graph limit pool.old v branch.old.spread }
    requires sequent { branch.old.sequent ≡ (at_place branch.old.graph (positions_of pool.old) v).sequent }
    requires is_open { IsOpen branch.old.graph branch.old.spread node }
    requires unchosen { (at_place branch.old.graph (positions_of pool.old) v).choice ≡ [] }
    requires waiting { IsWaiting turns.old v }
    requires rooted { AreRooted pool.old.positions turns.old trees.old.sites.keys trees.old.tops.items }
    ensures same { OnOk result (branch.new ≡ branch.old) }
    ensures explored { OnOk result (IsExplored branch.old.graph limit pool.old turns.old v pool.new turns.new) }
    ensures rooted { OnOk result
        (AreRooted pool.new.positions turns.new trees.new.sites.keys trees.new.tops.items) }
    ensures passed { IsErrOf result refusal.Passed → HasMoreThan branch.old.graph limit }
{
    let top = trees.top(pool.site(v), v)?;
    if top != v {
        return Ok(repeat(turns, v, top)?);
    }
    explore_open(alloc, branch, terms, pool, turns, limit, v, node)
}

// from a position without a choice, unless this was done before
pub(crate) fn explore_from(
    alloc: Global,
    branch: &mut Branch,
    terms: &Terms,
    pool: &mut Pool,
    turns: &mut Turns,
    trees: &mut Trees,
    limit: u32,
    v: u32,
) -> Result<(), ExploreRefusal>
    requires is_graph { IsGraph branch.old.graph }
    requires small { automaton_states branch.old.graph ≤ 2 ^ 30 }
    requires terms { AreTerms branch.old.graph terms.now }
    requires underway { IsUnderway branch.old.graph limit pool.old turns.old }
    requires number { v < length (positions_of pool.old) }
    requires unchosen { IsWaiting turns.old v → (at_place branch.old.graph (positions_of pool.old) v).choice ≡ [] }
    requires rooted { AreRooted pool.old.positions turns.old trees.old.sites.keys trees.old.tops.items }
    ensures graph { OnOk result (branch.new.graph ≡ branch.old.graph) }
    ensures explored { OnOk result (IsExplored branch.old.graph limit pool.old turns.old v pool.new turns.new) }
    ensures rooted { OnOk result
        (AreRooted pool.new.positions turns.new trees.new.sites.keys trees.new.tops.items) }
    ensures passed { IsErrOf result refusal.Passed → HasMoreThan branch.old.graph limit }
{
    if !turns.is_waiting(v) {
        return Ok(());
    }
    begin_at(branch, pool, limit, v)?;
    match take_turn(alloc, branch, terms, pool, limit, v)? {
        Turn::Ended(found) => Ok(turns.record(v, found)?),
        Turn::Open(node) => explore_tree(alloc, branch, terms, pool, turns, trees, limit, v, node),
    }
}
