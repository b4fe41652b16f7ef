// What is done at a position: its verdict, and the numbers of the positions to which its moves lead.
ghost use Rattle.std.specs.Prelude.{◌≡◌, ◌<◌, ◌≤◌, ◌^◌, ℕ, None, Some, IfOk, OnOk, IfSome, IfNone, IsErrOf, length, map, slice_get};
ghost use Rattle.ml_graph.specs.Graph.{IsGraph};
ghost use Rattle.ml_lists.specs.Member.{IsMember};
ghost use Rattle.ml_sequent.specs.Choice.{side_of, with_side};
ghost use Rattle.ml_sequent.specs.Spread.{IsSpreadOf};
ghost use Rattle.ml_product.specs.declared.refusals.ExploreRefusal.TheVariants as refusal;
ghost use Rattle.ml_product.specs.Position.{Position, automaton_states};
ghost use Rattle.ml_product.specs.DecisionGame.{IsReached, HasMoreThan, IsResolved, AreSteps, diamonds_of};
ghost use Rattle.ml_product.specs.View.{viewed};
ghost use Rattle.ml_product.specs.private.Pools.{positions_of, position_of, KeepsPool, beside};
ghost use Rattle.ml_product.specs.private.Exploring.{AreTerms, IsNumbered, HasNoRoom, at_place, target_of, IsAt, IsLed, IsOpen, IsOpened, IsTurnOf, HasNoneBelow};

use crate::following::{Terms, follow};
use crate::pool::{Fresh, Pool};
use crate::recorded::Recorded;
use crate::refusals::ExploreRefusal;
use crate::view::View;
use ml_base::NoMemory;
use ml_sequent::{Branch, Side};
use std::alloc::Global;

/// What is done at a position: nothing more than is recorded of it, or sides are to be chosen at an or-node.
#[derive(Drop)]
pub(crate) enum Turn {
    Ended(Recorded),
    Open(u32),
}

// the number, if that many positions are allowed
fn within(number: usize, limit: u32) -> Result<u32, ExploreRefusal>
    ensures ok { IfOk result (λ v. (v ≡ number) × (v < limit)) }
    ensures passed { IsErrOf result refusal.Passed → limit ≤ number }
    ensures memory { ¬ (IsErrOf result refusal.NoMemory) }
{
    if number >= limit as usize {
        return Err(ExploreRefusal::Passed);
    }
    Ok(number as u32)
}

// the number of a position that was made
fn number(pool: &mut Pool, limit: u32, fresh: Fresh) -> Result<u32, ExploreRefusal>
    requires pool { KeepsPool pool.old }
    requires few { length (positions_of pool.old) ≤ limit }
    ensures ok { IfOk result (IsNumbered limit pool.old (position_of fresh) pool.new) }
    ensures passed { IsErrOf result refusal.Passed → HasNoRoom limit (positions_of pool.old) (position_of fresh) }
{
    let number = pool.intern(fresh)?;
    within(number, limit)
}

// the number of the position with one more side chosen, which is a new one
fn chosen(
    pool: &mut Pool,
    limit: u32,
    v: u32,
    neutral: u32,
    node: u32,
    side: Side,
) -> Result<u32, ExploreRefusal>
    requires pool { KeepsPool pool.old }
    requires few { length (positions_of pool.old) ≤ limit }
    requires number { v < length (positions_of pool.old) }
    requires unchosen { (p : Position) → slice_get (positions_of pool.old) v ≡ Some p → side_of p.choice node ≡ None }
    requires is_new { (p : Position) → slice_get (positions_of pool.old) v ≡ Some p
        → ¬ (IsMember (beside p neutral (with_side p.choice node side)) (positions_of pool.old)) }
    ensures ok { IfOk result (λ w. (p : Position) → slice_get (positions_of pool.old) v ≡ Some p
        → IsNumbered limit pool.old (beside p neutral (with_side p.choice node side)) pool.new w) }
    ensures passed { IsErrOf result refusal.Passed → (p : Position) → slice_get (positions_of pool.old) v ≡ Some p
        → HasNoRoom limit (positions_of pool.old) (beside p neutral (with_side p.choice node side)) }
{
    let number = pool.add_chosen(v, neutral, node, side)?;
    within(number, limit)
}

// the numbers of the positions with a side chosen at the least open or-node
pub(crate) fn choose(
    branch: &Branch,
    terms: &Terms,
    pool: &mut Pool,
    limit: u32,
    v: u32,
    node: u32,
) -> Result<(u32, u32), ExploreRefusal>
    requires terms { AreTerms branch.now.graph terms.now }
    requires at { IsAt branch.now.graph limit pool.old v branch.now.spread }
    requires is_open { IsOpen branch.now.graph branch.now.spread node }
    requires fresh { HasNoneBelow (positions_of pool.old) (at_place branch.now.graph (positions_of pool.old) v) }
    ensures opened { IfOk result (λ sides.
        IsOpened branch.now.graph limit pool.old v branch.now.spread pool.new node sides.0 sides.1) }
    ensures passed { IsErrOf result refusal.Passed → HasMoreThan branch.now.graph limit }
{
    let left = chosen(pool, limit, v, terms.neutral, node, Side::Left)?;
    let right = chosen(pool, limit, v, terms.neutral, node, Side::Right)?;
    Ok((left, right))
}

// the positions to which the steps along the diamonds lead
fn follow_all(
    alloc: Global,
    branch: &mut Branch,
    terms: &Terms,
    view: View,
    diamonds: &[u32],
) -> Result<Vec<Fresh>, NoMemory>
    requires is_graph { IsGraph branch.old.graph }
    requires small { automaton_states branch.old.graph ≤ 2 ^ 30 }
    requires terms { AreTerms branch.old.graph terms.now }
    requires reached { IsReached branch.old.graph (viewed view) }
    requires sequent { branch.old.sequent ≡ view.sequent.now }
    requires spread { IsSpreadOf branch.old.graph view.sequent.now (viewed view).choice branch.old.spread }
    requires diamonds { diamonds.now ≡ diamonds_of branch.old.graph branch.old.spread }
    ensures same { branch.new ≡ branch.old }
    ensures steps { IfOk result (λ made.
        AreSteps branch.old.graph (viewed view.entry) branch.old.spread diamonds.now (map target_of made.items)) }
{
    let mut made = Vec::with_capacity(alloc, diamonds.len())?;
    for diamond in diamonds {
        made.push(follow(alloc, branch, terms, view, *diamond)?)?;
    }
    Ok(made)
}

// the numbers of the positions to which the steps along the diamonds lead
fn lead(
    alloc: Global,
    branch: &mut Branch,
    terms: &Terms,
    pool: &mut Pool,
    limit: u32,
    v: u32,
    diamonds: &[u32],
) -> Result<Vec<u64>, ExploreRefusal>
    requires is_graph { IsGraph branch.old.graph }
    requires small { automaton_states branch.old.graph ≤ 2 ^ 30 }
    requires terms { AreTerms branch.old.graph terms.now }
    requires at { IsAt branch.old.graph limit pool.old v branch.old.spread }
    requires sequent { branch.old.sequent ≡ (at_place branch.old.graph (positions_of pool.old) v).sequent }
    requires resolved { IsResolved branch.old.graph branch.old.spread }
    requires diamonds { diamonds.now ≡ diamonds_of branch.old.graph branch.old.spread }
    requires some { 0 < length diamonds.now }
    ensures same { branch.new ≡ branch.old }
    ensures led { IfOk result (IsLed branch.old.graph limit pool.old v pool.new) }
    ensures passed { IsErrOf result refusal.Passed → HasMoreThan branch.old.graph limit }
{
    let view = pool.view(v);
    let made = follow_all(alloc, branch, terms, view, diamonds)?;
    let mut moves = Vec::with_capacity(alloc, made.len())?;
    for fresh in made {
        let number = number(pool, limit, fresh)?;
        moves.push(number as u64)?;
    }
    Ok(moves)
}

// where nothing clashes and no or-node is open
fn go_on(
    alloc: Global,
    branch: &mut Branch,
    terms: &Terms,
    pool: &mut Pool,
    limit: u32,
    v: u32,
) -> Result<Turn, ExploreRefusal>
    requires is_graph { IsGraph branch.old.graph }
    requires small { automaton_states branch.old.graph ≤ 2 ^ 30 }
    requires terms { AreTerms branch.old.graph terms.now }
    requires at { IsAt branch.old.graph limit pool.old v branch.old.spread }
    requires sequent { branch.old.sequent ≡ (at_place branch.old.graph (positions_of pool.old) v).sequent }
    requires resolved { IsResolved branch.old.graph branch.old.spread }
    ensures same { branch.new ≡ branch.old }
    ensures turned { IfOk result (IsTurnOf branch.old.graph limit pool.old v branch.old.spread pool.new) }
    ensures passed { IsErrOf result refusal.Passed → HasMoreThan branch.old.graph limit }
{
    let diamonds = branch.diamonds()?;
    if diamonds.is_empty() {
        return Ok(Turn::Ended(Recorded::Won));
    }
    let moves = lead(alloc, branch, terms, pool, limit, v, &diamonds)?;
    Ok(Turn::Ended(Recorded::Led(moves)))
}

// what is done at the position at which the branch stands
pub(crate) fn take_turn(
    alloc: Global,
    branch: &mut Branch,
    terms: &Terms,
    pool: &mut Pool,
    limit: u32,
    v: u32,
) -> Result<Turn, ExploreRefusal>
    requires is_graph { IsGraph branch.old.graph }
    requires small { automaton_states branch.old.graph ≤ 2 ^ 30 }
    requires terms { AreTerms branch.old.graph terms.now }
    requires at { IsAt branch.old.graph limit pool.old v branch.old.spread }
    requires sequent { branch.old.sequent ≡ (at_place branch.old.graph (positions_of pool.old) v).sequent }
    ensures same { branch.new ≡ branch.old }
    ensures turned { IfOk result (IsTurnOf branch.old.graph limit pool.old v branch.old.spread pool.new) }
    ensures passed { IsErrOf result refusal.Passed → HasMoreThan branch.old.graph limit }
{
    if branch.is_clashing()? {
        return Ok(Turn::Ended(Recorded::Lost));
    }
    match branch.open_or() {
        Some(node) => Ok(Turn::Open(node)),
        None => go_on(alloc, branch, terms, pool, limit, v),
    }
}
