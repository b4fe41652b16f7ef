// Lifting: a measure rises, vertex by vertex, to the least progress measure.

ghost use Rattle.std.specs.Prelude.{◌≡◌, ◌<◌, ◌≤◌, ◌↔◌, ℕ, List, All, Contains, IfOk, IsTrue, length};
ghost use Rattle.ml_parity.specs.Game.{IsGame, size};
ghost use Rattle.ml_progress.specs.Measure.{IsLeastMeasure, measure_at};
ghost use Rattle.ml_progress.specs.private.Codes.{cut_level};
ghost use Rattle.ml_progress.specs.private.Lifting.{AreFitting, IsExtreme, IsFurther, IsLifted, IsLow, NamesWinners};
ghost use Rattle.ml_progress.specs.private.Sides.{HasChains, HasScale, HasSide};

use crate::order::{comes_before, least_progress};
use crate::predecessors::Predecessors;
use crate::reading::{is_bad, is_owned_by, is_won_by, moves_at, priority_at};
use crate::scale::{Scale, scale_of};
use crate::table::Table;
use crate::waiting::Waiting;
use ml_base::NoMemory;
use ml_parity::{Game, Player};
use std::alloc::Global;

/// Whether the first `cut` numbers of one vertex come before those of another one. The top comes behind all lists.
fn is_cut_before(table: &Table, first: usize, second: usize, cut: usize) -> bool
    requires first { first < length table.now.rows }
    requires second { second < length table.now.rows }
    requires cut { cut ≤ table.now.wide }
    ensures { (bs : List ℕ) → AreFitting bs table.now.rows → IsTrue result
        ↔ (cut_level cut bs (measure_at table.now.rows first) < cut_level cut bs (measure_at table.now.rows second)) }
{
    if table.is_top(first) {
        return false;
    }
    if table.is_top(second) {
        return true;
    }
    comes_before(&table.row(first)[..cut], &table.row(second)[..cut])
}

/// Whether the first `cut` numbers of one vertex come before those of another one, or behind if `least` is false.
fn is_further(table: &Table, first: usize, second: usize, cut: usize, least: bool) -> bool
    requires first { first < length table.now.rows }
    requires second { second < length table.now.rows }
    requires cut { cut ≤ table.now.wide }
    ensures { (bs : List ℕ) → AreFitting bs table.now.rows → IsTrue result ↔ IsFurther least
        (cut_level cut bs (measure_at table.now.rows first))
        (cut_level cut bs (measure_at table.now.rows second)) }
{
    if least {
        is_cut_before(table, first, second, cut)
    } else {
        is_cut_before(table, second, first, cut)
    }
}

/// Of these vertices one whose first `cut` numbers come first, or last if `least` is false.
fn extreme_vertex(table: &Table, vertices: &[u64], cut: usize, least: bool) -> usize
    requires some { 0 < length vertices.now }
    requires low { All (λ w. w < length table.now.rows) vertices.now }
    requires cut { cut ≤ table.now.wide }
    ensures low { result < length table.now.rows }
    ensures member { Contains vertices.now result }
    ensures extreme { (bs : List ℕ) → AreFitting bs table.now.rows
        → IsExtreme least cut bs table.now.rows vertices.now result }
{
    let mut best = vertices[0] as usize;
    for vertex in vertices {
        if is_further(table, *vertex as usize, best, cut, least) {
            best = *vertex as usize;
        }
    }
    best
}

/// Lifts a vertex: gives it the least value with which its moves progress, if that is above what it has. Says whether
/// it is.
fn lift(game: &Game, scale: &Scale, table: &mut Table, next: &mut [u64], vertex: usize) -> bool
    requires game { IsGame game.now }
    requires scale { HasScale game.now scale.now }
    requires wide { table.old.wide ≡ length scale.now.bounds.items }
    requires room { length next.old ≡ length scale.now.bounds.items }
    requires vertex { vertex < size game.now }
    requires low { IsLow game.now scale.now.player table.old.rows }
    ensures wide { table.new.wide ≡ table.old.wide }
    ensures lifted { IsLifted game.now scale.now.player table.old.rows table.new.rows vertex result }
{
    let own = is_owned_by(game, vertex, scale.player);
    let cut = scale.cuts[vertex];
    let to = extreme_vertex(table, moves_at(game, vertex), cut, own);
    let bad = is_bad(scale.player, priority_at(game, vertex));
    if !table.is_top(to) && least_progress(&scale.bounds, cut, bad, table.row(to), next) {
        table.raise(vertex, next)
    } else {
        table.raise_to_top(vertex)
    }
}

/// Where lifting begins: zeros where the player wins, and the top elsewhere, since no progress measure has a list there.
fn first_table(
    alloc: Global,
    game: &Game,
    scale: &Scale,
    winner: &[Player],
) -> Result<Table, NoMemory>
    requires scale { HasScale game.now scale.now }
    requires winner { NamesWinners game.now winner.now }
    ensures wide { IfOk result (λ t. t.wide ≡ length scale.now.bounds.items) }
    ensures low { IfOk result (λ t. IsLow game.now scale.now.player t.rows) }
{
    let mut table = Table::new(alloc, game.size(), scale.bounds.len())?;
    for vertex in 0..winner.len() {
        if !is_won_by(winner, vertex, scale.player) {
            table.raise_to_top(vertex);
        }
    }
    Ok(table)
}

/// The least progress measure of the player of a scale.
fn least_measure(
    alloc: Global,
    game: &Game,
    predecessors: &Predecessors,
    scale: &Scale,
    winner: &[Player],
) -> Result<Table, NoMemory>
    requires scale { HasScale game.now scale.now }
    requires chains { HasChains game.now predecessors.now }
    requires winner { NamesWinners game.now winner.now }
    ensures wide { IfOk result (λ t. t.wide ≡ length scale.now.bounds.items) }
    ensures least { IfOk result (λ t. IsLeastMeasure game.now scale.now.player t.rows) }
{
    let size = game.size();
    let mut table = first_table(alloc, game, scale, winner)?;
    let mut next = vec![in alloc; 0; scale.bounds.len()]?;
    let mut waiting = Waiting::all(alloc, size)?;
    while let Some(vertex) = waiting.take() {
        if lift(game, scale, &mut table, &mut next, vertex) {
            waiting.add_predecessors(predecessors, &table, vertex)?;
        }
    }
    Ok(table)
}

/// A player's least progress measure, with what its lists look like.
#[derive(Drop)]
pub(crate) struct Side {
    /// What the lists look like.
    pub(crate) scale: Scale,
    /// The measure.
    pub(crate) table: Table,
}

/// The least progress measure of a player.
///
/// Cost: a lift looks at the cut lists of the successors; a vertex is lifted once, and once more for each rise of a
/// successor, which may be as often as there are lists within the bounds.
pub(crate) fn side_of(
    alloc: Global,
    game: &Game,
    predecessors: &Predecessors,
    winner: &[Player],
    player: Player,
) -> Result<Side, NoMemory>
    requires game { IsGame game.now }
    requires chains { HasChains game.now predecessors.now }
    requires winner { NamesWinners game.now winner.now }
    ensures { IfOk result (HasSide game.now player) }
{
    let scale = scale_of(alloc, game, player)?;
    let table = least_measure(alloc, game, predecessors, &scale, winner)?;
    Ok(Side { scale, table })
}
