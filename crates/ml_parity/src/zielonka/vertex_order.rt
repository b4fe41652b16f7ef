// The row of the fast solver: its vertices in an order, of which each part of the game is an initial segment.

ghost use Rattle.std.specs.Prelude.{◌≡◌, ◌+◌, ◌<◌, ◌≤◌, ℕ, IfOk, length};
ghost use Rattle.ml_parity.specs.Game.{HasMove, size, priority_of};
ghost use Rattle.ml_parity.specs.private.Parts.{Gathers, MoveInto};
ghost use Rattle.ml_parity.specs.Solution.{choice_at, winner_at};
ghost use Rattle.ml_parity.specs.private.SinkGame.{board_of};
ghost use Rattle.ml_parity.specs.private.SolverSteps.{place_of, ChoosesInside, Gives, IsLowest, IsRow, IsRemoved};

use crate::games::Game;
use crate::players::Player;
use ml_base::NoMemory;
use std::alloc::Global;

/// The vertices in an order, and the place of each in it.
#[derive(Drop)]
pub(crate) struct Row {
    /// The vertices.
    pub(crate) order: Vec<usize>,
    /// For each vertex its place in the order.
    pub(crate) place: Vec<usize>,
}

/// The vertices below `size` in the order of their numbers.
pub(crate) fn row_of(alloc: Global, size: usize) -> Result<Row, NoMemory>
    ensures row { IfOk result (λ row. IsRow row.order.items row.place.items) }
    ensures size { IfOk result (λ row. length row.place.items ≡ size) }
{
    let mut order = Vec::with_capacity(alloc, size)?;
    for vertex in 0..size {
        order.push(vertex)?;
    }
    let place = Vec::from_slice(alloc, &order)?;
    Ok(Row { order, place })
}

/// Moves a vertex to the last of the first `count` places, in exchange for the vertex there, and gives the number of the
/// places in front.
pub(crate) fn remove(row: &mut Row, count: usize, vertex: usize) -> usize
    requires row { IsRow row.old.order.items row.old.place.items }
    requires fits { count ≤ length row.old.place.items }
    requires low { place_of row.old.place.items vertex < count }
    ensures row { IsRow row.new.order.items row.new.place.items }
    ensures size { length row.new.place.items ≡ length row.old.place.items }
    ensures removed { IsRemoved (place_of row.old.place.items) (place_of row.new.place.items) count vertex }
    ensures count { result + 1 ≡ count }
{
    let last = row.order[count - 1];
    let at = row.place[vertex];
    row.order[at] = last;
    row.order[count - 1] = vertex;
    row.place[last] = at;
    row.place[vertex] = count - 1;
    count - 1
}

/// The lowest priority among the first `count` vertices.
pub(crate) fn lowest_priority(game: &Game, row: &Row, count: usize) -> u32
    requires row { IsRow row.now.order.items row.now.place.items }
    requires size { length row.now.place.items ≡ size game.now }
    requires fits { count ≤ length row.now.place.items }
    requires some { 0 < count }
    ensures { IsLowest game.now (place_of row.now.place.items) count result }
{
    let mut lowest = game.priority_at(row.order[0]);
    for at in 1..count {
        let priority = game.priority_at(row.order[at]);
        if priority < lowest {
            lowest = priority;
        }
    }
    lowest
}

/// Moves those of the first `count` vertices that have this priority to the end, and gives the number of the others.
pub(crate) fn gather_priority(game: &Game, row: &mut Row, count: usize, priority: u32) -> usize
    requires row { IsRow row.old.order.items row.old.place.items }
    requires size { length row.old.place.items ≡ size game.now }
    requires fits { count ≤ length row.old.place.items }
    ensures row { IsRow row.new.order.items row.new.place.items }
    ensures size { length row.new.place.items ≡ length row.old.place.items }
    ensures gathers { Gathers
        (place_of row.old.place.items)
        (place_of row.new.place.items)
        count
        result
        (λ v. priority_of game.now v ≡ priority) }
{
    let mut rest = count;
    let mut at = count;
    while at > 0 {
        at -= 1;
        let vertex = row.order[at];
        if game.priority_at(vertex) == priority {
            rest = remove(row, rest, vertex);
        }
    }
    rest
}

/// Moves those of the first `count` vertices that `player` wins to the end, and gives the number of the others.
pub(crate) fn gather_won(row: &mut Row, winner: &[Player], count: usize, player: Player) -> usize
    requires row { IsRow row.old.order.items row.old.place.items }
    requires size { length row.old.place.items ≡ length winner.now }
    requires fits { count ≤ length row.old.place.items }
    ensures row { IsRow row.new.order.items row.new.place.items }
    ensures size { length row.new.place.items ≡ length row.old.place.items }
    ensures gathers { Gathers
        (place_of row.old.place.items)
        (place_of row.new.place.items)
        count
        result
        (λ v. winner_at winner.now v ≡ player) }
{
    let mut rest = count;
    let mut at = count;
    while at > 0 {
        at -= 1;
        let vertex = row.order[at];
        if winner[vertex] == player {
            rest = remove(row, rest, vertex);
        }
    }
    rest
}

/// A move from a vertex to one of the first `count` vertices.
fn move_inside(game: &Game, row: &Row, count: usize, vertex: usize) -> u64
    requires size { length row.now.place.items ≡ size game.now }
    requires low { vertex < size game.now }
    requires some { MoveInto (board_of game.now) (place_of row.now.place.items) count vertex }
    ensures moves { HasMove game.now vertex result }
    ensures inside { place_of row.now.place.items result < count }
{
    for to in game.moves_at(vertex) {
        if row.place[*to as usize] < count {
            return *to;
        }
    }
    unreachable!()
}

/// Chooses a move to one of the first `count` vertices for those of them, from place `seeded` on, that `player` owns.
pub(crate) fn choose_inside(
    game: &Game,
    row: &Row,
    choice: &mut [u64],
    player: Player,
    seeded: usize,
    count: usize,
)
    requires row { IsRow row.now.order.items row.now.place.items }
    requires size { length row.now.place.items ≡ size game.now }
    requires choices { length choice.old ≡ size game.now }
    requires fits { count ≤ length row.now.place.items }
    requires low { seeded ≤ count }
    requires stay { (v : ℕ) → place_of row.now.place.items v < count → MoveInto (board_of game.now) (place_of row.now.place.items) count v }
    ensures { ChoosesInside
        game.now
        (place_of row.now.place.items)
        count
        seeded
        count
        player
        (choice_at choice.old)
        (choice_at choice.new) }
{
    for at in seeded..count {
        let vertex = row.order[at];
        if game.owner_at(vertex) == player {
            choice[vertex] = move_inside(game, row, count, vertex);
        }
    }
}

/// Gives those of the first `count` vertices from place `rest` on to a player.
pub(crate) fn give(row: &Row, winner: &mut [Player], player: Player, rest: usize, count: usize)
    requires row { IsRow row.now.order.items row.now.place.items }
    requires size { length row.now.place.items ≡ length winner.old }
    requires fits { count ≤ length row.now.place.items }
    requires low { rest ≤ count }
    ensures { Gives (place_of row.now.place.items) count rest player (winner_at winner.old) (winner_at winner.new) }
{
    for at in rest..count {
        winner[row.order[at]] = player;
    }
}
