// Attractors, by counting down the moves that are left to each vertex.
//
// An attractor of a player in a part is made from its end: the vertices to which it attracts stand there, and each vertex
// that is attracted is moved in front of them. What stands behind is followed backwards, vertex by vertex, so that the row
// itself is the queue.

ghost use Rattle.std.specs.Prelude.{◌≡◌, ◌+◌, ◌-◌, ◌<◌, ◌≤◌, ◌∷◌, [], ℕ, List, length, get_or, slice_set};
ghost use Rattle.ml_parity.specs.declared.players.Player.{Player};
ghost use Rattle.ml_parity.specs.Game.{HasMove, IsGame, moves_of, size};
ghost use Rattle.ml_parity.specs.private.Parts.{IsAttracted, IsPart};
ghost use Rattle.ml_parity.specs.private.SinkGame.{board_of};
ghost use Rattle.ml_parity.specs.private.SolverSteps.{place_of, number_at, places, choices, lefts, times, moves_before, ArePredecessors, Attracts, IsLeft, IsRow, IsWork, Keeps};

use crate::games::Game;
use crate::players::Player;
use crate::zielonka::predecessors::Predecessors;
use crate::zielonka::vertex_order::{Row, remove};

/// What the solver works on, beside the winners.
#[derive(Drop)]
pub(crate) struct Work {
    /// The vertices in a row.
    pub(crate) row: Row,
    /// For each vertex how many of its moves lead to vertices that are not removed, or wait to be followed backwards.
    pub(crate) left: Vec<usize>,
    /// A move at each vertex: where its owner wins it, the one to make.
    pub(crate) choice: Vec<u64>,
}

/// Counts down the moves that are left to a vertex with a move to `to`, and attracts it if the player owns it or if none
/// is left. Gives the number of the vertices that are not attracted.
fn attract_one(
    game: &Game,
    player: Player,
    to: usize,
    from: usize,
    count: usize,
    work: &mut Work,
) -> usize
    requires work { IsWork game.now work.old }
    requires fits { count ≤ size game.now }
    requires vertex { from < size game.now }
    requires some { 0 < lefts work.old from }
    ensures work { IsWork game.now work.new }
    ensures low { result ≤ count }
    ensures counted { work.new.left.items ≡ slice_set work.old.left.items from (lefts work.old from - 1) }
    ensures kept { Keeps count work.old work.new }
    ensures attracts { (n mid a : ℕ) (todo : List ℕ) → places work.old to ≡ a → a < n → HasMove game.now from to
        → Attracts game.now work.old n mid count a player (from ∷ todo)
        → Attracts game.now work.new n mid result a player todo }
{
    work.left[from] -= 1;
    if work.row.place[from] >= count {
        return count;
    }
    if game.owner_at(from) != player && work.left[from] > 0 {
        return count;
    }
    work.choice[from] = to as u64;
    remove(&mut work.row, count, from)
}

/// Follows the moves to `to` backwards: counts them down, and attracts the vertices from which they come if that is so.
/// Gives the number of the vertices that are not attracted.
fn attract_to(
    game: &Game,
    player: Player,
    to: usize,
    predecessors: &[usize],
    count: usize,
    work: &mut Work,
) -> usize
    requires game { IsGame game.now }
    requires work { IsWork game.now work.old }
    requires fits { count ≤ places work.old to }
    requires vertex { to < size game.now }
    requires predecessors { (u : ℕ) → times u predecessors.now ≡ times to (moves_of game.now u) }
    requires counts { (v : ℕ) → v < size game.now → lefts work.old v
        ≡ moves_before game.now (places work.old) (places work.old to) v + times v predecessors.now }
    ensures work { IsWork game.now work.new }
    ensures low { result ≤ count }
    ensures counts { IsLeft game.now (places work.new) (places work.old to) (lefts work.new) }
    ensures kept { Keeps count work.old work.new }
    ensures attracts { (n mid a : ℕ) → places work.old to ≡ a → a < n
        → Attracts game.now work.old n mid count a player predecessors.now
        → Attracts game.now work.new n mid result a player [] }
{
    let mut rest = count;
    for from in predecessors {
        rest = attract_one(game, player, to, *from, rest, work);
    }
    rest
}

/// The attractor of `player`, in the first `whole` vertices, to those from place `seeded` on: moves it to their end, with
/// choices that lead there, and gives the number of the other vertices.
///
/// Before, the moves that are left are those to one of the first `whole` vertices; in the end, those to one that is not
/// attracted. Costs a step for each move to a vertex that is attracted.
pub(crate) fn attract(
    game: &Game,
    predecessors: &Predecessors,
    player: Player,
    whole: usize,
    seeded: usize,
    work: &mut Work,
) -> usize
    requires game { IsGame game.now }
    requires predecessors { ArePredecessors game.now predecessors.now }
    requires work { IsWork game.now work.old }
    requires fits { whole ≤ size game.now }
    requires low { seeded ≤ whole }
    requires counts { IsLeft game.now (places work.old) whole (lefts work.old) }
    ensures work { IsWork game.now work.new }
    ensures low { result ≤ seeded }
    ensures counts { IsLeft game.now (places work.new) result (lefts work.new) }
    ensures kept { Keeps seeded work.old work.new }
    ensures attracted { (win : ℕ → Player) → IsPart (board_of game.now) (places work.old) whole win
        → IsAttracted (board_of game.now) (places work.new) whole seeded result player (choices work.new) }
{
    let mut rest = seeded;
    let mut reached = whole;
    while reached > rest {
        reached -= 1;
        let to = work.row.order[reached];
        rest = attract_to(game, player, to, predecessors.at(to), rest, work);
    }
    rest
}

/// Counts up the moves that are left to these vertices, one for each time that a vertex stands among them.
fn count_up(game: &Game, predecessors: &[usize], left: &mut [usize])
    requires counts { length left.old ≡ size game.now }
    requires vertices { (k : ℕ) → k < length predecessors.now → get_or predecessors.now k 0 < size game.now }
    requires room { (v : ℕ) → v < size game.now → number_at left.old v + times v predecessors.now ≤ length (moves_of game.now v) }
    ensures { (v : ℕ) → v < size game.now → number_at left.new v ≡ number_at left.old v + times v predecessors.now }
{
    for from in predecessors {
        prove!(left[*from] < game.moves_at(*from).len());
        left[*from] += 1;
    }
}

/// Counts up the moves that are left, for the vertices from place `rest` on, up to `whole`.
///
/// Costs a step for each move to one of them.
pub(crate) fn restore(
    game: &Game,
    predecessors: &Predecessors,
    row: &Row,
    left: &mut [usize],
    rest: usize,
    whole: usize,
)
    requires game { IsGame game.now }
    requires row { IsRow row.now.order.items row.now.place.items }
    requires size { length row.now.place.items ≡ size game.now }
    requires counts { length left.old ≡ size game.now }
    requires fits { whole ≤ size game.now }
    requires low { rest ≤ whole }
    requires predecessors { ArePredecessors game.now predecessors.now }
    requires lefts { IsLeft game.now (place_of row.now.place.items) rest (number_at left.old) }
    ensures { IsLeft game.now (place_of row.now.place.items) whole (number_at left.new) }
{
    for at in rest..whole {
        count_up(game, predecessors.at(row.order[at]), left);
    }
}
