// The turns of the fast solver: Zielonka's recursion, with its frames on a list.

ghost use Rattle.std.specs.Prelude.{◌≡◌, ◌<◌, ◌≤◌, IfOk, IfSome, MatchOption, OnOk, length};
ghost use Rattle.ml_parity.specs.declared.zielonka.recursion.At.TheVariants.{Open, Solved};
ghost use Rattle.ml_parity.specs.Game.{IsGame, size};
ghost use Rattle.ml_parity.specs.private.Parts.{IsPart, KeepsBehind};
ghost use Rattle.ml_parity.specs.Player.{opponent};
ghost use Rattle.ml_parity.specs.Solution.{winner_at};
ghost use Rattle.ml_parity.specs.private.SinkGame.{board_of};
ghost use Rattle.ml_parity.specs.private.SolverSteps.{places, choices, lefts, ArePredecessors, IsWork};
ghost use Rattle.ml_parity.specs.private.SolverFrames.{BeginsFirstHalf, BeginsSecondHalf, EndsFirstHalf, EndsSecondHalf, HoldsAt, IsAtPart, IsOpen, IsSolved, SolvesWhole, work_left};

use crate::games::Game;
use crate::players::Player;
use crate::zielonka::attractor::{Work, attract, restore};
use crate::zielonka::predecessors::Predecessors;
use crate::zielonka::vertex_order::{
    choose_inside, gather_priority, gather_won, give, lowest_priority,
};
use ml_base::NoMemory;
use std::alloc::Global;

/// Which half of a turn a frame waits for.
#[derive(Clone, Copy, PartialEq, Eq)]
pub(crate) enum Half {
    /// What is left without the attractor to the vertices of lowest priority.
    First,
    /// What is left without the attractor to what the opponent won in the first half.
    Second,
}

/// A part that waits for what is left of it to be solved.
#[derive(Clone, Copy)]
pub(crate) struct Frame {
    /// The half that it waits for.
    pub(crate) half: Half,
    /// Who attracted what was removed.
    pub(crate) player: Player,
    /// How many vertices the part has.
    pub(crate) count: usize,
}

/// Where the solver is.
#[derive(Clone, Copy)]
pub(crate) enum At {
    /// At a part of so many vertices, which is to be solved.
    Open(usize),
    /// At a part of so many vertices, which is solved.
    Solved(usize),
}

/// Gives the vertices of lowest priority and their attractor to the player for whom that priority is good. Tells the
/// player, and how many vertices are left.
fn first_half(
    game: &Game,
    predecessors: &Predecessors,
    count: usize,
    work: &mut Work,
    winner: &mut [Player],
) -> (Player, usize)
    requires game { IsGame game.now }
    requires predecessors { ArePredecessors game.now predecessors.now }
    requires at_part { IsAtPart game.now work.old count }
    requires winners { length winner.old ≡ size game.now }
    requires fits { count ≤ size game.now }
    requires some { 0 < count }
    requires part { IsPart (board_of game.now) (places work.old) count (winner_at winner.old) }
    ensures work { IsWork game.now work.new }
    ensures half { BeginsFirstHalf
        game.now
        (places work.new)
        count
        result.1
        result.0
        (lefts work.new)
        (winner_at winner.new)
        (choices work.new) }
    ensures kept { KeepsBehind
        count
        (places work.old)
        (winner_at winner.old)
        (choices work.old)
        (places work.new)
        (winner_at winner.new)
        (choices work.new) }
{
    let priority = lowest_priority(game, &work.row, count);
    let player = Player::of_priority(priority);
    let seeded = gather_priority(game, &mut work.row, count, priority);
    choose_inside(game, &work.row, &mut work.choice, player, seeded, count);
    let rest = attract(game, predecessors, player, count, seeded, work);
    give(&work.row, winner, player, rest, count);
    (player, rest)
}

/// Where the opponent of the player of the first half won something of what was left, gives that and its attractor to the
/// opponent, and tells how many vertices are left. Where the opponent won nothing, the part is solved.
fn second_half(
    game: &Game,
    predecessors: &Predecessors,
    player: Player,
    count: usize,
    work: &mut Work,
    winner: &mut [Player],
) -> Option<usize>
    requires game { IsGame game.now }
    requires predecessors { ArePredecessors game.now predecessors.now }
    requires at_part { IsAtPart game.now work.old count }
    requires winners { length winner.old ≡ size game.now }
    requires fits { count ≤ size game.now }
    requires half { EndsFirstHalf game.now (places work.old) count player (winner_at winner.old) (choices work.old) }
    ensures work { IsWork game.now work.new }
    ensures half { MatchOption
        result
        (EndsSecondHalf
        game.now
        (places work.new)
        count
        (lefts work.new)
        (winner_at winner.new)
        (choices work.new))
        (λ rest. BeginsSecondHalf
        game.now
        (places work.new)
        count
        rest
        (opponent player)
        (lefts work.new)
        (winner_at winner.new)
        (choices work.new)) }
    ensures kept { KeepsBehind
        count
        (places work.old)
        (winner_at winner.old)
        (choices work.old)
        (places work.new)
        (winner_at winner.new)
        (choices work.new) }
{
    let opponent = player.opponent();
    let seeded = gather_won(&mut work.row, winner, count, opponent);
    if seeded == count {
        return None;
    }
    let rest = attract(game, predecessors, opponent, count, seeded, work);
    give(&work.row, winner, opponent, rest, count);
    Some(rest)
}

/// Removes an attractor from a part that is to be solved, and goes on with what is left.
fn open_part(
    game: &Game,
    predecessors: &Predecessors,
    count: usize,
    work: &mut Work,
    winner: &mut [Player],
    frames: &mut Vec<Frame>,
) -> Result<At, NoMemory>
    requires game { IsGame game.now }
    requires predecessors { ArePredecessors game.now predecessors.now }
    requires winners { length winner.old ≡ size game.now }
    requires some { 0 < count }
    requires opened { IsOpen game.now frames.old.items work.old winner.old count }
    ensures holds { IfOk result (λ at. HoldsAt at game.now frames.new.items work.new winner.new) }
    ensures falls { IfOk result (λ at. work_left frames.new.items at < work_left frames.old.items (Open count)) }
{
    let (player, rest) = first_half(game, predecessors, count, work, winner);
    frames.push(Frame {
        half: Half::First,
        player,
        count,
    })?;
    Ok(At::Open(rest))
}

/// Goes on with the part that waits for one that is solved, if a part waits.
fn close_part(
    game: &Game,
    predecessors: &Predecessors,
    rest: usize,
    work: &mut Work,
    winner: &mut [Player],
    frames: &mut Vec<Frame>,
) -> Result<Option<At>, NoMemory>
    requires game { IsGame game.now }
    requires predecessors { ArePredecessors game.now predecessors.now }
    requires winners { length winner.old ≡ size game.now }
    requires solved { IsSolved game.now frames.old.items work.old winner.old rest }
    ensures work { IfOk result (λ _. IsWork game.now work.new) }
    ensures holds { IfOk result (λ next. MatchOption
        next
        (SolvesWhole game.now winner.new work.new.choice.items)
        (λ at. HoldsAt at game.now frames.new.items work.new winner.new)) }
    ensures falls { IfOk result (λ next. IfSome next (λ at. work_left frames.new.items at < work_left frames.old.items (Solved rest))) }
{
    let Some(frame) = frames.pop() else {
        return Ok(None);
    };
    restore(
        game,
        predecessors,
        &work.row,
        &mut work.left,
        rest,
        frame.count,
    );
    match frame.half {
        Half::Second => Ok(Some(At::Solved(frame.count))),
        Half::First => {
            match second_half(game, predecessors, frame.player, frame.count, work, winner) {
                None => Ok(Some(At::Solved(frame.count))),
                Some(rest) => {
                    frames.push(Frame {
                        half: Half::Second,
                        player: frame.player.opponent(),
                        count: frame.count,
                    })?;
                    Ok(Some(At::Open(rest)))
                }
            }
        }
    }
}

/// One turn: opens a part that is to be solved, or goes on where one is solved. `None` says that the whole game is.
fn turn(
    game: &Game,
    predecessors: &Predecessors,
    at: At,
    work: &mut Work,
    winner: &mut [Player],
    frames: &mut Vec<Frame>,
) -> Result<Option<At>, NoMemory>
    requires game { IsGame game.now }
    requires predecessors { ArePredecessors game.now predecessors.now }
    requires winners { length winner.old ≡ size game.now }
    requires holds { HoldsAt at game.now frames.old.items work.old winner.old }
    ensures work { IfOk result (λ _. IsWork game.now work.new) }
    ensures holds { IfOk result (λ next. MatchOption
        next
        (SolvesWhole game.now winner.new work.new.choice.items)
        (λ then. HoldsAt then game.now frames.new.items work.new winner.new)) }
    ensures falls { IfOk result (λ next. IfSome next (λ then. work_left frames.new.items then < work_left frames.old.items at)) }
{
    match at {
        At::Open(count) => {
            if count == 0 {
                return close_part(game, predecessors, count, work, winner, frames);
            }
            let next = open_part(game, predecessors, count, work, winner, frames)?;
            Ok(Some(next))
        }
        At::Solved(count) => close_part(game, predecessors, count, work, winner, frames),
    }
}

/// Turn after turn, until the whole game is solved.
pub(crate) fn run(
    alloc: Global,
    game: &Game,
    predecessors: &Predecessors,
    work: &mut Work,
    winner: &mut [Player],
) -> Result<(), NoMemory>
    requires game { IsGame game.now }
    requires predecessors { ArePredecessors game.now predecessors.now }
    requires winners { length winner.old ≡ size game.now }
    requires begins { IsAtPart game.now work.old (size game.now) }
    ensures work { OnOk result (IsWork game.now work.new) }
    ensures solves { OnOk result (SolvesWhole game.now winner.new work.new.choice.items) }
{
    let mut frames = Vec::new(alloc);
    let mut at = At::Open(game.size());
    while let Some(next) = turn(game, predecessors, at, work, winner, &mut frames)? {
        at = next;
    }
    Ok(())
}
