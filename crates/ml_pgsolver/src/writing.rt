// The text of a solution.
ghost use Rattle.std.specs.Prelude.{◌≡◌, ◌<◌, ◌++◌, length, All, IfOk, OnOk};
ghost use Rattle.std.specs.List.{flat_map, enumerate_from};
ghost use Rattle.ml_parity.specs.Solution.{IsSolution};
ghost use Rattle.ml_pgsolver.specs.SolutionText.{head_line, line_end, line_of, move_text, player_number, solution_text, vertex_line};

use crate::named::Named;
use ml_base::NoMemory;
use ml_lines::{write_next_number, write_number, write_word};
use ml_parity::{Player, Solution};
use std::alloc::Global;

/// The text of a solution of a game, in PGSolver's format: `paritysol N;` with the greatest id, then for each vertex its
/// id, its winner (0 for `Even`, 1 for `Odd`), and where its owner wins it the id of the vertex to move to.
///
/// # Errors
/// `NoMemory` alone.
///
/// Cost: linear in the text.
pub fn write(alloc: Global, named: &Named, solution: &Solution) -> Result<Vec<u8>, NoMemory>
    requires { IsSolution named.now.game solution.now }
    ensures { IfOk result (λ text. text.items ≡ solution_text named.now solution.now) }
{
    let mut out = Vec::new(alloc);
    write_head(&mut out, named.ids())?;
    write_vertices(
        &mut out,
        named.ids(),
        named.owners(),
        winners_of(solution),
        choices_of(solution),
    )?;
    Ok(out)
}

fn winners_of(solution: &Solution) -> &[Player]
    ensures { result.now ≡ solution.now.winner }
{
    &solution.winner
}

fn choices_of(solution: &Solution) -> &[u64]
    ensures { result.now ≡ solution.now.choice }
{
    &solution.choice
}

fn write_line_end(out: &mut Vec<u8>) -> Result<(), NoMemory>
    ensures { OnOk result (out.new.items ≡ out.old.items ++ line_end) }
{
    out.extend_from_slice(b";\n")?;
    Ok(())
}

fn write_head(out: &mut Vec<u8>, ids: &[u32]) -> Result<(), NoMemory>
    requires { 0 < length ids.now }
    ensures { OnOk result (out.new.items ≡ out.old.items ++ head_line ids.now) }
{
    write_word(out, b"paritysol")?;
    write_next_number(out, u64::from(ids[ids.len() - 1]))?;
    write_line_end(out)
}

fn player_number(player: Player) -> u64
    ensures { result ≡ player_number player }
{
    match player {
        Player::Even => 0,
        Player::Odd => 1,
    }
}

// the part of a line that names a move, if the owner wins
fn write_move(out: &mut Vec<u8>, owner: Player, winner: Player, target: u32) -> Result<(), NoMemory>
    ensures { OnOk result (out.new.items ≡ out.old.items ++ move_text owner winner target) }
{
    match (owner, winner) {
        (Player::Even, Player::Even) | (Player::Odd, Player::Odd) => {
            write_next_number(out, u64::from(target))
        }
        _ => Ok(()),
    }
}

fn write_vertex(
    out: &mut Vec<u8>,
    id: u32,
    owner: Player,
    winner: Player,
    target: u32,
) -> Result<(), NoMemory>
    ensures { OnOk result (out.new.items ≡ out.old.items ++ line_of id owner winner target) }
{
    write_number(out, u64::from(id))?;
    write_next_number(out, player_number(winner))?;
    write_move(out, owner, winner, target)?;
    write_line_end(out)
}

fn write_vertices(
    out: &mut Vec<u8>,
    ids: &[u32],
    owners: &[Player],
    winners: &[Player],
    choices: &[u64],
) -> Result<(), NoMemory>
    requires owners { length owners.now ≡ length ids.now }
    requires winners { length winners.now ≡ length ids.now }
    requires choices { length choices.now ≡ length ids.now }
    requires within { All (λ m. m < length ids.now) choices.now }
    ensures { OnOk result (out.new.items ≡ out.old.items
        ++ flat_map (vertex_line ids.now owners.now (record { winner = winners.now; choice = choices.now }))
        (enumerate_from 0 ids.now)) }
{
    for place in 0..ids.len() {
        let target = ids[choices[place] as usize];
        write_vertex(out, ids[place], owners[place], winners[place], target)?;
    }
    Ok(())
}
