// The lists of an arena's parity game: those of the positions, and behind them Lost and Won.
ghost use Rattle.std.specs.Prelude.{◌≡◌, ◌+◌, ◌<◌, ◌^◌, [], ◌∷◌, ◌++◌, map, IfOk};
ghost use Rattle.ml_parity.specs.declared.players.Player.TheVariants.{Even};
ghost use Rattle.ml_parity.specs.Refusal.{lists_of};
ghost use Rattle.ml_product.specs.private.Recorded.{owner_of, moves_of};

use crate::recorded::Recorded;
use crate::store::Store;
use ml_base::NoMemory;
use ml_parity::Player;
use std::alloc::Global;

// who moves: at Lost and Won, Even
pub(crate) fn owners_of(alloc: Global, turns: &[Recorded]) -> Result<Vec<Player>, NoMemory>
    ensures { IfOk result (λ all. all.items ≡ map owner_of turns.now ++ Even ∷ Even ∷ []) }
{
    let mut all = Vec::with_capacity(alloc, turns.len() + 2)?;
    for turn in turns {
        all.push(turn.owner())?;
    }
    all.push(Player::Even)?;
    all.push(Player::Even)?;
    Ok(all)
}

// the priorities: of Lost an odd one, of Won an even one
pub(crate) fn priorities_of(alloc: Global, positions: &Store) -> Result<Vec<u32>, NoMemory>
    ensures { IfOk result (λ all. all.items ≡ map (λ x. x.priority) positions.now ++ 1 ∷ 0 ∷ []) }
{
    let positions = positions.stored();
    let mut all = Vec::with_capacity(alloc, positions.len() + 2)?;
    for position in positions {
        all.push(position.priority)?;
    }
    all.push(1)?;
    all.push(0)?;
    Ok(all)
}

// the moves: from Lost and Won to themselves alone
pub(crate) fn successors_of(
    alloc: Global,
    turns: &[Recorded],
    ends: &[u64; 2],
    size: u64,
) -> Result<Vec<Vec<u64>>, NoMemory>
    requires small { size < 2 ^ 32 }
    requires ends { ends.now ≡ size ∷ (size + 1) ∷ [] }
    ensures { IfOk result (λ all. lists_of all.items
        ≡ map (moves_of size) turns.now ++ (size ∷ []) ∷ ((size + 1) ∷ []) ∷ []) }
{
    let mut all = Vec::with_capacity(alloc, turns.len() + 2)?;
    for turn in turns {
        all.push(Vec::from_slice(alloc, turn.moves(ends))?)?;
    }
    all.push(Vec::from_slice(alloc, &[size])?)?;
    all.push(Vec::from_slice(alloc, &[size + 1])?)?;
    Ok(all)
}
