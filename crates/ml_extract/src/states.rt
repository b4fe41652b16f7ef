// The states of the model, numbered breadth first.
ghost use Rattle.std.specs.Prelude.{◌≡◌, ◌<◌, ◌+◌, length, slice_get, nat_eq, IfOk, OnOk};
ghost use Rattle.indexmap.specs.IndexSet.{insert_all};
ghost use Rattle.ml_extract.specs.Extraction.{EvenWins};
ghost use Rattle.ml_extract.specs.private.Numbered.{IsUnderWay, AreNumbered};

use crate::won_game::WonGame;
use indexmap::IndexSet;
use ml_base::NoMemory;
use std::alloc::Global;

/// The positions where the states begin, and those where Even's choices from there end, each by the numbers of states.
#[derive(Drop)]
pub(crate) struct States {
    pub firsts: IndexSet<u64>,
    pub lasts: Vec<u32>,
}

impl States {
    /// The states of the model: the one that begins at the first position, and those to which diamonds of states lead.
    ///
    /// # Errors
    /// `NoMemory` alone.
    ///
    /// Cost: linear in the positions to which Even's moves come and their moves.
    pub(crate) fn of(alloc: Global, game: &WonGame) -> Result<States, NoMemory>
        requires { EvenWins game.now.graph.now game.now.arena.now game.now.solution.now }
        ensures { IfOk result (λ states. AreNumbered
            game.now.graph.now
            game.now.arena.now
            game.now.solution.now
            states.firsts.keys
            states.lasts.items) }
    {
        let mut states = States {
            firsts: IndexSet::new(alloc),
            lasts: Vec::new(alloc),
        };
        states.firsts.insert(0)?;
        let _size = game.arena.size();
        while let Some(first) = states.pending() {
            states.look(game, first as u32)?;
        }
        Ok(states)
    }

    /// Where the next state begins, if there is one at which nobody looked.
    fn pending(&self) -> Option<u64>
        ensures { result ≡ slice_get self.now.firsts.keys (length self.now.lasts.items) }
    {
        self.firsts.get_index(self.lasts.len()).copied()
    }

    /// Looks at a state: where Even's choices end, and where the diamonds lead from there.
    fn look(&mut self, game: &WonGame, first: u32) -> Result<(), NoMemory>
        requires even { EvenWins game.now.graph.now game.now.arena.now game.now.solution.now }
        requires under_way { IsUnderWay
            game.now.graph.now
            game.now.arena.now
            game.now.solution.now
            self.old.firsts.keys
            self.old.lasts.items }
        requires is_next { slice_get self.old.firsts.keys (length self.old.lasts.items) ≡ Some first }
        ensures under_way { OnOk result (IsUnderWay
            game.now.graph.now
            game.now.arena.now
            game.now.solution.now
            self.new.firsts.keys
            self.new.lasts.items) }
        ensures one_more { OnOk result (length self.new.lasts.items ≡ length self.old.lasts.items + 1) }
    {
        let last = game.end_of(first);
        add_all(&mut self.firsts, game.behind(last))?;
        self.lasts.push(last)?;
        Ok(())
    }
}

/// Adds the positions, each if it is new.
fn add_all(firsts: &mut IndexSet<u64>, positions: &[u64]) -> Result<(), NoMemory>
    ensures { OnOk result (firsts.new.keys ≡ insert_all nat_eq firsts.old.keys positions.now) }
{
    for position in positions {
        firsts.insert(*position)?;
    }
    Ok(())
}
