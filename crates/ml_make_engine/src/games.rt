// Counting games: one side keeps all counters low for ever, whatever the other one does.
//
// The positions are made on demand, from the start along the choices. A target that lies within an active position is led
// there, and what a lost position lies within is lost, so few positions are looked at.
use crate::moves::Move;
use crate::positions::{Positions, Status};
use ml_arrays::{NONE, NumberSet, flag};
use ml_base::NoMemory;
use ml_make_automata::Counting;
use std::alloc::Global;

/// Who keeps the counters low.
#[derive(Clone, Copy, PartialEq, Eq)]
pub(crate) enum Side {
    Machine,
    Environment,
}

/// How much work an attempt may do for each position that it may expand.
const WORK: u64 = 1_024;

/// How many counters all positions may have.
const MOST_COUNTERS: usize = 200_000_000;

/// What an attempt came to.
#[derive(Clone, Copy, PartialEq, Eq)]
pub(crate) enum Ended {
    Won,
    Lost,
    GaveUp,
}

/// How many sets of inputs there are, and of outputs.
#[derive(Clone, Copy)]
pub(crate) struct Signals {
    pub inputs: u32,
    pub outputs: u32,
}

impl Signals {
    /// The letter of a set of inputs and a set of outputs.
    pub(crate) fn letter(self, inputs: u32, outputs: u32) -> u32 {
        inputs.saturating_add(self.inputs.saturating_mul(outputs))
    }
}

/// A game.
#[derive(Drop)]
pub(crate) struct CountingGame<'a> {
    pub counting: &'a Counting,
    pub side: Side,
    /// The greatest counter, and 1.
    pub most: u8,
    pub signals: Signals,
    pub positions: Positions,
    /// How many positions were expanded.
    pub expanded: usize,
    /// The positions that the choices reach from the start, as they were found last.
    pub reached: NumberSet,
    pub alloc: Global,
}

impl<'a> CountingGame<'a> {
    /// A game in which no counter may be greater than `most`.
    pub(crate) fn new(
        alloc: Global,
        counting: &'a Counting,
        side: Side,
        most: u8,
        signals: Signals,
    ) -> CountingGame<'a> {
        CountingGame {
            counting,
            side,
            most: most.saturating_add(1),
            signals,
            positions: Positions::empty(alloc),
            expanded: 0,
            reached: NumberSet::empty(alloc),
            alloc,
        }
    }

    /// An active position other than this one that it lies within, if it waits; else itself.
    fn lead(&mut self, position: u32) -> u32 {
        if self.positions.status(position) != Status::Waiting {
            return position;
        }
        // it stands among the active ones itself, and is passed over there once
        for _ in 0..2 {
            let cover = self.positions.covered(position);
            if cover == NONE {
                break;
            }
            if cover != position {
                return cover;
            }
            self.positions.set_cover(position, NONE);
        }
        position
    }

    /// Leads a move of a choice on, where another active position covers what waits there.
    fn lead_move(&mut self, position: u32, place: usize, step: Move) -> Result<u32, NoMemory> {
        let to = self.lead(step.to);
        if to != step.to {
            self.set_move(position, place, to);
            self.positions.add_user(to, position)?;
        }
        Ok(to)
    }

    fn set_move(&mut self, position: u32, place: usize, to: u32) {
        if let Some(found) = self.positions.at_mut(position) {
            if let Some(step) = found.choice.get_mut(place) {
                step.to = to;
            }
        }
    }

    fn walk_from(&mut self, position: u32) -> Result<(), NoMemory> {
        for place in 0..usize::MAX {
            let Some(step) = self.positions.chosen(position, place) else {
                break;
            };
            let to = self.lead_move(position, place, step)?;
            self.reached.insert(to)?;
        }
        Ok(())
    }

    /// Goes from the start along the choices, breadth first.
    fn walk(&mut self) -> Result<(), NoMemory> {
        self.reached.clear();
        self.reached.insert(0)?;
        for place in 0..usize::MAX {
            let Some(position) = self.reached.list().get(place).copied() else {
                break;
            };
            self.walk_from(position)?;
        }
        self.positions.spend(self.reached.list().len());
        Ok(())
    }

    /// The first position; tells whether it isn't lost at once.
    fn begin(&mut self) -> Result<bool, NoMemory> {
        let start = self.counting.start;
        if flag(&self.counting.doomed, start) {
            return Ok(false);
        }
        let mut counters = vec![in self.alloc; 0u8; self.counting.states]?;
        if let Some(counter) = counters.get_mut(start as usize) {
            *counter = 1;
        }
        let first = self.positions.number(counters)?;
        self.positions.activate(first)?;
        Ok(true)
    }

    fn is_spent(&self, budget: u32) -> bool {
        let budget = budget as usize;
        let positions = self.positions.all.len();
        self.expanded >= budget
            || positions > budget.saturating_mul(8)
            || positions.saturating_mul(self.counting.states) > MOST_COUNTERS
            || self.positions.is_spent()
    }

    /// Expands those that wait among the reached positions; `None` where enough was done, and else whether some waited.
    fn expand_reached(&mut self, budget: u32) -> Result<Option<bool>, NoMemory> {
        let mut waited = false;
        for place in 0..self.reached.list().len() {
            let Some(position) = self.reached.list().get(place).copied() else {
                break;
            };
            if self.positions.status(position) == Status::Waiting {
                if self.is_spent(budget) {
                    return Ok(None);
                }
                waited = true;
                self.expand(position)?;
            }
        }
        Ok(Some(waited))
    }

    /// One round: the walk, and positions expanded on it; `None` where the game goes on.
    fn round(&mut self, budget: u32) -> Result<Option<Ended>, NoMemory> {
        self.walk()?;
        match self.expand_reached(budget)? {
            Some(true) if self.positions.status(0) == Status::Lost => Ok(Some(Ended::Lost)),
            Some(true) if self.positions.is_spent() => Ok(Some(Ended::GaveUp)),
            Some(true) => Ok(None),
            Some(false) => Ok(Some(Ended::Won)),
            None => Ok(Some(Ended::GaveUp)),
        }
    }

    /// Plays until the start is won or lost, or enough was done.
    pub(crate) fn play(&mut self, budget: u32) -> Result<Ended, NoMemory> {
        self.positions.allow(WORK.saturating_mul(u64::from(budget)));
        if !self.begin()? {
            return Ok(Ended::Lost);
        }
        for _ in 0..u64::MAX {
            if let Some(ended) = self.round(budget)? {
                return Ok(ended);
            }
        }
        Ok(Ended::GaveUp)
    }
}
