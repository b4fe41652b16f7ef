// Positions of a counting game, what is known of each, and which lie within which.
//
// A position lies within another one if each of its counters is at most that of the other one. Whoever keeps the counters low
// from the greater one does so from the lesser one too.
use crate::moves::Move;
use indexmap::IndexSet;
use ml_arrays::{NONE, number, small};
use ml_base::NoMemory;
use std::alloc::Global;

/// What is known of a position.
#[derive(Clone, Copy, PartialEq, Eq)]
pub(crate) enum Status {
    /// It is known as a target only.
    Idle,
    /// It is to be expanded.
    Waiting,
    /// It is expanded.
    Done,
    Lost,
}

/// A position.
#[derive(Drop)]
pub(crate) struct Position {
    pub status: Status,
    /// A bit for each state in which a run is, by its number modulo 64.
    mask: u64,
    /// Where it leads, the sets of outputs of each set of inputs side by side; `NONE` where it isn't led. Empty before it is
    /// expanded.
    pub targets: Vec<u32>,
    /// The moves that are chosen.
    pub choice: Vec<Move>,
    /// Positions whose choice leads here, or led here before.
    pub users: Vec<u32>,
    /// With how many of the lost positions it was compared, and with how many of the active ones.
    lost_seen: usize,
    active_seen: usize,
    /// An active position that it lies within, or `NONE`.
    cover: u32,
}

impl Position {
    fn new(alloc: Global, mask: u64) -> Position {
        Position {
            status: Status::Idle,
            mask,
            targets: Vec::new(alloc),
            choice: Vec::new(alloc),
            users: Vec::new(alloc),
            lost_seen: 0,
            active_seen: 0,
            cover: NONE,
        }
    }
}

/// All positions by their numbers.
#[derive(Drop)]
pub(crate) struct Positions {
    counters: IndexSet<Vec<u8>>,
    pub all: Vec<Position>,
    /// Those that were chosen, in order, and those that are lost.
    pub active: Vec<u32>,
    pub lost: Vec<u32>,
    /// How much may still be done: comparisons of two positions, states in steps, and choices.
    left: u64,
    alloc: Global,
}

fn mask_of(counters: &[u8]) -> u64 {
    let mut mask: u64 = 0;
    for (state, counter) in counters.iter().enumerate() {
        if *counter > 0 {
            mask |= 1 << (state % 64);
        }
    }
    mask
}

/// Is each counter at most the other position's?
pub(crate) fn at_most(counters: &[u8], others: &[u8]) -> bool {
    for (counter, other) in counters.iter().zip(others.iter()) {
        if *counter > *other {
            return false;
        }
    }
    true
}

impl Positions {
    /// No position.
    pub(crate) fn empty(alloc: Global) -> Positions {
        Positions {
            counters: IndexSet::new(alloc),
            all: Vec::new(alloc),
            active: Vec::new(alloc),
            lost: Vec::new(alloc),
            left: 0,
            alloc,
        }
    }

    /// So much may be done from now on.
    pub(crate) fn allow(&mut self, work: u64) {
        self.left = work;
    }

    /// Notes so much work.
    pub(crate) fn spend(&mut self, work: usize) {
        self.left = self.left.saturating_sub(work as u64);
    }

    /// Was as much done as was allowed?
    pub(crate) fn is_spent(&self) -> bool {
        self.left == 0
    }

    /// The number of a position.
    pub(crate) fn number(&mut self, counters: Vec<u8>) -> Result<u32, NoMemory> {
        let mask = mask_of(&counters);
        let (number, is_new) = self.counters.insert_full(counters)?;
        if is_new {
            self.all.push(Position::new(self.alloc, mask))?;
        }
        Ok(small(number))
    }

    /// The counters of a position.
    pub(crate) fn counters(&self, position: u32) -> &[u8] {
        match self.counters.as_slice().get(position as usize) {
            Some(counters) => counters.as_slice(),
            None => &[],
        }
    }

    /// In how many states of a position runs are.
    pub(crate) fn runs(&self, position: u32) -> usize {
        let mut runs: usize = 0;
        for counter in self.counters(position) {
            if *counter > 0 {
                runs = runs.saturating_add(1);
            }
        }
        runs
    }

    pub(crate) fn at(&self, position: u32) -> Option<&Position> {
        self.all.get(position as usize)
    }

    pub(crate) fn at_mut(&mut self, position: u32) -> Option<&mut Position> {
        self.all.get_mut(position as usize)
    }

    pub(crate) fn status(&self, position: u32) -> Status {
        match self.at(position) {
            Some(position) => position.status,
            None => Status::Lost,
        }
    }

    /// The target of this place, or `NONE`.
    pub(crate) fn target(&self, position: u32, place: u32) -> u32 {
        match self.at(position) {
            Some(position) => number(&position.targets, place),
            None => NONE,
        }
    }

    /// The move of this place in the choice.
    pub(crate) fn chosen(&self, position: u32, place: usize) -> Option<Move> {
        match self.at(position) {
            Some(position) => position.choice.get(place).copied(),
            None => None,
        }
    }

    fn mask(&self, position: u32) -> u64 {
        match self.at(position) {
            Some(position) => position.mask,
            None => 0,
        }
    }

    /// Lies a position within another one?
    pub(crate) fn is_within(&mut self, lesser: u32, greater: u32) -> bool {
        self.spend(1);
        self.mask(lesser) & !self.mask(greater) == 0
            && at_most(self.counters(lesser), self.counters(greater))
    }

    /// The greatest counter and the sum of all, for a choice among positions.
    pub(crate) fn weight(&self, position: u32) -> (u32, u32) {
        let mut greatest: u32 = 0;
        let mut sum: u32 = 0;
        for counter in self.counters(position) {
            greatest = greatest.max(u32::from(*counter));
            sum = sum.saturating_add(u32::from(*counter));
        }
        (greatest, sum)
    }

    /// The next lost position with which this one is to be compared.
    fn next_lost(&mut self, position: u32) -> Option<u32> {
        let place = self.all.get_mut(position as usize)?;
        if place.status != Status::Idle {
            return None;
        }
        let lost = self.lost.get(place.lost_seen).copied()?;
        place.lost_seen = place.lost_seen.saturating_add(1);
        Some(lost)
    }

    /// Is a position lost: does a lost one lie within it?
    pub(crate) fn is_lost(&mut self, position: u32) -> bool {
        for _ in 0..u64::MAX {
            let Some(lost) = self.next_lost(position) else {
                break;
            };
            if self.is_within(lost, position) {
                self.set_status(position, Status::Lost);
            }
        }
        self.status(position) == Status::Lost
    }

    pub(crate) fn set_status(&mut self, position: u32, status: Status) {
        if let Some(place) = self.at_mut(position) {
            place.status = status;
        }
    }

    /// The next active position with which this one is to be compared.
    fn next_active(&mut self, position: u32) -> Option<u32> {
        let place = self.all.get_mut(position as usize)?;
        let active = self.active.get(place.active_seen).copied()?;
        place.active_seen = place.active_seen.saturating_add(1);
        Some(active)
    }

    fn cover(&self, position: u32) -> u32 {
        match self.at(position) {
            Some(position) => position.cover,
            None => NONE,
        }
    }

    pub(crate) fn set_cover(&mut self, position: u32, cover: u32) {
        if let Some(place) = self.at_mut(position) {
            place.cover = cover;
        }
    }

    /// The first active position that this one lies within; `NONE` without one.
    pub(crate) fn covered(&mut self, position: u32) -> u32 {
        let cover = self.cover(position);
        if cover != NONE && self.status(cover) != Status::Lost {
            return cover;
        }
        for _ in 0..u64::MAX {
            let Some(active) = self.next_active(position) else {
                break;
            };
            if self.status(active) != Status::Lost && self.is_within(position, active) {
                self.set_cover(position, active);
                return active;
            }
        }
        self.set_cover(position, NONE);
        NONE
    }

    /// An idle position becomes active, and waits.
    pub(crate) fn activate(&mut self, position: u32) -> Result<(), NoMemory> {
        if self.status(position) == Status::Idle {
            self.set_status(position, Status::Waiting);
            self.active.push(position)?;
        }
        Ok(())
    }

    /// Notes that the choice of a position leads to another one.
    pub(crate) fn add_user(&mut self, position: u32, user: u32) -> Result<(), NoMemory> {
        if let Some(place) = self.at_mut(position) {
            if place.users.last().copied() != Some(user) {
                place.users.push(user)?;
            }
        }
        Ok(())
    }
}
