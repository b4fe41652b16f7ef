// A set of numbers that changes, with the least of it at hand: a tournament, in which the lesser one goes on.
//
// Source: Knuth, The Art of Computer Programming 3, 5.4.1, 1973.
ghost use Rattle.std.specs.Prelude.{◌≡◌, ◌+◌, ◌<◌, ◌⊎◌, ◌↔◌, ℕ, IfOk, length};
ghost use Rattle.ml_sequent.specs.private.ConnectedParts.{IsLeast};
ghost use Rattle.ml_sequent.specs.private.Tournament.{Holds, IsSlotted, IsEntered};

use crate::cycles::lesser;
use ml_base::NoMemory;
use std::alloc::Global;
use std::marker::Model;

/// Numbers below a bound. Contracts see the bound, and a place for each match with its winner, whose two sides stand at
/// twice that place; at the end the numbers themselves.
#[derive(Drop)]
pub(crate) struct Tournament {
    room: u32,
    slots: Vec<Option<u32>>,
}

impl Model for Tournament {
    ghost use Rattle.ml_sequent.specs.private.Tournament.{TournamentList, IsTournament};

    ghost Value = { TournamentList };

    ghost view = { λ a. record { room = a.room; slots = a.slots.items } };

    ghost invariant = { λ a. IsTournament a.room a.slots.items };
}

impl Tournament {
    /// No numbers, with room for those below `room`.
    pub fn new(alloc: Global, room: u32) -> Result<Tournament, NoMemory>
        ensures room { IfOk result (λ t. t.room ≡ room) }
        ensures none { IfOk result (λ t. (n : ℕ) → ¬ (Holds t n)) }
    {
        let slots = vec![in alloc; None; 2 * room as usize]?;
        Ok(Tournament { room, slots })
    }

    /// The bound.
    pub fn room(&self) -> u32
        ensures { result ≡ self.now.room }
    {
        self.room
    }

    /// The least number; `None` exactly where there is none.
    ///
    /// Cost: constant.
    pub fn least(&self) -> Option<u32>
        ensures { IsLeast (Holds self.now) result }
    {
        if self.room == 0 {
            return None;
        }
        self.slots[1]
    }

    /// Adds a number, if it is new.
    ///
    /// Cost: logarithmic in the room.
    pub fn put(&mut self, number: u32)
        requires { number < self.old.room }
        ensures room { self.new.room ≡ self.old.room }
        ensures holds { (n : ℕ) → Holds self.new n ↔ ((n ≡ number) ⊎ Holds self.old n) }
    {
        enter(&mut self.slots, self.room, number, Some(number));
    }

    /// Takes a number away.
    ///
    /// Cost: logarithmic in the room.
    pub fn remove(&mut self, number: u32)
        requires { number < self.old.room }
        ensures room { self.new.room ≡ self.old.room }
        ensures holds { (n : ℕ) → Holds self.new n ↔ (Holds self.old n × (n ≡ number → ⊥)) }
    {
        enter(&mut self.slots, self.room, number, None);
    }
}

/// Writes what stands for a number, and plays all matches on its way again.
fn enter(slots: &mut Vec<Option<u32>>, room: u32, number: u32, entry: Option<u32>)
    requires number { number < room }
    requires slotted { IsSlotted room slots.old.items (λ i. ⊥) }
    ensures entered { IsEntered room number entry slots.old.items slots.new.items }
    ensures slotted { IsSlotted room slots.new.items (λ i. ⊥) }
{
    let mut place = room as usize + number as usize;
    slots[place] = entry;
    while place > 1 {
        place /= 2;
        slots[place] = lesser(slots[2 * place], slots[2 * place + 1]);
    }
}
