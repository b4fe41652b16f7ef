// Choices in a counting game, and what becomes of them where positions are lost.
use crate::games::{CountingGame, Side};
use crate::moves::Move;
use crate::positions::Status;
use ml_arrays::{NONE, small};
use ml_base::NoMemory;

/// A move of the machine for a set of inputs. One to an active position is better than others, and to an earlier one better
/// than to a later one; of the others the lightest is best.
#[derive(Clone, Copy)]
struct Offer {
    cover: u32,
    weight: (u32, u32),
    step: Move,
}

impl Offer {
    fn is_better(self, other: Offer) -> bool {
        self.cover < other.cover || (self.cover == other.cover && self.weight < other.weight)
    }
}

impl<'a> CountingGame<'a> {
    /// The machine's best move for a set of inputs.
    fn best_move(&mut self, position: u32, inputs: u32) -> Option<Move> {
        let mut best: Option<Offer> = None;
        for outputs in 0..self.signals.outputs {
            let target = self.target(position, inputs, outputs);
            if target == NONE || self.positions.is_lost(target) {
                continue;
            }
            let offer = self.offer(target, self.signals.letter(inputs, outputs));
            best = match best {
                Some(other) if !offer.is_better(other) => Some(other),
                _ => Some(offer),
            };
        }
        match best {
            Some(offer) => Some(offer.step),
            None => None,
        }
    }

    fn offer(&mut self, target: u32, letter: u32) -> Offer {
        let cover = self.positions.covered(target);
        if cover == NONE {
            Offer {
                cover,
                weight: self.positions.weight(target),
                step: Move { letter, to: target },
            }
        } else {
            Offer {
                cover,
                weight: (0, 0),
                step: Move { letter, to: cover },
            }
        }
    }

    /// Writes the machine's moves; tells whether there is one for each set of inputs.
    fn write_answers(&mut self, position: u32, choice: &mut Vec<Move>) -> Result<bool, NoMemory> {
        for inputs in 0..self.signals.inputs {
            let Some(step) = self.best_move(position, inputs) else {
                return Ok(false);
            };
            self.positions.activate(step.to)?;
            choice.push(step)?;
        }
        Ok(true)
    }

    /// Writes the targets that would be new under a set of inputs; tells whether none of all is lost.
    fn write_new(
        &mut self,
        position: u32,
        inputs: u32,
        new: &mut Vec<u32>,
    ) -> Result<bool, NoMemory> {
        new.clear();
        for outputs in 0..self.signals.outputs {
            let target = self.target(position, inputs, outputs);
            if target == NONE || self.positions.is_lost(target) {
                return Ok(false);
            }
            if self.positions.covered(target) == NONE && !new.contains(&target) {
                new.push(target)?;
            }
        }
        Ok(true)
    }

    /// How much new positions ask for: their number, the greatest counter, and the sum of all.
    fn price(&self, new: &[u32]) -> (u32, u32, u32) {
        let mut greatest: u32 = 0;
        let mut sum: u32 = 0;
        for position in new {
            let weight = self.positions.weight(*position);
            greatest = greatest.max(weight.0);
            sum = sum.saturating_add(weight.1);
        }
        (small(new.len()), greatest, sum)
    }

    /// The environment's best set of inputs.
    fn best_inputs(&mut self, position: u32) -> Result<Option<u32>, NoMemory> {
        let mut new = Vec::new(self.alloc);
        let mut best: Option<((u32, u32, u32), u32)> = None;
        for inputs in 0..self.signals.inputs {
            if self.write_new(position, inputs, &mut new)? {
                let price = self.price(&new);
                best = match best {
                    Some(other) if other.0 <= price => Some(other),
                    _ => Some((price, inputs)),
                };
            }
        }
        match best {
            Some((_, inputs)) => Ok(Some(inputs)),
            None => Ok(None),
        }
    }

    /// Writes the environment's moves; tells whether it has some.
    fn write_plays(&mut self, position: u32, choice: &mut Vec<Move>) -> Result<bool, NoMemory> {
        let Some(inputs) = self.best_inputs(position)? else {
            return Ok(false);
        };
        for outputs in 0..self.signals.outputs {
            let target = self.target(position, inputs, outputs);
            let cover = self.positions.covered(target);
            let to = if cover == NONE { target } else { cover };
            self.positions.activate(to)?;
            choice.push(Move {
                letter: self.signals.letter(inputs, outputs),
                to,
            })?;
        }
        Ok(true)
    }

    fn write_choice(&mut self, position: u32, choice: &mut Vec<Move>) -> Result<bool, NoMemory> {
        match self.side {
            Side::Machine => self.write_answers(position, choice),
            Side::Environment => self.write_plays(position, choice),
        }
    }

    /// Chooses the moves of a position; tells whether there are some.
    fn pick(&mut self, position: u32) -> Result<bool, NoMemory> {
        self.positions.spend(1);
        let mut choice = Vec::new(self.alloc);
        if !self.write_choice(position, &mut choice)? {
            return Ok(false);
        }
        for step in &choice {
            self.positions.add_user(step.to, position)?;
        }
        if let Some(place) = self.positions.at_mut(position) {
            place.choice = choice;
        }
        Ok(true)
    }

    /// Expands a position: finds its targets, and chooses among them.
    pub(crate) fn expand(&mut self, position: u32) -> Result<(), NoMemory> {
        self.expanded = self.expanded.saturating_add(1);
        self.find_targets(position)?;
        if self.pick(position)? {
            Ok(())
        } else {
            self.lose(position)
        }
    }

    /// A position is lost, with all active ones that it lies within; those whose choice led there choose anew.
    fn lose(&mut self, position: u32) -> Result<(), NoMemory> {
        let mut open = vec![in self.alloc; position]?;
        self.lose_all(&mut open)
    }

    fn lose_all(&mut self, open: &mut Vec<u32>) -> Result<(), NoMemory> {
        for _ in 0..u64::MAX {
            let Some(position) = open.pop() else {
                break;
            };
            if self.positions.is_spent() {
                break;
            }
            if self.positions.status(position) != Status::Lost {
                self.lose_one(position, open)?;
            }
        }
        Ok(())
    }

    fn lose_one(&mut self, position: u32, open: &mut Vec<u32>) -> Result<(), NoMemory> {
        let users = self.take_out(position);
        self.positions.lost.push(position)?;
        self.open_greater(position, open)?;
        self.pick_anew(position, &users, open)
    }

    /// The position is lost; back come those that may use it.
    fn take_out(&mut self, position: u32) -> Vec<u32> {
        let alloc = self.alloc;
        match self.positions.at_mut(position) {
            Some(place) => {
                place.status = Status::Lost;
                place.targets = Vec::new(alloc);
                std::mem::replace(&mut place.users, Vec::new(alloc))
            }
            None => Vec::new(alloc),
        }
    }

    fn open_greater(&mut self, position: u32, open: &mut Vec<u32>) -> Result<(), NoMemory> {
        for place in 0..self.positions.active.len() {
            let Some(other) = self.positions.active.get(place).copied() else {
                break;
            };
            if self.positions.status(other) != Status::Lost
                && self.positions.is_within(position, other)
            {
                open.push(other)?;
            }
        }
        Ok(())
    }

    /// Leads the choice of a position to another one?
    fn uses(&self, user: u32, position: u32) -> bool {
        let Some(place) = self.positions.at(user) else {
            return false;
        };
        for step in &place.choice {
            if step.to == position {
                return place.status == Status::Done;
            }
        }
        false
    }

    fn pick_anew(
        &mut self,
        position: u32,
        users: &[u32],
        open: &mut Vec<u32>,
    ) -> Result<(), NoMemory> {
        for user in users {
            if self.positions.is_spent() {
                break;
            }
            if self.uses(*user, position) && !self.pick(*user)? {
                open.push(*user)?;
            }
        }
        Ok(())
    }
}
