// Where positions of a counting game lead.
use crate::games::{CountingGame, Side};
use crate::positions::{Status, at_most};
use ml_arrays::{NONE, small};
use ml_base::NoMemory;

impl<'a> CountingGame<'a> {
    /// For each class of letters the position behind a position, or nothing where a counter passes the most.
    fn write_steps(
        &mut self,
        position: u32,
        steps: &mut Vec<Option<Vec<u8>>>,
    ) -> Result<(), NoMemory> {
        let counting = self.counting;
        let runs = self.positions.runs(position);
        for class in 0..small(counting.rows.len()) {
            let counters = self.positions.counters(position);
            steps.push(counting.step(self.alloc, counters, class, self.most)?)?;
            self.positions.spend(runs.saturating_add(1));
        }
        Ok(())
    }

    /// Writes the classes of the letters of a set of inputs; tells whether a counter stays low under each of them.
    fn write_classes(
        &self,
        inputs: u32,
        steps: &[Option<Vec<u8>>],
        classes: &mut Vec<u32>,
    ) -> Result<bool, NoMemory> {
        classes.clear();
        let mut all = true;
        for outputs in 0..self.signals.outputs {
            let class = self.counting.class(self.signals.letter(inputs, outputs));
            if step_at(steps, class).is_none() {
                all = false;
            }
            classes.push(class)?;
        }
        Ok(all)
    }

    /// The targets of the machine for a set of inputs: the least ones.
    fn write_least(
        &mut self,
        steps: &[Option<Vec<u8>>],
        classes: &[u32],
        targets: &mut Vec<u32>,
    ) -> Result<(), NoMemory> {
        for (place, class) in classes.iter().enumerate() {
            let mut target = NONE;
            if let Some(counters) = step_at(steps, *class) {
                if self.is_least(steps, classes, place, counters) {
                    target = self.number(counters)?;
                }
            }
            targets.push(target)?;
        }
        Ok(())
    }

    /// Lies no other target within this one? Of equal ones the first counts.
    fn is_least(
        &mut self,
        steps: &[Option<Vec<u8>>],
        classes: &[u32],
        place: usize,
        counters: &[u8],
    ) -> bool {
        for (other, class) in classes.iter().enumerate() {
            if other == place {
                continue;
            }
            if let Some(others) = step_at(steps, *class) {
                self.positions.spend(1);
                if at_most(others, counters) && (other < place || !at_most(counters, others)) {
                    return false;
                }
            }
        }
        true
    }

    /// The targets of the environment for a set of inputs: for each set of outputs a greatest one above its own.
    fn write_greatest(
        &mut self,
        steps: &[Option<Vec<u8>>],
        classes: &[u32],
        targets: &mut Vec<u32>,
    ) -> Result<(), NoMemory> {
        for class in classes {
            let mut target = NONE;
            if let Some(counters) = self.greatest(steps, classes, *class) {
                target = self.number(counters)?;
            }
            targets.push(target)?;
        }
        Ok(())
    }

    fn greatest<'s>(
        &mut self,
        steps: &'s [Option<Vec<u8>>],
        classes: &[u32],
        class: u32,
    ) -> Option<&'s [u8]> {
        let mut greatest = step_at(steps, class)?;
        for other in classes {
            if let Some(others) = step_at(steps, *other) {
                self.positions.spend(1);
                if at_most(greatest, others) {
                    greatest = others;
                }
            }
        }
        Some(greatest)
    }

    fn number(&mut self, counters: &[u8]) -> Result<u32, NoMemory> {
        let counters = Vec::from_slice(self.alloc, counters)?;
        self.positions.number(counters)
    }

    /// Writes the target under each letter, the sets of outputs of each set of inputs side by side.
    fn write_targets(
        &mut self,
        steps: &[Option<Vec<u8>>],
        targets: &mut Vec<u32>,
    ) -> Result<(), NoMemory> {
        let mut classes = Vec::new(self.alloc);
        for inputs in 0..self.signals.inputs {
            let all = self.write_classes(inputs, steps, &mut classes)?;
            match self.side {
                Side::Machine => self.write_least(steps, &classes, targets)?,
                Side::Environment if all => self.write_greatest(steps, &classes, targets)?,
                Side::Environment => {
                    for _ in 0..self.signals.outputs {
                        targets.push(NONE)?;
                    }
                }
            }
        }
        Ok(())
    }

    /// The target of a position under a set of inputs and a set of outputs.
    pub(crate) fn target(&self, position: u32, inputs: u32, outputs: u32) -> u32 {
        let place = inputs
            .saturating_mul(self.signals.outputs)
            .saturating_add(outputs);
        self.positions.target(position, place)
    }

    /// Finds the targets of a position.
    pub(crate) fn find_targets(&mut self, position: u32) -> Result<(), NoMemory> {
        let mut steps = Vec::new(self.alloc);
        self.write_steps(position, &mut steps)?;
        self.take_targets(position, &steps)
    }

    fn take_targets(&mut self, position: u32, steps: &[Option<Vec<u8>>]) -> Result<(), NoMemory> {
        let mut targets = Vec::new(self.alloc);
        self.write_targets(steps, &mut targets)?;
        if let Some(place) = self.positions.at_mut(position) {
            place.targets = targets;
            place.status = Status::Done;
        }
        Ok(())
    }
}

/// The position behind a position under the letters of a class.
fn step_at(steps: &[Option<Vec<u8>>], class: u32) -> Option<&[u8]> {
    match steps.get(class as usize) {
        Some(Some(counters)) => Some(counters.as_slice()),
        _ => None,
    }
}
