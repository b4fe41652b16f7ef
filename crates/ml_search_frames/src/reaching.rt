// A thread is sought to be ended, backwards by frames.
use crate::engines::{Engine, Reached, Stage};
use ml_arrays::{NONE, row};
use ml_base::NoMemory;
use ml_search_cores::{Concluded, Knowledge};
use ml_sequent_solver::Outcome;

/// How many more steps are tried at one place.
const ROUNDS: u32 = 25;

/// Asks for a leaf at a stage: with no steps left for one that ends the thread, whose steps aren't wanted then.
fn ask(
    known: &mut Knowledge,
    stage: &Stage,
    later: &[u32],
    thread: u32,
) -> Result<Outcome, NoMemory> {
    if stage.level == 0 {
        known.set_level(NONE);
        return known.query(&stage.nodes, later, thread);
    }
    known.set_level(stage.level - 1);
    known.query(&stage.nodes, &[], thread)
}

impl<'a> Engine<'a> {
    /// Seeks to end a thread from the last place, within more and more steps.
    pub(crate) fn reach(&mut self, thread: u32) -> Result<Reached, NoMemory> {
        self.take_thread(thread)?;
        let component = self.known.terms.component(thread);
        let first = self.known.blocked(thread, self.path.last());
        for round in 0..ROUNDS {
            let level = first.saturating_add(round);
            match self.dive(thread, level)? {
                Reached::Blocked => {}
                reached => return Ok(reached),
            }
            self.known.push(component, level)?;
            match self.known.conclude(thread, self.path.last())? {
                Concluded::Open => {}
                Concluded::Settled => return Ok(Reached::Refuted),
                Concluded::Out => return Ok(Reached::Out),
            }
        }
        Ok(Reached::Blocked)
    }

    /// The thread's frames are active.
    fn take_thread(&mut self, thread: u32) -> Result<(), NoMemory> {
        self.later.clear();
        let t = &self.known.terms;
        for square in row(&t.squares_to, thread) {
            if t.threads(*square, thread) {
                self.later.push(*square)?;
            }
        }
        let component = t.component(thread);
        self.known.take_frames(component)
    }

    /// Seeks to end a thread within so many steps.
    fn dive(&mut self, thread: u32, level: u32) -> Result<Reached, NoMemory> {
        self.stand_at_last(level)?;
        for _ in 0..u64::MAX {
            if let Some(reached) = self.descend(thread)? {
                return Ok(reached);
            }
        }
        Ok(Reached::Out)
    }

    /// The last stage leads on, or is refuted.
    fn descend(&mut self, thread: u32) -> Result<Option<Reached>, NoMemory> {
        let Some(stage) = self.stack.last() else {
            return Ok(Some(Reached::Blocked));
        };
        let level = stage.level;
        match ask(&mut self.known, stage, &self.later, thread)? {
            Outcome::Leaf => self.take_leaf(thread, level),
            Outcome::Closed => self.take_back(thread, level),
            Outcome::Out => Ok(Some(Reached::Out)),
        }
    }

    fn take_leaf(&mut self, thread: u32, level: u32) -> Result<Option<Reached>, NoMemory> {
        self.note_leaf(level.saturating_sub(1))?;
        let stages = self.stack.len();
        match self.stack.get(stages.saturating_sub(2)) {
            Some(stage) if stage.on.contains(&thread) => Ok(None),
            _ => Ok(Some(Reached::Found)),
        }
    }

    /// The last stage is refuted: for good, or for so many steps.
    fn take_back(&mut self, thread: u32, level: u32) -> Result<Option<Reached>, NoMemory> {
        let _ = self.stack.pop();
        if self.known.solver.is_for_good() {
            self.known.learn()?;
            if self.stack.is_empty() {
                return Ok(Some(Reached::Refuted));
            }
            return Ok(None);
        }
        self.known.learn_frame(thread, level)?;
        Ok(None)
    }
}
