// The forms of histories that are measured.

use crate::failure::Failure;
use ml_history::History;
use ml_history::tree::TreeHistory;
use ml_trace::Letter;
use std::alloc::Global;

/// A form in which a program holds a history.
pub(crate) trait Form: Sized {
    /// The history of one state.
    fn start(alloc: Global) -> Result<Self, Failure>;

    /// The history after the step along the letter.
    fn next(&self, letter: &Letter) -> Result<Self, Failure>;

    /// The number of its states.
    fn states(&self) -> Result<usize, Failure>;

    /// The number of names in use.
    fn names(&self) -> u32;
}

impl Form for History {
    fn start(alloc: Global) -> Result<History, Failure> {
        Ok(History::start(alloc, 0)?)
    }

    fn next(&self, letter: &Letter) -> Result<History, Failure> {
        let (next, _) = self.step(letter)?;
        Ok(next)
    }

    fn states(&self) -> Result<usize, Failure> {
        Ok(self.stacks()?.len())
    }

    fn names(&self) -> u32 {
        self.live()
    }
}

impl Form for TreeHistory {
    fn start(alloc: Global) -> Result<TreeHistory, Failure> {
        Ok(TreeHistory::start(alloc, 0)?)
    }

    fn next(&self, letter: &Letter) -> Result<TreeHistory, Failure> {
        let (next, _) = self.step(letter)?;
        Ok(next)
    }

    fn states(&self) -> Result<usize, Failure> {
        Ok(self.stacks()?.len())
    }

    fn names(&self) -> u32 {
        self.live()
    }
}
