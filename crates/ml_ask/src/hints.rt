// Structures that are found on the way, as hints that requirements are needed.
use ml_base::NoMemory;
use ml_kripke::Model;
use std::alloc::Global;

/// Structures for requirements without one of them, by the number of its item. Nothing is claimed of them: whoever takes one
/// checks it.
#[derive(Drop)]
pub(crate) struct Hints {
    models: Vec<Option<Model>>,
}

impl Hints {
    /// None.
    pub(crate) fn new(alloc: Global) -> Hints {
        Hints {
            models: Vec::new(alloc),
        }
    }

    /// Keeps a structure for requirements without the one with this number.
    ///
    /// # Errors
    /// `NoMemory` alone.
    ///
    /// Cost: linear in the number, where it is the greatest so far, and else constant.
    pub(crate) fn keep(&mut self, number: usize, model: Model) -> Result<(), NoMemory> {
        for _ in self.models.len()..=number {
            self.models.push(None)?;
        }
        if number < self.models.len() {
            self.models[number] = Some(model);
        }
        Ok(())
    }

    /// Is there one for this number?
    pub(crate) fn has(&self, number: usize) -> bool {
        matches!(self.models.get(number), Some(Some(_)))
    }

    /// The one for this number, which is kept no more.
    pub(crate) fn take(&mut self, number: usize) -> Option<Model> {
        if number < self.models.len() {
            self.models[number].take()
        } else {
            None
        }
    }

    /// Keeps none.
    pub(crate) fn clear(&mut self) {
        self.models.clear();
    }
}
