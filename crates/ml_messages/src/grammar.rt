// By which grammar a formula's text is read: that of `decide`, or that of files of requirements, which has bounds in LTL.

use ml_base::ParseRefusal;
use ml_front::{Logic, read};
use std::alloc::Global;

/// A grammar of formulas.
#[derive(Clone, Copy)]
pub(crate) struct Grammar {
    pub(crate) logic: Logic,
    /// Is it that of files of requirements?
    pub(crate) is_of_files: bool,
}

impl Grammar {
    /// That of the formulas that commands read.
    pub(crate) fn of_commands(logic: Logic) -> Grammar {
        Grammar {
            logic,
            is_of_files: false,
        }
    }

    /// That of files of requirements.
    pub(crate) fn of_files(logic: Logic) -> Grammar {
        Grammar {
            logic,
            is_of_files: true,
        }
    }

    /// Has it operators with bounds?
    pub(crate) fn has_bounds(self) -> bool {
        self.is_of_files && matches!(self.logic, Logic::Ltl | Logic::Word)
    }

    /// Why the text is no formula, if it is none.
    pub(crate) fn refusal(self, alloc: Global, text: &[u8]) -> Option<ParseRefusal> {
        if self.is_of_files {
            ml_written::read(alloc, self.logic, text).err()
        } else {
            read(alloc, self.logic, text).err()
        }
    }
}
