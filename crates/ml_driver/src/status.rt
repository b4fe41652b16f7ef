// The exit statuses.
ghost use Rattle.std.specs.Prelude.{◌≡◌};

/// How a call of `run` ended.
#[derive(Clone, Copy, Debug, PartialEq, Eq)]
pub enum Status {
    /// Satisfiable, valid, holds, accepted, written: as the command says.
    Yes,
    /// Unsatisfiable, not valid, fails, rejected: as the command says.
    No,
    /// A limit was passed.
    Undecided,
    /// The words are no command.
    Words,
    /// The input is refused.
    Text,
    /// The source failed.
    ReadFault,
    /// The sink failed.
    WriteFault,
    /// Memory was wanting.
    NoMemory,
}

impl Status {
    ghost use Rattle.ml_driver.specs.Codes.{code_of};

    /// The number with which the program ends.
    pub fn code(self) -> u8
        ensures { result ≡ code_of self }
    {
        self as u8
    }
}
