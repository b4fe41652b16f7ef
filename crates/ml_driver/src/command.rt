// The commands, and the inputs that they take.
ghost use Rattle.std.specs.Prelude.{◌≡◌};

use crate::Engine;
use ml_answers::LONGEST_ANSWERS;
use ml_ask_text::Form;
use ml_front::Logic;
use ml_gen::Family;
use ml_hoa::LONGEST_AUTOMATON_TEXT;
use ml_pgsolver::{LONGEST_CHECKED_TEXT, LONGEST_GAME_TEXT};
use ml_show_text::LONGEST_SHOWN;
use ml_task::LONGEST_TASK_TEXT;

/// What the words ask for.
#[derive(Clone, Copy, PartialEq, Eq)]
pub enum Command {
    /// `decide LOGIC`: is the formula on the input satisfiable? The decision game may have as many positions as the limit.
    Decide { logic: Logic, limit: u32 },
    /// `valid LOGIC`: does the formula on the input hold at every state, so that its negation is unsatisfiable?
    Valid { logic: Logic, limit: u32 },
    /// `find LOGIC`: as `decide`, but a structure or a refutation is searched for before the whole game is explored.
    Find { logic: Logic, limit: u32 },
    /// `prove LOGIC`: as `valid`, with a search before the whole game.
    Prove { logic: Logic, limit: u32 },
    /// `check-model`: does the problem of the document on the input hold at the start of the document's structure?
    CheckModel,
    /// `check-refutation`: is the refutation of the document on the input accepted for the document's problem?
    CheckRefutation,
    /// `show`: the document on the input, of whichever kind, as a text for people.
    Show,
    /// `migrate`: the document with a refutation on the input, in version 2.
    Migrate,
    /// `quotient`: the document with a structure on the input, with the quotient of the structure.
    Quotient,
    /// `solve-game ENGINE`: who wins each vertex of the parity game on the input, and by which moves?
    SolveGame { engine: Engine },
    /// `check-game`: is the solution behind the parity game on the input right?
    CheckGame,
    /// `determinise`: the deterministic automaton of the Büchi automaton on the input, which may have as many states as the
    /// limit.
    Determinise { limit: u32 },
    /// `automaton`: a Büchi automaton that accepts exactly the words that satisfy the formula of LTL on the input, whose word
    /// automaton may have as many places as the limit.
    Automaton { limit: u32 },
    /// `path`: a path of the structure of the document on the input that shows its problem, or, for `A f` of CTL*, that
    /// breaks f.
    Path,
    /// `check-machine`: does the machine of the document on the input realize its task, or the environment defeat it?
    CheckMachine,
    /// `make`: as `realize`, but a machine or an environment of few states is searched for before the game is explored.
    Make { limit: u32 },
    /// `realize`: a machine that realizes the task on the input, or an environment that defeats it. The game may have as many
    /// positions as the limit.
    Realize { limit: u32 },
    /// `ask`, `ask files`: the answers to the questions of the file of requirements on the input, as lines, or with a
    /// document for each. The decision game of a problem may have as many positions as the limit.
    Ask { form: Form, limit: u32 },
    /// `check-answers`: is each answer true that stands behind the file of requirements on the input?
    CheckAnswers,
    /// `gen FAMILY N`: the text of the family's formula for the number. Nothing is read.
    Gen { family: Family, n: u32 },
    /// `bench FAMILY N`: the size of this formula, of its graph and of its decision game, and is it satisfiable? Nothing is
    /// read.
    Bench { family: Family, n: u32 },
}

/// How many bytes a formula's text has at most.
pub const LONGEST_TEXT: u64 = 1_048_576;

/// How many bytes a document has at most, 2^63 - 1: no slice of bytes is longer.
pub const LONGEST_DOCUMENT: u64 = 0x7fff_ffff_ffff_ffff;

/// How many positions a game may have, states a deterministic automaton, or places a word automaton, where the words don't say.
pub const DEFAULT_LIMIT: u32 = 50_000;

/// How many positions a game, states a deterministic automaton, or places a word automaton may have at most.
pub const GREATEST_LIMIT: u32 = 200_000;

/// How many digits a number has at most.
pub const LONGEST_NUMBER: usize = 6;

impl Command {
    ghost use Rattle.ml_driver.specs.Statuses.{longest_input};

    /// How many bytes the command takes as its input at most; `None` where it takes no input.
    pub fn longest_input(self) -> Option<u64>
        ensures { result ≡ longest_input self }
    {
        match self {
            Command::Decide { .. }
            | Command::Valid { .. }
            | Command::Find { .. }
            | Command::Prove { .. }
            | Command::Automaton { .. }
            | Command::Ask { .. } => Some(LONGEST_TEXT),
            Command::CheckModel
            | Command::CheckRefutation
            | Command::Migrate
            | Command::Quotient
            | Command::Path
            | Command::CheckMachine => Some(LONGEST_DOCUMENT),
            Command::CheckAnswers => Some(LONGEST_ANSWERS as u64),
            Command::Show => Some(LONGEST_SHOWN as u64),
            Command::SolveGame { .. } => Some(LONGEST_GAME_TEXT as u64),
            Command::CheckGame => Some(LONGEST_CHECKED_TEXT as u64),
            Command::Determinise { .. } => Some(LONGEST_AUTOMATON_TEXT as u64),
            Command::Make { .. } | Command::Realize { .. } => Some(LONGEST_TASK_TEXT as u64),
            Command::Gen { .. } | Command::Bench { .. } => None,
        }
    }
}
