// The table of commands: their first words, what stands behind them, and what they are for.
//
// `specs/Words.antt` has the same table, with the command that comes of the further words.
ghost use Rattle.std.specs.Prelude.{◌≡◌, option_map};
ghost use Rattle.ml_driver.specs.Verbs.{further_in, shape_of};
ghost use Rattle.ml_driver.specs.Words.{shape_in, table};
ghost use Rattle.ml_driver.specs.private.Rows.{verb_in};

/// The first word of a command.
#[derive(Clone, Copy, PartialEq, Eq)]
pub enum Verb {
    Find,
    Prove,
    Decide,
    Valid,
    Ask,
    CheckAnswers,
    CheckModel,
    CheckRefutation,
    Path,
    Show,
    Migrate,
    Quotient,
    SolveGame,
    CheckGame,
    Determinise,
    Automaton,
    Make,
    Realize,
    CheckMachine,
    Gen,
    Bench,
}

/// What stands behind the first word of a command.
#[derive(Clone, Copy, PartialEq, Eq)]
pub enum Further {
    /// No further word.
    Nothing,
    /// No further word, and maybe a limit.
    Limit,
    /// A logic, and maybe a limit.
    Logic,
    /// The word `files`, or none, and maybe a limit.
    Files,
    /// An engine.
    Engine,
    /// A family, and a number of its range.
    Family,
}

/// The commands: their first words, in the order in which people are told of them.
pub const TABLE: [(&str, Verb); 21] = [
    ("find", Verb::Find),
    ("prove", Verb::Prove),
    ("decide", Verb::Decide),
    ("valid", Verb::Valid),
    ("ask", Verb::Ask),
    ("check-answers", Verb::CheckAnswers),
    ("check-model", Verb::CheckModel),
    ("check-refutation", Verb::CheckRefutation),
    ("path", Verb::Path),
    ("show", Verb::Show),
    ("migrate", Verb::Migrate),
    ("quotient", Verb::Quotient),
    ("solve-game", Verb::SolveGame),
    ("check-game", Verb::CheckGame),
    ("determinise", Verb::Determinise),
    ("automaton", Verb::Automaton),
    ("make", Verb::Make),
    ("realize", Verb::Realize),
    ("check-machine", Verb::CheckMachine),
    ("gen", Verb::Gen),
    ("bench", Verb::Bench),
];

impl Verb {
    /// The verb that a word is; `None` where it is none.
    ///
    /// Cost: linear in the table.
    pub fn named(word: &str) -> Option<Verb>
        ensures { option_map shape_of result ≡ shape_in table word.now }
    {
        verb_in(&TABLE, word)
    }

    /// What stands behind the verb.
    pub fn further(self) -> Further
        ensures { result ≡ further_in (shape_of self) }
    {
        match self {
            Verb::Find | Verb::Prove | Verb::Decide | Verb::Valid => Further::Logic,
            Verb::Ask => Further::Files,
            Verb::SolveGame => Further::Engine,
            Verb::Gen | Verb::Bench => Further::Family,
            Verb::Determinise | Verb::Automaton | Verb::Make | Verb::Realize => Further::Limit,
            Verb::CheckAnswers
            | Verb::CheckModel
            | Verb::CheckRefutation
            | Verb::Path
            | Verb::Show
            | Verb::Migrate
            | Verb::Quotient
            | Verb::CheckGame
            | Verb::CheckMachine => Further::Nothing,
        }
    }

    /// What the command is for, in a few words for people.
    pub fn purpose(self) -> &'static str {
        match self {
            Verb::Find => "is the formula satisfiable?",
            Verb::Prove => "is the formula valid?",
            Verb::Decide => "as find, without a search",
            Verb::Valid => "as prove, without a search",
            Verb::Ask => "the questions of a file of requirements",
            Verb::CheckAnswers => "are the answers behind a file of requirements right?",
            Verb::CheckModel => "does the document's problem hold at its start?",
            Verb::CheckRefutation => "is the document's refutation right?",
            Verb::Path => "a path of the document's structure that shows its formula",
            Verb::Show => "the document, as people read it",
            Verb::Migrate => "the document's refutation in version 2",
            Verb::Quotient => "the document's structure, as small as can be",
            Verb::SolveGame => "who wins the parity game?",
            Verb::CheckGame => "is the solution behind the parity game right?",
            Verb::Determinise => "the Büchi automaton, made deterministic",
            Verb::Automaton => "a Büchi automaton of the formula of LTL",
            Verb::Make => "a machine for the task, or an environment",
            Verb::Realize => "as make, without a search",
            Verb::CheckMachine => "does the machine realize its task?",
            Verb::Gen => "the formula of a family",
            Verb::Bench => "its size, and whether it is satisfiable",
        }
    }
}

fn verb_in(rows: &[(&'static str, Verb)], word: &str) -> Option<Verb>
    ensures { result ≡ verb_in (λ s. s.now) rows.now word.now }
{
    let ((first, verb), rest) = rows.split_first()?;
    if word == *first {
        Some(*verb)
    } else {
        verb_in(rest, word)
    }
}
