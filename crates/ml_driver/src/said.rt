// What an answer of one line says, and the line.
//
// A document, a solution, an automaton or a formula is written as it is; every other answer is one line, and `Said` is what it
// says, as a value. `Output` keeps this value beside the bytes, so that whoever tells people of an answer needs no line.
ghost use Rattle.std.specs.Prelude.{◌≡◌, IfOk};
ghost use Rattle.std.specs.String.{string_bytes};
ghost use Rattle.ml_driver.specs.Said as said;
ghost use Rattle.ml_driver.specs.Said.{said_text};

use crate::Status;
use ml_answers::AnswersRule;
use ml_base::{DocFault, NoMemory};
use ml_game_check::Rule;
use ml_spec::SpecRule;
use std::alloc::{AllocError, Global};

/// Which text is refused at a byte.
#[derive(Clone, Copy, Debug, PartialEq, Eq)]
pub enum TextKind {
    /// That of a formula.
    Formula,
    /// That of a parity game, with or without a solution.
    Game,
    /// That of an automaton.
    Automaton,
}

/// What is too large for an answer.
#[derive(Clone, Copy, Debug, PartialEq, Eq)]
pub enum Size {
    /// The nodes of a closure, or of the graph of a word automaton.
    Closure,
    /// The positions of a game, or the places of a word automaton.
    Positions,
    /// The states of a deterministic automaton.
    States,
}

/// What an answer of one line says.
#[derive(Clone, Copy, Debug, PartialEq, Eq)]
pub enum Said {
    /// `refused words`: the words are no command.
    NoCommand,
    /// `refused length`: the input is longer than the command takes.
    TooLong,
    /// `refused KIND rule K at A`: a text is refused by this rule at this byte.
    RefusedText {
        kind: TextKind,
        rule: u32,
        at: u64,
    },
    /// `refused document line L rule K`: a document or a task has this first bad line, which breaks this rule.
    RefusedDocument(DocFault),
    /// `refused line L column C rule K`: a file of requirements breaks this rule at this line and column.
    RefusedRequirements {
        line: u64,
        column: u64,
        rule: SpecRule,
    },
    /// `refused line L column C rule 71`: no answers stand behind a file of requirements, which ends at this line and column.
    NoAnswers {
        line: u64,
        column: u64,
    },
    /// `not total at state S`: this state, the least such one, has no edge.
    NotTotal(u32),
    /// `not a word at state S`: this state, the least such one, hasn't exactly one edge.
    NotAWord(u32),
    /// `holds`: the problem of a document holds, or its machine or environment is right.
    Holds,
    /// `fails`: it doesn't, or isn't.
    Fails,
    /// `accepted`: a refutation or a solution is right.
    Accepted,
    /// `rejected line L rule K`: a refutation isn't; this is the first line that breaks a rule.
    RejectedLine {
        line: u64,
        rule: u32,
    },
    /// `rejected vertex I rule K`: a solution isn't; the entry of the vertex with this id breaks this rule.
    RejectedVertex {
        id: u32,
        rule: Rule,
    },
    /// `right`: each answer to a file of requirements is shown.
    Right,
    /// `wrong line L`: something of the answer in this line that can be checked fails; it is the first such one.
    WrongLine(u64),
    /// `open line L`: none is wrong, and this line is the first that is open or can't be checked.
    OpenLine(u64),
    /// `none`: no path shows the problem.
    NoPath,
    /// `undecided SIZE N`: this size passes this limit.
    Undecided {
        size: Size,
        limit: u32,
    },
}

impl TextKind {
    // its word in a line
    fn word(self) -> &'static str
        ensures { result.now ≡ said.kind_word self }
    {
        match self {
            TextKind::Formula => "text",
            TextKind::Game => "game",
            TextKind::Automaton => "automaton",
        }
    }
}

impl Size {
    // its word in a line
    fn word(self) -> &'static str
        ensures { result.now ≡ said.size_word self }
    {
        match self {
            Size::Closure => "closure",
            Size::Positions => "positions",
            Size::States => "states",
        }
    }
}

impl Said {
    /// The status that comes with the line.
    ///
    /// Cost: constant.
    pub fn status(self) -> Status
        ensures { result ≡ said.status_said self }
    {
        match self {
            Said::NoCommand => Status::Words,
            Said::TooLong
            | Said::RefusedText { .. }
            | Said::RefusedDocument(_)
            | Said::RefusedRequirements { .. }
            | Said::NoAnswers { .. }
            | Said::NotTotal(_)
            | Said::NotAWord(_) => Status::Text,
            Said::Holds | Said::Accepted | Said::Right => Status::Yes,
            Said::Fails
            | Said::RejectedLine { .. }
            | Said::RejectedVertex { .. }
            | Said::WrongLine(_)
            | Said::NoPath => Status::No,
            Said::OpenLine(_) | Said::Undecided { .. } => Status::Undecided,
        }
    }

    /// The line.
    ///
    /// # Errors
    /// `NoMemory` alone.
    ///
    /// Cost: constant.
    pub fn line(self, alloc: Global) -> Result<Vec<u8>, NoMemory>
        ensures { IfOk result (λ line. line.items ≡ said_text self) }
    {
        let line = self.text(alloc)?;
        Ok(line.into_bytes())
    }

    fn text(self, alloc: Global) -> Result<String, AllocError>
        ensures { IfOk result (λ text. string_bytes text ≡ said_text self) }
    {
        match self {
            Said::NoCommand => format!(in alloc; "refused words\n"),
            Said::TooLong => format!(in alloc; "refused length\n"),
            Said::RefusedText { kind, rule, at } => {
                format!(in alloc; "refused {} rule {rule} at {at}\n", kind.word())
            }
            Said::RefusedDocument(fault) => {
                format!(in alloc;
                    "refused document line {} rule {}\n",
                    fault.line, fault.rule
                )
            }
            Said::RefusedRequirements { line, column, rule } => {
                format!(in alloc;
                    "refused line {line} column {column} rule {}\n",
                    rule.number()
                )
            }
            Said::NoAnswers { line, column } => {
                format!(in alloc;
                    "refused line {line} column {column} rule {}\n",
                    AnswersRule::OfKind.number()
                )
            }
            Said::NotTotal(state) => format!(in alloc; "not total at state {state}\n"),
            Said::NotAWord(state) => format!(in alloc; "not a word at state {state}\n"),
            Said::Holds => format!(in alloc; "holds\n"),
            Said::Fails => format!(in alloc; "fails\n"),
            Said::Accepted => format!(in alloc; "accepted\n"),
            Said::RejectedLine { line, rule } => {
                format!(in alloc; "rejected line {line} rule {rule}\n")
            }
            Said::RejectedVertex { id, rule } => {
                format!(in alloc; "rejected vertex {id} rule {}\n", rule.number())
            }
            Said::Right => format!(in alloc; "right\n"),
            Said::WrongLine(line) => format!(in alloc; "wrong line {line}\n"),
            Said::OpenLine(line) => format!(in alloc; "open line {line}\n"),
            Said::NoPath => format!(in alloc; "none\n"),
            Said::Undecided { size, limit } => {
                format!(in alloc; "undecided {} {limit}\n", size.word())
            }
        }
    }
}
