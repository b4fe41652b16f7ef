// The top calls.
//
// `answer` answers a command on a text as a value. `call` reads the words and the source, has the command answered, and
// writes the output; `run` is its status alone.
ghost use Rattle.std.specs.Prelude.{◌≡◌, map, IfOk, None, Some};
ghost use Rattle.std.specs.String.{string_bytes};
ghost use Rattle.ml_driver.specs.Calls.{IsToldIn};
ghost use Rattle.ml_driver.specs.Words as command_line;
ghost use Rattle.ml_driver.specs.Confirmed.{IsConfirmed};
ghost use Rattle.ml_driver.specs.Run as answers;
ghost use Rattle.ml_driver.specs.Run.{Ended, IsAnswer, IsWhole, Wrote};
ghost use Rattle.ml_driver.specs.Said.{IsTold, is_text};
ghost use Rattle.ml_driver.specs.UsualNumbers.{HasUsualNumbers};
ghost use Rattle.ml_driver.specs.private.Written.{IsDelivered, IsSaidIf};

use crate::asking::ask;
use crate::bench::{generate, measure};
use crate::check::{check_model, check_refutation, migrate};
use crate::checking_answers::check_answers;
use crate::checking_games::check_game;
use crate::checking_machines::check_machine;
use crate::decide::decide;
use crate::determinising::determinise_text;
use crate::finding_paths::find_path;
use crate::input::input_of;
use crate::question::Question;
use crate::quotienting::quotient_document;
use crate::realizing::answer_task;
use crate::showing::show_document;
use crate::solving::solve_game;
use crate::translating::translate_text;
use crate::{Command, Output, Said, Status, command_of};
use ml_base::{NoMemory, ReadRefusal, Sink, Source, write_all};
use ml_decide::Way;
use ml_front::Logic;
use std::alloc::Global;

/// How a call ended.
#[derive(Drop)]
pub struct Ending {
    /// Its status.
    pub status: Status,
    /// The command that its words are, where something is said.
    pub command: Option<Command>,
    /// Its input, where something is said; nothing where the command takes none, or where the input is too long.
    pub input: Vec<u8>,
    /// What its output says; `None` where that is a text, and where none was written whole.
    pub said: Option<Said>,
}

/// Answers a command: reads the words, which come without the program's name, then the source to its end, computes
/// the answer, makes its whole output, and writes it. Words that are no command end the call before anything is read, and
/// `gen` and `bench` read nothing.
///
/// The contract says which status and output are due, and what each status leaves behind. `Yes` and `No` come as the command
/// says, in each of the logics:
///
/// | command | `Yes` | `No` |
/// |---|---|---|
/// | `decide`, `find` | a structure with a state at which the formula holds | it holds nowhere: a refutation is accepted |
/// | `valid`, `prove` | its negation holds nowhere, with a refutation | a structure with a state at which the negation holds |
/// | `check-model` | the document's problem holds at the start of its structure | it doesn't |
/// | `path` | a path from the start of the document's structure that shows its problem (for `A f`, breaks f) | there is none |
/// | `check-refutation` | the document's refutation is accepted | it isn't |
/// | `check-game` | the solution behind the game is right | it isn't |
/// | `realize`, `make` | a machine that realizes the task | an environment that defeats it |
/// | `check-machine` | the machine realizes its task, or the environment defeats it | it doesn't, with a word that shows it |
/// | `ask` | all requirements and questions are as their writer means them | some answer says no |
/// | `check-answers` | each answer behind the file of requirements is shown | some answer is wrong |
/// | `bench` | the family's formula is satisfiable, with its occurrences, nodes and positions | it isn't |
/// | `show` | a text for people, of which nothing is said but that it ends with LF | never |
/// | `migrate` | the document of the same refutation in version 2 | never |
/// | `quotient` | the document of the same problem with the quotient of the structure | never |
/// | `solve-game` | the text of a solution | never |
/// | `determinise` | the text of the deterministic automaton | never |
/// | `automaton` | the text of an automaton that accepts exactly the words that satisfy the formula | never |
/// | `gen` | the text of the family's formula | never |
///
/// Behind the two lines of `path`, and behind the line `fails` of `check-machine`, stands a document of LTL on words that
/// `check-model` answers with `holds`: the word of the labels along the path, and the word that shows it.
///
/// `Undecided` comes
/// - of `decide`, `valid` and `bench` exactly where the closure of the problem has too many nodes, or the decision game passes
///   the limit; of `find` and `prove` only there;
/// - of `check-model` exactly where the closure has too many nodes, on a structure of which the logic speaks;
/// - of `path` and `check-machine` exactly where the graph of the word automaton has too many nodes, for an input that isn't
///   refused;
/// - of `determinise` exactly where the deterministic automaton has more states than the limit;
/// - of `automaton` exactly where the graph of the word automaton has too many nodes, or the word automaton more places than
///   the limit;
/// - of `ask` only where some answer stays open, which comes only where the closure of the joined problem has too many nodes,
///   where its decision game passes the limit, or where the joined formula has more than 1,000 occurrences;
/// - of `check-answers` exactly where no answer is wrong, and some one is open, has names behind `perhaps:` or can't be
///   checked;
/// - of `realize` exactly where the graph of the word automaton has too many nodes, or the game of the task passes the limit;
///   of `make` only there.
///
/// `Words` comes exactly for words that are no command, and `Text` exactly for input that the command refuses, both with one
/// line that says so.
///
/// And else:
/// - `ReadFault` only where the source's count of faults rose in this call, and always where it is greater after it;
///   nothing is written;
/// - `WriteFault` only where the sink's count rose, and always where it is greater; a part of what was due is written;
/// - `NoMemory` with nothing written.
///
/// Cost: linear in the input and the output, and that of the command's answer.
pub fn run<S: Source, K: Sink>(
    alloc: Global,
    words: &[String],
    source: &mut S,
    sink: &mut K,
) -> Status
    ensures { Ended (command_line.command_of (map string_bytes words.now)) (record {
      left_before = S.remaining source.old;
      left_after = S.remaining source.new;
      source_faults_before = S.faults source.old;
      source_faults_after = S.faults source.new;
      taken_before = K.taken sink.old;
      taken_after = K.taken sink.new;
      sink_faults_before = K.faults sink.old;
      sink_faults_after = K.faults sink.new;
    }) result }
{
    let ending = call(alloc, words, source, sink);
    ending.status
}

/// Answers a command as `run` does, and gives back with the status what people may be told of the answer: what the output says,
/// of which command, on which input.
///
/// Nothing is said only where that status of the command comes with a text, or where the status is `ReadFault`, `WriteFault` or
/// `NoMemory`. The input is given back where something is said, unless it is too long.
///
/// Cost: as that of `run`.
pub fn call<S: Source, K: Sink>(
    alloc: Global,
    words: &[String],
    source: &mut S,
    sink: &mut K,
) -> Ending
    ensures ended { Ended (command_line.command_of (map string_bytes words.now)) (record {
      left_before = S.remaining source.old;
      left_after = S.remaining source.new;
      source_faults_before = S.faults source.old;
      source_faults_after = S.faults source.new;
      taken_before = K.taken sink.old;
      taken_after = K.taken sink.new;
      sink_faults_before = K.faults sink.old;
      sink_faults_after = K.faults sink.new;
    }) result.status }
    ensures told { IsToldIn (command_line.command_of (map string_bytes words.now)) (record {
      left_before = S.remaining source.old;
      left_after = S.remaining source.new;
      source_faults_before = S.faults source.old;
      source_faults_after = S.faults source.new;
      taken_before = K.taken sink.old;
      taken_after = K.taken sink.new;
      sink_faults_before = K.faults sink.old;
      sink_faults_after = K.faults sink.new;
    }) result.status result.command
        result.input.items result.said }
{
    match command_of(alloc, words) {
        Ok(Some(command)) => answered(alloc, command, source, sink),
        Ok(None) => written(
            sink,
            None,
            Vec::new(alloc),
            Status::Words,
            b"refused words\n",
            Some(Said::NoCommand),
        ),
        Err(NoMemory) => failed(alloc, Status::NoMemory),
    }
}

// the call of a command
fn answered<S: Source, K: Sink>(
    alloc: Global,
    command: Command,
    source: &mut S,
    sink: &mut K,
) -> Ending
    requires { HasUsualNumbers command }
    ensures ended { Ended (Some command) (record {
      left_before = S.remaining source.old;
      left_after = S.remaining source.new;
      source_faults_before = S.faults source.old;
      source_faults_after = S.faults source.new;
      taken_before = K.taken sink.old;
      taken_after = K.taken sink.new;
      sink_faults_before = K.faults sink.old;
      sink_faults_after = K.faults sink.new;
    }) result.status }
    ensures told { IsToldIn (Some command) (record {
      left_before = S.remaining source.old;
      left_after = S.remaining source.new;
      source_faults_before = S.faults source.old;
      source_faults_after = S.faults source.new;
      taken_before = K.taken sink.old;
      taken_after = K.taken sink.new;
      sink_faults_before = K.faults sink.old;
      sink_faults_after = K.faults sink.new;
    }) result.status result.command
        result.input.items result.said }
{
    match input_of(alloc, command, source) {
        Ok(text) => delivered(alloc, command, text, sink),
        Err(ReadRefusal::TooLong) => written(
            sink,
            Some(command),
            Vec::new(alloc),
            Status::Text,
            b"refused length\n",
            Some(Said::TooLong),
        ),
        Err(ReadRefusal::ReadFault) => failed(alloc, Status::ReadFault),
        Err(ReadRefusal::NoMemory) => failed(alloc, Status::NoMemory),
    }
}

// the answer to a command on a text, written
fn delivered<K: Sink>(alloc: Global, command: Command, text: Vec<u8>, sink: &mut K) -> Ending
    requires { HasUsualNumbers command }
    ensures delivered { IsDelivered command text.items (K.taken sink.old) (K.taken sink.new) (K.faults sink.old)
        (K.faults sink.new) result.status result.command result.input.items result.said }
{
    match answer(alloc, command, &text) {
        Ok(output) => written(
            sink,
            Some(command),
            text,
            output.status,
            &output.bytes,
            output.said,
        ),
        Err(NoMemory) => failed(alloc, Status::NoMemory),
    }
}

/// The answer to a command on a text: its status, its output, and what this says. `run` tells which status and output these
/// are. The limit of the command may not be 0, and its number is one of its family's range, as those that words ask for.
///
/// # Errors
/// `NoMemory` alone.
///
/// Cost: that of the command's answer, and linear in the text.
pub fn answer(alloc: Global, command: Command, text: &[u8]) -> Result<Output, NoMemory>
    requires { HasUsualNumbers command }
    ensures answer { IfOk result (λ output. IsAnswer command text.now output.status output.bytes.items) }
    ensures confirmed { IfOk result (λ output. IsConfirmed (Some command) output.status output.bytes.items) }
    ensures told { IfOk result (λ output. IsTold (is_text command) output.status output.bytes.items output.said) }
{
    match command {
        Command::Decide { logic, limit } => {
            decide(alloc, asked(logic, false, limit, Way::WholeGame), text)
        }
        Command::Valid { logic, limit } => {
            decide(alloc, asked(logic, true, limit, Way::WholeGame), text)
        }
        Command::Find { logic, limit } => {
            decide(alloc, asked(logic, false, limit, Way::Search), text)
        }
        Command::Prove { logic, limit } => {
            decide(alloc, asked(logic, true, limit, Way::Search), text)
        }
        Command::CheckModel => check_model(alloc, text),
        Command::CheckRefutation => check_refutation(alloc, text),
        Command::Migrate => migrate(alloc, text),
        Command::Quotient => quotient_document(alloc, text),
        Command::SolveGame { engine } => solve_game(alloc, engine, text),
        Command::CheckGame => check_game(alloc, text),
        Command::Determinise { limit } => determinise_text(alloc, limit, text),
        Command::Automaton { limit } => translate_text(alloc, limit, text),
        Command::Path => find_path(alloc, text),
        Command::Show => show_document(alloc, text),
        Command::CheckMachine => check_machine(alloc, text),
        Command::CheckAnswers => check_answers(alloc, text),
        Command::Make { limit } => answer_task(alloc, Way::Search, limit, text),
        Command::Realize { limit } => answer_task(alloc, Way::WholeGame, limit, text),
        Command::Ask { form, limit } => ask(alloc, form, limit, text),
        Command::Gen { family, n } => generate(alloc, family, n),
        Command::Bench { family, n } => measure(alloc, family, n),
    }
}

fn asked(logic: Logic, negated: bool, limit: u32, way: Way) -> Question
    ensures { result ≡ answers.asked negated way logic limit }
{
    Question {
        logic,
        negated,
        limit,
        way,
    }
}

// a call that answered nothing
fn failed(alloc: Global, status: Status) -> Ending
    ensures status { result.status ≡ status }
    ensures said { result.said ≡ None }
{
    Ending {
        status,
        command: None,
        input: Vec::new(alloc),
        said: None,
    }
}

// a call that ends once its output is written
fn written<K: Sink>(
    sink: &mut K,
    command: Option<Command>,
    input: Vec<u8>,
    due: Status,
    output: &[u8],
    said: Option<Said>,
) -> Ending
    ensures wrote { Wrote (K.taken sink.old) (K.taken sink.new) (K.faults sink.old) (K.faults sink.new) due output.now
        result.status }
    ensures is_whole { IsWhole output.now }
    ensures command { result.command ≡ command }
    ensures input { result.input.items ≡ input.items }
    ensures said { IsSaidIf (K.taken sink.old) (K.taken sink.new) output.now said due result.said result.status }
{
    match write_all(sink, output) {
        Ok(()) => Ending {
            status: due,
            command,
            input,
            said,
        },
        Err(_) => Ending {
            status: Status::WriteFault,
            command,
            input,
            said: None,
        },
    }
}
