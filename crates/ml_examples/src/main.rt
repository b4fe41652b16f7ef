// Rows of words, inputs and answers, run one after the other over sources and sinks in memory. They stand in the files
// `data/rows`, which are data: so a further row costs no proof. The formulas and documents of examples/ are answered there
// too.
//
// What is printed is each row whose answer is another, with what was answered, and for each file how many rows it has and
// how many documents were written in them. Each document with an answer is read by the command that checks it, and has to
// be found good; one that `migrate` or `quotient` writes has to be found as the one that it is written of.
//
// The command lines of pages in `data/docs` are run too, and those are printed that print something else than their page
// says. At last each read and each write of a call fails in turn.
//
//   answers       what the program answers, and what is said of a document by the command that checks it
//   command_line  a command line of a page, taken apart
//   failure       why the rows were not all run
//   faults        a call whose reads and writes fail in turn
//   manual        what the manual page has to have
//   pages         the command lines of a page, run
//   row           a row, its lines, and whether an answer is as it says
#![tactic(auto)]

mod answers;
mod command_line;
mod failure;
mod faults;
mod manual;
mod pages;
mod row;

use crate::failure::Failure;
use crate::faults::run_faults;
use crate::manual::read_manual;
use crate::pages::run_page;
use crate::row::{Counts, Row, finish, read_line};
use std::alloc::AllocGlobal;
use std::fs;
use std::io::Print;
use std::rt::Files;

const FILES: [&str; 52] = [
    "examples",
    "specifications",
    "patterns",
    "words",
    "mu_texts",
    "pdl_texts",
    "ctl_texts",
    "ltl_texts",
    "spellings",
    "mu",
    "pdl",
    "ctl",
    "ltl",
    "word",
    "search",
    "literature",
    "families",
    "models",
    "refutations",
    "show",
    "games",
    "automata",
    "translations",
    "quotients",
    "realize",
    "machines",
    "machines_refused",
    "altered_machines",
    "paths",
    "random_shown_paths",
    "meanings",
    "random_models",
    "random_paths",
    "random_decisions",
    "altered",
    "automata_refused",
    "automata_texts",
    "random_automata",
    "random_translations",
    "random_games",
    "games_refused",
    "checked_games",
    "random_checked_games",
    "random_quotients",
    "small_tasks",
    "made_tasks",
    "small_tasks_made",
    "literature_tasks",
    "definitions",
    "requirements",
    "answers",
    "asked_specifications",
];

const PAGES: [&str; 6] = [
    "GUIDE",
    "REQUIREMENTS",
    "DOCUMENTS",
    "GAMES",
    "AUTOMATA",
    "REALIZE",
];

fn text_of<R: Files + AllocGlobal>(rt: &R, name: &str) -> Result<String, Failure> {
    let path = format!(in rt.alloc(); "rows/{name}.rows")?;
    Ok(fs::read_to_string(rt, path.as_str())?)
}

/// Runs the rows of a text, and counts them.
fn run_rows<R: Files + Print + AllocGlobal>(
    rt: &R,
    name: &str,
    text: &str,
) -> Result<Counts, Failure> {
    let mut row = Row::new(rt.alloc());
    let mut counts = Counts::default();
    for line in text.lines() {
        read_line(rt, name, &mut row, &mut counts, line)?;
    }
    finish(rt, name, &mut row, &mut counts)?;
    Ok(counts)
}

/// The rows of a file, and how many they are.
fn run_file<R: Files + Print + AllocGlobal>(rt: &R, name: &str) -> Result<(), Failure> {
    let text = text_of(rt, name)?;
    let counts = run_rows(rt, name, text.as_str())?;
    let rows = counts.rows;
    let documents = counts.documents;
    println!(rt; "{name}: {rows} rows, {documents} documents checked")?;
    Ok(())
}

fn main(rt: HostRuntime) -> Result<(), Failure> {
    for name in FILES {
        run_file(&rt, name)?;
    }
    for page in PAGES {
        run_page(&rt, page)?;
    }
    read_manual(&rt)?;
    run_faults(&rt)
}
