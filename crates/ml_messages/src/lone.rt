// Propositions that stand in one formula of a file of requirements alone: their names may be spelt wrongly.

use crate::shown::{shown, token};
use indexmap::{IndexMap, IndexSet};
use ml_base::{Name, NameRefusal};
use ml_driver::Command;
use ml_front::Logic;
use ml_spec::{
    ItemText, behind_colon, line_and_column, next_item, split_name, split_word, uncommented,
};
use ml_written::{add_propositions, read};
use std::alloc::{AllocError, Global};

/// What a file says of its propositions.
#[derive(Drop)]
struct Spoken {
    alloc: Global,
    logic: Logic,
    /// Each proposition with the item whose formula alone has it; with none where several have it.
    places: IndexMap<Name, Option<usize>>,
    /// The values of enumerations, and defined names.
    declared: IndexSet<Name>,
}

/// What people are told beside the answer to a command on this input: in a file of requirements without `signals`, each
/// proposition that stands in one formula alone, with the first place at which it stands.
///
/// # Errors
/// `AllocError` alone.
///
/// Cost: linear in the input, and for each proposition that is told linear up to its place.
pub fn warnings(alloc: Global, command: Command, input: &[u8]) -> Result<Vec<String>, AllocError> {
    match command {
        Command::Ask { .. } => lone_propositions(alloc, input),
        _ => Ok(Vec::new(alloc)),
    }
}

fn lone_propositions(alloc: Global, input: &[u8]) -> Result<Vec<String>, AllocError> {
    let text = uncommented(alloc, input).map_err(|_| AllocError)?;
    let Some((first, behind)) = next_item(&text, 0) else {
        return Ok(Vec::new(alloc));
    };
    let (_, word) = split_word(first.bytes);
    let Some(logic) = Logic::named(word) else {
        return Ok(Vec::new(alloc));
    };
    let mut spoken = Spoken {
        alloc,
        logic,
        places: IndexMap::new(alloc),
        declared: IndexSet::new(alloc),
    };
    if !add_items(&mut spoken, &text, behind)? {
        return Ok(Vec::new(alloc));
    }
    sentences(&spoken, input, &text)
}

// all items from this place on; are there no signals among them?
fn add_items(spoken: &mut Spoken, text: &[u8], behind: usize) -> Result<bool, AllocError> {
    let mut from = behind;
    for _ in 0..text.len() {
        let Some((item, next)) = next_item(text, from.min(text.len())) else {
            return Ok(true);
        };
        let (word, _) = split_word(item.bytes);
        if word == b"signals".as_slice() {
            return Ok(false);
        }
        add_item(spoken, &item, word)?;
        from = next;
    }
    Ok(true)
}

fn add_item(spoken: &mut Spoken, item: &ItemText, word: &[u8]) -> Result<(), AllocError> {
    let (_, behind_word) = split_word(item.bytes);
    let (name, behind_name) = split_name(behind_word);
    let Some(text) = behind_colon(behind_name) else {
        return Ok(());
    };
    if word == b"enum".as_slice() {
        return add_values(spoken, name, text);
    }
    if word == b"define".as_slice() {
        declare(spoken, name)?;
    }
    add_formula(spoken, item.at, text)
}

fn add_values(spoken: &mut Spoken, name: &[u8], values: &[u8]) -> Result<(), AllocError> {
    for value in values.split(|byte| matches!(*byte, b' ' | b'\t' | b'\r' | b'\n')) {
        let mut full = Vec::new(spoken.alloc);
        full.extend_from_slice(name)?;
        full.push(b'_')?;
        full.extend_from_slice(value)?;
        declare(spoken, &full)?;
    }
    Ok(())
}

fn declare(spoken: &mut Spoken, bytes: &[u8]) -> Result<(), AllocError> {
    match Name::new(spoken.alloc, bytes) {
        Ok(name) => {
            spoken.declared.insert(name)?;
            Ok(())
        }
        Err(NameRefusal::NotAName) => Ok(()),
        Err(NameRefusal::NoMemory) => Err(AllocError),
    }
}

// the propositions of the formula of the item that begins here
fn add_formula(spoken: &mut Spoken, at: usize, text: &[u8]) -> Result<(), AllocError> {
    let Ok(written) = read(spoken.alloc, spoken.logic, text) else {
        return Ok(());
    };
    let mut names = IndexSet::new(spoken.alloc);
    add_propositions(&written, &mut names).map_err(|_| AllocError)?;
    for name in names.iter() {
        let place = if spoken.places.contains_key(name) {
            None
        } else {
            Some(at)
        };
        let name = name.copy().map_err(|_| AllocError)?;
        spoken.places.insert(name, place)?;
    }
    Ok(())
}

fn sentences(spoken: &Spoken, input: &[u8], text: &[u8]) -> Result<Vec<String>, AllocError> {
    let mut sentences = Vec::new(spoken.alloc);
    for (name, item) in spoken.places.iter() {
        if spoken.declared.contains(name) {
            continue;
        }
        if let Some(place) = place_of(text, spoken.logic, *item, name.bytes()) {
            let (line, column) = line_and_column(input, place);
            let name = shown(spoken.alloc, name.bytes())?;
            let sentence = format!(in spoken.alloc;
                "line {line}, column {column}: {name} stands in this formula alone"
            )?;
            sentences.push(sentence)?;
        }
    }
    Ok(sentences)
}

// where the word first stands in the formula of the item that begins there
fn place_of(text: &[u8], logic: Logic, item: Option<usize>, word: &[u8]) -> Option<usize> {
    let (item, _) = next_item(text, item?.min(text.len()))?;
    let (_, behind_word) = split_word(item.bytes);
    let (_, behind_name) = split_name(behind_word);
    let formula = behind_colon(behind_name)?;
    let is_of_paths = matches!(logic, Logic::Ctl | Logic::Ltl | Logic::Word);
    let mut rest = formula;
    for _ in 0..formula.len() {
        let found = token(rest, is_of_paths);
        if found == word {
            return item
                .at
                .checked_add(item.bytes.len().checked_sub(rest.len())?);
        }
        rest = rest.get(found.len().max(1)..)?;
    }
    None
}
