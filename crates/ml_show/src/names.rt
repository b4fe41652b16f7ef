// Short names for long formulas and programs.
//
// A formula or a program of many columns gets a name, `#1` and so on, where it is first written, and its long parts have got
// theirs by then. So whatever is written is short, and each long formula is written out once, where its name is explained.
use ml_arrays::{empty_rows, push_at, row, small};
use ml_base::NoMemory;
use ml_lines::{write_number, write_word};
use std::alloc::Global;

// how many columns a formula may have that has no name
const LONG: usize = 40;

// how many lists of names there are, by the sums of what they stand for
const LISTS: usize = 1024;

#[derive(Drop)]
pub(crate) struct Names {
    alloc: Global,
    // what each name stands for
    meanings: Vec<Vec<u8>>,
    // the names, by the sums of what they stand for
    lists: Vec<Vec<u32>>,
}

// a number below `LISTS` that bytes have
fn sum(bytes: &[u8]) -> u32 {
    let mut sum: u32 = 0;
    for byte in bytes {
        sum = sum.wrapping_mul(31).wrapping_add(u32::from(*byte));
    }
    sum % 1024
}

impl Names {
    pub(crate) fn new(alloc: Global) -> Result<Names, NoMemory> {
        Ok(Names {
            alloc,
            meanings: Vec::new(alloc),
            lists: empty_rows(alloc, LISTS)?,
        })
    }

    pub(crate) fn meanings(&self) -> &[Vec<u8>] {
        &self.meanings
    }

    // the name of a meaning, if it has one
    fn known(&self, list: u32, meaning: &[u8]) -> Option<u32> {
        for name in row(&self.lists, list) {
            if let Some(known) = self.meanings.get(*name as usize) {
                if known.as_slice() == meaning {
                    return Some(*name);
                }
            }
        }
        None
    }

    // the name of a meaning, a new one if it has none
    fn name_of(&mut self, meaning: &[u8]) -> Result<u32, NoMemory> {
        let list = sum(meaning);
        if let Some(name) = self.known(list, meaning) {
            return Ok(name);
        }
        let name = small(self.meanings.len());
        let mut kept = Vec::new(self.alloc);
        write_word(&mut kept, meaning)?;
        self.meanings.push(kept)?;
        push_at(&mut self.lists, list, name)?;
        Ok(name)
    }

    // what stands in a text from a place on is written by its name, if it is long
    pub(crate) fn shorten(&mut self, text: &mut Vec<u8>, start: usize) -> Result<(), NoMemory> {
        let meaning = text.get(start..).unwrap_or(&[]);
        if meaning.len() <= LONG {
            return Ok(());
        }
        let name = self.name_of(meaning)?;
        text.truncate(start);
        write_name(text, name)
    }
}

// Appends a name, counted from 1.
pub(crate) fn write_name(text: &mut Vec<u8>, name: u32) -> Result<(), NoMemory> {
    write_word(text, b"#")?;
    write_number(text, u64::from(name).saturating_add(1))
}
