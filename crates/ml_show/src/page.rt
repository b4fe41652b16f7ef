// Texts whose lines are no wider than a terminal.
ghost use Rattle.std.specs.Prelude.{◌≡◌, ◌∷◌, ◌++◌, [], IfOk};
ghost use Rattle.ml_show.specs.Pages.{EndsWithLf};

use crate::names::write_name;
use ml_base::NoMemory;
use ml_lines::{write_number, write_word};
use std::alloc::Global;

// how many columns a line may have, but for a word that is wider
const WIDTH: usize = 78;

// A text that grows line by line. Words stand behind one another with a blank between them, and go on in the next line, as far
// in as the paragraph, where they don't fit.
#[derive(Drop)]
pub(crate) struct Page {
    bytes: Vec<u8>,
    // the column where the next byte stands
    column: usize,
    // how far in the lines of the paragraph begin, but for the first one
    indent: usize,
    // does the line have no word yet?
    is_fresh: bool,
}

impl Page {
    pub(crate) fn new(alloc: Global) -> Page {
        Page {
            bytes: Vec::new(alloc),
            column: 0,
            indent: 0,
            is_fresh: true,
        }
    }

    // does nothing stand there yet?
    pub(crate) fn is_empty(&self) -> bool {
        self.bytes.is_empty()
    }

    // begins a paragraph: its first line is so far in, and its other lines so far
    pub(crate) fn begin(&mut self, first: usize, others: usize) -> Result<(), NoMemory> {
        self.indent = others;
        self.pad_to(first)
    }

    // bytes as they are, right behind what stands there
    pub(crate) fn put(&mut self, bytes: &[u8]) -> Result<(), NoMemory> {
        write_word(&mut self.bytes, bytes)?;
        self.column = self.column.saturating_add(bytes.len());
        self.is_fresh = false;
        Ok(())
    }

    // blanks up to a column, if it isn't reached yet
    pub(crate) fn pad_to(&mut self, column: usize) -> Result<(), NoMemory> {
        for _ in self.column..column {
            self.bytes.push(b' ')?;
        }
        self.column = self.column.max(column);
        Ok(())
    }

    // a blank, or the next line where a word of so many bytes doesn't fit behind it
    pub(crate) fn room_for(&mut self, len: usize) -> Result<(), NoMemory> {
        if self.is_fresh {
            return Ok(());
        }
        if len < WIDTH.saturating_sub(self.column) {
            return self.put(b" ");
        }
        self.end_line()?;
        self.pad_to(self.indent)
    }

    // a word behind the others, in this line or the next one
    pub(crate) fn word(&mut self, word: &[u8]) -> Result<(), NoMemory> {
        self.room_for(word.len())?;
        self.put(word)
    }

    // the words of a text, which single blanks separate
    pub(crate) fn words(&mut self, text: &[u8]) -> Result<(), NoMemory> {
        for word in text.split(|byte| *byte == b' ') {
            self.word(word)?;
        }
        Ok(())
    }

    // a number as it is, right behind what stands there
    pub(crate) fn put_number(&mut self, alloc: Global, number: u64) -> Result<(), NoMemory> {
        self.put(&digits_of(alloc, number)?)
    }

    // a number as a word
    pub(crate) fn number(&mut self, alloc: Global, number: u64) -> Result<(), NoMemory> {
        let digits = digits_of(alloc, number)?;
        self.word(&digits)
    }

    // a name as it is, right behind what stands there
    pub(crate) fn put_name(&mut self, name: u32) -> Result<(), NoMemory> {
        let start = self.bytes.len();
        write_name(&mut self.bytes, name)?;
        self.column = self
            .column
            .saturating_add(self.bytes.len().saturating_sub(start));
        self.is_fresh = false;
        Ok(())
    }

    // the lines of another page, behind the last line
    pub(crate) fn append(&mut self, page: &Page) -> Result<(), NoMemory> {
        write_word(&mut self.bytes, &page.bytes)?;
        self.column = page.column;
        self.indent = page.indent;
        self.is_fresh = page.is_fresh;
        Ok(())
    }

    // a number as a word, with a sign right behind it
    pub(crate) fn number_with(
        &mut self,
        alloc: Global,
        number: u64,
        sign: &[u8],
    ) -> Result<(), NoMemory> {
        let mut digits = digits_of(alloc, number)?;
        write_word(&mut digits, sign)?;
        self.word(&digits)
    }

    // a line ends
    pub(crate) fn end_line(&mut self) -> Result<(), NoMemory> {
        self.bytes.push(b'\n')?;
        self.column = 0;
        self.is_fresh = true;
        Ok(())
    }

    // the text, whose last line ends
    pub(crate) fn finish(self) -> Result<Vec<u8>, NoMemory>
        ensures { IfOk result (λ text. EndsWithLf text.items) }
    {
        ended(self.bytes)
    }
}

// the text with an LF behind it
#[tactic(auto, using(crate::proofs::LastLines::ends_with_lf))]
fn ended(mut bytes: Vec<u8>) -> Result<Vec<u8>, NoMemory>
    ensures { IfOk result (λ text. EndsWithLf text.items) }
{
    bytes.push(b'\n')?;
    Ok(bytes)
}

// the decimal digits of a number
fn digits_of(alloc: Global, number: u64) -> Result<Vec<u8>, NoMemory> {
    let mut digits = Vec::new(alloc);
    write_number(&mut digits, number)?;
    Ok(digits)
}
