// What an argument in steps is written with.
use crate::page::Page;
use crate::sayings::Nodes;
use crate::steps::Steps;
use crate::wordings::{Aspect, Wordings};
use ml_arrays::number;
use ml_base::NoMemory;
use ml_lines::write_word;
use ml_refutation::Refutation;
use std::alloc::Global;

// how many formulas are told again where a step is named that excludes them
pub(crate) const FEW: usize = 3;

// A page that is written, and what it speaks of.
#[derive(Drop)]
pub(crate) struct Telling<'n, 'g, 'a> {
    pub alloc: Global,
    pub page: Page,
    pub nodes: &'n Nodes<'g, 'a>,
    pub wordings: Wordings<'n, 'g, 'a>,
    pub refutation: &'n Refutation,
    pub steps: &'n Steps,
    // what is put off from each step, each with the step to which it leads (`rounds`)
    pub put_off: &'n [Vec<u64>],
    // the formulas of each step, each in a line
    pub lists: Vec<Vec<u8>>,
    // is one path spoken of?
    pub is_path: bool,
}

impl<'n, 'g, 'a> Telling<'n, 'g, 'a> {
    // what is said of a node, behind what stands there
    pub(crate) fn say(&mut self, node: u32, aspect: Aspect) -> Result<(), NoMemory> {
        let text = self.wordings.text(node, aspect)?;
        self.page.words(text)
    }

    // one more line of a list
    fn add_line(&mut self, list: &mut Vec<u8>, node: u32) -> Result<(), NoMemory> {
        let text = self.wordings.text(node, Aspect::Lines)?;
        if !list.is_empty() {
            write_word(list, b"\n")?;
        }
        write_word(list, text)
    }

    // the formulas that can't hold together in a step, which begins with this entry
    fn list_of(&mut self, entry: u32) -> Result<Vec<u8>, NoMemory> {
        let mut list = Vec::new(self.alloc);
        if let Some(entry) = self.refutation.entries.get(entry as usize) {
            for node in self.refutation.sequents.at(entry.sequent) {
                if self.nodes.is_told(*node) {
                    self.add_line(&mut list, *node)?;
                }
            }
        }
        if list.is_empty() {
            write_word(&mut list, b"tt")?;
        }
        Ok(list)
    }

    // makes the lists of all steps
    pub(crate) fn list_all(&mut self) -> Result<(), NoMemory> {
        for entry in &self.steps.entries {
            let list = self.list_of(*entry)?;
            self.lists.push(list)?;
        }
        Ok(())
    }

    // the formulas of a step, as those of the first step that has them
    fn list(&self, step: u32) -> &[u8] {
        let alike = number(&self.steps.alike, step);
        match self.lists.get(alike as usize) {
            Some(list) => list.as_slice(),
            None => b"tt",
        }
    }

    // a list of the formulas of a step
    pub(crate) fn show_list(&mut self, step: u32) -> Result<(), NoMemory> {
        let alike = number(&self.steps.alike, step);
        if let Some(list) = self.lists.get(alike as usize) {
            for text in list.split(|byte| *byte == b'\n') {
                self.page.begin(4, 8)?;
                self.page.word(b"-")?;
                self.page.words(text)?;
                self.page.end_line()?;
            }
        }
        Ok(())
    }

    // are the formulas of a step few?
    fn has_few(&self, step: u32) -> bool {
        let lines = self
            .list(step)
            .iter()
            .filter(|byte| **byte == b'\n')
            .count();
        lines < FEW
    }

    // the formulas of a step in one sentence, where they are few
    pub(crate) fn show_asked(&mut self, step: u32) -> Result<(), NoMemory> {
        if !self.has_few(step) {
            return self.page.words(b"all that");
        }
        let alike = number(&self.steps.alike, step);
        if let Some(list) = self.lists.get(alike as usize) {
            for (i, text) in list.split(|byte| *byte == b'\n').enumerate() {
                if i > 0 {
                    self.page.word(b"and")?;
                }
                self.page.words(text)?;
            }
        }
        self.page.put(b",")?;
        self.page.word(b"which")
    }

    // the number of a step, counted from 1, with a sign right behind it
    pub(crate) fn show_number(&mut self, step: u32, sign: &[u8]) -> Result<(), NoMemory> {
        self.page
            .number_with(self.alloc, u64::from(step).saturating_add(1), sign)
    }

    // the texts of what is put off, each once
    fn put_off_texts(&mut self, nodes: &[u32]) -> Result<Vec<Vec<u8>>, NoMemory> {
        let mut texts = Vec::new(self.alloc);
        for node in nodes {
            let mut text = Vec::new(self.alloc);
            write_word(&mut text, self.wordings.text(*node, Aspect::PutOff)?)?;
            texts.push(text)?;
        }
        texts.sort_unstable();
        texts.dedup();
        Ok(texts)
    }

    // what is put off, with `or` between, or how many formulas where they are more than some
    pub(crate) fn show_any(&mut self, nodes: &[u32], most: usize) -> Result<(), NoMemory> {
        let texts = self.put_off_texts(nodes)?;
        if texts.len() > most {
            self.page.words(b"one of")?;
            self.page.number(self.alloc, texts.len() as u64)?;
            return self.page.word(b"formulas");
        }
        for (i, text) in texts.iter().enumerate() {
            if i > 0 {
                self.page.word(b"or")?;
            }
            self.page.words(text)?;
        }
        Ok(())
    }
}
