// The texts of a graph's nodes, each made once.
use crate::names::Names;
use crate::sayings::Nodes;
use ml_base::NoMemory;
use std::alloc::Global;

// what is said of a node
#[derive(Clone, Copy)]
pub(crate) enum Aspect {
    // what it says
    Formula,
    // the same, with a line for each formula that a path is to have
    Lines,
    // what has two cases at it
    Split,
    // its cases
    First,
    Second,
    // what has to come about where it is met again and again
    PutOff,
}

const ASPECTS: usize = 6;

fn place_of(node: u32, aspect: Aspect) -> usize {
    let offset: usize = match aspect {
        Aspect::Formula => 0,
        Aspect::Lines => 1,
        Aspect::Split => 2,
        Aspect::First => 3,
        Aspect::Second => 4,
        Aspect::PutOff => 5,
    };
    (node as usize)
        .saturating_mul(ASPECTS)
        .saturating_add(offset)
}

#[derive(Drop)]
pub(crate) struct Wordings<'n, 'g, 'a> {
    alloc: Global,
    nodes: &'n Nodes<'g, 'a>,
    names: Names,
    // the texts that were made; the others are empty
    texts: Vec<Vec<u8>>,
}

impl<'n, 'g, 'a> Wordings<'n, 'g, 'a> {
    pub(crate) fn of(
        alloc: Global,
        nodes: &'n Nodes<'g, 'a>,
    ) -> Result<Wordings<'n, 'g, 'a>, NoMemory> {
        let mut texts = Vec::new(alloc);
        for _ in nodes.graph.nodes() {
            for _ in 0..ASPECTS {
                texts.push(Vec::new(alloc))?;
            }
        }
        let names = Names::new(alloc)?;
        Ok(Wordings {
            alloc,
            nodes,
            names,
            texts,
        })
    }

    // what the names stand for that were given so far
    pub(crate) fn meanings(&self) -> &[Vec<u8>] {
        self.names.meanings()
    }

    fn make(&mut self, node: u32, aspect: Aspect) -> Result<Vec<u8>, NoMemory> {
        let names = &mut self.names;
        match aspect {
            Aspect::Formula => self.nodes.text(self.alloc, names, node),
            Aspect::Lines => self.nodes.lines(self.alloc, names, node),
            Aspect::Split => self.nodes.split_text(self.alloc, names, node),
            Aspect::First => self.nodes.case_text(self.alloc, names, node, true),
            Aspect::Second => self.nodes.case_text(self.alloc, names, node, false),
            Aspect::PutOff => self.nodes.put_off_text(self.alloc, names, node),
        }
    }

    // makes a text, unless it is there
    fn keep(&mut self, node: u32, aspect: Aspect) -> Result<(), NoMemory> {
        if !self.kept(node, aspect).is_empty() {
            return Ok(());
        }
        let text = self.make(node, aspect)?;
        if let Some(kept) = self.texts.get_mut(place_of(node, aspect)) {
            *kept = text;
        }
        Ok(())
    }

    // the text that is there
    fn kept(&self, node: u32, aspect: Aspect) -> &[u8] {
        match self.texts.get(place_of(node, aspect)) {
            Some(text) => text.as_slice(),
            None => b"(no node)",
        }
    }

    // what is said of a node
    pub(crate) fn text(&mut self, node: u32, aspect: Aspect) -> Result<&[u8], NoMemory> {
        self.keep(node, aspect)?;
        Ok(self.kept(node, aspect))
    }
}
