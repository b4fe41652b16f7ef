// Rounds: more and more passages are allowed.
use crate::classes::Classes;
use crate::copying::{Copied, copy_of};
use crate::playing::Play;
use crate::projecting::{Over, Projector, write_classes};
use crate::regions::Regions;
use ml_arrays::{NONE, number};
use ml_base::NoMemory;
use ml_candidates::Candidate;
use ml_graph::ModalGraph;
use ml_refutation::{Entry, Lists};
use ml_search_focus::{Sought, Trial, seek};
use ml_sequent_solver::Terms;
use std::alloc::Global;

/// The search in a graph.
#[derive(Drop)]
pub(crate) struct Rounds<'a> {
    terms: Terms<'a>,
    regions: Regions,
    passages: u32,
    fuel: u64,
}

/// What a round came to.
#[derive(Drop)]
enum Round {
    Over(Option<Candidate>),
    GoesOn,
}

/// The next number of passages.
fn next(passages: u32) -> u32 {
    passages.saturating_add(1).saturating_add(passages / 4 * 2)
}

impl<'a> Rounds<'a> {
    /// Nothing is made yet; so many steps may be made.
    pub(crate) fn new(alloc: Global, graph: &'a ModalGraph, fuel: u64) -> Rounds<'a> {
        Rounds {
            terms: Terms::empty(alloc, graph),
            regions: Regions::empty(alloc),
            passages: 0,
            fuel,
        }
    }

    /// The search, where the thread of this node splits, if there is such a one. Graphs with bad walks without modal steps
    /// aren't taken.
    pub(crate) fn run(&mut self, splits: Option<u32>) -> Result<Option<Candidate>, NoMemory> {
        self.terms.fill()?;
        if self.terms.traces.has_local_cycles {
            return Ok(None);
        }
        self.regions.fill(&self.terms)?;
        if let Some(n) = splits {
            let _ = self.regions.count(n);
        }
        for _ in 0..u64::MAX {
            if self.fuel == 0 || !self.regions.counts() {
                break;
            }
            if let Round::Over(found) = self.round()? {
                return Ok(found);
            }
        }
        Ok(None)
    }

    fn spend(&mut self, steps: u64) {
        self.fuel = self.fuel.saturating_sub(steps);
    }

    fn round(&mut self) -> Result<Round, NoMemory> {
        let Some(copied) = copy_of(&self.terms, &self.regions, self.passages)? else {
            return Ok(Round::Over(None));
        };
        self.spend(copied.from.len() as u64);
        let Trial { sought, spent } = seek(self.terms.alloc, &copied.graph, self.fuel)?;
        self.spend(spent);
        match sought {
            Sought::Found(candidate) => self.take(&copied, candidate),
            Sought::Splits(n) => Ok(self.take_split(number(&copied.from, n))),
            _ => Ok(Round::Over(None)),
        }
    }

    /// The components of a node whose thread splits are counted too.
    fn take_split(&mut self, n: u32) -> Round {
        if n != NONE && self.regions.count(n) {
            Round::GoesOn
        } else {
            Round::Over(None)
        }
    }

    /// A model is one of the graph itself; a refutation is projected.
    fn take(&mut self, copied: &Copied, candidate: Candidate) -> Result<Round, NoMemory> {
        match candidate {
            Candidate::Model(model) => Ok(Round::Over(Some(Candidate::Model(model)))),
            Candidate::Refutation {
                sequents,
                entries,
                ..
            } => self.take_refutation(copied, &sequents, &entries),
        }
    }

    fn take_refutation(
        &mut self,
        copied: &Copied,
        sequents: &Lists,
        entries: &[Entry],
    ) -> Result<Round, NoMemory> {
        let classes = self.project(copied, sequents, entries)?;
        let mut play = Play::new(self.terms.alloc, &self.regions, classes, self.fuel)?;
        let found = if play.play(0)? {
            play.refutation(0)?
        } else {
            None
        };
        self.fuel = play.fuel;
        self.passages = next(self.passages);
        match found {
            Some(candidate) => Ok(Round::Over(Some(candidate))),
            None => Ok(Round::GoesOn),
        }
    }

    /// The classes of the entries, with the trees of their decisions. The first is that of the root.
    fn project(
        &mut self,
        copied: &Copied,
        sequents: &Lists,
        entries: &[Entry],
    ) -> Result<Classes, NoMemory> {
        let alloc = self.terms.alloc;
        let mut classes = Classes::empty(alloc);
        let root = vec![in alloc; self.terms.graph.root()]?;
        let _ = classes.number(root, NONE)?;
        let mut numbers = Vec::new(alloc);
        write_classes(
            &self.terms,
            &self.regions,
            copied,
            sequents,
            entries,
            &mut classes,
            &mut numbers,
        )?;
        let over = Over {
            copied,
            entries,
            classes: &numbers,
        };
        let mut projector = Projector::new(&self.terms, &self.regions, self.fuel)?;
        projector.take(over, &mut classes)?;
        self.fuel = projector.branch.fuel;
        Ok(classes)
    }
}
