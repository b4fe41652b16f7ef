// A word automaton whose states are sets of formulas that are to hold from here on. Its edges keep which untils are put
// off: a run accepts if it puts off none of them for ever.
use crate::branches::{Branch, Branches};
use crate::formulas::{Formulas, Part, TRUE};
use indexmap::IndexSet;
use ml_arrays::small;
use ml_base::{IdSet, NoMemory};
use std::alloc::Global;

/// How many sets there may be.
pub(crate) const MOST_SETS: usize = 4_096;

/// How many untils may be put off.
const MOST_UNTILS: u32 = 64;

/// An edge of a set.
#[derive(Clone, Copy, PartialEq, Eq)]
pub struct Edge {
    /// The names that are to be true, and those that are to be false.
    pub yes: u32,
    pub no: u32,
    pub to: u32,
    /// The untils that are put off, each by a bit.
    pub off: u64,
}

/// The edges of all sets, that of the formula being the first.
#[derive(Drop)]
pub struct Sets {
    pub edges: Vec<Vec<Edge>>,
    /// How many untils are put off.
    pub untils: u32,
}

impl Sets {
    /// Does an edge without a condition lead from a set to itself, by which no until is put off?
    pub fn is_free(&self, set: u32) -> bool {
        let Some(edges) = self.edges.get(set as usize) else {
            return false;
        };
        for edge in edges {
            if edge.yes == 0 && edge.no == 0 && edge.to == set && edge.off == 0 {
                return true;
            }
        }
        false
    }
}

/// What a set asks for at once, and what is needless in it for that.
#[derive(Drop)]
struct Asked {
    all: IdSet,
    needless: IdSet,
    open: Vec<u32>,
}

impl Asked {
    fn new(alloc: Global) -> Asked {
        Asked {
            all: IdSet::new(alloc),
            needless: IdSet::new(alloc),
            open: Vec::new(alloc),
        }
    }

    fn add(&mut self, formula: u32) -> Result<(), NoMemory> {
        if self.all.insert(formula)? {
            self.open.push(formula)?;
        }
        Ok(())
    }

    /// Adds what another formula asks for.
    fn add_asked(&mut self, formula: u32) -> Result<(), NoMemory> {
        self.needless.insert(formula)?;
        self.add(formula)
    }

    /// Adds all that the formulas of a set ask for at once, without a choice.
    fn fill(&mut self, formulas: &Formulas, set: &[u32]) -> Result<(), NoMemory> {
        self.needless.insert(TRUE)?;
        for formula in set {
            self.add(*formula)?;
        }
        for _ in 0..u64::MAX {
            let Some(formula) = self.open.pop() else {
                break;
            };
            match formulas.part(formula) {
                Part::And(x, y) => {
                    self.add_asked(x)?;
                    self.add_asked(y)?;
                }
                Part::Release(_, y) => self.add_asked(y)?,
                _ => {}
            }
        }
        Ok(())
    }

    /// Is a formula of the set asked for by the others?
    fn is_needless(&self, formulas: &Formulas, formula: u32) -> bool {
        if self.needless.contains(formula) {
            return true;
        }
        match formulas.part(formula) {
            Part::Until(_, y) => self.all.contains(y),
            Part::Or(x, y) => self.all.contains(x) || self.all.contains(y),
            _ => false,
        }
    }
}

/// Writes a set without what the others ask for anyhow.
fn write_simple(
    alloc: Global,
    formulas: &Formulas,
    set: &[u32],
    simple: &mut Vec<u32>,
) -> Result<(), NoMemory> {
    let mut asked = Asked::new(alloc);
    asked.fill(formulas, set)?;
    for formula in set {
        if !asked.is_needless(formulas, *formula) {
            simple.push(*formula)?;
        }
    }
    Ok(())
}

/// The sets as they are found.
#[derive(Drop)]
struct Finding {
    sets: IndexSet<Vec<u32>>,
    untils: IndexSet<u32>,
    edges: Vec<Vec<Edge>>,
    alloc: Global,
}

impl Finding {
    fn new(alloc: Global) -> Finding {
        Finding {
            sets: IndexSet::new(alloc),
            untils: IndexSet::new(alloc),
            edges: Vec::new(alloc),
            alloc,
        }
    }

    /// The number of a set.
    fn number(&mut self, formulas: &Formulas, set: &[u32]) -> Result<u32, NoMemory> {
        let mut simple = Vec::new(self.alloc);
        write_simple(self.alloc, formulas, set, &mut simple)?;
        let (number, _) = self.sets.insert_full(simple)?;
        Ok(small(number))
    }

    /// The bits of untils; `None` where there are too many.
    fn bits(&mut self, untils: &[u32]) -> Result<Option<u64>, NoMemory> {
        let mut bits: u64 = 0;
        for until in untils {
            let (number, _) = self.untils.insert_full(*until)?;
            let number = small(number);
            if number >= MOST_UNTILS {
                return Ok(None);
            }
            bits |= 1 << number;
        }
        Ok(Some(bits))
    }

    /// The edge of a branch.
    fn edge(&mut self, formulas: &Formulas, branch: &Branch) -> Result<Option<Edge>, NoMemory> {
        let to = self.number(formulas, branch.next.values())?;
        let Some(off) = self.bits(branch.off.values())? else {
            return Ok(None);
        };
        Ok(Some(Edge {
            yes: branch.yes,
            no: branch.no,
            to,
            off,
        }))
    }

    /// Writes the edges of branches; tells whether there weren't too many untils.
    fn write_edges(
        &mut self,
        formulas: &Formulas,
        branches: &[Branch],
        edges: &mut Vec<Edge>,
    ) -> Result<bool, NoMemory> {
        for branch in branches {
            let Some(edge) = self.edge(formulas, branch)? else {
                return Ok(false);
            };
            edges.push(edge)?;
        }
        Ok(true)
    }

    fn add_edges(&mut self, formulas: &Formulas, branches: &[Branch]) -> Result<bool, NoMemory> {
        let mut edges = Vec::new(self.alloc);
        let fits = self.write_edges(formulas, branches, &mut edges)?;
        self.edges.push(edges)?;
        Ok(fits)
    }

    /// Makes the branches of the next set; `None` where there is none.
    fn look_at_next(&self, branches: &mut Branches) -> Result<Option<bool>, NoMemory> {
        match self.sets.as_slice().get(self.edges.len()) {
            Some(set) => {
                let fits = branches.make(set.as_slice())?;
                Ok(Some(fits))
            }
            None => Ok(None),
        }
    }

    /// Finds all sets; tells whether there weren't too many.
    fn find(
        &mut self,
        formulas: &Formulas,
        branches: &mut Branches,
        root: u32,
    ) -> Result<bool, NoMemory> {
        self.number(formulas, &[root])?;
        for _ in 0..MOST_SETS {
            match self.look_at_next(branches)? {
                None => return Ok(true),
                Some(false) => return Ok(false),
                Some(true) => {}
            }
            if !self.add_edges(formulas, &branches.made)? || self.sets.len() > MOST_SETS {
                return Ok(false);
            }
        }
        Ok(self.sets.len() <= self.edges.len())
    }

    fn find_all(&mut self, formulas: &Formulas, root: u32) -> Result<bool, NoMemory> {
        let mut branches = Branches::empty(self.alloc, formulas);
        self.find(formulas, &mut branches, root)
    }
}

/// The sets of a formula; `None` where they are too many.
pub(crate) fn sets_of(
    alloc: Global,
    formulas: &Formulas,
    root: u32,
) -> Result<Option<Sets>, NoMemory> {
    let mut finding = Finding::new(alloc);
    if !finding.find_all(formulas, root)? {
        return Ok(None);
    }
    Ok(Some(Sets {
        untils: small(finding.untils.len()),
        edges: finding.edges,
    }))
}
