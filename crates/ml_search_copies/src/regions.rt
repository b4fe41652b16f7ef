// Where bad traces can stay, for each odd priority, and where passages are counted.
use ml_arrays::{NONE, flag, more_flags, more_numbers, number, put, row, set_flag, small};
use ml_base::NoMemory;
use ml_sequent_solver::{Part, Terms};
use std::alloc::Global;

/// The components of threads of a graph: for an odd priority d the strong components of what has priority d or more, where a
/// node has priority d and there is a closed walk. They are numbered from 1.
#[derive(Drop)]
pub(crate) struct Regions {
    /// The odd priorities, ascending.
    pub odds: Vec<u32>,
    /// Of each odd priority, by its place, the component of each node; 0 for none.
    rows: Vec<Vec<u32>>,
    /// Of each component whether passages of its priority are counted.
    counted: Vec<bool>,
    keep: Vec<bool>,
    has: Vec<bool>,
    numbers: Vec<u32>,
}

/// The priority of a node.
pub(crate) fn priority(t: &Terms, n: u32) -> u32 {
    match t.graph.priorities().get(n as usize) {
        Some(priority) => *priority,
        None => 0,
    }
}

impl Regions {
    /// Nothing is computed yet.
    pub(crate) fn empty(alloc: Global) -> Regions {
        Regions {
            odds: Vec::new(alloc),
            rows: Vec::new(alloc),
            counted: Vec::new(alloc),
            keep: Vec::new(alloc),
            has: Vec::new(alloc),
            numbers: Vec::new(alloc),
        }
    }

    /// The components of a graph; counted are those with a closed walk that doesn't pass the priority.
    pub(crate) fn fill(&mut self, t: &Terms) -> Result<(), NoMemory> {
        more_flags(&mut self.keep, t.size as usize)?;
        self.counted.push(false)?;
        self.odds = t.graph.odd_priorities()?;
        let mut part = Part::empty(t.alloc);
        for place in 0..self.odds.len() {
            let odd = number(&self.odds, small(place));
            self.search(t, &mut part, odd)?;
        }
        Ok(())
    }

    /// The components of an odd priority.
    fn search(&mut self, t: &Terms, part: &mut Part, odd: u32) -> Result<(), NoMemory> {
        for n in 0..t.size {
            let keeps = number(&t.rank, n) != NONE && priority(t, n) >= odd;
            set_flag(&mut self.keep, n, keeps);
        }
        part.take(t.graph, &self.keep, true)?;
        self.mark(t, part, odd)?;
        let mut row = Vec::new(t.alloc);
        more_numbers(&mut row, t.size as usize, 0)?;
        self.enlist(t, part, &mut row)?;
        self.count_inner(t, part, odd, &row)?;
        self.rows.push(row)?;
        Ok(())
    }

    /// Marks parts with a closed walk through a node of the priority.
    fn mark(&mut self, t: &Terms, part: &Part, odd: u32) -> Result<(), NoMemory> {
        self.has.clear();
        self.numbers.clear();
        more_flags(&mut self.has, part.count())?;
        more_numbers(&mut self.numbers, part.count(), 0)?;
        for n in 0..t.size {
            if flag(&self.keep, n) && priority(t, n) == odd && part.is_on_cycle(n) {
                set_flag(&mut self.has, part.component(n), true);
            }
        }
        Ok(())
    }

    /// Numbers these parts, and writes which one each node is in.
    fn enlist(&mut self, t: &Terms, part: &Part, row: &mut [u32]) -> Result<(), NoMemory> {
        for n in 0..t.size {
            let at = part.component(n);
            if flag(&self.keep, n) && flag(&self.has, at) {
                if number(&self.numbers, at) == 0 {
                    put(&mut self.numbers, at, small(self.counted.len()));
                    self.counted.push(false)?;
                }
                put(row, n, number(&self.numbers, at));
            }
        }
        Ok(())
    }

    /// Counts where a closed walk doesn't pass the priority.
    fn count_inner(
        &mut self,
        t: &Terms,
        part: &mut Part,
        odd: u32,
        row: &[u32],
    ) -> Result<(), NoMemory> {
        for n in 0..t.size {
            let keeps = priority(t, n) > odd && number(row, n) != 0;
            set_flag(&mut self.keep, n, keeps);
        }
        part.take(t.graph, &self.keep, true)?;
        for n in 0..t.size {
            if flag(&self.keep, n) && part.is_on_cycle(n) {
                set_flag(&mut self.counted, number(row, n), true);
            }
        }
        Ok(())
    }

    /// The component of a node for the odd priority at a place; 0 for none.
    pub(crate) fn of(&self, place: usize, n: u32) -> u32 {
        match self.rows.get(place) {
            Some(row) if number(row, n) != NONE => number(row, n),
            _ => 0,
        }
    }

    /// Are passages of the odd priority at a place counted at a node?
    pub(crate) fn is_counted(&self, place: usize, n: u32) -> bool {
        flag(&self.counted, self.of(place, n))
    }

    /// Is the node in a component?
    pub(crate) fn has_threads(&self, n: u32) -> bool {
        (0..self.odds.len()).any(|place| self.of(place, n) != 0)
    }

    /// Is anything counted?
    pub(crate) fn counts(&self) -> bool {
        self.counted.iter().any(|counted| *counted)
    }

    /// Counts all components of a node; tells whether one wasn't counted.
    pub(crate) fn count(&mut self, n: u32) -> bool {
        let mut is_new = false;
        for place in 0..self.odds.len() {
            let component = self.of(place, n);
            if component != 0 && !flag(&self.counted, component) {
                set_flag(&mut self.counted, component, true);
                is_new = true;
            }
        }
        is_new
    }

    /// The state of the trace automaton of a node with the odd priority at a place.
    pub(crate) fn state(&self, n: u32, place: usize) -> u32 {
        let width = small(self.odds.len()).saturating_add(1);
        n.saturating_mul(width)
            .saturating_add(small(place))
            .saturating_add(1)
    }

    /// The state of a node with an odd priority; `NONE` where there is no such priority.
    pub(crate) fn state_of(&self, n: u32, odd: Option<u32>) -> u32 {
        match odd {
            Some(odd) => match self.odds.binary_search(&odd) {
                Ok(place) => self.state(n, place),
                Err(_) => NONE,
            },
            None => NONE,
        }
    }
}
