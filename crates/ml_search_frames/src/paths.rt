// The path of sequents.
use ml_arrays::{NONE, number, signature, small, within};
use ml_base::NoMemory;
use ml_sequent_solver::Terms;
use std::alloc::Global;

/// A place of the path.
#[derive(Drop)]
pub(crate) struct Place {
    /// The sequent, ascending.
    pub nodes: Vec<u32>,
    signature: u64,
    /// The positive literals of the leaf that was taken.
    pub labels: Vec<u32>,
    /// Its threads, ascending, each with the place at which it began.
    since: Vec<(u32, u32)>,
}

/// The path.
#[derive(Drop)]
pub(crate) struct Path {
    pub places: Vec<Place>,
}

impl Path {
    /// No place.
    pub(crate) fn empty(alloc: Global) -> Path {
        Path {
            places: Vec::new(alloc),
        }
    }

    /// The sequent of the last place.
    pub(crate) fn last(&self) -> &[u32] {
        match self.places.last() {
            Some(place) => place.nodes.as_slice(),
            None => &[],
        }
    }

    /// The thread of the last place that began first; `NONE` without one.
    pub(crate) fn oldest(&self, t: &Terms) -> u32 {
        let mut oldest = NONE;
        let mut least = (NONE, NONE);
        let Some(place) = self.places.last() else {
            return NONE;
        };
        for (thread, since) in &place.since {
            let age = (*since, number(&t.rank, *thread));
            if age.0 < least.0 || (age.0 == least.0 && age.1 < least.1) || oldest == NONE {
                oldest = *thread;
                least = age;
            }
        }
        oldest
    }

    /// Begins with a sequent.
    pub(crate) fn begin(&mut self, t: &Terms, nodes: Vec<u32>) -> Result<(), NoMemory> {
        let _ = self.go(t, Vec::new(t.alloc), &[], nodes)?;
        Ok(())
    }

    /// Goes on to a sequent, with the positive literals here and the threads that go on, ascending; tells the place to which
    /// this is the way back, if a lasso closes.
    pub(crate) fn go(
        &mut self,
        t: &Terms,
        labels: Vec<u32>,
        on: &[u32],
        nodes: Vec<u32>,
    ) -> Result<Option<u32>, NoMemory> {
        let mut since = Vec::new(t.alloc);
        self.ages(t, on, &nodes, &mut since)?;
        if let Some(place) = self.places.last_mut() {
            place.labels = labels;
        }
        if let Some(back) = self.closes(&nodes, &since) {
            return Ok(Some(back));
        }
        self.places.push(Place {
            signature: signature(&nodes),
            nodes,
            labels: Vec::new(t.alloc),
            since,
        })?;
        Ok(None)
    }

    /// The threads of a next sequent, each with the place at which it began.
    fn ages(
        &self,
        t: &Terms,
        on: &[u32],
        nodes: &[u32],
        since: &mut Vec<(u32, u32)>,
    ) -> Result<(), NoMemory> {
        let here = small(self.places.len());
        for n in nodes {
            if t.component(*n) != 0 {
                let began = if on.binary_search(n).is_ok() {
                    self.began(*n)
                } else {
                    None
                };
                since.push((*n, began.unwrap_or(here)))?;
            }
        }
        Ok(())
    }

    /// Where a thread of the last place began.
    fn began(&self, thread: u32) -> Option<u32> {
        let since = &self.places.last()?.since;
        let place = since
            .binary_search_by_key(&thread, |(other, _)| *other)
            .ok()?;
        let (_, began) = since.get(place)?;
        Some(*began)
    }

    /// The last place within whose sequent these nodes lie, before each of their threads began.
    fn closes(&self, nodes: &[u32], since: &[(u32, u32)]) -> Option<u32> {
        let mut most = small(self.places.len());
        for (_, began) in since {
            most = most.min(*began);
        }
        let bits = signature(nodes);
        for i in 0..most {
            let j = most.saturating_sub(1).saturating_sub(i);
            if let Some(place) = self.places.get(j as usize) {
                if bits & !place.signature == 0 && within(nodes, &place.nodes) {
                    return Some(j);
                }
            }
        }
        None
    }
}
