// In which order nodes are chosen: those that clashes needed often and of late come first.
use ml_arrays::{NONE, more_numbers, number, put, small};
use ml_base::NoMemory;
use std::alloc::Global;

/// By how much activity grows at first.
const GAIN: u64 = 1 << 10;

/// Above this all activities are made smaller.
const HIGH: u64 = 1 << 50;

/// How deep a heap of less than 2^32 nodes is at most.
const DEPTH: u32 = 32;

/// Activities of nodes, and some of the nodes in a heap: greatest activity first, then least rank.
///
/// Source: Eén and Sörensson, An extensible SAT-solver (2003), for the heap.
#[derive(Drop)]
pub(crate) struct Order {
    activity: Vec<u64>,
    gain: u64,
    heap: Vec<u32>,
    /// The place of each node in the heap, or `NONE`.
    places: Vec<u32>,
}

impl Order {
    /// No node, and there is no room.
    pub(crate) fn empty(alloc: Global) -> Order {
        Order {
            activity: Vec::new(alloc),
            gain: GAIN,
            heap: Vec::new(alloc),
            places: Vec::new(alloc),
        }
    }

    /// Makes room for so many nodes.
    pub(crate) fn fill(&mut self, size: usize) -> Result<(), NoMemory> {
        more_numbers(&mut self.places, size, NONE)?;
        for _ in self.activity.len()..size {
            self.activity.push(0)?;
        }
        Ok(())
    }

    /// Takes all nodes out; their activities stay.
    pub(crate) fn clear(&mut self) {
        for n in &self.heap {
            put(&mut self.places, *n, NONE);
        }
        self.heap.clear();
    }

    /// Puts a node in, if it isn't there.
    pub(crate) fn push(&mut self, ranks: &[u32], n: u32) -> Result<(), NoMemory> {
        if number(&self.places, n) == NONE {
            let place = small(self.heap.len());
            self.heap.push(n)?;
            put(&mut self.places, n, place);
            self.rise(ranks, place);
        }
        Ok(())
    }

    /// Takes out the node that comes first.
    pub(crate) fn pop(&mut self, ranks: &[u32]) -> Option<u32> {
        let last = self.heap.pop()?;
        put(&mut self.places, last, NONE);
        let Some(first) = self.heap.first().copied() else {
            return Some(last);
        };
        put(&mut self.places, first, NONE);
        self.stand(0, last);
        self.sink(ranks, 0);
        Some(first)
    }

    /// A node gains activity.
    pub(crate) fn raise(&mut self, ranks: &[u32], n: u32) {
        if let Some(activity) = self.activity.get_mut(n as usize) {
            *activity = activity.saturating_add(self.gain);
        }
        let place = number(&self.places, n);
        if place != NONE {
            self.rise(ranks, place);
        }
    }

    /// From now on more is gained.
    pub(crate) fn gain_more(&mut self, ranks: &[u32]) {
        self.gain = self.gain.saturating_add(self.gain / 19);
        if self.gain > HIGH {
            self.gain = GAIN;
            for activity in self.activity.iter_mut() {
                *activity /= HIGH / GAIN;
            }
            for place in (0..small(self.heap.len()) / 2).rev() {
                self.sink(ranks, place);
            }
        }
    }

    fn activity(&self, n: u32) -> u64 {
        match self.activity.get(n as usize) {
            Some(activity) => *activity,
            None => 0,
        }
    }

    fn is_before(&self, ranks: &[u32], n: u32, other: u32) -> bool {
        let (here, there) = (self.activity(n), self.activity(other));
        here > there || (here == there && number(ranks, n) < number(ranks, other))
    }

    /// A node stands at this place of the heap.
    fn stand(&mut self, place: u32, n: u32) {
        put(&mut self.heap, place, n);
        put(&mut self.places, n, place);
    }

    /// The node at a place goes up to where it belongs.
    fn rise(&mut self, ranks: &[u32], place: u32) {
        let n = number(&self.heap, place);
        let mut at = place;
        for _ in 0..DEPTH {
            let Some(below) = at.checked_sub(1) else {
                break;
            };
            let parent = number(&self.heap, below / 2);
            if !self.is_before(ranks, n, parent) {
                break;
            }
            self.stand(at, parent);
            at = below / 2;
        }
        self.stand(at, n);
    }

    /// The node at a place goes down to where it belongs.
    fn sink(&mut self, ranks: &[u32], place: u32) {
        let n = number(&self.heap, place);
        let mut at = place;
        for _ in 0..DEPTH {
            let (child, below) = self.first_child(ranks, at);
            if below == NONE || !self.is_before(ranks, below, n) {
                break;
            }
            self.stand(at, below);
            at = child;
        }
        self.stand(at, n);
    }

    /// The child of a place that comes first, with its place; `NONE` where there is none.
    fn first_child(&self, ranks: &[u32], place: u32) -> (u32, u32) {
        let left = place.saturating_mul(2).saturating_add(1);
        let right = left.saturating_add(1);
        let (one, other) = (number(&self.heap, left), number(&self.heap, right));
        if other != NONE && self.is_before(ranks, other, one) {
            (right, other)
        } else {
            (left, one)
        }
    }
}
