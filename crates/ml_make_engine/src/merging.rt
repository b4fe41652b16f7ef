// States merged by trial: all ways to one state lead to another one, as long as no run counts for ever then.
use crate::moves::{Move, Moves, all_behind, moves_at, numbered};
use ml_arrays::{Components, Digraph, NONE, Numbering, number, small};
use ml_base::NoMemory;
use ml_make_automata::{Count, Counting};
use std::alloc::Global;

/// The pairs of a state of the moves and one of the automaton that are reached, and where they lead.
#[derive(Drop)]
struct Product<'a> {
    counting: &'a Counting,
    /// The pairs, by the places that they have among all.
    pairs: Numbering,
    /// Where they lead.
    edges: Digraph,
    /// Pairs with an arc of the automaton that counts on.
    counts: Vec<(u32, u32)>,
    /// How many arcs there are.
    arcs: u64,
    alloc: Global,
}

impl<'a> Product<'a> {
    fn new(alloc: Global, counting: &'a Counting) -> Product<'a> {
        Product {
            counting,
            pairs: Numbering::empty(alloc),
            edges: Digraph::empty(alloc),
            counts: Vec::new(alloc),
            arcs: 0,
            alloc,
        }
    }

    /// Room for the pairs of so many states, if that takes no more work than is left; tells whether there is room.
    fn make_room(&mut self, states: usize, left: u64) -> Result<bool, NoMemory> {
        let room = states.saturating_mul(self.counting.states);
        if room as u64 > left {
            return Ok(false);
        }
        self.pairs.make_room(room)?;
        Ok(true)
    }

    /// Forgets all pairs.
    fn clear(&mut self) {
        self.pairs.clear();
        self.edges.clear();
        self.counts.clear();
        self.arcs = 0;
    }

    /// The number of a pair of a state of the moves and one of the automaton.
    fn number(&mut self, at: u32, state: u32) -> Result<u32, NoMemory> {
        let place = (at as usize).saturating_mul(self.counting.states);
        self.pairs
            .number(small(place.saturating_add(state as usize)))
    }

    /// The pair of a number.
    fn pair(&self, number: u32) -> Option<(u32, u32)> {
        let place = *self.pairs.met().get(number as usize)?;
        let states = small(self.counting.states);
        Some((place.checked_div(states)?, place.checked_rem(states)?))
    }

    /// Writes where a pair leads by a move.
    fn write_targets(&mut self, pair: u32, state: u32, step: Move) -> Result<(), NoMemory> {
        let counting = self.counting;
        for arc in counting.arcs(counting.class(step.letter), state) {
            let to = self.number(step.to, arc.to)?;
            self.edges.push_target(to)?;
            self.arcs = self.arcs.saturating_add(1);
            if arc.count == Count::More {
                self.counts.push((pair, to))?;
            }
        }
        Ok(())
    }

    /// Looks at the next pair, if there is one.
    fn look_at_next(&mut self, moves: &[Vec<Move>]) -> Result<bool, NoMemory> {
        let pair = self.edges.size();
        let Some((at, state)) = self.pair(pair) else {
            return Ok(false);
        };
        for step in moves_at(moves, at) {
            self.write_targets(pair, state, *step)?;
        }
        self.edges.end_node()?;
        self.arcs = self.arcs.saturating_add(1);
        Ok(true)
    }

    fn fill(&mut self, moves: &[Vec<Move>]) -> Result<(), NoMemory> {
        self.clear();
        if self.counting.start == NONE {
            return Ok(());
        }
        let _ = self.number(0, self.counting.start)?;
        for _ in 0..u64::MAX {
            if !self.look_at_next(moves)? {
                break;
            }
        }
        Ok(())
    }

    /// Counts some run for ever?
    fn counts_for_ever(&self) -> Result<bool, NoMemory> {
        let components = Components::of_graph(self.alloc, &self.edges)?;
        for (from, to) in &self.counts {
            if number(&components.of, *from) == number(&components.of, *to) {
                return Ok(true);
            }
        }
        Ok(false)
    }
}

/// Moves that are merged as long as there is work left.
#[derive(Drop)]
struct Merging<'a> {
    product: Product<'a>,
    moves: Moves,
    left: u64,
    alloc: Global,
}

impl<'a> Merging<'a> {
    /// The moves where all ways to a state lead to another one.
    fn led(&self, from: u32, to: u32) -> Result<Moves, NoMemory> {
        let mut class = Vec::with_capacity(self.alloc, self.moves.len())?;
        for state in 0..small(self.moves.len()) {
            class.push(if state == from { to } else { state })?;
        }
        let led = all_behind(self.alloc, &self.moves, &class)?;
        numbered(self.alloc, &led, if from == 0 { to } else { 0 })
    }

    /// Counts no run of these moves for ever?
    fn is_good(&mut self, moves: &[Vec<Move>]) -> Result<bool, NoMemory> {
        self.product.fill(moves)?;
        self.left = self.left.saturating_sub(self.product.arcs);
        Ok(!self.product.counts_for_ever()?)
    }

    /// Leads the ways to a state to another one; tells whether that is good.
    fn try_to(&mut self, from: u32, to: u32) -> Result<bool, NoMemory> {
        let led = self.led(from, to)?;
        if !self.is_good(&led)? {
            return Ok(false);
        }
        self.moves = led;
        Ok(true)
    }

    fn merge_from(&mut self, from: u32) -> Result<bool, NoMemory> {
        for to in 0..small(self.moves.len()) {
            if from != to && self.left > 0 && self.try_to(from, to)? {
                return Ok(true);
            }
        }
        Ok(false)
    }

    /// Merges two states, the last one first; tells whether two were found.
    fn merge_two(&mut self) -> Result<bool, NoMemory> {
        for from in (0..small(self.moves.len())).rev() {
            if self.merge_from(from)? {
                return Ok(true);
            }
        }
        Ok(false)
    }

    fn merge_all(&mut self) -> Result<(), NoMemory> {
        if !self.product.make_room(self.moves.len(), self.left)? {
            return Ok(());
        }
        for _ in 0..self.moves.len() {
            if !self.merge_two()? {
                break;
            }
        }
        Ok(())
    }
}

/// The moves with states merged as long as that is good, and as long as `work` arcs suffice.
pub(crate) fn merged_by_trial(
    alloc: Global,
    counting: &Counting,
    moves: Moves,
    work: u64,
) -> Result<Moves, NoMemory> {
    let mut merging = Merging {
        product: Product::new(alloc, counting),
        moves,
        left: work,
        alloc,
    };
    merging.merge_all()?;
    Ok(merging.moves)
}
