// Moves chosen again among the positions of a game that is won: those that many others lie within come first, and those that
// are states already before all. So machines become small.
use crate::games::{CountingGame, Side};
use crate::moves::{Move, Moves, numbered};
use crate::positions::Positions;
use ml_arrays::{NONE, Numbering, more_numbers, number, put, small};
use ml_base::NoMemory;
use std::alloc::Global;

/// How many positions are put in order by how many lie within them.
const MOST_COMPARED: usize = 4_000;

/// How many comparisons of two positions are made.
const MOST_WORK: u64 = 50_000_000;

/// Where the targets of won positions are led.
#[derive(Drop)]
struct Choosing {
    /// The won positions, in order.
    order: Vec<u32>,
    /// The place of each position in the order, or `NONE`.
    place: Vec<u32>,
    states: Numbering,
    /// With how many of the states each position was compared, and the first one that it lies within.
    seen: Vec<u32>,
    known: Vec<u32>,
    /// The first position in the order that each one lies within.
    first: Vec<u32>,
}

/// Where a target is led: to a state, or else to a position by its place in the order.
#[derive(Clone, Copy)]
struct Lead {
    is_new: bool,
    place: u32,
    to: u32,
}

impl Lead {
    fn is_better(self, other: Lead) -> bool {
        if self.is_new == other.is_new {
            self.place < other.place
        } else {
            other.is_new
        }
    }
}

/// How many of the positions lie within each.
fn write_within(
    positions: &mut Positions,
    won: &[u32],
    counts: &mut Vec<(usize, u32)>,
) -> Result<(), NoMemory> {
    for greater in won {
        let mut count: usize = 0;
        if won.len() <= MOST_COMPARED {
            for lesser in won {
                if positions.is_within(*lesser, *greater) {
                    count = count.saturating_add(1);
                }
            }
        }
        // most come first
        counts.push((won.len().saturating_sub(count), *greater))?;
    }
    Ok(())
}

fn write_order(
    alloc: Global,
    positions: &mut Positions,
    won: &[u32],
    order: &mut Vec<u32>,
) -> Result<(), NoMemory> {
    let mut counts = Vec::with_capacity(alloc, won.len())?;
    write_within(positions, won, &mut counts)?;
    counts.sort_unstable();
    for (_, position) in &counts {
        order.push(*position)?;
    }
    Ok(())
}

impl Choosing {
    fn new(alloc: Global, order: Vec<u32>, count: usize) -> Result<Choosing, NoMemory> {
        let mut choosing = Choosing {
            order,
            place: Vec::new(alloc),
            states: Numbering::empty(alloc),
            seen: Vec::new(alloc),
            known: Vec::new(alloc),
            first: Vec::new(alloc),
        };
        choosing.fill(count)?;
        Ok(choosing)
    }

    fn fill(&mut self, count: usize) -> Result<(), NoMemory> {
        self.states.make_room(count)?;
        more_numbers(&mut self.place, count, NONE)?;
        more_numbers(&mut self.seen, count, 0)?;
        more_numbers(&mut self.known, count, NONE)?;
        more_numbers(&mut self.first, count, NONE)?;
        for (place, position) in self.order.iter().enumerate() {
            put(&mut self.place, *position, small(place));
        }
        Ok(())
    }

    /// The first state that a target lies within, or `NONE`.
    fn known_state(&mut self, positions: &mut Positions, target: u32) -> u32 {
        let known = number(&self.known, target);
        if known != NONE {
            return known;
        }
        let from = number(&self.seen, target);
        for place in from as usize..self.states.met().len() {
            let Some(state) = self.states.met().get(place).copied() else {
                break;
            };
            if positions.is_within(target, state) {
                put(&mut self.known, target, small(place));
                return small(place);
            }
        }
        put(&mut self.seen, target, small(self.states.met().len()));
        NONE
    }

    /// The first position in the order that a target lies within, or `NONE`.
    fn first_in_order(&mut self, positions: &mut Positions, target: u32) -> u32 {
        let first = number(&self.first, target);
        if first != NONE {
            return first;
        }
        for position in &self.order {
            if positions.is_within(target, *position) {
                put(&mut self.first, target, *position);
                return *position;
            }
        }
        NONE
    }

    /// Where a target is led.
    fn lead(&mut self, positions: &mut Positions, target: u32) -> Option<Lead> {
        if target == NONE {
            return None;
        }
        let state = self.known_state(positions, target);
        if state != NONE {
            return Some(Lead {
                is_new: false,
                place: state,
                to: number(self.states.met(), state),
            });
        }
        let to = self.first_in_order(positions, target);
        if to == NONE {
            return None;
        }
        Some(Lead {
            is_new: true,
            place: number(&self.place, to),
            to,
        })
    }

    /// The machine's best move for a set of inputs.
    fn best_move(&mut self, game: &mut CountingGame, position: u32, inputs: u32) -> Option<Move> {
        let mut best: Option<(Lead, Move)> = None;
        for outputs in 0..game.signals.outputs {
            let target = game.target(position, inputs, outputs);
            let Some(lead) = self.lead(&mut game.positions, target) else {
                continue;
            };
            let step = Move {
                letter: game.signals.letter(inputs, outputs),
                to: lead.to,
            };
            best = match best {
                Some(other) if !lead.is_better(other.0) => Some(other),
                _ => Some((lead, step)),
            };
        }
        match best {
            Some((_, step)) => Some(step),
            None => None,
        }
    }

    /// Writes the machine's moves from a position; tells whether there is one for each set of inputs.
    fn write_answers(
        &mut self,
        game: &mut CountingGame,
        position: u32,
        moves: &mut Vec<Move>,
    ) -> Result<bool, NoMemory> {
        for inputs in 0..game.signals.inputs {
            let Some(step) = self.best_move(game, position, inputs) else {
                return Ok(false);
            };
            moves.push(Move {
                letter: step.letter,
                to: self.states.number(step.to)?,
            })?;
        }
        Ok(true)
    }

    /// How many new states a set of inputs asks for; `None` where a target isn't led anywhere.
    fn count_new(
        &mut self,
        game: &mut CountingGame,
        position: u32,
        inputs: u32,
        new: &mut Vec<u32>,
    ) -> Result<Option<usize>, NoMemory> {
        new.clear();
        for outputs in 0..game.signals.outputs {
            let target = game.target(position, inputs, outputs);
            let Some(lead) = self.lead(&mut game.positions, target) else {
                return Ok(None);
            };
            if lead.is_new && !new.contains(&lead.to) {
                new.push(lead.to)?;
            }
        }
        Ok(Some(new.len()))
    }

    /// The environment's set of inputs that asks for fewest new states.
    fn best_inputs(
        &mut self,
        game: &mut CountingGame,
        position: u32,
        new: &mut Vec<u32>,
    ) -> Result<Option<u32>, NoMemory> {
        let mut best: Option<(usize, u32)> = None;
        for inputs in 0..game.signals.inputs {
            if let Some(count) = self.count_new(game, position, inputs, new)? {
                best = match best {
                    Some(other) if other.0 <= count => Some(other),
                    _ => Some((count, inputs)),
                };
            }
        }
        match best {
            Some((_, inputs)) => Ok(Some(inputs)),
            None => Ok(None),
        }
    }

    /// Writes the environment's moves from a position; tells whether it has some.
    fn write_plays(
        &mut self,
        game: &mut CountingGame,
        position: u32,
        inputs: u32,
        moves: &mut Vec<Move>,
    ) -> Result<bool, NoMemory> {
        for outputs in 0..game.signals.outputs {
            let target = game.target(position, inputs, outputs);
            let Some(lead) = self.lead(&mut game.positions, target) else {
                return Ok(false);
            };
            moves.push(Move {
                letter: game.signals.letter(inputs, outputs),
                to: self.states.number(lead.to)?,
            })?;
        }
        Ok(true)
    }

    fn write_row(
        &mut self,
        alloc: Global,
        game: &mut CountingGame,
        position: u32,
        moves: &mut Vec<Move>,
    ) -> Result<bool, NoMemory> {
        if game.side == Side::Machine {
            return self.write_answers(game, position, moves);
        }
        let mut new = Vec::new(alloc);
        match self.best_inputs(game, position, &mut new)? {
            Some(inputs) => self.write_plays(game, position, inputs, moves),
            None => Ok(false),
        }
    }

    /// Writes the moves from all states, as they are found; tells whether they all have some.
    fn write_rows(
        &mut self,
        alloc: Global,
        game: &mut CountingGame,
        rows: &mut Moves,
    ) -> Result<bool, NoMemory> {
        let first = self.first_in_order(&mut game.positions, 0);
        self.states.number(first)?;
        for place in 0..usize::MAX {
            let Some(position) = self.states.met().get(place).copied() else {
                break;
            };
            let mut moves = Vec::new(alloc);
            if !self.write_row(alloc, game, position, &mut moves)? || game.positions.is_spent() {
                return Ok(false);
            }
            rows.push(moves)?;
        }
        Ok(true)
    }
}

fn write_chosen(
    alloc: Global,
    game: &mut CountingGame,
    won: &[u32],
    rows: &mut Moves,
) -> Result<bool, NoMemory> {
    game.positions.allow(MOST_WORK);
    let mut order = Vec::with_capacity(alloc, won.len())?;
    write_order(alloc, &mut game.positions, won, &mut order)?;
    let count = game.positions.all.len();
    let mut choosing = Choosing::new(alloc, order, count)?;
    choosing.write_rows(alloc, game, rows)
}

/// Writes the moves that were chosen when the game was played.
fn write_played(alloc: Global, positions: &Positions, rows: &mut Moves) -> Result<(), NoMemory> {
    for position in &positions.all {
        rows.push(Vec::from_slice(alloc, &position.choice)?)?;
    }
    Ok(())
}

/// The moves of a game that is won, breadth first from the start.
pub(crate) fn moves_of(alloc: Global, game: &mut CountingGame) -> Result<Moves, NoMemory> {
    let won = Vec::from_slice(alloc, game.reached.list())?;
    let mut rows = Vec::new(alloc);
    if write_chosen(alloc, game, &won, &mut rows)? {
        return Ok(rows);
    }
    rows.clear();
    write_played(alloc, &game.positions, &mut rows)?;
    numbered(alloc, &rows, 0)
}
