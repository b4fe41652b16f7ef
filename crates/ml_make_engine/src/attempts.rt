// Attempts in turn: with growing budgets, growing counters, for both sides, on each of their automata.
use crate::choosing::moves_of;
use crate::games::{CountingGame, Ended, Side, Signals};
use crate::merging::merged_by_trial;
use crate::moves::{Moves, merged};
use ml_base::NoMemory;
use ml_make_automata::{Counting, add_automata};
use ml_task::Task;
use std::alloc::Global;

/// The greatest counters that are tried.
const COUNTERS: [u8; 6] = [0, 1, 2, 4, 8, 16];

/// The first budget.
const FIRST: u32 = 64;

/// Nothing smaller is looked for, once there are so few states.
const FEW: usize = 4;

/// How many arcs are walked at most where states are merged by trial, in all and for each position of the limit.
const MOST_MERGING: u64 = 20_000_000;

const MERGING: u64 = 400;

/// An attempt to win for a side, on one of its automata, with counters up to some number.
#[derive(Clone, Copy)]
struct Attempt {
    side: Side,
    automaton: usize,
    most: u8,
    is_lost: bool,
}

/// What an attempt came to.
#[derive(Drop)]
enum Tried {
    /// These moves win.
    Won(Moves),
    Lost,
    GaveUp,
}

/// What was won.
#[derive(Drop)]
pub(crate) struct Won {
    pub side: Side,
    pub moves: Moves,
}

/// All attempts.
#[derive(Drop)]
pub(crate) struct Attempts {
    /// Of the negated formula, for machines.
    machine: Vec<Counting>,
    /// Of the formula, for environments.
    environment: Vec<Counting>,
    list: Vec<Attempt>,
    signals: Signals,
    limit: u32,
    best: Option<Won>,
    alloc: Global,
}

impl Attempts {
    /// No attempt.
    pub(crate) fn empty(alloc: Global, signals: Signals, limit: u32) -> Attempts {
        Attempts {
            machine: Vec::new(alloc),
            environment: Vec::new(alloc),
            list: Vec::new(alloc),
            signals,
            limit,
            best: None,
            alloc,
        }
    }

    /// The attempts at a task.
    pub(crate) fn fill(&mut self, task: &Task) -> Result<(), NoMemory> {
        add_automata(self.alloc, task, true, &mut self.machine)?;
        add_automata(self.alloc, task, false, &mut self.environment)?;
        let (machines, environments) = (self.machine.len(), self.environment.len());
        for most in COUNTERS {
            self.add_side(Side::Machine, machines, most)?;
            self.add_side(Side::Environment, environments, most)?;
        }
        Ok(())
    }

    fn add_side(&mut self, side: Side, automata: usize, most: u8) -> Result<(), NoMemory> {
        for automaton in 0..automata {
            self.list.push(Attempt {
                side,
                automaton,
                most,
                is_lost: false,
            })?;
        }
        Ok(())
    }

    /// Is an attempt needless: it was lost, or what is won already is another side's, or small?
    fn is_needless(&self, attempt: Attempt) -> bool {
        attempt.is_lost
            || match &self.best {
                Some(best) => best.side != attempt.side || best.moves.len() <= FEW,
                None => false,
            }
    }

    /// Keeps moves that were won, if they have the fewest states.
    fn keep(&mut self, side: Side, moves: Moves) {
        let is_smaller = match &self.best {
            Some(best) => moves.len() < best.moves.len(),
            None => true,
        };
        if is_smaller {
            self.best = Some(Won { side, moves });
        }
    }

    /// Makes an attempt.
    fn attempt(&self, attempt: Attempt, budget: u32) -> Result<Tried, NoMemory> {
        let automata = match attempt.side {
            Side::Machine => &self.machine,
            Side::Environment => &self.environment,
        };
        match automata.get(attempt.automaton) {
            Some(counting) => self.play(counting, attempt, budget),
            None => Ok(Tried::Lost),
        }
    }

    fn play(&self, counting: &Counting, attempt: Attempt, budget: u32) -> Result<Tried, NoMemory> {
        let mut game = CountingGame::new(
            self.alloc,
            counting,
            attempt.side,
            attempt.most,
            self.signals,
        );
        match game.play(budget)? {
            Ended::Won => {
                let moves = small_moves(self.alloc, counting, &mut game, self.work())?;
                Ok(Tried::Won(moves))
            }
            Ended::Lost => Ok(Tried::Lost),
            Ended::GaveUp => Ok(Tried::GaveUp),
        }
    }

    /// How many arcs are walked at most where states are merged by trial.
    fn work(&self) -> u64 {
        MOST_MERGING.min(MERGING.saturating_mul(u64::from(self.limit)))
    }

    /// Makes the attempt of a place in the list, and keeps what came of it.
    fn make(&mut self, place: usize, attempt: Attempt, budget: u32) -> Result<(), NoMemory> {
        match self.attempt(attempt, budget)? {
            Tried::Won(moves) => self.keep(attempt.side, moves),
            Tried::Lost => self.note_lost(place),
            Tried::GaveUp => {}
        }
        Ok(())
    }

    fn note_lost(&mut self, place: usize) {
        if let Some(attempt) = self.list.get_mut(place) {
            attempt.is_lost = true;
        }
    }

    /// Makes all attempts with a budget.
    fn round(&mut self, budget: u32) -> Result<(), NoMemory> {
        for place in 0..self.list.len() {
            let Some(attempt) = self.list.get(place).copied() else {
                break;
            };
            if !self.is_needless(attempt) {
                self.make(place, attempt, budget)?;
            }
        }
        Ok(())
    }

    /// Makes attempts with growing budgets, until something is won or the limit is passed.
    pub(crate) fn run(&mut self) -> Result<(), NoMemory> {
        let mut budget = FIRST.min(self.limit);
        // a budget has 32 bits, and each time two more of them are used
        for _ in 0..17 {
            self.round(budget)?;
            if self.best.is_some() || budget >= self.limit {
                break;
            }
            budget = budget.saturating_mul(4).min(self.limit);
        }
        Ok(())
    }

    /// What was won.
    pub(crate) fn best(&self) -> Option<&Won> {
        self.best.as_ref()
    }
}

/// The moves of a game that is won, with as few states as are found.
fn small_moves(
    alloc: Global,
    counting: &Counting,
    game: &mut CountingGame,
    work: u64,
) -> Result<Moves, NoMemory> {
    let chosen = moves_of(alloc, game)?;
    let moves = merged(alloc, &chosen)?;
    merged_by_trial(alloc, counting, moves, work)
}
