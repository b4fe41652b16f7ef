// The measurements: what they are called, what each makes, and how its time is told.
//
// `measure` makes what is measured, by the generators of `ml_tests`, and hands it to `solve_game`, to `count_heights`, or a
// row of steps of a history (`step_along`, `print_steps`). Each prints a line with numbers that depend on all of the input and
// of the answer, so that nothing is left out.
ghost use Rattle.std.specs.Prelude.{◌<◌};

use crate::counts::{highest, read_game, read_graph, read_letter, won_by_even};
use crate::failure::Failure;
use crate::forms::Form;
use ml_base::NoMemory;
use ml_history::History;
use ml_history::tree::TreeHistory;
use ml_parity::{EvenCycle, Game, Heights, OneSided, Solution, heights, solve};
use ml_progress::measures;
use ml_tests::{
    Numbers, chain, deep_letter, ladder, random_blocks, random_game, random_letter, slow_row,
};
use ml_trace::Letter;
use std::alloc::{AllocGlobal, Global};
use std::io::Print;
use std::rt::Clock;
use std::time::{Duration, Instant};

/// What is measured.
#[derive(Clone, Copy)]
pub(crate) enum Measurement {
    /// Solving a random game of so many vertices, three successors and eight priorities.
    Games,
    /// Solving a game of so many vertices that is deep.
    Ladder,
    /// Solving a random game of so many vertices, three successors and two priorities by least progress measures.
    Measures,
    /// Solving a random game of so many vertices, three successors and eight priorities by them.
    MeasuresEight,
    /// Solving a game that is deep by them.
    MeasuresLadder,
    /// A hundred steps of a history along random letters over so many states, with ten transitions a state; as flat
    /// arrays, and as trees.
    Histories,
    Trees,
    /// So many steps of a history, of which each makes the longest stack longer by one.
    Deep,
    DeepTrees,
    /// So many steps of the usual size in a game, of ten states along random letters of thirty transitions.
    Usual,
    UsualTrees,
    /// Heights of a chain of so many arcs.
    Chain,
    /// Heights of a random graph of so many vertices, as many arcs and 16 even priorities.
    Blocks,
    /// Heights of a graph of so many vertices, twice as many arcs and 16 even priorities, in which numbers have a long
    /// way round.
    Row,
    /// An even cycle of such a graph.
    Cycle,
}

impl Measurement {
    /// The measurement of this name.
    pub(crate) fn named(name: &str) -> Option<Measurement> {
        match name {
            "games" => Some(Measurement::Games),
            "ladder" => Some(Measurement::Ladder),
            "measures" => Some(Measurement::Measures),
            "measures-eight" => Some(Measurement::MeasuresEight),
            "measures-ladder" => Some(Measurement::MeasuresLadder),
            "histories" => Some(Measurement::Histories),
            "trees" => Some(Measurement::Trees),
            "deep" => Some(Measurement::Deep),
            "deep-trees" => Some(Measurement::DeepTrees),
            "usual" => Some(Measurement::Usual),
            "usual-trees" => Some(Measurement::UsualTrees),
            "chain" => Some(Measurement::Chain),
            "blocks" => Some(Measurement::Blocks),
            "row" => Some(Measurement::Row),
            "cycle" => Some(Measurement::Cycle),
            _ => None,
        }
    }
}

/// How often the shorter time goes into the longer one, in tenths.
fn tenths(whole: Duration, part: Duration) -> u64 {
    let whole = u64::try_from(whole.as_micros()).unwrap_or(u64::MAX);
    let part = u64::try_from(part.as_micros()).unwrap_or(u64::MAX);
    whole.saturating_mul(10) / part.max(1)
}

/// Prints a line, and how long the work took, if times are wanted.
fn print_time<R: Print>(
    rt: &R,
    is_timed: bool,
    read: Duration,
    work: Duration,
) -> Result<(), Failure> {
    if is_timed {
        let tenths = tenths(work, read);
        let whole = tenths / 10;
        let part = tenths % 10;
        let millis = work.as_millis();
        println!(rt; "  {whole}.{part} times a reading; {millis} ms")?;
    }
    Ok(())
}

/// What solves a game.
#[derive(Clone, Copy)]
enum Solver {
    Recursion,
    Measures,
}

/// The solution that a solver finds.
fn solved(alloc: Global, game: &Game, solver: Solver) -> Result<Solution, NoMemory> {
    match solver {
        Solver::Recursion => solve(alloc, game),
        Solver::Measures => Ok(measures(alloc, game)?.solution),
    }
}

/// The number that tells of all of a game, and how long it took.
fn timed_game<R: Clock>(rt: &R, game: &Game) -> Result<(u64, Duration), Failure> {
    let start = Instant::now(rt)?;
    let sum = read_game(game);
    Ok((sum, start.elapsed(rt)?))
}

/// The solution that a solver finds, and how long it took.
fn timed_solution<R: Clock + AllocGlobal>(
    rt: &R,
    game: &Game,
    solver: Solver,
) -> Result<(Solution, Duration), Failure> {
    let start = Instant::now(rt)?;
    let solution = solved(rt.alloc(), game, solver)?;
    Ok((solution, start.elapsed(rt)?))
}

/// Solves a game.
fn solve_game<R: Print + Clock + AllocGlobal>(
    rt: &R,
    game: &Game,
    solver: Solver,
    is_timed: bool,
) -> Result<(), Failure> {
    let (sum, read) = timed_game(rt, game)?;
    let (solution, work) = timed_solution(rt, game, solver)?;
    let size = game.size();
    let even = won_by_even(&solution);
    println!(rt; "{size} vertices, sum {sum}: Even wins {even}")?;
    print_time(rt, is_timed, read, work)
}

/// The number that tells of all of a graph, and how long it took.
fn timed_graph<R: Clock>(rt: &R, graph: &OneSided) -> Result<(u64, Duration), Failure> {
    let start = Instant::now(rt)?;
    let sum = read_graph(graph);
    Ok((sum, start.elapsed(rt)?))
}

/// The heights of a graph or its even cycle, and how long it took.
fn timed_heights<R: Clock + AllocGlobal>(
    rt: &R,
    graph: &OneSided,
) -> Result<(Result<Heights, EvenCycle>, Duration), Failure> {
    let start = Instant::now(rt)?;
    let answer = heights(rt.alloc(), graph)?;
    Ok((answer, start.elapsed(rt)?))
}

/// Counts heights.
fn count_heights<R: Print + Clock + AllocGlobal>(
    rt: &R,
    graph: &OneSided,
    is_timed: bool,
) -> Result<(), Failure> {
    let (sum, read) = timed_graph(rt, graph)?;
    let (answer, work) = timed_heights(rt, graph)?;
    let size = graph.size;
    match answer {
        Ok(heights) => {
            let highest = highest(&heights);
            println!(rt; "{size} vertices, sum {sum}: the greatest height is {highest}")?;
        }
        Err(cycle) => {
            let length = cycle.arcs.len();
            println!(rt; "{size} vertices, sum {sum}: a cycle of {length} arcs")?;
        }
    }
    print_time(rt, is_timed, read, work)
}

/// What the steps of a history took.
#[derive(Clone, Copy)]
struct Steps {
    /// The time for reading the letters once, and for the steps.
    read: Duration,
    work: Duration,
    /// A number that depends on all letters.
    sum: u64,
}

/// Steps along a letter.
fn step_along<R: Clock, F: Form + Drop>(
    rt: &R,
    history: &F,
    letter: &Letter,
    steps: &mut Steps,
) -> Result<F, Failure> {
    let start = Instant::now(rt)?;
    steps.sum = steps.sum.wrapping_add(read_letter(letter));
    steps.read = steps.read.saturating_add(start.elapsed(rt)?);
    let start = Instant::now(rt)?;
    let next = history.next(letter)?;
    steps.work = steps.work.saturating_add(start.elapsed(rt)?);
    Ok(next)
}

/// Prints what the steps led to.
fn print_steps<R: Print, F: Form + Drop>(
    rt: &R,
    history: &F,
    steps: Steps,
    is_timed: bool,
) -> Result<(), Failure> {
    let sum = steps.sum;
    let states = history.states()?;
    let names = history.names();
    println!(rt; "letters of sum {sum}: {states} states with {names} names")?;
    print_time(rt, is_timed, steps.read, steps.work)
}

const NO_STEPS: Steps = Steps {
    read: Duration::ZERO,
    work: Duration::ZERO,
    sum: 0,
};

/// So many steps along random letters over so many states, with so many transitions each.
fn step_random<R: Print + Clock + AllocGlobal, F: Form + Drop>(
    rt: &R,
    count: u32,
    states: u32,
    transitions: u64,
    is_timed: bool,
) -> Result<(), Failure> {
    let states = states.max(1);
    let mut numbers = Numbers::new(1);
    let mut steps = NO_STEPS;
    let mut history = F::start(rt.alloc())?;
    for _ in 0..count {
        let letter = random_letter(rt.alloc(), &mut numbers, states, transitions)?;
        history = step_along(rt, &history, &letter, &mut steps)?;
    }
    print_steps(rt, &history, steps, is_timed)
}

/// So many steps along the letter that makes stacks longer.
fn step_deeper<R: Print + Clock + AllocGlobal, F: Form + Drop>(
    rt: &R,
    size: u32,
    is_timed: bool,
) -> Result<(), Failure> {
    let letter = deep_letter(rt.alloc(), size)?;
    let mut steps = NO_STEPS;
    let mut history = F::start(rt.alloc())?;
    for _ in 0..size {
        history = step_along(rt, &history, &letter, &mut steps)?;
    }
    print_steps(rt, &history, steps, is_timed)
}

/// Steps along letters over so many states, with ten transitions a state.
fn step_wide<R: Print + Clock + AllocGlobal, F: Form + Drop>(
    rt: &R,
    size: u32,
    is_timed: bool,
) -> Result<(), Failure> {
    step_random::<R, F>(rt, 100, size, size as u64 * 10, is_timed)
}

/// So many steps of the usual size in a game.
fn step_usual<R: Print + Clock + AllocGlobal, F: Form + Drop>(
    rt: &R,
    size: u32,
    is_timed: bool,
) -> Result<(), Failure> {
    step_random::<R, F>(rt, size, 10, 30, is_timed)
}

/// Solves a random game of so many vertices and priorities.
fn solve_random<R: Print + Clock + AllocGlobal>(
    rt: &R,
    size: u32,
    priorities: u32,
    solver: Solver,
    is_timed: bool,
) -> Result<(), Failure>
    requires { 0 < priorities }
{
    let game = random_game(rt.alloc(), &mut Numbers::new(1), size as u64, 3, priorities)?;
    solve_game(rt, &game, solver, is_timed)
}

/// Solves a game that is deep.
fn solve_ladder<R: Print + Clock + AllocGlobal>(
    rt: &R,
    size: u32,
    solver: Solver,
    is_timed: bool,
) -> Result<(), Failure> {
    solve_game(rt, &ladder(rt.alloc(), size)?, solver, is_timed)
}

/// Counts heights of a chain.
fn count_chain<R: Print + Clock + AllocGlobal>(
    rt: &R,
    size: u32,
    is_timed: bool,
) -> Result<(), Failure> {
    count_heights(rt, &chain(rt.alloc(), size as u64)?, is_timed)
}

/// Counts heights of a random graph.
fn count_blocks<R: Print + Clock + AllocGlobal>(
    rt: &R,
    size: u32,
    is_timed: bool,
) -> Result<(), Failure> {
    let arcs = size as u64;
    let graph = random_blocks(rt.alloc(), &mut Numbers::new(1), arcs.max(1), arcs, 16)?;
    count_heights(rt, &graph, is_timed)
}

/// Counts heights where numbers have a long way round, or finds an even cycle.
fn count_row<R: Print + Clock + AllocGlobal>(
    rt: &R,
    size: u32,
    is_cyclic: bool,
    is_timed: bool,
) -> Result<(), Failure> {
    let graph = slow_row(rt.alloc(), size as u64, 16, is_cyclic)?;
    count_heights(rt, &graph, is_timed)
}

/// Makes what is measured, and measures it.
pub(crate) fn measure<R: Print + Clock + AllocGlobal>(
    rt: &R,
    measurement: Measurement,
    size: u32,
    is_timed: bool,
) -> Result<(), Failure> {
    match measurement {
        Measurement::Games => solve_random(rt, size, 8, Solver::Recursion, is_timed),
        Measurement::Ladder => solve_ladder(rt, size, Solver::Recursion, is_timed),
        Measurement::Measures => solve_random(rt, size, 2, Solver::Measures, is_timed),
        Measurement::MeasuresEight => solve_random(rt, size, 8, Solver::Measures, is_timed),
        Measurement::MeasuresLadder => solve_ladder(rt, size, Solver::Measures, is_timed),
        Measurement::Histories => step_wide::<R, History>(rt, size, is_timed),
        Measurement::Trees => step_wide::<R, TreeHistory>(rt, size, is_timed),
        Measurement::Deep => step_deeper::<R, History>(rt, size, is_timed),
        Measurement::DeepTrees => step_deeper::<R, TreeHistory>(rt, size, is_timed),
        Measurement::Usual => step_usual::<R, History>(rt, size, is_timed),
        Measurement::UsualTrees => step_usual::<R, TreeHistory>(rt, size, is_timed),
        Measurement::Chain => count_chain(rt, size, is_timed),
        Measurement::Blocks => count_blocks(rt, size, is_timed),
        Measurement::Row => count_row(rt, size, false, is_timed),
        Measurement::Cycle => count_row(rt, size, true, is_timed),
    }
}

/// Each measurement once at a small size, without times.
pub(crate) fn measure_small<R: Print + Clock + AllocGlobal>(rt: &R) -> Result<(), Failure> {
    let small = [
        (Measurement::Games, 1000),
        (Measurement::Ladder, 1000),
        (Measurement::Measures, 1000),
        (Measurement::MeasuresEight, 1000),
        (Measurement::MeasuresLadder, 10),
        (Measurement::Histories, 100),
        (Measurement::Trees, 100),
        (Measurement::Deep, 100),
        (Measurement::DeepTrees, 100),
        (Measurement::Usual, 100),
        (Measurement::UsualTrees, 100),
        (Measurement::Chain, 1000),
        (Measurement::Blocks, 1000),
        (Measurement::Row, 100),
        (Measurement::Cycle, 100),
    ];
    for (measurement, size) in small {
        measure(rt, measurement, size, false)?;
    }
    Ok(())
}
