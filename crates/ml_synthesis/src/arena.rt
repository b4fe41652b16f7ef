// The realizability game over an automaton, as a parity game.
ghost use Rattle.std.specs.Prelude.{◌≡◌, ◌+◌, ◌*◌, ◌/◌, ◌%◌, ◌^◌, ◌<◌, ◌≤◌, ◌++◌, ◌∷◌, [], length, IfOk, OnOk};
ghost use Rattle.ml_parity.specs.Game.{IsGame, moves_of, size};
ghost use Rattle.ml_parity.specs.Refusal.{game_of};
ghost use Rattle.ml_determinise.specs.Numbering.{rows_of};
ghost use Rattle.ml_synthesis.specs.private.Arena.{AreMoves, AreArrivals, AreSets, IsAnswered, IsArena, IsDraft};
ghost use Rattle.ml_synthesis.specs.private.Arena.{begun, no_vertices};

use crate::arrival::Arrival;
use crate::numbering::arrival_number;
use indexmap::IndexSet;
use ml_base::NoMemory;
use ml_determinise::DetMove;
use ml_parity::{Game, Player};
use std::alloc::Global;

/// An automaton over valuations: its moves, how many sets of inputs there are, and of outputs, and the neutral
/// priority.
#[derive(Clone, Copy)]
pub(crate) struct Automaton<'a> {
    pub moves: &'a [Vec<DetMove>],
    pub input_sets: u32,
    pub output_sets: u32,
    pub neutral: u32,
}

impl Automaton<'_> {
    /// How many positions with inputs there are.
    pub(crate) fn known(&self) -> usize
        requires few { length self.now.moves.now ≤ 2 ^ 32 }
        requires few_sets { self.now.input_sets ≤ 256 }
        ensures { result ≡ length self.now.moves.now * self.now.input_sets }
    {
        self.moves.len() * self.input_sets as usize
    }
}

/// The game over an automaton. First come the positions with inputs, state by state; behind them, from `base` on, the
/// states with their priorities, numbered as they are met.
#[derive(Drop)]
pub(crate) struct Arena {
    pub game: Game,
    pub arrivals: IndexSet<Arrival>,
    pub base: usize,
    pub input_sets: u32,
}

/// The first vertices of a game.
#[derive(Drop)]
struct Draft {
    owner: Vec<Player>,
    priority: Vec<u32>,
    successors: Vec<Vec<u64>>,
}

impl Draft {
    /// Adds a vertex.
    fn add(&mut self, owner: Player, priority: u32, successors: Vec<u64>) -> Result<(), NoMemory>
        ensures owner { OnOk result (self.new.owner.items ≡ self.old.owner.items ++ owner ∷ []) }
        ensures priority { OnOk result (self.new.priority.items ≡ self.old.priority.items ++ priority ∷ []) }
        ensures successors { OnOk result (self.new.successors.items ≡ self.old.successors.items ++ successors ∷ []) }
    {
        self.owner.push(owner)?;
        self.priority.push(priority)?;
        self.successors.push(successors)?;
        Ok(())
    }
}

/// The positions to which the sets of outputs lead from a state with inputs.
fn answers(
    alloc: Global,
    automaton: &Automaton,
    arrivals: &mut IndexSet<Arrival>,
    base: usize,
    state: usize,
    ins: usize,
) -> Result<Vec<u64>, NoMemory>
    requires moves { AreMoves
        automaton.now.input_sets
        automaton.now.output_sets
        automaton.now.neutral
        (rows_of automaton.now.moves.now) }
    requires few { automaton.now.output_sets ≤ 256 }
    requires few_inputs { automaton.now.input_sets ≤ 256 }
    requires state { state < length automaton.now.moves.now }
    requires ins { ins < automaton.now.input_sets }
    requires base { base ≤ 2 ^ 40 }
    requires room { length arrivals.old.keys ≤ 2 ^ 62 }
    requires arrivals { AreArrivals
        automaton.now.input_sets
        automaton.now.output_sets
        automaton.now.neutral
        (rows_of automaton.now.moves.now)
        arrivals.old.keys }
    ensures { IfOk result (λ vertices. IsAnswered
        automaton.now.input_sets
        automaton.now.output_sets
        base
        automaton.now.neutral
        (rows_of automaton.now.moves.now)
        arrivals.old.keys
        state
        ins
        automaton.now.output_sets
        arrivals.new.keys
        vertices.items) }
{
    let row = &automaton.moves[state];
    let mut vertices = Vec::with_capacity(alloc, automaton.output_sets as usize)?;
    for outs in 0..automaton.output_sets as usize {
        let end = row[ins + automaton.input_sets as usize * outs];
        let arrival = Arrival {
            state: end.to,
            priority: end.priority,
        };
        vertices.push((base + arrival_number(arrivals, arrival)?) as u64)?;
    }
    Ok(vertices)
}

/// The positions to which the sets of inputs lead from a state.
fn with_inputs(alloc: Global, state: u32, sets: u32) -> Result<Vec<u64>, NoMemory>
    requires { sets ≤ 256 }
    ensures { IfOk result (λ vertices. AreSets sets state sets vertices.items) }
{
    let first = u64::from(state) * u64::from(sets);
    let mut vertices = Vec::with_capacity(alloc, sets as usize)?;
    for ins in 0..u64::from(sets) {
        vertices.push(first + ins)?;
    }
    Ok(vertices)
}

/// The start.
fn start(alloc: Global, neutral: u32) -> Result<IndexSet<Arrival>, NoMemory>
    ensures { IfOk result (λ arrivals. arrivals.keys ≡ begun neutral ∷ []) }
{
    let mut arrivals = IndexSet::new(alloc);
    arrivals.insert(Arrival {
        state: 0,
        priority: neutral,
    })?;
    Ok(arrivals)
}

/// Adds the positions with inputs, state by state.
fn add_known(
    alloc: Global,
    automaton: &Automaton,
    arrivals: &mut IndexSet<Arrival>,
    draft: &mut Draft,
    base: usize,
) -> Result<(), NoMemory>
    requires moves { AreMoves
        automaton.now.input_sets
        automaton.now.output_sets
        automaton.now.neutral
        (rows_of automaton.now.moves.now) }
    requires few { automaton.now.output_sets ≤ 256 }
    requires few_inputs { automaton.now.input_sets ≤ 256 }
    requires few_states { length automaton.now.moves.now ≤ 2 ^ 32 }
    requires base { base ≡ length automaton.now.moves.now * automaton.now.input_sets }
    requires starts { arrivals.old.keys ≡ begun automaton.now.neutral ∷ [] }
    requires nothing { game_of draft.old.owner draft.old.priority draft.old.successors ≡ no_vertices }
    ensures { OnOk result (IsDraft
        automaton.now.input_sets
        automaton.now.output_sets
        automaton.now.neutral
        (rows_of automaton.now.moves.now)
        arrivals.new.keys
        (game_of draft.new.owner draft.new.priority draft.new.successors)
        base) }
{
    let sets = automaton.input_sets as usize;
    for v in 0..base {
        let row = answers(alloc, automaton, arrivals, base, v / sets, v % sets)?;
        draft.add(Player::Even, automaton.neutral, row)?;
    }
    Ok(())
}

/// Adds the states with their priorities.
fn add_states(
    alloc: Global,
    automaton: &Automaton,
    arrivals: &IndexSet<Arrival>,
    draft: &mut Draft,
    base: usize,
) -> Result<(), NoMemory>
    requires few_inputs { automaton.now.input_sets ≤ 256 }
    requires base { base ≡ length automaton.now.moves.now * automaton.now.input_sets }
    requires draft { IsDraft
        automaton.now.input_sets
        automaton.now.output_sets
        automaton.now.neutral
        (rows_of automaton.now.moves.now)
        arrivals.now.keys
        (game_of draft.old.owner draft.old.priority draft.old.successors)
        base }
    ensures { OnOk result (IsArena
        automaton.now.input_sets
        automaton.now.output_sets
        automaton.now.neutral
        (rows_of automaton.now.moves.now)
        arrivals.now.keys
        (game_of draft.new.owner draft.new.priority draft.new.successors)) }
{
    for arrival in arrivals.as_slice() {
        let row = with_inputs(alloc, arrival.state, automaton.input_sets)?;
        draft.add(Player::Odd, arrival.priority, row)?;
    }
    Ok(())
}

/// The game of all vertices.
fn game(draft: Draft) -> Game
    requires { IsGame (game_of draft.owner draft.priority draft.successors) }
    ensures { result ≡ game_of draft.owner draft.priority draft.successors }
{
    match Game::build(draft.owner, draft.priority, draft.successors) {
        Ok(game) => game,
        Err(_) => unreachable!(),
    }
}

impl Arena {
    /// The game over an automaton.
    ///
    /// # Errors
    /// `NoMemory` alone.
    ///
    /// Cost: linear in the moves of the automaton, on average.
    pub(crate) fn of(alloc: Global, automaton: &Automaton) -> Result<Arena, NoMemory>
        requires moves { AreMoves
            automaton.now.input_sets
            automaton.now.output_sets
            automaton.now.neutral
            (rows_of automaton.now.moves.now) }
        requires few { automaton.now.output_sets ≤ 256 }
        requires few_inputs { automaton.now.input_sets ≤ 256 }
        requires few_states { length automaton.now.moves.now ≤ 2 ^ 32 }
        ensures arena { IfOk result (λ arena. IsArena
            automaton.now.input_sets
            automaton.now.output_sets
            automaton.now.neutral
            (rows_of automaton.now.moves.now)
            arena.arrivals.keys
            arena.game) }
        ensures base { IfOk result (λ arena. arena.base ≡ length automaton.now.moves.now * automaton.now.input_sets) }
        ensures sets { IfOk result (λ arena. arena.input_sets ≡ automaton.now.input_sets) }
    {
        let base = automaton.known();
        let mut arrivals = start(alloc, automaton.neutral)?;
        let mut draft = Draft {
            owner: Vec::new(alloc),
            priority: Vec::new(alloc),
            successors: Vec::new(alloc),
        };
        add_known(alloc, automaton, &mut arrivals, &mut draft, base)?;
        add_states(alloc, automaton, &arrivals, &mut draft, base)?;
        Ok(Arena {
            game: game(draft),
            arrivals,
            base,
            input_sets: automaton.input_sets,
        })
    }
}

/// Where a vertex leads.
pub(crate) fn moves_at(game: &Game, vertex: usize) -> &[u64]
    requires { vertex < size game.now }
    ensures { result.now ≡ moves_of game.now vertex }
{
    &game.successors[vertex]
}
