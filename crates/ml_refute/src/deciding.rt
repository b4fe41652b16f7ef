// Decisions at positions of a decision game that Odd wins, and the entries to which they lead.
ghost use Rattle.std.specs.Prelude.{◌≡◌, ◌<◌, ◌+◌, [], ◌∷◌, length, map, slice_get, IfOk, OnOk};
ghost use Rattle.ml_sequent.specs.Choice.{with_side};
ghost use Rattle.ml_sequent.specs.Spread.{IsSpreadOf, IsOpenOr};
ghost use Rattle.ml_refutation.specs.Views.{decision_of};
ghost use Rattle.ml_refute.specs.private.Found.{OddWins, IsWon, IsSpreadAt, IsTurnAt, AreNumbered, IsNumberOf, IsDecided, AreLooked, position_at};

use crate::lost_game::{LostGame, LostTurn};
use indexmap::IndexSet;
use ml_base::NoMemory;
use ml_refutation::Decision;
use ml_sequent::{Branch, Side};
use std::alloc::Global;

/// The decision at a position with the spread of this branch, with an entry for each position to which it leads. The
/// entries are the vertices, by their places. The branch is as before then.
///
/// # Errors
/// `NoMemory` alone.
///
/// Cost: that of a turn for each branch. The recursion is as deep as splits are nested.
#[cycle(deciding)]
fn decide(
    alloc: Global,
    game: &LostGame,
    branch: &mut Branch,
    vertices: &mut IndexSet<u32>,
    v: u32,
) -> Result<Decision, NoMemory>
    requires odd { OddWins game.now.graph.now game.now.arena.now game.now.solution.now }
    requires won { IsWon game.now.arena.now game.now.solution.now v }
    requires graph { branch.old.graph ≡ game.now.graph.now }
    requires sequent { branch.old.sequent ≡ (position_at game.now.graph.now game.now.arena.now v).sequent }
    requires spread { IsSpreadAt game.now.graph.now game.now.arena.now v branch.old.spread }
    requires numbered { AreNumbered game.now.graph.now game.now.arena.now game.now.solution.now vertices.old.keys }
    ensures same { OnOk result (branch.new ≡ branch.old) }
    ensures decided { IfOk result (λ d. IsDecided
        game.now.graph.now
        game.now.arena.now
        game.now.solution.now
        vertices.old.keys
        vertices.new.keys
        v
        (decision_of d)) }
{
    match game.turn_at(branch, v)? {
        LostTurn::Clash(cause) => Ok(Decision::Clash(cause)),
        LostTurn::Open(node) => {
            let (l, r) = game.sides_of(v, node);
            let left = decide_side(alloc, game, branch, vertices, node, Side::Left, l)?;
            let right = decide_side(alloc, game, branch, vertices, node, Side::Right, r)?;
            Ok(Decision::Split {
                node,
                left: Box::new(alloc, left)?,
                right: Box::new(alloc, right)?,
            })
        }
        LostTurn::Leave(diamond) => leave(game, vertices, v, diamond),
    }
}

/// The same with a side more on the branch, which leads to this position.
#[cycle(deciding)]
fn decide_side(
    alloc: Global,
    game: &LostGame,
    branch: &mut Branch,
    vertices: &mut IndexSet<u32>,
    node: u32,
    side: Side,
    w: u32,
) -> Result<Decision, NoMemory>
    requires odd { OddWins game.now.graph.now game.now.arena.now game.now.solution.now }
    requires won { IsWon game.now.arena.now game.now.solution.now w }
    requires graph { branch.old.graph ≡ game.now.graph.now }
    requires spread { IsSpreadOf branch.old.graph branch.old.sequent branch.old.spread.choice branch.old.spread }
    requires node { IsOpenOr branch.old.graph branch.old.spread node }
    requires sequent { branch.old.sequent ≡ (position_at game.now.graph.now game.now.arena.now w).sequent }
    requires choice { with_side branch.old.spread.choice node side
        ≡ (position_at game.now.graph.now game.now.arena.now w).choice }
    requires numbered { AreNumbered game.now.graph.now game.now.arena.now game.now.solution.now vertices.old.keys }
    ensures same { OnOk result (branch.new ≡ branch.old) }
    ensures decided { IfOk result (λ d. IsDecided
        game.now.graph.now
        game.now.arena.now
        game.now.solution.now
        vertices.old.keys
        vertices.new.keys
        w
        (decision_of d)) }
{
    branch.choose(node, side)?;
    let decision = decide(alloc, game, branch, vertices, w)?;
    branch.undo();
    Ok(decision)
}

/// The decision at a position without a choice.
fn decide_from(
    alloc: Global,
    game: &LostGame,
    branch: &mut Branch,
    vertices: &mut IndexSet<u32>,
    v: u32,
) -> Result<Decision, NoMemory>
    requires odd { OddWins game.now.graph.now game.now.arena.now game.now.solution.now }
    requires won { IsWon game.now.arena.now game.now.solution.now v }
    requires unchosen { (position_at game.now.graph.now game.now.arena.now v).choice ≡ [] }
    requires graph { branch.old.graph ≡ game.now.graph.now }
    requires numbered { AreNumbered game.now.graph.now game.now.arena.now game.now.solution.now vertices.old.keys }
    ensures graph { OnOk result (branch.new.graph ≡ branch.old.graph) }
    ensures decided { IfOk result (λ d. IsDecided
        game.now.graph.now
        game.now.arena.now
        game.now.solution.now
        vertices.old.keys
        vertices.new.keys
        v
        (decision_of d)) }
{
    begin_at(game, branch, v)?;
    decide(alloc, game, branch, vertices, v)
}

/// Begins at the sequent of a position without a choice.
fn begin_at(game: &LostGame, branch: &mut Branch, v: u32) -> Result<(), NoMemory>
    requires odd { OddWins game.now.graph.now game.now.arena.now game.now.solution.now }
    requires won { IsWon game.now.arena.now game.now.solution.now v }
    requires unchosen { (position_at game.now.graph.now game.now.arena.now v).choice ≡ [] }
    requires graph { branch.old.graph ≡ game.now.graph.now }
    ensures graph { branch.new.graph ≡ branch.old.graph }
    ensures sequent { OnOk result
        (branch.new.sequent ≡ (position_at game.now.graph.now game.now.arena.now v).sequent) }
    ensures spread { OnOk result (IsSpreadAt game.now.graph.now game.now.arena.now v branch.new.spread) }
{
    let position = game.arena.position(v);
    branch.begin(position.sequent.copy()?)
}

/// The decision to leave along Odd's choice, to the entry of the position to which it leads.
fn leave(
    game: &LostGame,
    vertices: &mut IndexSet<u32>,
    v: u32,
    diamond: u32,
) -> Result<Decision, NoMemory>
    requires odd { OddWins game.now.graph.now game.now.arena.now game.now.solution.now }
    requires won { IsWon game.now.arena.now game.now.solution.now v }
    requires numbered { AreNumbered game.now.graph.now game.now.arena.now game.now.solution.now vertices.old.keys }
    requires turn { IsTurnAt game.now.graph.now game.now.arena.now game.now.solution.now v (LostTurn.Leave diamond) }
    ensures { IfOk result (λ d. IsDecided
        game.now.graph.now
        game.now.arena.now
        game.now.solution.now
        vertices.old.keys
        vertices.new.keys
        v
        (decision_of d)) }
{
    let next = game.next_of(v);
    let entry = number_of(game, vertices, next)?;
    Ok(Decision::Go {
        diamond,
        entry,
        mark: game.mark_of(next),
    })
}

/// The entry of a position, a new one if there is none yet.
fn number_of(game: &LostGame, vertices: &mut IndexSet<u32>, v: u32) -> Result<u32, NoMemory>
    requires odd { OddWins game.now.graph.now game.now.arena.now game.now.solution.now }
    requires won { IsWon game.now.arena.now game.now.solution.now v }
    requires unchosen { (position_at game.now.graph.now game.now.arena.now v).choice ≡ [] }
    requires numbered { AreNumbered game.now.graph.now game.now.arena.now game.now.solution.now vertices.old.keys }
    ensures { IfOk result (IsNumberOf
        game.now.graph.now
        game.now.arena.now
        game.now.solution.now
        vertices.old.keys
        vertices.new.keys
        v) }
{
    let _size = game.arena.size();
    let (entry, _) = vertices.insert_full(v)?;
    Ok(entry as u32)
}

/// The vertices of the entries, and their decisions.
#[derive(Drop)]
pub(crate) struct Decided {
    pub vertices: IndexSet<u32>,
    pub decisions: Vec<Decision>,
}

impl Decided {
    /// The entries that are found from the start, each with its decision.
    ///
    /// # Errors
    /// `NoMemory` alone.
    ///
    /// Cost: that of all decisions.
    pub(crate) fn of(alloc: Global, game: &LostGame) -> Result<Decided, NoMemory>
        requires { OddWins game.now.graph.now game.now.arena.now game.now.solution.now }
        ensures looked { IfOk result (λ found. AreLooked
            game.now.graph.now
            game.now.arena.now
            game.now.solution.now
            found.vertices.keys
            (map decision_of found.decisions.items)) }
        ensures all { IfOk result (λ found. length found.decisions.items ≡ length found.vertices.keys) }
    {
        let mut found = Decided::start(alloc)?;
        found.look(alloc, game)?;
        Ok(found)
    }

    /// The entry of the start, without its decision.
    fn start(alloc: Global) -> Result<Decided, NoMemory>
        ensures vertices { IfOk result (λ found. found.vertices.keys ≡ 0 ∷ []) }
        ensures decisions { IfOk result (λ found. found.decisions.items ≡ []) }
    {
        let mut vertices = IndexSet::new(alloc);
        vertices.insert(0)?;
        Ok(Decided {
            vertices,
            decisions: Vec::new(alloc),
        })
    }

    /// Decides at each entry, also at those that are found meanwhile.
    fn look(&mut self, alloc: Global, game: &LostGame) -> Result<(), NoMemory>
        requires odd { OddWins game.now.graph.now game.now.arena.now game.now.solution.now }
        requires looked { AreLooked
            game.now.graph.now
            game.now.arena.now
            game.now.solution.now
            self.old.vertices.keys
            (map decision_of self.old.decisions.items) }
        ensures looked { OnOk result (AreLooked
            game.now.graph.now
            game.now.arena.now
            game.now.solution.now
            self.new.vertices.keys
            (map decision_of self.new.decisions.items)) }
        ensures all { OnOk result (length self.new.decisions.items ≡ length self.new.vertices.keys) }
    {
        let mut branch = Branch::new(alloc, game.graph)?;
        self.look_on(alloc, game, &mut branch)
    }

    /// The same by a branch of the game's graph.
    fn look_on(
        &mut self,
        alloc: Global,
        game: &LostGame,
        branch: &mut Branch,
    ) -> Result<(), NoMemory>
        requires odd { OddWins game.now.graph.now game.now.arena.now game.now.solution.now }
        requires graph { branch.old.graph ≡ game.now.graph.now }
        requires looked { AreLooked
            game.now.graph.now
            game.now.arena.now
            game.now.solution.now
            self.old.vertices.keys
            (map decision_of self.old.decisions.items) }
        ensures looked { OnOk result (AreLooked
            game.now.graph.now
            game.now.arena.now
            game.now.solution.now
            self.new.vertices.keys
            (map decision_of self.new.decisions.items)) }
        ensures all { OnOk result (length self.new.decisions.items ≡ length self.new.vertices.keys) }
    {
        let _size = game.arena.size();
        while self.decisions.len() < self.vertices.len() {
            self.look_at_next(alloc, game, branch)?;
        }
        Ok(())
    }

    /// Decides at the first entry that has no decision.
    fn look_at_next(
        &mut self,
        alloc: Global,
        game: &LostGame,
        branch: &mut Branch,
    ) -> Result<(), NoMemory>
        requires odd { OddWins game.now.graph.now game.now.arena.now game.now.solution.now }
        requires graph { branch.old.graph ≡ game.now.graph.now }
        requires some { length self.old.decisions.items < length self.old.vertices.keys }
        requires looked { AreLooked
            game.now.graph.now
            game.now.arena.now
            game.now.solution.now
            self.old.vertices.keys
            (map decision_of self.old.decisions.items) }
        ensures graph { OnOk result (branch.new.graph ≡ branch.old.graph) }
        ensures looked { OnOk result (AreLooked
            game.now.graph.now
            game.now.arena.now
            game.now.solution.now
            self.new.vertices.keys
            (map decision_of self.new.decisions.items)) }
        ensures one { OnOk result (length self.new.decisions.items ≡ length self.old.decisions.items + 1) }
    {
        let v = vertex_at(&self.vertices, self.decisions.len());
        let decision = decide_from(alloc, game, branch, &mut self.vertices, v)?;
        self.decisions.push(decision)?;
        Ok(())
    }
}

/// The vertex of an entry.
pub(crate) fn vertex_at(vertices: &IndexSet<u32>, entry: usize) -> u32
    requires { entry < length vertices.now.keys }
    ensures { slice_get vertices.now.keys entry ≡ Some result }
{
    vertices.as_slice()[entry]
}
