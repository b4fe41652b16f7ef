// Which child is taken at an or-node.
ghost use Rattle.std.specs.Prelude.{◌≡◌, ◌≤◌, ◌⊎◌, ◌↔◌, ℕ, [], ◌∷◌, ◌++◌, None, Some, IsTrue, IfOk, OnErr, length, take, drop};
ghost use Rattle.ml_sequent.specs.declared.choice.Side.{Side};
ghost use Rattle.ml_sequent.specs.Choice.{IsChoice, side_of, with_side};
ghost use Rattle.ml_sequent.specs.private.Trails.{without};
ghost use Rattle.ml_sequent.specs.ChoiceEquality.{choice_eq, choice_eq_equiv, choice_writes};

use ml_base::NoMemory;
use std::alloc::Global;
use std::hash::{Hash, Hasher};
use std::marker::Model;

/// A side of an or-node.
#[derive(Clone, Copy, Debug, PartialEq, Eq, Hash)]
pub enum Side {
    Left,
    Right,
}

/// Which sides were chosen, at which or-nodes. Contracts see the list of pairs, ascending by nodes.
#[derive(Debug, Drop)]
pub struct Choice {
    pairs: Vec<(u32, Side)>,
}

impl Model for Choice {
    ghost use Rattle.std.specs.Prelude.{List, ℕ};
    ghost use Rattle.ml_sequent.specs.declared.choice.Side.{Side};
    ghost use Rattle.ml_sequent.specs.Choice.{IsChoice};

    ghost Value = { List (ℕ × Side) };

    ghost view = { λ a. a.pairs.items };

    ghost invariant = { λ a. IsChoice a.pairs.items };
}

impl Choice {
    /// The choice of no side. It takes no memory, and keeps the allocator for what is chosen later.
    pub fn empty(alloc: Global) -> Choice
        ensures { result ≡ [] }
    {
        Choice {
            pairs: Vec::new(alloc),
        }
    }

    /// Was nothing chosen?
    pub fn is_empty(&self) -> bool
        ensures { IsTrue result ↔ (self.now ≡ []) }
    {
        self.pairs.is_empty()
    }

    /// The side that was chosen at a node; `None` exactly where none was.
    ///
    /// Cost: logarithmic in the choice.
    pub fn side(&self, node: u32) -> Option<Side>
        ensures { result ≡ side_of self.now node }
    {
        side_at(&self.pairs, node)
    }

    /// The choice with a side at one node more, where none was chosen.
    ///
    /// # Errors
    /// `NoMemory` alone.
    ///
    /// Cost: linear in the choice.
    pub fn with(&self, node: u32, side: Side) -> Result<Choice, NoMemory>
        requires { side_of self.now node ≡ None }
        ensures { IfOk result (λ choice. choice ≡ with_side self.now node side) }
    {
        let pairs = with_pair(*self.pairs.allocator(), &self.pairs, node, side)?;
        Ok(Choice { pairs })
    }

    /// Takes a side at one node more, where none was chosen, and says where it stands.
    ///
    /// # Errors
    /// `NoMemory` alone; the choice is as before then.
    ///
    /// Cost: linear in the sides at greater nodes.
    pub(crate) fn take(&mut self, node: u32, side: Side) -> Result<usize, NoMemory>
        requires { side_of self.old node ≡ None }
        ensures taken { IfOk result (λ place. self.new ≡ with_side self.old node side) }
        ensures place { IfOk result (λ place. without place self.new ≡ self.old) }
        ensures same { OnErr result (self.new ≡ self.old) }
    {
        let place = place_behind(&self.pairs, node);
        self.pairs.insert(place, (node, side))?;
        Ok(place)
    }

    /// Takes the side at this place back, if one stands there, and says at which node.
    ///
    /// Cost: linear in the sides behind it.
    pub(crate) fn leave(&mut self, place: usize) -> Option<u32>
        ensures left { self.new ≡ without place self.old }
        ensures others { (n : ℕ) → side_of self.new n ≡ None → (side_of self.old n ≡ None) ⊎ (result ≡ Some n) }
    {
        if place < self.pairs.len() {
            let (node, _) = self.pairs.remove(place);
            Some(node)
        } else {
            None
        }
    }

    /// An equal choice.
    ///
    /// # Errors
    /// `NoMemory` alone.
    pub fn copy(&self) -> Result<Choice, NoMemory>
        ensures { IfOk result (λ choice. choice ≡ self.now) }
    {
        let pairs = Vec::from_slice(*self.pairs.allocator(), &self.pairs)?;
        Ok(Choice { pairs })
    }
}

/// Choices are equal if their lists are.
///
/// Cost: linear in the choices; no memory.
impl PartialEq for Choice {
    ghost use Rattle.std.specs.Cmp.{partial_equiv_from_equiv};

    ghost eq = { choice_eq };

    ghost laws = { partial_equiv_from_equiv choice_eq_equiv };

    fn eq(&self, other: &Choice) -> bool
        ensures value { result ≡ choice_eq self.now other.now }
        ensures exact { IsTrue result ↔ self.now ≡ other.now }
    {
        self.pairs == other.pairs
    }
}

impl Eq for Choice {
    ghost laws = { choice_eq_equiv };
}

impl Hash for Choice {
    ghost use Rattle.std.proofs.Common.{ap};
    ghost use Rattle.ml_sequent.specs.ChoiceEquality.{choice_eq-same};

    ghost hash_input = { choice_writes };

    ghost respects_eq = { λ c d e. ap choice_writes (choice_eq-same c d e) };

    fn hash<H: Hasher>(&self, state: &mut H) {
        self.pairs.hash(state);
    }
}

/// The side at a node, in a list of pairs that ascends.
fn side_at(pairs: &[(u32, Side)], node: u32) -> Option<Side>
    requires { IsChoice pairs.now }
    ensures { result ≡ side_of pairs.now node }
{
    match pairs.binary_search_by_key(&node, |pair| pair.0) {
        Ok(place) => Some(pairs[place].1),
        Err(_) => None,
    }
}

/// The pairs with one more, in the order of nodes.
fn with_pair(
    alloc: Global,
    pairs: &[(u32, Side)],
    node: u32,
    side: Side,
) -> Result<Vec<(u32, Side)>, NoMemory>
    requires { IsChoice pairs.now }
    ensures { IfOk result (λ longer. longer.items ≡ with_side pairs.now node side) }
{
    let place = place_behind(pairs, node);
    let mut longer = Vec::with_capacity(alloc, pairs.len() + 1)?;
    longer.extend_from_slice(&pairs[..place])?;
    longer.push((node, side))?;
    longer.extend_from_slice(&pairs[place..])?;
    Ok(longer)
}

/// How many pairs stand before the first one with a greater node, looked for from the last one on.
fn place_behind(pairs: &[(u32, Side)], node: u32) -> usize
    requires { IsChoice pairs.now }
    ensures within { result ≤ length pairs.now }
    ensures split { (side : Side) → with_side pairs.now node side ≡ take result pairs.now ++ (node, side) ∷ drop result pairs.now }
{
    let mut place = pairs.len();
    while place > 0 && node < pairs[place - 1].0 {
        place -= 1;
    }
    place
}
