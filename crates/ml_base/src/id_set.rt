// Finite sets of numbers.
ghost use Rattle.std.specs.Prelude.{◌≡◌, ◌↔◌, [], ◌++◌, IsTrue, IfOk, OnOk, OnErr};
ghost use Rattle.ml_lists.specs.Ascending.{IsAscending, ascending, insert_once};
ghost use Rattle.ml_lists.specs.Member.{IsMember};

use crate::no_memory::NoMemory;
use std::alloc::Global;
use std::cmp::Ordering;
use std::marker::Model;

/// A finite set of numbers, as they name states, nodes and propositions. Contracts see the strictly ascending list
/// of its members.
#[derive(Debug, Drop)]
pub struct IdSet {
    members: Vec<u32>,
}

impl Model for IdSet {
    ghost use Rattle.std.specs.Prelude.{List, ℕ};
    ghost use Rattle.ml_lists.specs.Ascending.{IsAscending};

    ghost Value = { List ℕ };

    ghost view = { λ set. set.members.items };

    ghost invariant = { λ set. IsAscending set.members.items };
}

impl IdSet {
    /// The empty set. It takes no memory, and keeps the allocator for what is put in later.
    pub fn new(alloc: Global) -> IdSet
        ensures { result ≡ [] }
    {
        IdSet {
            members: Vec::new(alloc),
        }
    }

    /// The set of numbers that ascend. It takes no memory.
    ///
    /// Cost: constant.
    pub fn from_ascending(members: Vec<u32>) -> IdSet
        requires { IsAscending members.items }
        ensures { result ≡ members.items }
    {
        IdSet { members }
    }

    /// Is this number in the set?
    ///
    /// Cost: logarithmic in the members.
    pub fn contains(&self, x: u32) -> bool
        ensures { IsTrue result ↔ IsMember x self.now }
    {
        self.members.binary_search(&x).is_ok()
    }

    /// The members, in ascending order.
    pub fn values(&self) -> &[u32]
        ensures value { result.now ≡ self.now }
        ensures ascends { IsAscending result.now }
    {
        self.members.as_slice()
    }

    /// An equal set.
    ///
    /// # Errors
    /// `NoMemory` alone.
    ///
    /// Cost: linear in the members.
    pub fn copy(&self) -> Result<IdSet, NoMemory>
        ensures { IfOk result (λ set. set ≡ self.now) }
    {
        Ok(IdSet {
            members: Vec::from_slice(*self.members.allocator(), self.values())?,
        })
    }

    /// Puts a number into the set, and says whether it is new. That `insert_once` is the set with the number is the
    /// law `inserted_is_the_set`.
    ///
    /// # Errors
    /// `NoMemory` alone; the set is then as it was.
    ///
    /// Cost: linear in the members behind it.
    pub fn insert(&mut self, x: u32) -> Result<bool, NoMemory>
        ensures is_new { IfOk result (λ is_new. IsTrue is_new ↔ ¬ (IsMember x self.old)) }
        ensures after { OnOk result (self.new ≡ insert_once x self.old) }
        ensures unchanged { OnErr result (self.new ≡ self.old) }
    {
        match self.members.binary_search(&x) {
            Ok(_) => Ok(false),
            Err(place) => {
                self.members.insert(place, x)?;
                Ok(true)
            }
        }
    }

    /// The numbers that are in one of the two sets, or in both. That `ascending` is the set of a list's members is the
    /// law `ascending_is_the_set`.
    ///
    /// # Errors
    /// `NoMemory` alone.
    ///
    /// Cost: linear in the members of both.
    pub fn union(&self, other: &IdSet) -> Result<IdSet, NoMemory>
        ensures { IfOk result (λ both. both ≡ ascending (self.now ++ other.now)) }
    {
        let alloc = *self.members.allocator();
        Ok(IdSet {
            members: merge(alloc, self.values(), other.values())?,
        })
    }
}

// two ascending lists as one
fn merge(alloc: Global, left: &[u32], right: &[u32]) -> Result<Vec<u32>, NoMemory>
    requires left { IsAscending left.now }
    requires right { IsAscending right.now }
    ensures value { IfOk result (λ both. both.items ≡ ascending (left.now ++ right.now)) }
    ensures ascends { IfOk result (λ both. IsAscending both.items) }
{
    let mut both = Vec::new(alloc);
    let (mut xs, mut ys) = (left, right);
    while let [x, more_xs @ ..] = xs {
        let [y, more_ys @ ..] = ys else {
            both.extend_from_slice(xs)?;
            return Ok(both);
        };
        match x.cmp(y) {
            Ordering::Less => {
                both.push(*x)?;
                xs = more_xs;
            }
            Ordering::Greater => {
                both.push(*y)?;
                ys = more_ys;
            }
            Ordering::Equal => {
                both.push(*x)?;
                xs = more_xs;
                ys = more_ys;
            }
        }
    }
    both.extend_from_slice(ys)?;
    Ok(both)
}
