// Items of a path by the numbers of their occurrences, and lists of them in the order of items.
ghost use Rattle.std.specs.Prelude.{◌≡◌, ◌++◌, IfOk, OnOk};
ghost use Rattle.ml_blocks.specs.private.Asked as numbered;
ghost use Rattle.ml_blocks.specs.private.ItemEquality.{items_eq, items_eq_equiv, items_writes};

use std::alloc::{AllocError, Global};
use std::hash::{Hash, Hasher};
use std::marker::Model;

// what is asked: that the formula at an occurrence be true, or false, now or at the next place
#[derive(Clone, Copy, Debug, PartialEq, Eq, Hash)]
pub(crate) struct Asked {
    pub number: u32,
    pub positive: bool,
    pub later: bool,
}

// one item or two
#[derive(Clone, Copy, Debug)]
pub(crate) enum Few {
    One(Asked),
    Two(Asked, Asked),
}

impl Asked {
    pub(crate) fn now(number: u32, positive: bool) -> Asked
        ensures { result ≡ numbered.now_at number positive }
    {
        Asked {
            number,
            positive,
            later: false,
        }
    }

    pub(crate) fn put_off(self) -> Asked
        ensures { result ≡ numbered.put_off_of self }
    {
        Asked {
            later: true,
            ..self
        }
    }

    pub(crate) fn due(self) -> Asked
        ensures { result ≡ numbered.due_of self }
    {
        Asked {
            later: false,
            ..self
        }
    }

    // its place in the order of items
    pub(crate) fn key(self) -> u64
        ensures { result ≡ numbered.key_of self }
    {
        let sign = if self.positive { 0 } else { 2 };
        let time = if self.later { 1 } else { 0 };
        4 * self.number as u64 + sign + time
    }
}

// behind `out` the items with one more
pub(crate) fn put_onto(out: &mut Vec<Asked>, x: Asked, items: &[Asked]) -> Result<(), AllocError>
    ensures { OnOk result (out.new.items ≡ out.old.items ++ numbered.put_in x items.now) }
{
    match items.split_first() {
        None => {
            out.push(x)?;
            Ok(())
        }
        Some((y, rest)) => {
            if x.key() < y.key() {
                out.push(x)?;
                out.extend_from_slice(items)?;
                Ok(())
            } else if x.key() == y.key() {
                out.extend_from_slice(items)?;
                Ok(())
            } else {
                out.push(*y)?;
                put_onto(out, x, rest)
            }
        }
    }
}

// the items with one more
pub(crate) fn put(alloc: Global, x: Asked, items: &[Asked]) -> Result<Vec<Asked>, AllocError>
    ensures { IfOk result (λ more. more.items ≡ numbered.put_in x items.now) }
{
    let mut more = Vec::with_capacity(alloc, items.len().saturating_add(1))?;
    put_onto(&mut more, x, items)?;
    Ok(more)
}

// the items with a few more
pub(crate) fn put_few(alloc: Global, few: Few, items: &[Asked]) -> Result<Vec<Asked>, AllocError>
    ensures { IfOk result (λ more. more.items ≡ numbered.put_few few items.now) }
{
    match few {
        Few::One(x) => put(alloc, x, items),
        Few::Two(x, y) => {
            let more = put(alloc, y, items)?;
            put(alloc, x, &more)
        }
    }
}

// the items without one
pub(crate) fn others(alloc: Global, x: Asked, items: &[Asked]) -> Result<Vec<Asked>, AllocError>
    ensures { IfOk result (λ rest. rest.items ≡ numbered.others x items.now) }
{
    items
        .iter()
        .copied()
        .filter(|y| y.key() != x.key())
        .collect(alloc)
}

// The items of a block. Contracts see the list.
#[derive(Drop)]
pub(crate) struct Items {
    list: Vec<Asked>,
}

impl Model for Items {
    ghost use Rattle.std.specs.Prelude.{List};
    ghost use Rattle.ml_blocks.specs.declared.items.Asked.{Asked};

    ghost Value = { List Asked };

    ghost view = { λ a. a.list.items };
}

impl Items {
    pub(crate) fn of(list: Vec<Asked>) -> Items
        ensures { result ≡ list.items }
    {
        Items { list }
    }

    pub(crate) fn values(&self) -> &[Asked]
        ensures { result.now ≡ self.now }
    {
        &self.list
    }
}

impl PartialEq for Items {
    ghost use Rattle.std.specs.Cmp.{partial_equiv_from_equiv};

    ghost eq = { items_eq };

    ghost laws = { partial_equiv_from_equiv items_eq_equiv };

    fn eq(&self, other: &Items) -> bool {
        self.list == other.list
    }
}

impl Eq for Items {
    ghost laws = { items_eq_equiv };
}

impl Hash for Items {
    ghost use Rattle.std.proofs.Common.{ap};
    ghost use Rattle.ml_blocks.specs.private.ItemEquality.{items_eq-same};

    ghost hash_input = { items_writes };

    ghost respects_eq = { λ c d e. ap items_writes (items_eq-same c d e) };

    fn hash<H: Hasher>(&self, state: &mut H) {
        self.list.hash(state);
    }
}
