// Positions over shared parts: equal sequents are held once, and so are equal histories.
ghost use Rattle.std.specs.Prelude.{◌≡◌, ◌<◌, ◌^◌, [], length, get_or, slice_get, Some, None, IfOk, OnOk};
ghost use Rattle.ml_lists.specs.Added.{IsAdded};
ghost use Rattle.ml_lists.specs.Member.{IsMember};
ghost use Rattle.ml_sequent.specs.Choice.{side_of, with_side};
ghost use Rattle.ml_product.specs.Position.{Position};
ghost use Rattle.ml_product.specs.View.{viewed};
ghost use Rattle.ml_product.specs.Placed.{nowhere, choice_at};
ghost use Rattle.ml_product.specs.private.Links.{site_of, top_of};
ghost use Rattle.ml_product.specs.private.Numbers.{Leads};
ghost use Rattle.ml_product.specs.private.Shared.{AreWithin};
ghost use Rattle.ml_product.specs.private.Pools.{positions_of, position_of, beside, KeepsPool, IsLonger, IsInterned, IsEmptyPool};

use crate::numbers::{add, number_of};
use crate::store::Store;
use crate::stored::{Site, Top};
use crate::view::View;
use indexmap::IndexSet;
use ml_base::NoMemory;
use ml_history::History;
use ml_sequent::{Sequent, Side};
use std::alloc::Global;

/// Positions by their numbers, each once, and the sequents and histories that they share.
#[derive(Drop)]
pub(crate) struct Pool {
    sequents: IndexSet<Sequent>,
    histories: IndexSet<History>,
    positions: Store,
    // the positions without a choice, with their numbers
    tops: IndexSet<Top>,
    top_numbers: Vec<u32>,
}

/// A position without a choice that was made, before it has a number.
#[derive(Drop)]
pub(crate) struct Fresh {
    pub(crate) sequent: Sequent,
    pub(crate) history: History,
    pub(crate) priority: u32,
}

impl Pool {
    // no positions
    pub(crate) fn new(alloc: Global) -> Pool
        ensures { IsEmptyPool result }
    {
        Pool {
            sequents: IndexSet::new(alloc),
            histories: IndexSet::new(alloc),
            positions: Store::new(alloc),
            tops: IndexSet::new(alloc),
            top_numbers: Vec::new(alloc),
        }
    }

    // how many positions there are
    pub(crate) fn len(&self) -> usize
        ensures { result ≡ length self.now.positions }
    {
        self.positions.len()
    }

    // the positions in the order of their numbers
    pub(crate) fn positions(&self) -> &Store
        ensures { result.now ≡ self.now.positions }
    {
        &self.positions
    }

    // the position with a number
    pub(crate) fn view(&self, v: u32) -> View<'_>
        requires number { v < length self.now.positions }
        requires within { AreWithin self.now.sequents.keys self.now.histories.keys self.now.positions }
        ensures { slice_get (positions_of self.now) v ≡ Some (viewed result) }
    {
        let stored = self.positions.at(v as usize);
        View {
            sequent: &self.sequents.as_slice()[stored.sequent as usize],
            history: &self.histories.as_slice()[stored.history as usize],
            priority: stored.priority,
            positions: &self.positions,
            number: v,
        }
    }

    // the sequent and the history of a position, by their numbers
    pub(crate) fn site(&self, v: u32) -> Site
        requires { v < length self.now.positions }
        ensures { result ≡ site_of (get_or self.now.positions v nowhere) }
    {
        let stored = self.positions.at(v as usize);
        Site {
            sequent: stored.sequent,
            history: stored.history,
        }
    }

    // the number of a position that was made
    pub(crate) fn intern(&mut self, fresh: Fresh) -> Result<usize, NoMemory>
        requires pool { KeepsPool self.old }
        requires room { length self.old.positions < 2 ^ 32 }
        ensures { IfOk result (IsInterned self.old (position_of fresh) self.new) }
    {
        let sequent = add(&mut self.sequents, fresh.sequent)? as u32;
        let history = add(&mut self.histories, fresh.history)? as u32;
        self.intern_placed(sequent, history, fresh.priority)
    }

    // the number of a position without a choice
    fn intern_placed(
        &mut self,
        sequent: u32,
        history: u32,
        priority: u32,
    ) -> Result<usize, NoMemory>
        requires room { length self.old.positions < 2 ^ 32 }
        requires tops { Leads top_of self.old.positions self.old.tops.keys self.old.top_numbers.items }
        ensures sequents { OnOk result (self.new.sequents ≡ self.old.sequents) }
        ensures histories { OnOk result (self.new.histories ≡ self.old.histories) }
        ensures added { IfOk result (IsAdded self.old.positions
            (record { sequent = sequent; history = history; priority = priority; choice = [] }) self.new.positions) }
        ensures tops { OnOk result (Leads top_of self.new.positions self.new.tops.keys self.new.top_numbers.items) }
    {
        let next = self.positions.len();
        let top = Top {
            sequent,
            history,
            priority,
        };
        let number = number_of(&mut self.tops, &mut self.top_numbers, top, next as u32)? as usize;
        if number < next {
            return Ok(number);
        }
        self.positions.push_unchosen(sequent, history, priority)?;
        Ok(next)
    }

    // the number of the position with a side chosen at one node more, which is a new one
    pub(crate) fn add_chosen(
        &mut self,
        v: u32,
        priority: u32,
        node: u32,
        side: Side,
    ) -> Result<usize, NoMemory>
        requires pool { KeepsPool self.old }
        requires number { v < length self.old.positions }
        requires unchosen { side_of (choice_at self.old.positions v) node ≡ None }
        requires is_new { (p : Position) → slice_get (positions_of self.old) v ≡ Some p
            → ¬ (IsMember (beside p priority (with_side p.choice node side)) (positions_of self.old)) }
        ensures { IfOk result (λ w. (p : Position) → slice_get (positions_of self.old) v ≡ Some p
            → IsInterned self.old (beside p priority (with_side p.choice node side)) self.new w) }
    {
        let next = self.positions.len();
        self.positions.push_chosen(v, priority, node, side)?;
        Ok(next)
    }
}
