// Positions in the order of their numbers, with their choices as links.
ghost use Rattle.std.specs.Prelude.{◌≡◌, ◌<◌, [], ◌∷◌, ◌++◌, None, IfOk, OnOk, get_or, length, map};
ghost use Rattle.ml_sequent.specs.Choice.{side_of, with_side};
ghost use Rattle.ml_product.specs.Placed.{nowhere, choice_at};
ghost use Rattle.ml_product.specs.private.Links.{placed, HasParent, IsLinked};

use crate::stored::{Link, Stored};
use ml_base::NoMemory;
use ml_sequent::{Choice, Side};
use std::alloc::Global;
use std::marker::Model;

/// Positions in the order of their numbers. Contracts see each with its choice.
#[derive(Drop)]
pub struct Store {
    all: Vec<Stored>,
}

impl Model for Store {
    ghost use Rattle.std.specs.Prelude.{List};
    ghost use Rattle.ml_product.specs.Placed.{Placed};
    ghost use Rattle.ml_product.specs.private.Links.{placed_all, AreLinked};

    ghost Value = { List Placed };

    ghost view = { λ a. placed_all a.all.items };

    ghost invariant = { λ a. AreLinked a.all.items };
}

impl Store {
    // no positions
    pub(crate) fn new(alloc: Global) -> Store
        ensures { result ≡ [] }
    {
        Store {
            all: Vec::new(alloc),
        }
    }

    // how many positions there are
    pub(crate) fn len(&self) -> usize
        ensures { result ≡ length self.now }
    {
        self.all.len()
    }

    // the positions as they are stored
    pub(crate) fn stored(&self) -> &[Stored]
        ensures { map (λ x. x.priority) result.now ≡ map (λ p. p.priority) self.now }
    {
        &self.all
    }

    // the position with a number, as it is stored
    pub(crate) fn at(&self, v: usize) -> &Stored
        requires { v < length self.now }
        ensures { IsLinked self.now v result.now }
    {
        &self.all[v]
    }

    // one position more
    fn push(&mut self, stored: Stored) -> Result<(), NoMemory>
        requires { HasParent self.old (length self.old) stored.link }
        ensures { OnOk result (self.new ≡ self.old ++ placed self.old stored ∷ []) }
    {
        self.all.push(stored)?;
        Ok(())
    }

    // a position without a choice more
    pub(crate) fn push_unchosen(
        &mut self,
        sequent: u32,
        history: u32,
        priority: u32,
    ) -> Result<(), NoMemory>
        ensures { OnOk result (self.new ≡ self.old
            ++ record { sequent = sequent; history = history; priority = priority; choice = [] } ∷ []) }
    {
        self.push(Stored {
            sequent,
            history,
            priority,
            link: Link::Unchosen,
        })
    }

    // the position with a side chosen at one node more
    pub(crate) fn push_chosen(
        &mut self,
        parent: u32,
        priority: u32,
        node: u32,
        side: Side,
    ) -> Result<(), NoMemory>
        requires number { parent < length self.old }
        requires unchosen { side_of (choice_at self.old parent) node ≡ None }
        ensures { OnOk result (self.new ≡ self.old ++ record {
          sequent = (get_or self.old parent nowhere).sequent;
          history = (get_or self.old parent nowhere).history;
          priority = priority;
          choice = with_side (choice_at self.old parent) node side;
        } ∷ []) }
    {
        let Stored {
            sequent,
            history,
            ..
        } = *self.at(parent as usize);
        self.push(Stored {
            sequent,
            history,
            priority,
            link: Link::Chosen { parent, node, side },
        })
    }

    // the choice of a position, read along its parents; past the end none
    pub(crate) fn choice(&self, v: u32) -> Result<Choice, NoMemory>
        ensures { IfOk result (λ choice. choice ≡ choice_at self.now v) }
    {
        if v as usize >= self.len() {
            return Ok(Choice::empty(self.alloc()));
        }
        match self.at(v as usize).link {
            Link::Unchosen => Ok(Choice::empty(self.alloc())),
            Link::Chosen { parent, node, side } => self.choice(parent)?.with(node, side),
        }
    }

    // where its memory is from
    fn alloc(&self) -> Global {
        *self.all.allocator()
    }
}
