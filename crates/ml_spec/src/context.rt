// What is known behind the items that were read.
ghost use Rattle.std.specs.Prelude.{◌≡◌, [], true, false};
ghost use Rattle.ml_lists.specs.Member.{IsMember};
ghost use Rattle.ml_front.specs.declared.logic.Logic as declared;
ghost use Rattle.ml_spec.specs.Known.{IsDeclared};
ghost use Rattle.ml_spec.specs.private.Stages.{IsContextOf};

use crate::name::ItemName;
use crate::specification::Item;
use indexmap::{IndexMap, IndexSet};
use ml_base::Name;
use ml_front::{Definitions, Logic};
use std::alloc::Global;

/// As what a proposition is declared.
#[derive(Clone, Copy, Debug, PartialEq, Eq)]
pub enum Declared {
    /// A signal.
    Signal,
    /// The value of an enumeration, or what has a definition.
    Made,
}

// The items of the specification so far, and the definitions; or where the first item begins that means too large a formula,
// and then what was made before it.
#[derive(Drop)]
pub(crate) struct Meanings {
    pub definitions: Definitions,
    pub items: Vec<Item>,
    pub large: Option<usize>,
}

// What is known: the names of items, which propositions are declared, of which ones formulas speak, whether signals stand, and
// what the items mean.
#[derive(Drop)]
pub(crate) struct Context {
    pub names: IndexSet<ItemName>,
    pub declared: IndexMap<Name, Declared>,
    pub spoken: IndexSet<Name>,
    pub has_signals: bool,
    pub meanings: Meanings,
}

impl Context {
    // what is known in front of all items
    pub(crate) fn new(alloc: Global, logic: Logic) -> Context
        ensures { IsContextOf logic [] result }
    {
        Context {
            names: IndexSet::new(alloc),
            declared: IndexMap::new(alloc),
            spoken: IndexSet::new(alloc),
            has_signals: false,
            meanings: Meanings {
                definitions: Definitions::new(alloc, logic),
                items: Vec::new(alloc),
                large: None,
            },
        }
    }
}

// is the proposition declared?
pub(crate) fn is_declared(declared: &IndexMap<Name, Declared>, name: &Name) -> bool
    ensures there { result ≡ true → IsDeclared declared.now.entries name.now }
    ensures not_there { result ≡ false → ¬ (IsDeclared declared.now.entries name.now) }
{
    declared.contains_key(name)
}

// is it among these?
pub(crate) fn is_among(names: &IndexSet<Name>, name: &Name) -> bool
    ensures there { result ≡ true → IsMember name.now names.now.keys }
    ensures not_there { result ≡ false → ¬ (IsMember name.now names.now.keys) }
{
    names.contains(name)
}
