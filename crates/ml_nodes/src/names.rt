// The names of a graph: its propositions and its actions, each once, in the order in which they come.
ghost use Rattle.std.specs.Prelude.{◌≡◌, ◌<◌, ◌^◌, ◌++◌, ◌∷◌, [], if◌then◌else◌, codes, length, position, unwrap_or, IfOk, OnOk, OnErr};
ghost use Rattle.std.specs.List.{list_any};
ghost use Rattle.ml_text.specs.NameLists.{with_name, place_of};

use indexmap::IndexSet;
use ml_base::{Action, Name, NoMemory};
use std::alloc::Global;
use std::hash::Hash;

/// The names of a graph.
#[derive(Drop)]
pub struct Names {
    pub props: IndexSet<Name>,
    pub actions: IndexSet<Action>,
}

// adds a key, unless it is there
fn add<T: Clone + Eq + Hash + Drop>(keys: &mut IndexSet<T>, key: &T) -> Result<(), NoMemory>
    requires { (a b : T) → T.is_clone a b → b ≡ a }
    ensures added { OnOk result (keys.new.keys
        ≡ (if list_any (T.eq key.now) keys.old.keys then keys.old.keys else keys.old.keys ++ key.now ∷ [])) }
    ensures kept { OnErr result (keys.new.keys ≡ keys.old.keys) }
{
    if keys.contains(key) {
        return Ok(());
    }
    keys.insert(key.clone()?)?;
    Ok(())
}

// the place of a key
fn place<T: Eq + Hash>(keys: &IndexSet<T>, key: &T) -> u32
    requires { length keys.now.keys < 2 ^ 32 }
    ensures { result ≡ unwrap_or (position (T.eq key.now) keys.now.keys) 0 }
{
    match keys.get_index_of(key) {
        Some(place) => place as u32,
        None => 0,
    }
}

/// Adds a proposition, unless it is there.
///
/// # Errors
/// `NoMemory` alone, and then `props` is as before.
///
/// Cost: the name's length, on average.
pub fn add_proposition(props: &mut IndexSet<Name>, name: &Name) -> Result<(), NoMemory>
    ensures added { OnOk result (props.new.keys ≡ with_name props.old.keys name.now) }
    ensures kept { OnErr result (props.new.keys ≡ props.old.keys) }
{
    add(props, name)
}

/// Adds an action, unless it is there.
///
/// # Errors
/// `NoMemory` alone, and then `actions` is as before.
///
/// Cost: the name's length, on average.
pub fn add_action(actions: &mut IndexSet<Action>, name: &Action) -> Result<(), NoMemory>
    ensures added { OnOk result (actions.new.keys ≡ with_name actions.old.keys name.now) }
    ensures kept { OnErr result (actions.new.keys ≡ actions.old.keys) }
{
    add(actions, name)
}

impl Names {
    /// The names of a graph with these propositions, whose only action is `_`.
    ///
    /// # Errors
    /// `NoMemory` alone.
    ///
    /// Cost: constant on average.
    pub fn with_blank(alloc: Global, props: IndexSet<Name>) -> Result<Names, NoMemory>
        ensures props { IfOk result (λ names. names.props.keys ≡ props.keys) }
        ensures actions { IfOk result (λ names. names.actions.keys ≡ codes "_" ∷ []) }
    {
        let blank = Action::blank(alloc)?;
        let mut actions = IndexSet::new(alloc);
        add_action(&mut actions, &blank)?;
        Ok(Names { props, actions })
    }

    /// The place of a proposition.
    ///
    /// Cost: the name's length, on average.
    pub fn proposition(&self, name: &Name) -> u32
        requires { length self.now.props.keys < 2 ^ 32 }
        ensures { result ≡ place_of self.now.props.keys name.now }
    {
        place(&self.props, name)
    }

    /// The place of an action.
    ///
    /// Cost: the name's length, on average.
    pub fn action(&self, name: &Action) -> u32
        requires { length self.now.actions.keys < 2 ^ 32 }
        ensures { result ≡ place_of self.now.actions.keys name.now }
    {
        place(&self.actions, name)
    }
}
