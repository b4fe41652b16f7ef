// The propositions of a graph that are true at a state.
ghost use Rattle.std.specs.Prelude.{ℕ, ◌≡◌, ◌<◌, ◌↔◌, ◌⊎◌, nat_eq, IfOk, OnOk, IsTrue};
ghost use Rattle.std.specs.Cmp.{partial_equiv_from_equiv};
ghost use Rattle.std.specs.Cmp.Lexicographic.{pointwise, nat_list_eq_equiv, bytes_decides};
ghost use Rattle.std.specs.Hash as fed;
ghost use Rattle.std.specs.Hash.{same_Alike};
ghost use Rattle.ml_lists.specs.Added.{IsAdded};
ghost use Rattle.ml_lists.specs.Member.{IsMember};
ghost use Rattle.ml_word_automaton.specs.Letters.{AreThoseIn};
ghost use Rattle.ml_paths.specs.Paths.{labels_at};

use indexmap::IndexSet;
use ml_base::{IdSet, NoMemory};
use ml_graph::ModalGraph;
use ml_kripke::Structure;
use std::alloc::Global;
use std::hash::{Hash, Hasher};
use std::marker::Model;

/// The propositions of a graph that are true at a state. Contracts see their numbers, ascending.
#[derive(Drop)]
pub(crate) struct Label {
    props: IdSet,
}

impl Model for Label {
    ghost use Rattle.std.specs.Prelude.{ℕ, List};

    ghost Value = { List ℕ };

    ghost view = { λ l. l.props };
}

impl Label {
    // the label with these propositions
    fn of(props: IdSet) -> Label
        ensures { result ≡ props }
    {
        Label { props }
    }

    /// Its propositions.
    pub(crate) fn props(&self) -> &IdSet
        ensures { result.now ≡ self.now }
    {
        &self.props
    }
}

impl PartialEq for Label {
    ghost eq = { pointwise nat_eq };

    ghost laws = { partial_equiv_from_equiv nat_list_eq_equiv };

    fn eq(&self, other: &Label) -> bool {
        self.props.values() == other.props.values()
    }
}

impl Eq for Label {
    ghost laws = { nat_list_eq_equiv };
}

impl Hash for Label {
    ghost hash_input = { fed.slice fed.u32 };

    ghost respects_eq = { (same_Alike (fed.slice fed.u32) bytes_decides).fed };

    fn hash<H: Hasher>(&self, state: &mut H) {
        self.props.values().hash(state);
    }
}

// puts a proposition into the set, if it is true
fn add_if(set: &mut IdSet, is_true: bool, prop: u32) -> Result<(), NoMemory>
    ensures { OnOk result ((p : ℕ) → IsMember p set.new ↔ (IsMember p set.old ⊎ ((p ≡ prop) × IsTrue is_true))) }
{
    if is_true {
        set.insert(prop)?;
    }
    Ok(())
}

// the propositions of the graph that are true at the state
fn present(
    alloc: Global,
    graph: &ModalGraph,
    structure: &Structure,
    state: u32,
) -> Result<IdSet, NoMemory>
    requires { state < structure.now.states }
    ensures { IfOk result (λ set. AreThoseIn graph.now (labels_at structure.now state) set) }
{
    let mut set = IdSet::new(alloc);
    for (prop, name) in graph.props().iter().enumerate() {
        // no memory holds more names than a number counts
        let Ok(number) = u32::try_from(prop) else {
            return Err(NoMemory);
        };
        add_if(&mut set, structure.has_label(state, name), number)?;
    }
    Ok(set)
}

/// The label of a state.
///
/// # Errors
/// `NoMemory` alone.
///
/// Cost: a look among the labels of the state for each proposition of the graph.
pub(crate) fn label_of(
    alloc: Global,
    graph: &ModalGraph,
    structure: &Structure,
    state: u32,
) -> Result<Label, NoMemory>
    requires { state < structure.now.states }
    ensures { IfOk result (λ l. AreThoseIn graph.now (labels_at structure.now state) l) }
{
    Ok(Label::of(present(alloc, graph, structure, state)?))
}

/// The number of a label, behind those before it unless it is there.
///
/// # Errors
/// `NoMemory` alone.
///
/// Cost: a hash of it.
pub(crate) fn number(labels: &mut IndexSet<Label>, label: Label) -> Result<usize, NoMemory>
    ensures { IfOk result (IsAdded labels.old.keys label labels.new.keys) }
{
    let (at, _) = labels.insert_full(label)?;
    Ok(at)
}
