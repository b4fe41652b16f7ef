// The propositions of a formula, and their numbers.
ghost use Rattle.std.specs.Prelude.{◌≡◌, ◌≢◌, ◌<◌, ◌^◌, ℕ, Some, slice_get, MatchOption, IfOk, OnOk, true, length};
ghost use Rattle.std.specs.List.{All};
ghost use Rattle.ml_base.specs.Name.{IsName};
ghost use Rattle.ml_ctl.specs.Sorts.{is_linear};
ghost use Rattle.ml_lists.specs.Added.{HasOnePlace};
ghost use Rattle.ml_translate.specs.Translation as plain;
ghost use Rattle.ml_translate.specs.private.Finding.{AreNumbers};

use indexmap::IndexSet;
use ml_base::{Name, NoMemory};
use ml_graph::ModalGraph;
use ml_nodes::Names;
use std::alloc::Global;

// the names of a formula's propositions, and of each proposition of its graph the number among them
#[derive(Drop)]
pub(crate) struct Propositions {
    pub names: Vec<Name>,
    pub numbers: Vec<Option<u32>>,
}

// the names, in order
fn copied(alloc: Global, props: &IndexSet<Name>) -> Result<Vec<Name>, NoMemory>
    ensures names { IfOk result (λ names. names.items ≡ props.now.keys) }
    ensures named { OnOk result (All IsName props.now.keys) }
{
    let mut names = Vec::with_capacity(alloc, props.len())?;
    for name in props.as_slice() {
        let _bytes = name.bytes();
        names.push(name.copy()?)?;
    }
    Ok(names)
}

// the number of a name
fn number(props: &IndexSet<Name>, name: &Name) -> Option<u32>
    requires { length props.now.keys < 2 ^ 32 }
    ensures { MatchOption result ((n : ℕ) → slice_get props.now.keys n ≢ Some name.now)
        (λ n. slice_get props.now.keys n ≡ Some name.now) }
{
    match props.get_index_of(name) {
        Some(at) => Some(at as u32),
        None => None,
    }
}

// the number of each proposition of the graph
fn numbered(
    alloc: Global,
    graph: &ModalGraph,
    props: &IndexSet<Name>,
) -> Result<Vec<Option<u32>>, NoMemory>
    requires few { length props.now.keys < 2 ^ 32 }
    requires once { HasOnePlace props.now.keys }
    ensures { IfOk result (λ numbers. AreNumbers graph.now props.now.keys numbers.items) }
{
    let names = graph.props();
    let mut numbers = Vec::with_capacity(alloc, names.len())?;
    for name in names {
        numbers.push(number(props, name))?;
    }
    Ok(numbers)
}

fn of_names(
    alloc: Global,
    props: &IndexSet<Name>,
    graph: &ModalGraph,
) -> Result<Propositions, NoMemory>
    requires few { length props.now.keys < 2 ^ 32 }
    requires once { HasOnePlace props.now.keys }
    ensures names { IfOk result (λ p. p.names.items ≡ props.now.keys) }
    ensures named { IfOk result (λ p. All IsName p.names.items) }
    ensures numbers { IfOk result (λ p. AreNumbers graph.now p.names.items p.numbers.items) }
{
    let names = copied(alloc, props)?;
    let numbers = numbered(alloc, graph, props)?;
    Ok(Propositions { names, numbers })
}

impl Propositions {
    // those of a formula, with the numbers of those of its graph
    pub(crate) fn of(
        alloc: Global,
        formula: &ml_ltl::Formula,
        graph: &ModalGraph,
    ) -> Result<Propositions, NoMemory>
        ensures names { IfOk result (λ p. p.names.items ≡ plain.props_of formula.now) }
        ensures named { IfOk result (λ p. All IsName p.names.items) }
        ensures few { IfOk result (λ p. length p.names.items < 2 ^ 32) }
        ensures linear { OnOk result (is_linear formula.now ≡ true) }
        ensures numbers { IfOk result (λ p. AreNumbers graph.now p.names.items p.numbers.items) }
    {
        let names = Names::of_paths(alloc, formula.root())?;
        of_names(alloc, &names.props, graph)
    }
}
