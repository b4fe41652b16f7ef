// The transitions of letters, those from one state together.
ghost use Rattle.std.specs.Prelude.{◌≡◌, ◌↔◌, ◌<◌, IfOk, get_or, length, []};
ghost use Rattle.ml_lists.specs.Member.{IsMember};
ghost use Rattle.ml_trace.specs.declared.letters.Transition.{Transition};
ghost use Rattle.ml_emptiness.specs.private.Leaving.{IsLeaving, AreSameLetters};

use ml_base::NoMemory;
use ml_trace::{Letter, Transition};
use std::alloc::Global;
use std::marker::Model;

/// The transitions of a letter by their sources. Contracts see the list of the transitions.
#[derive(Drop)]
pub(crate) struct BySource {
    transitions: Vec<Transition>,
}

impl Model for BySource {
    ghost use Rattle.std.specs.Prelude.{List};
    ghost use Rattle.ml_trace.specs.declared.letters.Transition.{Transition};
    ghost use Rattle.ml_emptiness.specs.private.Leaving.{RiseBySource};

    ghost Value = { List Transition };

    ghost view = { λ m. m.transitions.items };

    ghost invariant = { λ m. RiseBySource m.transitions.items };
}

impl BySource {
    // The transitions of the letter. The cost is that of a sort of them.
    fn of(alloc: Global, letter: &[Transition]) -> Result<BySource, NoMemory>
        ensures { IfOk result (λ m. (t : Transition) → IsMember t m ↔ IsMember t letter.now) }
    {
        let mut transitions = Vec::from_slice(alloc, letter)?;
        transitions.sort_by_key(|t| t.from)?;
        Ok(BySource { transitions })
    }

    // The transitions from a state. The cost is logarithmic in all of them.
    pub(crate) fn leaving(&self, from: u32) -> &[Transition]
        ensures { IsLeaving self.now from result.now }
    {
        let rest = &self.transitions[self.transitions.partition_point(|t| t.from < from)..];
        &rest[..rest.partition_point(|t| t.from <= from)]
    }
}

// The letters of a row, each by its sources.
pub(crate) fn by_source(alloc: Global, row: &[Letter]) -> Result<Vec<BySource>, NoMemory>
    ensures { IfOk result (λ all. AreSameLetters row.now all.items) }
{
    let mut all = Vec::with_capacity(alloc, row.len())?;
    for letter in row {
        all.push(BySource::of(alloc, letter.transitions())?)?;
    }
    Ok(all)
}
