// The transitions of a letter, grouped by their sources.
ghost use Rattle.std.specs.Prelude.{◌≡◌, ◌++◌, ◌↔◌, Bool, IfOk, OnOk};
ghost use Rattle.ml_lists.specs.Member.{IsMember};
ghost use Rattle.ml_trace.specs.declared.letters.Transition.{Transition};
ghost use Rattle.ml_history.specs.private.Moves.{ends};
ghost use Rattle.ml_history.specs.private.TreeStep.{targets};

use ml_base::NoMemory;
use ml_trace::Transition;
use std::alloc::Global;
use std::marker::Model;

/// The transitions of a letter, those of one source together, so that the targets of a state are found without a look at
/// all transitions. Contracts see the list of the transitions.
#[derive(Drop)]
pub(crate) struct Moves {
    by_source: Vec<Transition>,
}

impl Model for Moves {
    ghost use Rattle.std.specs.Prelude.{List};
    ghost use Rattle.ml_trace.specs.declared.letters.Transition.{Transition};

    ghost Value = { List Transition };

    ghost use Rattle.ml_history.specs.private.Moves.{RiseBySource};

    ghost view = { λ m. m.by_source.items };

    ghost invariant = { λ m. RiseBySource m.by_source.items };
}

impl Moves {
    // The transitions of the letter. The cost is that of a sort of them.
    pub(crate) fn of(alloc: Global, letter: &[Transition]) -> Result<Moves, NoMemory>
        ensures { IfOk result (λ m. (t : Transition) → IsMember t m ↔ IsMember t letter.now) }
    {
        let mut by_source = Vec::from_slice(alloc, letter)?;
        by_source.sort_by_key(|t| t.from)?;
        Ok(Moves { by_source })
    }

    // The transitions from a state.
    fn leaving(&self, from: u32) -> &[Transition]
        ensures { (accepting : Bool) → ends accepting result.now ≡ targets self.now accepting from }
    {
        let rest = &self.by_source[self.by_source.partition_point(|t| t.from < from)..];
        &rest[..rest.partition_point(|t| t.from <= from)]
    }

    // Appends the states to which transitions lead from a state, accepting ones or others. The cost is logarithmic in all
    // transitions, and linear in those from the state.
    pub(crate) fn targets(
        &self,
        from: u32,
        accepting: bool,
        out: &mut Vec<u32>,
    ) -> Result<(), NoMemory>
        ensures { OnOk result (out.new.items ≡ out.old.items ++ targets self.now accepting from) }
    {
        push_ends(self.leaving(from), accepting, out)
    }
}

// Appends the targets of the transitions, of accepting ones or of others.
fn push_ends(
    transitions: &[Transition],
    accepting: bool,
    out: &mut Vec<u32>,
) -> Result<(), NoMemory>
    ensures { OnOk result (out.new.items ≡ out.old.items ++ ends accepting transitions.now) }
{
    for t in transitions {
        if t.accepting == accepting {
            out.push(t.to)?;
        }
    }
    Ok(())
}
