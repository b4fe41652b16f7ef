// What was read of a label between two parentheses.
ghost use Rattle.std.specs.Prelude.{◌≡◌, IfOk};
ghost use Rattle.ml_hoa.specs.Automaton as plain;
ghost use Rattle.ml_hoa.specs.AutomatonText.{joined};
ghost use Rattle.ml_hoa.specs.private.Machine.{level_guard, negated, no_level, with_literal, with_not, with_or, or_false};
ghost use Rattle.ml_hoa.specs.private.Views.{guard_in, guard_of, level_of};

use crate::guard::Guard;
use ml_base::NoMemory;
use std::alloc::Global;

// the operands of `|` before, those of `&`, and how many `!` stand before the next operand
#[derive(Drop)]
pub(crate) struct Level {
    pub ors: Option<Guard>,
    pub ands: Option<Guard>,
    pub nots: u32,
}

fn joined_and(alloc: Global, left: Option<Guard>, right: Guard) -> Result<Guard, NoMemory>
    ensures { IfOk result (λ g. guard_of g ≡ joined plain.And (guard_in left) (guard_of right)) }
{
    match left {
        None => Ok(right),
        Some(left) => {
            let left = Box::new(alloc, left)?;
            Ok(Guard::And(left, Box::new(alloc, right)?))
        }
    }
}

fn joined_or(alloc: Global, left: Option<Guard>, right: Guard) -> Result<Guard, NoMemory>
    ensures { IfOk result (λ g. guard_of g ≡ joined plain.Or (guard_in left) (guard_of right)) }
{
    match left {
        None => Ok(right),
        Some(left) => {
            let left = Box::new(alloc, left)?;
            Ok(Guard::Or(left, Box::new(alloc, right)?))
        }
    }
}

// the guard behind so many `!`
fn negated(alloc: Global, guard: Guard, nots: u32) -> Result<Guard, NoMemory>
    ensures { IfOk result (λ g. guard_of g ≡ negated nots (guard_of guard)) }
{
    let mut guard = guard;
    for done in 0..nots {
        guard = Guard::Not(Box::new(alloc, guard)?);
    }
    Ok(guard)
}

// where no operand was read, there is none to be asked for
fn or_false(guard: Option<Guard>) -> Guard
    ensures { guard_of result ≡ or_false (guard_in guard) }
{
    match guard {
        Some(guard) => guard,
        None => Guard::Const(false),
    }
}

impl Level {
    // nothing
    pub(crate) fn new() -> Level
        ensures { level_of result ≡ no_level }
    {
        Level {
            ors: None,
            ands: None,
            nots: 0,
        }
    }

    // behind an operand
    pub(crate) fn with_literal(self, alloc: Global, guard: Guard) -> Result<Level, NoMemory>
        ensures { IfOk result (λ l. level_of l ≡ with_literal (level_of self) (guard_of guard)) }
    {
        let Level { ors, ands, nots } = self;
        let guard = negated(alloc, guard, nots)?;
        Ok(Level {
            ors,
            ands: Some(joined_and(alloc, ands, guard)?),
            nots: 0,
        })
    }

    // the guard of all that was read
    pub(crate) fn guard(self, alloc: Global) -> Result<Guard, NoMemory>
        ensures { IfOk result (λ g. guard_of g ≡ level_guard (level_of self)) }
    {
        let Level { ors, ands, .. } = self;
        joined_or(alloc, ors, or_false(ands))
    }

    // behind a `!`; there are no more of them than operators, so their number always fits
    pub(crate) fn with_not(self) -> Result<Level, NoMemory>
        ensures { IfOk result (λ l. level_of l ≡ with_not (level_of self)) }
    {
        let Level { ors, ands, nots } = self;
        match nots.checked_add(1) {
            Some(nots) => Ok(Level { ors, ands, nots }),
            None => Err(NoMemory),
        }
    }

    // behind a `|`
    pub(crate) fn with_or(self, alloc: Global) -> Result<Level, NoMemory>
        ensures { IfOk result (λ l. level_of l ≡ with_or (level_of self)) }
    {
        Ok(Level {
            ors: Some(self.guard(alloc)?),
            ands: None,
            nots: 0,
        })
    }
}
