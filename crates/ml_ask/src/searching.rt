// One search with all formulas at once, and more with those that clash.
//
// Nothing is claimed of what these searches find: a structure is checked, and the requirements of a clash are refuted by
// themselves. Before that they are made fewer: by searches with them alone, as long as these tell of fewer; and then without
// each of them in turn, the one with the longest formula first. A structure that is found without one is kept as a hint that
// it is needed.
ghost use Rattle.std.specs.Prelude.{ℕ, ◌≡◌, ◌<◌, true, length, IfOk, IfSome};
ghost use Rattle.ml_spec.specs.Questions.{is_in};
ghost use Rattle.ml_ask.specs.private.Steps.{AreProblemsOf, IsAsked, IsSought};

use crate::asked::Asked;
use crate::hints::Hints;
use crate::sets::left_out;
use crate::sought::{Sought, refuted_of, shown};
use ml_base::NoMemory;
use ml_front::{Logic, Problem, occurrences};
use ml_joined_graph::{Conjunct, JoinedFinding, search};
use ml_spec::{Item, Kind, Question};
use std::alloc::Global;

/// A structure for all requirements of which the question is asked, or some that have none, where one search with all formulas
/// leads there; then the hints are structures without some of these. In LTL of paths it never does: there each formula by
/// itself may have a path of its own.
///
/// # Errors
/// `NoMemory` alone.
///
/// Cost: that of the search; where formulas clash, of as many more as they have requirements and of one further at most, and of
/// `judge`, twice at most.
pub(crate) fn seek_at_once(
    alloc: Global,
    asked: Asked,
    problems: &[Problem],
    hints: &mut Hints,
) -> Result<Option<Sought>, NoMemory>
    requires asked { IsAsked asked }
    requires problems { AreProblemsOf asked problems.now }
    ensures { IfOk result (λ found. IfSome found (IsSought asked.entry)) }
{
    if asked.specification.logic == Logic::Ltl {
        return Ok(None);
    }
    match search_with(alloc, asked, asked.among)? {
        JoinedFinding::Structure(model) => shown(alloc, asked, problems, model),
        JoinedFinding::Clash(flags) => by_clash(alloc, asked, &flags, hints),
        JoinedFinding::Nothing => Ok(None),
    }
}

// by fewer formulas of a clash, or by all of them
fn by_clash(
    alloc: Global,
    asked: Asked,
    flags: &[bool],
    hints: &mut Hints,
) -> Result<Option<Sought>, NoMemory>
    requires { IsAsked asked }
    ensures { IfOk result (λ found. IfSome found (IsSought asked.entry)) }
{
    let clash = clashing(alloc, asked, asked.among, flags)?;
    let fewer = fewer_of(alloc, asked, &clash, hints)?;
    match refuted_of(alloc, asked, &fewer)? {
        Some(sought) => Ok(Some(sought)),
        None => {
            hints.clear();
            by_more(alloc, asked, &clash, &fewer)
        }
    }
}

// by the formulas of a clash, where they aren't those that were tried
fn by_more(
    alloc: Global,
    asked: Asked,
    clash: &[bool],
    tried: &[bool],
) -> Result<Option<Sought>, NoMemory>
    requires asked { IsAsked asked }
    requires told { length clash.now ≡ length asked.specification.now.items.items }
    requires among { (k : ℕ) → is_in clash.now k ≡ true → is_in asked.among.now k ≡ true }
    ensures { IfOk result (λ found. IfSome found (IsSought asked.entry)) }
{
    if clash == tried {
        Ok(None)
    } else {
        refuted_of(alloc, asked, clash)
    }
}

// as few requirements of a clash as searches tell of
fn fewer_of(
    alloc: Global,
    asked: Asked,
    clash: &[bool],
    hints: &mut Hints,
) -> Result<Vec<bool>, NoMemory>
    requires asked { IsAsked asked }
    requires told { length clash.now ≡ length asked.specification.now.items.items }
    ensures told { IfOk result (λ fewer. length fewer.items ≡ length clash.now) }
    ensures among { IfOk result (λ fewer. (k : ℕ) → is_in fewer.items k ≡ true → is_in clash.now k ≡ true) }
{
    let mut fewer = Vec::from_slice(alloc, clash)?;
    make_fewer(alloc, asked, &mut fewer, hints)?;
    Ok(fewer)
}

fn make_fewer(
    alloc: Global,
    asked: Asked,
    clash: &mut Vec<bool>,
    hints: &mut Hints,
) -> Result<(), NoMemory>
    requires asked { IsAsked asked }
    requires told { length clash.old.items ≡ length asked.specification.now.items.items }
    ensures told { length clash.new.items ≡ length clash.old.items }
    ensures among { (k : ℕ) → is_in clash.new.items k ≡ true → is_in clash.old.items k ≡ true }
{
    search_again(alloc, asked, clash)?;
    leave_out(alloc, asked, clash, hints)
}

// searches with those that clash alone, as long as fewer of them are told
fn search_again(alloc: Global, asked: Asked, clash: &mut Vec<bool>) -> Result<(), NoMemory>
    requires asked { IsAsked asked }
    requires told { length clash.old.items ≡ length asked.specification.now.items.items }
    ensures told { length clash.new.items ≡ length clash.old.items }
    ensures among { (k : ℕ) → is_in clash.new.items k ≡ true → is_in clash.old.items k ≡ true }
{
    for _ in 0..asked.among.len() {
        match fewer_told(alloc, asked, clash)? {
            Some(fewer) => *clash = fewer,
            None => return Ok(()),
        }
    }
    Ok(())
}

// those of these that clash, where they aren't all
fn fewer_told(alloc: Global, asked: Asked, within: &[bool]) -> Result<Option<Vec<bool>>, NoMemory>
    requires asked { IsAsked asked }
    requires told { length within.now ≡ length asked.specification.now.items.items }
    ensures told { IfOk result (λ found. IfSome found (λ fewer. length fewer.items ≡ length within.now)) }
    ensures among { IfOk result (λ found. IfSome found
        (λ fewer. (k : ℕ) → is_in fewer.items k ≡ true → is_in within.now k ≡ true)) }
{
    match search_with(alloc, asked, within)? {
        JoinedFinding::Clash(flags) => fewer_flagged(alloc, asked, within, &flags),
        JoinedFinding::Structure(_) | JoinedFinding::Nothing => Ok(None),
    }
}

fn fewer_flagged(
    alloc: Global,
    asked: Asked,
    within: &[bool],
    flags: &[bool],
) -> Result<Option<Vec<bool>>, NoMemory>
    requires { length within.now ≡ length asked.specification.now.items.items }
    ensures told { IfOk result (λ found. IfSome found (λ fewer. length fewer.items ≡ length within.now)) }
    ensures among { IfOk result (λ found. IfSome found
        (λ fewer. (k : ℕ) → is_in fewer.items k ≡ true → is_in within.now k ≡ true)) }
{
    let clash = clashing(alloc, asked, within, flags)?;
    if clash.as_slice() == within {
        Ok(None)
    } else {
        Ok(Some(clash))
    }
}

// leaves out each requirement in turn, where the others clash
fn leave_out(
    alloc: Global,
    asked: Asked,
    clash: &mut Vec<bool>,
    hints: &mut Hints,
) -> Result<(), NoMemory>
    requires asked { IsAsked asked }
    requires told { length clash.old.items ≡ length asked.specification.now.items.items }
    ensures told { length clash.new.items ≡ length clash.old.items }
    ensures among { (k : ℕ) → is_in clash.new.items k ≡ true → is_in clash.old.items k ≡ true }
{
    let mut untried = Vec::from_slice(alloc, clash)?;
    for _ in 0..asked.among.len() {
        match longest(asked, clash, &untried) {
            Some(number) => {
                untried[number] = false;
                leave_one(alloc, asked, clash, number, hints)?;
            }
            None => return Ok(()),
        }
    }
    Ok(())
}

// the requirement with the longest formula of those that clash and weren't tried
fn longest(asked: Asked, clash: &[bool], untried: &[bool]) -> Option<usize>
    requires clash { length clash.now ≡ length asked.specification.now.items.items }
    requires untried { length untried.now ≡ length asked.specification.now.items.items }
    ensures { IfSome result (λ n. n < length asked.entry.specification.now.items.items) }
{
    let mut longest = None;
    let mut size = 0;
    for number in 0..asked.specification.items.len() {
        let item = &asked.specification.items[number];
        if clash[number] && untried[number] && item.kind.is_requirement() {
            let own = occurrences(&item.formula);
            if own > size {
                longest = Some(number);
                size = own;
            }
        }
    }
    longest
}

// leaves out one, where the others clash; a structure for the others is kept as a hint
fn leave_one(
    alloc: Global,
    asked: Asked,
    clash: &mut Vec<bool>,
    number: usize,
    hints: &mut Hints,
) -> Result<(), NoMemory>
    requires asked { IsAsked asked }
    requires told { length clash.old.items ≡ length asked.specification.now.items.items }
    requires number { number < length asked.specification.now.items.items }
    ensures told { length clash.new.items ≡ length clash.old.items }
    ensures among { (k : ℕ) → is_in clash.new.items k ≡ true → is_in clash.old.items k ≡ true }
{
    let rest = left_out(alloc, clash, number)?;
    match search_with(alloc, asked, &rest)? {
        JoinedFinding::Clash(flags) => {
            *clash = clashing(alloc, asked, &rest, &flags)?;
            Ok(())
        }
        JoinedFinding::Structure(model) => hints.keep(number, model),
        JoinedFinding::Nothing => Ok(()),
    }
}

// a search with these requirements and what the question asks for
fn search_with(alloc: Global, asked: Asked, taken: &[bool]) -> Result<JoinedFinding, NoMemory>
    requires asked { IsAsked asked }
    requires told { length taken.now ≡ length asked.specification.now.items.items }
{
    let conjuncts = conjuncts_of(alloc, asked, taken)?;
    search(alloc, &conjuncts, asked.limit)
}

// the formulas of a search: first what the question asks for, and then the requirements
fn conjuncts_of<'a>(
    alloc: Global,
    asked: Asked<'a>,
    taken: &[bool],
) -> Result<Vec<Conjunct<'a>>, NoMemory>
    requires asked { IsAsked asked }
    requires told { length taken.now ≡ length asked.specification.now.items.items }
{
    let items = asked.specification.items.as_slice();
    let mut conjuncts = Vec::new(alloc);
    if let Question::Asks(number) = asked.question {
        conjuncts.push(conjunct_of(&items[number]))?;
    }
    for number in 0..items.len() {
        let item = &items[number];
        if taken[number] && item.kind.is_requirement() {
            conjuncts.push(conjunct_of(item))?;
        }
    }
    Ok(conjuncts)
}

fn conjunct_of(item: &Item) -> Conjunct {
    Conjunct {
        formula: &item.formula,
        negated: item.kind == Kind::Follows,
    }
}

// the requirements of a search whose formulas are flagged
fn clashing(
    alloc: Global,
    asked: Asked,
    within: &[bool],
    flags: &[bool],
) -> Result<Vec<bool>, NoMemory>
    requires { length within.now ≡ length asked.specification.now.items.items }
    ensures told { IfOk result (λ clash. length clash.items ≡ length within.now) }
    ensures among { IfOk result (λ clash. (k : ℕ) → is_in clash.items k ≡ true → is_in within.now k ≡ true) }
{
    let mut clash = Vec::from_slice(alloc, within)?;
    let mut place: usize = match asked.question {
        Question::Asks(_) => 1,
        Question::Consistent | Question::Rest => 0,
    };
    for number in 0..within.len() {
        if within[number] && asked.specification.items[number].kind.is_requirement() {
            clash[number] = matches!(flags.get(place), Some(true));
            place = place.saturating_add(1);
        }
    }
    Ok(clash)
}
