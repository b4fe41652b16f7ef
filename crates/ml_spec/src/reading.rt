// Reading a specification from its text.
//
// `told_logic` reads the first item, and `add_items` the others, one after the other, with what is known behind each. Both
// answer the first fault of what they read; what lies behind a fault is not read. How large the formulas are that items mean
// matters only where nothing else is at fault.
ghost use Rattle.std.specs.Prelude.{◌≡◌, ◌≤◌, [], ℕ, List, codes, length, IfOk, IfErr, IsErrOf, MatchOption, MatchResult, OnOk};
ghost use Rattle.ml_front.specs.Logics.{logic_word};
ghost use Rattle.ml_front.specs.declared.logic.Logic as declared;
ghost use Rattle.ml_spec.specs.Comments as comments;
ghost use Rattle.ml_spec.specs.Faults.{IsRefused};
ghost use Rattle.ml_spec.specs.Items.{ItemText, behind_word, first_word};
ghost use Rattle.ml_spec.specs.Scan.{items_at};
ghost use Rattle.ml_spec.specs.Specification.{items_behind, IsReadAs, IsSpecification, IsSpecified, TellsLogic};
ghost use Rattle.ml_spec.specs.Statements.{Statement};
ghost use Rattle.ml_spec.specs.declared.specification.Item as plain;
ghost use Rattle.ml_spec.specs.private.Stages.{AreMeant, AreReadAs, IsContextOf, IsReadTo, IsReadWith, TellsAmong, TellsInText, TellsRefusal};

use crate::comments::uncommented;
use crate::context::{Context, Meanings};
use crate::fault::Fault;
use crate::items::next_item;
use crate::parts::{blank_length, split_word};
use crate::place::line_and_column;
use crate::refusal::SpecRefusal;
use crate::rule::SpecRule;
use crate::specification::{Item, Specification};
use crate::statement::read_item;
use ml_front::Logic;
use std::alloc::Global;

/// The specification that a text stands for.
///
/// # Errors
/// `Refused` exactly where the text is no specification: the first line and column, counted from 1, at which it breaks a rule,
/// and of those the one with the lowest number, as `specs/Faults.antt` says. `NoMemory`.
///
/// Cost: linear in the text, on average, and that of the logic's parser for each item.
pub fn read(alloc: Global, text: &[u8]) -> Result<Specification, SpecRefusal>
    ensures specification { IfOk result (λ s. IsSpecification text.now s.logic s.items.items) }
    ensures specified { IfOk result (λ s. IsSpecified s.logic s.items.items) }
    ensures refused { (line column : ℕ) (rule : SpecRule) → IsErrOf result (SpecRefusal.Refused line column rule)
        → IsRefused text.now line column rule }
    ensures no_specification { (line column : ℕ) (rule : SpecRule) → IsErrOf result (SpecRefusal.Refused line column rule)
        → (l : declared.Logic) (xs : List plain.Item) → ¬ (IsSpecification text.now l xs) }
{
    read_text(alloc, text)
}

fn read_text(alloc: Global, text: &[u8]) -> Result<Specification, SpecRefusal>
    ensures specification { IfOk result (λ s. IsSpecification text.now s.logic s.items.items) }
    ensures refused { IfErr result (TellsRefusal text.now) }
{
    let plain = uncommented(alloc, text)?;
    match read_plain(alloc, &plain) {
        Ok(specification) => Ok(specification),
        Err(fault) => Err(refusal(text, fault)),
    }
}

// the refusal of a text, by the fault that it has without its comments
fn refusal(text: &[u8], fault: Fault) -> SpecRefusal
    requires { TellsInText (comments.uncommented text.now) fault }
    ensures { TellsRefusal text.now result }
{
    match fault {
        Fault::Breaks { rule, at } => {
            let (line, column) = line_and_column(text, at);
            SpecRefusal::Refused { line, column, rule }
        }
        Fault::NoMemory => SpecRefusal::NoMemory,
    }
}

// the specification of a text without comments
fn read_plain(alloc: Global, text: &[u8]) -> Result<Specification, Fault>
    ensures read { IfOk result (λ s. IsReadAs text.now s.logic s.items.items) }
    ensures refused { IfErr result (TellsInText text.now) }
{
    let Some((logic, from)) = told_logic(text) else {
        return Err(Fault::Breaks {
            rule: SpecRule::NoLogic,
            at: blank_length(text),
        });
    };
    match read_items(alloc, logic, text, from) {
        Ok(items) => Ok(Specification { logic, items }),
        Err(fault) => Err(fault),
    }
}

// the logic that the first item tells, and where what stands behind that item begins
fn told_logic(text: &[u8]) -> Option<(Logic, usize)>
    ensures { MatchOption result ((l : declared.Logic) → ¬ (TellsLogic text.now l))
        (λ r. TellsLogic text.now r.0 × (items_behind text.now ≡ items_at text.now r.1) × (r.1 ≤ length text.now)) }
{
    let (item, next) = next_item(text, 0)?;
    if item.at != blank_length(text) {
        return None;
    }
    match logic_of_item(item.bytes) {
        Some(logic) => Some((logic, next)),
        None => None,
    }
}

// the logic that an item tells, if it tells one
fn logic_of_item(bytes: &[u8]) -> Option<Logic>
    ensures { MatchOption result
        ((l : declared.Logic) → first_word bytes.now ≡ codes "logic" → ¬ (behind_word bytes.now ≡ logic_word l))
        (λ l. (first_word bytes.now ≡ codes "logic") × (behind_word bytes.now ≡ logic_word l)) }
{
    let (word, behind) = split_word(bytes);
    if word == b"logic".as_slice() {
        Logic::named(behind)
    } else {
        None
    }
}

// the items of the specification that the items from this place of a text without comments on mean
fn read_items(alloc: Global, logic: Logic, text: &[u8], from: usize) -> Result<Vec<Item>, Fault>
    requires { from ≤ length text.now }
    ensures { MatchResult result (λ items. AreReadAs logic (items_at text.now from) items.items)
        (TellsAmong logic (items_at text.now from)) }
{
    let mut context = Context::new(alloc, logic);
    match add_items(alloc, logic, text, from, &mut context) {
        Ok(()) => items_of(context.meanings),
        Err(fault) => Err(fault),
    }
}

// the items of the specification that items of a text mean, where all were read, or the first with too large a formula
fn items_of(meanings: Meanings) -> Result<Vec<Item>, Fault>
    ensures { (l : declared.Logic) (all : List ItemText) (ss : List Statement) → IsReadTo l all [] ss
        → AreMeant l ss meanings.items.items meanings.definitions meanings.large
        → MatchResult result (λ items. AreReadAs l all items.items) (TellsAmong l all) }
{
    match meanings.large {
        Some(at) => Err(Fault::Breaks {
            rule: SpecRule::TooLarge,
            at,
        }),
        None => Ok(meanings.items),
    }
}

// reads these items, before which none was read
fn add_items(
    alloc: Global,
    logic: Logic,
    text: &[u8],
    from: usize,
    context: &mut Context,
) -> Result<(), Fault>
    requires from { from ≤ length text.now }
    requires context { IsContextOf logic [] context.old }
    ensures read { OnOk result (IsReadWith logic (items_at text.now from) [] context.new) }
    ensures refused { IfErr result (TellsAmong logic (items_at text.now from)) }
{
    let mut at = from;
    let mut before = 0;
    while let Some((item, next)) = next_item(text, at) {
        read_item(alloc, logic, &item, before, context)?;
        before += 1;
        at = next;
    }
    Ok(())
}
