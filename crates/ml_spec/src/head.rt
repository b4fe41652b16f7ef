// What stands in front of the formula of an item, and the formula.
//
// Each function tells the first fault of what it reads, where nothing before it is at fault.
ghost use Rattle.std.specs.Prelude.{◌≡◌, ◌≢◌, ◌+◌, ◌≤◌, ◌<◌, List, length, true, false, IfOk, IfErr, MatchOption, OnOk, Some};
ghost use Rattle.std.specs.Map.{keys_of};
ghost use Rattle.ml_base.specs.declared.parse_refusal.ParseRefusal.TheVariants as parser;
ghost use Rattle.ml_front.specs.Logics.{logic_word};
ghost use Rattle.ml_spec.specs.Faults as faults;
ghost use Rattle.ml_spec.specs.ItemParts as spec;
ghost use Rattle.ml_spec.specs.ItemParts.{text_of, HasColon, HasName, HasText, IsOfKind, TakesName};
ghost use Rattle.ml_spec.specs.Kinds.{item_word, may_stand};
ghost use Rattle.ml_spec.specs.Known.{known};
ghost use Rattle.ml_spec.specs.Scan.{item_text};
ghost use Rattle.ml_spec.specs.Statements.{IsWrittenIn, Statement};
ghost use Rattle.ml_spec.specs.declared.kind.ItemKind as kinds;
ghost use Rattle.ml_spec.specs.private.Stages.{IsReached, NotByItself, TellsInItem};
ghost use Rattle.ml_written.specs.Places.{AreDeclared};
ghost use Rattle.ml_written.specs.Written.{IsRefusedIn};

use crate::context::Declared;
use crate::fault::Fault;
use crate::items::{ItemText, place_of};
use crate::kind::{ItemKind, item_kind_named};
use crate::parts::{behind_colon, is_name, split_name, split_word};
use crate::rule::SpecRule;
use crate::specification::MOST_ITEMS;
use indexmap::IndexMap;
use ml_base::{Name, ParseRefusal};
use ml_front::Logic;
use ml_written::{Written, first_undeclared, is_proposition};
use std::alloc::Global;

// The kind of an item, before which this many stand, and what stands behind its word.
pub(crate) fn kind_of<'a>(
    logic: Logic,
    item: &ItemText<'a>,
    before: usize,
) -> Result<(ItemKind, &'a [u8]), Fault>
    ensures kind { IfOk result (λ r. IsOfKind logic (item_text item.now) r.0) }
    ensures behind { IfOk result (λ r. r.1.now ≡ spec.behind_kind (item_text item.now)) }
    ensures logic { IfOk result (λ r. r.0 ≡ ItemKind.Logics → spec.behind_kind (item_text item.now) ≡ logic_word logic) }
    ensures few { OnOk result (before ≢ MOST_ITEMS) }
    ensures refused { IfErr result (λ e. (ss : List Statement) → length ss ≡ before
        → TellsInItem logic ss (item_text item.now) e) }
{
    let (word, behind_kind) = split_word(item.bytes);
    let Some(kind) = kind_in(logic, word) else {
        return Err(Fault::Breaks {
            rule: SpecRule::NoKind,
            at: item.at,
        });
    };
    if tells_other(logic, kind, behind_kind) {
        return Err(Fault::Breaks {
            rule: SpecRule::NoLogic,
            at: item.at,
        });
    }
    if before == MOST_ITEMS {
        return Err(Fault::Breaks {
            rule: SpecRule::TooManyItems,
            at: item.at,
        });
    }
    Ok((kind, behind_kind))
}

// does an item of this kind tell another logic, or none?
fn tells_other(logic: Logic, kind: ItemKind, behind_kind: &[u8]) -> bool
    ensures other { result ≡ true → (kind ≡ ItemKind.Logics) × (behind_kind.now ≢ logic_word logic) }
    ensures same { result ≡ false → kind ≡ ItemKind.Logics → behind_kind.now ≡ logic_word logic }
{
    match kind {
        ItemKind::Logics => behind_kind != logic.word(),
        ItemKind::Signals | ItemKind::Enumeration | ItemKind::Definition | ItemKind::Stated(_) =>
            false,
    }
}

// the kind of items that a word names, if these may stand in the logic
fn kind_in(logic: Logic, word: &[u8]) -> Option<ItemKind>
    ensures { MatchOption result
        ((k : kinds.ItemKind) → word.now ≡ item_word k → may_stand logic k ≡ false)
        (λ k. (word.now ≡ item_word k) × (may_stand logic k ≡ true)) }
{
    let kind = item_kind_named(word)?;
    if kind.may_stand(logic) {
        Some(kind)
    } else {
        None
    }
}

// may it be the name of an item of this kind?
fn is_good(logic: Logic, kind: ItemKind, name: &[u8]) -> bool
    ensures { result ≡ spec.is_good logic kind name.now }
{
    match kind {
        ItemKind::Stated(_) => is_name(name),
        ItemKind::Logics | ItemKind::Signals | ItemKind::Enumeration | ItemKind::Definition => {
            is_proposition(logic, name)
        }
    }
}

// the name of an item of this kind, and what stands behind it
pub(crate) fn name_of<'a>(
    logic: Logic,
    kind: ItemKind,
    item: &ItemText,
    behind_kind: &'a [u8],
) -> Result<(&'a [u8], &'a [u8]), Fault>
    requires fits { item.now.at + length item.now.bytes.now ≤ usize.MAX }
    requires behind { behind_kind.now ≡ spec.behind_kind (item_text item.now) }
    requires kind { TakesName logic (item_text item.now) kind }
    ensures name { IfOk result (λ r. r.0.now ≡ spec.name_of (item_text item.now)) }
    ensures has_name { OnOk result (HasName logic (item_text item.now) kind) }
    ensures behind { IfOk result (λ r. r.1.now ≡ spec.behind_name (item_text item.now)) }
    ensures refused { IfErr result (λ e. (ss : List Statement) → length ss < MOST_ITEMS
        → TellsInItem logic ss (item_text item.now) e) }
{
    let (name, behind_name) = split_name(behind_kind);
    if !is_good(logic, kind, name) {
        return Err(Fault::Breaks {
            rule: SpecRule::NoName,
            at: place_of(item, behind_kind),
        });
    }
    Ok((name, behind_name))
}

// what stands behind the colon that stands behind the name of an item of this kind
pub(crate) fn text_behind<'a>(
    logic: Logic,
    kind: ItemKind,
    item: &ItemText,
    behind_name: &'a [u8],
) -> Result<&'a [u8], Fault>
    requires fits { item.now.at + length item.now.bytes.now ≤ usize.MAX }
    requires behind { behind_name.now ≡ spec.behind_name (item_text item.now) }
    requires name { HasName logic (item_text item.now) kind }
    ensures text { IfOk result (λ t. t.now ≡ text_of (item_text item.now)) }
    ensures colon { OnOk result (HasColon logic (item_text item.now) kind) }
    ensures refused { IfErr result (λ e. (ss : List Statement) → IsReached logic ss (item_text item.now) kind
        → TellsInItem logic ss (item_text item.now) e) }
{
    match behind_colon(behind_name) {
        Some(text) => Ok(text),
        None => Err(Fault::Breaks {
            rule: SpecRule::NoColon,
            at: place_of(item, behind_name),
        }),
    }
}

// ---- the formula

// the rule that a refusal of the parser tells, and its byte
fn told(refusal: ParseRefusal) -> Option<(SpecRule, u64)>
    ensures { MatchOption result (refusal ≡ parser.NoMemory)
        (λ p. faults.told refusal ≡ Some (p.0, p.1)) }
{
    match refusal {
        ParseRefusal::Syntax { at } => Some((SpecRule::Syntax, at)),
        ParseRefusal::Unbound { at } => Some((SpecRule::Unbound, at)),
        ParseRefusal::NotPositive { at } => Some((SpecRule::NotPositive, at)),
        ParseRefusal::TooMany { at } => Some((SpecRule::TooMany, at)),
        ParseRefusal::TooNested { at } => Some((SpecRule::TooNested, at)),
        ParseRefusal::NameTooLong { at } => Some((SpecRule::NameTooLong, at)),
        ParseRefusal::NoMemory => None,
    }
}

// the fault of an item whose text the parser refuses
fn text_fault(
    logic: Logic,
    kind: ItemKind,
    item: &ItemText,
    text: &[u8],
    refusal: ParseRefusal,
) -> Fault
    requires fits { item.now.at + length item.now.bytes.now ≤ usize.MAX }
    requires text { text.now ≡ text_of (item_text item.now) }
    requires has_text { HasText logic (item_text item.now) kind }
    requires refused { IsRefusedIn logic text.now refusal }
    ensures { (ss : List Statement) → IsReached logic ss (item_text item.now) kind
        → TellsInItem logic ss (item_text item.now) result }
{
    match told(refusal) {
        Some((rule, offset)) => {
            let rest = &text[text.len().min(offset as usize)..];
            Fault::Breaks {
                rule,
                at: place_of(item, rest),
            }
        }
        None => Fault::NoMemory,
    }
}

// the formula of an item of this kind, where this is its text
pub(crate) fn written_text(
    alloc: Global,
    logic: Logic,
    kind: ItemKind,
    item: &ItemText,
    text: &[u8],
) -> Result<Written, Fault>
    requires fits { item.now.at + length item.now.bytes.now ≤ usize.MAX }
    requires text { text.now ≡ text_of (item_text item.now) }
    requires has_text { HasText logic (item_text item.now) kind }
    ensures written { IfOk result (λ w. IsWrittenIn logic (text_of (item_text item.now)) w) }
    ensures refused { IfErr result (λ e. (ss : List Statement) → IsReached logic ss (item_text item.now) kind
        → TellsInItem logic ss (item_text item.now) e) }
{
    match ml_written::read(alloc, logic, text) {
        Ok(written) => Ok(written),
        Err(refusal) => Err(text_fault(logic, kind, item, text, refusal)),
    }
}

// That each proposition of an item's formula is declared, where signals stand before it.
pub(crate) fn check_declared(
    logic: Logic,
    kind: ItemKind,
    item: &ItemText,
    text: &[u8],
    written: &Written,
    has_signals: bool,
    declared: &IndexMap<Name, Declared>,
) -> Result<(), Fault>
    requires fits { item.now.at + length item.now.bytes.now ≤ usize.MAX }
    requires text { text.now ≡ text_of (item_text item.now) }
    requires has_text { HasText logic (item_text item.now) kind }
    requires written { IsWrittenIn logic text.now written.now }
    ensures declared { OnOk result (has_signals ≡ true → AreDeclared (keys_of declared.now.entries) written.now) }
    ensures refused { IfErr result (λ e. (ss : List Statement) → IsReached logic ss (item_text item.now) kind
        → NotByItself kind (item_text item.now) written.now
        → (known ss).has_signals ≡ has_signals
        → (known ss).declared ≡ declared.now.entries
        → TellsInItem logic ss (item_text item.now) e) }
{
    if !has_signals {
        return Ok(());
    }
    match first_undeclared(text, written, declared) {
        Some(offset) => Err(Fault::Breaks {
            rule: SpecRule::Undeclared,
            at: place_of(item, &text[text.len().min(offset)..]),
        }),
        None => Ok(()),
    }
}
