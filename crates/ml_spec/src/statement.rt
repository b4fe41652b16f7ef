// Items read as statements, each by its kind.
//
// `read_item` finds the kind and calls the function for it, which reads what stands behind the kind's word, tells the first
// fault of it, and adds to the context what becomes known. Behind a fault the context is of no use.
ghost use Rattle.std.specs.Prelude.{◌≡◌, ◌≢◌, ◌+◌, ◌≤◌, ◌<◌, ◌∷◌, ◌++◌, [], List, length, true, Contains, IfOk, IfErr, MatchOption, MatchResult, OnOk, bytes_eq};
ghost use Rattle.indexmap.specs.IndexMap.{insert_entry};
ghost use Rattle.ml_front.specs.Definitions.{logic_defined};
ghost use Rattle.ml_front.specs.Logics.{logic_word};
ghost use Rattle.ml_spec.specs.ItemParts as parts;
ghost use Rattle.ml_spec.specs.ItemParts.{HasName, HasText, IsOfKind};
ghost use Rattle.ml_spec.specs.Items as items;
ghost use Rattle.ml_spec.specs.Scan.{item_text};
ghost use Rattle.ml_spec.specs.Statements.{IsWrittenIn, Statement};
ghost use Rattle.ml_written.specs.Written.{written_logic};
ghost use Rattle.ml_spec.specs.private.Stages.{IsContextOf, IsDefined, IsFresh, IsNoted, IsStepped, TellsInItem};

use crate::context::{Context, Declared, is_among, is_declared};
use crate::fault::Fault;
use crate::head::{check_declared, kind_of, name_of, text_behind, written_text};
use crate::items::{ItemText, place_of};
use crate::kind::{ItemKind, Kind};
use crate::meaning;
use crate::name::ItemName;
use crate::rule::SpecRule;
use crate::specification::MOST_ITEMS;
use crate::words::{add_signals, add_values};
use indexmap::{IndexMap, IndexSet};
use ml_base::{Name, NoMemory};
use ml_front::Logic;
use ml_written::{Written, add_propositions};
use std::alloc::Global;

// The name with these bytes, which is added to those that were seen; `None` where it was seen.
fn new_name(
    alloc: Global,
    seen: &mut IndexSet<ItemName>,
    bytes: &[u8],
) -> Result<Option<ItemName>, NoMemory>
    requires { items.is_name bytes.now ≡ true }
    ensures new { IfOk result (λ name. MatchOption name (Contains seen.old.keys bytes.now)
        (λ n. (n ≡ bytes.now) × (¬ (Contains seen.old.keys bytes.now)))) }
    ensures seen { IfOk result (λ name. MatchOption name (seen.new.keys ≡ seen.old.keys)
        (λ n. seen.new.keys ≡ seen.old.keys ++ bytes.now ∷ [])) }
{
    let name = ItemName::new(alloc, bytes)?;
    if seen.contains(&name) {
        return Ok(None);
    }
    seen.insert(name.copy()?)?;
    Ok(Some(name))
}

// Reads an item, before which this many stand, as the next statement.
pub(crate) fn read_item(
    alloc: Global,
    logic: Logic,
    item: &ItemText,
    before: usize,
    context: &mut Context,
) -> Result<(), Fault>
    requires fits { item.now.at + length item.now.bytes.now ≤ usize.MAX }
    requires room { before ≤ MOST_ITEMS }
    requires definitions { logic_defined context.old.meanings.definitions ≡ logic }
    ensures { (ss : List Statement) → length ss ≡ before → IsContextOf logic ss context.old
        → MatchResult result (λ _. IsStepped logic ss (item_text item.now) context.new)
        (TellsInItem logic ss (item_text item.now)) }
{
    match kind_of(logic, item, before) {
        Ok((kind, behind_kind)) => read_by_kind(alloc, logic, kind, item, behind_kind, context),
        Err(fault) => Err(fault),
    }
}

// the same of an item of this kind, where this stands behind its word
fn read_by_kind(
    alloc: Global,
    logic: Logic,
    kind: ItemKind,
    item: &ItemText,
    behind_kind: &[u8],
    context: &mut Context,
) -> Result<(), Fault>
    requires fits { item.now.at + length item.now.bytes.now ≤ usize.MAX }
    requires behind { behind_kind.now ≡ parts.behind_kind (item_text item.now) }
    requires kind { IsOfKind logic (item_text item.now) kind }
    requires definitions { logic_defined context.old.meanings.definitions ≡ logic }
    requires logic { kind ≡ ItemKind.Logics → parts.behind_kind (item_text item.now) ≡ logic_word logic }
    ensures { (ss : List Statement) → length ss < MOST_ITEMS → IsContextOf logic ss context.old
        → MatchResult result (λ _. IsStepped logic ss (item_text item.now) context.new)
        (TellsInItem logic ss (item_text item.now)) }
{
    match kind {
        ItemKind::Logics => Ok(()),
        ItemKind::Signals => read_signals(alloc, logic, item, behind_kind, context),
        ItemKind::Enumeration => read_enumeration(alloc, logic, item, behind_kind, context),
        ItemKind::Definition => read_definition(alloc, logic, item, behind_kind, context),
        ItemKind::Stated(kind) => read_stated(alloc, logic, kind, item, behind_kind, context),
    }
}

fn read_signals(
    alloc: Global,
    logic: Logic,
    item: &ItemText,
    behind_kind: &[u8],
    context: &mut Context,
) -> Result<(), Fault>
    requires fits { item.now.at + length item.now.bytes.now ≤ usize.MAX }
    requires behind { behind_kind.now ≡ parts.behind_kind (item_text item.now) }
    requires kind { IsOfKind logic (item_text item.now) ItemKind.Signals }
    requires definitions { logic_defined context.old.meanings.definitions ≡ logic }
    ensures { (ss : List Statement) → length ss < MOST_ITEMS → IsContextOf logic ss context.old
        → MatchResult result (λ _. IsStepped logic ss (item_text item.now) context.new)
        (TellsInItem logic ss (item_text item.now)) }
{
    match add_signals(alloc, logic, item, behind_kind, &mut context.declared) {
        Ok(()) => {
            context.has_signals = true;
            Ok(())
        }
        Err(fault) => Err(fault),
    }
}

fn read_enumeration(
    alloc: Global,
    logic: Logic,
    item: &ItemText,
    behind_kind: &[u8],
    context: &mut Context,
) -> Result<(), Fault>
    requires fits { item.now.at + length item.now.bytes.now ≤ usize.MAX }
    requires behind { behind_kind.now ≡ parts.behind_kind (item_text item.now) }
    requires kind { IsOfKind logic (item_text item.now) ItemKind.Enumeration }
    requires definitions { logic_defined context.old.meanings.definitions ≡ logic }
    ensures { (ss : List Statement) → length ss < MOST_ITEMS → IsContextOf logic ss context.old
        → MatchResult result (λ _. IsStepped logic ss (item_text item.now) context.new)
        (TellsInItem logic ss (item_text item.now)) }
{
    let (enumeration, behind_name) = name_of(logic, ItemKind::Enumeration, item, behind_kind)?;
    let Some(name) = new_name(alloc, &mut context.names, enumeration)? else {
        return Err(Fault::Breaks {
            rule: SpecRule::NameTaken,
            at: place_of(item, behind_kind),
        });
    };
    let text = text_behind(logic, ItemKind::Enumeration, item, behind_name)?;
    let mut values = Vec::new(alloc);
    add_values(
        alloc,
        item,
        enumeration,
        text,
        &mut context.declared,
        &mut values,
    )?;
    meaning::add_enumeration(alloc, logic, name, &values, item.at, &mut context.meanings)?;
    Ok(())
}

fn read_definition(
    alloc: Global,
    logic: Logic,
    item: &ItemText,
    behind_kind: &[u8],
    context: &mut Context,
) -> Result<(), Fault>
    requires fits { item.now.at + length item.now.bytes.now ≤ usize.MAX }
    requires behind { behind_kind.now ≡ parts.behind_kind (item_text item.now) }
    requires kind { IsOfKind logic (item_text item.now) ItemKind.Definition }
    requires definitions { logic_defined context.old.meanings.definitions ≡ logic }
    ensures { (ss : List Statement) → length ss < MOST_ITEMS → IsContextOf logic ss context.old
        → MatchResult result (λ _. IsStepped logic ss (item_text item.now) context.new)
        (TellsInItem logic ss (item_text item.now)) }
{
    let (bytes, behind_name) = name_of(logic, ItemKind::Definition, item, behind_kind)?;
    let name = defined_name(alloc, logic, item, behind_kind, bytes, context)?;
    let text = text_behind(logic, ItemKind::Definition, item, behind_name)?;
    let written = written_text(alloc, logic, ItemKind::Definition, item, text)?;
    define(
        alloc,
        logic,
        item,
        behind_kind,
        text,
        name,
        written,
        context,
    )
}

// the name of a definition, which is neither declared nor spoken of before
fn defined_name(
    alloc: Global,
    logic: Logic,
    item: &ItemText,
    behind_kind: &[u8],
    bytes: &[u8],
    context: &Context,
) -> Result<Name, Fault>
    requires fits { item.now.at + length item.now.bytes.now ≤ usize.MAX }
    requires behind { behind_kind.now ≡ parts.behind_kind (item_text item.now) }
    requires name { HasName logic (item_text item.now) ItemKind.Definition }
    requires bytes { bytes.now ≡ parts.name_of (item_text item.now) }
    ensures name { IfOk result (λ n. n ≡ parts.name_of (item_text item.now)) }
    ensures fresh { IfOk result (λ n. IsFresh context.now n) }
    ensures refused { IfErr result (λ e. (ss : List Statement) → length ss < MOST_ITEMS → IsContextOf logic ss context.now
        → TellsInItem logic ss (item_text item.now) e) }
{
    let name = Name::from_bytes(alloc, bytes)?;
    if is_declared(&context.declared, &name) {
        return Err(Fault::Breaks {
            rule: SpecRule::NameTaken,
            at: place_of(item, behind_kind),
        });
    }
    if is_among(&context.spoken, &name) {
        return Err(Fault::Breaks {
            rule: SpecRule::DefinedLate,
            at: place_of(item, behind_kind),
        });
    }
    Ok(name)
}

// adds the definition of a name by what is written behind it
fn define(
    alloc: Global,
    logic: Logic,
    item: &ItemText,
    behind_kind: &[u8],
    text: &[u8],
    name: Name,
    written: Written,
    context: &mut Context,
) -> Result<(), Fault>
    requires fits { item.now.at + length item.now.bytes.now ≤ usize.MAX }
    requires behind { behind_kind.now ≡ parts.behind_kind (item_text item.now) }
    requires definitions { logic_defined context.old.meanings.definitions ≡ logic }
    requires text { text.now ≡ parts.text_of (item_text item.now) }
    requires has_text { HasText logic (item_text item.now) ItemKind.Definition }
    requires written { IsWrittenIn logic (parts.text_of (item_text item.now)) written }
    requires name { name ≡ parts.name_of (item_text item.now) }
    requires fresh { IsFresh context.old name }
    ensures { (ss : List Statement) → length ss < MOST_ITEMS → IsContextOf logic ss context.old
        → MatchResult result (λ _. IsStepped logic ss (item_text item.now) context.new)
        (TellsInItem logic ss (item_text item.now)) }
{
    match note_formula(logic, item, behind_kind, text, &name, &written, context) {
        Ok(()) => {
            add_defined(alloc, logic, item.at, name, written, context)?;
            Ok(())
        }
        Err(fault) => Err(fault),
    }
}

// Notes of which propositions the formula of a definition speaks: they have to be declared, and its own name not among them.
fn note_formula(
    logic: Logic,
    item: &ItemText,
    behind_kind: &[u8],
    text: &[u8],
    name: &Name,
    written: &Written,
    context: &mut Context,
) -> Result<(), Fault>
    requires fits { item.now.at + length item.now.bytes.now ≤ usize.MAX }
    requires behind { behind_kind.now ≡ parts.behind_kind (item_text item.now) }
    requires text { text.now ≡ parts.text_of (item_text item.now) }
    requires has_text { HasText logic (item_text item.now) ItemKind.Definition }
    requires written { IsWrittenIn logic (parts.text_of (item_text item.now)) written.now }
    requires name { name.now ≡ parts.name_of (item_text item.now) }
    requires fresh { IsFresh context.old name.now }
    ensures noted { OnOk result (IsNoted name.now written.now context.old context.new) }
    ensures refused { IfErr result (λ e. (ss : List Statement) → length ss < MOST_ITEMS → IsContextOf logic ss context.old
        → TellsInItem logic ss (item_text item.now) e) }
{
    add_propositions(written, &mut context.spoken)?;
    if is_among(&context.spoken, name) {
        return Err(Fault::Breaks {
            rule: SpecRule::DefinedLate,
            at: place_of(item, behind_kind),
        });
    }
    match check_declared(
        logic,
        ItemKind::Definition,
        item,
        text,
        written,
        context.has_signals,
        &context.declared,
    ) {
        Ok(()) => Ok(()),
        Err(fault) => Err(fault),
    }
}

// declares the name of a definition, and adds what it means
fn add_defined(
    alloc: Global,
    logic: Logic,
    at: usize,
    name: Name,
    written: Written,
    context: &mut Context,
) -> Result<(), NoMemory>
    requires definitions { logic_defined context.old.meanings.definitions ≡ logic }
    requires written { written_logic written ≡ logic }
    ensures { OnOk result (IsDefined logic at name written context.old context.new) }
{
    declare(&name, &mut context.declared)?;
    meaning::add_definition(alloc, logic, name, written, at, &mut context.meanings)?;
    Ok(())
}

// declares a name as one that is made
fn declare(name: &Name, declared: &mut IndexMap<Name, Declared>) -> Result<(), NoMemory>
    ensures { OnOk result
        (declared.new.entries ≡ insert_entry bytes_eq declared.old.entries name.now Declared.Made) }
{
    declared.insert(name.copy()?, Declared::Made)?;
    Ok(())
}

fn read_stated(
    alloc: Global,
    logic: Logic,
    kind: Kind,
    item: &ItemText,
    behind_kind: &[u8],
    context: &mut Context,
) -> Result<(), Fault>
    requires fits { item.now.at + length item.now.bytes.now ≤ usize.MAX }
    requires behind { behind_kind.now ≡ parts.behind_kind (item_text item.now) }
    requires kind { IsOfKind logic (item_text item.now) (ItemKind.Stated kind) }
    requires definitions { logic_defined context.old.meanings.definitions ≡ logic }
    ensures { (ss : List Statement) → length ss < MOST_ITEMS → IsContextOf logic ss context.old
        → MatchResult result (λ _. IsStepped logic ss (item_text item.now) context.new)
        (TellsInItem logic ss (item_text item.now)) }
{
    let (name, behind_name) = name_of(logic, ItemKind::Stated(kind), item, behind_kind)?;
    let Some(name) = new_name(alloc, &mut context.names, name)? else {
        return Err(Fault::Breaks {
            rule: SpecRule::NameTaken,
            at: place_of(item, behind_kind),
        });
    };
    let text = text_behind(logic, ItemKind::Stated(kind), item, behind_name)?;
    let written = written_text(alloc, logic, ItemKind::Stated(kind), item, text)?;
    check_declared(
        logic,
        ItemKind::Stated(kind),
        item,
        text,
        &written,
        context.has_signals,
        &context.declared,
    )?;
    add_propositions(&written, &mut context.spoken)?;
    meaning::add_stated(alloc, kind, name, written, item.at, &mut context.meanings)?;
    Ok(())
}
