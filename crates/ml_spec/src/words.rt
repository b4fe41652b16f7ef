// The words of an item that are declared: signals, and values of an enumeration.
//
// Both lists are read word by word. A word that can't stand there, or that is taken already, is the first fault; at the end a
// list may be too short. What is declared by the words is noted as they come, and of no use behind a fault.
ghost use Rattle.std.specs.Prelude.{◌≡◌, ◌+◌, ◌≤◌, ◌↔◌, ◌++◌, ◌∷◌, [], true, length, IfOk, IfErr, IsTrue, MatchOption, OnOk, Some, bytes_eq};
ghost use Rattle.std.specs.List.{list_all};
ghost use Rattle.std.specs.Map.{lookup};
ghost use Rattle.indexmap.specs.IndexMap.{insert_entry};
ghost use Rattle.ml_base.specs.Name.{IsName};
ghost use Rattle.ml_text.specs.Bytes as kinds;
ghost use Rattle.ml_spec.specs.Faults.{end_of};
ghost use Rattle.ml_spec.specs.ItemParts as parts;
ghost use Rattle.ml_spec.specs.Items.{without_blanks};
ghost use Rattle.ml_spec.specs.Known.{with_all, IsDeclared};
ghost use Rattle.ml_spec.specs.Scan.{item_text};
ghost use Rattle.ml_spec.specs.Statements as spec;
ghost use Rattle.ml_spec.specs.Words.{placed_words, words_of};
ghost use Rattle.ml_spec.specs.private.Lists.{AreListed, BreaksWord, IsMadeBehind, IsSomeProposition, IsValueBehind, IsWordFree, TellsInList};
ghost use Rattle.ml_written.specs.Propositions as written;

use crate::context::{Declared, is_declared};
use crate::fault::Fault;
use crate::items::{ItemText, place_of};
use crate::parts::{split_word, without_blanks};
use crate::rule::SpecRule;
use indexmap::IndexMap;
use ml_base::{LONGEST_NAME, Name, NoMemory};
use ml_front::Logic;
use ml_text::{is_digit, is_letter, is_word_byte};
use ml_written::is_proposition;
use std::alloc::Global;

// Declares a word as a signal, or tells which rule it breaks. Of signals it may be one already.
fn add_signal(
    alloc: Global,
    logic: Logic,
    word: &[u8],
    declared: &mut IndexMap<Name, Declared>,
) -> Result<Option<SpecRule>, NoMemory>
    ensures { IfOk result (λ broken. MatchOption broken
        (IsWordFree (written.is_proposition logic) (lookup (bytes_eq word.now) declared.old.entries ≡ Some Declared.Made) word.now
        × (declared.new.entries ≡ insert_entry bytes_eq declared.old.entries word.now Declared.Signal))
        (BreaksWord (written.is_proposition logic)
        (lookup (bytes_eq word.now) declared.old.entries ≡ Some Declared.Made) word.now)) }
{
    if !is_proposition(logic, word) {
        return Ok(Some(SpecRule::NoName));
    }
    let name = Name::from_bytes(alloc, word)?;
    if is_made(declared, &name) {
        return Ok(Some(SpecRule::NameTaken));
    }
    declared.insert(name, Declared::Signal)?;
    Ok(None)
}

// is the proposition declared as one that is made?
fn is_made(declared: &IndexMap<Name, Declared>, name: &Name) -> bool
    ensures { IsTrue result ↔ (lookup (bytes_eq name.now) declared.now.entries ≡ Some Declared.Made) }
{
    match declared.get(name) {
        Some(Declared::Made) => true,
        Some(Declared::Signal) | None => false,
    }
}

// declares the words behind an item's first word as signals
pub(crate) fn add_signals(
    alloc: Global,
    logic: Logic,
    item: &ItemText,
    behind_kind: &[u8],
    declared: &mut IndexMap<Name, Declared>,
) -> Result<(), Fault>
    requires fits { item.now.at + length item.now.bytes.now ≤ usize.MAX }
    requires within { length behind_kind.now ≤ length item.now.bytes.now }
    requires front { without_blanks behind_kind.now ≡ behind_kind.now }
    ensures declared { OnOk result
        (declared.new.entries ≡ with_all declared.old.entries Declared.Signal
        (words_of (placed_words (parts.place_of (item_text item.now) behind_kind.now) behind_kind.now))) }
    ensures listed { OnOk result (AreListed (written.is_proposition logic) (IsMadeBehind declared.old.entries) 1
        (placed_words (parts.place_of (item_text item.now) behind_kind.now) behind_kind.now)) }
    ensures refused { IfErr result (TellsInList (written.is_proposition logic) (IsMadeBehind declared.old.entries) 1
        (placed_words (parts.place_of (item_text item.now) behind_kind.now) behind_kind.now) (end_of (item_text item.now))) }
{
    let mut rest = behind_kind;
    while !rest.is_empty() {
        let (word, behind) = split_word(rest);
        if let Some(rule) = add_signal(alloc, logic, word, declared)? {
            return Err(Fault::Breaks {
                rule,
                at: place_of(item, rest),
            });
        }
        rest = behind;
    }
    if behind_kind.is_empty() {
        return Err(Fault::Breaks {
            rule: SpecRule::NoName,
            at: place_of(item, rest),
        });
    }
    Ok(())
}

// ---- values

// may the word be a value of the enumeration?
fn is_value(enumeration: &[u8], word: &[u8]) -> bool
    ensures { result ≡ spec.is_value enumeration.now word.now }
{
    is_word(word) && enumeration.len() + word.len() < LONGEST_NAME
}

// a letter or a digit, and then letters, digits and `_`
fn is_word(word: &[u8]) -> bool
    ensures { result ≡ spec.is_word word.now }
{
    match word {
        [] => false,
        [first, rest @ ..] => (is_letter(*first) || is_digit(*first)) && are_word_bytes(rest),
    }
}

fn are_word_bytes(bytes: &[u8]) -> bool
    ensures { result ≡ list_all kinds.is_word_byte bytes.now }
{
    bytes.iter().all(|byte| is_word_byte(*byte))
}

// the proposition that says that the enumeration has this value
fn value_name(alloc: Global, enumeration: &[u8], word: &[u8]) -> Result<Name, NoMemory>
    requires { IsName (spec.value_name enumeration.now word.now) }
    ensures { IfOk result (λ n. n ≡ spec.value_name enumeration.now word.now) }
{
    let mut bytes = Vec::from_slice(alloc, enumeration)?;
    bytes.push(b'_')?;
    bytes.extend_from_slice(word)?;
    Name::from_bytes(alloc, &bytes)
}

// Declares the proposition of a value, and puts it behind those of the values before; or tells which rule the word breaks.
fn add_value(
    alloc: Global,
    enumeration: &[u8],
    word: &[u8],
    declared: &mut IndexMap<Name, Declared>,
    values: &mut Vec<Name>,
) -> Result<Option<SpecRule>, NoMemory>
    requires { IsSomeProposition enumeration.now }
    ensures { IfOk result (λ broken. MatchOption broken
        (IsWordFree (spec.is_value enumeration.now) (IsDeclared declared.old.entries (spec.value_name enumeration.now word.now)) word.now
        × (declared.new.entries
        ≡ insert_entry bytes_eq declared.old.entries (spec.value_name enumeration.now word.now) Declared.Made)
        × (values.new.items ≡ values.old.items ++ spec.value_name enumeration.now word.now ∷ []))
        (BreaksWord (spec.is_value enumeration.now)
        (IsDeclared declared.old.entries (spec.value_name enumeration.now word.now)) word.now)) }
{
    if !is_value(enumeration, word) {
        return Ok(Some(SpecRule::NoName));
    }
    let name = value_name(alloc, enumeration, word)?;
    if is_declared(declared, &name) {
        return Ok(Some(SpecRule::NameTaken));
    }
    values.push(name.copy()?)?;
    declared.insert(name, Declared::Made)?;
    Ok(None)
}

// declares the words behind an item's colon as values of its enumeration, whose propositions come back
pub(crate) fn add_values(
    alloc: Global,
    item: &ItemText,
    enumeration: &[u8],
    text: &[u8],
    declared: &mut IndexMap<Name, Declared>,
    values: &mut Vec<Name>,
) -> Result<(), Fault>
    requires fits { item.now.at + length item.now.bytes.now ≤ usize.MAX }
    requires within { length text.now ≤ length item.now.bytes.now }
    requires name { IsSomeProposition enumeration.now }
    requires none { values.old.items ≡ [] }
    ensures values { OnOk result (values.new.items ≡ spec.value_names enumeration.now
        (words_of (placed_words (parts.place_of (item_text item.now) text.now) text.now))) }
    ensures declared { OnOk result
        (declared.new.entries ≡ with_all declared.old.entries Declared.Made (spec.value_names enumeration.now
        (words_of (placed_words (parts.place_of (item_text item.now) text.now) text.now)))) }
    ensures listed { OnOk result (AreListed (spec.is_value enumeration.now) (IsValueBehind declared.old.entries enumeration.now) 2
        (placed_words (parts.place_of (item_text item.now) text.now) text.now)) }
    ensures refused { IfErr result
        (TellsInList (spec.is_value enumeration.now) (IsValueBehind declared.old.entries enumeration.now) 2
        (placed_words (parts.place_of (item_text item.now) text.now) text.now) (end_of (item_text item.now))) }
{
    let mut rest = without_blanks(text);
    while !rest.is_empty() {
        let (word, behind) = split_word(rest);
        if let Some(rule) = add_value(alloc, enumeration, word, declared, values)? {
            return Err(Fault::Breaks {
                rule,
                at: place_of(item, rest),
            });
        }
        rest = behind;
    }
    if values.len() < 2 {
        return Err(Fault::Breaks {
            rule: SpecRule::NoName,
            at: place_of(item, rest),
        });
    }
    Ok(())
}
