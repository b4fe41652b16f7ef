// The words of a task: which of them are names, which are new, and which a formula has.
ghost use Rattle.std.specs.Prelude.{◌≡◌, ◌++◌, [], false, IfOk, MatchOption, IsTrue};
ghost use Rattle.std.specs.List.{list_all, list_any};
ghost use Rattle.std.specs.Option.{option_copied};
ghost use Rattle.std.specs.Str.{bytes_eq};
ghost use Rattle.ml_ctl.specs.Spelling as spelled;
ghost use Rattle.ml_text.specs.Bytes.{is_lower, is_word_byte};
ghost use Rattle.ml_text.specs.Words.{is_word_from};
ghost use Rattle.ml_ctl.specs.Term.{formula_of};
ghost use Rattle.ml_lines.specs.Reading.{words_behind};
ghost use Rattle.ml_task.specs.Task as spec;
ghost use Rattle.ml_task.specs.Task.{knows};

use indexmap::IndexSet;
use ml_base::{LONGEST_NAME, Name, NoMemory};
use ml_ctl::Term;
use ml_lines::split_word;
use ml_text::{constant_of, is_lower, is_word_byte};
use std::alloc::Global;

// is the word a proposition of LTL that is no longer than a name may be?
fn is_named(word: &[u8]) -> bool
    ensures { result ≡ spec.is_named word.now }
{
    is_proposition(word) && word.len() <= LONGEST_NAME
}

fn is_proposition(word: &[u8]) -> bool
    ensures { result ≡ spelled.is_proposition word.now }
{
    is_lower_word(word) && !is_reserved(word)
}

// is it a lower-case letter, and then letters, digits and `_`?
fn is_lower_word(word: &[u8]) -> bool
    ensures { result ≡ is_word_from is_lower word.now }
{
    match word.split_first() {
        Some((first, rest)) => is_lower(*first) && are_word_bytes(rest),
        None => false,
    }
}

fn are_word_bytes(bytes: &[u8]) -> bool
    ensures { result ≡ list_all is_word_byte bytes.now }
{
    bytes.iter().all(|byte| is_word_byte(*byte))
}

// is it a word of a constant?
#[tactic(auto, using(crate::proofs::NamesRead::reserved_words))]
fn is_reserved(word: &[u8]) -> bool
    ensures { result ≡ spelled.is_reserved word.now }
{
    constant_of(word).is_some()
}

// the words behind a blank, where there is one, as names; `None` where one of them is no name
pub(crate) fn names_behind(
    alloc: Global,
    behind: Option<&[u8]>,
) -> Result<Option<Vec<Name>>, NoMemory>
    ensures { IfOk result (λ read. MatchOption read
        (list_all spec.is_named (words_behind (option_copied behind.entry)) ≡ false)
        (λ names. (names.items ≡ words_behind (option_copied behind.entry)) × IsTrue (list_all spec.is_named names.items))) }
{
    let mut names = Vec::new(alloc);
    let mut left = behind;
    while let Some(text) = left {
        let (word, rest) = split_word(text);
        if !is_named(word) {
            return Ok(None);
        }
        names.push(Name::from_bytes(alloc, word)?)?;
        left = rest;
    }
    Ok(Some(names))
}

// adds the names to those that were seen, as long as they are new
pub(crate) fn add_names(seen: &mut IndexSet<Name>, names: &[Name]) -> Result<bool, NoMemory>
    ensures new { IfOk result (λ new. new ≡ spec.are_new seen.old.keys names.now) }
    ensures added { IfOk result (λ new. IsTrue new → seen.new.keys ≡ seen.old.keys ++ names.now) }
{
    for name in names {
        if seen.contains(name) {
            return Ok(false);
        }
        seen.insert(name.copy()?)?;
    }
    Ok(true)
}

// is each proposition of the term one of these?
pub(crate) fn knows(seen: &IndexSet<Name>, term: &Term) -> bool
    ensures { result ≡ knows seen.now.keys (formula_of term.now) }
{
    match term {
        Term::Const(_) => true,
        Term::Prop(name) => seen.contains(name),
        Term::Not(operand) | Term::Temporal(_, operand) | Term::Quantified(_, operand) => {
            knows(seen, operand)
        }
        Term::Binary(_, left, right) | Term::Paired(_, left, right) => {
            knows(seen, left) && knows(seen, right)
        }
    }
}
