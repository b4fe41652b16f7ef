// Reading the lines of an entry that tell its traces and its heights.
ghost use Rattle.std.specs.Prelude.{◌≡◌, ◌<◌, ◌≤◌, ◌+◌, ◌-◌, ◌^◌, ℕ, List, [], ◌∷◌, None, Some, Option, slice_index_or, false, IfOk, IfErr, IsTrue, MatchOption, codes, map, length};
ghost use Rattle.std.specs.Option.{option_copied};
ghost use Rattle.ml_lines.specs.Lines.{number};
ghost use Rattle.ml_lines.specs.Reading.{words_of, words_behind, AreWords, IsNumber};
ghost use Rattle.ml_trace.specs.declared.letters.AutomatonState.{AutomatonState};
ghost use Rattle.ml_refutation.specs.Refutation as plain;
ghost use Rattle.ml_refutation.specs.Refutation.{Entry, IsAbove};
ghost use Rattle.ml_refutation.specs.Guesses.{FitsGuess};
ghost use Rattle.ml_refutation.specs.Views.{item_of};
ghost use Rattle.ml_refutation_text.specs.RefutationText.{guess_word};
ghost use Rattle.ml_refutation_text.specs.BodyRules as text;
ghost use Rattle.ml_refutation_text.specs.BodyRules.{AtItem, AtDecision};
ghost use Rattle.ml_base.specs.declared.version.Version.{Version};
ghost use Rattle.ml_refutation_text.specs.private.Reads.{HasRoom, Goes, TellsFault};
ghost use Rattle.ml_refutation_text.specs.private.ReadTables.{form_of, Grows};
ghost use Rattle.ml_refutation_text.specs.private.WordReads.{FitsAGuess};
ghost use Rattle.ml_refutation_text.specs.private.ItemReads.{knows, AreNames, IsItemed, before_of, IsItemOf, TellsItem, IsTraceLine, TellsTrace, IsHeights, HasStack, LacksStack};

use crate::body_rule::BodyRule;
use crate::known::Tables;
use crate::lists::{are_names, ascend_below};
use crate::rest::{Rest, at_line, next_line};
use crate::words::{listed_words, read_any, read_guess, read_numbers};
use ml_base::{DocRefusal, Version};
use ml_lines::{LineRefusal, are_words, more_words, one_word, read_number};
use ml_refutation::{Item, Lists};
use std::alloc::Global;

/// A line of an entry behind the number of names in use.
#[derive(Drop)]
pub(crate) enum TraceLine {
    Item(Item),
    Heights(Vec<u32>),
}

// the items of an entry, and its heights, with which its traces end
pub(crate) fn read_traces<'a>(
    alloc: Global,
    at: Rest<'a>,
    version: Version,
    names: u32,
    tables: &mut Tables,
    live: u32,
) -> Result<(Vec<Item>, Vec<u32>, Rest<'a>), DocRefusal>
    requires room { HasRoom at }
    requires within { live ≤ names }
    ensures read { IfOk result (λ r. (v : Version) (wanted : ℕ) (es : List Entry) (q : List ℕ) (later : Tables) → Grows version tables.new later
        → Goes v (AtItem (knows names (form_of version tables.old) wanted) es q (record { live = live; items = [] })) at.entry
        (AtDecision (knows names (form_of version tables.old) wanted) es (record { sequent = q; traces = record { live = live; items = map (item_of later.stacks) r.0.items }; heights = r.1.items }) []) r.2) }
    ensures grows { Grows version tables.old tables.new }
    ensures counted { IfOk result (λ r. r.2.line ≡ at.entry.line + length r.0.items + 1) }
    ensures refused { IfErr result (λ e. (v : Version) (wanted : ℕ) (es : List Entry) (q : List ℕ)
        → TellsFault v (AtItem (knows names (form_of version tables.old) wanted) es q (record { live = live; items = [] })) at.entry e) }
{
    let mut items: Vec<Item> = Vec::new(alloc);
    let mut rest = at;
    loop {
        let (line, behind) = match next_line(rest) {
            Ok(next) => next,
            Err(refusal) => return Err(refusal),
        };
        let told = match trace_line(alloc, line, version, names, tables, live, items.last()) {
            Ok(told) => told,
            Err(refusal) => return Err(at_line(rest.line, refusal)),
        };
        match told {
            TraceLine::Item(item) => items.push(item)?,
            TraceLine::Heights(heights) => return Ok((items, heights, behind)),
        }
        rest = behind;
    }
}

// the item that a line tells, behind another one or none, or the heights
fn trace_line(
    alloc: Global,
    line: &[u8],
    version: Version,
    names: u32,
    tables: &mut Tables,
    live: u32,
    before: Option<&Item>,
) -> Result<TraceLine, LineRefusal<BodyRule>>
    ensures read { IfOk result (λ told. (later : Tables) → Grows version tables.new later
        → IsTraceLine (form_of version tables.old) names live (before_of (option_copied before.entry)) (words_of line.now) later.stacks told) }
    ensures grows { Grows version tables.old tables.new }
    ensures refused { IfErr result (TellsTrace (form_of version tables.old) names live (before_of (option_copied before.entry)) (words_of line.now)) }
{
    match listed_words(line, b"heights") {
        Some(behind) => match heights_of(alloc, line, names, behind) {
            Ok(heights) => Ok(TraceLine::Heights(heights)),
            Err(refusal) => Err(refusal),
        },
        None => match item_at(alloc, line, version, tables, live, before) {
            Ok(item) => Ok(TraceLine::Item(item)),
            Err(refusal) => Err(refusal),
        },
    }
}

// the item that a line tells, behind another one or none
fn item_at(
    alloc: Global,
    line: &[u8],
    version: Version,
    tables: &mut Tables,
    live: u32,
    before: Option<&Item>,
) -> Result<Item, LineRefusal<BodyRule>>
    ensures read { IfOk result (λ a. (later : Tables) → Grows version tables.new later
        → IsItemOf (form_of version tables.old) live (before_of (option_copied before.entry)) (words_of line.now) (item_of later.stacks a)) }
    ensures grows { Grows version tables.old tables.new }
    ensures refused { IfErr result (λ e. (names : ℕ) → TellsItem (form_of version tables.old) names live (before_of (option_copied before.entry)) (words_of line.now) e) }
{
    match version {
        Version::One => match item_in_full(alloc, line, live, before) {
            Ok((node, odd, stack)) => Ok(Item {
                node,
                odd,
                stack: tables.stacks.push(&stack)?,
            }),
            Err(refusal) => Err(refusal),
        },
        Version::Two => item_by_table(line, tables, live, before),
    }
}

// the heights that a line tells, whose first word is `heights`
fn heights_of(
    alloc: Global,
    line: &[u8],
    names: u32,
    behind: Option<&[u8]>,
) -> Result<Vec<u32>, LineRefusal<BodyRule>>
    requires are_words { AreWords (words_of line.now) }
    requires begins { words_of line.now ≡ codes "heights" ∷ words_behind (option_copied behind) }
    ensures read { IfOk result (λ hs. IsHeights names (words_of line.now) hs.items) }
    ensures refused { IfErr result (λ e. (F : text.Form) (live : ℕ) (before : Option AutomatonState) → TellsTrace F names live before (words_of line.now) e) }
{
    match read_numbers(alloc, behind)? {
        Some(heights) => {
            if heights.len() as u64 == u64::from(names) + 1 {
                Ok(heights)
            } else {
                Err(LineRefusal::Breaks(BodyRule::HeightForEach))
            }
        }
        None => Err(LineRefusal::Breaks(BodyRule::Numbers)),
    }
}

// the node, the odd priority and the stack of the item that a line of version 1 tells, behind another one or none
fn item_in_full(
    alloc: Global,
    line: &[u8],
    live: u32,
    before: Option<&Item>,
) -> Result<(u32, Option<u32>, Vec<u32>), LineRefusal<BodyRule>>
    ensures read { IfOk result (λ a. IsItemOf text.InFull live (before_of (option_copied before.entry)) (words_of line.now)
        (record { state = record { node = a.0; odd = a.1 }; stack = a.2.items })) }
    ensures refused { IfErr result (λ e. (names : ℕ) → TellsItem text.InFull names live (before_of (option_copied before.entry)) (words_of line.now) e) }
{
    match item_words(line) {
        Some((node, guess, rest)) => match read_state(node, guess) {
            Some((node, odd)) => match read_numbers(alloc, Some(rest))? {
                Some(stack) => {
                    if comes_behind(before, node, odd) && are_names(&stack, live) {
                        Ok((node, odd, stack))
                    } else {
                        Err(LineRefusal::Breaks(BodyRule::ItemsAscend))
                    }
                }
                None => Err(LineRefusal::Breaks(BodyRule::Numbers)),
            },
            None => Err(LineRefusal::Breaks(BodyRule::Numbers)),
        },
        None => Err(LineRefusal::Breaks(BodyRule::OfKind)),
    }
}

// the item that a line of version 2 tells, behind another one or none
fn item_by_table(
    line: &[u8],
    tables: &Tables,
    live: u32,
    before: Option<&Item>,
) -> Result<Item, LineRefusal<BodyRule>>
    ensures read { IfOk result (λ a. (qs : List (List ℕ)) → IsItemOf (text.ByTables qs tables.now.stacks) live (before_of (option_copied before.entry)) (words_of line.now) (item_of tables.now.stacks a)) }
    ensures refused { IfErr result (λ e. (names : ℕ) (qs : List (List ℕ))
        → TellsItem (text.ByTables qs tables.now.stacks) names live (before_of (option_copied before.entry)) (words_of line.now) e) }
{
    match item_words(line) {
        Some((node, guess, rest)) => match one_word(rest) {
            Some(place) => match read_state(node, guess) {
                Some((node, odd)) => match read_any(place) {
                    Some(place) => {
                        if !comes_behind(before, node, odd) {
                            return Err(LineRefusal::Breaks(BodyRule::ItemsAscend));
                        }
                        match stack_at(tables, place, live) {
                            Ok(stack) => Ok(Item { node, odd, stack }),
                            Err(refusal) => Err(refusal),
                        }
                    }
                    None => Err(LineRefusal::Breaks(BodyRule::Numbers)),
                },
                None => Err(LineRefusal::Breaks(BodyRule::Numbers)),
            },
            None => Err(LineRefusal::Breaks(BodyRule::OfKind)),
        },
        None => Err(LineRefusal::Breaks(BodyRule::OfKind)),
    }
}

// the place of the stack of this number, whose names have to be in use
fn stack_at(tables: &Tables, number: u64, live: u32) -> Result<usize, LineRefusal<BodyRule>>
    ensures read { IfOk result (HasStack tables.now.stacks number live) }
    ensures refused { IfErr result (LacksStack tables.now.stacks number live) }
{
    if number >= tables.stacks.len() as u64 {
        return Err(LineRefusal::Breaks(BodyRule::InTables));
    }
    let place = number as usize;
    if ascend_below(tables.stacks.at(place), live) {
        Ok(place)
    } else {
        Err(LineRefusal::Breaks(BodyRule::ItemsAscend))
    }
}

// the words behind `item`: the node, the odd priority, and what stands behind them
fn item_words(line: &[u8]) -> Option<(&[u8], &[u8], &[u8])>
    ensures { MatchOption result (¬ (IsItemed (words_of line.now)))
        (λ p. AreWords (words_of line.now) × (words_of line.now ≡ codes "item" ∷ p.0.now ∷ p.1.now ∷ words_of p.2.now)) }
{
    let (first, rest) = more_words(line)?;
    let (node, rest) = more_words(rest)?;
    let (guess, rest) = more_words(rest)?;
    if first == b"item".as_slice() && are_words(line) {
        Some((node, guess, rest))
    } else {
        None
    }
}

// the node and the odd priority that these words are
fn read_state(node: &[u8], guess: &[u8]) -> Option<(u32, Option<u32>)>
    ensures { MatchOption result (¬ (IsNumber node.now × FitsAGuess guess.now))
        (λ s. (node.now ≡ number s.0) × (s.0 < 2 ^ 32) × (guess.now ≡ guess_word s.1) × FitsGuess s.1) }
{
    match read_number(node) {
        Some(node) => match read_guess(guess) {
            Some(odd) => Some((node, odd)),
            None => None,
        },
        None => None,
    }
}

// does an item with this state come behind the one before it, if there is one?
fn comes_behind(before: Option<&Item>, node: u32, odd: Option<u32>) -> bool
    ensures yes { IsTrue result → IsAbove (before_of (option_copied before.entry)) (record { node = node; odd = odd }) }
    ensures otherwise { result ≡ false → ¬ (IsAbove (before_of (option_copied before.entry)) (record { node = node; odd = odd })) }
{
    match before {
        Some(item) => item.node < node || (item.node == node && guess_before(item.odd, odd)),
        None => true,
    }
}

fn guess_before(first: Option<u32>, second: Option<u32>) -> bool
    ensures { result ≡ plain.guess_before first second }
{
    match first {
        None => second.is_some(),
        Some(first) => match second {
            Some(second) => first < second,
            None => false,
        },
    }
}
