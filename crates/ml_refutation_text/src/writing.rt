// The text of a refutation.
ghost use Rattle.std.specs.Prelude.{◌≡◌, ◌+◌, ◌<◌, ◌^◌, [], ◌∷◌, ◌++◌, map, length, codes, take, slice_index_or, IfOk, OnOk, OnErr, vec_len};
ghost use Rattle.std.specs.List.{flat_map};
ghost use Rattle.ml_lines.specs.Lines.{number, next, line_text, text_of};
ghost use Rattle.ml_refutation.specs.Views.{decision_of, entry_of, of_parts};
ghost use Rattle.ml_refutation_text.specs.RefutationText.{numbers, guess_word, entry_line, item_line, cause_words, clash_line, mark_words, go_line, decision_lines};
ghost use Rattle.ml_refutation_text.specs.BodyRules.{IsTextOf};
ghost use Rattle.ml_refutation_text.specs.WrittenText.{IsCounted, by_tables, written_text, entry_lines, entries_lines, table_lines, last_lines, lines_by_tables};
ghost use Rattle.ml_refutation_text.specs.Canonical.{stacks_of as used};
ghost use Rattle.ml_refutation_text.specs.private.Collecting.{shown};
ghost use Rattle.ml_refutation_text.specs.private.Filings.{entries_of, sequents_in, stacks_in, entry_in, item_in, writing_of};

use crate::tables::{Filing, Tables, tables_of};
use ml_base::{NoMemory, Version};
use ml_lines::{end_line, whole_or_none, write_next_number, write_next_word, write_word};
use ml_refutation::{Decision, Entry, Item, Refutation};
use ml_sequent::ClashCause;
use ml_trace::Mark;
use std::alloc::Global;

/// The text of a refutation in a version: the body of an unsatisfiable document. In version 2 each sequent and each stack
/// stands once in its table, in the order of first use.
///
/// # Errors
/// `NoMemory` alone.
///
/// Cost: linear in the entries, in the sequents and stacks of the refutation, and in the text.
pub fn write(alloc: Global, refutation: &Refutation, version: Version) -> Result<Vec<u8>, NoMemory>
    ensures text { IfOk result (λ bytes. bytes.items ≡ written_text version
        (of_parts refutation.now.names refutation.now.sequents refutation.now.stacks refutation.now.entries)) }
    ensures is_text { IfOk result (λ bytes. IsTextOf version bytes.items
        (of_parts refutation.now.names refutation.now.sequents refutation.now.stacks refutation.now.entries)) }
{
    let mut out = Vec::new(alloc);
    append_refutation(alloc, &mut out, refutation, version)?;
    Ok(out)
}

/// Appends the text of a refutation, as `write` gives it.
///
/// # Errors
/// `NoMemory` alone, and then `out` is as before.
///
/// Cost: as `write`, over many calls.
pub fn append_refutation(
    alloc: Global,
    out: &mut Vec<u8>,
    refutation: &Refutation,
    version: Version,
) -> Result<(), NoMemory>
    ensures text { OnOk result (out.new.items ≡ out.old.items ++ written_text version
        (of_parts refutation.now.names refutation.now.sequents refutation.now.stacks refutation.now.entries)) }
    ensures counted { OnOk result (IsCounted version
        (of_parts refutation.now.names refutation.now.sequents refutation.now.stacks refutation.now.entries)) }
    ensures kept { OnErr result (out.new.items ≡ out.old.items) }
{
    let end = out.len();
    let written = write_parts(alloc, out, refutation, version);
    whole_or_none(out, end, written)
}

// Each writer from here on leaves what stood in `out`, also where memory is wanting and a part stands behind it.
fn write_parts(
    alloc: Global,
    out: &mut Vec<u8>,
    refutation: &Refutation,
    version: Version,
) -> Result<(), NoMemory>
    ensures text { OnOk result (out.new.items ≡ out.old.items ++ written_text version
        (of_parts refutation.now.names refutation.now.sequents refutation.now.stacks refutation.now.entries)) }
    ensures counted { OnOk result (IsCounted version
        (of_parts refutation.now.names refutation.now.sequents refutation.now.stacks refutation.now.entries)) }
    ensures front { take (vec_len out.old) out.new.items ≡ out.old.items }
{
    write_numbered(out, b"names", u64::from(refutation.names))?;
    match version {
        Version::One => write_last(
            out,
            refutation.entries.as_slice(),
            &Filing::InFull(refutation),
        ),
        Version::Two => write_by_tables(alloc, out, refutation),
    }
}

// the tables, and the entries by their places there
fn write_by_tables(
    alloc: Global,
    out: &mut Vec<u8>,
    refutation: &Refutation,
) -> Result<(), NoMemory>
    ensures text { OnOk result (out.new.items ≡ out.old.items ++ text_of (lines_by_tables (entries_of refutation.now))) }
    ensures counted { OnOk result (length (used (entries_of refutation.now)) < 2 ^ 64) }
    ensures front { take (vec_len out.old) out.new.items ≡ out.old.items }
{
    let tables = tables_of(alloc, refutation)?;
    write_filed(out, refutation.entries.as_slice(), &tables)
}

// these tables, and the entries by their places there
fn write_filed(out: &mut Vec<u8>, entries: &[Entry], tables: &Tables) -> Result<(), NoMemory>
    ensures text { OnOk result (out.new.items ≡ out.old.items
        ++ text_of (table_lines tables.now.sequents.met tables.now.stacks.met
        ++ last_lines (by_tables tables.now.sequents.met tables.now.stacks.met)
        (map (entry_of tables.now.sequents.all tables.now.stacks.all) entries.now))) }
    ensures counted { OnOk result (length tables.now.stacks.met < 2 ^ 64) }
    ensures front { take (vec_len out.old) out.new.items ≡ out.old.items }
{
    write_tables(out, tables)?;
    write_last(out, entries, &Filing::ByTables(tables))
}

fn write_tables(out: &mut Vec<u8>, tables: &Tables) -> Result<(), NoMemory>
    ensures text { OnOk result (out.new.items ≡ out.old.items
        ++ text_of (table_lines tables.now.sequents.met tables.now.stacks.met)) }
    ensures counted { OnOk result (length tables.now.stacks.met < 2 ^ 64) }
    ensures front { take (vec_len out.old) out.new.items ≡ out.old.items }
{
    write_table(out, b"sequents", b"sequent", tables.sequents.met())?;
    write_table(out, b"stacks", b"stack", tables.stacks.met())
}

// a table with its number of lines
fn write_table(out: &mut Vec<u8>, many: &[u8], one: &[u8], lists: &[&[u32]]) -> Result<(), NoMemory>
    ensures counted { length (shown lists.now) < 2 ^ 64 }
    ensures text { OnOk result (out.new.items ≡ out.old.items
        ++ text_of ((many.now ∷ number (length (shown lists.now)) ∷ [])
        ∷ map (λ ns. one.now ∷ numbers ns) (shown lists.now))) }
    ensures front { take (vec_len out.old) out.new.items ≡ out.old.items }
{
    write_numbered(out, many, lists.len() as u64)?;
    for list in lists {
        write_listed(out, one, *list)?;
    }
    Ok(())
}

// the entries with their number, and the end
fn write_last(out: &mut Vec<u8>, entries: &[Entry], filing: &Filing) -> Result<(), NoMemory>
    ensures text { OnOk result (out.new.items ≡ out.old.items
        ++ text_of (last_lines (writing_of filing.now) (map (entry_in filing.now) entries.now))) }
    ensures front { take (vec_len out.old) out.new.items ≡ out.old.items }
{
    write_numbered(out, b"entries", entries.len() as u64)?;
    write_entries(out, entries, filing)?;
    write_word(out, b"end")?;
    end_line(out)
}

fn write_entries(out: &mut Vec<u8>, entries: &[Entry], filing: &Filing) -> Result<(), NoMemory>
    ensures text { OnOk result (out.new.items ≡ out.old.items
        ++ text_of (entries_lines (writing_of filing.now) 0 (map (entry_in filing.now) entries.now))) }
    ensures front { take (vec_len out.old) out.new.items ≡ out.old.items }
{
    for (i, entry) in entries.iter().enumerate() {
        write_entry(out, i, entry, filing)?;
    }
    Ok(())
}

fn write_entry(out: &mut Vec<u8>, i: usize, entry: &Entry, filing: &Filing) -> Result<(), NoMemory>
    ensures text { OnOk result (out.new.items ≡ out.old.items
        ++ text_of (entry_lines (writing_of filing.now) i (entry_in filing.now entry.now))) }
    ensures front { take (vec_len out.old) out.new.items ≡ out.old.items }
{
    write_head(out, i, entry.sequent, filing)?;
    write_numbered(out, b"live", u64::from(entry.live))?;
    write_items(out, entry.items.as_slice(), filing)?;
    write_listed(out, b"heights", entry.heights.as_slice())?;
    write_decision(out, &entry.decision)
}

fn write_head(out: &mut Vec<u8>, i: usize, sequent: usize, filing: &Filing) -> Result<(), NoMemory>
    ensures text { OnOk result (out.new.items ≡ out.old.items
        ++ text_of ((writing_of filing.now).head i (slice_index_or (sequents_in filing.now) sequent []))) }
    ensures front { take (vec_len out.old) out.new.items ≡ out.old.items }
{
    match filing {
        Filing::InFull(refutation) => {
            write_numbered(out, b"entry", i as u64)?;
            write_listed(out, b"sequent", refutation.sequents.at(sequent))
        }
        Filing::ByTables(tables) => write_placed(out, i, tables.sequents.place_of(sequent)),
    }
}

// an entry by its number and the place of its sequent
fn write_placed(out: &mut Vec<u8>, i: usize, place: usize) -> Result<(), NoMemory>
    ensures text { OnOk result (out.new.items ≡ out.old.items ++ line_text (entry_line i place)) }
    ensures front { take (vec_len out.old) out.new.items ≡ out.old.items }
{
    write_word(out, b"entry")?;
    write_next_number(out, i as u64)?;
    write_next_number(out, place as u64)?;
    end_line(out)
}

fn write_items(out: &mut Vec<u8>, items: &[Item], filing: &Filing) -> Result<(), NoMemory>
    ensures text { OnOk result (out.new.items ≡ out.old.items
        ++ text_of (map (λ a. item_line a.state ((writing_of filing.now).words a.stack))
        (map (item_in filing.now) items.now))) }
    ensures front { take (vec_len out.old) out.new.items ≡ out.old.items }
{
    for item in items {
        write_item(out, item, filing)?;
    }
    Ok(())
}

fn write_item(out: &mut Vec<u8>, item: &Item, filing: &Filing) -> Result<(), NoMemory>
    ensures text { OnOk result (out.new.items ≡ out.old.items
        ++ line_text (item_line (item_in filing.now item.now).state
        ((writing_of filing.now).words (item_in filing.now item.now).stack))) }
    ensures front { take (vec_len out.old) out.new.items ≡ out.old.items }
{
    write_word(out, b"item")?;
    write_next_number(out, u64::from(item.node))?;
    write_guess(out, item.odd)?;
    write_stack(out, item.stack, filing)?;
    end_line(out)
}

// a blank, and the odd priority or `-`
fn write_guess(out: &mut Vec<u8>, odd: Option<u32>) -> Result<(), NoMemory>
    ensures text { OnOk result (out.new.items ≡ out.old.items ++ next (guess_word odd)) }
    ensures front { take (vec_len out.old) out.new.items ≡ out.old.items }
{
    match odd {
        None => write_next_word(out, b"-"),
        Some(odd) => write_next_number(out, u64::from(odd)),
    }
}

// the words for a stack, each behind a blank
fn write_stack(out: &mut Vec<u8>, stack: usize, filing: &Filing) -> Result<(), NoMemory>
    ensures text { OnOk result (out.new.items ≡ out.old.items
        ++ flat_map next ((writing_of filing.now).words (slice_index_or (stacks_in filing.now) stack []))) }
    ensures front { take (vec_len out.old) out.new.items ≡ out.old.items }
{
    match filing {
        Filing::InFull(refutation) => write_numbers(out, refutation.stacks.at(stack)),
        Filing::ByTables(tables) => write_next_number(out, tables.stacks.place_of(stack) as u64),
    }
}

// the lines of a decision, in preorder
fn write_decision(out: &mut Vec<u8>, decision: &Decision) -> Result<(), NoMemory>
    ensures text { OnOk result (out.new.items ≡ out.old.items ++ text_of (decision_lines (decision_of decision.now))) }
    ensures front { take (vec_len out.old) out.new.items ≡ out.old.items }
{
    match decision {
        Decision::Split { node, left, right } => {
            write_numbered(out, b"split", u64::from(*node))?;
            write_decision(out, left)?;
            write_decision(out, right)
        }
        Decision::Clash(cause) => write_clash(out, *cause),
        Decision::Go {
            diamond,
            entry,
            mark,
        } => write_go(out, *diamond, *entry, *mark),
    }
}

fn write_clash(out: &mut Vec<u8>, cause: ClashCause) -> Result<(), NoMemory>
    ensures text { OnOk result (out.new.items ≡ out.old.items ++ line_text (clash_line cause)) }
    ensures front { take (vec_len out.old) out.new.items ≡ out.old.items }
{
    write_word(out, b"clash")?;
    write_cause(out, cause)?;
    end_line(out)
}

// the words of a cause, each behind a blank
fn write_cause(out: &mut Vec<u8>, cause: ClashCause) -> Result<(), NoMemory>
    ensures text { OnOk result (out.new.items ≡ out.old.items ++ flat_map next (cause_words cause)) }
    ensures front { take (vec_len out.old) out.new.items ≡ out.old.items }
{
    match cause {
        ClashCause::False(node) => write_named(out, b"false", node),
        ClashCause::Pair(positive, negative) => {
            write_named(out, b"pair", positive)?;
            write_next_number(out, u64::from(negative))
        }
        ClashCause::Cycle(node) => write_named(out, b"cycle", node),
    }
}

fn write_go(out: &mut Vec<u8>, diamond: u32, entry: u32, mark: Mark) -> Result<(), NoMemory>
    ensures text { OnOk result (out.new.items ≡ out.old.items ++ line_text (go_line diamond entry mark)) }
    ensures front { take (vec_len out.old) out.new.items ≡ out.old.items }
{
    write_word(out, b"go")?;
    write_next_number(out, u64::from(diamond))?;
    write_next_number(out, u64::from(entry))?;
    write_mark(out, mark)?;
    end_line(out)
}

// the words of a mark, each behind a blank
fn write_mark(out: &mut Vec<u8>, mark: Mark) -> Result<(), NoMemory>
    ensures text { OnOk result (out.new.items ≡ out.old.items ++ flat_map next (mark_words mark)) }
    ensures front { take (vec_len out.old) out.new.items ≡ out.old.items }
{
    match mark {
        Mark::Red(name) => write_named(out, b"red", name),
        Mark::Green(name) => write_named(out, b"green", name),
        Mark::Neutral => write_next_word(out, b"neutral"),
    }
}

// a word and a number, each behind a blank
fn write_named(out: &mut Vec<u8>, word: &[u8], n: u32) -> Result<(), NoMemory>
    ensures text { OnOk result (out.new.items ≡ out.old.items ++ flat_map next (word.now ∷ number n ∷ [])) }
    ensures front { take (vec_len out.old) out.new.items ≡ out.old.items }
{
    write_next_word(out, word)?;
    write_next_number(out, u64::from(n))
}

// a word with one number behind it
fn write_numbered(out: &mut Vec<u8>, word: &[u8], n: u64) -> Result<(), NoMemory>
    ensures text { OnOk result (out.new.items ≡ out.old.items ++ line_text (word.now ∷ number n ∷ [])) }
    ensures front { take (vec_len out.old) out.new.items ≡ out.old.items }
{
    write_word(out, word)?;
    write_next_number(out, n)?;
    end_line(out)
}

// a word with numbers behind it
fn write_listed(out: &mut Vec<u8>, word: &[u8], ns: &[u32]) -> Result<(), NoMemory>
    ensures text { OnOk result (out.new.items ≡ out.old.items ++ line_text (word.now ∷ numbers ns.now)) }
    ensures front { take (vec_len out.old) out.new.items ≡ out.old.items }
{
    write_word(out, word)?;
    write_numbers(out, ns)?;
    end_line(out)
}

// numbers, each behind a blank
fn write_numbers(out: &mut Vec<u8>, ns: &[u32]) -> Result<(), NoMemory>
    ensures text { OnOk result (out.new.items ≡ out.old.items ++ flat_map next (numbers ns.now)) }
    ensures front { take (vec_len out.old) out.new.items ≡ out.old.items }
{
    for n in ns {
        write_next_number(out, u64::from(*n))?;
    }
    Ok(())
}
