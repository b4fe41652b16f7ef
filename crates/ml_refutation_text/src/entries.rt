// Reading the entries.
ghost use Rattle.std.specs.Prelude.{◌≡◌, ◌<◌, ◌≤◌, ◌+◌, ◌++◌, ℕ, List, [], ◌∷◌, IfOk, IfErr, map, length, slice_index_or};
ghost use Rattle.ml_base.specs.declared.version.Version.{Version};
ghost use Rattle.ml_refutation.specs.Refutation as plain;
ghost use Rattle.ml_lines.specs.Reading.{words_of};
ghost use Rattle.ml_refutation.specs.Views.{entry_of};
ghost use Rattle.ml_refutation_text.specs.BodyRules.{AtEntry, AtSequent, AtLive, AtItem, at_entry};
ghost use Rattle.ml_refutation_text.specs.BodyRules as text;
ghost use Rattle.ml_refutation_text.specs.PartLines.{head_size, sequent_at, entry_size, entries_size, parts_of, parts_from};
ghost use Rattle.ml_refutation_text.specs.private.Reads.{HasRoom, Goes, Breaks, TellsFault};
ghost use Rattle.ml_refutation_text.specs.private.ReadTables.{form_of, known_of, Grows};
ghost use Rattle.ml_refutation_text.specs.private.EntryReads.{IsPlacedAt};
ghost use Rattle.ml_refutation_text.specs.private.ItemReads.{knows};

use crate::body_rule::BodyRule;
use crate::branches::read_decision;
use crate::known::{Known, Tables};
use crate::lines::EntryLines;
use crate::rest::{Rest, fault, next_line};
use crate::rows::read_sequent;
use crate::traces::read_traces;
use crate::words::{read_numbered, words_behind_fixed};
use ml_base::{DocRefusal, Version};
use ml_lines::read_number;
use ml_refutation::Entry;
use std::alloc::Global;

// the entries, and the lines of their parts
pub(crate) fn read_entries<'a>(
    alloc: Global,
    at: Rest<'a>,
    known: Known,
    tables: &mut Tables,
) -> Result<(Vec<Entry>, Vec<EntryLines>, Rest<'a>), DocRefusal>
    requires { HasRoom at }
    ensures read { IfOk result (λ r. (v : Version) → Goes v (at_entry (known_of known tables.old) []) at.entry (at_entry (known_of known tables.old) (map (entry_of tables.new.sequents tables.new.stacks) r.0.items)) r.2) }
    ensures whole { IfOk result (λ r. length r.0.items ≡ known.wanted) }
    ensures parts { IfOk result (λ r. r.1.items ≡ parts_from known.version at.entry.line (map (entry_of tables.new.sequents tables.new.stacks) r.0.items)) }
    ensures counted { IfOk result (λ r. r.2.line ≡ at.entry.line + entries_size known.version (map (entry_of tables.new.sequents tables.new.stacks) r.0.items)) }
    ensures refused { IfErr result (λ e. (v : Version) → TellsFault v (at_entry (known_of known tables.old) []) at.entry e) }
{
    let mut entries = Vec::new(alloc);
    let mut parts = Vec::new(alloc);
    let mut rest = at;
    for number in 0..known.wanted {
        let (entry, lines, behind) = match read_entry(alloc, rest, known, tables, number) {
            Ok(read) => read,
            Err(refusal) => return Err(refusal),
        };
        entries.push(entry)?;
        parts.push(lines)?;
        rest = behind;
    }
    Ok((entries, parts, rest))
}

// the entry of this number
fn read_entry<'a>(
    alloc: Global,
    at: Rest<'a>,
    known: Known,
    tables: &mut Tables,
    number: u32,
) -> Result<(Entry, EntryLines, Rest<'a>), DocRefusal>
    requires { HasRoom at }
    ensures read { IfOk result (λ r. (v : Version) (es : List plain.Entry) (later : Tables) → length es ≡ number → Grows known.version tables.new later
        → Goes v (AtEntry (known_of known tables.old) es) at.entry
        (at_entry (known_of known tables.old) (es ++ entry_of later.sequents later.stacks r.0 ∷ [])) r.2) }
    ensures grows { Grows known.version tables.old tables.new }
    ensures parts { IfOk result (λ r. (qs ks : List (List ℕ)) → r.1 ≡ parts_of known.version at.entry.line (entry_of qs ks r.0)) }
    ensures counted { IfOk result (λ r. (qs ks : List (List ℕ)) → r.2.line ≡ at.entry.line + entry_size known.version (entry_of qs ks r.0)) }
    ensures refused { IfErr result (λ e. (v : Version) (es : List plain.Entry) → length es ≡ number → TellsFault v (AtEntry (known_of known tables.old) es) at.entry e) }
{
    let (sequent, sequent_line, at_live) = match read_head(
        alloc,
        at,
        known.version,
        tables,
        number,
    ) {
        Ok(read) => read,
        Err(refusal) => return Err(refusal),
    };
    let (live, at_items) = match read_live(at_live, known.names) {
        Ok(read) => read,
        Err(refusal) => return Err(refusal),
    };
    let (items, heights, at_decision) = match read_traces(
        alloc,
        at_items,
        known.version,
        known.names,
        tables,
        live,
    ) {
        Ok(read) => read,
        Err(refusal) => return Err(refusal),
    };
    let (decision, rest) = match read_decision(alloc, at_decision, known.names, known.wanted) {
        Ok(read) => read,
        Err(refusal) => return Err(refusal),
    };
    let lines = EntryLines {
        sequent: sequent_line,
        live: at_live.line,
        items: at_items.line,
        heights: at_decision.line - 1,
        decision: at_decision.line,
    };
    let entry = Entry {
        sequent,
        live,
        items,
        heights,
        decision,
    };
    Ok((entry, lines, rest))
}

// the place of the sequent of an entry, and the line that tells it
fn read_head<'a>(
    alloc: Global,
    at: Rest<'a>,
    version: Version,
    tables: &mut Tables,
    number: u32,
) -> Result<(usize, u64, Rest<'a>), DocRefusal>
    requires { HasRoom at }
    ensures read { IfOk result (λ r. (v : Version) (names wanted : ℕ) (es : List plain.Entry) (later : Tables) → length es ≡ number → Grows version tables.new later
        → Goes v (AtEntry (knows names (form_of version tables.old) wanted) es) at.entry
        (AtLive (knows names (form_of version tables.old) wanted) es (slice_index_or later.sequents r.0 [])) r.2) }
    ensures grows { Grows version tables.old tables.new }
    ensures line { IfOk result (λ r. r.1 ≡ sequent_at version at.entry.line) }
    ensures counted { IfOk result (λ r. r.2.line ≡ at.entry.line + head_size version) }
    ensures refused { IfErr result (λ e. (v : Version) (names wanted : ℕ) (es : List plain.Entry) → length es ≡ number
        → TellsFault v (AtEntry (knows names (form_of version tables.old) wanted) es) at.entry e) }
{
    match version {
        Version::One => {
            let behind = match read_entry_number(at, number) {
                Ok(behind) => behind,
                Err(refusal) => return Err(refusal),
            };
            match read_sequent(alloc, behind) {
                Ok((sequent, rest)) => Ok((tables.sequents.push(&sequent)?, behind.line, rest)),
                Err(refusal) => Err(refusal),
            }
        }
        Version::Two => match read_placed(at, tables.sequents.len(), number) {
            Ok((place, rest)) => Ok((place, at.line, rest)),
            Err(refusal) => Err(refusal),
        },
    }
}

// the first line of an entry of version 1, which has this number
fn read_entry_number<'a>(at: Rest<'a>, number: u32) -> Result<Rest<'a>, DocRefusal>
    requires { HasRoom at }
    ensures read { IfOk result (λ rest. (v : Version) (names wanted : ℕ) (es : List plain.Entry) → length es ≡ number
        → Goes v (AtEntry (knows names text.InFull wanted) es) at.entry (AtSequent (knows names text.InFull wanted) es) rest) }
    ensures counted { IfOk result (λ rest. rest.line ≡ at.entry.line + 1) }
    ensures refused { IfErr result (λ e. (v : Version) (names wanted : ℕ) (es : List plain.Entry) → length es ≡ number
        → TellsFault v (AtEntry (knows names text.InFull wanted) es) at.entry e) }
{
    match read_numbered(at, b"entry") {
        Ok((n, rest)) => {
            if n == number {
                Ok(rest)
            } else {
                Err(fault(at.line, BodyRule::NextEntry))
            }
        }
        Err(refusal) => Err(refusal),
    }
}

// the first line of an entry of version 2, which has this number, and the place that it names among so many sequents
fn read_placed<'a>(at: Rest<'a>, size: usize, number: u32) -> Result<(usize, Rest<'a>), DocRefusal>
    requires { HasRoom at }
    ensures read { IfOk result (λ r. (v : Version) (names wanted : ℕ) (qs ks : List (List ℕ)) (es : List plain.Entry) → length qs ≡ size → length es ≡ number
        → Goes v (AtEntry (knows names (text.ByTables qs ks) wanted) es) at.entry
        (AtLive (knows names (text.ByTables qs ks) wanted) es (slice_index_or qs r.0 [])) r.1) }
    ensures counted { IfOk result (λ r. r.1.line ≡ at.entry.line + 1) }
    ensures refused { IfErr result (λ e. (v : Version) (names wanted : ℕ) (qs ks : List (List ℕ)) (es : List plain.Entry) → length qs ≡ size → length es ≡ number
        → TellsFault v (AtEntry (knows names (text.ByTables qs ks) wanted) es) at.entry e) }
{
    let (line, rest) = match next_line(at) {
        Ok(next) => next,
        Err(refusal) => return Err(refusal),
    };
    match placed(line, size, number) {
        Ok(place) => Ok((place, rest)),
        Err(rule) => Err(fault(at.line, rule)),
    }
}

// the place of the sequent that the first line of an entry of version 2 names, among so many
fn placed(line: &[u8], size: usize, number: u32) -> Result<usize, BodyRule>
    ensures read { IfOk result (IsPlacedAt size number (words_of line.now)) }
    ensures refused { IfErr result (λ rule. (names wanted : ℕ) (qs ks : List (List ℕ)) (es : List plain.Entry) → length qs ≡ size → length es ≡ number
        → Breaks (AtEntry (knows names (text.ByTables qs ks) wanted) es) (words_of line.now) rule) }
{
    match words_behind_fixed(line, b"entry") {
        Some((first, second)) => match read_number(first) {
            Some(n) => match read_number(second) {
                Some(place) => {
                    if n != number {
                        Err(BodyRule::NextEntry)
                    } else if u64::from(place) >= size as u64 {
                        Err(BodyRule::InTables)
                    } else {
                        Ok(place as usize)
                    }
                }
                None => Err(BodyRule::Numbers),
            },
            None => Err(BodyRule::Numbers),
        },
        None => Err(BodyRule::OfKind),
    }
}

// how many names are in use
fn read_live<'a>(at: Rest<'a>, names: u32) -> Result<(u32, Rest<'a>), DocRefusal>
    requires { HasRoom at }
    ensures read { IfOk result (λ r. (v : Version) (F : text.Form) (wanted : ℕ) (es : List plain.Entry) (q : List ℕ)
        → Goes v (AtLive (knows names F wanted) es q) at.entry (AtItem (knows names F wanted) es q (record { live = r.0; items = [] })) r.1) }
    ensures within { IfOk result (λ r. r.0 ≤ names) }
    ensures counted { IfOk result (λ r. r.1.line ≡ at.entry.line + 1) }
    ensures refused { IfErr result (λ e. (v : Version) (F : text.Form) (wanted : ℕ) (es : List plain.Entry) (q : List ℕ)
        → TellsFault v (AtLive (knows names F wanted) es q) at.entry e) }
{
    match read_numbered(at, b"live") {
        Ok((live, rest)) => {
            if live <= names {
                Ok((live, rest))
            } else {
                Err(fault(at.line, BodyRule::LiveWithin))
            }
        }
        Err(refusal) => Err(refusal),
    }
}
