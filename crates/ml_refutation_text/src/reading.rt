// Reading a refutation from its text.
ghost use Rattle.std.specs.Prelude.{◌≡◌, ◌≤◌, ◌+◌, ◌^◌, ℕ, [], IfOk, IfErr, IsErrOf};
ghost use Rattle.ml_base.specs.declared.version.Version.{Version};
ghost use Rattle.ml_base.specs.declared.doc_fault.DocFault.{DocFault};
ghost use Rattle.ml_refutation.specs.Views.{of_parts};
ghost use Rattle.ml_refutation_text.specs.BodyRules.{IsTextOf};
ghost use Rattle.ml_refutation.specs.Refutation as plain;
ghost use Rattle.ml_refutation_text.specs.BodyRules as text;
ghost use Rattle.ml_refutation_text.specs.PartLines.{AreLinesOf};
ghost use Rattle.ml_refutation_text.specs.BodyRules.{IsFaultOf, AtNames, AtEntries, AtEnd, AtNothing, after_names, at_entry};
ghost use Rattle.ml_refutation_text.specs.private.Reads.{HasRoom, Goes, TellsFault};
ghost use Rattle.ml_refutation_text.specs.private.ReadTables.{form_of};
ghost use Rattle.ml_refutation_text.specs.private.ItemReads.{knows};
ghost use Rattle.ml_refutation_text.specs.private.BodyReads.{IsBodyRead};
ghost use Rattle.ml_refutation_text.specs.Laws.{IsRefutationText};

use crate::body_rule::BodyRule;
use crate::entries::read_entries;
use crate::known::{Known, Tables};
use crate::lines::{EntryLines, Lines};
use crate::rest::{Rest, fault, next_line};
use crate::rows::read_tables;
use crate::words::read_numbered;
use ml_base::{DocRefusal, Version};
use ml_refutation::{Entry, Lists, Refutation};
use std::alloc::Global;

/// The refutation whose text in a version this is, and the lines at which the parts of its entries begin: the body of an
/// unsatisfiable document, whose first line has this number.
///
/// # Errors
/// `Fault` exactly where the bytes are the text of no refutation in this version, with the first bad line and the lowest
/// rule that is broken there: 21 where a line is missing or not of the kind that stands there, or something follows
/// `end`; 22 where a number isn't one; 23 without an entry; 24 where an entry hasn't the next number; 25 where a sequent
/// doesn't ascend; 26 where more names are in use than there are; 27 where items or names don't ascend or a name isn't in
/// use; 28 where there isn't a height for each even priority; 29 where `go` leads to no entry or names no name; 30 where
/// splits are nested too deep; 31 where a number isn't one of a line of its table. `NoMemory`.
///
/// Cost: linear in the bytes, and so is its memory, in both versions: each list is kept once for the line that has it, and
/// named by its place. It takes memory for what it has read, not for what a number announces.
pub fn read(
    alloc: Global,
    bytes: &[u8],
    first_line: u64,
    version: Version,
) -> Result<(Refutation, Lines), DocRefusal>
    requires { first_line ≤ 2 ^ 63 }
    ensures text { IfOk result (λ r. IsTextOf version bytes.now (of_parts r.0.names r.0.sequents r.0.stacks r.0.entries)) }
    ensures lines { IfOk result (λ r. AreLinesOf version bytes.now first_line (of_parts r.0.names r.0.sequents r.0.stacks r.0.entries) r.1.entries.items) }
    ensures refused { (fault : DocFault) → IsErrOf result (DocRefusal.Fault fault) → IsFaultOf version bytes.now first_line fault }
    ensures no_text { (fault : DocFault) → IsErrOf result (DocRefusal.Fault fault) → ¬ (IsRefutationText version bytes.now) }
{
    let at = Rest {
        text: bytes,
        line: first_line,
    };
    match read_body(alloc, at, version) {
        Ok((names, tables, entries, parts)) => Ok((
            Refutation::new(names, tables.sequents, tables.stacks, entries),
            Lines { entries: parts },
        )),
        Err(refusal) => Err(refusal),
    }
}

// the number of names, the sequents and stacks, the entries and the lines of their parts
fn read_body(
    alloc: Global,
    at: Rest,
    version: Version,
) -> Result<(u32, Tables, Vec<Entry>, Vec<EntryLines>), DocRefusal>
    requires { HasRoom at }
    ensures read { IfOk result (λ r. IsBodyRead version at.entry.text.now at.entry.line (of_parts r.0 r.1.sequents r.1.stacks r.2) r.3.items) }
    ensures refused { IfErr result (TellsFault version AtNames at.entry) }
{
    let (names, at_form) = match read_numbered(at, b"names") {
        Ok(read) => read,
        Err(refusal) => return Err(refusal),
    };
    let (mut tables, at_count) = match read_form(alloc, at_form, names, version) {
        Ok(read) => read,
        Err(refusal) => return Err(refusal),
    };
    let (wanted, at_entries) = match read_count(at_count) {
        Ok(read) => read,
        Err(refusal) => return Err(refusal),
    };
    let known = Known {
        names,
        version,
        wanted,
    };
    let (entries, parts, at_end) = match read_entries(alloc, at_entries, known, &mut tables) {
        Ok(read) => read,
        Err(refusal) => return Err(refusal),
    };
    match read_end(at_end) {
        Ok(_) => Ok((names, tables, entries, parts)),
        Err(refusal) => Err(refusal),
    }
}

// the tables of this version, and none yet where sequents and stacks stand in full
fn read_form<'a>(
    alloc: Global,
    at: Rest<'a>,
    names: u32,
    version: Version,
) -> Result<(Tables, Rest<'a>), DocRefusal>
    requires { HasRoom at }
    ensures read { IfOk result (λ r. Goes version (after_names version names) at.entry (AtEntries names (form_of version r.0)) r.1) }
    ensures refused { IfErr result (TellsFault version (after_names version names) at.entry) }
{
    match version {
        Version::One => Ok((no_lists(alloc), at)),
        Version::Two => read_tables(alloc, at, names),
    }
}

fn no_lists(alloc: Global) -> Tables {
    Tables {
        sequents: Lists::new(alloc),
        stacks: Lists::new(alloc),
    }
}

// how many entries there are to be
fn read_count<'a>(at: Rest<'a>) -> Result<(u32, Rest<'a>), DocRefusal>
    requires { HasRoom at }
    ensures read { IfOk result (λ r. (v : Version) (names : ℕ) (F : text.Form) → Goes v (AtEntries names F) at.entry (at_entry (knows names F r.0) []) r.1) }
    ensures refused { IfErr result (λ e. (v : Version) (names : ℕ) (F : text.Form) → TellsFault v (AtEntries names F) at.entry e) }
{
    match read_numbered(at, b"entries") {
        Ok((count, rest)) => {
            if count > 0 {
                Ok((count, rest))
            } else {
                Err(fault(at.line, BodyRule::HasEntries))
            }
        }
        Err(refusal) => Err(refusal),
    }
}

// the line `end`, behind which nothing stands
fn read_end<'a>(at: Rest<'a>) -> Result<Rest<'a>, DocRefusal>
    requires { HasRoom at }
    ensures read { IfOk result (λ rest. (v : Version) (r : plain.Refutation) → Goes v (AtEnd r) at.entry (AtNothing r) rest) }
    ensures nothing { IfOk result (λ rest. (rest.text.now ≡ []) × (rest.line ≡ at.entry.line + 1)) }
    ensures refused { IfErr result (λ e. (v : Version) (r : plain.Refutation) → TellsFault v (AtEnd r) at.entry e) }
{
    let (line, rest) = match next_line(at) {
        Ok(next) => next,
        Err(refusal) => return Err(refusal),
    };
    if line == b"end".as_slice() {
        if rest.text.is_empty() {
            Ok(rest)
        } else {
            Err(fault(rest.line, BodyRule::OfKind))
        }
    } else {
        Err(fault(at.line, BodyRule::OfKind))
    }
}
