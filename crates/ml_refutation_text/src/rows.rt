// Reading the tables of version 2, and the sequents of version 1.
ghost use Rattle.std.specs.Prelude.{◌≡◌, ◌<◌, ◌+◌, ◌-◌, ◌^◌, min, [], ◌∷◌, ℕ, List, IfOk, IfErr, MatchOption, All, codes, length};
ghost use Rattle.ml_base.specs.declared.version.Version.{Version};
ghost use Rattle.ml_lines.specs.Reading.{words_of, AreWords};
ghost use Rattle.ml_refutation.specs.Refutation as plain;
ghost use Rattle.ml_refutation_text.specs.LineKinds.{IsOfKind};
ghost use Rattle.ml_refutation_text.specs.RefutationText.{sequent_line, stack_line};
ghost use Rattle.ml_refutation_text.specs.BodyRules as text;
ghost use Rattle.ml_refutation_text.specs.BodyRules.{Known, AtSequents, AtTableSequent, AtSequent, AtStacks, AtTableStack, AtEntries, at_sequent_table, at_stack_table, stack_kind};
ghost use Rattle.ml_refutation_text.specs.private.Reads.{HasRoom, Goes, Breaks, TellsFault, TellsRule};
ghost use Rattle.ml_lists.specs.Ascending.{IsAscending};
ghost use Rattle.ml_refutation_text.specs.private.EntryReads.{IsSequentRead, TellsSequent, IsStacks};

use crate::body_rule::BodyRule;
use crate::known::Tables;
use crate::lists::{are_names, ascends};
use crate::rest::{Rest, at_line, fault, next_line};
use crate::words::{listed_words, read_any, read_numbered, read_numbers};
use ml_base::DocRefusal;
use ml_lines::{LineRefusal, are_words, more_words, word_behind};
use ml_refutation::Lists;
use std::alloc::Global;

// a line with a sequent
pub(crate) fn read_sequent<'a>(
    alloc: Global,
    at: Rest<'a>,
) -> Result<(Vec<u32>, Rest<'a>), DocRefusal>
    requires { HasRoom at }
    ensures read { IfOk result (λ r. IsSequentRead at.entry r.0.items r.1) }
    ensures refused { IfErr result (TellsSequent at.entry) }
{
    let (line, rest) = match next_line(at) {
        Ok(next) => next,
        Err(refusal) => return Err(refusal),
    };
    match sequent_of(alloc, line) {
        Ok(sequent) => Ok((sequent, rest)),
        Err(refusal) => Err(at_line(at.line, refusal)),
    }
}

// the sequent that a line tells
fn sequent_of(alloc: Global, line: &[u8]) -> Result<Vec<u32>, LineRefusal<BodyRule>>
    ensures read { IfOk result (λ q. (words_of line.now ≡ sequent_line q.items) × All plain.Fits q.items × IsAscending q.items) }
    ensures table { IfErr result (λ e. (names size : ℕ) (rows : List (List ℕ)) → TellsRule (AtTableSequent names size rows) (words_of line.now) e) }
    ensures entry { IfErr result (λ e. (k : Known) (es : List plain.Entry) → TellsRule (AtSequent k es) (words_of line.now) e) }
{
    match listed_words(line, b"sequent") {
        Some(behind) => match read_numbers(alloc, behind)? {
            Some(sequent) => {
                if ascends(&sequent) {
                    Ok(sequent)
                } else {
                    Err(LineRefusal::Breaks(BodyRule::SequentAscends))
                }
            }
            None => Err(LineRefusal::Breaks(BodyRule::Numbers)),
        },
        None => Err(LineRefusal::Breaks(BodyRule::OfKind)),
    }
}

// the tables, with the numbers of their lines
pub(crate) fn read_tables<'a>(
    alloc: Global,
    at: Rest<'a>,
    names: u32,
) -> Result<(Tables, Rest<'a>), DocRefusal>
    requires { HasRoom at }
    ensures read { IfOk result (λ r. (v : Version) → Goes v (AtSequents names) at.entry (AtEntries names (text.ByTables r.0.sequents r.0.stacks)) r.1) }
    ensures refused { IfErr result (λ e. (v : Version) → TellsFault v (AtSequents names) at.entry e) }
{
    let (sequents, behind) = match read_sequents(alloc, at) {
        Ok(read) => read,
        Err(refusal) => return Err(refusal),
    };
    match read_stacks(alloc, behind, names) {
        Ok((stacks, rest)) => Ok((Tables { sequents, stacks }, rest)),
        Err(refusal) => Err(refusal),
    }
}

// the table of sequents, with the number of its lines
fn read_sequents<'a>(alloc: Global, at: Rest<'a>) -> Result<(Lists, Rest<'a>), DocRefusal>
    requires { HasRoom at }
    ensures read { IfOk result (λ r. (v : Version) (names : ℕ) → Goes v (AtSequents names) at.entry (AtStacks names r.0) r.1) }
    ensures refused { IfErr result (λ e. (v : Version) (names : ℕ) → TellsFault v (AtSequents names) at.entry e) }
{
    let (size, behind) = match read_numbered(at, b"sequents") {
        Ok(read) => read,
        Err(refusal) => return Err(refusal),
    };
    read_sequent_rows(alloc, behind, size)
}

// so many lines of the table of sequents
fn read_sequent_rows<'a>(
    alloc: Global,
    at: Rest<'a>,
    size: u32,
) -> Result<(Lists, Rest<'a>), DocRefusal>
    requires { HasRoom at }
    ensures read { IfOk result (λ r. (v : Version) (names : ℕ) → Goes v (at_sequent_table names size []) at.entry (AtStacks names r.0) r.1) }
    ensures refused { IfErr result (λ e. (v : Version) (names : ℕ) → TellsFault v (at_sequent_table names size []) at.entry e) }
{
    let mut rows = Lists::new(alloc);
    let mut rest = at;
    'rows: while (rows.len() as u64) < u64::from(size) {
        let (sequent, behind) = match read_sequent(alloc, rest) {
            Ok(read) => read,
            Err(refusal) => return Err(refusal),
        };
        rows.push(&sequent)?;
        rest = behind;
    }
    Ok((rows, rest))
}

// the table of stacks, with the number of its lines
fn read_stacks<'a>(alloc: Global, at: Rest<'a>, names: u32) -> Result<(Lists, Rest<'a>), DocRefusal>
    requires { HasRoom at }
    ensures read { IfOk result (λ r. (v : Version) (qs : List (List ℕ)) → Goes v (AtStacks names qs) at.entry (AtEntries names (text.ByTables qs r.0)) r.1) }
    ensures ascend { IfOk result (λ r. All IsAscending r.0) }
    ensures refused { IfErr result (λ e. (v : Version) (qs : List (List ℕ)) → TellsFault v (AtStacks names qs) at.entry e) }
{
    let (line, behind) = match next_line(at) {
        Ok(next) => next,
        Err(refusal) => return Err(refusal),
    };
    match stacks_of(line) {
        Ok(size) => read_stack_rows(alloc, behind, names, size),
        Err(rule) => Err(fault(at.line, rule)),
    }
}

// so many lines of the table of stacks, or all that there are, where so many can't be
fn read_stack_rows<'a>(
    alloc: Global,
    at: Rest<'a>,
    names: u32,
    size: u64,
) -> Result<(Lists, Rest<'a>), DocRefusal>
    requires room { HasRoom at }
    requires some { 0 < at.line }
    ensures read { IfOk result (λ r. (v : Version) (count : ℕ) (qs : List (List ℕ)) → size ≡ min count (2 ^ 64 - 1)
        → Goes v (at_stack_table names qs count []) at.entry (AtEntries names (text.ByTables qs r.0)) r.1) }
    ensures ascend { IfOk result (λ r. All IsAscending r.0) }
    ensures refused { IfErr result (λ e. (v : Version) (count : ℕ) (qs : List (List ℕ)) → size ≡ min count (2 ^ 64 - 1)
        → TellsFault v (at_stack_table names qs count []) at.entry e) }
{
    let mut rows = Lists::new(alloc);
    let mut rest = at;
    'rows: while (rows.len() as u64) < size {
        let (line, behind) = match next_line(rest) {
            Ok(next) => next,
            Err(refusal) => return Err(refusal),
        };
        let stack = match stack_of(alloc, line, names) {
            Ok(stack) => stack,
            Err(refusal) => return Err(at_line(rest.line, refusal)),
        };
        rows.push(&stack)?;
        rest = behind;
    }
    Ok((rows, rest))
}

// the number of stacks that a line tells, or the greatest of 64 bits, where it is above that
fn stacks_of(line: &[u8]) -> Result<u64, BodyRule>
    ensures read { IfOk result (IsStacks (words_of line.now)) }
    ensures refused { IfErr result (λ rule. (names : ℕ) (qs : List (List ℕ)) → Breaks (AtStacks names qs) (words_of line.now) rule) }
{
    match word_behind(line, b"stacks") {
        Some(word) => match read_any(word) {
            Some(size) => Ok(size),
            None => Err(BodyRule::Numbers),
        },
        None => Err(BodyRule::OfKind),
    }
}

// the stack that a line of its table tells
fn stack_of(alloc: Global, line: &[u8], names: u32) -> Result<Vec<u32>, LineRefusal<BodyRule>>
    ensures read { IfOk result (λ ns. (words_of line.now ≡ stack_line ns.items) × plain.IsStack names ns.items) }
    ensures refused { IfErr result (λ e. (qs rows : List (List ℕ)) (size : ℕ) → TellsRule (AtTableStack names qs size rows) (words_of line.now) e) }
{
    match stack_words(line) {
        Some(behind) => match read_numbers(alloc, Some(behind))? {
            Some(stack) => {
                if are_names(&stack, names) {
                    Ok(stack)
                } else {
                    Err(LineRefusal::Breaks(BodyRule::ItemsAscend))
                }
            }
            None => Err(LineRefusal::Breaks(BodyRule::Numbers)),
        },
        None => Err(LineRefusal::Breaks(BodyRule::OfKind)),
    }
}

// what stands behind `stack` and its blank, where the line begins with them
fn stack_words(line: &[u8]) -> Option<&[u8]>
    ensures { MatchOption result (¬ (IsOfKind stack_kind (words_of line.now)))
        (λ behind. AreWords (words_of line.now) × (words_of line.now ≡ codes "stack" ∷ words_of behind.now)) }
{
    let (first, behind) = more_words(line)?;
    if first == b"stack".as_slice() && are_words(line) {
        Some(behind)
    } else {
        None
    }
}
