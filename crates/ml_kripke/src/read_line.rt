// Reading one line of the body of a satisfiable document.
ghost use Rattle.std.specs.Prelude.{◌≡◌, ◌≢◌, ◌↔◌, ◌<◌, ◌^◌, ℕ, None, IfOk, IfErr, IsErrOf, IsTrue, MatchOption, All, codes, false};
ghost use Rattle.std.specs.Ordering.{nat_cmp};
ghost use Rattle.std.specs.Cmp.Lexicographic.{slice_cmp};
ghost use Rattle.std.specs.Option.{option_copied};
ghost use Rattle.ml_base.specs.Name.{IsName, IsAction};
ghost use Rattle.ml_base.specs.declared.structure.Edge.{Edge};
ghost use Rattle.ml_lines.specs.Lines.{Line};
ghost use Rattle.ml_lines.specs.Reading.{words_of, words_behind, AreWords};
ghost use Rattle.ml_kripke.specs.ModelText.{state_line, edge_line};
ghost use Rattle.ml_kripke.specs.BodyRules.{IsStated, IsEdged, IsEdgeBehind, AtStates, AtStart, AtState, AtEdge};
ghost use Rattle.ml_lists.specs.Last.{last_of};
ghost use Rattle.ml_lists.specs.Chains.{Above};
ghost use Rattle.ml_kripke.specs.private.BodyParts.{IsStatesLine, IsStartLine, IsStateLine, EdgeOrEnd, Ascend};
ghost use Rattle.ml_base.specs.EdgeOrder.{edge_cmp};
ghost use Rattle.std.specs.declared.cmp.Ordering.TheVariants.{Less};
ghost use Rattle.ml_kripke.specs.private.Refusals.{Breaks, TellsRule, IsLowest};

use crate::body_rule::BodyRule;
use ml_base::{Action, Edge, Name, NameRefusal};
use ml_lines::{
    LineRefusal, are_words, four_words, more_number, more_words, one_number, read_number,
    split_word, word_behind,
};
use std::alloc::{AllocError, Global};
use std::cmp::Ordering;

// Why words were refused that stand where labels or an edge stand.
#[derive(Clone, Copy)]
enum PartRefusal {
    /// They are none, or aren't in their order.
    OutOfPlace,
    NoMemory,
}

impl From<NameRefusal> for PartRefusal {
    ghost use Rattle.std.specs.Prelude.{◌≡◌};
    ghost use Rattle.ml_base.specs.declared.name.NameRefusal.TheVariants as name;
    ghost use Rattle.ml_kripke.specs.declared.read_line.PartRefusal.TheVariants as part;

    ghost from_gives = { λ given told. told ≡ part.OutOfPlace → given ≡ name.NotAName };

    fn from(refusal: NameRefusal) -> PartRefusal {
        match refusal {
            NameRefusal::NotAName => PartRefusal::OutOfPlace,
            NameRefusal::NoMemory => PartRefusal::NoMemory,
        }
    }
}

impl From<AllocError> for PartRefusal {
    ghost use Rattle.std.specs.Prelude.{◌≡◌};
    ghost use Rattle.ml_kripke.specs.declared.read_line.PartRefusal.TheVariants as part;

    ghost from_gives = { λ _ e. e ≡ part.NoMemory };

    fn from(_: AllocError) -> PartRefusal {
        PartRefusal::NoMemory
    }
}

// the number of states that a line `states n` tells
pub(crate) fn states_of(line: &[u8]) -> Result<u32, BodyRule>
    ensures read { IfOk result (IsStatesLine (words_of line.now)) }
    ensures refused { IfErr result (Breaks AtStates (words_of line.now)) }
{
    match word_behind(line, b"states") {
        Some(word) => match read_number(word) {
            Some(states) => {
                if states == 0 {
                    Err(BodyRule::HasStates)
                } else {
                    Ok(states)
                }
            }
            None => Err(BodyRule::Numbers),
        },
        None => Err(BodyRule::OfKind),
    }
}

// the state that a line `start s` tells
pub(crate) fn start_of(line: &[u8], states: u32) -> Result<u32, BodyRule>
    ensures read { IfOk result (IsStartLine (words_of line.now) states) }
    ensures refused { IfErr result (Breaks (AtStart states) (words_of line.now)) }
{
    match word_behind(line, b"start") {
        Some(word) => match read_number(word) {
            Some(start) => {
                if start < states {
                    Ok(start)
                } else {
                    Err(BodyRule::StartInRange)
                }
            }
            None => Err(BodyRule::Numbers),
        },
        None => Err(BodyRule::OfKind),
    }
}

// the labels that the line of a state tells
pub(crate) fn labels_of(
    alloc: Global,
    line: &[u8],
    state: u32,
) -> Result<Vec<Name>, LineRefusal<BodyRule>>
    ensures read { IfOk result (λ labels. IsStateLine (words_of line.now) state labels.items) }
    ensures refused { IfErr result (λ e. (states : ℕ) → TellsRule (AtState states state) (words_of line.now) e) }
{
    match state_parts(line) {
        Some((number, behind)) => {
            if number != state {
                return Err(LineRefusal::Breaks(state_rule(line, BodyRule::NextState)));
            }
            match read_labels(alloc, behind) {
                Ok(labels) => Ok(labels),
                Err(PartRefusal::OutOfPlace) => {
                    Err(LineRefusal::Breaks(state_rule(line, BodyRule::Labels)))
                }
                Err(PartRefusal::NoMemory) => Err(LineRefusal::NoMemory),
            }
        }
        None => Err(LineRefusal::Breaks(state_rule(line, BodyRule::Numbers))),
    }
}

// the number behind `state`, and what stands behind it
fn state_parts(line: &[u8]) -> Option<(u32, Option<&[u8]>)>
    ensures { MatchOption result ((n : ℕ) (labels : Line) → n < 2 ^ 32 → words_of line.now ≢ state_line n labels)
        (λ p. (words_of line.now ≡ state_line p.0 (words_behind (option_copied p.1))) × (p.0 < 2 ^ 32)) }
{
    let (word, behind) = split_word(line.strip_prefix(b"state ".as_slice())?);
    Some((read_number(word)?, behind))
}

// the lowest rule that a line breaks which breaks this one: it may not be the line of a state at all
fn state_rule(line: &[u8], rule: BodyRule) -> BodyRule
    ensures { IsLowest (IsStated (words_of line.now)) rule result }
{
    if is_stated(line) {
        rule
    } else {
        BodyRule::OfKind
    }
}

// is the line `state`, one word, and any number of further ones?
fn is_stated(line: &[u8]) -> bool
    ensures { IsTrue result ↔ IsStated (words_of line.now) }
{
    match more_words(line) {
        Some((first, _)) => first == b"state".as_slice() && are_words(line),
        None => false,
    }
}

// the words as labels; out of place where they are none in ascending order
fn read_labels(alloc: Global, behind: Option<&[u8]>) -> Result<Vec<Name>, PartRefusal>
    ensures read { IfOk result (λ labels. (labels.items ≡ words_behind (option_copied behind.entry)) × All IsName labels.items × Ascend labels.items) }
    ensures refused { IsErrOf result PartRefusal.OutOfPlace → ¬ (All IsName (words_behind (option_copied behind.entry)) × Ascend (words_behind (option_copied behind.entry))) }
{
    let mut labels = Vec::with_capacity(alloc, count_words(behind))?;
    let mut left = behind;
    while let Some(text) = left {
        let (word, rest) = split_word(text);
        let label = Name::new(alloc, word)?;
        if !is_above(&labels, &label) {
            return Err(PartRefusal::OutOfPlace);
        }
        match labels.push(label) {
            Ok(()) => left = rest,
            Err(_) => return Err(PartRefusal::NoMemory),
        }
    }
    Ok(labels)
}

// how many words stand there: one more than the blanks between them
fn count_words(behind: Option<&[u8]>) -> usize {
    match behind {
        Some(text) => text.iter().filter(|byte| **byte == b' ').count() + 1,
        None => 0,
    }
}

// is the label above the last one, if there is one?
fn is_above(labels: &[Name], label: &Name) -> bool
    ensures yes { IsTrue result → Above (slice_cmp nat_cmp) (last_of None labels.now) label.now }
    ensures otherwise { result ≡ false → ¬ (Above (slice_cmp nat_cmp) (last_of None labels.now) label.now) }
{
    match labels.last() {
        Some(last) => matches!(last.cmp(label), Ordering::Less),
        None => true,
    }
}

// the edge that a line tells, which stands behind another one or none; `None` at the line `end`
pub(crate) fn edge_of(
    alloc: Global,
    line: &[u8],
    states: u32,
    before: Option<&Edge>,
) -> Result<Option<Edge>, LineRefusal<BodyRule>>
    ensures read { IfOk result (EdgeOrEnd (words_of line.now) states (option_copied before.entry)) }
    ensures refused { IfErr result (TellsRule (AtEdge states (option_copied before.entry)) (words_of line.now)) }
{
    if line == b"end".as_slice() {
        return Ok(None);
    }
    match edge_parts(line) {
        Some((source, action, target)) => {
            match edge_behind(alloc, states, before, source, action, target) {
                Ok(edge) => Ok(Some(edge)),
                Err(PartRefusal::OutOfPlace) => {
                    Err(LineRefusal::Breaks(edge_rule(line, BodyRule::Edges)))
                }
                Err(PartRefusal::NoMemory) => Err(LineRefusal::NoMemory),
            }
        }
        None => Err(LineRefusal::Breaks(edge_rule(line, BodyRule::Numbers))),
    }
}

// the numbers and the action behind `edge`
fn edge_parts(line: &[u8]) -> Option<(u32, &[u8], u32)>
    ensures { MatchOption result ((e : Edge) → e.source < 2 ^ 32 → e.target < 2 ^ 32 → words_of line.now ≢ edge_line e)
        (λ p. (words_of line.now ≡ edge_line (record { source = p.0; action = p.1.now; target = p.2 }))
        × (p.0 < 2 ^ 32) × (p.2 < 2 ^ 32)) }
{
    let (source, behind) = more_number(line.strip_prefix(b"edge ".as_slice())?)?;
    let (action, last) = more_words(behind)?;
    Some((source, action, one_number(last)?))
}

// the lowest rule that a line breaks which breaks this one: it may not be the line of an edge at all
fn edge_rule(line: &[u8], rule: BodyRule) -> BodyRule
    ensures { IsLowest (IsEdged (words_of line.now)) rule result }
{
    if is_edged(line) {
        rule
    } else {
        BodyRule::OfKind
    }
}

// is the line `edge` and three words?
fn is_edged(line: &[u8]) -> bool
    ensures { IsTrue result ↔ IsEdged (words_of line.now) }
{
    match four_words(line) {
        Some((first, ..)) => first == b"edge".as_slice() && are_words(line),
        None => false,
    }
}

// the edge behind another one; out of place where it isn't one
fn edge_behind(
    alloc: Global,
    states: u32,
    before: Option<&Edge>,
    source: u32,
    action: &[u8],
    target: u32,
) -> Result<Edge, PartRefusal>
    ensures read { IfOk result (λ e. (e ≡ record { source = source; action = action.now; target = target }) × IsEdgeBehind states (option_copied before.entry) e) }
    ensures refused { IsErrOf result PartRefusal.OutOfPlace
        → ¬ (IsEdgeBehind states (option_copied before.entry) (record { source = source; action = action.now; target = target })) }
{
    if source >= states || target >= states {
        return Err(PartRefusal::OutOfPlace);
    }
    let edge = Edge {
        source,
        action: Action::new(alloc, action)?,
        target,
    };
    if is_behind(before, &edge) {
        Ok(edge)
    } else {
        Err(PartRefusal::OutOfPlace)
    }
}

// is the edge above the one before it, if there is one?
fn is_behind(before: Option<&Edge>, edge: &Edge) -> bool
    ensures yes { IsTrue result → MatchOption (option_copied before.entry) (Unit {0}) (λ b. edge_cmp b edge.now ≡ Less) }
    ensures otherwise { result ≡ false → ¬ (MatchOption (option_copied before.entry) (Unit {0}) (λ b. edge_cmp b edge.now ≡ Less)) }
{
    match before {
        Some(last) => last.is_before(edge),
        None => true,
    }
}
