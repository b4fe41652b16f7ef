// Reading a model from its text.
ghost use Rattle.std.specs.Prelude.{◌≡◌, ◌<◌, ◌≤◌, ◌+◌, ◌^◌, [], ◌∷◌, length, map, None, IfOk, IfErr, IsErrOf};
ghost use Rattle.ml_kripke.specs.BodyRules.{AtStates, AtStart, AtEdge, AtNothing, at_state, IsFaultOf};
ghost use Rattle.ml_kripke.specs.RuleNumbers.{rule_number};
ghost use Rattle.ml_lines.specs.private.Fronts.{GoesOn};
ghost use Rattle.ml_kripke.specs.private.BodyParts.{AreRows, IsWholeEnd};
ghost use Rattle.ml_kripke.specs.ModelText.{state_lines, model_text};
ghost use Rattle.ml_kripke.specs.BodyLines.{states_line, start_line};
ghost use Rattle.ml_base.specs.declared.doc_fault.DocFault.{DocFault};
ghost use Rattle.ml_kripke.specs.Laws.{IsModelText};
ghost use Rattle.ml_kripke.specs.Ordered.{HasNames};
ghost use Rattle.ml_kripke.specs.private.Refusals as refusals;
ghost use Rattle.ml_kripke.specs.private.Refusals.{TellsFault};

use crate::body_rule::BodyRule;
use crate::model::Model;
use crate::read_line::{edge_of, labels_of, start_of, states_of};
use crate::structure::Structure;
use ml_base::{DocFault, DocRefusal, Edge, Name};
use ml_lines::{LineRefusal, split_line};
use std::alloc::Global;

/// The model whose text this is: the body of a satisfiable document, whose first line has this number.
///
/// # Errors
/// `Fault` exactly where the bytes are the text of no model, with the first bad line and the lowest rule that is broken
/// there: 11 where a line is missing or not of the kind that stands there, or something follows `end`; 12 where a
/// number isn't one; 13 without a state; 14 where the start is no state; 15 where a state's line hasn't the next
/// number; 16 where labels aren't names in ascending order; 17 where an edge doesn't join states by an action, or isn't
/// above the one before it. `NoMemory`.
///
/// Cost: linear in the bytes. It takes memory for what it has read, not for what a number announces.
pub fn read_model(alloc: Global, bytes: &[u8], first_line: u64) -> Result<Model, DocRefusal>
    requires { first_line ≤ 2 ^ 63 }
    ensures text { IfOk result (λ m. bytes.now ≡ model_text m.structure m.start) }
    ensures names { IfOk result (λ m. HasNames m.structure) }
    ensures refused { (fault : DocFault) → IsErrOf result (DocRefusal.Fault fault) → IsFaultOf bytes.now first_line fault }
    ensures no_model { (fault : DocFault) → IsErrOf result (DocRefusal.Fault fault) → ¬ (IsModelText bytes.now) }
{
    read_body(alloc, bytes, first_line)
}

fn read_body(alloc: Global, bytes: &[u8], line: u64) -> Result<Model, DocRefusal>
    requires { line ≤ 2 ^ 63 }
    ensures text { IfOk result (λ m. bytes.now ≡ model_text m.structure m.start) }
    ensures names { IfOk result (λ m. HasNames m.structure) }
    ensures refused { IfErr result (TellsFault AtStates line bytes.now) }
{
    let (states, starts) = read_states(bytes, line)?;
    let (start, behind) = read_start(starts, line + 1, states)?;
    let (labels, rest) = read_rows(alloc, behind, line + 2, states)?;
    let edges = read_edges(alloc, rest, line + 2 + u64::from(states), states)?;
    Ok(Model::new(Structure::of_parts(states, labels, edges), start))
}

fn fault(line: u64, rule: BodyRule) -> DocRefusal
    ensures { result ≡ DocRefusal.Fault (record { line = line; rule = rule_number rule }) }
{
    DocRefusal::Fault(DocFault {
        line,
        rule: rule.number(),
    })
}

fn read_states(text: &[u8], line: u64) -> Result<(u32, &[u8]), DocRefusal>
    ensures read { IfOk result (λ r. GoesOn text.now (states_line r.0 ∷ []) r.1.now × (0 < r.0) × (r.0 < 2 ^ 32)) }
    ensures refused { IfErr result (TellsFault AtStates line text.now) }
{
    match split_line(text) {
        Some((words, rest)) => match states_of(words) {
            Ok(states) => Ok((states, rest)),
            Err(rule) => Err(fault(line, rule)),
        },
        None => Err(fault(line, BodyRule::OfKind)),
    }
}

fn read_start(text: &[u8], line: u64, states: u32) -> Result<(u32, &[u8]), DocRefusal>
    ensures read { IfOk result (λ r. GoesOn text.now (start_line r.0 ∷ []) r.1.now × (r.0 < states)) }
    ensures refused { IfErr result (TellsFault (AtStart states) line text.now) }
{
    match split_line(text) {
        Some((words, rest)) => match start_of(words, states) {
            Ok(start) => Ok((start, rest)),
            Err(rule) => Err(fault(line, rule)),
        },
        None => Err(fault(line, BodyRule::OfKind)),
    }
}

// the labels of all states, a row for each
fn read_rows(
    alloc: Global,
    text: &[u8],
    line: u64,
    states: u32,
) -> Result<(Vec<Vec<Name>>, &[u8]), DocRefusal>
    requires { line + length text.now < 2 ^ 64 }
    ensures read { IfOk result (λ r. let rows = map (λ row. row.items) r.0.items in
        GoesOn text.now (state_lines 0 rows) r.1.now × AreRows states rows) }
    ensures refused { IfErr result (TellsFault (at_state states 0) line text.now) }
{
    let mut rows = Vec::new(alloc);
    let mut rest = text;
    for state in 0..states {
        let at = line + u64::from(state);
        match split_line(rest) {
            Some((words, behind)) => {
                match labels_of(alloc, words, state) {
                    Ok(labels) => rows.push(labels)?,
                    Err(refusal) => return Err(at_line(at, refusal)),
                }
                rest = behind;
            }
            None => return Err(fault(at, BodyRule::OfKind)),
        }
    }
    Ok((rows, rest))
}

// the edges, up to the line `end` and the end of the text
fn read_edges(alloc: Global, text: &[u8], line: u64, states: u32) -> Result<Vec<Edge>, DocRefusal>
    requires { line + length text.now < 2 ^ 64 }
    ensures read { IfOk result (λ edges. IsWholeEnd text.now states edges.items) }
    ensures refused { IfErr result (TellsFault (AtEdge states None) line text.now) }
{
    let mut edges: Vec<Edge> = Vec::new(alloc);
    let mut rest = text;
    loop {
        let at = line + edges.len() as u64;
        match split_line(rest) {
            Some((words, behind)) => {
                match edge_of(alloc, words, states, edges.last()) {
                    Ok(Some(edge)) => edges.push(edge)?,
                    Ok(None) => return ended(edges, behind, at),
                    Err(refusal) => return Err(at_line(at, refusal)),
                }
                rest = behind;
            }
            None => return Err(fault(at, BodyRule::OfKind)),
        }
    }
}

// the edges, where nothing follows the line `end`, which has this number
fn ended(edges: Vec<Edge>, rest: &[u8], line: u64) -> Result<Vec<Edge>, DocRefusal>
    requires { line + 1 < 2 ^ 64 }
    ensures read { IfOk result (λ es. (es.items ≡ edges.items) × (rest.now ≡ [])) }
    ensures refused { IfErr result (TellsFault AtNothing (line + 1) rest.now) }
{
    if rest.is_empty() {
        Ok(edges)
    } else {
        Err(fault(line + 1, BodyRule::OfKind))
    }
}

fn at_line(line: u64, refusal: LineRefusal<BodyRule>) -> DocRefusal
    ensures { result ≡ refusals.at_line line refusal }
{
    match refusal {
        LineRefusal::Breaks(rule) => fault(line, rule),
        LineRefusal::NoMemory => DocRefusal::NoMemory,
    }
}
