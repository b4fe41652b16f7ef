// The text of a deterministic automaton.
ghost use Rattle.std.specs.Prelude.{◌≡◌, ◌+◌, ◌-◌, ◌<◌, ◌≤◌, ◌++◌, IfOk, OnOk};
ghost use Rattle.std.specs.List.{flat_map, enumerate_from, range_with_len};
ghost use Rattle.ml_lines.specs.Lines.{line_text, next, number, text_of};
ghost use Rattle.ml_hoa.specs.Automaton.{most_props};
ghost use Rattle.ml_hoa.specs.WrittenLines.{bracketed};
ghost use Rattle.ml_determinise.specs.Numbering.{rows_of};
ghost use Rattle.ml_buchi.specs.WrittenText.{acceptance_line, alone, automaton_text, braced, condition_text, head_lines, label, literal, move_text, operand_text, parity_condition, state_text};
ghost use Rattle.ml_buchi.specs.private.Openings.{closings, opening};

use crate::deterministic::Deterministic;
use ml_base::NoMemory;
use ml_determinise::DetMove;
use ml_hoa::{
    Quoted, write_body_line, write_last_line, write_opening, write_signed, write_state_line,
};
use ml_lines::{end_line, write_next_number, write_number, write_word};
use std::alloc::Global;

/// The text of a deterministic automaton, in HOA's first version. Its acceptance says in full that the lowest set that is
/// met again and again is odd; a label has a literal for each proposition.
///
/// # Errors
/// `NoMemory` alone.
///
/// Cost: linear in the text.
///
/// Source: Babiak, Blahoudek, Duret-Lutz, Klein, Kretinsky, Mueller, Parker and Strejcek, The Hanoi Omega-Automata Format
/// (2015).
pub fn write(alloc: Global, automaton: &Deterministic) -> Result<Vec<u8>, NoMemory>
    ensures { IfOk result (λ text. text.items ≡ automaton_text automaton.now) }
{
    let mut out = Vec::new(alloc);
    let props = automaton.props();
    let moves = automaton.moves();
    write_head(&mut out, moves.len(), props, automaton.top())?;
    write_states(&mut out, props.len(), moves)?;
    write_last_line(&mut out)?;
    Ok(out)
}

// ---- the lines before the states

fn write_head(out: &mut Vec<u8>, states: usize, props: &[Quoted], top: u32) -> Result<(), NoMemory>
    requires { 0 < top }
    ensures { OnOk result (out.new.items ≡ out.old.items ++ text_of (head_lines states props.now top)) }
{
    write_opening(out, states, props)?;
    write_acceptance(out, top)?;
    write_body_line(out)
}

// what is said of one set
fn write_alone(out: &mut Vec<u8>, set: u32) -> Result<(), NoMemory>
    ensures { OnOk result (out.new.items ≡ out.old.items ++ operand_text (alone set)) }
{
    if set % 2 == 0 {
        write_word(out, b"Fin(")?;
    } else {
        write_word(out, b"Inf(")?;
    }
    write_number(out, u64::from(set))?;
    write_word(out, b")")
}

// what is said of a set behind which others stand, up to what is said of these
fn write_front(out: &mut Vec<u8>, set: u32, top: u32) -> Result<(), NoMemory>
    requires { set + 1 < top }
    ensures { OnOk result (out.new.items ≡ out.old.items ++ opening top set) }
{
    write_alone(out, set)?;
    out.push(if set % 2 == 0 { b'&' } else { b'|' })?;
    if set + 2 < top {
        out.push(b'(')?;
    }
    Ok(())
}

fn write_openings(out: &mut Vec<u8>, top: u32) -> Result<(), NoMemory>
    requires { 0 < top }
    ensures { OnOk result (out.new.items ≡ out.old.items ++ flat_map (opening top) (range_with_len 0 (top - 1))) }
{
    for set in 0..top - 1 {
        write_front(out, set, top)?;
    }
    Ok(())
}

fn write_closings(out: &mut Vec<u8>, count: u32) -> Result<(), NoMemory>
    ensures { OnOk result (out.new.items ≡ out.old.items ++ closings count) }
{
    for _ in 0..count {
        out.push(b')')?;
    }
    Ok(())
}

fn write_condition(out: &mut Vec<u8>, top: u32) -> Result<(), NoMemory>
    requires { 0 < top }
    ensures { OnOk result (out.new.items ≡ out.old.items ++ next (condition_text (parity_condition top))) }
{
    write_word(out, b" ")?;
    write_openings(out, top)?;
    write_alone(out, top - 1)?;
    write_closings(out, top.saturating_sub(2))
}

fn write_acceptance(out: &mut Vec<u8>, top: u32) -> Result<(), NoMemory>
    requires { 0 < top }
    ensures { OnOk result (out.new.items ≡ out.old.items ++ line_text (acceptance_line top)) }
{
    write_word(out, b"Acceptance:")?;
    write_next_number(out, u64::from(top))?;
    write_condition(out, top)?;
    end_line(out)
}

// ---- the states

fn write_literal(out: &mut Vec<u8>, valuation: usize, prop: usize) -> Result<(), NoMemory>
    requires { prop < most_props }
    ensures { OnOk result (out.new.items ≡ out.old.items ++ literal valuation prop) }
{
    let positive = (valuation >> prop) & 1 == 1;
    write_signed(out, positive, prop as u64)
}

fn write_label(out: &mut Vec<u8>, props: usize, valuation: usize) -> Result<(), NoMemory>
    requires { props ≤ most_props }
    ensures { OnOk result (out.new.items ≡ out.old.items ++ label props valuation) }
{
    if props == 0 {
        return write_word(out, b"t");
    }
    write_literal(out, valuation, 0)?;
    for prop in 1..props {
        out.push(b'&')?;
        write_literal(out, valuation, prop)?;
    }
    Ok(())
}

// the label between its brackets
fn write_bracketed(out: &mut Vec<u8>, props: usize, valuation: usize) -> Result<(), NoMemory>
    requires { props ≤ most_props }
    ensures { OnOk result (out.new.items ≡ out.old.items ++ bracketed (label props valuation)) }
{
    write_word(out, b"[")?;
    write_label(out, props, valuation)?;
    write_word(out, b"]")
}

// the set of a move between its braces
fn write_set(out: &mut Vec<u8>, set: u32) -> Result<(), NoMemory>
    ensures { OnOk result (out.new.items ≡ out.old.items ++ next (braced (number set))) }
{
    write_word(out, b" {")?;
    write_number(out, u64::from(set))?;
    write_word(out, b"}")
}

fn write_move(
    out: &mut Vec<u8>,
    props: usize,
    valuation: usize,
    det_move: DetMove,
) -> Result<(), NoMemory>
    requires { props ≤ most_props }
    ensures { OnOk result (out.new.items ≡ out.old.items ++ move_text props (valuation, det_move)) }
{
    write_bracketed(out, props, valuation)?;
    write_next_number(out, u64::from(det_move.to))?;
    write_set(out, det_move.priority)?;
    end_line(out)
}

fn write_state(
    out: &mut Vec<u8>,
    props: usize,
    state: usize,
    moves: &[DetMove],
) -> Result<(), NoMemory>
    requires { props ≤ most_props }
    ensures { OnOk result (out.new.items ≡ out.old.items ++ state_text props (state, moves.now)) }
{
    write_state_line(out, state)?;
    for (valuation, det_move) in moves.iter().enumerate() {
        write_move(out, props, valuation, *det_move)?;
    }
    Ok(())
}

fn write_states(out: &mut Vec<u8>, props: usize, rows: &[Vec<DetMove>]) -> Result<(), NoMemory>
    requires { props ≤ most_props }
    ensures { OnOk result (out.new.items ≡ out.old.items
        ++ flat_map (state_text props) (enumerate_from 0 (rows_of rows.now))) }
{
    for (state, moves) in rows.iter().enumerate() {
        write_state(out, props, state, moves)?;
    }
    Ok(())
}
