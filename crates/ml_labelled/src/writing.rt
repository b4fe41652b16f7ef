// The text of an automaton whose edges have cubes.
ghost use Rattle.std.specs.Prelude.{◌≡◌, ◌++◌, map, IfOk, OnOk};
ghost use Rattle.std.specs.List.{flat_map, enumerate_from};
ghost use Rattle.ml_lines.specs.Lines.{next, text_of};
ghost use Rattle.ml_hoa.specs.WrittenLines.{bracketed};
ghost use Rattle.ml_labelled.specs.LabelledText.{automaton_text, edge_text, head_lines, label, literal_text, next_literal, set_words, state_text};
ghost use Rattle.ml_labelled.specs.private.Views.{edge_of, edges_in, rows_of};

use crate::labelled::{CubeEdge, LabelledAutomaton, Literal};
use ml_base::{Name, NoMemory};
use ml_hoa::{write_last_line, write_opening, write_signed, write_state_line};
use ml_lines::{end_line, write_next_number, write_word};
use std::alloc::Global;

/// The text of an automaton, in HOA's first version (`laws::text_stands`).
///
/// # Errors
/// `NoMemory` alone.
///
/// Cost: linear in the text.
///
/// Source: Babiak, Blahoudek, Duret-Lutz, Klein, Kretinsky, Mueller, Parker and Strejcek, The Hanoi Omega-Automata Format
/// (2015).
pub fn write(alloc: Global, automaton: &LabelledAutomaton) -> Result<Vec<u8>, NoMemory>
    ensures { IfOk result (λ text. text.items ≡ automaton_text automaton.now) }
{
    let mut out = Vec::new(alloc);
    let edges = automaton.edges();
    write_head(&mut out, edges.len(), automaton.props())?;
    write_states(&mut out, edges)?;
    write_last_line(&mut out)?;
    Ok(out)
}

// ---- the lines before the states

fn write_head(out: &mut Vec<u8>, states: usize, props: &[Name]) -> Result<(), NoMemory>
    ensures { OnOk result (out.new.items ≡ out.old.items ++ text_of (head_lines states props.now)) }
{
    write_opening(out, states, props)?;
    write_word(
        out,
        b"acc-name: Buchi\nAcceptance: 1 Inf(0)\nproperties: trans-labels explicit-labels trans-acc\n--BODY--\n",
    )
}

// ---- the states

fn write_literal(out: &mut Vec<u8>, literal: Literal) -> Result<(), NoMemory>
    ensures { OnOk result (out.new.items ≡ out.old.items ++ literal_text literal) }
{
    write_signed(out, literal.positive, u64::from(literal.prop))
}

fn write_next_literal(out: &mut Vec<u8>, literal: Literal) -> Result<(), NoMemory>
    ensures { OnOk result (out.new.items ≡ out.old.items ++ next_literal literal) }
{
    out.push(b'&')?;
    write_literal(out, literal)
}

fn write_next_literals(out: &mut Vec<u8>, literals: &[Literal]) -> Result<(), NoMemory>
    ensures { OnOk result (out.new.items ≡ out.old.items ++ flat_map next_literal literals.now) }
{
    for literal in literals {
        write_next_literal(out, *literal)?;
    }
    Ok(())
}

fn write_label(out: &mut Vec<u8>, cube: &[Literal]) -> Result<(), NoMemory>
    ensures { OnOk result (out.new.items ≡ out.old.items ++ label cube.now) }
{
    match cube {
        [] => write_word(out, b"t"),
        [first, rest @ ..] => {
            write_literal(out, *first)?;
            write_next_literals(out, rest)
        }
    }
}

// the label between its brackets
fn write_bracketed(out: &mut Vec<u8>, cube: &[Literal]) -> Result<(), NoMemory>
    ensures { OnOk result (out.new.items ≡ out.old.items ++ bracketed (label cube.now)) }
{
    write_word(out, b"[")?;
    write_label(out, cube)?;
    write_word(out, b"]")
}

// the set of an edge, if it is in one
fn write_set(out: &mut Vec<u8>, accepting: bool) -> Result<(), NoMemory>
    ensures { OnOk result (out.new.items ≡ out.old.items ++ flat_map next (set_words accepting)) }
{
    if accepting {
        write_word(out, b" {0}")?;
    }
    Ok(())
}

fn write_edge(out: &mut Vec<u8>, edge: &CubeEdge) -> Result<(), NoMemory>
    ensures { OnOk result (out.new.items ≡ out.old.items ++ edge_text (edge_of edge.now)) }
{
    write_bracketed(out, &edge.cube)?;
    write_next_number(out, u64::from(edge.to))?;
    write_set(out, edge.accepting)?;
    end_line(out)
}

fn write_edges(out: &mut Vec<u8>, edges: &[CubeEdge]) -> Result<(), NoMemory>
    ensures { OnOk result (out.new.items ≡ out.old.items ++ flat_map edge_text (map edge_of edges.now)) }
{
    for edge in edges {
        write_edge(out, edge)?;
    }
    Ok(())
}

fn write_state(out: &mut Vec<u8>, state: usize, edges: &[CubeEdge]) -> Result<(), NoMemory>
    ensures { OnOk result (out.new.items ≡ out.old.items ++ state_text (state, map edge_of edges.now)) }
{
    write_state_line(out, state)?;
    write_edges(out, edges)
}

fn write_states(out: &mut Vec<u8>, rows: &[Vec<CubeEdge>]) -> Result<(), NoMemory>
    ensures { OnOk result (out.new.items ≡ out.old.items ++ flat_map state_text (enumerate_from 0 (rows_of rows.now))) }
{
    for (state, edges) in rows.iter().enumerate() {
        write_state(out, state, edges)?;
    }
    Ok(())
}
