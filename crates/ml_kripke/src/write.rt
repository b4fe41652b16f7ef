// The text of a model.
ghost use Rattle.std.specs.Prelude.{◌≡◌, [], ◌∷◌, ◌++◌, map, take, All, IfOk, OnOk, OnErr, vec_len};
ghost use Rattle.std.specs.List.{enumerate_from};
ghost use Rattle.ml_base.specs.Name.{IsName, IsAction};
ghost use Rattle.ml_lines.specs.Lines.{number, line_text, text_of};
ghost use Rattle.ml_kripke.specs.Ordered.{HasNames};
ghost use Rattle.ml_kripke.specs.ModelText.{state_line, edge_line, model_text};

use crate::model::Model;
use ml_base::{Edge, Name, NoMemory};
use ml_lines::{end_line, whole_or_none, write_next_number, write_next_word, write_word};
use std::alloc::Global;

/// The text of a model: the body of a satisfiable document.
///
/// # Errors
/// `NoMemory` alone.
///
/// Cost: linear in the text.
pub fn write_model(alloc: Global, model: &Model) -> Result<Vec<u8>, NoMemory>
    ensures text { IfOk result (λ bytes. bytes.items ≡ model_text model.now.structure model.now.start) }
    ensures named { OnOk result (HasNames model.now.structure) }
{
    let mut out = Vec::new(alloc);
    append_model(&mut out, model)?;
    Ok(out)
}

/// Appends the text of a model, as `write_model` gives it.
///
/// # Errors
/// `NoMemory` alone, and then `out` is as before.
///
/// Cost: linear in the text, over many calls.
pub fn append_model(out: &mut Vec<u8>, model: &Model) -> Result<(), NoMemory>
    ensures text { OnOk result (out.new.items ≡ out.old.items ++ model_text model.now.structure model.now.start) }
    ensures named { OnOk result (HasNames model.now.structure) }
    ensures kept { OnErr result (out.new.items ≡ out.old.items) }
{
    let end = out.len();
    let written = write_parts(out, model);
    whole_or_none(out, end, written)
}

// Each writer from here on leaves what stood in `out`, also where memory is wanting and a part stands behind it.
fn write_parts(out: &mut Vec<u8>, model: &Model) -> Result<(), NoMemory>
    ensures text { OnOk result (out.new.items ≡ out.old.items ++ model_text model.now.structure model.now.start) }
    ensures named { OnOk result (HasNames model.now.structure) }
    ensures front { take (vec_len out.old) out.new.items ≡ out.old.items }
{
    let structure = &model.structure;
    write_numbered(out, b"states", structure.states())?;
    write_numbered(out, b"start", model.start)?;
    write_states(out, structure.rows())?;
    write_edges(out, structure.edges())?;
    write_word(out, b"end")?;
    end_line(out)
}

fn write_numbered(out: &mut Vec<u8>, word: &[u8], n: u32) -> Result<(), NoMemory>
    ensures text { OnOk result (out.new.items ≡ out.old.items ++ line_text (word.now ∷ number n ∷ [])) }
    ensures front { take (vec_len out.old) out.new.items ≡ out.old.items }
{
    write_word(out, word)?;
    write_next_number(out, u64::from(n))?;
    end_line(out)
}

fn write_states(out: &mut Vec<u8>, rows: &[Vec<Name>]) -> Result<(), NoMemory>
    ensures text { OnOk result (out.new.items ≡ out.old.items
        ++ text_of (map (λ labelled. state_line labelled.0 labelled.1) (enumerate_from 0 (map (λ row. row.items) rows.now)))) }
    ensures named { OnOk result (All (All IsName) (map (λ row. row.items) rows.now)) }
    ensures front { take (vec_len out.old) out.new.items ≡ out.old.items }
{
    for (state, labels) in rows.iter().enumerate() {
        write_state(out, state, labels)?;
    }
    Ok(())
}

fn write_state(out: &mut Vec<u8>, state: usize, labels: &[Name]) -> Result<(), NoMemory>
    ensures text { OnOk result (out.new.items ≡ out.old.items ++ line_text (state_line state labels.now)) }
    ensures named { OnOk result (All IsName labels.now) }
    ensures front { take (vec_len out.old) out.new.items ≡ out.old.items }
{
    write_word(out, b"state")?;
    write_next_number(out, state as u64)?;
    for label in labels {
        write_next_word(out, label.bytes())?;
    }
    end_line(out)
}

fn write_edges(out: &mut Vec<u8>, edges: &[Edge]) -> Result<(), NoMemory>
    ensures text { OnOk result (out.new.items ≡ out.old.items ++ text_of (map edge_line edges.now)) }
    ensures named { OnOk result (All (λ e. IsAction e.action) edges.now) }
    ensures front { take (vec_len out.old) out.new.items ≡ out.old.items }
{
    for edge in edges {
        write_edge(out, edge)?;
    }
    Ok(())
}

fn write_edge(out: &mut Vec<u8>, edge: &Edge) -> Result<(), NoMemory>
    ensures text { OnOk result (out.new.items ≡ out.old.items ++ line_text (edge_line edge.now)) }
    ensures named { OnOk result (IsAction edge.now.action) }
    ensures front { take (vec_len out.old) out.new.items ≡ out.old.items }
{
    write_word(out, b"edge")?;
    write_next_number(out, u64::from(edge.source))?;
    write_next_word(out, edge.action.bytes())?;
    write_next_number(out, u64::from(edge.target))?;
    end_line(out)
}
