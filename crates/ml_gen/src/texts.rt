// The texts of the formulas, in one buffer.
ghost use Rattle.std.specs.Prelude.{◌≡◌, ◌↔◌, ◌≤◌, ◌++◌, false, IfOk, OnOk, IsErrOf};
ghost use Rattle.ml_lines.specs.Lines.{number};
ghost use Rattle.ml_gen.specs.Families.{formula_text, part, parts};
ghost use Rattle.ml_gen.specs.FamilyRanges.{is_in_range};

use crate::family::Family;
use ml_base::NoMemory;
use ml_lines::write_number;
use std::alloc::Global;
use thiserror::Error;

/// Why no formula was given.
#[derive(Clone, Copy, Debug, PartialEq, Eq, Error)]
pub enum GenRefusal {
    /// The number is outside the range of the family.
    #[error("outside the range of the family")]
    OutOfFamily,
    #[error("out of memory")]
    NoMemory,
}

impl From<NoMemory> for GenRefusal {
    ghost use Rattle.ml_gen.specs.declared.texts.GenRefusal.TheVariants as refusal;

    ghost from_gives = { λ _ e. e ≡ refusal.NoMemory };

    fn from(_: NoMemory) -> GenRefusal {
        GenRefusal::NoMemory
    }
}

/// The text of the family's formula for the number.
///
/// # Errors
/// `OutOfFamily` exactly where the number is outside the family's range; `NoMemory`.
///
/// Cost: linear in the text.
pub fn formula(alloc: Global, family: Family, n: u32) -> Result<Vec<u8>, GenRefusal>
    ensures text { IfOk result (λ bytes. bytes.items ≡ formula_text family n) }
    ensures refused { IsErrOf result GenRefusal.OutOfFamily ↔ is_in_range family n ≡ false }
{
    if !family.has(n) {
        return Err(GenRefusal::OutOfFamily);
    }
    let mut out = Vec::new(alloc);
    append_formula(&mut out, family, n)?;
    Ok(out)
}

fn append_formula(out: &mut Vec<u8>, family: Family, n: u32) -> Result<(), NoMemory>
    requires { 1 ≤ n }
    ensures { OnOk result (out.new.items ≡ out.old.items ++ formula_text family n) }
{
    match family {
        Family::And | Family::Or | Family::Fair => append_parts(out, family, b" & ", n),
        Family::Step => {
            out.extend_from_slice(b"<")?;
            append_parts(out, family, b";", n)?;
            out.extend_from_slice(b">p & [a*]!p")?;
            Ok(())
        }
        Family::Loop => {
            out.extend_from_slice(b"repeat(")?;
            append_parts(out, family, b";", n)?;
            out.extend_from_slice(b")")?;
            Ok(())
        }
    }
}

// The parts for 1 to n, with the separator between each two.
fn append_parts(out: &mut Vec<u8>, family: Family, separator: &[u8], n: u32) -> Result<(), NoMemory>
    requires { 1 ≤ n }
    ensures { OnOk result (out.new.items ≡ out.old.items ++ parts family separator.now n) }
{
    append_part(out, family, 1)?;
    for i in 1..n {
        out.extend_from_slice(separator)?;
        append_part(out, family, i + 1)?;
    }
    Ok(())
}

// What the formula has for the number i.
fn append_part(out: &mut Vec<u8>, family: Family, i: u32) -> Result<(), NoMemory>
    ensures { OnOk result (out.new.items ≡ out.old.items ++ part family i) }
{
    match family {
        Family::And => append_numbered(out, b"p", i),
        Family::Or => {
            append_numbered(out, b"(p", i)?;
            append_numbered(out, b" | q", i)?;
            out.push(b')')?;
            Ok(())
        }
        Family::Fair => {
            append_numbered(out, b"(G F p", i)?;
            out.push(b')')?;
            Ok(())
        }
        Family::Step | Family::Loop => {
            out.push(b'a')?;
            Ok(())
        }
    }
}

// Bytes, and a number behind them.
fn append_numbered(out: &mut Vec<u8>, front: &[u8], i: u32) -> Result<(), NoMemory>
    ensures { OnOk result (out.new.items ≡ out.old.items ++ front.now ++ number i) }
{
    out.extend_from_slice(front)?;
    write_number(out, u64::from(i))
}
