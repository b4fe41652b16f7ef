// Comments.
ghost use Rattle.std.specs.Prelude.{◌≡◌, IfOk};
ghost use Rattle.ml_spec.specs.Comments.{uncommented};

use ml_base::NoMemory;
use std::alloc::Global;

/// The text with a blank for each byte of a comment, which begins at a `#` and goes on to the end of its line.
///
/// # Errors
/// `NoMemory` alone.
///
/// Cost: linear in the text.
pub fn uncommented(alloc: Global, text: &[u8]) -> Result<Vec<u8>, NoMemory>
    ensures { IfOk result (λ plain. plain.items ≡ uncommented text.now) }
{
    let mut plain = Vec::with_capacity(alloc, text.len())?;
    let mut inside = false;
    for byte in text {
        if *byte == b'\n' {
            inside = false;
            plain.push(*byte)?;
        } else if inside || *byte == b'#' {
            inside = true;
            plain.push(b' ')?;
        } else {
            plain.push(*byte)?;
        }
    }
    Ok(plain)
}
