// The text of a game, read.
ghost use Rattle.std.specs.Prelude.{◌≡◌, ◌<◌, length, MatchResult};
ghost use Rattle.ml_pgsolver.specs.Refusals.{IsReadAs, IsRefusedBy};
ghost use Rattle.ml_pgsolver.specs.private.Assembled.{is_stranger, is_unknown, sign_place, unknown_from};
ghost use Rattle.ml_pgsolver.specs.private.Signs.{signs_from};

use crate::assembling::assemble;
use crate::named::Named;
use crate::reader::{Reader, read_rows};
use crate::refusal::GameTextRefusal;
use crate::scan::{Numeral, Sign, next_sign};
use indexmap::IndexSet;
use std::alloc::Global;

/// The game that a text stands for, with the ids of its vertices.
///
/// The text is in PGSolver's format, and may have any length; blanks stand between tokens as they like. The game has the
/// vertices in ascending order of their ids, player 0 as `Even`, and its priorities turned round, since in a text the
/// highest one decides.
///
/// # Errors
/// Each with the byte at which it comes. Of all but `Unknown` the first place is named, and of several at one place the
/// first in this order.
/// - `Syntax` at the first token with which no game text goes on, or at the text's end where all of it begins a game text
///   and is none.
/// - `Repeated` at an id that stood before as an id.
/// - `TooMany` at the id of the 200,001st vertex, or at the 2,000,001st successor.
/// - `TooLarge` at a number above 4,294,967,294.
/// - `Unknown` at the first successor that is no id, where none of these comes.
/// - `NoMemory`.
///
/// Cost: linear in the text, but for the ids, which are sorted, and among which each successor is sought.
///
/// Source: Friedmann and Lange, The PGSolver collection of parity game solvers (2010).
pub fn read(alloc: Global, text: &[u8]) -> Result<Named, GameTextRefusal>
    ensures { MatchResult result (IsReadAs text.now) (IsRefusedBy text.now) }
{
    let Reader { rows, ids, .. } = read_rows(alloc, text)?;
    match assemble(alloc, rows)? {
        Some(named) => Ok(named),
        None => Err(GameTextRefusal::Unknown {
            at: first_unknown(text, &ids),
        }),
    }
}

// the byte of the first successor that is none of the ids, or the text's end
fn first_unknown(text: &[u8], ids: &IndexSet<u32>) -> u64
    ensures { result ≡ unknown_from ids.now.keys (length text.now) 0 (signs_from text.now 0) }
{
    // how many tokens stand behind the last `;`
    let mut place = 0;
    let mut at = 0;
    while let Some(placed) = next_sign(text, at) {
        if is_stranger(place, placed.sign, ids) {
            return placed.start as u64;
        }
        place = sign_place(place, placed.sign);
        at = placed.end;
    }
    text.len() as u64
}

// is this a successor, by how many tokens stand behind the last `;`, and none of the ids?
fn is_stranger(place: usize, sign: Sign, ids: &IndexSet<u32>) -> bool
    ensures { result ≡ is_stranger ids.now.keys place sign }
{
    place >= 3 && is_unknown(sign, ids)
}

// is this a number, and none of the ids?
fn is_unknown(sign: Sign, ids: &IndexSet<u32>) -> bool
    ensures { result ≡ is_unknown ids.now.keys sign }
{
    match sign {
        Sign::Number(
            Numeral {
                value: Some(id),
                ..
            },
        ) => !ids.contains(&id),
        _ => false,
    }
}

// how many tokens stand behind the last `;`, behind one token more
pub(crate) fn sign_place(place: usize, sign: Sign) -> usize
    requires { place < usize.MAX }
    ensures { result ≡ sign_place place sign }
{
    match sign {
        Sign::Semicolon => 0,
        _ => place + 1,
    }
}
