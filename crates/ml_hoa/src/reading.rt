// The text of an automaton, read.
ghost use Rattle.std.specs.Prelude.{◌≡◌, ◌<◌, ◌||◌, length, MatchResult};
ghost use Rattle.ml_hoa.specs.Refusals.{IsReadAs, IsRefusedBy};
ghost use Rattle.ml_hoa.specs.Tokens.{tokens};
ghost use Rattle.ml_hoa.specs.private.Machine.{IsOutcome, IsStopped, IsTaken, Read, outcome, start};
ghost use Rattle.ml_hoa.specs.private.Views.{is_unclosed, piece_of, state_of};

use crate::buchi::Buchi;
use crate::reader::{Reader, Stage};
use crate::refusal::HoaRefusal;
use crate::token::{Piece, front_piece};
use std::alloc::Global;

/// The automaton that a text stands for.
///
/// The text is in HOA's first version, and may have any length: an automaton with one Büchi condition over its edges or
/// states, or with none, and with guards on its edges. Blanks and comments stand between tokens as they like, headers whose
/// names begin with a lower-case letter are passed over.
///
/// # Errors
/// Each with the byte at which it comes. Of `Syntax` and `TooMany` the first place is named, and at one place `Syntax`.
/// - `Syntax` at the first token with which no automaton text goes on, or at the text's end where all of it begins an
///   automaton text and is none.
/// - `TooMany` at a number of states above 1,000, a number of propositions above 8, the `[` of the 100,001st edge, the
///   operator with which one label passes 1,000 operators, or the parenthesis with which it has 1,001 open.
/// - `Range` at the first number that is not below the states, the propositions or the sets that there are, or at a state
///   that stood before, where none of these comes.
/// - `NoMemory`.
///
/// Cost: linear in the text.
///
/// Source: Babiak, Blahoudek, Duret-Lutz, Klein, Kretinsky, Mueller, Parker and Strejcek, The Hanoi Omega-Automata Format
/// (2015).
pub fn read(alloc: Global, text: &[u8]) -> Result<Buchi, HoaRefusal>
    ensures { MatchResult result (IsReadAs text.now) (IsRefusedBy text.now) }
{
    let mut reader = Reader::new(alloc);
    read_tokens(&mut reader, text)?;
    finish(reader, text)
}

// the automaton that was read, where all tokens of the text were
fn finish(reader: Reader, text: &[u8]) -> Result<Buchi, HoaRefusal>
    requires { outcome start (tokens text.now) ≡ Read (state_of reader) }
    ensures { MatchResult result (IsReadAs text.now) (IsRefusedBy text.now) }
{
    let Reader {
        stage,
        states,
        first,
        props,
        edges,
        fault,
        ..
    } = reader;
    match stage {
        Stage::Done => match fault {
            None => Ok(Buchi::new(states, first, props, edges)),
            Some(at) => Err(HoaRefusal::Range { at }),
        },
        _ => Err(HoaRefusal::Syntax {
            at: text.len() as u64,
        }),
    }
}

// is no `"` behind the piece closed, which begins at this byte? So it is where none was before, and behind a `"` that is a
// token by itself
fn stays_open(text: &[u8], at: usize, size: usize, is_open: bool) -> bool
    requires { at < length text.now }
    ensures { result ≡ (is_open || is_unclosed text.now at size) }
{
    is_open || (text[at] == b'"' && size == 1)
}

// goes on behind a piece that begins at this byte
fn take_piece(reader: &mut Reader, piece: Piece, at: u64) -> Result<(), HoaRefusal>
    ensures { MatchResult result
        (λ _. IsTaken (state_of reader.old) (state_of reader.new) (piece_of piece.entry).token at)
        (λ e. IsStopped e (state_of reader.old) (piece_of piece.entry).token at) }
{
    match piece.token {
        Some(token) => reader.take(token, at),
        None => Ok(()),
    }
}

// all tokens of the text
fn read_tokens(reader: &mut Reader, text: &[u8]) -> Result<(), HoaRefusal>
    ensures { let out = outcome (state_of reader.old) (tokens text.now) in
        MatchResult result (λ _. out ≡ Read (state_of reader.new)) (λ e. IsOutcome e out) }
{
    let mut at = 0;
    let mut is_open = false;
    while at < text.len() {
        let piece = front_piece(text, at, is_open);
        take_piece(reader, piece, at as u64)?;
        is_open = stays_open(text, at, piece.size, is_open);
        at += piece.size;
    }
    Ok(())
}
