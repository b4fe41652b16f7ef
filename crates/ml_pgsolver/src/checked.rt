// The text of a game with a solution behind it, read.
ghost use Rattle.std.specs.Prelude.{◌≡◌, ◌+◌, ◌<◌, ◌≤◌, Some, None, length, take, drop, nat_eq, codes, MatchResult};
ghost use Rattle.std.specs.List.{starts_with};
ghost use Rattle.ml_pgsolver.specs.CheckedText.{IsCheckedAs, IsCheckRefusedBy, word_in};
ghost use Rattle.ml_pgsolver.specs.Refusals.{HasNoFault, IsReadAs, IsRefusedBy};
ghost use Rattle.ml_pgsolver.specs.Tokens.{signs_of, tokens};
ghost use Rattle.ml_pgsolver.specs.private.EntryMachine as machine;
ghost use Rattle.ml_pgsolver.specs.private.EntryMachine.{IsEntryTold, entries_come};
ghost use Rattle.ml_pgsolver.specs.private.Signs.{signs_from};
ghost use Rattle.ml_pgsolver.specs.private.Claiming.{IsBehindName};

use crate::claiming::{claims_of, first_stranger};
use crate::entries::read_entries;
use crate::named::Named;
use crate::reading::read;
use crate::refusal::GameTextRefusal;
use crate::scan::quoted;
use ml_game_check::Claim;
use std::alloc::Global;

/// A game with claims about its vertices, one place for each, in the order of the game's vertices.
#[derive(Drop)]
pub struct ClaimedGame {
    /// The game, with the ids of its vertices.
    pub named: Named,
    /// What is claimed of each vertex, if something is.
    pub claims: Vec<Option<Claim>>,
}

// the byte at which the word `paritysol` stands first, outside of names
fn word_place(text: &[u8]) -> Option<usize>
    ensures { result ≡ word_in text.now }
{
    let mut at = 0;
    while at < text.len() {
        if has_word(text, at) {
            return Some(at);
        }
        at = behind_name(text, at);
    }
    None
}

// does the word stand at this byte?
fn has_word(text: &[u8], at: usize) -> bool
    requires { at < length text.now }
    ensures { result ≡ starts_with nat_eq (drop at text.now) (codes "paritysol") }
{
    text[at] == b'p' && text[at..].starts_with(b"paritysol")
}

// the byte behind the one at `at`, and behind the name that begins there
fn behind_name(text: &[u8], at: usize) -> usize
    requires { at < length text.now }
    ensures is { IsBehindName text.now at result }
    ensures further { at < result }
{
    if text[at] == b'"' {
        at + quoted(&text[at + 1..]).1
    } else {
        at + 1
    }
}

/// The game that a text stands for, with the claims of the solution behind it.
///
/// The text is a game in PGSolver's format, as `read` takes it, and a solution: the word `paritysol`, maybe a number, which
/// isn't used, a `;`, and entries of a vertex, the player who is said to win it, maybe a move, and a `;`. Entries may come in
/// any order, and vertices may be without one.
///
/// # Errors
/// Those of `read`, at the same places, also for entries: `Repeated` at an entry's vertex that stood before as one, `TooMany`
/// at the vertex of the 200,001st entry, `Unknown` at the first vertex or move of an entry that is no id, where no successor
/// of the game is.
///
/// Cost: linear in the text, but for the ids, which are sorted, and among which each successor and each id of an entry is
/// sought.
pub fn read_checked(alloc: Global, text: &[u8]) -> Result<ClaimedGame, GameTextRefusal>
    ensures { MatchResult result (λ c. IsCheckedAs text.now c.named c.claims.items) (IsCheckRefusedBy text.now) }
{
    match word_place(text) {
        Some(word) => with_word(alloc, text, word),
        None => Err(without_word(alloc, text)),
    }
}

// is this the text of a game, but maybe for a successor that is no id?
fn past_game(alloc: Global, text: &[u8]) -> Result<(), GameTextRefusal>
    ensures { MatchResult result (λ _. HasNoFault (signs_of (tokens text.now))) (IsRefusedBy text.now) }
{
    let _game = read(alloc, text)?;
    Ok(())
}

// why a text without the word is refused
fn without_word(alloc: Global, text: &[u8]) -> GameTextRefusal
    requires { word_in text.now ≡ None }
    ensures { IsCheckRefusedBy text.now result }
{
    match past_game(alloc, text) {
        Ok(()) => GameTextRefusal::Syntax {
            at: text.len() as u64,
        },
        Err(refusal) => at_end(text, refusal),
    }
}

// the same where the game is refused so
fn at_end(text: &[u8], refusal: GameTextRefusal) -> GameTextRefusal
    requires word { word_in text.now ≡ None }
    requires refused { IsRefusedBy text.now refusal }
    ensures { IsCheckRefusedBy text.now result }
{
    match refusal {
        GameTextRefusal::Unknown { .. } => GameTextRefusal::Syntax {
            at: text.len() as u64,
        },
        other => other,
    }
}

// what stands before the word
fn front(text: &[u8], word: usize) -> &[u8]
    requires { word_in text.now ≡ Some word }
    ensures { result.now ≡ take word text.now }
{
    &text[..word]
}

// the byte behind the word
fn behind_word(text: &[u8], word: usize) -> usize
    requires { word_in text.now ≡ Some word }
    ensures is { result ≡ word + 9 }
    ensures within { result ≤ length text.now }
{
    word + 9
}

// the game and the claims of a text in which the word stands at this byte
fn with_word(alloc: Global, text: &[u8], word: usize) -> Result<ClaimedGame, GameTextRefusal>
    requires { word_in text.now ≡ Some word }
    ensures { MatchResult result (λ c. IsCheckedAs text.now c.named c.claims.items) (IsCheckRefusedBy text.now) }
{
    let from = behind_word(text, word);
    match read(alloc, front(text, word)) {
        Ok(named) => claimed(alloc, text, word, from, named),
        Err(refusal) => Err(refused(alloc, text, word, from, refusal)),
    }
}

// why a text is refused whose game is refused so
fn refused(
    alloc: Global,
    text: &[u8],
    word: usize,
    from: usize,
    refusal: GameTextRefusal,
) -> GameTextRefusal
    requires word { word_in text.now ≡ Some word }
    requires from { from ≡ word + 9 }
    requires within { from ≤ length text.now }
    requires refused { IsRefusedBy (take word text.now) refusal }
    ensures { IsCheckRefusedBy text.now result }
{
    match refusal {
        GameTextRefusal::Unknown { at } => behind_unknown(alloc, text, word, from, at),
        other => other,
    }
}

// is this a solution, but maybe for ids that are none?
fn past_entries(alloc: Global, text: &[u8], from: usize) -> Result<(), GameTextRefusal>
    requires { from ≤ length text.now }
    ensures { let out = entries_come (length text.now) machine.start (signs_from text.now from) in
        MatchResult result (λ _. (s : machine.EntryState) × (out ≡ Ok s)) (λ e. IsEntryTold e out) }
{
    let _rows = read_entries(alloc, text, from)?;
    Ok(())
}

// the same where some successor is no id
fn behind_unknown(alloc: Global, text: &[u8], word: usize, from: usize, at: u64) -> GameTextRefusal
    requires word { word_in text.now ≡ Some word }
    requires from { from ≡ word + 9 }
    requires within { from ≤ length text.now }
    requires refused { IsRefusedBy (take word text.now) (GameTextRefusal.Unknown at) }
    ensures { IsCheckRefusedBy text.now result }
{
    match past_entries(alloc, text, from) {
        Ok(()) => GameTextRefusal::Unknown { at },
        Err(earlier) => earlier,
    }
}

// the claims of the solution behind the game
fn claimed(
    alloc: Global,
    text: &[u8],
    word: usize,
    from: usize,
    named: Named,
) -> Result<ClaimedGame, GameTextRefusal>
    requires word { word_in text.now ≡ Some word }
    requires from { from ≡ word + 9 }
    requires within { from ≤ length text.now }
    requires game { IsReadAs (take word text.now) named }
    ensures { MatchResult result (λ c. IsCheckedAs text.now c.named c.claims.items) (IsCheckRefusedBy text.now) }
{
    let rows = read_entries(alloc, text, from)?;
    match claims_of(alloc, named.ids(), &rows)? {
        Some(claims) => Ok(ClaimedGame { named, claims }),
        None => Err(GameTextRefusal::Unknown {
            at: first_stranger(text, from, named.ids()),
        }),
    }
}
