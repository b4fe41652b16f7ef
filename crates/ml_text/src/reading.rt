// The reader of texts: one token at a time, within the limits.
ghost use Rattle.std.specs.Prelude.{◌≡◌, ℕ, ◌≤◌, ◌<◌, [], ◌∷◌, ◌++◌, ◌+◌, if◌then◌else◌, length, MatchResult, OnOk};
ghost use Rattle.ml_text.specs.Items as text_items;
ghost use Rattle.ml_text.specs.NotedItems as noted_items;
ghost use Rattle.ml_text.specs.Items.{bytes_of, is_long_word};
ghost use Rattle.ml_text.specs.Refusals as limit;
ghost use Rattle.ml_text.specs.Spelling.{Spells};
ghost use Rattle.ml_text.specs.private.Progress as progress;
ghost use Rattle.ml_text.specs.private.Progress.{GoesOn, IsRefusal, KeepsLimits, outcome_from};
ghost use Rattle.ml_text.specs.private.Reading as outcome;

use crate::forms::{Frame, Mode};
use crate::limits::{Bracket, MOST_OCCURRENCES, MOST_OPEN};
use crate::notation::Notation;
use crate::stepping::{finish, step};
use crate::token::{Placed, Token, next_token};
use ml_base::{LONGEST_NAME, ParseRefusal};
use std::alloc::{AllocError, Global};

/// What was read of a text: the tree, and the offsets of the signs whose places the logic wants, in the order of the
/// text.
#[derive(Drop)]
pub struct Reading<Tree> {
    pub tree: Tree,
    pub places: Vec<u64>,
}

// what is read so far, within the limits
#[derive(Drop)]
struct Progress<Context, Sort, Sign, Tree, Wait, Hold> {
    mode: Mode<Tree, Wait>,
    stack: Vec<Frame<Sort, Sign, Tree, Hold>>,
    context: Context,
    // how many occurrences were counted
    count: u32,
    // how many parentheses are open
    depth: u32,
    // the places that the logic wants
    places: Vec<u64>,
}

// is this a word with more bytes than a name has?
fn is_long(placed: Placed) -> bool
    requires { placed.start ≤ placed.end }
    ensures { result ≡ is_long_word placed }
{
    placed.token == Token::Word && placed.end - placed.start > LONGEST_NAME
}

// how many parentheses are open behind a sign
fn depth_behind(bracket: Bracket, depth: u32) -> u32
    requires { depth ≤ MOST_OPEN }
    ensures depth { result ≡ limit.open_behind_one bracket depth }
    ensures small { result ≤ MOST_OPEN + 1 }
{
    match bracket {
        Bracket::Opening => depth + 1,
        Bracket::Closing => depth.saturating_sub(1),
        Bracket::Neither => depth,
    }
}

// the refusal at a token with which a limit is passed
fn limit_refusal(count: u32, depth: u32, is_long: bool, at: u64) -> Option<ParseRefusal>
    ensures { result ≡ progress.limit_refusal count depth is_long at }
{
    if count > MOST_OCCURRENCES {
        Some(ParseRefusal::TooMany { at })
    } else if depth > MOST_OPEN {
        Some(ParseRefusal::TooNested { at })
    } else if is_long {
        Some(ParseRefusal::NameTooLong { at })
    } else {
        None
    }
}

// how many bytes of a token its name is made of, if it has one; a name that is too long is cut
fn name_size(placed: Placed) -> usize
    requires { placed.start ≤ placed.end }
    ensures size { result ≡ noted_items.name_size placed }
    ensures fits { placed.start + result ≤ placed.end }
{
    if is_long(placed) {
        LONGEST_NAME
    } else {
        placed.end - placed.start
    }
}

// the place of a sign is kept where it is wanted
fn note(places: &mut Vec<u64>, is_wanted: bool, at: u64) -> Result<(), AllocError>
    ensures { OnOk result (places.new.items ≡ (if is_wanted then places.old.items ++ at ∷ [] else places.old.items)) }
{
    if is_wanted {
        places.push(at)?;
    }
    Ok(())
}

// what is read behind one token more
fn read_item<L: Notation>(
    alloc: Global,
    logic: &L,
    progress: Progress<L::Context, L::Sort, L::Sign, L::Tree, L::Wait, L::Hold>,
    text: &[u8],
    placed: Placed,
) -> Result<Progress<L::Context, L::Sort, L::Sign, L::Tree, L::Wait, L::Hold>, ParseRefusal>
    requires made { L.IsFor logic.now text.now }
    requires limits { KeepsLimits progress }
    requires place { (placed.start ≤ placed.end) × (placed.end ≤ length text.now) }
    requires spells { Spells L.tables.signs.words (bytes_of text.now placed) placed.token }
    ensures { let item = text_items.item_at L.tables.signs text.now progress.context placed in
        MatchResult result
        (GoesOn L.tables progress item)
        (λ refusal. (end : ℕ) (rest : _) → IsRefusal refusal (outcome_from L.tables end progress (item ∷ rest))) }
{
    let at = placed.start as u64;
    let kind = logic.kind_of(text, placed);
    let name = &text[placed.start..placed.start + name_size(placed)];
    let sign = L::sign_of(alloc, kind, name)?;
    let Progress {
        mode,
        mut stack,
        context,
        count,
        depth,
        mut places,
    } = progress;
    let Some(mode) = step::<L>(alloc, mode, &mut stack, sign)? else {
        return Err(ParseRefusal::Syntax { at });
    };
    let count = count + L::weight(context, kind);
    let depth = depth_behind(L::bracket(kind), depth);
    if let Some(refusal) = limit_refusal(count, depth, is_long(placed), at) {
        return Err(refusal);
    }
    note(&mut places, L::is_noted(context, kind), at)?;
    Ok(Progress {
        mode,
        stack,
        context: L::behind(kind),
        count,
        depth,
        places,
    })
}

/// The tree of which the bytes are a text within the limits.
///
/// # Errors
/// `Syntax`, `TooMany`, `TooNested` and `NameTooLong`, whichever comes first; `NoMemory`.
///
/// Cost: each byte is read once, and each frame of the stack is pushed and popped once. No call is nested.
pub fn read<L: Notation>(
    alloc: Global,
    logic: &L,
    text: &[u8],
) -> Result<Reading<L::Tree>, ParseRefusal>
    requires { L.IsFor logic.now text.now }
    ensures { let out = outcome.text_outcome L.tables.grammar (length text.now) (text_items.items L.tables.signs text.now) in
        MatchResult result
        (λ reading. (out ≡ outcome.Found (L.tables.tree reading.tree)) × (reading.places.items ≡ noted_items.noted L.tables.signs text.now))
        (λ refusal. IsRefusal refusal out) }
{
    let mut progress = Progress {
        mode: Mode::More(L::start(L::whole())),
        stack: Vec::new(alloc),
        context: L::first(),
        count: 0,
        depth: 0,
        places: Vec::new(alloc),
    };
    let mut at = 0;
    while let Some(placed) = next_token(text, L::words(), at) {
        progress = read_item::<L>(alloc, logic, progress, text, placed)?;
        at = placed.end;
    }
    let Progress {
        mode,
        stack,
        places,
        ..
    } = progress;
    match finish::<L>(alloc, mode, stack)? {
        Some(tree) => Ok(Reading { tree, places }),
        None => Err(ParseRefusal::Syntax {
            at: text.len() as u64,
        }),
    }
}
