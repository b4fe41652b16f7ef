// The items of a text whose comments are blanks, one after the other.
ghost use Rattle.std.specs.Prelude.{◌≡◌, ◌+◌, ◌<◌, ◌≤◌, ◌∷◌, [], length, IfSome, MatchOption};
ghost use Rattle.ml_spec.specs.ItemParts as parts;
ghost use Rattle.ml_spec.specs.Items as items;
ghost use Rattle.ml_spec.specs.Scan.{items_at, item_text};

use ml_text::is_blank;

/// An item of a text.
#[derive(Clone, Copy)]
pub struct ItemText<'a> {
    /// Where it begins in the text, a byte counted from 0.
    pub at: usize,
    /// Its bytes, up to the last one that is no blank.
    pub bytes: &'a [u8],
}

// does the byte begin an item, where `starts` tells whether it is the first of its line?
fn begins_item(starts: bool, byte: u8) -> bool
    ensures { result ≡ items.begins_item starts byte }
{
    starts && !is_blank(byte)
}

// how many bytes stand before the next item
fn distance(mut starts: bool, text: &[u8]) -> usize
    ensures { result ≡ length (items.up_to_item starts text.now) }
{
    let mut distance = 0;
    while distance < text.len() {
        let byte = text[distance];
        if begins_item(starts, byte) {
            return distance;
        }
        starts = byte == b'\n';
        distance += 1;
    }
    distance
}

// the text without the blanks at its end
fn trimmed(text: &[u8]) -> &[u8]
    ensures { result.now ≡ items.trimmed text.now }
{
    let mut end = text.len();
    while end > 0 && is_blank(text[end - 1]) {
        end -= 1;
    }
    &text[..end]
}

/// The first item at or behind the byte `from` of a text without comments, and where what stands behind it begins; `None` where
/// there is none. An item may begin at `from`, so begin with 0 and go on with the place that comes back.
///
/// Cost: linear in the bytes up to that place.
pub fn next_item(text: &[u8], from: usize) -> Option<(ItemText, usize)>
    requires { from ≤ length text.now }
    ensures items { MatchOption result (items_at text.now from ≡ [])
        (λ p. items_at text.now from ≡ item_text p.0 ∷ items_at text.now p.1) }
    ensures place { IfSome result (λ p. (from < p.1) × (p.1 ≤ length text.now)) }
    ensures fits { IfSome result (λ p. p.0.at + length p.0.bytes.now ≤ length text.now) }
{
    let at = from + distance(true, &text[from..]);
    if at == text.len() {
        return None;
    }
    let end = at + 1 + distance(false, &text[at + 1..]);
    let bytes = trimmed(&text[at..end]);
    Some((ItemText { at, bytes }, end))
}

// where the end `rest` of the item begins in the text
pub(crate) fn place_of(item: &ItemText, rest: &[u8]) -> usize
    requires fits { item.now.at + length item.now.bytes.now ≤ usize.MAX }
    requires end { length rest.now ≤ length item.now.bytes.now }
    ensures { result ≡ parts.place_of (item_text item.now) rest.now }
{
    item.at + (item.bytes.len() - rest.len())
}
