// Which parentheses of a text are marked: those whose partner is directly followed by `?`.
ghost use Rattle.std.specs.Prelude.{◌≡◌, ℕ, ◌<◌, List, ◌∷◌, length, get_or, false, IfOk};
ghost use Rattle.ml_pdl.specs.private.MarkTests.{AreMarks, Tells, asks_at, test_at};

use ml_base::NoMemory;
use ml_text::is_blank;
use std::alloc::{AllocError, Global};

/// PDL, with the marks of a text: one flag for each byte, which is set at the parentheses that are marked.
#[derive(Drop)]
pub(crate) struct Marks {
    flags: Vec<bool>,
}

impl Marks {
    /// The marks of the parentheses of a text.
    ///
    /// The text is read from its end: behind each byte it is known of each parenthesis that may be open there whether
    /// `?` stands directly behind its partner, of the innermost one last.
    ///
    /// Cost: linear in the text.
    pub(crate) fn new(alloc: Global, text: &[u8]) -> Result<Marks, NoMemory>
        ensures { IfOk result (λ marks. AreMarks marks.flags.items text.now) }
    {
        let mut flags = vec![in alloc; false; text.len()]?;
        let mut tests = Vec::new(alloc);
        let mut asks = false;
        let mut at = text.len();
        while at > 0 {
            at -= 1;
            flags[at] = read_back(&mut tests, asks, text[at])?;
            asks = asks_before(asks, text[at]);
        }
        Ok(Marks { flags })
    }

    /// Is the parenthesis at this byte marked?
    pub(crate) fn is_test(&self, at: usize) -> bool
        requires { at < length self.now.flags.items }
        ensures { result ≡ get_or self.now.flags.items at false }
    {
        self.flags[at]
    }
}

// Is `?` the next sign before this byte, by whether it is behind it?
fn asks_before(asks: bool, byte: u8) -> bool
    ensures { (bytes : List ℕ) → asks ≡ asks_at bytes → result ≡ asks_at (byte ∷ bytes) }
{
    if is_blank(byte) { asks } else { byte == b'?' }
}

// What is known of the open parentheses before this byte, by what is known behind it; is it a marked one?
fn read_back(tests: &mut Vec<bool>, asks: bool, byte: u8) -> Result<bool, AllocError>
    ensures { IfOk result (λ mark. (bytes : List ℕ) → asks ≡ asks_at bytes → Tells tests.old.items bytes
        → Tells tests.new.items (byte ∷ bytes) × (byte ≡ 40 → mark ≡ test_at 0 bytes)) }
{
    if byte == b'(' {
        return Ok(tests.pop().unwrap_or(false));
    }
    if byte == b')' {
        tests.push(asks)?;
    }
    Ok(false)
}
