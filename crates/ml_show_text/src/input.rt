// What a text is read as.
ghost use Rattle.std.specs.Prelude.{◌≡◌};
ghost use Rattle.ml_show_text.specs.Shown as shown;

use crate::kind::{Kind, kind_of};
use ml_answers::has_answers;

/// What a text is read as.
#[derive(Clone, Copy, PartialEq, Eq)]
pub enum ReadAs {
    /// A specification, and the document of the answers to its questions behind it.
    Answers,
    /// A document of this kind.
    Document(Kind),
}

/// What a text is read as: as answers where their document begins in it, and else as a document of the kind that its first two
/// lines tell.
///
/// Cost: linear in the text.
pub fn read_as(text: &[u8]) -> ReadAs
    ensures { result ≡ shown.read_as text.now }
{
    if has_answers(text) {
        ReadAs::Answers
    } else {
        ReadAs::Document(kind_of(text))
    }
}
