// Why a text isn't shown.
ghost use Rattle.std.specs.Prelude.{◌≡◌};

use ml_answers::AnswersFault;
use ml_base::{DocFault, NoMemory};

/// Why a text is no document that is shown.
#[derive(Clone, Copy, PartialEq, Eq)]
pub enum ShowFault {
    /// Its first bad line, and the lowest rule that this line breaks.
    Document(DocFault),
    /// Why it is no specification with a document of answers behind it, where such a document begins in it.
    Answers(AnswersFault),
}

/// Why nothing is shown.
pub enum ShowRefusal {
    /// The text is no document that is shown.
    Fault(ShowFault),
    NoMemory,
}

impl From<NoMemory> for ShowRefusal {
    fn from(_: NoMemory) -> ShowRefusal
        ensures { result ≡ ShowRefusal.NoMemory }
    {
        ShowRefusal::NoMemory
    }
}
