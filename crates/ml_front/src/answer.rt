// What a document answers.
ghost use Rattle.std.specs.Prelude.{◌≡◌, ◌≢◌, MatchOption};
ghost use Rattle.ml_front.specs.Head.{answer_word};

/// What a document answers of the formula in its sense.
#[derive(Clone, Copy, PartialEq, Eq)]
pub enum Answer {
    /// Some structure has a state at which it holds.
    Satisfiable,
    /// No structure has.
    Unsatisfiable,
    /// The limits were too low to tell.
    Undecided,
}

impl Answer {
    /// The word of the line `answer`.
    pub fn word(self) -> &'static [u8]
        ensures { result.now ≡ answer_word self }
    {
        match self {
            Answer::Satisfiable => b"satisfiable",
            Answer::Unsatisfiable => b"unsatisfiable",
            Answer::Undecided => b"undecided",
        }
    }
}

/// The answer that a word of the line `answer` tells; `None` where it tells none.
pub(crate) fn answer_of(word: &[u8]) -> Option<Answer>
    ensures { MatchOption result ((a : Answer) → word.now ≢ answer_word a) (λ a. word.now ≡ answer_word a) }
{
    if word == Answer::Satisfiable.word() {
        Some(Answer::Satisfiable)
    } else if word == Answer::Unsatisfiable.word() {
        Some(Answer::Unsatisfiable)
    } else if word == Answer::Undecided.word() {
        Some(Answer::Undecided)
    } else {
        None
    }
}
