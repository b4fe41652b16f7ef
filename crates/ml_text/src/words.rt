// The words that every logic reserves for the two constants.
ghost use Rattle.std.specs.Prelude.{◌≡◌};
ghost use Rattle.ml_text.specs.Words.{constant_of};

/// The constant that this word stands for: `tt` and `true`, `ff` and `false`; `None` for every other word.
///
/// Cost: constant.
#[tactic(auto, unfolding(crate::specs::Words::constant_of))]
pub fn constant_of(word: &[u8]) -> Option<bool>
    ensures { result ≡ constant_of word.now }
{
    match word {
        b"tt" | b"true" => Some(true),
        b"ff" | b"false" => Some(false),
        _ => None,
    }
}
