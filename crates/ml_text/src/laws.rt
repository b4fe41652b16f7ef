// Laws of tokens and limits, over the definitions alone: no caller runs these functions, their contracts are the theorems.
ghost use Rattle.std.specs.Prelude.{◌≡◌, ℕ, ◌<◌, false, List, ◌∷◌, length, slice_index, if◌then◌else◌};
ghost use Rattle.ml_text.specs.Bytes.{is_blank};
ghost use Rattle.ml_text.specs.Spelling.{AreTokens, IsLongestToken, Spells, tokens_over};
ghost use Rattle.ml_text.specs.Tokens.{front_token, tokens};
ghost use Rattle.ml_text.specs.declared.limits.TheConstants.{MOST_OCCURRENCES, MOST_OPEN};
ghost use Rattle.ml_text.specs.declared.token.Placed.{Placed};
ghost use Rattle.ml_text.specs.declared.token.Token.{Token};
ghost use Rattle.ml_text.specs.declared.token.WordStart.{WordStart};

/// The token at the front of a text that begins with no blank is the longest one with which the text begins.
///
/// `longest`: its bytes are a front of the text and spell it, and no longer front of the text spells any token.
/// `only`: no other token and no other length is that. `reading`: bytes spell one token at most.
pub fn longest_token()
    ensures longest { (w : WordStart) (b : ℕ) (rest : List ℕ) → is_blank b ≡ false →
        IsLongestToken w (b ∷ rest) (front_token w b rest).0 (front_token w b rest).1 }
    ensures only { (w : WordStart) (text : List ℕ) (t u : Token) (n m : ℕ) →
        IsLongestToken w text t n → IsLongestToken w text u m → (n ≡ m) × (t ≡ u) }
    ensures reading { (w : WordStart) (bytes : List ℕ) (t u : Token) → Spells w bytes t → Spells w bytes u → t ≡ u }
{}

/// The tokens of a text cover it.
///
/// `cover`: each is the longest token at its place, they follow one another, and beside them stand only blanks.
/// `only`: no other list of tokens is that. `bytes`: each byte that is no blank lies in exactly one of the tokens,
/// and a blank in none.
pub fn tokens_cover()
    ensures cover { (w : WordStart) (text : List ℕ) → AreTokens w text 0 (tokens w text) }
    ensures only { (w : WordStart) (text : List ℕ) (ps : List Placed) → AreTokens w text 0 ps → ps ≡ tokens w text }
    ensures bytes { (w : WordStart) (text : List ℕ) (k : ℕ) → k < length text →
        tokens_over (tokens w text) k ≡ (if is_blank (slice_index text k) then 0 else 1) }
{}

/// A formula has at most 1,000 occurrences, and at most 1,000 parentheses are open at a time.
pub fn limits()
    ensures occurrences { MOST_OCCURRENCES ≡ 1000 }
    ensures parentheses { MOST_OPEN ≡ 1000 }
{}
