// The signs of mu texts: what the mu-calculus adds to those that all logics have.
ghost use Rattle.std.specs.Prelude.{◌≡◌, ℕ, ◌≤◌, if◌then◌else◌, List};
ghost use Rattle.ml_text.specs.SignKinds.{named};
ghost use Rattle.ml_mu.specs.Text.{is_variable_at, silences, weight_of};

use crate::{Fixpoint, Modality};
use ml_base::Name;
use ml_text::{Bracket, OwnSign};

/// A sign that the mu-calculus adds.
#[derive(Clone, Copy, Drop)]
pub enum Own {
    /// `<` or `[`
    Begins(Modality),
    /// `>` or `]`
    Ends(Modality),
    /// `mu` or `nu`
    Binds(Fixpoint),
    Dot,
    Blank,
}

impl OwnSign for Own {
    ghost use Rattle.ml_mu.specs.Signs.{own};

    ghost own = { own };

    #[inline(always)]
    fn of_word(word: &[u8]) -> Option<Own> {
        match word {
            b"mu" => Some(Own::Binds(Fixpoint::Least)),
            b"nu" => Some(Own::Binds(Fixpoint::Greatest)),
            _ => None,
        }
    }

    #[inline(always)]
    fn of_byte(byte: u8) -> Option<Own> {
        match byte {
            b'<' => Some(Own::Begins(Modality::Diamond)),
            b'>' => Some(Own::Ends(Modality::Diamond)),
            b'[' => Some(Own::Begins(Modality::Square)),
            b']' => Some(Own::Ends(Modality::Square)),
            b'.' => Some(Own::Dot),
            b'_' => Some(Own::Blank),
            _ => None,
        }
    }

    #[inline(always)]
    fn bracket(self) -> Bracket {
        Bracket::Neither
    }
}

// what a token is, without its name
pub(crate) type Kind = ml_text::Sign<(), Own>;

// a token with its name
pub(crate) type Sign = ml_text::Sign<Name, Own>;

/// Is the word behind this token no occurrence, but an action or the variable of a binder?
pub(crate) fn silences(kind: Kind) -> bool
    ensures { (word : List ℕ) → result ≡ silences (named kind word) }
{
    matches!(
        kind,
        Kind::Added(Own::Begins(_)) | Kind::Added(Own::Binds(_))
    )
}

// as how many occurrences a token counts
fn weight(kind: Kind) -> u32
    ensures weight { (word : List ℕ) → result ≡ weight_of (named kind word) }
    ensures small { result ≤ 3 }
{
    match kind {
        Kind::Connective(operator) => operator.weight(),
        Kind::Not
        | Kind::Const(_)
        | Kind::Added(Own::Begins(_))
        | Kind::Added(Own::Binds(_))
        | Kind::Lower(_)
        | Kind::Upper(_) => 1,
        _ => 0,
    }
}

/// As how many occurrences a token counts, where it may be silent.
pub(crate) fn counted(silent: bool, kind: Kind) -> u32
    ensures count { (word : List ℕ) → result ≡ (if silent then 0 else weight_of (named kind word)) }
    ensures small { result ≤ 3 }
{
    if silent { 0 } else { weight(kind) }
}

/// Is a token the place of a variable?
pub(crate) fn is_variable(silent: bool, kind: Kind) -> bool
    ensures { (word : List ℕ) → result ≡ is_variable_at silent (named kind word) }
{
    !silent && matches!(kind, Kind::Upper(_))
}
