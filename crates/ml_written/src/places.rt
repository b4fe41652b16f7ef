// Where the first proposition of a text stands that isn't declared.
ghost use Rattle.std.specs.Prelude.{◌≡◌, ◌≤◌, MatchOption, length, slice_get};
ghost use Rattle.ml_text.specs.Tokens.{tokens_from};
ghost use Rattle.indexmap.specs.IndexMap.{keys};
ghost use Rattle.ml_written.specs.Places.{AreDeclared, IsFirstUndeclared};
ghost use Rattle.ml_written.specs.Written.{IsWrittenAs, written_logic};
ghost use Rattle.ml_written.specs.private.LowerWords.{is_lower_word, lower_places, words_of};

use crate::Written;
use crate::passing::passed;
use crate::propositions::is_spelled;
use indexmap::IndexMap;
use ml_base::Name;
use ml_front::Logic;
use ml_text::{Placed, Token, WordStart, next_token};

/// The byte at which the first proposition of a text stands that isn't among the keys of `declared`; `None` where each is.
///
/// `written` is the formula that the text stands for. No memory is taken. Cost: linear in the occurrences and the lengths of
/// the names of the formula, on average; and where one isn't declared, linear in the text too.
pub fn first_undeclared<V>(
    text: &[u8],
    written: &Written,
    declared: &IndexMap<Name, V>,
) -> Option<usize>
    requires { IsWrittenAs text.now written.now }
    ensures { MatchOption result
        (AreDeclared (keys declared.now) written.now)
        (IsFirstUndeclared (keys declared.now) text.now written.now) }
{
    match passed(written, declared) {
        Ok(_) => None,
        Err(number) => place_of(text, logic_of(written), number),
    }
}

fn logic_of(written: &Written) -> Logic
    ensures { result ≡ written_logic written.now }
{
    match written {
        Written::Mu(_) => Logic::Mu,
        Written::Pdl(_) => Logic::Pdl,
        Written::Ctl(_) => Logic::Ctl,
        Written::Ltl(_) => Logic::Ltl,
        Written::Word(_) => Logic::Word,
    }
}

// which letters begin a word
fn words_of(logic: Logic) -> WordStart
    ensures { result ≡ words_of logic }
{
    match logic {
        Logic::Mu | Logic::Pdl => WordStart::AnyLetter,
        Logic::Ctl | Logic::Ltl | Logic::Word => WordStart::LowerCase,
    }
}

// Is a token a word that may be a proposition, but for its length?
fn is_lower_word(logic: Logic, text: &[u8], placed: Placed) -> bool
    requires { (placed.start ≤ placed.end) × (placed.end ≤ length text.now) }
    ensures { result ≡ is_lower_word logic text.now placed }
{
    placed.token == Token::Word && is_spelled(logic, &text[placed.start..placed.end])
}

// the place of the word with this number among them
fn place_of(text: &[u8], logic: Logic, number: u32) -> Option<usize>
    ensures { result
        ≡ slice_get (lower_places logic text.now (tokens_from (words_of logic) text.now 0)) number }
{
    let mut from = 0;
    let mut left = number;
    while let Some(placed) = next_token(text, words_of(logic), from) {
        if is_lower_word(logic, text, placed) {
            if left == 0 {
                return Some(placed.start);
            }
            left -= 1;
        }
        from = placed.end;
    }
    None
}
