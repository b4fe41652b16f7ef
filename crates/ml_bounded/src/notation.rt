// LTL with bounds, as the reader of texts asks for it.
ghost use Rattle.std.specs.Prelude.{◌≡◌};
ghost use Rattle.ml_bounded.specs.private.Tables as tables;

use crate::Term;
use crate::forms::{Hold, Wait, join, resume, shift};
use crate::signs::{Kind, Own, Sign, numbered, weight};
use ml_base::NoMemory;
use ml_text::{
    Bracket, Mode, Notation, Placed, Role, Turn, WordStart, bracket_of, kind_of, operator_level,
    sign_of,
};
use std::alloc::Global;

/// The texts of LTL with bounds. Nothing is to be known of a text before it is read.
pub(crate) struct Reader;

fn role(sign: &Sign) -> Role
    ensures { result ≡ tables.role sign.now }
{
    match sign {
        Sign::Connective(operator) => Role::Infix(operator_level(*operator)),
        Sign::Added(Own::Pairs(_)) => Role::Infix(4),
        _ => Role::Outside,
    }
}

impl Notation for Reader {
    type Kind = Kind;

    type Context = ();

    type Sort = ();

    type Sign = Sign;

    type Tree = Term;

    type Wait = Wait;

    type Hold = Hold;

    ghost use Rattle.std.specs.Prelude.{ℕ, List};
    ghost use Rattle.ml_bounded.specs.private.Reader.{bounded_tables};
    ghost use Rattle.ml_bounded.specs.private.Alike.{alike};

    ghost tables = { bounded_tables };

    ghost IsFor = { λ _ _. Unit {0} };

    fn words() -> WordStart {
        WordStart::LowerCase
    }

    fn kind_of(&self, text: &[u8], placed: Placed) -> Kind {
        let kind = kind_of(placed.token, &text[placed.start..placed.end]);
        numbered(kind, text, placed.start)
    }

    fn sign_of(alloc: Global, kind: Kind, bytes: &[u8]) -> Result<Sign, NoMemory> {
        sign_of(alloc, kind, bytes)
    }

    fn first() {}

    fn behind(_kind: Kind) {}

    fn weight(_context: (), kind: Kind) -> u32 {
        weight(kind)
    }

    fn bracket(kind: Kind) -> Bracket {
        bracket_of(kind)
    }

    fn is_noted(_context: (), _kind: Kind) -> bool {
        false
    }

    fn whole() {}

    fn start(_sort: ()) -> Wait {
        Wait::Start
    }

    #[inline(always)]
    fn shift(
        _alloc: Global,
        wait: Wait,
        sign: Sign,
    ) -> Result<Option<Turn<Sign, Term, Wait, Hold>>, NoMemory> {
        Ok(shift(wait, sign))
    }

    fn sort(_hold: &Hold) {}

    #[inline(always)]
    fn level(hold: &Hold) -> u8 {
        match hold {
            Hold::Negation | Hold::Tensing(_) | Hold::Bounding(_) => 5,
            Hold::Group => 0,
        }
    }

    #[inline(always)]
    fn resume(alloc: Global, hold: Hold, term: Term) -> Result<Mode<Term, Wait>, NoMemory> {
        resume(alloc, hold, term)
    }

    #[inline(always)]
    fn role(_sort: (), sign: &Sign) -> Role {
        role(sign)
    }

    // or and and group to the left, all others to the right
    fn groups_left(_sort: (), level: u8) -> bool {
        level == 2 || level == 3
    }

    fn join(alloc: Global, sign: Sign, left: Term, right: Term) -> Result<Term, NoMemory> {
        join(alloc, sign, left, right)
    }

    fn post(_alloc: Global, _sign: Sign, _term: Term) -> Result<Option<Term>, NoMemory> {
        Ok(None)
    }

    ghost alike = { alike };
}
