// The mu-calculus, as the reader of texts asks for it.
ghost use Rattle.ml_mu.specs.Term.{formula_of};

use crate::Term;
use crate::forms::{Hold, Wait, join, resume, shift};
use crate::signs::{Kind, Sign, counted, is_variable, silences};
use ml_base::NoMemory;
use ml_text::{
    Bracket, Mode, Notation, Placed, Role, Turn, WordStart, bracket_of, kind_of, operator_level,
    sign_of,
};
use std::alloc::Global;

/// The mu-calculus. Nothing is to be known of a text before it is read.
pub(crate) struct Mu;

impl Notation for Mu {
    type Kind = Kind;
    // is the next token silent, an action or the variable of a binder?
    type Context = bool;

    type Sort = ();

    type Sign = Sign;

    type Tree = Term;

    type Wait = Wait;

    type Hold = Hold;

    ghost use Rattle.std.specs.Prelude.{ℕ, List};
    ghost use Rattle.ml_mu.specs.private.Reader.{mu_tables};
    ghost use Rattle.ml_mu.specs.private.Alike.{alike};

    ghost tables = { mu_tables };

    ghost IsFor = { λ _ _. Unit {0} };

    fn words() -> WordStart {
        WordStart::AnyLetter
    }

    fn kind_of(&self, text: &[u8], placed: Placed) -> Kind {
        kind_of(placed.token, &text[placed.start..placed.end])
    }

    fn sign_of(alloc: Global, kind: Kind, bytes: &[u8]) -> Result<Sign, NoMemory> {
        sign_of(alloc, kind, bytes)
    }

    fn first() -> bool {
        false
    }

    fn behind(kind: Kind) -> bool {
        silences(kind)
    }

    fn weight(silent: bool, kind: Kind) -> u32 {
        counted(silent, kind)
    }

    fn bracket(kind: Kind) -> Bracket {
        bracket_of(kind)
    }

    fn is_noted(silent: bool, kind: Kind) -> bool {
        is_variable(silent, kind)
    }

    fn whole() {}

    fn start(_sort: ()) -> Wait {
        Wait::Operand
    }

    #[inline(always)]
    fn shift(
        alloc: Global,
        wait: Wait,
        sign: Sign,
    ) -> Result<Option<Turn<Sign, Term, Wait, Hold>>, NoMemory> {
        shift(alloc, wait, sign)
    }

    fn sort(_hold: &Hold) {}

    #[inline(always)]
    fn level(hold: &Hold) -> u8 {
        match hold {
            Hold::Negation | Hold::Modal(..) => 4,
            Hold::Binder(..) | Hold::Group => 0,
        }
    }

    #[inline(always)]
    fn resume(alloc: Global, hold: Hold, term: Term) -> Result<Mode<Term, Wait>, NoMemory> {
        resume(alloc, hold, term)
    }

    #[inline(always)]
    fn role(_sort: (), sign: &Sign) -> Role {
        match sign {
            Sign::Connective(operator) => Role::Infix(operator_level(*operator)),
            _ => Role::Outside,
        }
    }

    // or and and group to the left, implications and iffs to the right
    fn groups_left(_sort: (), level: u8) -> bool {
        level >= 2
    }

    fn join(alloc: Global, sign: Sign, left: Term, right: Term) -> Result<Term, NoMemory> {
        match sign {
            Sign::Connective(operator) => join(alloc, operator, left, right),
            _ => Ok(left),
        }
    }

    fn post(_alloc: Global, _sign: Sign, _term: Term) -> Result<Option<Term>, NoMemory> {
        Ok(None)
    }

    ghost alike = { alike };
}
