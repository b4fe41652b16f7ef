// CTL* and LTL, as the reader of texts asks for them. The two differ in the sort of a text, and in whether E and A stand
// in it.
ghost use Rattle.std.specs.Prelude.{◌≡◌};
ghost use Rattle.ml_ctl.specs.Grammar.{sort_of};
ghost use Rattle.ml_ctl.specs.private.Tables as tables;

use crate::forms::{Hold, Wait, join, resume, shift};
use crate::signs::{Kind, Own, Sign, weight};
use crate::{Language, Sort, Term, Words};
use ml_base::NoMemory;
use ml_text::{
    Bracket, Mode, Notation, Placed, Role, Turn, WordStart, bracket_of, kind_of, operator_level,
    sign_of,
};
use std::alloc::Global;
use std::marker::PhantomData;

/// The texts of a language. Nothing is to be known of a text before it is read.
#[derive(Drop)]
pub(crate) struct Reader<W> {
    pub(crate) words: PhantomData<W>,
}

fn whole_sort(language: Language) -> Sort
    ensures { result ≡ sort_of language }
{
    match language {
        Language::Ctl => Sort::State,
        Language::Ltl => Sort::Path,
    }
}

fn role(sort: Sort, sign: &Sign) -> Role
    ensures { result ≡ tables.role sort sign.now }
{
    match (sort, sign) {
        (_, Sign::Connective(operator)) => Role::Infix(operator_level(*operator)),
        (Sort::Path, Sign::Added(Own::Pairs(_))) => Role::Infix(4),
        _ => Role::Outside,
    }
}

impl<W: Words> Notation for Reader<W> {
    type Kind = Kind;

    type Context = ();

    type Sort = Sort;

    type Sign = Sign;

    type Tree = Term;

    type Wait = Wait;

    type Hold = Hold;

    ghost use Rattle.std.specs.Prelude.{ℕ, List};
    ghost use Rattle.ml_ctl.specs.private.Reader.{ctl_tables};
    ghost use Rattle.ml_ctl.specs.private.Alike.{alike};

    ghost tables = { ctl_tables W.language };

    ghost IsFor = { λ _ _. Unit {0} };

    fn words() -> WordStart {
        WordStart::LowerCase
    }

    fn kind_of(&self, text: &[u8], placed: Placed) -> Kind {
        kind_of(placed.token, &text[placed.start..placed.end])
    }

    fn sign_of(alloc: Global, kind: Kind, bytes: &[u8]) -> Result<Sign, NoMemory> {
        sign_of(alloc, kind, bytes)
    }

    fn first() {}

    fn behind(_kind: Kind) {}

    fn weight(_context: (), kind: Kind) -> u32 {
        weight(kind)
    }

    fn bracket(kind: Kind) -> Bracket {
        bracket_of(kind)
    }

    fn is_noted(_context: (), _kind: Kind) -> bool {
        false
    }

    fn whole() -> Sort {
        whole_sort(W::which())
    }

    fn start(sort: Sort) -> Wait {
        Wait::Start(sort)
    }

    #[inline(always)]
    fn shift(
        _alloc: Global,
        wait: Wait,
        sign: Sign,
    ) -> Result<Option<Turn<Sign, Term, Wait, Hold>>, NoMemory> {
        Ok(shift(W::which(), wait, sign))
    }

    #[inline(always)]
    fn sort(hold: &Hold) -> Sort {
        match hold {
            Hold::Negation(sort) | Hold::Group(sort) => *sort,
            Hold::Tensing(_) | Hold::Quantifying(_) => Sort::Path,
        }
    }

    #[inline(always)]
    fn level(hold: &Hold) -> u8 {
        match hold {
            Hold::Negation(_) | Hold::Tensing(_) | Hold::Quantifying(_) => 5,
            Hold::Group(_) => 0,
        }
    }

    #[inline(always)]
    fn resume(alloc: Global, hold: Hold, term: Term) -> Result<Mode<Term, Wait>, NoMemory> {
        resume(alloc, hold, term)
    }

    #[inline(always)]
    fn role(sort: Sort, sign: &Sign) -> Role {
        role(sort, sign)
    }

    // or and and group to the left, all others to the right
    fn groups_left(_sort: Sort, level: u8) -> bool {
        level == 2 || level == 3
    }

    fn join(alloc: Global, sign: Sign, left: Term, right: Term) -> Result<Term, NoMemory> {
        join(alloc, sign, left, right)
    }

    fn post(_alloc: Global, _sign: Sign, _term: Term) -> Result<Option<Term>, NoMemory> {
        Ok(None)
    }

    ghost alike = { alike W.language };
}
