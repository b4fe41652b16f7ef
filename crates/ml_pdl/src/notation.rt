// PDL, as the reader of texts asks for it.
ghost use Rattle.std.specs.Prelude.{◌≡◌};
ghost use Rattle.ml_pdl.specs.Tables as tables;

use crate::forms::{Hold, Phrase, Sort, Wait, join, post, resume, shift};
use crate::marking::Marks;
use crate::signs::{Kind, Own, Sign, begins_modality, marked, weight};
use ml_base::NoMemory;
use ml_text::{
    Bracket, Mode, Notation, Placed, Role, Turn, WordStart, bracket_of, kind_of, operator_level,
    sign_of,
};
use std::alloc::Global;

fn role(sort: Sort, sign: &Sign) -> Role
    ensures { result ≡ tables.role sort sign.now }
{
    match (sort, sign) {
        (Sort::Formulas, Sign::Connective(operator)) => Role::Infix(operator_level(*operator)),
        (Sort::Programs, Sign::Added(Own::Plus)) => Role::Infix(0),
        (Sort::Programs, Sign::Added(Own::Semicolon)) => Role::Infix(1),
        (Sort::Programs, Sign::Added(Own::Star) | Sign::Added(Own::Question)) => Role::Postfix,
        _ => Role::Outside,
    }
}

impl Notation for Marks {
    type Kind = Kind;
    // does the next token stand directly behind `<` or `[`?
    type Context = bool;

    type Sort = Sort;

    type Sign = Sign;

    type Tree = Phrase;

    type Wait = Wait;

    type Hold = Hold;

    ghost use Rattle.std.specs.Prelude.{ℕ, List};
    ghost use Rattle.ml_pdl.specs.private.Reader.{pdl_tables};
    ghost use Rattle.ml_pdl.specs.private.Alike.{alike};
    ghost use Rattle.ml_pdl.specs.private.MarkTests.{AreMarks};

    ghost tables = { pdl_tables };

    ghost IsFor = { λ marks text. AreMarks marks.flags.items text };

    fn words() -> WordStart {
        WordStart::AnyLetter
    }

    fn kind_of(&self, text: &[u8], placed: Placed) -> Kind {
        let kind = kind_of(placed.token, &text[placed.start..placed.end]);
        marked(self.is_test(placed.start), kind)
    }

    fn sign_of(alloc: Global, kind: Kind, bytes: &[u8]) -> Result<Sign, NoMemory> {
        sign_of(alloc, kind, bytes)
    }

    fn first() -> bool {
        false
    }

    fn behind(kind: Kind) -> bool {
        begins_modality(kind)
    }

    fn weight(is_first: bool, kind: Kind) -> u32 {
        weight(is_first, kind)
    }

    fn bracket(kind: Kind) -> Bracket {
        bracket_of(kind)
    }

    fn is_noted(_is_first: bool, _kind: Kind) -> bool {
        false
    }

    fn whole() -> Sort {
        Sort::Formulas
    }

    fn start(sort: Sort) -> Wait {
        match sort {
            Sort::Formulas => Wait::FormulaStart,
            Sort::Programs => Wait::ProgramStart,
        }
    }

    #[inline(always)]
    fn shift(
        alloc: Global,
        wait: Wait,
        sign: Sign,
    ) -> Result<Option<Turn<Sign, Phrase, Wait, Hold>>, NoMemory> {
        shift(alloc, wait, sign)
    }

    #[inline(always)]
    fn sort(hold: &Hold) -> Sort {
        match hold {
            Hold::ModalProgram(_) | Hold::ProgramGroup | Hold::RepeatGroup => Sort::Programs,
            Hold::Negation | Hold::Modal(..) | Hold::FormulaGroup | Hold::TestGroup(_) => {
                Sort::Formulas
            }
        }
    }

    #[inline(always)]
    fn level(hold: &Hold) -> u8 {
        match hold {
            Hold::Negation | Hold::Modal(..) => 4,
            Hold::ModalProgram(_)
            | Hold::FormulaGroup
            | Hold::ProgramGroup
            | Hold::RepeatGroup
            | Hold::TestGroup(_) => 0,
        }
    }

    #[inline(always)]
    fn resume(alloc: Global, hold: Hold, operand: Phrase) -> Result<Mode<Phrase, Wait>, NoMemory> {
        resume(alloc, hold, operand)
    }

    #[inline(always)]
    fn role(sort: Sort, sign: &Sign) -> Role {
        role(sort, sign)
    }

    // or and and group to the left, implications and iffs to the right; so do the operators of programs, to the left
    fn groups_left(sort: Sort, level: u8) -> bool {
        match sort {
            Sort::Formulas => level >= 2,
            Sort::Programs => true,
        }
    }

    fn join(alloc: Global, sign: Sign, left: Phrase, right: Phrase) -> Result<Phrase, NoMemory> {
        join(alloc, sign, left, right)
    }

    fn post(alloc: Global, sign: Sign, operand: Phrase) -> Result<Option<Phrase>, NoMemory> {
        post(alloc, sign, operand)
    }

    ghost alike = { alike };
}
