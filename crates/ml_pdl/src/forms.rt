// The forms of operands: what a token does to a form, and what a form is behind its operand.
//
// Formulas and programs are read by one machine, so what is read is a `Phrase` of either sort, and the form that is held
// tells which one is to come. A name is kept as such: behind it `?` makes a test of it, and else it is an action. `shift`
// asks the form that waits, one function for each of its kinds; `resume` closes one behind its operand; `join` and `post`
// put connectives, `;`, `+`, `*` and `?` behind operands. Each function is the line of `specs/Tables.antt` of its name.
ghost use Rattle.std.specs.Prelude.{◌≡◌, ◌+◌, IfOk};
ghost use Rattle.std.specs.Option.{option_map};
ghost use Rattle.ml_text.specs.Grammar.{Read, Whole};
ghost use Rattle.ml_text.specs.declared.named_signs.Sign.TheVariants.{Added};
ghost use Rattle.ml_text.specs.private.Views.{GivesBack, mode_view, turn_view};
ghost use Rattle.ml_pdl.specs.private.FormViews.{hold_view, phrase_view, wait_view};
ghost use Rattle.ml_pdl.specs.private.Reader.{pdl_tables};
ghost use Rattle.ml_pdl.specs.Tables as tables;
ghost use Rattle.ml_pdl.specs.Formula as plain;
ghost use Rattle.ml_pdl.specs.Term.{formula_of, program_of};

use crate::signs::{Mark, Own, Sign};
use crate::{Modality, Program, Term};
use ml_base::{Action, Name, NoMemory};
use ml_text::{Mode, Operator};
use std::alloc::Global;

// what a part of a text stands for; a name may become an action or the proposition of a test
#[derive(Drop)]
pub(crate) enum Phrase {
    Formula(Term),
    Program(Program),
    Name(Name),
}

// the sorts of operands
#[derive(Clone, Copy)]
pub(crate) enum Sort {
    Formulas,
    Programs,
}

// a form of which a token is to come
#[derive(Drop)]
pub(crate) enum Wait {
    FormulaStart,
    ProgramStart,
    BehindBegin(Modality),
    BehindProgram(Modality, Program),
    BehindRepeat,
    BehindRepeatInside(Program),
    BehindFormulaInside(Term),
    BehindProgramInside(Program),
    BehindTestInside(Term),
    // in a test, behind so many negations
    BehindNegations(u32),
    // in a test, where its `?` is to come
    BehindTested(Term),
}

// a form of which an operand is to come
#[derive(Drop)]
pub(crate) enum Hold {
    Negation,
    ModalProgram(Modality),
    Modal(Modality, Program),
    FormulaGroup,
    ProgramGroup,
    RepeatGroup,
    // in a test, behind so many negations
    TestGroup(u32),
}

// what a token does to a form
type Turn = ml_text::Turn<Sign, Phrase, Wait, Hold>;

/// The formula that a tree is; one that is a program never comes to it.
pub(crate) fn as_formula(phrase: Phrase) -> Term
    ensures { formula_of result ≡ tables.formula_of (phrase_view phrase) }
{
    match phrase {
        Phrase::Formula(term) => term,
        Phrase::Program(_) => Term::Const(true),
        Phrase::Name(name) => Term::Prop(name),
    }
}

// the program that a tree is; one that is a formula never comes to it
fn as_program(alloc: Global, phrase: Phrase) -> Result<Program, NoMemory>
    ensures { IfOk result (λ program. program_of program ≡ tables.program_of (phrase_view phrase)) }
{
    Ok(match phrase {
        Phrase::Formula(term) => Program::Test(Box::new(alloc, term)?),
        Phrase::Program(program) => program,
        Phrase::Name(name) => Program::Act(Action::from_name(name)),
    })
}

// the same in a box
fn boxed_program(alloc: Global, phrase: Phrase) -> Result<Box<Program>, NoMemory>
    ensures { IfOk result (λ program. program_of program.value ≡ tables.program_of (phrase_view phrase)) }
{
    let program = as_program(alloc, phrase)?;
    Ok(Box::new(alloc, program)?)
}

// a formula behind so many negations
#[tactic(auto, using(crate::proofs::Negations::negated_less))]
fn negated(alloc: Global, negations: u32, term: Term) -> Result<Term, NoMemory>
    ensures { IfOk result (λ negated. formula_of negated ≡ tables.negated negations (formula_of term)) }
{
    let mut left = negations;
    let mut term = term;
    while left > 0 {
        term = Term::Not(Box::new(alloc, term)?);
        left -= 1;
    }
    Ok(term)
}

#[inline(always)]
fn shift_formula(sign: Sign) -> Option<Turn>
    ensures { option_map (turn_view pdl_tables) result ≡ tables.shift_formula sign }
{
    match sign {
        Sign::Not => Some(Turn::Inner(Hold::Negation)),
        Sign::Const(value) => Some(Turn::Read(Mode::Whole(Phrase::Formula(Term::Const(value))))),
        Sign::Lower(name) => Some(Turn::Read(Mode::Whole(Phrase::Formula(Term::Prop(name))))),
        Sign::Added(Own::Paren(_)) => Some(Turn::Inner(Hold::FormulaGroup)),
        Sign::Added(Own::Begins(modality)) => Some(Turn::Read(Mode::More(Wait::BehindBegin(
            modality,
        )))),
        Sign::Added(Own::Repeats) => Some(Turn::Read(Mode::More(Wait::BehindRepeat))),
        _ => None,
    }
}

// one negation more; a number that doesn't fit is want of memory, and the limit on occurrences comes long before
fn one_more(negations: u32) -> Result<u32, NoMemory>
    ensures { IfOk result (λ more. more ≡ negations + 1) }
{
    negations.checked_add(1).ok_or(NoMemory)
}

// in a test, behind so many negations
fn shift_test(alloc: Global, negations: u32, sign: Sign) -> Result<Option<Turn>, NoMemory>
    ensures { IfOk result (λ turn.
        option_map (turn_view pdl_tables) turn ≡ tables.shift_test negations sign) }
{
    let tested = match sign {
        Sign::Not => {
            let more = one_more(negations)?;
            return Ok(Some(Turn::Read(Mode::More(Wait::BehindNegations(more)))));
        }
        Sign::Added(Own::Paren(_)) => return Ok(Some(Turn::Inner(Hold::TestGroup(negations)))),
        Sign::Const(value) => negated(alloc, negations, Term::Const(value))?,
        Sign::Lower(name) => negated(alloc, negations, Term::Prop(name))?,
        _ => return Ok(None),
    };
    Ok(Some(Turn::Read(Mode::More(Wait::BehindTested(tested)))))
}

fn act(action: Action) -> Turn
    ensures { turn_view pdl_tables result ≡ Read (Whole (tables.OfProgram (plain.Act action))) }
{
    Turn::Read(Mode::Whole(Phrase::Program(Program::Act(action))))
}

fn shift_program(alloc: Global, sign: Sign) -> Result<Option<Turn>, NoMemory>
    ensures { IfOk result (λ turn.
        option_map (turn_view pdl_tables) turn ≡ tables.shift_program sign) }
{
    match sign {
        Sign::Added(Own::Blank) => Ok(Some(act(Action::blank(alloc)?))),
        Sign::Upper(name) => Ok(Some(act(Action::from_name(name)))),
        Sign::Lower(name) => Ok(Some(Turn::Read(Mode::Whole(Phrase::Name(name))))),
        Sign::Added(Own::Paren(Mark::Unmarked)) => Ok(Some(Turn::Inner(Hold::ProgramGroup))),
        Sign::Added(Own::Paren(Mark::Marked)) => Ok(Some(Turn::Inner(Hold::TestGroup(0)))),
        Sign::Not => shift_test(alloc, 0, Sign::Not),
        Sign::Const(value) => shift_test(alloc, 0, Sign::Const(value)),
        _ => Ok(None),
    }
}

fn shift_begin(alloc: Global, modality: Modality, sign: Sign) -> Result<Option<Turn>, NoMemory>
    ensures turn { IfOk result (λ turn.
        option_map (turn_view pdl_tables) turn ≡ tables.shift_begin modality sign) }
    ensures gives_back { IfOk result (λ turn. GivesBack pdl_tables turn sign) }
{
    match (modality, sign) {
        (Modality::Diamond, Sign::Added(Own::Ends(Modality::Diamond)))
        | (Modality::Square, Sign::Added(Own::Ends(Modality::Square))) => {
            let program = Program::Act(Action::blank(alloc)?);
            Ok(Some(Turn::Inner(Hold::Modal(modality, program))))
        }
        (modality, sign) => Ok(Some(Turn::Opens(Hold::ModalProgram(modality), sign))),
    }
}

fn shift_end(modality: Modality, program: Program, sign: Sign) -> Option<Turn>
    ensures { option_map (turn_view pdl_tables) result
        ≡ tables.shift_end modality (program_of program) sign }
{
    match (modality, sign) {
        (Modality::Diamond, Sign::Added(Own::Ends(Modality::Diamond)))
        | (Modality::Square, Sign::Added(Own::Ends(Modality::Square))) => {
            Some(Turn::Inner(Hold::Modal(modality, program)))
        }
        _ => None,
    }
}

// behind what stands between parentheses
fn shift_close(mode: Mode<Phrase, Wait>, sign: Sign) -> Option<Turn>
    ensures { option_map (turn_view pdl_tables) result ≡ tables.shift_close (mode_view pdl_tables mode) sign }
{
    match sign {
        Sign::Close => Some(Turn::Read(mode)),
        _ => None,
    }
}

fn shift_repeat(sign: Sign) -> Option<Turn>
    ensures { option_map (turn_view pdl_tables) result ≡ tables.shift_repeat sign }
{
    match sign {
        Sign::Added(Own::Paren(_)) => Some(Turn::Inner(Hold::RepeatGroup)),
        _ => None,
    }
}

fn shift_tested(alloc: Global, tested: Term, sign: Sign) -> Result<Option<Turn>, NoMemory>
    ensures { IfOk result (λ turn.
        option_map (turn_view pdl_tables) turn ≡ tables.shift_tested (formula_of tested) sign) }
{
    match sign {
        Sign::Added(Own::Question) => {
            let test = Program::Test(Box::new(alloc, tested)?);
            Ok(Some(Turn::Read(Mode::Whole(Phrase::Program(test)))))
        }
        _ => Ok(None),
    }
}

/// What a token does to a form of which one is to come; `None` where no text goes on so.
#[inline(always)]
pub(crate) fn shift(alloc: Global, wait: Wait, sign: Sign) -> Result<Option<Turn>, NoMemory>
    ensures turn { IfOk result (λ turn.
        option_map (turn_view pdl_tables) turn ≡ tables.shift (wait_view wait) sign) }
    ensures gives_back { IfOk result (λ turn. GivesBack pdl_tables turn sign) }
{
    match wait {
        Wait::FormulaStart => Ok(shift_formula(sign)),
        Wait::ProgramStart => shift_program(alloc, sign),
        Wait::BehindBegin(modality) => shift_begin(alloc, modality, sign),
        Wait::BehindProgram(modality, program) => Ok(shift_end(modality, program, sign)),
        Wait::BehindRepeat => Ok(shift_repeat(sign)),
        Wait::BehindRepeatInside(program) => {
            let whole = Phrase::Formula(Term::Repeat(program));
            Ok(shift_close(Mode::Whole(whole), sign))
        }
        Wait::BehindFormulaInside(term) => {
            Ok(shift_close(Mode::Whole(Phrase::Formula(term)), sign))
        }
        Wait::BehindProgramInside(program) => {
            Ok(shift_close(Mode::Whole(Phrase::Program(program)), sign))
        }
        Wait::BehindTestInside(term) => {
            Ok(shift_close(Mode::More(Wait::BehindTested(term)), sign))
        }
        Wait::BehindNegations(negations) => shift_test(alloc, negations, sign),
        Wait::BehindTested(tested) => shift_tested(alloc, tested, sign),
    }
}

/// A form behind its operand.
pub(crate) fn resume(
    alloc: Global,
    hold: Hold,
    operand: Phrase,
) -> Result<Mode<Phrase, Wait>, NoMemory>
    ensures { IfOk result (λ mode. mode_view pdl_tables mode ≡ tables.resume (hold_view hold) (phrase_view operand)) }
{
    Ok(match hold {
        Hold::Negation => {
            let operand = Box::new(alloc, as_formula(operand))?;
            Mode::Whole(Phrase::Formula(Term::Not(operand)))
        }
        Hold::ModalProgram(modality) => {
            let program = as_program(alloc, operand)?;
            Mode::More(Wait::BehindProgram(modality, program))
        }
        Hold::Modal(modality, program) => {
            let operand = Box::new(alloc, as_formula(operand))?;
            Mode::Whole(Phrase::Formula(Term::Modal(modality, program, operand)))
        }
        Hold::FormulaGroup => Mode::More(Wait::BehindFormulaInside(as_formula(operand))),
        Hold::ProgramGroup => Mode::More(Wait::BehindProgramInside(as_program(alloc, operand)?)),
        Hold::RepeatGroup => Mode::More(Wait::BehindRepeatInside(as_program(alloc, operand)?)),
        Hold::TestGroup(negations) => {
            let tested = negated(alloc, negations, as_formula(operand))?;
            Mode::More(Wait::BehindTestInside(tested))
        }
    })
}

// two formulas with a connective between them
fn join_formulas(
    alloc: Global,
    operator: Operator,
    left: Phrase,
    right: Phrase,
) -> Result<Phrase, NoMemory>
    ensures { IfOk result (λ phrase. phrase_view phrase ≡ tables.OfFormula (plain.Binary operator
        (tables.formula_of (phrase_view left)) (tables.formula_of (phrase_view right)))) }
{
    let left = Box::new(alloc, as_formula(left))?;
    let right = Box::new(alloc, as_formula(right))?;
    Ok(Phrase::Formula(Term::Binary(operator, left, right)))
}

fn choice(alloc: Global, left: Phrase, right: Phrase) -> Result<Phrase, NoMemory>
    ensures { IfOk result (λ phrase. phrase_view phrase ≡ tables.OfProgram (plain.Alt
        (tables.program_of (phrase_view left)) (tables.program_of (phrase_view right)))) }
{
    let left = boxed_program(alloc, left)?;
    let right = boxed_program(alloc, right)?;
    Ok(Phrase::Program(Program::Alt(left, right)))
}

fn sequence(alloc: Global, left: Phrase, right: Phrase) -> Result<Phrase, NoMemory>
    ensures { IfOk result (λ phrase. phrase_view phrase ≡ tables.OfProgram (plain.Seq
        (tables.program_of (phrase_view left)) (tables.program_of (phrase_view right)))) }
{
    let left = boxed_program(alloc, left)?;
    let right = boxed_program(alloc, right)?;
    Ok(Phrase::Program(Program::Seq(left, right)))
}

/// Two operands with an operator between them.
pub(crate) fn join(
    alloc: Global,
    sign: Sign,
    left: Phrase,
    right: Phrase,
) -> Result<Phrase, NoMemory>
    ensures { IfOk result (λ phrase.
        phrase_view phrase ≡ tables.join sign (phrase_view left) (phrase_view right)) }
{
    match sign {
        Sign::Connective(operator) => join_formulas(alloc, operator, left, right),
        Sign::Added(own) => join_programs(alloc, own, left, right),
        _ => Ok(left),
    }
}

fn join_programs(alloc: Global, own: Own, left: Phrase, right: Phrase) -> Result<Phrase, NoMemory>
    ensures { IfOk result (λ phrase.
        phrase_view phrase ≡ tables.join (Added own) (phrase_view left) (phrase_view right)) }
{
    match own {
        Own::Plus => choice(alloc, left, right),
        Own::Semicolon => sequence(alloc, left, right),
        _ => Ok(left),
    }
}

// the test of a name; nothing else is tested without a form of its own
fn test_of(alloc: Global, operand: Phrase) -> Result<Option<Phrase>, NoMemory>
    ensures { IfOk result (λ phrase. option_map phrase_view phrase ≡ tables.test_of (phrase_view operand)) }
{
    match operand {
        Phrase::Name(name) => {
            let tested = Box::new(alloc, Term::Prop(name))?;
            Ok(Some(Phrase::Program(Program::Test(tested))))
        }
        _ => Ok(None),
    }
}

/// An operand with a sign behind it; `None` where no text goes on so.
pub(crate) fn post(alloc: Global, sign: Sign, operand: Phrase) -> Result<Option<Phrase>, NoMemory>
    ensures { IfOk result (λ phrase.
        option_map phrase_view phrase ≡ tables.post sign (phrase_view operand)) }
{
    match sign {
        Sign::Added(own) => post_own(alloc, own, operand),
        _ => Ok(None),
    }
}

fn post_own(alloc: Global, own: Own, operand: Phrase) -> Result<Option<Phrase>, NoMemory>
    ensures { IfOk result (λ phrase.
        option_map phrase_view phrase ≡ tables.post (Added own) (phrase_view operand)) }
{
    match own {
        Own::Star => {
            let program = boxed_program(alloc, operand)?;
            Ok(Some(Phrase::Program(Program::Star(program))))
        }
        Own::Question => test_of(alloc, operand),
        _ => Ok(None),
    }
}
