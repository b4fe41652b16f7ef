// The line of an answer, read.
ghost use Rattle.std.specs.Prelude.{ℕ, ◌≡◌, ◌++◌, Bool, List, ◌∷◌, true, codes, length, IfErr, IfOk, MatchOption};
ghost use Rattle.std.specs.List.{AllByRecursion};
ghost use Rattle.ml_lines.specs.Reading.{words_of};
ghost use Rattle.ml_spec.specs.Items.{is_name};
ghost use Rattle.ml_spec.specs.Specification.{AreNew};
ghost use Rattle.ml_answers.specs.Due as due;
ghost use Rattle.ml_answers.specs.Lines as lines;
ghost use Rattle.ml_answers.specs.Lines.{question_words};
ghost use Rattle.ml_answers.specs.Rules.{IsAnswer, IsAnswerLine, answer_rules};
ghost use Rattle.ml_answers.specs.private.Reads.{AreAnswerWords, IsAnswerOf, IsBecause, IsTold, TellsRule};
ghost use Rattle.ml_answers.specs.private.Words.{Agrees};

use crate::names::{Mark, Names, read_marks};
use crate::rule::AnswersRule;
use crate::words::{first_word, name_at, wants_structure, yes_or_no};
use ml_lines::{LineRefusal, are_words, one_word, split_word, text_behind};
use ml_spec::{Item, Question};
use std::alloc::Global;

/// What the line of an answer tells.
#[derive(Drop)]
pub(crate) enum ToldLine {
    /// That a structure is known.
    Structure,
    /// That there is none, because of some requirements: how each item is named.
    Names(Vec<Mark>),
    /// Nothing.
    LeftOpen,
}

// what stands behind the words of a question
#[derive(Clone, Copy)]
pub(crate) enum AnswerWords<'a> {
    Structure,
    Names(Names<'a>),
    LeftOpen,
}

/// What the line of a question tells, which is asked of these requirements.
///
/// Cost: linear in the line; where names stand in it, also in the items.
pub(crate) fn read_line(
    alloc: Global,
    items: &[Item],
    among: &[bool],
    question: Question,
    line: &[u8],
) -> Result<ToldLine, LineRefusal<AnswersRule>>
    requires among { length among.now ≡ length items.now }
    requires new { AreNew items.now }
    requires named { AllByRecursion (λ x. is_name x.name ≡ true) items.now }
    ensures read { IfOk result (λ told. (S : ℕ → Bool) → Agrees items.now S among.now
        → IsTold items.now S question (words_of line.now) told) }
    ensures refused { IfErr result (λ e. (S : ℕ → Bool) → Agrees items.now S among.now
        → TellsRule (answer_rules items.now S question) (words_of line.now) e) }
{
    match answer_of(items, question, line) {
        Some(AnswerWords::Structure) => Ok(ToldLine::Structure),
        Some(AnswerWords::LeftOpen) => Ok(ToldLine::LeftOpen),
        Some(AnswerWords::Names(names)) => {
            read_names(alloc, items, among, question, names, line)
        }
        None => Err(LineRefusal::Breaks(AnswersRule::OfKind)),
    }
}

// what the names of a line tell
fn read_names(
    alloc: Global,
    items: &[Item],
    among: &[bool],
    question: Question,
    names: Names,
    _line: &[u8],
) -> Result<ToldLine, LineRefusal<AnswersRule>>
    requires among { length among.now ≡ length items.now }
    requires new { AreNew items.now }
    requires named { AllByRecursion (λ x. is_name x.name ≡ true) items.now }
    requires line { AreAnswerWords items.now question (words_of _line.now) (AnswerWords.Names names) }
    ensures read { IfOk result (λ told. (S : ℕ → Bool) → Agrees items.now S among.now
        → IsTold items.now S question (words_of _line.now) told) }
    ensures refused { IfErr result (λ e. (S : ℕ → Bool) → Agrees items.now S among.now
        → TellsRule (answer_rules items.now S question) (words_of _line.now) e) }
{
    match read_marks(alloc, items, among, is_of_conflict(question), names) {
        Ok(Some(marks)) => Ok(ToldLine::Names(marks)),
        Ok(None) => Err(LineRefusal::Breaks(AnswersRule::Names)),
        Err(_) => Err(LineRefusal::NoMemory),
    }
}

/// Does the question ask whether requirements are consistent?
pub(crate) fn is_of_conflict(question: Question) -> bool
    ensures { result ≡ due.is_of_conflict question }
{
    match question {
        Question::Consistent | Question::Rest => true,
        Question::Asks(_) => false,
    }
}

// the answer of a line, whichever names it has
fn answer_of<'a>(items: &[Item], question: Question, line: &'a [u8]) -> Option<AnswerWords<'a>>
    ensures { MatchOption result (¬ (IsAnswerLine items.now question (words_of line.now)))
        (AreAnswerWords items.now question (words_of line.now)) }
{
    if !are_words(line) {
        return None;
    }
    match behind_question(items, question, line) {
        Some(answer) => answer_words(answer, wants_structure(items, question)),
        None => None,
    }
}

// what stands behind the words of the question
fn behind_question<'a>(items: &[Item], question: Question, line: &'a [u8]) -> Option<&'a [u8]>
    ensures { MatchOption result ((w : List ℕ) (ws : List (List ℕ)) → ¬ (words_of line.now ≡ question_words items.now question ++ w ∷ ws))
        (λ answer. words_of line.now ≡ question_words items.now question ++ words_of answer.now) }
{
    match text_behind(line, first_word(items, question)) {
        Some(behind) => match question {
            Question::Consistent | Question::Rest => Some(behind),
            Question::Asks(number) => text_behind(behind, name_at(items, number)),
        },
        None => None,
    }
}

// the answer, where `wants` tells whether a structure says yes
fn answer_words(answer: &[u8], wants: bool) -> Option<AnswerWords>
    ensures { MatchOption result (¬ (IsAnswer wants (words_of answer.now))) (IsAnswerOf wants (words_of answer.now)) }
{
    match one_word(answer) {
        Some(word) => {
            if word == yes_or_no(wants) {
                Some(AnswerWords::Structure)
            } else if word == b"open".as_slice() {
                Some(AnswerWords::LeftOpen)
            } else {
                None
            }
        }
        None => match text_behind(answer, yes_or_no(!wants)) {
            Some(behind) => because(behind),
            None => None,
        },
    }
}

// the names behind `because`
fn because(words: &[u8]) -> Option<AnswerWords>
    ensures { MatchOption result ((ws : List (List ℕ)) → ¬ (words_of words.now ≡ codes "because" ∷ ws)) (IsBecause (words_of words.now)) }
{
    let (word, rest) = split_word(words);
    if word == b"because".as_slice() {
        Some(AnswerWords::Names(Names { rest }))
    } else {
        None
    }
}
