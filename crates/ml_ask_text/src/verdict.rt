// What answers come to.
ghost use Rattle.std.specs.Prelude.{◌≡◌, map};
ghost use Rattle.std.specs.List.{list_any};
ghost use Rattle.ml_replies.specs.Answers.{replied_of};
ghost use Rattle.ml_ask_text.specs.Told as told;

use crate::told::Verdict;
use crate::words::wants_structure;
use ml_replies::{Answer, Answered};
use ml_spec::Item;

fn is_against(items: &[Item], answered: &Answered) -> bool
    ensures { result ≡ told.is_against items.now (replied_of answered.now) }
{
    let wants = wants_structure(items, answered.question);
    match answered.answer {
        Answer::Yes(_) => !wants,
        Answer::No(_) => wants,
        Answer::Open => false,
    }
}

fn is_left_open(answered: &Answered) -> bool
    ensures { result ≡ told.is_left_open (replied_of answered.now) }
{
    matches!(answered.answer, Answer::Open)
}

fn some_against(items: &[Item], answers: &[Answered]) -> bool
    ensures { result ≡ list_any (λ a. told.is_against items.now (replied_of a)) answers.now }
{
    answers.iter().any(|answered| is_against(items, answered))
}

fn some_left_open(answers: &[Answered]) -> bool
    ensures { result ≡ list_any (λ a. told.is_left_open (replied_of a)) answers.now }
{
    answers.iter().any(|answered| is_left_open(answered))
}

/// The verdict of the answers.
pub(crate) fn verdict_of(items: &[Item], answers: &[Answered]) -> Verdict
    ensures { result ≡ told.verdict_of items.now (map replied_of answers.now) }
{
    if some_against(items, answers) {
        Verdict::Against
    } else if some_left_open(answers) {
        Verdict::Open
    } else {
        Verdict::AsMeant
    }
}
