// What is said of texts that are refused. Want of memory is no refusal of a text.
ghost use Rattle.std.specs.Prelude.{◌≡◌, IfSome, Some};
ghost use Rattle.ml_driver.specs.Said.{status_said};
ghost use Rattle.ml_driver.specs.declared.status.Status.TheVariants.{Text};
ghost use Rattle.ml_driver.specs.Automata.{automaton_refusal_said};
ghost use Rattle.ml_driver.specs.Games.{game_refusal_said};
ghost use Rattle.ml_driver.specs.Statuses.{refusal_said};

use crate::{Said, TextKind};
use ml_base::ParseRefusal;
use ml_hoa::HoaRefusal;
use ml_pgsolver::GameTextRefusal;

fn refused(kind: TextKind, rule: u32, at: u64) -> Option<Said>
    ensures said { result ≡ Some (Said.RefusedText kind rule at) }
    ensures text { IfSome result (λ x. Text ≡ status_said x) }
{
    Some(Said::RefusedText { kind, rule, at })
}

pub(crate) fn formula_refused(refusal: ParseRefusal) -> Option<Said>
    ensures said { result ≡ refusal_said refusal }
    ensures text { IfSome result (λ x. Text ≡ status_said x) }
{
    match refusal {
        ParseRefusal::Syntax { at } => refused(TextKind::Formula, 1, at),
        ParseRefusal::Unbound { at } => refused(TextKind::Formula, 2, at),
        ParseRefusal::NotPositive { at } => refused(TextKind::Formula, 3, at),
        ParseRefusal::TooMany { at } => refused(TextKind::Formula, 4, at),
        ParseRefusal::TooNested { at } => refused(TextKind::Formula, 5, at),
        ParseRefusal::NameTooLong { at } => refused(TextKind::Formula, 6, at),
        ParseRefusal::NoMemory => None,
    }
}

pub(crate) fn game_refused(refusal: GameTextRefusal) -> Option<Said>
    ensures said { result ≡ game_refusal_said refusal }
    ensures text { IfSome result (λ x. Text ≡ status_said x) }
{
    match refusal {
        GameTextRefusal::Syntax { at } => refused(TextKind::Game, 1, at),
        GameTextRefusal::Repeated { at } => refused(TextKind::Game, 2, at),
        GameTextRefusal::Unknown { at } => refused(TextKind::Game, 3, at),
        GameTextRefusal::TooMany { at } => refused(TextKind::Game, 4, at),
        GameTextRefusal::TooLarge { at } => refused(TextKind::Game, 5, at),
        GameTextRefusal::NoMemory => None,
    }
}

pub(crate) fn automaton_refused(refusal: HoaRefusal) -> Option<Said>
    ensures said { result ≡ automaton_refusal_said refusal }
    ensures text { IfSome result (λ x. Text ≡ status_said x) }
{
    match refusal {
        HoaRefusal::Syntax { at } => refused(TextKind::Automaton, 1, at),
        HoaRefusal::Range { at } => refused(TextKind::Automaton, 2, at),
        HoaRefusal::TooMany { at } => refused(TextKind::Automaton, 3, at),
        HoaRefusal::NoMemory => None,
    }
}
