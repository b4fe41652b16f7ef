// A game with a solution behind it, checked.
ghost use Rattle.std.specs.Prelude.{◌≡◌, ◌<◌, IfOk, MatchResult, length};
ghost use Rattle.ml_parity.specs.Game.{size};
ghost use Rattle.ml_pgsolver.specs.CheckedText.{IsCheckRefusedBy, IsFoundIn, IsFoundOf, finding_of};
ghost use Rattle.ml_pgsolver.specs.private.Claiming.{IsInside};

use crate::checked::read_checked;
use crate::named::Named;
use crate::refusal::GameTextRefusal;
use ml_base::NoMemory;
use ml_game_check::{Claim, Rule, Verdict, check};
use std::alloc::Global;

/// What the check of a solution finds.
#[derive(Clone, Copy, Debug, PartialEq, Eq)]
pub enum SolutionFinding {
    /// No entry breaks a rule.
    Accepted,
    /// The entry of the vertex with this id breaks this rule.
    Rejected { id: u32, rule: Rule },
}

/// Checks a game's text with a solution behind it.
///
/// `Accepted` comes exactly where the claims of the entries are right. Where an entry breaks one of the first three rules, the
/// least id of such an entry's vertex is named, with the lowest rule that it breaks; else the id of a vertex whose entry breaks
/// the fourth rule, and no matter which.
///
/// # Errors
/// Those of `read_checked`.
///
/// Cost: that of `read_checked`, and of `ml_game_check::check`.
pub fn check_solution(alloc: Global, text: &[u8]) -> Result<SolutionFinding, GameTextRefusal>
    ensures { MatchResult result (IsFoundIn text.now) (IsCheckRefusedBy text.now) }
{
    let checked = read_checked(alloc, text)?;
    let finding = found(alloc, &checked.named, &checked.claims)?;
    Ok(finding)
}

// what the check of these claims finds
fn found(
    alloc: Global,
    named: &Named,
    claims: &[Option<Claim>],
) -> Result<SolutionFinding, NoMemory>
    requires { length claims.now ≡ size named.now.game }
    ensures { IfOk result (IsFoundOf named.now claims.now) }
{
    let verdict = check(alloc, named.game(), claims)?;
    Ok(finding_of(named.ids(), verdict))
}

// the same, by the vertices' ids
fn finding_of(ids: &[u32], verdict: Verdict) -> SolutionFinding
    requires { IsInside ids.now verdict }
    ensures { result ≡ finding_of ids.now verdict }
{
    match verdict {
        Verdict::Right => SolutionFinding::Accepted,
        Verdict::Broken { vertex, rule } => SolutionFinding::Rejected {
            id: ids[vertex as usize],
            rule,
        },
    }
}
