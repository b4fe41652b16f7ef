// Edges of an automaton, replaced by others with which it accepts the same.
ghost use Rattle.std.specs.Prelude.{◌≡◌, ◌≤◌, true, Some, length, ℕ};
ghost use Rattle.ml_labelled.specs.Labelled.{AcceptSame};
ghost use Rattle.ml_labelled.specs.private.Following as following;
ghost use Rattle.ml_labelled.specs.private.Replacing.{MayReplace};
ghost use Rattle.ml_labelled.specs.private.Views.{rows_of};

use crate::fitting::are_edges;
use crate::following::Ranks;
use crate::labelled::{CubeEdge, LabelledAutomaton};

// does the one start follow the other?
fn has_start(ranks: &Ranks) -> bool
    ensures { result ≡ true → (r : ℕ) × (following.rank_of ranks.now 0 0 ≡ Some r) }
{
    match ranks.rank_of(0, 0) {
        Some(_) => true,
        None => false,
    }
}

// are the new edges those of an automaton with no more states, that follows the old one and is followed by it?
fn may_replace(
    props: usize,
    there: &Ranks,
    back: &Ranks,
    old: &[Vec<CubeEdge>],
    new: &[Vec<CubeEdge>],
) -> bool
    ensures { result ≡ true → MayReplace props there.now back.now (rows_of old.now) (rows_of new.now) }
{
    if !are_edges(props, new) {
        return false;
    }
    if new.len() > old.len() {
        return false;
    }
    if !has_start(there) {
        return false;
    }
    if !has_start(back) {
        return false;
    }
    if !there.follows(old, new) {
        return false;
    }
    back.follows(new, old)
}

// The automaton with these edges in place of its own, if the ranks show that it accepts the same with them, and else as it was.
pub(crate) fn replaced(
    automaton: LabelledAutomaton,
    rows: Vec<Vec<CubeEdge>>,
    there: &Ranks,
    back: &Ranks,
) -> LabelledAutomaton
    ensures same { AcceptSame automaton result }
    ensures props { result.props ≡ automaton.props }
    ensures few { length result.edges ≤ length automaton.edges }
{
    let (props, old) = automaton.into_parts();
    if may_replace(props.len(), there, back, &old, &rows) {
        return LabelledAutomaton::new(props, rows);
    }
    LabelledAutomaton::new(props, old)
}
