// Edges that are left out, and flags that are changed.
ghost use Rattle.std.specs.Prelude.{◌≡◌, ◌↔◌, true, [], map, length, IfOk, OnOk};
ghost use Rattle.ml_lists.specs.Member.{IsMember};
ghost use Rattle.ml_labelled.specs.Labelled.{AcceptSame, Edge};
ghost use Rattle.ml_labelled.specs.declared.labelled.Literal.{Literal};
ghost use Rattle.ml_labelled.specs.private.Trimming as trimming;
ghost use Rattle.ml_labelled.specs.private.Trimming.{AreKept, AreTrimmed, Covers, IsCovered, IsKept, IsTrimmed, IsTrimming, flagged};
ghost use Rattle.ml_labelled.specs.private.Views.{edge_of, rows_of};

use crate::guide::{Guide, guide_of};
use crate::labelled::{CubeEdge, LabelledAutomaton, Literal};
use crate::merging::mark_of_edge;
use ml_base::NoMemory;
use std::alloc::Global;

// the flag of an edge from p: on full states one, and off loops that of edges among the states to which it leads, if these
// are full
fn flag_of(guide: &Guide, p: usize, to: u32, accepting: bool) -> bool
    ensures { result ≡ trimming.flag_of guide.now p to accepting }
{
    if guide.order_of(p) < guide.order_of(to as usize) {
        return guide.is_full(to as usize);
    }
    if guide.is_full(p) {
        return true;
    }
    accepting
}

// the key of an edge with its flag: those with fewer literals come later, and of these the accepting ones
fn key_of(guide: &Guide, p: usize, edge: &CubeEdge) -> (usize, bool, u64) {
    let accepting = flag_of(guide, p, edge.to, edge.accepting);
    (
        usize::MAX - edge.cube.len(),
        accepting,
        mark_of_edge(edge, accepting),
    )
}

// the edges in an order that depends on nothing but them with their flags, as far as their marks differ
fn sort(guide: &Guide, p: usize, row: &mut Vec<CubeEdge>) -> Result<(), NoMemory>
    ensures { (e : Edge) → IsMember e (map edge_of row.new.items) ↔ IsMember e (map edge_of row.old.items) }
{
    row.sort_by_key(|edge| key_of(guide, p, edge))?;
    Ok(())
}

fn has(cube: &[Literal], literal: &Literal) -> bool
    ensures { result ≡ true → IsMember literal.now cube.now }
{
    cube.contains(literal)
}

// has the cube all these literals?
pub(crate) fn has_all(cube: &[Literal], part: &[Literal]) -> bool
    ensures { result ≡ true → (l : Literal) → IsMember l part.now → IsMember l cube.now }
{
    for literal in part {
        if !has(cube, literal) {
            return false;
        }
    }
    true
}

// does the first edge accept if the second does?
fn accepts_as(edge: &CubeEdge, other: &CubeEdge) -> bool
    ensures { result ≡ true → other.now.accepting ≡ true → edge.now.accepting ≡ true }
{
    if edge.accepting {
        return true;
    }
    !other.accepting
}

// may the first edge be taken wherever the second may, to the same state, and accept if it does?
fn covers(edge: &CubeEdge, other: &CubeEdge) -> bool
    ensures { result ≡ true → Covers (edge_of edge.now) (edge_of other.now) }
{
    if edge.to != other.to {
        return false;
    }
    if !accepts_as(edge, other) {
        return false;
    }
    has_all(&other.cube, &edge.cube)
}

// Of each edge that is kept a sign: one of them covers no edge whose sign lacks a bit of its own. And how many edges may still
// be compared. Nothing rests on it.
#[derive(Drop)]
pub(crate) struct Signs {
    of_kept: Vec<u64>,
    left: u64,
}

// a bit for each literal
fn sign_of(cube: &[Literal]) -> u64 {
    let mut sign = 0u64;
    for literal in cube {
        sign |= 1u64 << (literal.prop % 32 * 2 + u32::from(literal.positive));
    }
    sign
}

impl Signs {
    pub(crate) fn new(alloc: Global, comparisons: u64) -> Signs {
        Signs {
            of_kept: Vec::new(alloc),
            left: comparisons,
        }
    }

    // may all edges that are kept be compared with one more?
    fn take(&mut self) -> bool {
        let count = self.of_kept.len() as u64;
        let is_enough = count <= self.left;
        self.left = self.left.saturating_sub(count);
        is_enough
    }

    // may the kept edge of this place cover one with the sign?
    fn may_cover(&self, place: usize, sign: u64) -> bool {
        match self.of_kept.get(place) {
            Some(kept) => *kept & !sign == 0,
            None => true,
        }
    }
}

fn is_covered(kept: &[CubeEdge], signs: &mut Signs, edge: &CubeEdge) -> bool
    ensures { result ≡ true → IsCovered (edge_of edge.now) (map edge_of kept.now) }
{
    if !signs.take() {
        return false;
    }
    let sign = sign_of(&edge.cube);
    for (i, other) in kept.iter().enumerate() {
        if signs.may_cover(i, sign) {
            if covers(other, edge) {
                return true;
            }
        }
    }
    false
}

// one edge of p more, with its flag, unless it leads to a dead state or another one covers it
fn keep(
    guide: &Guide,
    p: usize,
    kept: &mut Vec<CubeEdge>,
    signs: &mut Signs,
    edge: CubeEdge,
) -> Result<(), NoMemory>
    ensures { OnOk result (IsKept guide.now p (edge_of edge) (map edge_of kept.old.items) (map edge_of kept.new.items)) }
{
    if guide.is_dead(edge.to as usize) {
        return Ok(());
    }
    let CubeEdge {
        cube,
        to,
        accepting,
    } = edge;
    let accepting = flag_of(guide, p, to, accepting);
    let edge = CubeEdge {
        cube,
        to,
        accepting,
    };
    if is_covered(kept, signs, &edge) {
        return Ok(());
    }
    let sign = sign_of(&edge.cube);
    kept.push(edge)?;
    signs.of_kept.push(sign)?;
    Ok(())
}

// so it is of all edges, the last one first
fn keep_all(
    guide: &Guide,
    p: usize,
    kept: &mut Vec<CubeEdge>,
    signs: &mut Signs,
    row: &mut Vec<CubeEdge>,
) -> Result<(), NoMemory>
    requires { kept.old.items ≡ [] }
    ensures { OnOk result (AreKept guide.now p (map edge_of row.old.items) [] (map edge_of kept.new.items)) }
{
    while let Some(edge) = row.pop() {
        keep(guide, p, kept, signs, edge)?;
    }
    Ok(())
}

// the edges of p, trimmed
fn trim_row(
    alloc: Global,
    guide: &Guide,
    p: usize,
    signs: &mut Signs,
    row: &mut Vec<CubeEdge>,
) -> Result<(), NoMemory>
    ensures { OnOk result (IsTrimmed guide.now p (map edge_of row.old.items) (map edge_of row.new.items)) }
{
    sort(guide, p, row)?;
    signs.of_kept.clear();
    let mut kept = Vec::new(alloc);
    keep_all(guide, p, &mut kept, signs, row)?;
    *row = kept;
    Ok(())
}

// the edges of all states, trimmed
fn trim_all(
    alloc: Global,
    guide: &Guide,
    signs: &mut Signs,
    rows: &mut Vec<Vec<CubeEdge>>,
) -> Result<(), NoMemory>
    ensures { OnOk result (AreTrimmed guide.now (rows_of rows.old.items) (rows_of rows.new.items)) }
{
    for p in 0..rows.len() {
        trim_row(alloc, guide, p, signs, &mut rows[p])?;
    }
    Ok(())
}

// by a guide, if it is right
fn trim(alloc: Global, rows: &mut Vec<Vec<CubeEdge>>, comparisons: u64) -> Result<(), NoMemory>
    ensures { OnOk result (IsTrimming (rows_of rows.old.items) (rows_of rows.new.items)) }
{
    let guide = guide_of(alloc, rows)?;
    if !guide.guides(rows) {
        return Ok(());
    }
    let mut signs = Signs::new(alloc, comparisons);
    trim_all(alloc, &guide, &mut signs, rows)?;
    Ok(())
}

// An automaton that accepts the same, without edges into states from which nothing is accepted and edges that others cover,
// all flags set where all loops accept, and each flag off loops that of the states to which the edge leads. An edge is compared
// with the others of its state as long as so many comparisons are enough. The cost is that of sorting the edges of each state,
// and of the comparisons.
pub(crate) fn trimmed(
    alloc: Global,
    automaton: LabelledAutomaton,
    comparisons: u64,
) -> Result<LabelledAutomaton, NoMemory>
    ensures same { IfOk result (λ b. AcceptSame automaton b) }
    ensures props { IfOk result (λ b. b.props ≡ automaton.props) }
    ensures as_many { IfOk result (λ b. length b.edges ≡ length automaton.edges) }
{
    let (props, mut edges) = automaton.into_parts();
    trim(alloc, &mut edges, comparisons)?;
    Ok(LabelledAutomaton::new(props, edges))
}
