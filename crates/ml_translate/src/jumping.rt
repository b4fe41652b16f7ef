// Edges of a smaller automaton for a formula, of which nothing is claimed: whoever takes them sees that they accept the same.
//
// The states are sets of formulas that are to hold from a place on, each with the until that is waited for, its focus. An edge
// tells which untils it puts off. The focus goes on over all that aren't put off at once, and the edge accepts; where none is
// put off it stays, and the edge accepts too; where the one in focus is put off it stays, and the edge doesn't accept. Where an
// edge leaves its strong component, so that it is on no loop, the focus begins anew.
//
// Source: Gastin and Oddoux, Fast LTL to Büchi automata translation (2001).
use indexmap::IndexSet;
use ml_arrays::{Components, Digraph, number, small};
use ml_base::NoMemory;
use ml_labelled::{CubeEdge, LabelledAutomaton, Literal};
use ml_make_automata::{Edge, Sets, sets_of_formula};
use std::alloc::Global;

// How many states there may be, and how many edges.
const MOST_STATES: usize = 4_096;

const MOST_EDGES: usize = 200_000;

// A set by its number, and the until that is waited for.
#[derive(Clone, Copy, PartialEq, Eq, Hash)]
struct Focused {
    set: u32,
    focus: u32,
}

// The states as they are found.
#[derive(Drop)]
struct Finding<'a> {
    sets: &'a Sets,
    // the strong component of each set
    components: Vec<u32>,
    states: IndexSet<Focused>,
    rows: Vec<Vec<CubeEdge>>,
    // how many edges there are
    count: usize,
    alloc: Global,
}

// does the edge put the until off?
fn puts_off(edge: Edge, until: u32) -> bool {
    until < 64 && edge.off >> until & 1 != 0
}

// the first until from this one on, in turn, that the edge puts off; where none is, this one
fn first_put_off(edge: Edge, untils: u32, from: u32) -> u32 {
    for until in from..untils {
        if puts_off(edge, until) {
            return until;
        }
    }
    for until in 0..from {
        if puts_off(edge, until) {
            return until;
        }
    }
    from
}

// the literals of an edge
fn cube_of(alloc: Global, edge: Edge) -> Result<Vec<Literal>, NoMemory> {
    let mut cube = Vec::new(alloc);
    for prop in 0..32u32 {
        if edge.yes >> prop & 1 != 0 {
            cube.push(Literal {
                prop,
                positive: true,
            })?;
        }
        if edge.no >> prop & 1 != 0 {
            cube.push(Literal {
                prop,
                positive: false,
            })?;
        }
    }
    Ok(cube)
}

impl<'a> Finding<'a> {
    fn is_inner(&self, set: u32, edge: Edge) -> bool {
        number(&self.components, set) == number(&self.components, edge.to)
    }

    // where the edge leads from a state, and whether it accepts
    fn behind(&self, at: Focused, edge: Edge) -> (Focused, bool) {
        if !self.is_inner(at.set, edge) {
            return (
                Focused {
                    set: edge.to,
                    focus: 0,
                },
                false,
            );
        }
        let accepting = self.sets.untils == 0 || !puts_off(edge, at.focus);
        let focus = if accepting {
            first_put_off(edge, self.sets.untils, at.focus)
        } else {
            at.focus
        };
        (
            Focused {
                set: edge.to,
                focus,
            },
            accepting,
        )
    }

    fn edge_of(&mut self, at: Focused, edge: Edge) -> Result<CubeEdge, NoMemory> {
        let (to, accepting) = self.behind(at, edge);
        let (place, _) = self.states.insert_full(to)?;
        Ok(CubeEdge {
            cube: cube_of(self.alloc, edge)?,
            to: small(place),
            accepting,
        })
    }

    fn row_of(&mut self, at: Focused) -> Result<Vec<CubeEdge>, NoMemory> {
        let mut row = Vec::new(self.alloc);
        let sets = self.sets;
        let Some(edges) = sets.edges.get(at.set as usize) else {
            return Ok(row);
        };
        for edge in edges {
            row.push(self.edge_of(at, *edge)?)?;
        }
        Ok(row)
    }

    // looks at the next state, if there is one
    fn look_at_next(&mut self) -> Result<bool, NoMemory> {
        let Some(at) = self.states.as_slice().get(self.rows.len()).copied() else {
            return Ok(false);
        };
        let row = self.row_of(at)?;
        self.count = self.count.saturating_add(row.len());
        self.rows.push(row)?;
        Ok(true)
    }

    // finds all states; weren't there too many?
    fn find(&mut self) -> Result<bool, NoMemory> {
        self.states.insert(Focused { set: 0, focus: 0 })?;
        for _ in 0..MOST_STATES {
            if !self.look_at_next()? {
                return Ok(true);
            }
            if self.count > MOST_EDGES {
                return Ok(false);
            }
        }
        Ok(self.states.len() <= self.rows.len())
    }
}

// the strong components of the sets
fn components_of(alloc: Global, sets: &Sets) -> Result<Vec<u32>, NoMemory> {
    let mut digraph = Digraph::empty(alloc);
    for edges in &sets.edges {
        for edge in edges {
            digraph.push_target(edge.to)?;
        }
        digraph.end_node()?;
    }
    let components = Components::of_graph(alloc, &digraph)?;
    Ok(components.of)
}

// the edges over these sets; none where they would be too many
fn rows_of(alloc: Global, sets: &Sets) -> Result<Vec<Vec<CubeEdge>>, NoMemory> {
    let mut finding = Finding {
        sets,
        components: components_of(alloc, sets)?,
        states: IndexSet::new(alloc),
        rows: Vec::new(alloc),
        count: 0,
        alloc,
    };
    if finding.find()? {
        Ok(finding.rows)
    } else {
        Ok(Vec::new(alloc))
    }
}

// Edges of another automaton for the formula of this one; none where they would be too many, or this one has two states at most.
// The cost is that of the sets, and linear in the edges.
pub(crate) fn jumping_rows(
    alloc: Global,
    automaton: &LabelledAutomaton,
    formula: &ml_ltl::Formula,
) -> Result<Vec<Vec<CubeEdge>>, NoMemory> {
    if automaton.edges().len() <= 2 {
        return Ok(Vec::new(alloc));
    }
    match sets_of_formula(alloc, automaton.props(), formula)? {
        Some(sets) => rows_of(alloc, &sets),
        None => Ok(Vec::new(alloc)),
    }
}
