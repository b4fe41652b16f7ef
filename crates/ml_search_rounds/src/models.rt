// The structure of Even's moves.
use crate::games::{Solved, Vertex};
use crate::positions::Made;
use indexmap::IndexSet;
use ml_arrays::small;
use ml_base::NoMemory;
use ml_candidates::{Candidate, ModelParts};

/// States as they are found, by their positions, with labels and edges.
#[derive(Drop)]
struct Found {
    states: IndexSet<u32>,
    parts: ModelParts,
}

impl Found {
    /// Finds all states from the start; tells whether Even takes a leaf at each, as always.
    fn fill(&mut self, made: Made, game: &Solved) -> Result<bool, NoMemory> {
        self.states.insert(0)?;
        for state in 0..usize::MAX {
            let Some(p) = self.states.as_slice().get(state).copied() else {
                break;
            };
            if !self.push(made, game, small(state), p)? {
                return Ok(false);
            }
        }
        Ok(true)
    }

    /// Adds the labels and the edges of a state; tells whether Even takes a leaf there.
    fn push(&mut self, made: Made, game: &Solved, state: u32, p: u32) -> Result<bool, NoMemory> {
        let Vertex::Link { link, .. } = game.taken(p) else {
            return Ok(false);
        };
        let Some(taken) = made.positions.links(p).get(link) else {
            return Ok(false);
        };
        let Some(leaf) = made.trees.leaves.get(taken.leaf as usize) else {
            return Ok(false);
        };
        let graph = made.terms.graph;
        self.parts.push_labels(graph, state, &leaf.literals)?;
        for (way, next) in leaf.ways.iter().zip(&taken.nexts) {
            let (target, _) = self.states.insert_full(next.to)?;
            self.parts
                .push_edge(graph, state, way.action, small(target))?;
        }
        Ok(true)
    }
}

impl<'a> Made<'a> {
    /// The structure of Even's moves where Even wins with what was made.
    pub(crate) fn model(self, game: &Solved) -> Result<Option<Candidate>, NoMemory> {
        let alloc = self.terms.alloc;
        let mut found = Found {
            states: IndexSet::new(alloc),
            parts: ModelParts::empty(alloc),
        };
        if !found.fill(self, game)? {
            return Ok(None);
        }
        let states = small(found.states.len());
        found.parts.candidate(alloc, states)
    }
}
