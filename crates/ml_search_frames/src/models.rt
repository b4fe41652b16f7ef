// The structure of a lasso.
use crate::engines::Engine;
use ml_arrays::small;
use ml_base::NoMemory;
use ml_candidates::{Candidate, ModelParts};

impl<'a> Engine<'a> {
    /// The structure of the path, whose last place leads back to this one.
    pub(crate) fn model(&self, back: u32) -> Result<Option<Candidate>, NoMemory> {
        let alloc = self.known.terms.alloc;
        let mut parts = ModelParts::empty(alloc);
        self.write_states(back, &mut parts)?;
        parts.candidate(alloc, small(self.path.places.len()))
    }

    fn write_states(&self, back: u32, parts: &mut ModelParts) -> Result<(), NoMemory> {
        let graph = self.known.terms.graph;
        let states = self.path.places.len();
        for (i, place) in self.path.places.iter().enumerate() {
            let state = small(i);
            parts.push_labels(graph, state, &place.labels)?;
            let next = if i.saturating_add(1) == states {
                back
            } else {
                state.saturating_add(1)
            };
            parts.push_edge(graph, state, 0, next)?;
        }
        Ok(())
    }
}
