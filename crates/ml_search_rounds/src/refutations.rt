// The refutation of Odd's moves.
use crate::games::{Solved, Vertex};
use crate::positions::Made;
use crate::trees::{Kind, Trees};
use indexmap::IndexSet;
use ml_arrays::{NONE, Numbering, number, put, row, small};
use ml_base::NoMemory;
use ml_candidates::{Candidate, Go, Tables, heights_of, join};
use ml_refutation::{Decision, Item};
use ml_trace::state_of;

/// Entries as they are found.
#[derive(Drop)]
struct Entries {
    positions: IndexSet<u32>,
    gos: Vec<Go>,
}

/// Entries that were made. A sequent and a history have theirs in the lists that they name once.
#[derive(Drop)]
struct Making {
    tables: Tables,
    /// The sequents by their places.
    sequents: Numbering,
    /// Of each history the place of its first stack.
    stacks_at: Vec<u32>,
}

/// What is to be done, and what was decided.
#[derive(Clone, Copy)]
enum Task {
    /// Decide at a node of a tree.
    Decide(u32),
    /// Join the last two decisions.
    Join(u32),
}

/// Odd's moves at the position of an entry.
#[derive(Clone, Copy)]
struct Place<'a> {
    made: Made<'a>,
    game: &'a Solved,
    entry: u32,
    position: u32,
    /// The vertices of its links.
    links: &'a [u32],
}

impl<'a> Place<'a> {
    /// A link to a leaf where Odd goes on, and along which way.
    fn choice(self, leaf: u32) -> Option<(usize, usize)> {
        for (k, link) in self.made.positions.links(self.position).iter().enumerate() {
            if link.leaf == leaf {
                let vertex = number(self.links, small(k));
                if let Vertex::Go { next, .. } = self.game.choice(vertex) {
                    return Some((k, next));
                }
            }
        }
        None
    }

    /// The decision at a leaf.
    fn go(self, entries: &mut Entries, leaf: u32) -> Result<Option<Decision>, NoMemory> {
        let Some((link, next)) = self.choice(leaf) else {
            return Ok(None);
        };
        let Some(to) = self.made.positions.next_at(self.position, link, next) else {
            return Ok(None);
        };
        let Some(leaf) = self.made.trees.leaves.get(leaf as usize) else {
            return Ok(None);
        };
        let Some(way) = leaf.ways.get(next) else {
            return Ok(None);
        };
        let (entry, _) = entries.positions.insert_full(to.to)?;
        let entry = small(entry);
        entries.gos.push(Go {
            from: self.entry,
            mark: to.mark,
            to: entry,
        })?;
        Ok(Some(Decision::Go {
            diamond: way.diamond,
            entry,
            mark: to.mark,
        }))
    }

    /// The decision at the position.
    fn decide(self, entries: &mut Entries) -> Result<Option<Decision>, NoMemory> {
        let alloc = self.made.terms.alloc;
        let trees = self.made.trees;
        let root = trees.root(self.made.positions.sequent(self.position));
        let mut done: Vec<Decision> = Vec::new(alloc);
        let mut tasks = vec![in alloc; Task::Decide(root)]?;
        for _ in 0..u64::MAX {
            let Some(task) = tasks.pop() else {
                break;
            };
            let knot = match task {
                Task::Join(node) => {
                    if !join(alloc, node, &mut done)? {
                        return Ok(None);
                    }
                    continue;
                }
                Task::Decide(knot) => knot,
            };
            let made = match trees.kind(knot) {
                Kind::Waits => None,
                Kind::Clash(cause) => Some(Decision::Clash(cause)),
                Kind::Leaf(leaf) => self.go(entries, leaf)?,
                Kind::Split { node, left, right } => {
                    tasks.push(Task::Join(node))?;
                    tasks.push(Task::Decide(right))?;
                    tasks.push(Task::Decide(left))?;
                    continue;
                }
            };
            match made {
                Some(decision) => done.push(decision)?,
                None => return Ok(None),
            }
        }
        Ok(done.pop())
    }
}

impl Making {
    fn new(made: Made) -> Result<Making, NoMemory> {
        let alloc = made.terms.alloc;
        let mut sequents = Numbering::empty(alloc);
        sequents.make_room(made.trees.sequents.len())?;
        Ok(Making {
            tables: Tables::empty(alloc),
            sequents,
            stacks_at: vec![in alloc; NONE; made.positions.histories.len()]?,
        })
    }

    /// The place of a sequent.
    fn sequent(&mut self, trees: &Trees, sequent: u32) -> Result<usize, NoMemory> {
        let place = self.sequents.number(sequent)? as usize;
        if place == self.tables.sequents.len() {
            self.tables.sequents.push(trees.nodes_of(sequent))?;
        }
        Ok(place)
    }

    /// The place of a history's first stack, and whether its stacks are still to be added there.
    fn first_stack(&mut self, history: u32) -> (u32, bool) {
        let known = number(&self.stacks_at, history);
        if known != NONE {
            return (known, false);
        }
        let first = small(self.tables.stacks.len());
        put(&mut self.stacks_at, history, first);
        (first, true)
    }

    /// The names in use and the items of a history.
    fn items(&mut self, made: Made, history: u32) -> Result<(u32, Vec<Item>), NoMemory> {
        let mut items = Vec::new(made.terms.alloc);
        let (first, is_new) = self.first_stack(history);
        let Some(history) = made.positions.histories.as_slice().get(history as usize) else {
            return Ok((0, items));
        };
        for (i, (state, stack)) in history.stacks()?.iter().enumerate() {
            if is_new {
                self.tables.stacks.push(stack)?;
            }
            let state = state_of(*state, &made.terms.odds);
            items.push(Item {
                node: state.node,
                odd: state.odd,
                stack: (first as usize).saturating_add(i),
            })?;
        }
        Ok((history.live(), items))
    }

    /// Adds the entry of a position; tells whether there is one.
    fn push(
        &mut self,
        made: Made,
        p: u32,
        row: &[u64],
        decision: Decision,
    ) -> Result<bool, NoMemory> {
        let Some(position) = made.positions.all.get(p as usize) else {
            return Ok(false);
        };
        let sequent = self.sequent(made.trees, position.sequent)?;
        let (live, items) = self.items(made, position.history)?;
        self.tables
            .push(made.terms.alloc, sequent, live, items, row, decision)
    }
}

impl<'a> Made<'a> {
    /// The vertices of the links of each position, by the places of the links.
    fn vertices_of_links(self, game: &Solved) -> Result<Vec<Vec<u32>>, NoMemory> {
        let alloc = self.terms.alloc;
        let mut all: Vec<Vec<u32>> = Vec::new(alloc);
        for position in &self.positions.all {
            all.push(vec![in alloc; NONE; position.links.len()]?)?;
        }
        for (v, vertex) in game.vertices.iter().enumerate() {
            if let Vertex::Link { position, link } = *vertex {
                if let Some(row) = all.get_mut(position as usize) {
                    put(row, small(link), small(v));
                }
            }
        }
        Ok(all)
    }

    /// The greatest number of names in use.
    fn names_of(self, entries: &Entries) -> u32 {
        let mut most = 0;
        for p in entries.positions.as_slice() {
            if let Some(position) = self.positions.all.get(*p as usize) {
                let histories = self.positions.histories.as_slice();
                if let Some(history) = histories.get(position.history as usize) {
                    most = history.live().max(most);
                }
            }
        }
        most
    }

    /// The decisions at all entries that are found from the start; `None` where one can't be had.
    fn decisions_of(
        self,
        game: &Solved,
        entries: &mut Entries,
    ) -> Result<Option<Vec<Decision>>, NoMemory> {
        let links = self.vertices_of_links(game)?;
        let mut decisions = Vec::new(self.terms.alloc);
        for entry in 0..usize::MAX {
            let Some(position) = entries.positions.as_slice().get(entry).copied() else {
                break;
            };
            let place = Place {
                made: self,
                game,
                entry: small(entry),
                position,
                links: row(&links, position),
            };
            match place.decide(entries)? {
                Some(decision) => decisions.push(decision)?,
                None => return Ok(None),
            }
        }
        Ok(Some(decisions))
    }

    /// The refutation with these heights and decisions at the entries; `None` where a height doesn't fit.
    fn candidate_of(
        self,
        names: u32,
        entries: &Entries,
        rows: &[Vec<u64>],
        decisions: Vec<Decision>,
    ) -> Result<Option<Candidate>, NoMemory> {
        let mut making = Making::new(self)?;
        let positions = entries.positions.as_slice();
        for (p, (row, decision)) in positions.iter().zip(rows.iter().zip(decisions)) {
            if !making.push(self, *p, row, decision)? {
                return Ok(None);
            }
        }
        Ok(Some(making.tables.candidate(names)))
    }

    /// The refutation of Odd's moves where Odd wins with what was made.
    pub(crate) fn refutation(self, game: &Solved) -> Result<Option<Candidate>, NoMemory> {
        let alloc = self.terms.alloc;
        let mut entries = Entries {
            positions: IndexSet::new(alloc),
            gos: Vec::new(alloc),
        };
        entries.positions.insert(0)?;
        let Some(decisions) = self.decisions_of(game, &mut entries)? else {
            return Ok(None);
        };
        let names = self.names_of(&entries);
        let Some(rows) = heights_of(alloc, names, decisions.len(), &entries.gos)? else {
            return Ok(None);
        };
        self.candidate_of(names, &entries, &rows, decisions)
    }
}
