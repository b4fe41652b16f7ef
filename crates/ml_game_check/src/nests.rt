// Classes within classes, as a tree whose leaves are the vertices, and the row that they give: nothing is claimed of it.
use crate::numbers::{NONE, number, put, small};
use crate::sorted::Row;
use ml_base::NoMemory;
use std::alloc::Global;

/// Classes within classes. The first nodes are the vertices; then comes the root, and then the other classes.
#[derive(Drop)]
pub(crate) struct Nest {
    /// The last part of each class.
    last: Vec<u32>,
    /// The part before each node.
    before: Vec<u32>,
    /// The level whose arcs, with those of higher ones, connect each class.
    level: Vec<u32>,
}

impl Nest {
    /// So many vertices, and the root.
    pub(crate) fn of(alloc: Global, vertices: u32) -> Result<Nest, NoMemory> {
        let mut nest = Nest {
            last: Vec::new(alloc),
            before: Vec::new(alloc),
            level: Vec::new(alloc),
        };
        let nodes = (vertices as usize).saturating_add(1);
        nest.last.resize(nodes, NONE)?;
        nest.before.resize(nodes, NONE)?;
        nest.level.resize(nodes, 0)?;
        Ok(nest)
    }

    /// One class more.
    pub(crate) fn class(&mut self, level: u32) -> Result<u32, NoMemory> {
        let node = small(self.last.len());
        self.last.push(NONE)?;
        self.before.push(NONE)?;
        self.level.push(level)?;
        Ok(node)
    }

    /// Puts a node behind all parts of a class so far.
    pub(crate) fn place(&mut self, node: u32, class: u32) {
        let last = number(&self.last, class);
        put(&mut self.before, node, last);
        put(&mut self.last, class, node);
    }

    /// The vertices in a row, with the priorities of the levels at its seams.
    pub(crate) fn row(
        &self,
        alloc: Global,
        vertices: u32,
        priorities: &[u32],
    ) -> Result<Row, NoMemory> {
        let mut row = Row {
            places: Vec::new(alloc),
            seams: Vec::with_capacity(alloc, vertices as usize)?,
        };
        row.places.resize(vertices as usize, 0)?;
        let mut waiting = Vec::new(alloc);
        waiting.push((vertices, NONE))?;
        let mut place: u32 = 0;
        for _ in 0..u64::MAX {
            let Some((node, seam)) = waiting.pop() else {
                break;
            };
            if node < vertices {
                if 0 < place {
                    row.seams.push(seam)?;
                }
                put(&mut row.places, node, place);
                place = place.saturating_add(1);
            } else {
                self.open(node, seam, priorities, &mut waiting)?;
            }
        }
        Ok(row)
    }

    /// Lets the parts of a class wait, the first one behind the seam that is before the class.
    fn open(
        &self,
        class: u32,
        seam: u32,
        priorities: &[u32],
        waiting: &mut Vec<(u32, u32)>,
    ) -> Result<(), NoMemory> {
        let inner = number(priorities, number(&self.level, class));
        let mut part = number(&self.last, class);
        for _ in 0..u64::MAX {
            if part == NONE {
                break;
            }
            let before = number(&self.before, part);
            waiting.push((part, if before == NONE { seam } else { inner }))?;
            part = before;
        }
        Ok(())
    }
}
