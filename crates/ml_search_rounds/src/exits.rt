// The local traces of a leaf, and the letters along its diamonds.
use crate::branches::Branch;
use crate::terms::Terms;
use ml_arrays::{NONE, NumberSet, ascend, number, small};
use ml_base::NoMemory;
use ml_graph::Node;
use ml_trace::{Letter, Transition};
use std::alloc::Global;

/// A walk from a node of a sequent to a Diamond or a Square, with its lowest priority.
#[derive(Clone, Copy)]
pub(crate) struct Exit {
    pub from: u32,
    pub lowest: u32,
    pub leaving: u32,
}

/// Memory for walks.
#[derive(Drop)]
pub(crate) struct Walks {
    /// The places of nodes with the lowest priority on the way there.
    seen: NumberSet,
    work: Vec<(u32, u32)>,
}

/// The place of a priority.
fn level_of(terms: &Terms, priority: u32) -> u32 {
    match terms.levels.binary_search(&priority) {
        Ok(place) => small(place),
        Err(place) => small(place),
    }
}

impl Walks {
    /// Memory for walks.
    pub(crate) fn empty(alloc: Global) -> Walks {
        Walks {
            seen: NumberSet::empty(alloc),
            work: Vec::new(alloc),
        }
    }

    /// Adds the walks from one node.
    fn from(
        &mut self,
        terms: &Terms,
        branch: &Branch,
        from: u32,
        exits: &mut Vec<Exit>,
    ) -> Result<(), NoMemory> {
        let levels = small(terms.levels.len());
        self.seen.clear();
        self.work.clear();
        self.work.push((from, levels))?;
        for _ in 0..u64::MAX {
            let Some((n, level)) = self.work.pop() else {
                break;
            };
            if n == NONE {
                continue;
            }
            let level = level_of(terms, terms.priority(n)).min(level);
            if !self
                .seen
                .insert(n.saturating_mul(levels).saturating_add(level))?
            {
                continue;
            }
            match terms.node(n) {
                Node::Diamond { .. } | Node::Square { .. } => exits.push(Exit {
                    from,
                    lowest: number(&terms.levels, level),
                    leaving: n,
                })?,
                _ => self.go_on(branch.children(terms, n), level)?,
            }
        }
        Ok(())
    }

    /// Goes on to the nodes to which one leads.
    fn go_on(&mut self, children: (u32, u32), level: u32) -> Result<(), NoMemory> {
        self.work.push((children.0, level))?;
        self.work.push((children.1, level))?;
        Ok(())
    }

    /// The walks from the nodes of a sequent.
    pub(crate) fn exits(
        &mut self,
        terms: &Terms,
        branch: &Branch,
        nodes: &[u32],
    ) -> Result<Vec<Exit>, NoMemory> {
        let mut exits = Vec::new(terms.alloc);
        for n in nodes {
            self.from(terms, branch, *n, &mut exits)?;
        }
        Ok(exits)
    }
}

/// Where a node leads along a diamond of an action.
pub(crate) fn target_along(terms: &Terms, diamond: u32, action: u32, leaving: u32) -> Option<u32> {
    match terms.node(leaving) {
        Node::Diamond { to, .. } if leaving == diamond => Some(to),
        Node::Square { action: other, to } if other == action => Some(to),
        _ => None,
    }
}

/// The targets along a diamond, ascending.
pub(crate) fn targets(
    terms: &Terms,
    branch: &Branch,
    diamond: u32,
    action: u32,
) -> Result<Vec<u32>, NoMemory> {
    let mut targets = Vec::new(terms.alloc);
    for n in branch.modals() {
        if let Some(to) = target_along(terms, diamond, action, *n) {
            targets.push(to)?;
        }
    }
    ascend(&mut targets);
    Ok(targets)
}

/// Adds the transitions of one trace.
fn push_moves(
    terms: &Terms,
    transitions: &mut Vec<Transition>,
    exit: Exit,
    to: u32,
) -> Result<(), NoMemory> {
    let from = exit.from;
    transitions.push(Transition {
        from: terms.state(from, 0),
        to: terms.state(to, 0),
        accepting: false,
    })?;
    for (j, d) in terms.odds.iter().enumerate() {
        let place = j.saturating_add(1);
        transitions.push(Transition {
            from: terms.state(from, 0),
            to: terms.state(to, place),
            accepting: false,
        })?;
        if *d <= exit.lowest {
            transitions.push(Transition {
                from: terms.state(from, place),
                to: terms.state(to, place),
                accepting: *d == exit.lowest,
            })?;
        }
    }
    Ok(())
}

/// The letter of the traces along a diamond into these nodes, which ascend; `None` where its numbers are too large.
pub(crate) fn letter(
    terms: &Terms,
    exits: &[Exit],
    diamond: u32,
    action: u32,
    into: &[u32],
) -> Result<Option<Letter>, NoMemory> {
    let mut transitions = Vec::new(terms.alloc);
    for exit in exits {
        if let Some(to) = target_along(terms, diamond, action, exit.leaving) {
            if into.binary_search(&to).is_ok() {
                push_moves(terms, &mut transitions, *exit, to)?;
            }
        }
    }
    Ok(Letter::new(transitions))
}
