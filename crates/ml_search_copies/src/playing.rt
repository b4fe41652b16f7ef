// The game in parts: a part of the positions is expanded and solved, then more.
use crate::classes::Classes;
use crate::games::{Board, Solved, Vertex};
use crate::positions::{Next, Positions, Spot};
use crate::regions::Regions;
use ml_arrays::{
    NONE, flag, more_flags, more_numbers, more_rows, number, push_at, put, row, set_flag, small,
};
use ml_base::NoMemory;
use ml_trace::Mark;
use std::alloc::Global;

/// How many positions are expanded at first before the game is solved.
const STEP: usize = 24;

/// How many positions there may be.
const POSITIONS: usize = 20_000;

/// So many steps is a vertex of a game that is solved.
const VERTEX: u64 = 16;

/// What Odd does at a position.
#[derive(Drop)]
pub(crate) struct Plan {
    pub tree: usize,
    /// Where Odd goes at each leaf of the tree.
    pub goes: Vec<Next>,
}

impl Plan {
    /// Goes along this step at a leaf, if it is one of this tree.
    fn take(&mut self, tree: usize, place: usize, next: Next) {
        if self.tree != tree {
            return;
        }
        if let Some(go) = self.goes.get_mut(place) {
            *go = next;
        }
    }
}

/// A game, and what of it is won.
#[derive(Drop)]
pub(crate) struct Play<'a> {
    pub regions: &'a Regions,
    pub classes: Classes,
    pub positions: Positions,
    /// Of each class a position from which Odd wins, or `NONE`.
    pub won: Vec<u32>,
    /// What Odd does at positions that are won.
    pub plans: Vec<Option<Plan>>,
    pub fuel: u64,
    pub alloc: Global,
}

/// Positions in the order in which they are expanded: those for which the fewest options were passed over come first.
#[derive(Drop)]
struct Order {
    rows: Vec<Vec<u32>>,
    cost: Vec<u32>,
    done: Vec<bool>,
    expanded: usize,
    /// Whether all that is reached is expanded.
    is_complete: bool,
}

/// The cost of a step along a way of a tree, by their places.
fn cost_of(tree: usize, way: usize) -> u32 {
    small(tree.min(3)).saturating_add(small(way.min(6)))
}

impl Order {
    fn empty(alloc: Global) -> Order {
        Order {
            rows: Vec::new(alloc),
            cost: Vec::new(alloc),
            done: Vec::new(alloc),
            expanded: 0,
            is_complete: true,
        }
    }

    /// Adds a position at a cost, if that is less than what is known.
    fn add(&mut self, alloc: Global, p: u32, cost: u32) -> Result<(), NoMemory> {
        let count = (p as usize).saturating_add(1);
        more_numbers(&mut self.cost, count, NONE)?;
        more_flags(&mut self.done, count)?;
        if cost < number(&self.cost, p) {
            put(&mut self.cost, p, cost);
            more_rows(alloc, &mut self.rows, (cost as usize).saturating_add(1))?;
            push_at(&mut self.rows, cost, p)?;
        }
        Ok(())
    }

    /// Takes a position at a cost; tells whether it wasn't taken, and has this cost.
    fn take(&mut self, p: u32, cost: u32) -> bool {
        let is_new = !flag(&self.done, p) && number(&self.cost, p) == cost;
        if is_new {
            set_flag(&mut self.done, p, true);
        }
        is_new
    }

    /// Adds where the steps from a position lead that was taken at a cost.
    fn follow(&mut self, alloc: Global, board: Board, p: u32, cost: u32) -> Result<(), NoMemory> {
        for (tree, spots) in board.positions.trees(p).iter().enumerate() {
            for spot in spots {
                if board.classes.won(spot.leaf) == NONE {
                    self.follow_spot(alloc, spot, tree, cost)?;
                }
            }
        }
        Ok(())
    }

    fn follow_spot(
        &mut self,
        alloc: Global,
        spot: &Spot,
        tree: usize,
        cost: u32,
    ) -> Result<(), NoMemory> {
        for (way, next) in spot.nexts.iter().enumerate() {
            self.add(alloc, next.to, cost.saturating_add(cost_of(tree, way)))?;
        }
        Ok(())
    }
}

impl<'a> Play<'a> {
    /// A game on these classes, of which nothing is won; so many steps may be made.
    pub(crate) fn new(
        alloc: Global,
        regions: &'a Regions,
        classes: Classes,
        fuel: u64,
    ) -> Result<Play<'a>, NoMemory> {
        Ok(Play {
            regions,
            won: vec![in alloc; NONE; classes.all.len()]?,
            classes,
            positions: Positions::empty(alloc),
            plans: Vec::new(alloc),
            fuel,
            alloc,
        })
    }

    pub(crate) fn board(&self) -> Board<'_> {
        Board {
            classes: &self.classes,
            positions: &self.positions,
        }
    }

    /// Plays from a class; tells whether Odd wins.
    pub(crate) fn play(&mut self, start: u32) -> Result<bool, NoMemory> {
        self.positions.start(self.regions, &self.classes, start)?;
        let mut step = STEP;
        for _ in 0..u64::MAX {
            let mut order = Order::empty(self.alloc);
            self.widen(&mut order, step)?;
            let Some(game) = self.board().play(self.alloc)? else {
                break;
            };
            let vertices = game.vertices.len() as u64;
            self.spend(vertices.saturating_mul(VERTEX));
            let won = self.take(&game)?;
            if number(&self.won, start) != NONE {
                return Ok(true);
            }
            if self.fuel == 0 || (won == 0 && (order.is_complete || order.expanded == 0)) {
                break;
            }
            if won == 0 {
                step = step.saturating_add(step / 2);
            }
        }
        Ok(false)
    }

    fn spend(&mut self, steps: u64) {
        self.fuel = self.fuel.saturating_sub(steps);
    }

    /// Expands at most so many positions.
    fn widen(&mut self, order: &mut Order, most: usize) -> Result<(), NoMemory> {
        order.add(self.alloc, 0, 0)?;
        for cost in 0..u32::MAX {
            if cost as usize >= order.rows.len() {
                break;
            }
            for i in 0..u32::MAX {
                let p = number(row(&order.rows, cost), i);
                if p == NONE {
                    break;
                }
                if order.take(p, cost) {
                    self.visit(order, most, p, cost)?;
                }
            }
        }
        Ok(())
    }

    /// Expands a position, unless it is or enough are, and looks where it leads.
    fn visit(&mut self, order: &mut Order, most: usize, p: u32, cost: u32) -> Result<(), NoMemory> {
        if !self.positions.is_expanded(p) {
            if order.expanded >= most || self.positions.all.len() > POSITIONS || self.fuel == 0 {
                order.is_complete = false;
                return Ok(());
            }
            order.expanded = order.expanded.saturating_add(1);
            let looked = self.positions.expand(self.regions, &mut self.classes, p)?;
            self.spend(looked as u64);
        }
        order.follow(self.alloc, self.board(), p, cost)
    }

    /// Takes what Odd does where Odd wins; how many classes are won newly.
    fn take(&mut self, game: &Solved) -> Result<usize, NoMemory> {
        for _ in self.plans.len()..self.positions.all.len() {
            self.plans.push(None)?;
        }
        let mut fresh = Vec::new(self.alloc);
        let mut is_new = Vec::new(self.alloc);
        more_flags(&mut is_new, self.positions.all.len())?;
        for (v, vertex) in game.vertices.iter().enumerate() {
            if game.is_odd(v) {
                self.take_vertex(game, v, *vertex, &mut is_new, &mut fresh)?;
            }
        }
        for p in &fresh {
            let class = self.positions.class(*p);
            if number(&self.won, class) == NONE {
                put(&mut self.won, class, *p);
                self.classes.win(class);
                let steps = self.classes.leaves.len() as u64;
                self.spend(steps);
            }
        }
        Ok(fresh.len())
    }

    fn take_vertex(
        &mut self,
        game: &Solved,
        v: usize,
        vertex: Vertex,
        is_new: &mut [bool],
        fresh: &mut Vec<u32>,
    ) -> Result<(), NoMemory> {
        match vertex {
            Vertex::At(p) => {
                if let Vertex::Tree { tree, .. } = game.choice(v) {
                    self.take_position(p, tree, is_new, fresh)?;
                }
                Ok(())
            }
            Vertex::Spot {
                position,
                tree,
                place,
            } if flag(is_new, position) => {
                if let Vertex::Go { way, .. } = game.choice(v) {
                    self.take_go(position, tree, place, way);
                }
                Ok(())
            }
            _ => Ok(()),
        }
    }

    /// Odd chooses a tree at a position.
    fn take_position(
        &mut self,
        p: u32,
        tree: usize,
        is_new: &mut [bool],
        fresh: &mut Vec<u32>,
    ) -> Result<(), NoMemory> {
        let class = self.positions.class(p);
        if number(&self.won, class) == NONE {
            fresh.push(p)?;
        }
        if let Some(None) = self.plans.get(p as usize) {
            let plan = self.plan(class, tree)?;
            if let Some(place) = self.plans.get_mut(p as usize) {
                *place = Some(plan);
            }
            set_flag(is_new, p, true);
        }
        Ok(())
    }

    /// What Odd does with a tree, as far as classes are won.
    fn plan(&self, class: u32, tree: usize) -> Result<Plan, NoMemory> {
        let mut goes = Vec::new(self.alloc);
        for leaf in self.classes.leaves_of(class, tree) {
            goes.push(Next {
                to: number(&self.won, self.classes.won(*leaf)),
                mark: Mark::Red(0),
            })?;
        }
        Ok(Plan { tree, goes })
    }

    /// Odd chooses a way at a leaf.
    fn take_go(&mut self, position: u32, tree: usize, place: usize, way: usize) {
        let nexts = self.positions.nexts(position, tree, place);
        let Some(next) = nexts.get(way).copied() else {
            return;
        };
        if let Some(Some(plan)) = self.plans.get_mut(position as usize) {
            plan.take(tree, place, next);
        }
    }
}
