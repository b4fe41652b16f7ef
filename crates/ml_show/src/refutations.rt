// Refutations, as arguments.
ghost use Rattle.std.specs.Prelude.{◌≤◌, IfOk};
ghost use Rattle.ml_show.specs.Pages.{EndsWithLf};

use crate::page::Page;
use crate::problems::{is_path, show_formula};
use crate::rounds::{put_off_by_step, show_rounds};
use crate::sayings::Nodes;
use crate::steps::Steps;
use crate::telling::Telling;
use crate::wordings::{Aspect, Wordings};
use ml_arrays::{number, small};
use ml_base::NoMemory;
use ml_front::{MOST_NODES, Problem, graph};
use ml_graph::{ClosureRefusal, Node};
use ml_refutation::{Decision, Refutation};
use ml_sequent::ClashCause;
use std::alloc::Global;
use std::cmp::Ordering;

// how deep a case stands within others before its lines go no further in
const DEEPEST: usize = 12;

// Which cases of a split are left to tell.
#[derive(Clone, Copy)]
enum Left {
    Neither,
    First,
    Second,
    Both,
}

fn indent(depth: usize) -> usize
    ensures { result ≤ 28 }
{
    4 + 2 * depth.min(DEEPEST)
}

impl<'n, 'g, 'a> Telling<'n, 'g, 'a> {
    // a line of a case begins
    fn begin(&mut self, depth: usize) -> Result<(), NoMemory> {
        self.page.begin(indent(depth), indent(depth) + 2)
    }

    // the states behind the edges of which a diamond speaks
    fn show_edge(&mut self, diamond: u32) -> Result<(), NoMemory> {
        if self.is_path {
            return self.page.words(b"Then the next moment must have");
        }
        self.page.words(b"Then some state behind an edge")?;
        if let Some(Node::Diamond { action, .. }) = self.nodes.node(diamond) {
            if let Some(name) = self.nodes.graph.actions().get(action as usize) {
                if name.bytes() != b"_".as_slice() {
                    self.page.word(b"by")?;
                    self.page.word(name.bytes())?;
                }
            }
        }
        self.page.words(b"must have")
    }

    // where a diamond leads, and which step excludes it
    fn show_go(
        &mut self,
        here: u32,
        depth: usize,
        diamond: u32,
        entry: u32,
    ) -> Result<(), NoMemory> {
        let step = number(&self.steps.of, entry);
        self.begin(depth)?;
        self.show_edge(diamond)?;
        self.show_asked(step)?;
        self.page.word(b"step")?;
        self.show_number(step, b"")?;
        match step.cmp(&here) {
            Ordering::Less => self.page.word(b"above")?,
            Ordering::Equal => self.page.word(b"itself")?,
            Ordering::Greater => {}
        }
        self.page.words(b"excludes.")?;
        if self.steps.lie_on_round(here, step) {
            self.show_put_off(here, diamond)?;
        }
        self.page.end_line()
    }

    // why something can't be
    fn show_cause(&mut self, cause: ClashCause) -> Result<(), NoMemory> {
        match cause {
            ClashCause::False(_) => self.page.words(b"ff holds nowhere."),
            ClashCause::Pair(positive, negative) => {
                self.say(positive, Aspect::Formula)?;
                self.page.word(b"and")?;
                self.say(negative, Aspect::Formula)?;
                self.page.words(b"exclude one another.")
            }
            ClashCause::Cycle(node) => {
                self.say(node, Aspect::Formula)?;
                self.page.words(
                    b"is asked for again at the same state, without end, and never comes about.",
                )
            }
        }
    }

    // why a case can't be
    fn show_clash(&mut self, depth: usize, cause: ClashCause) -> Result<(), NoMemory> {
        self.begin(depth)?;
        self.page.words(b"That can't be:")?;
        self.show_cause(cause)?;
        self.page.end_line()
    }

    // a case that is none at once
    fn exclude(&mut self, node: u32, case: Aspect, cause: ClashCause) -> Result<(), NoMemory> {
        self.page.word(b"not")?;
        self.say(node, case)?;
        self.page.put(b",")?;
        self.page.word(b"since")?;
        self.show_cause(cause)
    }

    // a case, by the formula that is chosen
    fn show_case(&mut self, depth: usize, node: u32, case: Aspect) -> Result<(), NoMemory> {
        self.begin(depth)?;
        self.page.words(b"* if")?;
        self.say(node, case)?;
        self.page.put(b":")?;
        self.page.end_line()
    }

    // the one case that is left
    fn show_left(&mut self, node: u32, case: Aspect) -> Result<(), NoMemory> {
        self.page.word(b"So")?;
        self.say(node, case)?;
        self.page.put(b".")?;
        self.page.end_line()
    }

    // is a case none, since its node is false?
    fn is_none(&self, node: u32, decision: &Decision) -> bool {
        matches!(decision, Decision::Clash(_)) && matches!(self.nodes.node(node), Some(Node::False))
    }

    // the case that alone is to be told, as both are the same or the other one is none
    fn only_case(&self, node: u32, left: &Decision, right: &Decision) -> Option<Left> {
        let (first, second) = match self.nodes.node(node) {
            Some(Node::Or { left, right }) => (left, right),
            _ => (node, node),
        };
        if first == second || self.is_none(second, right) {
            Some(Left::First)
        } else if self.is_none(first, left) {
            Some(Left::Second)
        } else {
            None
        }
    }

    // a case that can't be at once takes no line of its own
    fn begin_cases(
        &mut self,
        node: u32,
        left: &Decision,
        right: &Decision,
    ) -> Result<Left, NoMemory> {
        match (left, right) {
            (Decision::Clash(one), Decision::Clash(other)) => {
                self.exclude(node, Aspect::First, *one)?;
                self.page.word(b"And")?;
                self.exclude(node, Aspect::Second, *other)?;
                self.page.end_line()?;
                Ok(Left::Neither)
            }
            (Decision::Clash(cause), _) => {
                self.exclude(node, Aspect::First, *cause)?;
                self.show_left(node, Aspect::Second)?;
                Ok(Left::Second)
            }
            (_, Decision::Clash(cause)) => {
                self.exclude(node, Aspect::Second, *cause)?;
                self.show_left(node, Aspect::First)?;
                Ok(Left::First)
            }
            _ => {
                self.page.end_line()?;
                Ok(Left::Both)
            }
        }
    }

    // the cases at a node, as far as they are told before the decisions
    fn begin_split(
        &mut self,
        depth: usize,
        node: u32,
        left: &Decision,
        right: &Decision,
    ) -> Result<Left, NoMemory> {
        if let Some(only) = self.only_case(node, left, right) {
            return Ok(only);
        }
        self.begin(depth)?;
        self.page.word(b"By")?;
        self.say(node, Aspect::Split)?;
        self.page.put(b":")?;
        self.begin_cases(node, left, right)
    }

    // a decision, with the cases at its splits
    fn show_decision(
        &mut self,
        here: u32,
        depth: usize,
        decision: &Decision,
    ) -> Result<(), NoMemory> {
        match decision {
            Decision::Clash(cause) => self.show_clash(depth, *cause),
            Decision::Go { diamond, entry, .. } => self.show_go(here, depth, *diamond, *entry),
            Decision::Split { node, left, right } => {
                match self.begin_split(depth, *node, left, right)? {
                    Left::Neither => Ok(()),
                    Left::First => self.show_decision(here, depth, left),
                    Left::Second => self.show_decision(here, depth, right),
                    Left::Both => {
                        let inside = depth.saturating_add(1);
                        self.show_case(depth, *node, Aspect::First)?;
                        self.show_decision(here, inside, left)?;
                        self.show_case(depth, *node, Aspect::Second)?;
                        self.show_decision(here, inside, right)
                    }
                }
            }
        }
    }

    // what a step excludes
    fn show_excluded(&mut self, here: u32) -> Result<(), NoMemory> {
        let alike = number(&self.steps.alike, here);
        if alike < here {
            self.page.words(b"Those of step")?;
            self.show_number(alike, b"")?;
            self.page
                .words(b"can't hold together, argued in another way:")?;
            return self.page.end_line();
        }
        self.page.words(if self.is_path {
            b"These can't hold together at one moment:".as_slice()
        } else {
            b"These can't hold together at one state:".as_slice()
        })?;
        self.page.end_line()?;
        self.show_list(here)
    }

    fn show_step(&mut self, here: u32, entry: u32) -> Result<(), NoMemory> {
        self.page.end_line()?;
        self.page.begin(0, 0)?;
        self.page.word(b"Step")?;
        self.show_number(here, b".")?;
        self.show_excluded(here)?;
        match self.refutation.entries.get(entry as usize) {
            Some(entry) => self.show_decision(here, 0, &entry.decision),
            None => Ok(()),
        }
    }

    // all steps, and why they are enough
    fn show_steps(&mut self, is_negated: bool) -> Result<(), NoMemory> {
        for (here, entry) in self.steps.entries.iter().enumerate() {
            self.show_step(small(here), *entry)?;
        }
        self.page.end_line()?;
        if !show_rounds(self)? {
            self.page.begin(0, 0)?;
            self.page.words(b"No steps lead round.")?;
            self.page.end_line()?;
        }
        self.page.begin(0, 0)?;
        self.page.words(if is_negated {
            b"So step 1 is right, and the formula holds everywhere.".as_slice()
        } else {
            b"So step 1 is right, and the formula holds nowhere.".as_slice()
        })
    }
}

// what is claimed, and what the names stand for
fn show_claim(page: &mut Page, problem: &Problem, meanings: &[Vec<u8>]) -> Result<(), NoMemory> {
    page.begin(0, 0)?;
    page.words(if problem.negated {
        b"It is said to hold everywhere: its negation can't be met, step by step.".as_slice()
    } else {
        b"It is said to hold nowhere, as these steps show.".as_slice()
    })?;
    page.end_line()?;
    if !meanings.is_empty() {
        page.words(b"Long formulas and programs have names:")?;
        page.end_line()?;
    }
    for (name, meaning) in meanings.iter().enumerate() {
        page.begin(4, 8)?;
        page.put_name(small(name))?;
        page.word(b":=")?;
        page.words(meaning)?;
        page.end_line()?;
    }
    Ok(())
}

// the argument of a refutation, whose nodes say this
fn tell(
    alloc: Global,
    problem: &Problem,
    nodes: &Nodes<'_, '_>,
    refutation: &Refutation,
) -> Result<Page, NoMemory> {
    let steps = Steps::of(alloc, nodes, refutation)?;
    let put_off = put_off_by_step(alloc, nodes, refutation, &steps)?;
    let mut telling = Telling {
        alloc,
        page: Page::new(alloc),
        nodes,
        wordings: Wordings::of(alloc, nodes)?,
        refutation,
        steps: &steps,
        put_off: &put_off,
        lists: Vec::new(alloc),
        is_path: is_path(&problem.formula),
    };
    telling.list_all()?;
    telling.show_steps(problem.negated)?;
    let mut page = Page::new(alloc);
    show_formula(alloc, &mut page, problem)?;
    show_claim(&mut page, problem, telling.wordings.meanings())?;
    page.append(&telling.page)?;
    Ok(page)
}

// the page of a refutation, without its last LF
pub(crate) fn refutation_page(
    alloc: Global,
    problem: &Problem,
    refutation: &Refutation,
) -> Result<Page, NoMemory> {
    match graph(alloc, problem, MOST_NODES) {
        Ok(modal) => tell(
            alloc,
            problem,
            &Nodes::of(alloc, &modal, problem)?,
            refutation,
        ),
        Err(ClosureRefusal::NoMemory) => Err(NoMemory),
        Err(ClosureRefusal::ClosureTooLarge) => {
            let mut page = Page::new(alloc);
            show_formula(alloc, &mut page, problem)?;
            page.words(b"Its graph is too large for a refutation.")?;
            Ok(page)
        }
    }
}

/// What the document of an unsatisfiable problem says: why no state can meet it. Each step tells what can't hold together at
/// one state, by cases, each of which ends in a contradiction or at another step. Entries that ask for the same and go on alike
/// are one step.
///
/// Each node is told by the formula that it stands for, and in LTL by the formulas that a path is to have; what is long has a
/// name, which is explained before the steps. Where steps lead round, it is said what is put off.
///
/// # Errors
/// `NoMemory` alone.
///
/// Cost: linear in the decisions, times the logarithm of the entries, as often as steps have to be told apart by those to which
/// they lead, at most 64 times; the size of a formula for each node that is told; and linear in the text.
pub fn show_refutation(
    alloc: Global,
    problem: &Problem,
    refutation: &Refutation,
) -> Result<Vec<u8>, NoMemory>
    ensures { IfOk result (λ text. EndsWithLf text.items) }
{
    refutation_page(alloc, problem, refutation)?.finish()
}
