// What each node of a problem's graph says, as a formula.
//
// No number is made here: the root says the problem, and what the nodes say to which a node leads follows from what it says
// itself, as the definition of the graph has it (`form_of` of `ml_word_graph`, the tables of `ml_mu_graph`, `ml_pdl_graph`, and
// for blocks `ml_blocks`). The numbers are those of the graph.
use crate::blocks::{Behind, Blocks, Item};
use crate::formulas::{negation, write_mu, write_path, write_pdl, write_run};
use crate::names::Names;
use ml_arrays::{NONE, more_numbers, number, put};
use ml_base::NoMemory;
use ml_ctl::{Pairing, Quantifier, Tense};
use ml_front::{AnyFormula, Problem};
use ml_graph::{ModalGraph, Node};
use ml_lines::{write_number, write_word};
use ml_pdl::{Modality, Program};
use ml_text::Operator;
use std::alloc::Global;

// a formula, or its negation
#[derive(Clone, Copy)]
pub(crate) enum Part<'a> {
    Path(&'a ml_ctl::Term, bool),
    Mu(&'a ml_mu::Term, bool),
    Pdl(&'a ml_pdl::Term, bool),
    // the formula at this place of a formula of CTL* or LTL
    State(usize, bool),
}

#[derive(Clone, Copy)]
pub(crate) enum Saying<'a> {
    // the problem, and that each state has a next one
    Whole(Part<'a>),
    // the same of a problem of LTL
    OnPath(bool),
    // that each state has a next one, or a part of this
    Going,
    Now(Part<'a>),
    // at the next moment
    Later(Part<'a>),
    // what a formula by U, R or W says beside its right operand
    Rest(Part<'a>),
    Both(Part<'a>, Part<'a>),
    // some run of the program, or else each, leads to where the saying at this place holds
    Run(&'a Program, bool, usize),
    // what the block at this place says
    Block(usize),
}

// What is kept beside the sayings of nodes.
#[derive(Drop)]
struct Kept<'a> {
    // what stands behind the runs of programs
    sayings: Vec<Saying<'a>>,
    blocks: Blocks<'a>,
}

// What the nodes say to which a node leads, left and right: where it leads to one, left. A variable leads to its binder, of
// which it is known what it says.
type Children<'a> = (Option<Saying<'a>>, Option<Saying<'a>>);

fn of_path<'a>(term: &'a ml_ctl::Term, positive: bool) -> Children<'a> {
    match term {
        ml_ctl::Term::Const(_) | ml_ctl::Term::Prop(_) | ml_ctl::Term::Quantified(_, _) => (
            None, None,
        ),
        ml_ctl::Term::Not(operand) => (Some(Saying::Now(Part::Path(operand, !positive))), None),
        ml_ctl::Term::Binary(Operator::Iff, left, right) => (
            Some(Saying::Both(Part::Path(left, true), Part::Path(right, positive))),
            Some(Saying::Both(Part::Path(left, false), Part::Path(right, !positive))),
        ),
        ml_ctl::Term::Binary(operator, left, right) => {
            let first = positive != (*operator == Operator::Implies);
            (
                Some(Saying::Now(Part::Path(left, first))),
                Some(Saying::Now(Part::Path(right, positive))),
            )
        }
        ml_ctl::Term::Temporal(Tense::Next, operand) => {
            (Some(Saying::Now(Part::Path(operand, positive))), None)
        }
        ml_ctl::Term::Temporal(_, operand) => (
            Some(Saying::Now(Part::Path(operand, positive))),
            Some(Saying::Later(Part::Path(term, positive))),
        ),
        ml_ctl::Term::Paired(_, _, right) => (
            Some(Saying::Now(Part::Path(right, positive))),
            Some(Saying::Rest(Part::Path(term, positive))),
        ),
    }
}

fn of_mu<'a>(term: &'a ml_mu::Term, positive: bool) -> Children<'a> {
    match term {
        ml_mu::Term::Const(_) | ml_mu::Term::Prop(_) | ml_mu::Term::Var(_) => (None, None),
        ml_mu::Term::Not(operand) => (Some(Saying::Now(Part::Mu(operand, !positive))), None),
        ml_mu::Term::Binary(Operator::Iff, left, right) => (
            Some(Saying::Both(Part::Mu(left, true), Part::Mu(right, positive))),
            Some(Saying::Both(Part::Mu(left, false), Part::Mu(right, !positive))),
        ),
        ml_mu::Term::Binary(operator, left, right) => {
            let first = positive != (*operator == Operator::Implies);
            (
                Some(Saying::Now(Part::Mu(left, first))),
                Some(Saying::Now(Part::Mu(right, positive))),
            )
        }
        ml_mu::Term::Modal(_, _, operand) | ml_mu::Term::Binder(_, _, operand) => {
            (Some(Saying::Now(Part::Mu(operand, positive))), None)
        }
    }
}

// a saying is kept for runs that lead to it, at the place that comes back
fn keep<'a>(kept: &mut Vec<Saying<'a>>, saying: Saying<'a>) -> Result<usize, NoMemory> {
    let place = kept.len();
    kept.push(saying)?;
    Ok(place)
}

fn of_pdl<'a>(
    kept: &mut Vec<Saying<'a>>,
    term: &'a ml_pdl::Term,
    positive: bool,
) -> Result<Children<'a>, NoMemory> {
    match term {
        ml_pdl::Term::Const(_) | ml_pdl::Term::Prop(_) => Ok((None, None)),
        ml_pdl::Term::Not(operand) => Ok((Some(Saying::Now(Part::Pdl(operand, !positive))), None)),
        ml_pdl::Term::Binary(Operator::Iff, left, right) => Ok((
            Some(Saying::Both(Part::Pdl(left, true), Part::Pdl(right, positive))),
            Some(Saying::Both(Part::Pdl(left, false), Part::Pdl(right, !positive))),
        )),
        ml_pdl::Term::Binary(operator, left, right) => {
            let first = positive != (*operator == Operator::Implies);
            Ok((
                Some(Saying::Now(Part::Pdl(left, first))),
                Some(Saying::Now(Part::Pdl(right, positive))),
            ))
        }
        ml_pdl::Term::Modal(modality, program, operand) => {
            let then = keep(kept, Saying::Now(Part::Pdl(operand, positive)))?;
            let is_diamond = (*modality == Modality::Diamond) == positive;
            Ok((Some(Saying::Run(program, is_diamond, then)), None))
        }
        ml_pdl::Term::Repeat(program) => {
            let then = keep(kept, Saying::Now(Part::Pdl(term, positive)))?;
            Ok((Some(Saying::Run(program, positive, then)), None))
        }
    }
}

// what the runs of a program come to: those of its parts, and what is behind them
fn of_run<'a>(
    kept: &mut Vec<Saying<'a>>,
    program: &'a Program,
    is_diamond: bool,
    then: usize,
) -> Result<Children<'a>, NoMemory> {
    let behind = kept.get(then).copied();
    match program {
        Program::Act(_) => Ok((behind, None)),
        Program::Seq(left, right) => {
            let second = keep(kept, Saying::Run(right, is_diamond, then))?;
            Ok((Some(Saying::Run(left, is_diamond, second)), None))
        }
        Program::Alt(left, right) => Ok((
            Some(Saying::Run(left, is_diamond, then)),
            Some(Saying::Run(right, is_diamond, then)),
        )),
        Program::Star(operand) => {
            let again = keep(kept, Saying::Run(program, is_diamond, then))?;
            Ok((behind, Some(Saying::Run(operand, is_diamond, again))))
        }
        Program::Test(formula) => {
            Ok((Some(Saying::Now(Part::Pdl(formula, is_diamond))), behind))
        }
    }
}

// the left operand by U, R or W, and the same formula at the next moment
fn of_rest<'a>(part: Part<'a>) -> Children<'a> {
    let first = match part {
        Part::Path(ml_ctl::Term::Paired(_, left, _), positive) => {
            Some(Saying::Now(Part::Path(left, positive)))
        }
        Part::Path(_, _) | Part::Mu(_, _) | Part::Pdl(_, _) | Part::State(_, _) => None,
    };
    (first, Some(Saying::Later(part)))
}

// a formula of CTL* at a state
fn of_state<'a>(
    alloc: Global,
    blocks: &mut Blocks<'a>,
    place: usize,
    positive: bool,
) -> Result<Children<'a>, NoMemory> {
    let (left, right) = blocks.operands(place);
    match blocks.term(place) {
        Some(ml_ctl::Term::Not(_)) => Ok((Some(Saying::Now(Part::State(left, !positive))), None)),
        Some(ml_ctl::Term::Binary(Operator::Iff, _, _)) => Ok((
            Some(Saying::Both(Part::State(left, true), Part::State(right, positive))),
            Some(Saying::Both(Part::State(left, false), Part::State(right, !positive))),
        )),
        Some(ml_ctl::Term::Binary(operator, _, _)) => {
            let first = positive != (*operator == Operator::Implies);
            Ok((
                Some(Saying::Now(Part::State(left, first))),
                Some(Saying::Now(Part::State(right, positive))),
            ))
        }
        Some(ml_ctl::Term::Quantified(quantifier, _)) => {
            let asks = *quantifier == Quantifier::Exists;
            let block = blocks.begin(alloc, Item::now(left, asks), positive == asks)?;
            Ok((Some(Saying::Block(block)), None))
        }
        _ => Ok((None, None)),
    }
}

// where a block leads
fn of_block<'a>(
    alloc: Global,
    blocks: &mut Blocks<'a>,
    place: usize,
) -> Result<Children<'a>, NoMemory> {
    match blocks.behind(alloc, place)? {
        Behind::State(state, block) => {
            let (at, positive) = state.at();
            Ok((
                Some(Saying::Now(Part::State(at, positive))),
                block_saying(block),
            ))
        }
        Behind::One(block) => Ok((block_saying(block), None)),
        Behind::Two(first, second) => Ok((block_saying(first), block_saying(second))),
    }
}

// what a block says, if it is one
fn block_saying<'a>(block: Option<usize>) -> Option<Saying<'a>> {
    match block {
        Some(place) => Some(Saying::Block(place)),
        None => None,
    }
}

fn children_of<'a>(
    alloc: Global,
    kept: &mut Kept<'a>,
    saying: Saying<'a>,
) -> Result<Children<'a>, NoMemory> {
    match saying {
        Saying::Whole(part) => Ok((Some(Saying::Now(part)), Some(Saying::Going))),
        Saying::OnPath(positive) => {
            let block = kept.blocks.begin(alloc, Item::now(0, positive), true)?;
            Ok((Some(Saying::Block(block)), Some(Saying::Going)))
        }
        Saying::Going => Ok((Some(Saying::Going), Some(Saying::Going))),
        Saying::Now(Part::Path(term, positive)) => Ok(of_path(term, positive)),
        Saying::Now(Part::Mu(term, positive)) => Ok(of_mu(term, positive)),
        Saying::Now(Part::Pdl(term, positive)) => of_pdl(&mut kept.sayings, term, positive),
        Saying::Now(Part::State(place, positive)) => {
            of_state(alloc, &mut kept.blocks, place, positive)
        }
        Saying::Later(part) => Ok((Some(Saying::Now(part)), None)),
        Saying::Rest(part) => Ok(of_rest(part)),
        Saying::Both(left, right) => Ok((Some(Saying::Now(left)), Some(Saying::Now(right)))),
        Saying::Run(program, is_diamond, then) => {
            of_run(&mut kept.sayings, program, is_diamond, then)
        }
        Saying::Block(place) => of_block(alloc, &mut kept.blocks, place),
    }
}

// what the root says
fn root_of(problem: &Problem) -> Saying<'_> {
    let positive = !problem.negated;
    match &problem.formula {
        AnyFormula::Mu(formula) => Saying::Now(Part::Mu(formula.root(), positive)),
        AnyFormula::Word(formula) => Saying::Whole(Part::Path(formula.root(), positive)),
        AnyFormula::Pdl(formula) => Saying::Now(Part::Pdl(formula.root(), positive)),
        AnyFormula::Ctl(_) => Saying::Whole(Part::State(0, positive)),
        AnyFormula::Ltl(_) => Saying::OnPath(positive),
    }
}

// the formula of a problem that has blocks
fn blocks_of(alloc: Global, problem: &Problem) -> Result<Blocks<'_>, NoMemory> {
    match &problem.formula {
        AnyFormula::Ctl(formula) => Blocks::of(alloc, formula.root()),
        AnyFormula::Ltl(formula) => Blocks::of(alloc, formula.root()),
        AnyFormula::Mu(_) | AnyFormula::Pdl(_) | AnyFormula::Word(_) => Ok(Blocks::none(alloc)),
    }
}

fn is_variable(saying: Saying<'_>) -> bool {
    match saying {
        Saying::Now(Part::Mu(term, _)) => matches!(term, ml_mu::Term::Var(_)),
        _ => false,
    }
}

// the numbers of the nodes to which a node leads
fn targets_of(node: Node) -> (Option<u32>, Option<u32>) {
    match node {
        Node::True | Node::False | Node::Lit { .. } => (None, None),
        Node::And { left, right } | Node::Or { left, right } => (Some(left), Some(right)),
        Node::Diamond { to, .. } | Node::Square { to, .. } => (Some(to), None),
    }
}

// a node is met, and what it says is kept if it wasn't known
fn meet<'a>(
    said: &mut Vec<Option<Saying<'a>>>,
    met: &mut Vec<u32>,
    node: Option<u32>,
    saying: Option<Saying<'a>>,
) -> Result<(), NoMemory> {
    if let (Some(node), Some(saying)) = (node, saying) {
        if let Some(place) = said.get_mut(node as usize) {
            if place.is_none() {
                *place = Some(saying);
                met.push(node)?;
            }
        }
    }
    Ok(())
}

// a node that isn't known yet is first met from another one
fn put_under<'a>(above: &mut [u32], said: &[Option<Saying<'a>>], node: Option<u32>, from: u32) {
    if let Some(node) = node {
        if said.get(node as usize).copied().flatten().is_none() {
            put(above, node, from);
        }
    }
}

// A graph with what its nodes say.
#[derive(Drop)]
pub(crate) struct Nodes<'g, 'a> {
    pub graph: &'g ModalGraph,
    said: Vec<Option<Saying<'a>>>,
    kept: Kept<'a>,
    // the node from which each was first met
    above: Vec<u32>,
    // are there blocks, all of which speak of one path?
    has_path: bool,
    // are there binders?
    has_binders: bool,
}

impl<'g, 'a> Nodes<'g, 'a> {
    // Each node is met once at most.
    pub(crate) fn of(
        alloc: Global,
        graph: &'g ModalGraph,
        problem: &'a Problem,
    ) -> Result<Nodes<'g, 'a>, NoMemory> {
        let mut said: Vec<Option<Saying<'a>>> = Vec::with_capacity(alloc, graph.nodes().len())?;
        for _ in graph.nodes() {
            said.push(None)?;
        }
        let mut met = Vec::new(alloc);
        let mut above = Vec::new(alloc);
        more_numbers(&mut above, graph.nodes().len(), NONE)?;
        let mut kept = Kept {
            sayings: Vec::new(alloc),
            blocks: blocks_of(alloc, problem)?,
        };
        let root = Some(root_of(problem));
        meet(&mut said, &mut met, Some(graph.root()), root)?;
        for (place, _) in graph.nodes().iter().enumerate() {
            let Some(number) = met.get(place).copied() else {
                break;
            };
            let saying = said.get(number as usize).copied().flatten();
            let node = graph.nodes().get(number as usize).copied();
            if let (Some(saying), Some(node)) = (saying, node) {
                let (left, right) = targets_of(node);
                let (first, second) = children_of(alloc, &mut kept, saying)?;
                put_under(&mut above, &said, left, number);
                put_under(&mut above, &said, right, number);
                meet(&mut said, &mut met, left, first)?;
                meet(&mut said, &mut met, right, second)?;
            }
        }
        Ok(Nodes {
            graph,
            said,
            kept,
            above,
            has_path: matches!(&problem.formula, AnyFormula::Ltl(_)),
            has_binders: matches!(&problem.formula, AnyFormula::Mu(_)),
        })
    }

    fn saying(&self, node: u32) -> Option<Saying<'a>> {
        self.said.get(node as usize).copied().flatten()
    }

    // what a node says; a variable says what its binder does, to which it leads
    fn bound_saying(&self, node: u32) -> Option<Saying<'a>> {
        let saying = self.saying(node)?;
        if !is_variable(saying) {
            return Some(saying);
        }
        let (binder, _) = targets_of(self.node(node)?);
        self.saying(binder?)
    }

    // the node of a number
    pub(crate) fn node(&self, node: u32) -> Option<Node> {
        self.graph.nodes().get(node as usize).copied()
    }

    // does a node say anything but that each state has a next one?
    pub(crate) fn is_told(&self, node: u32) -> bool {
        !matches!(self.saying(node), Some(Saying::Going))
    }

    // what a node says, as a text
    pub(crate) fn text(
        &self,
        alloc: Global,
        names: &mut Names,
        node: u32,
    ) -> Result<Vec<u8>, NoMemory> {
        if let Some(saying) = self.bound_saying(node) {
            return self.saying_text(alloc, names, saying);
        }
        let mut text = Vec::new(alloc);
        self.write_node(&mut text, node)?;
        Ok(text)
    }

    // numbers that tell a node from each that says something else: blocks with the same items say the same, and so do the
    // literals of one proposition
    pub(crate) fn numbers(&self, alloc: Global, node: u32) -> Result<Vec<u32>, NoMemory> {
        let mut row = Vec::new(alloc);
        match (self.saying(node), self.node(node)) {
            (Some(Saying::Block(place)), _) => self.kept.blocks.write_numbers(&mut row, place)?,
            (_, Some(Node::Lit { prop, positive })) => {
                row.push(if positive { 2 } else { 3 })?;
                row.push(prop)?;
            }
            _ => {
                row.push(4)?;
                row.push(node)?;
            }
        }
        Ok(row)
    }

    // the block that a node stands for, where all blocks speak of one path
    fn path_block(&self, node: u32) -> Option<usize> {
        match self.saying(node) {
            Some(Saying::Block(place)) if self.has_path => Some(place),
            _ => None,
        }
    }

    // what a node says, with a line for each formula that a path is to have
    pub(crate) fn lines(
        &self,
        alloc: Global,
        names: &mut Names,
        node: u32,
    ) -> Result<Vec<u8>, NoMemory> {
        let Some(place) = self.path_block(node) else {
            return self.text(alloc, names, node);
        };
        let mut text = Vec::new(alloc);
        for (i, item) in self.kept.blocks.items(place).iter().enumerate() {
            if i > 0 {
                write_word(&mut text, b"\n")?;
            }
            self.kept.blocks.write_item(names, &mut text, *item, true)?;
        }
        Ok(text)
    }

    // what has two cases at a node
    pub(crate) fn split_text(
        &self,
        alloc: Global,
        names: &mut Names,
        node: u32,
    ) -> Result<Vec<u8>, NoMemory> {
        let Some(place) = self.path_block(node) else {
            return self.text(alloc, names, node);
        };
        let mut text = Vec::new(alloc);
        self.kept.blocks.write_decomposed(names, &mut text, place)?;
        Ok(text)
    }

    // the first of the cases, or else the second
    pub(crate) fn case_text(
        &self,
        alloc: Global,
        names: &mut Names,
        node: u32,
        is_first: bool,
    ) -> Result<Vec<u8>, NoMemory> {
        let Some(place) = self.path_block(node) else {
            return self.text(alloc, names, self.child(node, is_first));
        };
        let mut text = Vec::new(alloc);
        self.kept
            .blocks
            .write_way(names, &mut text, place, is_first)?;
        Ok(text)
    }

    // the left child of a node with two, or else the right one
    fn child(&self, node: u32, is_first: bool) -> u32 {
        match self.node(node) {
            Some(Node::And { left, right } | Node::Or { left, right }) => {
                if is_first { left } else { right }
            }
            _ => node,
        }
    }

    // the node of what is put off where a node is met again and again, of which this odd priority is the lowest one met: of the
    // mu-calculus the binder of this priority around it
    pub(crate) fn put_off_by(&self, node: u32, odd: u32) -> u32 {
        if !self.has_binders {
            return node;
        }
        let mut around = node;
        for _ in self.graph.nodes() {
            if number(self.graph.priorities(), around) == odd {
                return around;
            }
            around = number(&self.above, around);
            if around == NONE {
                break;
            }
        }
        node
    }

    // what has to come about where a node is met again and again
    pub(crate) fn put_off_text(
        &self,
        alloc: Global,
        names: &mut Names,
        node: u32,
    ) -> Result<Vec<u8>, NoMemory> {
        let Some(Saying::Block(place)) = self.saying(node) else {
            return self.text(alloc, names, node);
        };
        let mut text = Vec::new(alloc);
        self.kept.blocks.write_put_off(names, &mut text, place)?;
        Ok(text)
    }

    // the runs that a saying begins with, and what stands behind them: each leads to a saying that was kept before it
    fn runs_of(
        &self,
        alloc: Global,
        saying: Saying<'a>,
    ) -> Result<(Vec<(&'a Program, bool)>, Saying<'a>), NoMemory> {
        let mut runs = Vec::new(alloc);
        let mut next = saying;
        for _ in &self.kept.sayings {
            let Saying::Run(program, is_diamond, then) = next else {
                break;
            };
            let Some(behind) = self.kept.sayings.get(then) else {
                break;
            };
            runs.push((program, is_diamond))?;
            next = *behind;
        }
        Ok((runs, next))
    }

    // a saying, with its modalities before what they lead to
    fn saying_text(
        &self,
        alloc: Global,
        names: &mut Names,
        saying: Saying<'a>,
    ) -> Result<Vec<u8>, NoMemory> {
        let (runs, last) = self.runs_of(alloc, saying)?;
        let mut text = Vec::new(alloc);
        self.write_last(names, &mut text, last)?;
        for (program, is_diamond) in runs.iter().rev() {
            let mut longer = Vec::new(alloc);
            write_run(names, &mut longer, *program, *is_diamond)?;
            write_word(&mut longer, &text)?;
            names.shorten(&mut longer, 0)?;
            text = longer;
        }
        Ok(text)
    }

    fn write_last(
        &self,
        names: &mut Names,
        text: &mut Vec<u8>,
        saying: Saying<'a>,
    ) -> Result<(), NoMemory> {
        let start = text.len();
        match saying {
            Saying::Whole(part) | Saying::Now(part) => self.write_part(names, text, part),
            Saying::OnPath(positive) => {
                self.kept
                    .blocks
                    .write_item(names, text, Item::now(0, positive), true)
            }
            Saying::Going => write_word(text, b"X tt"),
            // its runs are written before it
            Saying::Run(_, _, _) => Ok(()),
            Saying::Later(part) => {
                write_word(text, b"X ")?;
                self.write_part(names, text, part)
            }
            Saying::Rest(part) => self.write_rest(names, text, part),
            Saying::Both(left, right) => {
                write_word(text, b"(")?;
                self.write_part(names, text, left)?;
                write_word(text, b" & ")?;
                self.write_part(names, text, right)?;
                write_word(text, b")")?;
                names.shorten(text, start)
            }
            Saying::Block(place) => self.kept.blocks.write_block(names, text, place),
        }
    }

    fn write_part(
        &self,
        names: &mut Names,
        text: &mut Vec<u8>,
        part: Part<'a>,
    ) -> Result<(), NoMemory> {
        match part {
            Part::Path(term, positive) => write_path(names, text, term, positive),
            Part::Mu(term, positive) => write_mu(names, text, term, positive),
            Part::Pdl(term, positive) => write_pdl(names, text, term, positive),
            Part::State(place, positive) => {
                self.kept
                    .blocks
                    .write_item(names, text, Item::now(place, positive), true)
            }
        }
    }

    // what a formula by U, R or W says beside its right operand: its left operand, and or else itself at the next moment
    fn write_rest(
        &self,
        names: &mut Names,
        text: &mut Vec<u8>,
        part: Part<'a>,
    ) -> Result<(), NoMemory> {
        if let Part::Path(ml_ctl::Term::Paired(pairing, left, _), positive) = part {
            let start = text.len();
            let is_all = matches!(pairing, Pairing::Until | Pairing::Weak) == positive;
            write_word(text, b"(")?;
            write_path(names, text, left, positive)?;
            write_word(text, if is_all { b" & " } else { b" | " })?;
            write_word(text, b"X ")?;
            self.write_part(names, text, part)?;
            write_word(text, b")")?;
            return names.shorten(text, start);
        }
        self.write_part(names, text, part)
    }

    // a node of which it isn't known what it says
    fn write_node(&self, text: &mut Vec<u8>, node: u32) -> Result<(), NoMemory> {
        match self.node(node) {
            Some(Node::True) => write_word(text, b"tt"),
            Some(Node::False) => write_word(text, b"ff"),
            Some(Node::Lit { prop, positive }) => {
                write_word(text, negation(positive))?;
                match self.graph.props().get(prop as usize) {
                    Some(name) => write_word(text, name.bytes()),
                    None => Ok(()),
                }
            }
            _ => {
                write_word(text, b"node ")?;
                write_number(text, u64::from(node))
            }
        }
    }
}
