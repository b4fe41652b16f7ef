// Nodes by the numbers of occurrences, and what they are.
ghost use Rattle.std.specs.Prelude.{◌≡◌, IfOk, find};
ghost use Rattle.ml_blocks.specs.private.Forms as forms;
ghost use Rattle.ml_blocks.specs.private.Occurrences as listed;
ghost use Rattle.ml_blocks.specs.declared.spots.Spot.TheVariants as spot;

use crate::items::{Asked, Items, others, put, put_few};
use crate::rows::{Row, is_next, row_of};
use crate::table::{Symbol, Table};
use ml_base::NoMemory;
use ml_ctl::Quantifier;
use ml_nodes::Form;
use ml_text::Operator;
use std::alloc::{AllocError, Global};

// the nodes that all graphs have
#[derive(Clone, Copy, PartialEq, Eq, Hash)]
pub(crate) enum Fixed {
    Root,
    Total,
    HasEdge,
    LeadsOn,
    True,
    False,
}

// of which part of a formula a state asks: the whole, or the two parts of an iff
#[derive(Clone, Copy, PartialEq, Eq, Hash)]
pub(crate) enum Part {
    Whole,
    Both,
    Neither,
}

// the item that a block begins with, its sign, its items and which eventuality is in focus
#[derive(Drop, PartialEq, Eq, Hash)]
pub(crate) struct Block {
    pub first: Asked,
    pub positive: bool,
    pub items: Items,
    pub focus: usize,
}

// which node a graph begins with: the root, or the one that the problem starts with
#[derive(Clone, Copy)]
pub(crate) enum Beginning {
    Root,
    Start,
}

// a node
#[derive(Drop, PartialEq, Eq, Hash)]
pub(crate) enum Spot {
    Fixed(Fixed),
    State(Part, u32, bool),
    Path(Block),
}

fn whole(number: u32, positive: bool) -> Spot
    ensures { result ≡ forms.whole number positive }
{
    Spot::State(Part::Whole, number, positive)
}

// the node of a block; without items it is a constant
fn path(first: Asked, positive: bool, items: Vec<Asked>, focus: usize) -> Spot
    ensures { result ≡ forms.path_at first positive items.items focus }
{
    if items.is_empty() {
        let constant = if positive { Fixed::True } else { Fixed::False };
        return Spot::Fixed(constant);
    }
    Spot::Path(Block {
        first,
        positive,
        items: Items::of(items),
        focus,
    })
}

// the node that a quantifier begins with
fn begin(alloc: Global, first: Asked, positive: bool) -> Result<Spot, AllocError>
    ensures { IfOk result (λ spot. spot ≡ forms.block_at first positive) }
{
    let items = Vec::from_slice(alloc, &[first])?;
    Ok(path(first, positive, items, 0))
}

// ---- states

fn connective_form(operator: Operator, positive: bool, at: u32, left: u32, right: u32) -> Form<Spot>
    ensures { result ≡ forms.connective_form operator positive at left right }
{
    match (operator, positive) {
        (Operator::And, _) => Form::Two(positive, whole(left, positive), whole(right, positive)),
        (Operator::Or, _) => Form::Two(!positive, whole(left, positive), whole(right, positive)),
        (Operator::Implies, _) => {
            Form::Two(!positive, whole(left, !positive), whole(right, positive))
        }
        (Operator::Iff, _) => Form::Two(
            false,
            Spot::State(Part::Both, at, positive),
            Spot::State(Part::Neither, at, positive),
        ),
    }
}

// the formula at an occurrence, or its negation
fn whole_form(
    alloc: Global,
    table: &Table,
    at: u32,
    positive: bool,
) -> Result<Form<Spot>, AllocError>
    ensures { IfOk result (λ form. form ≡ forms.symbol_form (listed.entry_at table.now.occurrences.items at).symbol positive at
        (listed.entry_at table.now.occurrences.items at).left (listed.entry_at table.now.occurrences.items at).right) }
{
    let occurrence = table.at(at);
    let left = occurrence.left;
    let right = occurrence.right;
    match occurrence.symbol {
        Symbol::Const(value) => Ok(Form::Constant(value == positive)),
        Symbol::Prop(prop) => Ok(Form::Literal(prop, positive)),
        Symbol::Not => Ok(Form::Twice(true, whole(left, !positive))),
        Symbol::Binary(operator) => Ok(connective_form(operator, positive, at, left, right)),
        Symbol::Quantified(Quantifier::Exists) => {
            Ok(Form::Twice(true, begin(alloc, Asked::now(left, true), positive)?))
        }
        Symbol::Quantified(Quantifier::Forall) => {
            Ok(Form::Twice(true, begin(alloc, Asked::now(left, false), !positive)?))
        }
        Symbol::Temporal(_) | Symbol::Paired(_) => Ok(Form::Constant(false)),
    }
}

fn state_form(
    alloc: Global,
    table: &Table,
    part: Part,
    at: u32,
    positive: bool,
) -> Result<Form<Spot>, AllocError>
    ensures { IfOk result (λ form. form ≡ forms.state_form table.now.occurrences.items part at positive) }
{
    let occurrence = table.at(at);
    let left = occurrence.left;
    let right = occurrence.right;
    match part {
        Part::Whole => whole_form(alloc, table, at, positive),
        Part::Both => Ok(Form::Two(true, whole(left, true), whole(right, positive))),
        Part::Neither => Ok(Form::Two(true, whole(left, false), whole(right, !positive))),
    }
}

// ---- blocks

// is the item to be decomposed?
fn is_open(table: &Table, x: Asked) -> bool
    ensures { result ≡ forms.is_open_in table.now.occurrences.items x }
{
    !x.later && !is_next(table.at(x.number).symbol)
}

// the first of them
fn first_open(table: &Table, items: &[Asked]) -> Option<Asked>
    ensures { result ≡ find (forms.is_open_in table.now.occurrences.items) items.now }
{
    items.iter().copied().find(|x| is_open(table, *x))
}

// what an item asks of the next place
fn next(table: &Table, x: Asked) -> Asked
    ensures { result ≡ forms.next_in table.now.occurrences.items x }
{
    let occurrence = table.at(x.number);
    if x.later {
        x.due()
    } else if is_next(occurrence.symbol) {
        Asked::now(occurrence.left, x.positive)
    } else {
        x
    }
}

// what all items ask of the next place
fn next_items(alloc: Global, table: &Table, items: &[Asked]) -> Result<Vec<Asked>, AllocError>
    ensures { IfOk result (λ behind. behind.items ≡ forms.next_all table.now.occurrences.items items.now) }
{
    match items.split_first() {
        None => Ok(Vec::new(alloc)),
        Some((x, rest)) => {
            let behind = next_items(alloc, table, rest)?;
            put(alloc, next(table, *x), &behind)
        }
    }
}

// is the eventuality in focus put off?
fn is_pending(eventualities: &[u64], focus: usize, items: &[Asked]) -> bool
    ensures { result ≡ forms.is_pending eventualities.now focus items.now }
{
    let key = match eventualities.get(focus) {
        Some(key) => *key,
        None => 0,
    };
    items.iter().any(|x| x.later && x.due().key() == key)
}

// the focus behind an edge
fn focus_behind(eventualities: &[u64], focus: usize, pending: bool) -> usize
    ensures { result ≡ forms.focus_in eventualities.now focus pending }
{
    let count = eventualities.len();
    if count == 0 {
        0
    } else if pending {
        focus
    } else {
        (focus % count + 1) % count
    }
}

// the priority of an edge's node, in a positive block
fn edge_priority(eventualities: &[u64], pending: bool) -> u32
    ensures { result ≡ forms.edge_priority_in eventualities.now pending }
{
    if pending && !eventualities.is_empty() {
        1
    } else {
        0
    }
}

// the same block with other items
fn with_items(block: &Block, items: Vec<Asked>) -> Spot
    ensures { result ≡ forms.with_items block.now items.items }
{
    path(block.first, block.positive, items, block.focus)
}

fn item_form(alloc: Global, block: &Block, x: Asked, row: Row) -> Result<Form<Spot>, AllocError>
    ensures { IfOk result (λ form. form ≡ forms.item_form block.now x row) }
{
    let items = block.items.values();
    match row {
        Row::OfState => {
            let rest = others(alloc, x, items)?;
            Ok(Form::Two(
                block.positive,
                whole(x.number, x.positive == block.positive),
                with_items(block, rest),
            ))
        }
        Row::Waits => {
            let same = Vec::from_slice(alloc, items)?;
            Ok(Form::Twice(true, with_items(block, same)))
        }
        Row::Becomes(few) => {
            let rest = others(alloc, x, items)?;
            let more = put_few(alloc, few, &rest)?;
            Ok(Form::Twice(block.positive, with_items(block, more)))
        }
        Row::Either(first, second) => {
            let rest = others(alloc, x, items)?;
            let one = put_few(alloc, first, &rest)?;
            let other = put_few(alloc, second, &rest)?;
            Ok(Form::Two(
                !block.positive,
                with_items(block, one),
                with_items(block, other),
            ))
        }
    }
}

// what the node of a block is, and its priority
fn block_form(alloc: Global, table: &Table, block: &Block) -> Result<(Form<Spot>, u32), AllocError>
    ensures form { IfOk result (λ r. r.0 ≡ forms.form_in table.now.occurrences.items
        (listed.lists_of table.now.eventualities.items) (spot.Path block.now) (spot.Path block.now)) }
    ensures priority { IfOk result (λ r. r.1 ≡ forms.priority_in table.now.occurrences.items
        (listed.lists_of table.now.eventualities.items) (spot.Path block.now)) }
{
    let items = block.items.values();
    let dual = if block.positive { 0 } else { 1 };
    match first_open(table, items) {
        Some(x) => {
            let form = item_form(alloc, block, x, row_of(table.at(x.number), x))?;
            Ok((form, 1 + dual))
        }
        None => {
            let keys = table.eventualities(block.first.number);
            let pending = is_pending(keys, block.focus, items);
            let focus = focus_behind(keys, block.focus, pending);
            let behind = next_items(alloc, table, items)?;
            let to = path(block.first, block.positive, behind, focus);
            Ok((
                Form::Edge(block.positive, to),
                edge_priority(keys, pending) + dual,
            ))
        }
    }
}

// ---- all nodes

// the node that the problem starts with: a block with this sign, or else a state
fn start(alloc: Global, first: Option<bool>, positive: bool) -> Result<Spot, AllocError>
    ensures { IfOk result (λ spot. spot ≡ forms.start_in first positive) }
{
    match first {
        None => Ok(whole(0, positive)),
        Some(sign) => begin(alloc, Asked::now(0, sign), positive),
    }
}

// the node that the graph begins with
pub(crate) fn begin_of(
    alloc: Global,
    beginning: Beginning,
    first: Option<bool>,
    positive: bool,
) -> Result<Spot, NoMemory>
    ensures { IfOk result (λ spot. spot ≡ forms.begin_in beginning first positive) }
{
    match beginning {
        Beginning::Root => Ok(Spot::Fixed(Fixed::Root)),
        Beginning::Start => Ok(start(alloc, first, positive)?),
    }
}

fn fixed_form(
    alloc: Global,
    first: Option<bool>,
    positive: bool,
    fixed: Fixed,
) -> Result<Form<Spot>, AllocError>
    ensures { IfOk result (λ form. form ≡ forms.fixed_form (forms.start_in first positive) fixed) }
{
    match fixed {
        Fixed::Root => {
            let start = start(alloc, first, positive)?;
            Ok(Form::Two(true, start, Spot::Fixed(Fixed::Total)))
        }
        Fixed::Total => Ok(Form::Two(
            true,
            Spot::Fixed(Fixed::HasEdge),
            Spot::Fixed(Fixed::LeadsOn),
        )),
        Fixed::HasEdge => Ok(Form::Edge(true, Spot::Fixed(Fixed::True))),
        Fixed::LeadsOn => Ok(Form::Edge(false, Spot::Fixed(Fixed::Total))),
        Fixed::True => Ok(Form::Constant(true)),
        Fixed::False => Ok(Form::Constant(false)),
    }
}

fn fixed_priority(fixed: Fixed) -> u32
    ensures { result ≡ forms.fixed_priority fixed }
{
    match fixed {
        Fixed::Total => 0,
        _ => 2,
    }
}

// what a node is, and its priority
pub(crate) fn form_of(
    alloc: Global,
    table: &Table,
    first: Option<bool>,
    positive: bool,
    spot: &Spot,
) -> Result<(Form<Spot>, u32), NoMemory>
    ensures form { IfOk result (λ r. r.0 ≡ forms.form_in table.now.occurrences.items
        (listed.lists_of table.now.eventualities.items) (forms.start_in first positive) spot.now) }
    ensures priority { IfOk result (λ r. r.1 ≡ forms.priority_in table.now.occurrences.items
        (listed.lists_of table.now.eventualities.items) spot.now) }
{
    match spot {
        Spot::Fixed(fixed) => Ok((
            fixed_form(alloc, first, positive, *fixed)?,
            fixed_priority(*fixed),
        )),
        Spot::State(part, at, sign) => Ok((state_form(alloc, table, *part, *at, *sign)?, 2)),
        Spot::Path(block) => Ok(block_form(alloc, table, block)?),
    }
}
