// What the nodes of blocks ask of a path, in CTL* and LTL.
//
// As the definition of the graph has it (`ml_blocks`), a block asks for items: formulas that are to hold, or not to hold, now
// or at the next state. Its first item that doesn't wait is decomposed, and what comes of it is asked for by the nodes to which
// the block leads. Which number a node has is said by the graph alone.
use crate::formulas::write_path;
use crate::names::Names;
use ml_arrays::small;
use ml_base::NoMemory;
use ml_ctl::{Pairing, Tense, Term};
use ml_lines::write_word;
use ml_text::Operator;
use std::alloc::Global;

// an occurrence of a formula, with the places of its operands
#[derive(Clone, Copy)]
struct Occurrence<'a> {
    term: &'a Term,
    left: usize,
    right: usize,
}

// what is asked: that the formula at this place hold, or not, now or at the next state
#[derive(Clone, Copy)]
pub(crate) struct Item {
    place: usize,
    positive: bool,
    is_later: bool,
}

impl Item {
    pub(crate) fn now(place: usize, positive: bool) -> Item {
        Item {
            place,
            positive,
            is_later: false,
        }
    }

    // its place, and whether it is to hold
    pub(crate) fn at(self) -> (usize, bool) {
        (self.place, self.positive)
    }

    fn put_off(self) -> Item {
        Item {
            is_later: true,
            ..self
        }
    }

    fn due(self) -> Item {
        Item {
            is_later: false,
            ..self
        }
    }

    // its place in the order of items
    fn key(self) -> usize {
        let sign = if self.positive { 0 } else { 2 };
        let time = if self.is_later { 1 } else { 0 };
        self.place
            .saturating_mul(4)
            .saturating_add(sign)
            .saturating_add(time)
    }
}

// one item, or two
type Few = (Item, Option<Item>);

// what becomes of an item: it is asked of the state alone, waits, becomes others, or others in one of two ways
#[derive(Clone, Copy)]
enum Row {
    OfState,
    Waits,
    Becomes(Few),
    Either(Few, Few),
}

// a block: that a path has all items, or that no path has
#[derive(Drop)]
struct Block {
    positive: bool,
    items: Vec<Item>,
    // the eventualities that come of its first item, and which of them is in focus
    eventualities: usize,
    focus: usize,
}

// where a block leads: to a state's formula and a block, or to one or two blocks; a block without items is a constant
#[derive(Clone, Copy)]
pub(crate) enum Behind {
    State(Item, Option<usize>),
    One(Option<usize>),
    Two(Option<usize>, Option<usize>),
}

// The occurrences of a formula, and the blocks that were met.
#[derive(Drop)]
pub(crate) struct Blocks<'a> {
    occurrences: Vec<Occurrence<'a>>,
    blocks: Vec<Block>,
    // the keys of the eventualities of blocks
    eventualities: Vec<Vec<usize>>,
}

// the occurrences of a formula, in the order of their numbers: an iff has three
fn list<'a>(occurrences: &mut Vec<Occurrence<'a>>, term: &'a Term) -> Result<(), NoMemory> {
    let place = occurrences.len();
    occurrences.push(Occurrence {
        term,
        left: place.saturating_add(1),
        right: place,
    })?;
    match term {
        Term::Const(_) | Term::Prop(_) => Ok(()),
        Term::Not(operand) | Term::Temporal(_, operand) | Term::Quantified(_, operand) => {
            list(occurrences, operand)
        }
        Term::Binary(operator, left, right) => {
            if *operator == Operator::Iff {
                let filler = Occurrence {
                    term,
                    left: place.saturating_add(3),
                    right: place,
                };
                occurrences.push(filler)?;
                occurrences.push(filler)?;
                set_left(occurrences, place, place.saturating_add(3));
            }
            list(occurrences, left)?;
            set_right(occurrences, place);
            list(occurrences, right)
        }
        Term::Paired(_, left, right) => {
            list(occurrences, left)?;
            set_right(occurrences, place);
            list(occurrences, right)
        }
    }
}

fn set_left<'a>(occurrences: &mut Vec<Occurrence<'a>>, place: usize, left: usize) {
    if let Some(occurrence) = occurrences.get_mut(place) {
        occurrence.left = left;
    }
}

// the right operand comes next
fn set_right<'a>(occurrences: &mut Vec<Occurrence<'a>>, place: usize) {
    let right = occurrences.len();
    if let Some(occurrence) = occurrences.get_mut(place) {
        occurrence.right = right;
    }
}

// the items with one more, in their order
fn put(alloc: Global, x: Item, items: &[Item]) -> Result<Vec<Item>, NoMemory> {
    let mut more = Vec::new(alloc);
    let mut is_there = false;
    for item in items {
        if !is_there && x.key() <= item.key() {
            is_there = true;
            if x.key() < item.key() {
                more.push(x)?;
            }
        }
        more.push(*item)?;
    }
    if !is_there {
        more.push(x)?;
    }
    Ok(more)
}

// the items without one, and with a few more
fn replaced(alloc: Global, x: Item, few: Few, items: &[Item]) -> Result<Vec<Item>, NoMemory> {
    let rest = others(alloc, x, items)?;
    let (first, second) = few;
    let more = put(alloc, first, &rest)?;
    match second {
        Some(second) => put(alloc, second, &more),
        None => Ok(more),
    }
}

fn others(alloc: Global, x: Item, items: &[Item]) -> Result<Vec<Item>, NoMemory> {
    let mut rest = Vec::new(alloc);
    for item in items {
        if item.key() != x.key() {
            rest.push(*item)?;
        }
    }
    Ok(rest)
}

fn connective_row(operator: Operator, positive: bool, left: usize, right: usize) -> Row {
    let first = positive != (operator == Operator::Implies);
    match (operator, positive) {
        (Operator::Iff, _) => Row::Either(
            (Item::now(left, true), Some(Item::now(right, positive))),
            (Item::now(left, false), Some(Item::now(right, !positive))),
        ),
        (Operator::And, true) | (Operator::Or | Operator::Implies, false) => {
            Row::Becomes((Item::now(left, first), Some(Item::now(right, positive))))
        }
        (Operator::And, false) | (Operator::Or | Operator::Implies, true) => Row::Either(
            (Item::now(left, first), None),
            (Item::now(right, positive), None),
        ),
    }
}

// is it a least one: does it have to come about some time?
fn is_eventuality(term: &Term, positive: bool) -> bool {
    match term {
        Term::Temporal(Tense::Finally, _) | Term::Paired(Pairing::Until, _, _) => positive,
        Term::Temporal(Tense::Globally, _) | Term::Paired(Pairing::Release | Pairing::Weak, _, _) =>
            !positive,
        _ => false,
    }
}

// adds the keys of the eventualities that come of an occurrence, asked to hold, not to hold, or both
fn gather(
    keys: &mut Vec<usize>,
    place: usize,
    term: &Term,
    plus: bool,
    minus: bool,
) -> Result<(), NoMemory> {
    if plus && is_eventuality(term, true) {
        keys.push(Item::now(place, true).key())?;
    }
    if minus && is_eventuality(term, false) {
        keys.push(Item::now(place, false).key())?;
    }
    let next = place.saturating_add(1);
    match term {
        Term::Const(_) | Term::Prop(_) | Term::Quantified(_, _) => Ok(()),
        Term::Not(operand) => gather(keys, next, operand, minus, plus),
        Term::Temporal(_, operand) => gather(keys, next, operand, plus, minus),
        Term::Binary(Operator::Iff, left, right) => {
            let some = plus || minus;
            let first = place.saturating_add(3);
            gather(keys, first, left, some, some)?;
            gather(keys, first.saturating_add(weight(left)), right, some, some)
        }
        Term::Binary(Operator::Implies, left, right) => {
            gather(keys, next, left, minus, plus)?;
            gather(keys, next.saturating_add(weight(left)), right, plus, minus)
        }
        Term::Binary(_, left, right) | Term::Paired(_, left, right) => {
            gather(keys, next, left, plus, minus)?;
            gather(keys, next.saturating_add(weight(left)), right, plus, minus)
        }
    }
}

// how many numbers the occurrences of a formula take
fn weight(term: &Term) -> usize {
    match term {
        Term::Const(_) | Term::Prop(_) => 1,
        Term::Not(operand) | Term::Temporal(_, operand) | Term::Quantified(_, operand) => {
            weight(operand).saturating_add(1)
        }
        Term::Binary(operator, left, right) => {
            let own = if *operator == Operator::Iff { 3 } else { 1 };
            weight(left)
                .saturating_add(weight(right))
                .saturating_add(own)
        }
        Term::Paired(_, left, right) => {
            weight(left).saturating_add(weight(right)).saturating_add(1)
        }
    }
}

impl<'a> Blocks<'a> {
    // those of no formula
    pub(crate) fn none(alloc: Global) -> Blocks<'a> {
        Blocks {
            occurrences: Vec::new(alloc),
            blocks: Vec::new(alloc),
            eventualities: Vec::new(alloc),
        }
    }

    pub(crate) fn of(alloc: Global, term: &'a Term) -> Result<Blocks<'a>, NoMemory> {
        let mut blocks = Blocks::none(alloc);
        list(&mut blocks.occurrences, term)?;
        Ok(blocks)
    }

    pub(crate) fn term(&self, place: usize) -> Option<&'a Term> {
        Some(self.occurrences.get(place)?.term)
    }

    // the places of the operands of an occurrence
    pub(crate) fn operands(&self, place: usize) -> (usize, usize) {
        match self.occurrences.get(place) {
            Some(occurrence) => (occurrence.left, occurrence.right),
            None => (place, place),
        }
    }

    fn row_of(&self, x: Item) -> Row {
        let (left, right) = self.operands(x.place);
        let same = Item::now(left, x.positive);
        match self.term(x.place) {
            None | Some(Term::Const(_) | Term::Prop(_) | Term::Quantified(_, _)) => Row::OfState,
            Some(Term::Not(_)) => Row::Becomes((Item::now(left, !x.positive), None)),
            Some(Term::Binary(operator, _, _)) => {
                connective_row(*operator, x.positive, left, right)
            }
            Some(Term::Temporal(Tense::Next, _)) => Row::Waits,
            Some(Term::Temporal(tense, _)) => {
                if (*tense == Tense::Finally) == x.positive {
                    Row::Either((same, None), (x.put_off(), None))
                } else {
                    Row::Becomes((same, Some(x.put_off())))
                }
            }
            Some(Term::Paired(pairing, _, _)) => {
                let other = Item::now(right, x.positive);
                if (*pairing != Pairing::Release) == x.positive {
                    Row::Either((other, None), (same, Some(x.put_off())))
                } else {
                    Row::Either((same, Some(other)), (other, Some(x.put_off())))
                }
            }
        }
    }

    // the first item that doesn't wait
    fn first_open(&self, items: &[Item]) -> Option<Item> {
        items
            .iter()
            .copied()
            .find(|x| !x.is_later && !matches!(self.row_of(*x), Row::Waits))
    }

    // what an item asks of the next state
    fn next(&self, x: Item) -> Item {
        if x.is_later {
            return x.due();
        }
        let (operand, _) = self.operands(x.place);
        Item::now(operand, x.positive)
    }

    // a block that begins with an item, at the place that comes back
    pub(crate) fn begin(
        &mut self,
        alloc: Global,
        x: Item,
        positive: bool,
    ) -> Result<usize, NoMemory> {
        let mut keys = Vec::new(alloc);
        if let Some(term) = self.term(x.place) {
            gather(&mut keys, x.place, term, x.positive, !x.positive)?;
        }
        let eventualities = self.eventualities.len();
        self.eventualities.push(keys)?;
        let place = self.blocks.len();
        let mut items = Vec::new(alloc);
        items.push(x)?;
        self.blocks.push(Block {
            positive,
            items,
            eventualities,
            focus: 0,
        })?;
        Ok(place)
    }

    // a block with other items, like another one
    fn keep(
        &mut self,
        place: usize,
        items: Vec<Item>,
        focus: usize,
    ) -> Result<Option<usize>, NoMemory> {
        if items.is_empty() {
            return Ok(None);
        }
        let Some(block) = self.blocks.get(place) else {
            return Ok(None);
        };
        let positive = block.positive;
        let eventualities = block.eventualities;
        let kept = self.blocks.len();
        self.blocks.push(Block {
            positive,
            items,
            eventualities,
            focus,
        })?;
        Ok(Some(kept))
    }

    // the key of the eventuality in focus
    fn focused(&self, block: &Block) -> Option<usize> {
        self.eventualities
            .get(block.eventualities)?
            .get(block.focus)
            .copied()
    }

    // is the eventuality in focus put off?
    fn is_pending(&self, block: &Block) -> bool {
        match self.focused(block) {
            Some(key) => block
                .items
                .iter()
                .any(|x| x.is_later && x.due().key() == key),
            None => false,
        }
    }

    // the focus behind the block
    fn focus_behind(&self, block: &Block) -> usize {
        let count = match self.eventualities.get(block.eventualities) {
            Some(keys) => keys.len(),
            None => 0,
        };
        if self.is_pending(block) {
            return block.focus;
        }
        let next = block.focus.saturating_add(1);
        if next < count { next } else { 0 }
    }

    // the items of the next state
    fn items_behind(&self, alloc: Global, block: &Block) -> Result<Vec<Item>, NoMemory> {
        let mut behind: Vec<Item> = Vec::new(alloc);
        for item in &block.items {
            behind = put(alloc, self.next(*item), &behind)?;
        }
        Ok(behind)
    }

    // where the block at a place leads
    pub(crate) fn behind(&mut self, alloc: Global, place: usize) -> Result<Behind, NoMemory> {
        let Some(block) = self.blocks.get(place) else {
            return Ok(Behind::One(None));
        };
        let positive = block.positive;
        let focus = block.focus;
        let Some(x) = self.first_open(&block.items) else {
            let next = self.focus_behind(block);
            let items = self.items_behind(alloc, block)?;
            return Ok(Behind::One(self.keep(place, items, next)?));
        };
        match self.row_of(x) {
            Row::OfState | Row::Waits => {
                let items = others(alloc, x, &block.items)?;
                let state = Item::now(x.place, x.positive == positive);
                Ok(Behind::State(state, self.keep(place, items, focus)?))
            }
            Row::Becomes(few) => {
                let items = replaced(alloc, x, few, &block.items)?;
                Ok(Behind::One(self.keep(place, items, focus)?))
            }
            Row::Either(first, second) => {
                let one = replaced(alloc, x, first, &block.items)?;
                let other = replaced(alloc, x, second, &block.items)?;
                let left = self.keep(place, one, focus)?;
                Ok(Behind::Two(left, self.keep(place, other, focus)?))
            }
        }
    }

    // the items of the block at a place
    pub(crate) fn items(&self, place: usize) -> &[Item] {
        match self.blocks.get(place) {
            Some(block) => &block.items,
            None => &[],
        }
    }

    // adds numbers that tell the block at a place from each that says something else; the focus isn't among them
    pub(crate) fn write_numbers(&self, row: &mut Vec<u32>, place: usize) -> Result<(), NoMemory> {
        if let Some(block) = self.blocks.get(place) {
            row.push(if block.positive { 1 } else { 0 })?;
            row.push(small(block.items.len()))?;
            for item in &block.items {
                row.push(small(item.key()))?;
            }
        }
        Ok(())
    }

    // an item, or what it says where it isn't met
    pub(crate) fn write_item(
        &self,
        names: &mut Names,
        text: &mut Vec<u8>,
        item: Item,
        is_met: bool,
    ) -> Result<(), NoMemory> {
        if item.is_later {
            write_word(text, b"X ")?;
        }
        match self.term(item.place) {
            Some(term) => write_path(names, text, term, item.positive == is_met),
            None => Ok(()),
        }
    }

    // one or two items
    fn write_few(&self, names: &mut Names, text: &mut Vec<u8>, few: Few) -> Result<(), NoMemory> {
        let (first, second) = few;
        self.write_item(names, text, first, true)?;
        if let Some(second) = second {
            write_word(text, b" & ")?;
            self.write_item(names, text, second, true)?;
        }
        Ok(())
    }

    // a block as a formula of CTL*: some path has all items, or each path lacks one
    pub(crate) fn write_block(
        &self,
        names: &mut Names,
        text: &mut Vec<u8>,
        place: usize,
    ) -> Result<(), NoMemory> {
        let Some(block) = self.blocks.get(place) else {
            return Ok(());
        };
        let start = text.len();
        write_word(text, if block.positive { b"E " } else { b"A " })?;
        let is_many = block.items.len() > 1;
        if is_many {
            write_word(text, b"(")?;
        }
        for (i, item) in block.items.iter().enumerate() {
            if i > 0 {
                write_word(text, if block.positive { b" & " } else { b" | " })?;
            }
            self.write_item(names, text, *item, block.positive)?;
        }
        if is_many {
            write_word(text, b")")?;
        }
        names.shorten(text, start)
    }

    // which item of a block is decomposed
    pub(crate) fn write_decomposed(
        &self,
        names: &mut Names,
        text: &mut Vec<u8>,
        place: usize,
    ) -> Result<(), NoMemory> {
        match self.first_open(self.items(place)) {
            Some(x) => self.write_item(names, text, x, true),
            None => Ok(()),
        }
    }

    // what comes of it, in the first way or else in the second
    pub(crate) fn write_way(
        &self,
        names: &mut Names,
        text: &mut Vec<u8>,
        place: usize,
        is_first: bool,
    ) -> Result<(), NoMemory> {
        let Some(x) = self.first_open(self.items(place)) else {
            return Ok(());
        };
        match self.row_of(x) {
            Row::OfState | Row::Waits => self.write_item(names, text, x, true),
            Row::Becomes(few) => self.write_few(names, text, few),
            Row::Either(first, second) => {
                self.write_few(names, text, if is_first { first } else { second })
            }
        }
    }

    // the eventuality in focus of a block that asks for a path; of another one the block itself
    pub(crate) fn write_put_off(
        &self,
        names: &mut Names,
        text: &mut Vec<u8>,
        place: usize,
    ) -> Result<(), NoMemory> {
        if let Some(block) = self.blocks.get(place) {
            if let Some(key) = self.focused(block) {
                if block.positive {
                    let item = Item::now(key / 4, key % 4 == 0);
                    return self.write_item(names, text, item, true);
                }
            }
        }
        self.write_block(names, text, place)
    }
}
