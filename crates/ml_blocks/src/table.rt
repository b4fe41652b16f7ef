// The occurrences of a formula, by their numbers.
ghost use Rattle.std.specs.Prelude.{◌≡◌, ◌+◌, ◌*◌, ◌<◌, ◌≤◌, ◌^◌, ◌++◌, [], ◌∷◌, None, Some, length, get_or, IfOk, OnOk};
ghost use Rattle.ml_ctl.specs.Formula.{occurrences};
ghost use Rattle.ml_ctl.specs.Term.{formula_of};
ghost use Rattle.ml_blocks.specs.private.Occurrences as listed;

use ml_base::NoMemory;
use ml_ctl::{Pairing, Quantifier, Tense, Term, count_term};
use ml_nodes::Names;
use ml_text::Operator;
use std::alloc::{AllocError, Global};

// what an occurrence is; a proposition by its place among the names
#[derive(Clone, Copy, Debug)]
pub(crate) enum Symbol {
    Const(bool),
    Prop(u32),
    Not,
    Binary(Operator),
    Temporal(Tense),
    Paired(Pairing),
    Quantified(Quantifier),
}

// an occurrence with the numbers of its operands
#[derive(Clone, Copy, Debug)]
pub(crate) struct Occurrence {
    pub symbol: Symbol,
    pub left: u32,
    pub right: u32,
}

// the occurrences of a formula, with the eventualities of those that a block begins with
#[derive(Drop)]
pub(crate) struct Table {
    pub occurrences: Vec<Occurrence>,
    pub eventualities: Vec<Vec<u64>>,
}

// the key of an item that is asked to be true, or false
fn positive_key(at: u32) -> u64
    ensures { result ≡ 4 * at }
{
    4 * at as u64
}

fn negative_key(at: u32) -> u64
    ensures { result ≡ 4 * at + 2 }
{
    4 * at as u64 + 2
}

// a key behind the others, if it is wanted
fn add_if(out: &mut Vec<u64>, is_wanted: bool, key: u64) -> Result<(), AllocError>
    ensures { OnOk result (out.new.items ≡ out.old.items ++ listed.key_if is_wanted key) }
{
    if is_wanted {
        out.push(key)?;
    }
    Ok(())
}

// the key of an occurrence of X, F or G, if it is an eventuality
fn add_tense(
    out: &mut Vec<u64>,
    at: u32,
    tense: Tense,
    plus: bool,
    minus: bool,
) -> Result<(), AllocError>
    ensures { OnOk result (out.new.items ≡ out.old.items ++ listed.own_tense tense at plus minus) }
{
    match tense {
        Tense::Next => Ok(()),
        Tense::Finally => add_if(out, plus, positive_key(at)),
        Tense::Globally => add_if(out, minus, negative_key(at)),
    }
}

// the same of U, R and W
fn add_pairing(
    out: &mut Vec<u64>,
    at: u32,
    pairing: Pairing,
    plus: bool,
    minus: bool,
) -> Result<(), AllocError>
    ensures { OnOk result (out.new.items ≡ out.old.items ++ listed.own_pairing pairing at plus minus) }
{
    match pairing {
        Pairing::Until => add_if(out, plus, positive_key(at)),
        Pairing::Release | Pairing::Weak => add_if(out, minus, negative_key(at)),
    }
}

// the eventualities that come of a term as the occurrence `at`, asked to be true, to be false, or both
fn gather(
    out: &mut Vec<u64>,
    at: u32,
    term: &Term,
    plus: bool,
    minus: bool,
) -> Result<(), AllocError>
    requires few { at + occurrences (formula_of term.now) ≤ 1000 }
    ensures { OnOk result (out.new.items ≡ out.old.items ++ listed.wanted at (formula_of term.now) plus minus) }
{
    match term {
        Term::Const(_) | Term::Prop(_) | Term::Quantified(_, _) => Ok(()),
        Term::Not(operand) => gather(out, at + 1, operand, minus, plus),
        Term::Binary(Operator::And | Operator::Or, left, right) => {
            gather(out, at + 1, left, plus, minus)?;
            gather(out, at + 1 + count_term(left), right, plus, minus)
        }
        Term::Binary(Operator::Implies, left, right) => {
            gather(out, at + 1, left, minus, plus)?;
            gather(out, at + 1 + count_term(left), right, plus, minus)
        }
        Term::Binary(Operator::Iff, left, right) => {
            let some = plus || minus;
            gather(out, at + 3, left, some, some)?;
            gather(out, at + 3 + count_term(left), right, some, some)
        }
        Term::Temporal(tense, operand) => {
            add_tense(out, at, *tense, plus, minus)?;
            gather(out, at + 1, operand, plus, minus)
        }
        Term::Paired(pairing, left, right) => {
            add_pairing(out, at, *pairing, plus, minus)?;
            gather(out, at + 1, left, plus, minus)?;
            gather(out, at + 1 + count_term(left), right, plus, minus)
        }
    }
}

// the eventualities of a block that begins with a term as the occurrence `at`, asked with this sign; none without one
fn eventualities(
    alloc: Global,
    at: u32,
    term: &Term,
    first: Option<bool>,
) -> Result<Vec<u64>, AllocError>
    requires few { at + occurrences (formula_of term.now) ≤ 1000 }
    ensures { IfOk result (λ keys. keys.items ≡ listed.eventualities_here at (formula_of term.now) first) }
{
    let mut keys = Vec::new(alloc);
    match first {
        None => Ok(keys),
        Some(true) => {
            gather(&mut keys, at, term, true, false)?;
            Ok(keys)
        }
        Some(false) => {
            gather(&mut keys, at, term, false, true)?;
            Ok(keys)
        }
    }
}

// one occurrence more, with these eventualities
fn put(
    table: &mut Table,
    symbol: Symbol,
    operands: (u32, u32),
    keys: Vec<u64>,
) -> Result<(), AllocError>
    ensures occurrences { OnOk result (table.new.occurrences.items
        ≡ table.old.occurrences.items ++ listed.entry symbol operands.0 operands.1 ∷ []) }
    ensures eventualities { OnOk result (listed.lists_of table.new.eventualities.items
        ≡ listed.lists_of table.old.eventualities.items ++ keys.items ∷ []) }
{
    let (left, right) = operands;
    table.occurrences.push(Occurrence {
        symbol,
        left,
        right,
    })?;
    table.eventualities.push(keys)?;
    Ok(())
}

// behind an iff two constants
fn fill(
    alloc: Global,
    table: &mut Table,
    names: &Names,
    operator: Operator,
    at: u32,
) -> Result<(), AllocError>
    ensures occurrences { OnOk result (table.new.occurrences.items
        ≡ table.old.occurrences.items ++ listed.fill (listed.occurrence_here names.now.props.keys) operator at) }
    ensures eventualities { OnOk result (listed.lists_of table.new.eventualities.items
        ≡ listed.lists_of table.old.eventualities.items ++ listed.fill listed.eventualities_here operator at) }
{
    match operator {
        Operator::Iff => {
            put(table, Symbol::Const(true), (0, 0), Vec::new(alloc))?;
            put(table, Symbol::Const(true), (0, 0), Vec::new(alloc))?;
            Ok(())
        }
        Operator::Implies | Operator::Or | Operator::And => Ok(()),
    }
}

// the sign of the item that a quantifier's block begins with
fn sign_of(quantifier: Quantifier) -> bool
    ensures { result ≡ listed.sign_of quantifier }
{
    match quantifier {
        Quantifier::Exists => true,
        Quantifier::Forall => false,
    }
}

// the occurrences of two operands, of which `at` is the first
#[cycle(placing)]
fn place_both(
    alloc: Global,
    table: &mut Table,
    names: &Names,
    at: u32,
    left: &Term,
    right: &Term,
) -> Result<(), AllocError>
    requires names { length names.now.props.keys < 2 ^ 32 }
    requires few { at + occurrences (formula_of left.now) + occurrences (formula_of right.now) ≤ 1000 }
    ensures occurrences { OnOk result (table.new.occurrences.items ≡ table.old.occurrences.items
        ++ (listed.spread (listed.occurrence_here names.now.props.keys) at (formula_of left.now) None
        ++ listed.spread (listed.occurrence_here names.now.props.keys) (at + occurrences (formula_of left.now))
        (formula_of right.now) None)) }
    ensures eventualities { OnOk result (listed.lists_of table.new.eventualities.items
        ≡ listed.lists_of table.old.eventualities.items
        ++ (listed.spread listed.eventualities_here at (formula_of left.now) None
        ++ listed.spread listed.eventualities_here (at + occurrences (formula_of left.now)) (formula_of right.now) None)) }
{
    place(alloc, table, names, at, None, left)?;
    place(alloc, table, names, at + count_term(left), None, right)
}

// the occurrences of a term, of which `at` is the first
#[cycle(placing)]
fn place(
    alloc: Global,
    table: &mut Table,
    names: &Names,
    at: u32,
    first: Option<bool>,
    term: &Term,
) -> Result<(), AllocError>
    requires names { length names.now.props.keys < 2 ^ 32 }
    requires few { at + occurrences (formula_of term.now) ≤ 1000 }
    ensures occurrences { OnOk result (table.new.occurrences.items ≡ table.old.occurrences.items
        ++ listed.spread (listed.occurrence_here names.now.props.keys) at (formula_of term.now) first) }
    ensures eventualities { OnOk result (listed.lists_of table.new.eventualities.items
        ≡ listed.lists_of table.old.eventualities.items
        ++ listed.spread listed.eventualities_here at (formula_of term.now) first) }
{
    let keys = eventualities(alloc, at, term, first)?;
    match term {
        Term::Const(value) => put(table, Symbol::Const(*value), (0, 0), keys),
        Term::Prop(name) => put(table, Symbol::Prop(names.proposition(name)), (0, 0), keys),
        Term::Not(operand) => {
            put(table, Symbol::Not, (at + 1, 0), keys)?;
            place(alloc, table, names, at + 1, None, operand)
        }
        Term::Binary(operator, left, right) => {
            let l = at + operator.weight();
            let operands = (l, l + count_term(left));
            put(table, Symbol::Binary(*operator), operands, keys)?;
            fill(alloc, table, names, *operator, at)?;
            place_both(alloc, table, names, l, left, right)
        }
        Term::Temporal(tense, operand) => {
            put(table, Symbol::Temporal(*tense), (at + 1, 0), keys)?;
            place(alloc, table, names, at + 1, None, operand)
        }
        Term::Paired(pairing, left, right) => {
            let operands = (at + 1, at + 1 + count_term(left));
            put(table, Symbol::Paired(*pairing), operands, keys)?;
            place_both(alloc, table, names, at + 1, left, right)
        }
        Term::Quantified(quantifier, operand) => {
            put(table, Symbol::Quantified(*quantifier), (at + 1, 0), keys)?;
            let first = Some(sign_of(*quantifier));
            place(alloc, table, names, at + 1, first, operand)
        }
    }
}

impl Table {
    // the occurrences of a term; a block may begin with the whole, asked with this sign
    pub(crate) fn of(
        alloc: Global,
        names: &Names,
        first: Option<bool>,
        term: &Term,
    ) -> Result<Table, NoMemory>
        requires names { length names.now.props.keys < 2 ^ 32 }
        requires few { occurrences (formula_of term.now) ≤ 1000 }
        ensures occurrences { IfOk result (λ table. table.occurrences.items
            ≡ listed.spread (listed.occurrence_here names.now.props.keys) 0 (formula_of term.now) first) }
        ensures eventualities { IfOk result (λ table. listed.lists_of table.eventualities.items
            ≡ listed.spread listed.eventualities_here 0 (formula_of term.now) first) }
    {
        let mut table = Table {
            occurrences: Vec::new(alloc),
            eventualities: Vec::new(alloc),
        };
        place(alloc, &mut table, names, 0, first, term)?;
        Ok(table)
    }

    // an occurrence; past the last one, where nobody asks, a constant
    pub(crate) fn at(&self, number: u32) -> Occurrence
        ensures { result ≡ listed.entry_at self.now.occurrences.items number }
    {
        match self.occurrences.get(number as usize) {
            Some(occurrence) => *occurrence,
            None => Occurrence {
                symbol: Symbol::Const(true),
                left: 0,
                right: 0,
            },
        }
    }

    // the eventualities of the block that begins with an occurrence
    pub(crate) fn eventualities(&self, number: u32) -> &[u64]
        ensures { result.now ≡ listed.eventualities_at (listed.lists_of self.now.eventualities.items) number }
    {
        match self.eventualities.get(number as usize) {
            Some(keys) => keys,
            None => &[],
        }
    }
}
