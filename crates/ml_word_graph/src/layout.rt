// The nodes of all occurrences of a formula, whether they are reached or not, behind those of the root.
ghost use Rattle.std.specs.Prelude.{◌≡◌, ◌+◌, ◌*◌, ◌<◌, ◌≤◌, ◌^◌, ◌++◌, [], ◌∷◌, true, false, ℕ, List, if◌then◌else◌, length, IfOk, OnOk};
ghost use Rattle.ml_graph.specs.declared.node.Node.TheVariants as graph_node;
ghost use Rattle.ml_ctl.specs.Formula as plain;
ghost use Rattle.ml_ctl.specs.Formula.{Formula, occurrences};
ghost use Rattle.ml_ctl.specs.Term.{formula_of};
ghost use Rattle.ml_text.specs.Operators.{weight};
ghost use Rattle.ml_word_graph.specs.WordGraph as word;
ghost use Rattle.ml_word_graph.specs.declared.layout.Kind.TheVariants as kind;
ghost use Rattle.ml_word_graph.specs.private.Layout as layout;

use ml_base::NoMemory;
use ml_ctl::{Pairing, Tense, Term, count_term};
use ml_graph::Node;
use ml_nodes::{Draft, Names, and, constant, lead_to, or};
use ml_text::Operator;
use std::alloc::Global;

// which node of an occurrence: itself, itself at the next state, or what is said beside the right operand
#[derive(Clone, Copy)]
pub(crate) enum Kind {
    Now,
    Later,
    Rest,
}

// the priority of a node that asks for something that has to come about, and that of each other one
const EVENTUAL: u32 = 1;

const PLAIN: u32 = 2;

// where a node of an occurrence stands
fn slot(at: u32, kind: Kind, positive: bool) -> u32
    requires { at ≤ 1002 }
    ensures { result ≡ layout.slot at kind positive }
{
    let offset = match kind {
        Kind::Now => 0,
        Kind::Later => 2,
        Kind::Rest => 4,
    };
    5 + 6 * at + offset + if positive { 0 } else { 1 }
}

fn now(at: u32, positive: bool) -> u32
    requires { at ≤ 1002 }
    ensures { result ≡ layout.slot at kind.Now positive }
{
    slot(at, Kind::Now, positive)
}

fn later(at: u32, positive: bool) -> u32
    requires { at ≤ 1002 }
    ensures { result ≡ layout.slot at kind.Later positive }
{
    slot(at, Kind::Later, positive)
}

fn rest(at: u32, positive: bool) -> u32
    requires { at ≤ 1002 }
    ensures { result ≡ layout.slot at kind.Rest positive }
{
    slot(at, Kind::Rest, positive)
}

// along each edge
fn square(to: u32) -> Node
    ensures { result ≡ graph_node.Square 0 to }
{
    Node::Square { action: 0, to }
}

// ---- the nodes of an occurrence itself, positive and negative

fn now_of_tense(tense: Tense, at: u32) -> (Node, Node)
    requires { at ≤ 1000 }
    ensures positive { (ps : List (List ℕ)) (f : Formula) → result.0 ≡ layout.made ps (word.Now at (plain.Temporal tense f) true) }
    ensures negative { (ps : List (List ℕ)) (f : Formula) → result.1 ≡ layout.made ps (word.Now at (plain.Temporal tense f) false) }
{
    match tense {
        Tense::Next => (square(now(at + 1, true)), square(now(at + 1, false))),
        Tense::Finally => (
            or(now(at + 1, true), later(at, true)),
            and(now(at + 1, false), later(at, false)),
        ),
        Tense::Globally => (
            and(now(at + 1, true), later(at, true)),
            or(now(at + 1, false), later(at, false)),
        ),
    }
}

fn ranks_of_tense(tense: Tense) -> (u32, u32)
    ensures positive { (f : Formula) → result.0 ≡ word.priority_of (word.Now 0 (plain.Temporal tense f) true) }
    ensures negative { (f : Formula) → result.1 ≡ word.priority_of (word.Now 0 (plain.Temporal tense f) false) }
{
    match tense {
        Tense::Next => (PLAIN, PLAIN),
        Tense::Finally => (EVENTUAL, PLAIN),
        Tense::Globally => (PLAIN, EVENTUAL),
    }
}

// `right` is the number of the right operand
fn now_of_pairing(pairing: Pairing, at: u32, right: u32) -> (Node, Node)
    requires { (at ≤ 1000) × (right ≤ 1000) }
    ensures positive { (ps : List (List ℕ)) (f g : Formula) → right ≡ word.right_at (at + 1) f
        → result.0 ≡ layout.made ps (word.Now at (plain.Paired pairing f g) true) }
    ensures negative { (ps : List (List ℕ)) (f g : Formula) → right ≡ word.right_at (at + 1) f
        → result.1 ≡ layout.made ps (word.Now at (plain.Paired pairing f g) false) }
{
    match pairing {
        Pairing::Until | Pairing::Weak => (
            or(now(right, true), rest(at, true)),
            and(now(right, false), rest(at, false)),
        ),
        Pairing::Release => (
            and(now(right, true), rest(at, true)),
            or(now(right, false), rest(at, false)),
        ),
    }
}

fn rest_of_pairing(pairing: Pairing, at: u32) -> (Node, Node)
    requires { at ≤ 1000 }
    ensures positive { (ps : List (List ℕ)) (f g : Formula) → result.0 ≡ layout.made ps (word.Rest at pairing f g true) }
    ensures negative { (ps : List (List ℕ)) (f g : Formula) → result.1 ≡ layout.made ps (word.Rest at pairing f g false) }
{
    match pairing {
        Pairing::Until | Pairing::Weak => (
            and(now(at + 1, true), later(at, true)),
            or(now(at + 1, false), later(at, false)),
        ),
        Pairing::Release => (
            or(now(at + 1, true), later(at, true)),
            and(now(at + 1, false), later(at, false)),
        ),
    }
}

fn ranks_of_pairing(pairing: Pairing) -> (u32, u32)
    ensures positive { (f g : Formula) → result.0 ≡ word.priority_of (word.Now 0 (plain.Paired pairing f g) true) }
    ensures negative { (f g : Formula) → result.1 ≡ word.priority_of (word.Now 0 (plain.Paired pairing f g) false) }
{
    match pairing {
        Pairing::Until => (EVENTUAL, PLAIN),
        Pairing::Release | Pairing::Weak => (PLAIN, EVENTUAL),
    }
}

// `left` and `right` are the numbers of the operands
fn now_of_connective(operator: Operator, at: u32, left: u32, right: u32) -> (Node, Node)
    requires { (at ≤ 1000) × (left ≤ 1000) × (right ≤ 1000) }
    ensures positive { (ps : List (List ℕ)) (f g : Formula) → left ≡ at + weight operator → right ≡ word.right_at left f
        → result.0 ≡ layout.made ps (word.Now at (plain.Binary operator f g) true) }
    ensures negative { (ps : List (List ℕ)) (f g : Formula) → left ≡ at + weight operator → right ≡ word.right_at left f
        → result.1 ≡ layout.made ps (word.Now at (plain.Binary operator f g) false) }
{
    match operator {
        Operator::And => (
            and(now(left, true), now(right, true)),
            or(now(left, false), now(right, false)),
        ),
        Operator::Or => (
            or(now(left, true), now(right, true)),
            and(now(left, false), now(right, false)),
        ),
        Operator::Implies => (
            or(now(left, false), now(right, true)),
            and(now(left, true), now(right, false)),
        ),
        Operator::Iff => (
            or(now(at + 1, true), now(at + 2, true)),
            or(now(at + 1, false), now(at + 2, false)),
        ),
    }
}

// ---- occurrences one after the other

const NONE: (Node, Node) = (Node::True, Node::True);

// the six nodes of an occurrence
fn put_occurrence(
    draft: &mut Draft,
    at: u32,
    now_nodes: (Node, Node),
    ranks: (u32, u32),
    rest_nodes: (Node, Node),
) -> Result<(), NoMemory>
    requires { at ≤ 1000 }
    ensures nodes { OnOk result (draft.new.nodes.items ≡ draft.old.nodes.items ++ now_nodes.0 ∷ now_nodes.1
        ∷ graph_node.Square 0 (layout.slot at kind.Now true) ∷ graph_node.Square 0 (layout.slot at kind.Now false)
        ∷ rest_nodes.0 ∷ rest_nodes.1 ∷ []) }
    ensures priorities { OnOk result (draft.new.priorities.items ≡ draft.old.priorities.items
        ++ ranks.0 ∷ ranks.1 ∷ 2 ∷ 2 ∷ 2 ∷ 2 ∷ []) }
{
    draft.put(now_nodes, ranks)?;
    draft.put(
        (square(now(at, true)), square(now(at, false))),
        (PLAIN, PLAIN),
    )?;
    draft.put(rest_nodes, (PLAIN, PLAIN))
}

// a case of an iff
fn put_case(draft: &mut Draft, nodes: (Node, Node)) -> Result<(), NoMemory>
    ensures nodes { OnOk result (draft.new.nodes.items ≡ draft.old.nodes.items ++ nodes.0 ∷ nodes.1
        ∷ graph_node.True ∷ graph_node.True ∷ graph_node.True ∷ graph_node.True ∷ []) }
    ensures priorities { OnOk result (draft.new.priorities.items ≡ draft.old.priorities.items
        ++ 2 ∷ 2 ∷ 2 ∷ 2 ∷ 2 ∷ 2 ∷ []) }
{
    draft.put(nodes, (PLAIN, PLAIN))?;
    draft.put(NONE, (PLAIN, PLAIN))?;
    draft.put(NONE, (PLAIN, PLAIN))
}

// the two cases of an iff
fn put_cases(draft: &mut Draft, operator: Operator, left: u32, right: u32) -> Result<(), NoMemory>
    requires { (left ≤ 1000) × (right ≤ 1000) }
    ensures nodes { (ps : List (List ℕ)) (i : ℕ) (f g : Formula) → left ≡ i + weight operator → right ≡ word.right_at left f
        → OnOk result (draft.new.nodes.items ≡ draft.old.nodes.items ++ layout.iff_nodes ps operator i f g) }
    ensures priorities { OnOk result (draft.new.priorities.items ≡ draft.old.priorities.items ++ layout.iff_priorities operator) }
{
    match operator {
        Operator::Iff => {
            let both = and(now(left, true), now(right, true));
            put_case(draft, (both, and(now(left, true), now(right, false))))?;
            let neither = and(now(left, false), now(right, false));
            put_case(draft, (neither, and(now(left, false), now(right, true))))
        }
        Operator::Implies | Operator::Or | Operator::And => Ok(()),
    }
}

// the occurrences of two operands, of which `at` is the first
#[cycle(placing)]
fn place_both(
    draft: &mut Draft,
    names: &Names,
    at: u32,
    left: &Term,
    right: &Term,
) -> Result<(), NoMemory>
    requires names { length names.now.props.keys < 2 ^ 32 }
    requires few { at + occurrences (formula_of left.now) + occurrences (formula_of right.now) ≤ 1000 }
    ensures nodes { OnOk result (draft.new.nodes.items ≡ draft.old.nodes.items
        ++ (layout.nodes_of names.now.props.keys at (formula_of left.now)
        ++ layout.nodes_of names.now.props.keys (word.right_at at (formula_of left.now)) (formula_of right.now))) }
    ensures priorities { OnOk result (draft.new.priorities.items ≡ draft.old.priorities.items
        ++ (layout.priorities_of (formula_of left.now) ++ layout.priorities_of (formula_of right.now))) }
{
    place(draft, names, at, left)?;
    place(draft, names, at + count_term(left), right)
}

// the occurrences of a term, of which `at` is the first
#[cycle(placing)]
fn place(draft: &mut Draft, names: &Names, at: u32, term: &Term) -> Result<(), NoMemory>
    requires names { length names.now.props.keys < 2 ^ 32 }
    requires few { at + occurrences (formula_of term.now) ≤ 1000 }
    ensures nodes { OnOk result (draft.new.nodes.items ≡ draft.old.nodes.items
        ++ layout.nodes_of names.now.props.keys at (formula_of term.now)) }
    ensures priorities { OnOk result (draft.new.priorities.items ≡ draft.old.priorities.items
        ++ layout.priorities_of (formula_of term.now)) }
{
    match term {
        Term::Const(value) => {
            let nodes = (constant(*value), constant(!*value));
            put_occurrence(draft, at, nodes, (PLAIN, PLAIN), NONE)
        }
        Term::Prop(name) => {
            let prop = names.proposition(name);
            let yes = Node::Lit {
                prop,
                positive: true,
            };
            let no = Node::Lit {
                prop,
                positive: false,
            };
            put_occurrence(draft, at, (yes, no), (PLAIN, PLAIN), NONE)
        }
        Term::Not(operand) => {
            let nodes = (lead_to(now(at + 1, false)), lead_to(now(at + 1, true)));
            put_occurrence(draft, at, nodes, (PLAIN, PLAIN), NONE)?;
            place(draft, names, at + 1, operand)
        }
        Term::Binary(operator, left, right) => {
            let first = at + operator.weight();
            let second = first + count_term(left);
            let nodes = now_of_connective(*operator, at, first, second);
            put_occurrence(draft, at, nodes, (PLAIN, PLAIN), NONE)?;
            put_cases(draft, *operator, first, second)?;
            place_both(draft, names, first, left, right)
        }
        Term::Temporal(tense, operand) => {
            let nodes = now_of_tense(*tense, at);
            put_occurrence(draft, at, nodes, ranks_of_tense(*tense), NONE)?;
            place(draft, names, at + 1, operand)
        }
        Term::Paired(pairing, left, right) => {
            let second = at + 1 + count_term(left);
            let nodes = now_of_pairing(*pairing, at, second);
            let rest_nodes = rest_of_pairing(*pairing, at);
            put_occurrence(draft, at, nodes, ranks_of_pairing(*pairing), rest_nodes)?;
            place_both(draft, names, at + 1, left, right)
        }
        Term::Quantified(_, operand) => {
            let nodes = (Node::False, Node::False);
            put_occurrence(draft, at, nodes, (PLAIN, PLAIN), NONE)?;
            place(draft, names, at + 1, operand)
        }
    }
}

// the root and its part on edges
fn put_root(draft: &mut Draft, negated: bool) -> Result<(), NoMemory>
    ensures nodes { OnOk result (draft.new.nodes.items ≡ draft.old.nodes.items
        ++ graph_node.And (layout.slot 0 kind.Now (if negated then false else true)) 1
        ∷ graph_node.And 2 3 ∷ graph_node.Diamond 0 4 ∷ graph_node.Square 0 1 ∷ graph_node.True ∷ []) }
    ensures priorities { OnOk result (draft.new.priorities.items ≡ draft.old.priorities.items ++ 2 ∷ 2 ∷ 2 ∷ 2 ∷ 2 ∷ []) }
{
    let root = and(now(0, !negated), 1);
    let has_edge = Node::Diamond { action: 0, to: 4 };
    draft.put((root, and(2, 3)), (PLAIN, PLAIN))?;
    draft.put((has_edge, square(1)), (PLAIN, PLAIN))?;
    draft.nodes.push(Node::True)?;
    draft.priorities.push(PLAIN)?;
    Ok(())
}

// all nodes of a problem
pub(crate) fn laid_out(
    alloc: Global,
    names: &Names,
    term: &Term,
    negated: bool,
) -> Result<Draft, NoMemory>
    requires names { length names.now.props.keys < 2 ^ 32 }
    requires few { occurrences (formula_of term.now) ≤ 1000 }
    ensures nodes { IfOk result (λ d. d.nodes.items ≡ layout.all_nodes names.now.props.keys (formula_of term.now) negated) }
    ensures priorities { IfOk result (λ d. d.priorities.items ≡ layout.all_priorities (formula_of term.now)) }
{
    let mut draft = Draft::new(alloc);
    put_root(&mut draft, negated)?;
    place(&mut draft, names, 0, term)?;
    Ok(draft)
}
