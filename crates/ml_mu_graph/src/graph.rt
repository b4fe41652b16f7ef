// The graph of a formula.
ghost use Rattle.std.specs.Prelude.{◌≡◌, ◌+◌, ◌*◌, ◌/◌, ◌^◌, ◌≤◌, ◌<◌, ◌++◌, [], length, take, drop, IfOk, OnOk};
ghost use Rattle.ml_mu.specs.Formula as mu;
ghost use Rattle.ml_mu.specs.Formula.{occurrences};
ghost use Rattle.ml_mu.specs.Term.{formula_of};
ghost use Rattle.ml_mu_graph.specs.MuGraph as graph;
ghost use Rattle.ml_mu_graph.specs.Laws.{HoldsWhere};
ghost use Rattle.ml_mu_graph.specs.MuGraph.{IsGraphOf};
ghost use Rattle.ml_nodes.specs.private.Connectives.{operator_nodes, operator_priorities};
ghost use Rattle.ml_mu_graph.specs.private.NodeList as listed;
ghost use Rattle.ml_mu_graph.specs.private.Views.{none_around, around};

use crate::binders::Binders;
use crate::names::names_of;
use ml_base::{Name, NoMemory};
use ml_graph::{ModalGraph, Node};
use ml_mu::{Fixpoint, Formula, Modality, Term};
use ml_nodes::{Draft, Lists, Names, and, constant, lead_to, negative, or, positive, root_of};
use ml_text::{MOST_OCCURRENCES, Operator};
use std::alloc::Global;

// how many binders a term has
fn count_binders(term: &Term) -> u32
    requires { occurrences (formula_of term.now) ≤ MOST_OCCURRENCES }
    ensures number { result ≡ graph.binders (formula_of term.now) }
    ensures few { result ≤ occurrences (formula_of term.now) }
{
    match term {
        Term::Const(_) | Term::Prop(_) | Term::Var(_) => 0,
        Term::Not(operand) | Term::Modal(_, _, operand) => count_binders(operand),
        Term::Binary(_, left, right) => count_binders(left) + count_binders(right),
        Term::Binder(_, _, body) => 1 + count_binders(body),
    }
}

// a block of nodes is written over those that stand there
fn fill(nodes: &mut Vec<Node>, from: usize, block: &[Node])
    requires { from + length block.now ≤ length nodes.old.items }
    ensures { nodes.new.items ≡ take from nodes.old.items ++ (block.now ++ drop (from + length block.now) nodes.old.items) }
{
    nodes[from..from + block.len()].copy_from_slice(block);
}

// a block of placeholders for a connective, with their priorities
fn open(draft: &mut Draft, operator: Operator, plain: u32) -> Result<(), NoMemory>
    ensures nodes { OnOk result (draft.new.nodes.items ≡ draft.old.nodes.items ++ listed.operator_holes operator) }
    ensures priorities { OnOk result (draft.new.priorities.items ≡ draft.old.priorities.items ++ operator_priorities operator plain) }
{
    draft.put((Node::True, Node::True), (plain, plain))?;
    if operator == Operator::Iff {
        draft.put((Node::True, Node::True), (plain, plain))?;
        draft.put((Node::True, Node::True), (plain, plain))?;
    }
    Ok(())
}

// the nodes of a connective as the occurrence `at`, over its placeholders
fn close(nodes: &mut Vec<Node>, operator: Operator, at: u32, l: u32, r: u32)
    requires small { (at + 2 ≤ 1000) × (l ≤ 1000) × (r ≤ 1000) }
    requires fits { 2 * at + length (operator_nodes operator at l r) ≤ length nodes.old.items }
    ensures { let block = operator_nodes operator at l r in
        nodes.new.items ≡ take (2 * at) nodes.old.items ++ (block ++ drop (2 * at + length block) nodes.old.items) }
{
    let from = 2 * at as usize;
    match operator {
        Operator::And => fill(
            nodes,
            from,
            &[and(positive(l), positive(r)), or(negative(l), negative(r))],
        ),
        Operator::Or => fill(
            nodes,
            from,
            &[or(positive(l), positive(r)), and(negative(l), negative(r))],
        ),
        Operator::Implies => fill(
            nodes,
            from,
            &[or(negative(l), positive(r)), and(positive(l), negative(r))],
        ),
        Operator::Iff => fill(
            nodes,
            from,
            &[
                or(positive(at + 1), positive(at + 2)),
                or(negative(at + 1), negative(at + 2)),
                and(positive(l), positive(r)),
                and(positive(l), negative(r)),
                and(negative(l), negative(r)),
                and(negative(l), positive(r)),
            ],
        ),
    }
}

// how many occurrences have their nodes
fn placed(nodes: &[Node]) -> u32
    requires { length nodes.now ≤ 2000 }
    ensures { result ≡ length nodes.now / 2 }
{
    (nodes.len() / 2) as u32
}

// a modality by the action, which leads to the node `to`
fn modal(modality: Modality, action: u32, to: u32) -> Node
    ensures { result ≡ graph.modality modality action to }
{
    match modality {
        Modality::Diamond => Node::Diamond { action, to },
        Modality::Square => Node::Square { action, to },
    }
}

fn dual(modality: Modality) -> Modality
    ensures { result ≡ graph.dual modality }
{
    match modality {
        Modality::Diamond => Modality::Square,
        Modality::Square => Modality::Diamond,
    }
}

// the priorities of a binder with `depth` binders around it
fn binder_priorities(fixpoint: Fixpoint, depth: u32) -> (u32, u32)
    requires { depth < 1000 }
    ensures itself { result.0 ≡ graph.binder_priority fixpoint depth }
    ensures negation { result.1 ≡ graph.binder_priority (graph.opposite fixpoint) depth }
{
    match fixpoint {
        Fixpoint::Least => (2 * depth + 1, 2 * depth),
        Fixpoint::Greatest => (2 * depth, 2 * depth + 1),
    }
}

// the nodes and priorities of a term as the occurrence `at`, with `depth` binders around it
#[cycle(placing)]
fn place<'a>(
    draft: &mut Draft,
    names: &Names,
    plain: u32,
    binders: &mut Binders<'a>,
    depth: u32,
    at: u32,
    term: &'a Term,
) -> Result<(), NoMemory>
    requires names { (length names.now.props.keys < 2 ^ 32) × (length names.now.actions.keys < 2 ^ 32) }
    requires start { length draft.old.nodes.items ≡ 2 * at }
    requires few { at + occurrences (formula_of term.now) ≤ 1000 }
    requires binders { (x : _) → around binders.old x ≤ 1000 }
    requires deep { depth ≤ at }
    ensures nodes { OnOk result (draft.new.nodes.items ≡ draft.old.nodes.items
        ++ listed.nodes_of names.now.props.keys names.now.actions.keys (around binders.old) at (formula_of term.now)) }
    ensures priorities { OnOk result (draft.new.priorities.items ≡ draft.old.priorities.items
        ++ listed.priorities_of plain depth (formula_of term.now)) }
    ensures around { OnOk result (around binders.new ≡ around binders.old) }
{
    let usual = (plain, plain);
    match term {
        Term::Const(value) => draft.put((constant(*value), constant(!*value)), usual),
        Term::Prop(name) => {
            let prop = names.proposition(name);
            let yes = Node::Lit {
                prop,
                positive: true,
            };
            let no = Node::Lit {
                prop,
                positive: false,
            };
            draft.put((yes, no), usual)
        }
        Term::Var(name) => {
            let binder = binders.of(name);
            draft.put(
                (lead_to(positive(binder)), lead_to(negative(binder))),
                usual,
            )
        }
        Term::Not(operand) => {
            draft.put(
                (lead_to(negative(at + 1)), lead_to(positive(at + 1))),
                usual,
            )?;
            place(draft, names, plain, binders, depth, at + 1, operand)
        }
        Term::Binary(operator, left, right) => {
            place_both(
                draft, names, plain, binders, depth, at, *operator, left, right,
            )
        }
        Term::Modal(modality, name, operand) => {
            let action = names.action(name);
            let itself = modal(*modality, action, positive(at + 1));
            let negation = modal(dual(*modality), action, negative(at + 1));
            draft.put((itself, negation), usual)?;
            place(draft, names, plain, binders, depth, at + 1, operand)
        }
        Term::Binder(fixpoint, name, body) => {
            draft.put(
                (lead_to(positive(at + 1)), lead_to(negative(at + 1))),
                binder_priorities(*fixpoint, depth),
            )?;
            place_body(draft, names, plain, binders, depth, at, name, body)
        }
    }
}

// the same of a connective: its nodes are known once the left operand is placed
#[cycle(placing)]
fn place_both<'a>(
    draft: &mut Draft,
    names: &Names,
    plain: u32,
    binders: &mut Binders<'a>,
    depth: u32,
    at: u32,
    operator: Operator,
    left: &'a Term,
    right: &'a Term,
) -> Result<(), NoMemory>
    requires names { (length names.now.props.keys < 2 ^ 32) × (length names.now.actions.keys < 2 ^ 32) }
    requires start { length draft.old.nodes.items ≡ 2 * at }
    requires few { at + occurrences (mu.Binary operator (formula_of left.now) (formula_of right.now)) ≤ 1000 }
    requires binders { (x : _) → around binders.old x ≤ 1000 }
    requires deep { depth ≤ at }
    ensures nodes { OnOk result (draft.new.nodes.items ≡ draft.old.nodes.items
        ++ listed.nodes_of names.now.props.keys names.now.actions.keys (around binders.old) at
        (mu.Binary operator (formula_of left.now) (formula_of right.now))) }
    ensures priorities { OnOk result (draft.new.priorities.items ≡ draft.old.priorities.items
        ++ listed.priorities_of plain depth (mu.Binary operator (formula_of left.now) (formula_of right.now))) }
    ensures around { OnOk result (around binders.new ≡ around binders.old) }
{
    open(draft, operator, plain)?;
    let first = at + operator.weight();
    place(draft, names, plain, binders, depth, first, left)?;
    let second = placed(draft.nodes.as_slice());
    place(draft, names, plain, binders, depth, second, right)?;
    close(&mut draft.nodes, operator, at, first, second);
    Ok(())
}

// the same of a binder's body: a variable leads to this binder inside it, and to the outer one behind it
#[cycle(placing)]
fn place_body<'a>(
    draft: &mut Draft,
    names: &Names,
    plain: u32,
    binders: &mut Binders<'a>,
    depth: u32,
    at: u32,
    variable: &'a Name,
    body: &'a Term,
) -> Result<(), NoMemory>
    requires names { (length names.now.props.keys < 2 ^ 32) × (length names.now.actions.keys < 2 ^ 32) }
    requires start { length draft.old.nodes.items ≡ 2 * (at + 1) }
    requires few { at + 1 + occurrences (formula_of body.now) ≤ 1000 }
    requires binders { (x : _) → around binders.old x ≤ 1000 }
    requires deep { depth ≤ at }
    ensures nodes { OnOk result (draft.new.nodes.items ≡ draft.old.nodes.items
        ++ listed.nodes_of names.now.props.keys names.now.actions.keys (listed.bound variable.now at (around binders.old))
        (at + 1) (formula_of body.now)) }
    ensures priorities { OnOk result (draft.new.priorities.items ≡ draft.old.priorities.items
        ++ listed.priorities_of plain (depth + 1) (formula_of body.now)) }
    ensures around { OnOk result (around binders.new ≡ around binders.old) }
{
    let outer = binders.enter(variable, at)?;
    place(draft, names, plain, binders, depth + 1, at + 1, body)?;
    binders.leave(variable, outer)
}

// the lists of a term's graph
fn lists_of(alloc: Global, term: &Term) -> Result<Lists, NoMemory>
    requires { occurrences (formula_of term.now) ≤ MOST_OCCURRENCES }
    ensures props { IfOk result (λ l. l.props.items ≡ listed.props_onto (formula_of term.now) []) }
    ensures actions { IfOk result (λ l. l.actions.items ≡ listed.actions_onto (formula_of term.now) []) }
    ensures nodes { IfOk result (λ l. l.nodes.items ≡ listed.nodes_of l.props.items l.actions.items none_around 0 (formula_of term.now)) }
    ensures priorities { IfOk result (λ l. l.priorities.items ≡ listed.priorities_of (2 * graph.binders (formula_of term.now)) 0 (formula_of term.now)) }
{
    let names = names_of(alloc, term)?;
    let mut binders = Binders::new(alloc);
    let mut draft = Draft::new(alloc);
    place(
        &mut draft,
        &names,
        2 * count_binders(term),
        &mut binders,
        0,
        0,
        term,
    )?;
    Lists::of(alloc, draft, names)
}

/// The modal graph of a formula, or of its negation: it holds exactly where the formula does, or doesn't.
///
/// # Errors
/// `NoMemory` alone.
///
/// Cost: linear in the formula on average, since names and variables are looked up by their hashes. Calls are nested at
/// most twice as deep as the formula, which has at most 1,000 occurrences.
pub fn graph_of(alloc: Global, formula: &Formula, negated: bool) -> Result<ModalGraph, NoMemory>
    ensures graph { IfOk result (λ g. IsGraphOf g formula.now negated) }
    ensures agrees { IfOk result (λ g. HoldsWhere g formula.now negated) }
{
    let lists = lists_of(alloc, formula.root())?;
    Ok(lists.into_graph(root_of(negated)))
}
