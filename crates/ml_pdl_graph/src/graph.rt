// The graph of a formula.
ghost use Rattle.std.specs.Prelude.{◌≡◌, ◌+◌, ◌*◌, ◌^◌, ◌≤◌, ◌<◌, ◌++◌, [], ◌∷◌, length, IfOk, OnOk};
ghost use Rattle.ml_pdl.specs.Formula.{occurrences, program_occurrences};
ghost use Rattle.ml_pdl.specs.Term.{formula_of, program_of};
ghost use Rattle.ml_pdl_graph.specs.PdlGraph as graph;
ghost use Rattle.ml_pdl_graph.specs.Laws.{HoldsWhere};
ghost use Rattle.ml_pdl_graph.specs.PdlGraph.{IsGraphOf};
ghost use Rattle.ml_nodes.specs.private.Connectives.{operator_nodes, operator_priorities};
ghost use Rattle.ml_pdl_graph.specs.private.NodeList as listed;
ghost use Rattle.ml_pdl_graph.specs.private.Sizes as measured;

use crate::names::names_of;
use crate::sizes::sizes_of;
use ml_base::NoMemory;
use ml_graph::{ModalGraph, Node};
use ml_nodes::{Draft, Lists, Names, and, constant, lead_to, negative, or, positive, root_of};
use ml_pdl::{Formula, Modality, Program, Term};
use ml_text::{MOST_OCCURRENCES, Operator};
use std::alloc::Global;

// puts the two nodes of an occurrence that is of no star and of no infinite repetition
fn put_plain(draft: &mut Draft, nodes: (Node, Node)) -> Result<(), NoMemory>
    ensures nodes { OnOk result (draft.new.nodes.items ≡ draft.old.nodes.items ++ nodes.0 ∷ nodes.1 ∷ []) }
    ensures priorities { OnOk result (draft.new.priorities.items
        ≡ draft.old.priorities.items ++ graph.plain ∷ graph.plain ∷ []) }
{
    draft.put(nodes, (4, 4))
}

// the nodes of a connective as the occurrence `at`, with its operands as l and r
fn put_connective(
    draft: &mut Draft,
    operator: Operator,
    at: u32,
    l: u32,
    r: u32,
) -> Result<(), NoMemory>
    requires { (at ≤ 1000) × (l ≤ 1000) × (r ≤ 1000) }
    ensures nodes { OnOk result (draft.new.nodes.items ≡ draft.old.nodes.items ++ operator_nodes operator at l r) }
    ensures priorities { OnOk result (draft.new.priorities.items
        ≡ draft.old.priorities.items ++ operator_priorities operator graph.plain) }
{
    match operator {
        Operator::And => put_plain(
            draft,
            (and(positive(l), positive(r)), or(negative(l), negative(r))),
        ),
        Operator::Or => put_plain(
            draft,
            (or(positive(l), positive(r)), and(negative(l), negative(r))),
        ),
        Operator::Implies => put_plain(
            draft,
            (or(negative(l), positive(r)), and(positive(l), negative(r))),
        ),
        Operator::Iff => {
            let both = at + 1;
            let neither = at + 2;
            put_plain(
                draft,
                (
                    or(positive(both), positive(neither)),
                    or(negative(both), negative(neither)),
                ),
            )?;
            put_plain(
                draft,
                (and(positive(l), positive(r)), and(positive(l), negative(r))),
            )?;
            put_plain(
                draft,
                (and(negative(l), negative(r)), and(negative(l), positive(r))),
            )
        }
    }
}

// the node of an occurrence that goes on for the modality, and the one for the other modality
fn sides(modality: Modality, at: u32) -> (u32, u32)
    requires { at ≤ 1000 }
    ensures own { result.0 ≡ graph.own modality at }
    ensures dual { result.1 ≡ graph.dual modality at }
{
    match modality {
        Modality::Diamond => (positive(at), negative(at)),
        Modality::Square => (negative(at), positive(at)),
    }
}

// the nodes and priorities of a term as the occurrence `at`
#[cycle(placing)]
fn place(
    draft: &mut Draft,
    names: &Names,
    at: u32,
    sizes: &[u32],
    term: &Term,
) -> Result<(), NoMemory>
    requires names { (length names.now.props.keys < 2 ^ 32) × (length names.now.actions.keys < 2 ^ 32) }
    requires few { at + occurrences (formula_of term.now) ≤ 1000 }
    requires sizes { measured.Measures sizes.now at (formula_of term.now) }
    ensures nodes { OnOk result (draft.new.nodes.items ≡ draft.old.nodes.items
        ++ listed.nodes_of names.now.props.keys names.now.actions.keys at (formula_of term.now)) }
    ensures priorities { OnOk result (draft.new.priorities.items ≡ draft.old.priorities.items
        ++ listed.priorities_of (formula_of term.now)) }
{
    let l = at + 1;
    match term {
        Term::Const(value) => put_plain(draft, (constant(*value), constant(!*value))),
        Term::Prop(name) => {
            let prop = names.proposition(name);
            let yes = Node::Lit {
                prop,
                positive: true,
            };
            let no = Node::Lit {
                prop,
                positive: false,
            };
            put_plain(draft, (yes, no))
        }
        Term::Not(operand) => {
            put_plain(draft, (lead_to(negative(l)), lead_to(positive(l))))?;
            place(draft, names, l, sizes, operand)
        }
        Term::Binary(operator, left, right) => {
            let l = at + operator.weight();
            let r = l + sizes[l as usize];
            put_connective(draft, *operator, at, l, r)?;
            place(draft, names, l, sizes, left)?;
            place(draft, names, r, sizes, right)
        }
        Term::Modal(modality, program, operand) => {
            let r = l + sizes[l as usize];
            let (own, dual) = sides(*modality, l);
            put_plain(draft, (lead_to(own), lead_to(dual)))?;
            let next = sides(*modality, r);
            place_program(draft, names, l, next, sizes, program)?;
            place(draft, names, r, sizes, operand)
        }
        Term::Repeat(program) => {
            draft.put((lead_to(positive(l)), lead_to(negative(l))), (0, 1))?;
            let again = (positive(at), negative(at));
            place_program(draft, names, l, again, sizes, program)
        }
    }
}

// the nodes and priorities of a program as the occurrence `at`, whose diamond and box go on at these nodes
#[cycle(placing)]
fn place_program(
    draft: &mut Draft,
    names: &Names,
    at: u32,
    next: (u32, u32),
    sizes: &[u32],
    program: &Program,
) -> Result<(), NoMemory>
    requires names { (length names.now.props.keys < 2 ^ 32) × (length names.now.actions.keys < 2 ^ 32) }
    requires few { at + program_occurrences (program_of program.now) ≤ 1000 }
    requires sizes { measured.ProgramMeasures sizes.now at (program_of program.now) }
    ensures nodes { OnOk result (draft.new.nodes.items ≡ draft.old.nodes.items
        ++ listed.program_nodes names.now.props.keys names.now.actions.keys at next.0 next.1 (program_of program.now)) }
    ensures priorities { OnOk result (draft.new.priorities.items ≡ draft.old.priorities.items
        ++ listed.program_priorities (program_of program.now)) }
{
    let l = at + 1;
    match program {
        Program::Act(name) => {
            let action = names.action(name);
            let some = Node::Diamond { action, to: next.0 };
            let every = Node::Square { action, to: next.1 };
            put_plain(draft, (some, every))
        }
        Program::Seq(left, right) => {
            let r = l + sizes[l as usize];
            put_plain(draft, (lead_to(positive(l)), lead_to(negative(l))))?;
            place_program(draft, names, l, (positive(r), negative(r)), sizes, left)?;
            place_program(draft, names, r, next, sizes, right)
        }
        Program::Alt(left, right) => {
            let r = l + sizes[l as usize];
            put_plain(
                draft,
                (or(positive(l), positive(r)), and(negative(l), negative(r))),
            )?;
            place_program(draft, names, l, next, sizes, left)?;
            place_program(draft, names, r, next, sizes, right)
        }
        Program::Star(operand) => {
            draft.put((or(next.0, positive(l)), and(next.1, negative(l))), (3, 2))?;
            let again = (positive(at), negative(at));
            place_program(draft, names, l, again, sizes, operand)
        }
        Program::Test(formula) => {
            put_plain(draft, (and(positive(l), next.0), or(negative(l), next.1)))?;
            place(draft, names, l, sizes, formula)
        }
    }
}

// the lists of a term's graph
fn lists_of(alloc: Global, term: &Term) -> Result<Lists, NoMemory>
    requires { occurrences (formula_of term.now) ≤ MOST_OCCURRENCES }
    ensures props { IfOk result (λ l. l.props.items ≡ listed.props_onto (formula_of term.now) []) }
    ensures actions { IfOk result (λ l. l.actions.items ≡ listed.actions_onto (formula_of term.now) []) }
    ensures nodes { IfOk result (λ l. l.nodes.items ≡ listed.nodes_of l.props.items l.actions.items 0 (formula_of term.now)) }
    ensures priorities { IfOk result (λ l. l.priorities.items ≡ listed.priorities_of (formula_of term.now)) }
{
    let names = names_of(alloc, term)?;
    let sizes = sizes_of(alloc, term)?;
    let mut draft = Draft::new(alloc);
    place(&mut draft, &names, 0, &sizes, term)?;
    Lists::of(alloc, draft, names)
}

/// The modal graph of a formula, or of its negation: it holds exactly where the formula does, or doesn't.
///
/// # Errors
/// `NoMemory` alone.
///
/// Cost: linear in the formula on average, since names are looked up by their hashes. Calls are nested at most twice as
/// deep as the formula, which has at most 1,000 occurrences.
pub fn graph_of(alloc: Global, formula: &Formula, negated: bool) -> Result<ModalGraph, NoMemory>
    ensures graph { IfOk result (λ g. IsGraphOf g formula.now negated) }
    ensures agrees { IfOk result (λ g. HoldsWhere g formula.now negated) }
{
    let lists = lists_of(alloc, formula.root())?;
    Ok(lists.into_graph(root_of(negated)))
}
