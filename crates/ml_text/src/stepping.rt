// One step of the machine that reads texts.
ghost use Rattle.std.specs.Prelude.{◌≡◌, IfOk};
ghost use Rattle.std.specs.Option.{option_map};
ghost use Rattle.ml_text.specs.private.Machine as machine;
ghost use Rattle.ml_text.specs.private.Views.{GivesBack, frame_view, mode_view, stack_view, turn_view};

use crate::forms::{Frame, Mode, Role, Turn};
use crate::notation::Notation;
use crate::stack::{close, reduce};
use ml_base::NoMemory;
use std::alloc::Global;

// a form that holds an operand is put on the stack
fn hold<L: Notation>(
    stack: &mut Vec<Frame<L::Sort, L::Sign, L::Tree, L::Hold>>,
    held: L::Hold,
) -> Result<Mode<L::Tree, L::Wait>, NoMemory>
    ensures { IfOk result (λ mode. (mode_view L.tables mode, stack_view L.tables stack.new.items)
        ≡ machine.hold L.tables.grammar (stack_view L.tables stack.old.items) (L.tables.hold held)) }
{
    let wait = L::start(L::sort(&held));
    stack.push(Frame::Held(held))?;
    Ok(Mode::More(wait))
}

// behind a sign with which the operand of the topmost frame begins
fn begin<L: Notation>(
    stack: &mut Vec<Frame<L::Sort, L::Sign, L::Tree, L::Hold>>,
    turn: Option<Turn<L::Sign, L::Tree, L::Wait, L::Hold>>,
) -> Result<Option<Mode<L::Tree, L::Wait>>, NoMemory>
    ensures { IfOk result (λ next. option_map (λ m. (mode_view L.tables m, stack_view L.tables stack.new.items)) next
        ≡ machine.begin L.tables.grammar (stack_view L.tables stack.old.items) (option_map (turn_view L.tables) turn)) }
{
    match turn {
        Some(Turn::Read(mode)) => Ok(Some(mode)),
        Some(Turn::Inner(held)) => Ok(Some(hold::<L>(stack, held)?)),
        Some(Turn::Opens(..)) | None => Ok(None),
    }
}

// behind a sign, by what it does to the topmost form
fn enter<L: Notation>(
    alloc: Global,
    stack: &mut Vec<Frame<L::Sort, L::Sign, L::Tree, L::Hold>>,
    turn: Option<Turn<L::Sign, L::Tree, L::Wait, L::Hold>>,
) -> Result<Option<Mode<L::Tree, L::Wait>>, NoMemory>
    ensures { IfOk result (λ next. (t : L.tables.grammar.Sign) → GivesBack L.tables turn t →
        option_map (λ m. (mode_view L.tables m, stack_view L.tables stack.new.items)) next
        ≡ machine.enter L.tables.grammar (stack_view L.tables stack.old.items) t (option_map (turn_view L.tables) turn)) }
{
    match turn {
        None => Ok(None),
        Some(Turn::Read(mode)) => Ok(Some(mode)),
        Some(Turn::Inner(held)) => Ok(Some(hold::<L>(stack, held)?)),
        Some(Turn::Opens(held, sign)) => {
            let wait = L::start(L::sort(&held));
            stack.push(Frame::Held(held))?;
            let turn = L::shift(alloc, wait, sign)?;
            let next = begin::<L>(stack, turn)?;
            Ok(next)
        }
    }
}

// the sort of the operand that is being read
fn top_sort<L: Notation>(stack: &[Frame<L::Sort, L::Sign, L::Tree, L::Hold>]) -> L::Sort
    ensures { L.tables.sort result ≡ machine.sort_of L.tables.grammar (stack_view L.tables stack.now) }
{
    match stack.last() {
        None => L::whole(),
        Some(Frame::Held(held)) => L::sort(held),
        Some(Frame::Left(sort, ..)) => *sort,
    }
}

// behind an operand: an operator waits for its right operand
fn take_sign<L: Notation>(
    alloc: Global,
    stack: &mut Vec<Frame<L::Sort, L::Sign, L::Tree, L::Hold>>,
    tree: L::Tree,
    sign: L::Sign,
) -> Result<Option<Mode<L::Tree, L::Wait>>, NoMemory>
    ensures { IfOk result (λ next. option_map (λ m. (mode_view L.tables m, stack_view L.tables stack.new.items)) next
        ≡ machine.take_sign L.tables.grammar (stack_view L.tables stack.old.items) (L.tables.tree tree) (L.tables.sign sign)
        (L.tables.grammar.role (machine.sort_of L.tables.grammar (stack_view L.tables stack.old.items)) (L.tables.sign sign))) }
{
    let sort = top_sort::<L>(stack.as_slice());
    match L::role(sort, &sign) {
        Role::Infix(level) => {
            let wait = L::start(sort);
            stack.push(Frame::Left(sort, level, sign, tree))?;
            Ok(Some(Mode::More(wait)))
        }
        Role::Postfix => match L::post(alloc, sign, tree)? {
            Some(whole) => Ok(Some(Mode::Whole(whole))),
            None => Ok(None),
        },
        Role::Outside => Ok(None),
    }
}

// behind a sign, once the frames are popped whose operand doesn't take it
fn resolve<L: Notation>(
    alloc: Global,
    mode: Mode<L::Tree, L::Wait>,
    stack: &mut Vec<Frame<L::Sort, L::Sign, L::Tree, L::Hold>>,
    sign: L::Sign,
) -> Result<Option<Mode<L::Tree, L::Wait>>, NoMemory>
    ensures { IfOk result (λ next. option_map (λ m. (mode_view L.tables m, stack_view L.tables stack.new.items)) next
        ≡ machine.resolve L.tables.grammar (mode_view L.tables mode) (stack_view L.tables stack.old.items) (L.tables.sign sign)) }
{
    match mode {
        Mode::Whole(tree) => take_sign::<L>(alloc, stack, tree, sign),
        Mode::More(wait) => {
            let turn = L::shift(alloc, wait, sign)?;
            let next = enter::<L>(alloc, stack, turn)?;
            Ok(next)
        }
    }
}

/// What is read, and begun, behind the next sign; `None` where no text goes on so.
pub(crate) fn step<L: Notation>(
    alloc: Global,
    mode: Mode<L::Tree, L::Wait>,
    stack: &mut Vec<Frame<L::Sort, L::Sign, L::Tree, L::Hold>>,
    sign: L::Sign,
) -> Result<Option<Mode<L::Tree, L::Wait>>, NoMemory>
    ensures { IfOk result (λ next. option_map (λ m. (mode_view L.tables m, stack_view L.tables stack.new.items)) next
        ≡ machine.step L.tables.grammar (mode_view L.tables mode) (stack_view L.tables stack.old.items) (L.tables.sign sign)) }
{
    match mode {
        Mode::Whole(tree) => {
            let reduced = reduce::<L>(alloc, stack, tree, &sign)?;
            let next = resolve::<L>(alloc, reduced, stack, sign)?;
            Ok(next)
        }
        Mode::More(wait) => resolve::<L>(alloc, Mode::More(wait), stack, sign),
    }
}

/// The tree, if the text ends here.
pub(crate) fn finish<L: Notation>(
    alloc: Global,
    mode: Mode<L::Tree, L::Wait>,
    stack: Vec<Frame<L::Sort, L::Sign, L::Tree, L::Hold>>,
) -> Result<Option<L::Tree>, NoMemory>
    ensures { IfOk result (λ tree. option_map L.tables.tree tree
        ≡ machine.finish L.tables.grammar (mode_view L.tables mode) (stack_view L.tables stack.items)) }
{
    match mode {
        Mode::Whole(tree) => close::<L>(alloc, stack, tree),
        Mode::More(_) => Ok(None),
    }
}
