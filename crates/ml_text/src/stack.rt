// The stack of what is begun: frames are popped when their operand ends.
ghost use Rattle.std.specs.Prelude.{◌≡◌, ◌∷◌, IfOk, MatchOption, Some};
ghost use Rattle.std.specs.Option.{option_map};
ghost use Rattle.ml_text.specs.private.Machine as machine;
ghost use Rattle.ml_text.specs.private.Views.{IsStopped, IsUntaken, frame_takes, frame_view, mode_view, stack_view};

use crate::forms::{Frame, Mode, Role};
use crate::notation::Notation;
use ml_base::NoMemory;
use std::alloc::Global;

// what a frame makes of its operand
fn popped<L: Notation>(
    alloc: Global,
    frame: Frame<L::Sort, L::Sign, L::Tree, L::Hold>,
    tree: L::Tree,
) -> Result<Mode<L::Tree, L::Wait>, NoMemory>
    ensures { IfOk result (λ mode.
        mode_view L.tables mode ≡ machine.popped L.tables.grammar (frame_view L.tables frame) (L.tables.tree tree)) }
{
    match frame {
        Frame::Held(hold) => L::resume(alloc, hold, tree),
        Frame::Left(_, _, operator, left) => Ok(Mode::Whole(L::join(alloc, operator, left, tree)?)),
    }
}

// does the operand of this frame go on with the sign that follows?
fn takes<L: Notation>(frame: &Frame<L::Sort, L::Sign, L::Tree, L::Hold>, sign: &L::Sign) -> bool
    ensures { result ≡ frame_takes L.tables.grammar (frame_view L.tables frame.now) (L.tables.sign sign.now) }
{
    match frame {
        Frame::Held(hold) => match L::role(L::sort(hold), sign) {
            Role::Infix(level) => L::level(hold) <= level,
            Role::Postfix => true,
            Role::Outside => false,
        },
        Frame::Left(sort, level, _, _) => match L::role(*sort, sign) {
            Role::Infix(next) => {
                if L::groups_left(*sort, *level) {
                    *level < next
                } else {
                    *level <= next
                }
            }
            Role::Postfix => true,
            Role::Outside => false,
        },
    }
}

// the topmost frame, unless its operand takes the sign that follows
fn pop_untaken<L: Notation>(
    stack: &mut Vec<Frame<L::Sort, L::Sign, L::Tree, L::Hold>>,
    sign: &L::Sign,
) -> Option<Frame<L::Sort, L::Sign, L::Tree, L::Hold>>
    ensures { MatchOption result
        (IsStopped L.tables.grammar (stack_view L.tables stack.old.items) (L.tables.sign sign.now) × (stack.new.items ≡ stack.old.items))
        (λ frame. (stack_view L.tables stack.old.items ≡ frame_view L.tables frame ∷ stack_view L.tables stack.new.items)
        × IsUntaken L.tables.grammar (frame_view L.tables frame) (L.tables.sign sign.now)) }
{
    match stack.last() {
        Some(top) if !takes::<L>(top, sign) => stack.pop(),
        _ => None,
    }
}

/// The operand that goes on with the sign that follows, or the form that is then to go on.
pub(crate) fn reduce<L: Notation>(
    alloc: Global,
    stack: &mut Vec<Frame<L::Sort, L::Sign, L::Tree, L::Hold>>,
    tree: L::Tree,
    sign: &L::Sign,
) -> Result<Mode<L::Tree, L::Wait>, NoMemory>
    ensures { IfOk result (λ mode.
        (mode_view L.tables mode, stack_view L.tables stack.new.items)
        ≡ machine.reduce L.tables.grammar (Some (L.tables.sign sign.now)) (stack_view L.tables stack.old.items) (L.tables.tree tree)) }
{
    let mut tree = tree;
    while let Some(frame) = pop_untaken::<L>(stack, sign) {
        match popped::<L>(alloc, frame, tree)? {
            Mode::Whole(whole) => tree = whole,
            Mode::More(wait) => return Ok(Mode::More(wait)),
        }
    }
    Ok(Mode::Whole(tree))
}

/// The tree of a whole text that ends behind this operand; `None` where a form isn't ended.
pub(crate) fn close<L: Notation>(
    alloc: Global,
    stack: Vec<Frame<L::Sort, L::Sign, L::Tree, L::Hold>>,
    tree: L::Tree,
) -> Result<Option<L::Tree>, NoMemory>
    ensures { IfOk result (λ whole.
        option_map L.tables.tree whole ≡ machine.close L.tables.grammar (stack_view L.tables stack.items) (L.tables.tree tree)) }
{
    let mut stack = stack;
    let mut tree = tree;
    while let Some(frame) = stack.pop() {
        match popped::<L>(alloc, frame, tree)? {
            Mode::Whole(whole) => tree = whole,
            Mode::More(_) => return Ok(None),
        }
    }
    Ok(Some(tree))
}
