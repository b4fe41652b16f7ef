// The reader in the label of an edge.
ghost use Rattle.std.specs.Prelude.{◌≡◌, MatchResult};
ghost use Rattle.ml_lines.specs.Reading.{value};
ghost use Rattle.ml_hoa.specs.private.Machine as machine;
ghost use Rattle.ml_hoa.specs.private.Machine.{IsTold, Next, with_not, with_or};
ghost use Rattle.ml_hoa.specs.private.Views.{guard_of, level_of, outer_of, state_of, token_of};
ghost use Rattle.ml_hoa.specs.declared.refusal.HoaRefusal.TheVariants as refusal;

use crate::guard::Guard;
use crate::level::Level;
use crate::limits::{MOST_OPEN, MOST_OPERATORS};
use crate::reader::{Reader, Stage};
use crate::refusal::HoaRefusal;
use crate::token::{Mark, Token};

impl Reader {
    // reads an operand
    fn take_guard(&mut self, guard: Guard) -> Result<(), HoaRefusal>
        ensures { MatchResult result
            (λ _. state_of self.new ≡ machine.with_operand (state_of self.old) (guard_of guard))
            (λ e. e ≡ refusal.NoMemory) }
    {
        let alloc = *self.edges.allocator();
        let level = std::mem::replace(&mut self.level, Level::new());
        self.level = level.with_literal(alloc, guard)?;
        self.go(Stage::Behind)
    }

    fn take_prop(&mut self, digits: &[u8], at: u64) -> Result<(), HoaRefusal>
        ensures { MatchResult result
            (λ _. state_of self.new ≡ machine.with_prop (state_of self.old) (value digits.now) at)
            (λ e. e ≡ refusal.NoMemory) }
    {
        let prop = self.below(self.prop_count, digits, at);
        self.take_guard(Guard::Ap(prop))
    }

    // behind an operator, with which this is what was read
    fn take_operator(&mut self, level: Level, at: u64) -> Result<(), HoaRefusal>
        ensures { MatchResult result
            (λ _. machine.with_operator (state_of self.old) (level_of level) ≡ Next (state_of self.new))
            (λ e. IsTold e at (machine.with_operator (state_of self.old) (level_of level))) }
    {
        if self.operators >= MOST_OPERATORS {
            return Err(HoaRefusal::TooMany { at });
        }
        self.operators += 1;
        self.level = level;
        self.go(Stage::Operand)
    }

    // behind a `!`
    fn negate(&mut self, at: u64) -> Result<(), HoaRefusal>
        ensures { let turn = machine.with_operator (state_of self.old) (with_not (level_of self.old.level)) in
            MatchResult result (λ _. turn ≡ Next (state_of self.new)) (λ e. IsTold e at turn) }
    {
        let level = std::mem::replace(&mut self.level, Level::new());
        self.take_operator(level.with_not()?, at)
    }

    // behind a `&`
    fn go_on(&mut self, at: u64) -> Result<(), HoaRefusal>
        ensures { let turn = machine.with_operator (state_of self.old) (level_of self.old.level) in
            MatchResult result (λ _. turn ≡ Next (state_of self.new)) (λ e. IsTold e at turn) }
    {
        let level = std::mem::replace(&mut self.level, Level::new());
        self.take_operator(level, at)
    }

    // behind a `|`
    fn separate(&mut self, at: u64) -> Result<(), HoaRefusal>
        ensures { let turn = machine.with_operator (state_of self.old) (with_or (level_of self.old.level)) in
            MatchResult result (λ _. turn ≡ Next (state_of self.new)) (λ e. IsTold e at turn) }
    {
        let alloc = *self.edges.allocator();
        let level = std::mem::replace(&mut self.level, Level::new());
        self.take_operator(level.with_or(alloc)?, at)
    }

    fn open(&mut self, at: u64) -> Result<(), HoaRefusal>
        ensures { MatchResult result
            (λ _. machine.opened (state_of self.old) ≡ Next (state_of self.new))
            (λ e. IsTold e at (machine.opened (state_of self.old))) }
    {
        if self.outer.len() >= MOST_OPEN {
            return Err(HoaRefusal::TooMany { at });
        }
        let level = std::mem::replace(&mut self.level, Level::new());
        self.outer.push(level)?;
        self.go(Stage::Operand)
    }

    fn close(&mut self, at: u64) -> Result<(), HoaRefusal>
        ensures { MatchResult result
            (λ _. machine.closed (state_of self.old) (outer_of self.old.outer.items) ≡ Next (state_of self.new))
            (λ e. IsTold e at (machine.closed (state_of self.old) (outer_of self.old.outer.items))) }
    {
        let alloc = *self.edges.allocator();
        let Some(outer) = self.outer.pop() else {
            return Err(HoaRefusal::Syntax { at });
        };
        let inner = std::mem::replace(&mut self.level, outer);
        self.take_guard(inner.guard(alloc)?)
    }

    fn end_label(&mut self, at: u64) -> Result<(), HoaRefusal>
        ensures { MatchResult result
            (λ _. machine.label_ended (state_of self.old) (outer_of self.old.outer.items) ≡ Next (state_of self.new))
            (λ e. IsTold e at (machine.label_ended (state_of self.old) (outer_of self.old.outer.items))) }
    {
        if !self.outer.is_empty() {
            return Err(HoaRefusal::Syntax { at });
        }
        self.go(Stage::Target)
    }

    pub(super) fn take_operand(&mut self, token: Token, at: u64) -> Result<(), HoaRefusal>
        ensures { MatchResult result
            (λ _. machine.on_operand (state_of self.old) (token_of token.entry) ≡ Next (state_of self.new))
            (λ e. IsTold e at (machine.on_operand (state_of self.old) (token_of token.entry))) }
    {
        match token {
            Token::Number(digits, place) => self.take_prop(digits, place),
            Token::Plain(Mark::Truth) => self.take_guard(Guard::Const(true)),
            Token::Plain(Mark::Falsity) => self.take_guard(Guard::Const(false)),
            Token::Plain(Mark::Not) => self.negate(at),
            Token::Plain(Mark::LeftParen) => self.open(at),
            _ => Err(HoaRefusal::Syntax { at }),
        }
    }

    pub(super) fn take_behind(&mut self, token: Token, at: u64) -> Result<(), HoaRefusal>
        ensures { MatchResult result
            (λ _. machine.behind_operand (state_of self.old) (token_of token.entry) ≡ Next (state_of self.new))
            (λ e. IsTold e at (machine.behind_operand (state_of self.old) (token_of token.entry))) }
    {
        match token {
            Token::Plain(Mark::And) => self.go_on(at),
            Token::Plain(Mark::Or) => self.separate(at),
            Token::Plain(Mark::RightParen) => self.close(at),
            Token::Plain(Mark::RightBracket) => self.end_label(at),
            _ => Err(HoaRefusal::Syntax { at }),
        }
    }
}
