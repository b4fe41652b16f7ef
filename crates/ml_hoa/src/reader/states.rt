// The reader among the states and edges of the body, but for labels.
ghost use Rattle.std.specs.Prelude.{◌≡◌, ◌==◌, MatchResult};
ghost use Rattle.ml_lines.specs.Reading.{value};
ghost use Rattle.ml_hoa.specs.AutomatonText.{accepts, sets_of};
ghost use Rattle.ml_hoa.specs.private.Machine as machine;
ghost use Rattle.ml_hoa.specs.private.Machine.{IsTold, Next};
ghost use Rattle.ml_hoa.specs.private.Views.{edges_of, state_of, token_of};
ghost use Rattle.ml_hoa.specs.declared.refusal.HoaRefusal.TheVariants as refusal;

use crate::buchi::BuchiEdge;
use crate::level::Level;
use crate::limits::MOST_EDGES;
use crate::numbers::number_up_to;
use crate::reader::{Acceptance, Reader, Stage};
use crate::refusal::HoaRefusal;
use crate::token::{Mark, Token};

fn sets_of(acceptance: Acceptance) -> u32
    ensures { result ≡ sets_of acceptance }
{
    match acceptance {
        Acceptance::Every => 0,
        Acceptance::Marked => 1,
    }
}

fn accepts(acceptance: Acceptance, in_set: bool) -> bool
    ensures { result ≡ accepts acceptance in_set }
{
    match acceptance {
        Acceptance::Every => true,
        Acceptance::Marked => in_set,
    }
}

fn is_zero(digits: &[u8]) -> bool
    ensures { result ≡ (value digits.now == 0) }
{
    number_up_to(digits, 1) == 0
}

impl Reader {
    pub(super) fn take_body(&mut self, token: Token, at: u64) -> Result<(), HoaRefusal>
        ensures { MatchResult result
            (λ _. machine.on_body (state_of self.old) (token_of token.entry) ≡ Next (state_of self.new))
            (λ e. IsTold e at (machine.on_body (state_of self.old) (token_of token.entry))) }
    {
        match token {
            Token::Plain(Mark::State) => self.go(Stage::StateNumber),
            Token::Plain(Mark::End) => self.go(Stage::Done),
            _ => Err(HoaRefusal::Syntax { at }),
        }
    }

    fn begin_edge(&mut self, at: u64) -> Result<(), HoaRefusal>
        ensures { MatchResult result
            (λ _. machine.edge_begun (state_of self.old) ≡ Next (state_of self.new))
            (λ e. IsTold e at (machine.edge_begun (state_of self.old))) }
    {
        if self.edges.len() >= MOST_EDGES {
            return Err(HoaRefusal::TooMany { at });
        }
        self.level = Level::new();
        self.outer.clear();
        self.operators = 0;
        self.go(Stage::Operand)
    }

    pub(super) fn take_edges(&mut self, token: Token, at: u64) -> Result<(), HoaRefusal>
        ensures { MatchResult result
            (λ _. machine.on_edges (state_of self.old) (token_of token.entry) ≡ Next (state_of self.new))
            (λ e. IsTold e at (machine.on_edges (state_of self.old) (token_of token.entry))) }
    {
        match token {
            Token::Plain(Mark::LeftBracket) => self.begin_edge(at),
            _ => self.take_body(token, at),
        }
    }

    pub(super) fn take_behind_name(&mut self, token: Token, at: u64) -> Result<(), HoaRefusal>
        ensures { MatchResult result
            (λ _. machine.behind_name (state_of self.old) (token_of token.entry) ≡ Next (state_of self.new))
            (λ e. IsTold e at (machine.behind_name (state_of self.old) (token_of token.entry))) }
    {
        match token {
            Token::Plain(Mark::LeftBrace) => self.go(Stage::StateSets),
            _ => self.take_edges(token, at),
        }
    }

    pub(super) fn take_behind_number(&mut self, token: Token, at: u64) -> Result<(), HoaRefusal>
        ensures { MatchResult result
            (λ _. machine.behind_number (state_of self.old) (token_of token.entry) ≡ Next (state_of self.new))
            (λ e. IsTold e at (machine.behind_number (state_of self.old) (token_of token.entry))) }
    {
        match token {
            Token::Text(_) => self.go(Stage::BehindName),
            _ => self.take_behind_name(token, at),
        }
    }

    pub(super) fn take_behind_target(&mut self, token: Token, at: u64) -> Result<(), HoaRefusal>
        ensures { MatchResult result
            (λ _. machine.behind_target (state_of self.old) (token_of token.entry) ≡ Next (state_of self.new))
            (λ e. IsTold e at (machine.behind_target (state_of self.old) (token_of token.entry))) }
    {
        match token {
            Token::Plain(Mark::LeftBrace) => self.go(Stage::EdgeSets),
            _ => self.take_edges(token, at),
        }
    }

    // begins the state of this number
    fn begin_state(&mut self, digits: &[u8], at: u64) -> Result<(), HoaRefusal>
        ensures { MatchResult result
            (λ _. state_of self.new ≡ machine.with_id (state_of self.old) (value digits.now) at)
            (λ e. e ≡ refusal.NoMemory) }
    {
        let number = number_up_to(digits, self.states);
        self.in_set = false;
        if number == self.states {
            self.note(at);
            self.from = 0;
            return self.go(Stage::BehindNumber);
        }
        if !self.seen.insert(number)? {
            self.note(at);
        }
        self.from = number;
        self.go(Stage::BehindNumber)
    }

    pub(super) fn take_state_number(&mut self, token: Token, at: u64) -> Result<(), HoaRefusal>
        ensures { MatchResult result
            (λ _. machine.on_state_number (state_of self.old) (token_of token.entry) ≡ Next (state_of self.new))
            (λ e. IsTold e at (machine.on_state_number (state_of self.old) (token_of token.entry))) }
    {
        match token {
            Token::Number(digits, place) => self.begin_state(digits, place),
            _ => Err(HoaRefusal::Syntax { at }),
        }
    }

    pub(super) fn take_state_sets(&mut self, token: Token, at: u64) -> Result<(), HoaRefusal>
        ensures { MatchResult result
            (λ _. machine.in_state_sets (state_of self.old) (token_of token.entry) ≡ Next (state_of self.new))
            (λ e. IsTold e at (machine.in_state_sets (state_of self.old) (token_of token.entry))) }
    {
        match token {
            Token::Number(digits, place) => {
                self.below(sets_of(self.acceptance), digits, place);
                if is_zero(digits) {
                    self.in_set = true;
                }
                Ok(())
            }
            Token::Plain(Mark::RightBrace) => self.go(Stage::Edges),
            _ => Err(HoaRefusal::Syntax { at }),
        }
    }

    // ends the edge at this state
    fn end_edge(&mut self, digits: &[u8], at: u64) -> Result<(), HoaRefusal>
        ensures { MatchResult result
            (λ _. state_of self.new ≡ machine.with_target (state_of self.old) (value digits.now) at)
            (λ e. e ≡ refusal.NoMemory) }
    {
        let alloc = *self.edges.allocator();
        let to = self.below(self.states, digits, at);
        let level = std::mem::replace(&mut self.level, Level::new());
        self.edges.push(BuchiEdge {
            from: self.from,
            guard: level.guard(alloc)?,
            to,
            accepting: accepts(self.acceptance, self.in_set),
        })?;
        self.go(Stage::BehindTarget)
    }

    pub(super) fn take_target(&mut self, token: Token, at: u64) -> Result<(), HoaRefusal>
        ensures { MatchResult result
            (λ _. machine.on_target (state_of self.old) (token_of token.entry) ≡ Next (state_of self.new))
            (λ e. IsTold e at (machine.on_target (state_of self.old) (token_of token.entry))) }
    {
        match token {
            Token::Number(digits, place) => self.end_edge(digits, place),
            _ => Err(HoaRefusal::Syntax { at }),
        }
    }

    // the last edge accepts
    fn mark_last(&mut self) -> Result<(), HoaRefusal>
        ensures { MatchResult result
            (λ _. state_of self.new ≡ record (state_of self.old) { edges = machine.last_accepting (edges_of self.old.edges.items) })
            (λ e. e ≡ refusal.NoMemory) }
    {
        if let Some(edge) = self.edges.pop() {
            self.edges.push(BuchiEdge {
                accepting: true,
                ..edge
            })?;
        }
        Ok(())
    }

    pub(super) fn take_edge_sets(&mut self, token: Token, at: u64) -> Result<(), HoaRefusal>
        ensures { MatchResult result
            (λ _. machine.in_edge_sets (state_of self.old) (token_of token.entry) ≡ Next (state_of self.new))
            (λ e. IsTold e at (machine.in_edge_sets (state_of self.old) (token_of token.entry))) }
    {
        match token {
            Token::Number(digits, place) => {
                self.below(sets_of(self.acceptance), digits, place);
                if is_zero(digits) {
                    self.mark_last()?;
                }
                Ok(())
            }
            Token::Plain(Mark::RightBrace) => self.go(Stage::Edges),
            _ => Err(HoaRefusal::Syntax { at }),
        }
    }
}
