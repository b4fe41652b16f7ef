// The reader in the headers: from `HOA:` to `--BODY--`.
ghost use Rattle.std.specs.Prelude.{◌≡◌, MatchResult};
ghost use Rattle.ml_hoa.specs.private.Machine as machine;
ghost use Rattle.ml_hoa.specs.private.Machine.{IsTold, Next};
ghost use Rattle.ml_hoa.specs.private.Views.{state_of, token_of};

use crate::buchi::Quoted;
use crate::limits::{MOST_PROPS, MOST_STATES};
use crate::numbers::number_up_to;
use crate::reader::{Acceptance, Reader, Stage, Stood};
use crate::refusal::HoaRefusal;
use crate::token::{Mark, Token};

// the stage behind the number of so many strings
fn strings(left: u32) -> Stage
    ensures { result ≡ machine.strings left }
{
    if left == 0 {
        Stage::Headers
    } else {
        Stage::Strings(left - 1)
    }
}

impl Reader {
    fn enter_body(&mut self, at: u64) -> Result<(), HoaRefusal>
        ensures { let turn = machine.into_body (state_of self.old) self.old.stood.states self.old.stood.start
            self.old.stood.props self.old.stood.acceptance in
            MatchResult result (λ _. turn ≡ Next (state_of self.new)) (λ e. IsTold e at turn) }
    {
        match self.stood {
            Stood {
                states: true,
                start: true,
                props: true,
                acceptance: true,
            } => {
                if self.first >= self.states {
                    self.note(self.first_at);
                }
                self.go(Stage::Body)
            }
            _ => Err(HoaRefusal::Syntax { at }),
        }
    }

    pub(super) fn take_start(&mut self, token: Token, at: u64) -> Result<(), HoaRefusal>
        ensures { MatchResult result
            (λ _. machine.on_start (state_of self.old) (token_of token.entry) ≡ Next (state_of self.new))
            (λ e. IsTold e at (machine.on_start (state_of self.old) (token_of token.entry))) }
    {
        match token {
            Token::Plain(Mark::Hoa) => self.go(Stage::Version),
            _ => Err(HoaRefusal::Syntax { at }),
        }
    }

    pub(super) fn take_version(&mut self, token: Token, at: u64) -> Result<(), HoaRefusal>
        ensures { MatchResult result
            (λ _. machine.on_version (state_of self.old) (token_of token.entry) ≡ Next (state_of self.new))
            (λ e. IsTold e at (machine.on_version (state_of self.old) (token_of token.entry))) }
    {
        match token {
            Token::Plain(Mark::Version) => self.go(Stage::Headers),
            _ => Err(HoaRefusal::Syntax { at }),
        }
    }

    pub(super) fn take_header(&mut self, token: Token, at: u64) -> Result<(), HoaRefusal>
        ensures { MatchResult result
            (λ _. machine.on_header (state_of self.old) (token_of token.entry) ≡ Next (state_of self.new))
            (λ e. IsTold e at (machine.on_header (state_of self.old) (token_of token.entry))) }
    {
        match token {
            Token::Plain(Mark::States) => self.want(self.stood.states, Stage::StatesNumber, at),
            Token::Plain(Mark::Start) => self.want(self.stood.start, Stage::StartNumber, at),
            Token::Plain(Mark::Props) => self.want(self.stood.props, Stage::PropsNumber, at),
            Token::Plain(Mark::Acceptance) => self.want(
                self.stood.acceptance,
                Stage::AcceptanceNumber,
                at,
            ),
            Token::Plain(Mark::Ignored) => self.go(Stage::Ignored),
            Token::Plain(Mark::Body) => self.enter_body(at),
            _ => Err(HoaRefusal::Syntax { at }),
        }
    }

    pub(super) fn take_ignored(&mut self, token: Token, at: u64) -> Result<(), HoaRefusal>
        ensures { MatchResult result
            (λ _. machine.on_ignored (state_of self.old) (token_of token.entry) ≡ Next (state_of self.new))
            (λ e. IsTold e at (machine.on_ignored (state_of self.old) (token_of token.entry))) }
    {
        match token {
            Token::Plain(
                Mark::States | Mark::Start | Mark::Props | Mark::Acceptance | Mark::Body,
            ) => self.take_header(token, at),
            Token::Plain(Mark::Hoa | Mark::State | Mark::Foreign | Mark::Unclosed) => Err(
                HoaRefusal::Syntax { at },
            ),
            _ => self.go(Stage::Ignored),
        }
    }

    pub(super) fn take_states_number(&mut self, token: Token, at: u64) -> Result<(), HoaRefusal>
        ensures { MatchResult result
            (λ _. machine.on_states_number (state_of self.old) (token_of token.entry) ≡ Next (state_of self.new))
            (λ e. IsTold e at (machine.on_states_number (state_of self.old) (token_of token.entry))) }
    {
        match token {
            Token::Number(digits, _) => {
                let states = number_up_to(digits, MOST_STATES + 1);
                if states > MOST_STATES {
                    return Err(HoaRefusal::TooMany { at });
                }
                self.states = states;
                self.stood.states = true;
                self.go(Stage::Headers)
            }
            _ => Err(HoaRefusal::Syntax { at }),
        }
    }

    pub(super) fn take_start_number(&mut self, token: Token, at: u64) -> Result<(), HoaRefusal>
        ensures { MatchResult result
            (λ _. machine.on_start_number (state_of self.old) (token_of token.entry) ≡ Next (state_of self.new))
            (λ e. IsTold e at (machine.on_start_number (state_of self.old) (token_of token.entry))) }
    {
        match token {
            Token::Number(digits, place) => {
                self.first = number_up_to(digits, MOST_STATES);
                self.first_at = place;
                self.stood.start = true;
                self.go(Stage::Headers)
            }
            _ => Err(HoaRefusal::Syntax { at }),
        }
    }

    pub(super) fn take_props_number(&mut self, token: Token, at: u64) -> Result<(), HoaRefusal>
        ensures { MatchResult result
            (λ _. machine.on_props_number (state_of self.old) (token_of token.entry) ≡ Next (state_of self.new))
            (λ e. IsTold e at (machine.on_props_number (state_of self.old) (token_of token.entry))) }
    {
        match token {
            Token::Number(digits, _) => {
                let count = number_up_to(digits, MOST_PROPS + 1);
                if count > MOST_PROPS {
                    return Err(HoaRefusal::TooMany { at });
                }
                self.prop_count = count;
                self.props.clear();
                self.stood.props = true;
                self.go(strings(count))
            }
            _ => Err(HoaRefusal::Syntax { at }),
        }
    }

    pub(super) fn take_string(&mut self, left: u32, token: Token, at: u64) -> Result<(), HoaRefusal>
        ensures { MatchResult result
            (λ _. machine.on_string (state_of self.old) left (token_of token.entry) ≡ Next (state_of self.new))
            (λ e. IsTold e at (machine.on_string (state_of self.old) left (token_of token.entry))) }
    {
        match token {
            Token::Text(bytes) => {
                let alloc = *self.props.allocator();
                self.props.push(Quoted::new(alloc, bytes)?)?;
                self.go(strings(left))
            }
            _ => Err(HoaRefusal::Syntax { at }),
        }
    }

    pub(super) fn take_acceptance_number(&mut self, token: Token, at: u64) -> Result<(), HoaRefusal>
        ensures { MatchResult result
            (λ _. machine.on_acceptance_number (state_of self.old) (token_of token.entry) ≡ Next (state_of self.new))
            (λ e. IsTold e at (machine.on_acceptance_number (state_of self.old) (token_of token.entry))) }
    {
        match token {
            Token::Number(digits, _) => match digits {
                b"0" => self.go(Stage::EveryTruth),
                b"1" => self.go(Stage::MarkedInf),
                _ => Err(HoaRefusal::Syntax { at }),
            },
            _ => Err(HoaRefusal::Syntax { at }),
        }
    }

    fn accept(&mut self, acceptance: Acceptance) -> Result<(), HoaRefusal>
        ensures { MatchResult result
            (λ _. machine.with_acceptance (state_of self.old) acceptance ≡ Next (state_of self.new))
            (λ _. ⊥) }
    {
        self.acceptance = acceptance;
        self.stood.acceptance = true;
        self.go(Stage::Headers)
    }

    pub(super) fn take_every(&mut self, token: Token, at: u64) -> Result<(), HoaRefusal>
        ensures { MatchResult result
            (λ _. machine.on_every (state_of self.old) (token_of token.entry) ≡ Next (state_of self.new))
            (λ e. IsTold e at (machine.on_every (state_of self.old) (token_of token.entry))) }
    {
        match token {
            Token::Plain(Mark::Truth) => self.accept(Acceptance::Every),
            _ => Err(HoaRefusal::Syntax { at }),
        }
    }

    pub(super) fn take_inf(&mut self, token: Token, at: u64) -> Result<(), HoaRefusal>
        ensures { MatchResult result
            (λ _. machine.on_inf (state_of self.old) (token_of token.entry) ≡ Next (state_of self.new))
            (λ e. IsTold e at (machine.on_inf (state_of self.old) (token_of token.entry))) }
    {
        match token {
            Token::Plain(Mark::Inf) => self.go(Stage::MarkedOpen),
            _ => Err(HoaRefusal::Syntax { at }),
        }
    }

    pub(super) fn take_open(&mut self, token: Token, at: u64) -> Result<(), HoaRefusal>
        ensures { MatchResult result
            (λ _. machine.on_open (state_of self.old) (token_of token.entry) ≡ Next (state_of self.new))
            (λ e. IsTold e at (machine.on_open (state_of self.old) (token_of token.entry))) }
    {
        match token {
            Token::Plain(Mark::LeftParen) => self.go(Stage::MarkedSet),
            _ => Err(HoaRefusal::Syntax { at }),
        }
    }

    pub(super) fn take_set_number(&mut self, token: Token, at: u64) -> Result<(), HoaRefusal>
        ensures { MatchResult result
            (λ _. machine.on_set_number (state_of self.old) (token_of token.entry) ≡ Next (state_of self.new))
            (λ e. IsTold e at (machine.on_set_number (state_of self.old) (token_of token.entry))) }
    {
        match token {
            Token::Number(digits, _) => match digits {
                b"0" => self.go(Stage::MarkedClose),
                _ => Err(HoaRefusal::Syntax { at }),
            },
            _ => Err(HoaRefusal::Syntax { at }),
        }
    }

    pub(super) fn take_close(&mut self, token: Token, at: u64) -> Result<(), HoaRefusal>
        ensures { MatchResult result
            (λ _. machine.on_close (state_of self.old) (token_of token.entry) ≡ Next (state_of self.new))
            (λ e. IsTold e at (machine.on_close (state_of self.old) (token_of token.entry))) }
    {
        match token {
            Token::Plain(Mark::RightParen) => self.accept(Acceptance::Marked),
            _ => Err(HoaRefusal::Syntax { at }),
        }
    }
}
