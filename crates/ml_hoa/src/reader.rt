// The reader of automaton texts, a token at a time: what it keeps, and what it does at each stage.
//
//   headers   from `HOA:` to `--BODY--`
//   states    states and edges
//   labels    the label of an edge
ghost use Rattle.std.specs.Prelude.{◌≡◌, MatchResult};
ghost use Rattle.ml_lines.specs.Reading.{value};
ghost use Rattle.ml_hoa.specs.private.Machine as machine;
ghost use Rattle.ml_hoa.specs.private.Machine.{IsTold, Next, checked, noted, number_below, turn};
ghost use Rattle.ml_hoa.specs.private.Views.{state_of, token_of};

mod headers;
mod labels;
mod states;

use crate::buchi::{BuchiEdge, Quoted};
use crate::level::Level;
use crate::numbers::number_up_to;
use crate::refusal::HoaRefusal;
use crate::token::Token;
use indexmap::IndexSet;
use std::alloc::Global;

/// Which runs accept: all of them, or those that take edges of the set 0 infinitely often.
#[derive(Clone, Copy, Debug, PartialEq, Eq)]
pub enum Acceptance {
    Every,
    Marked,
}

// where in the grammar the reader is
#[derive(Clone, Copy, Debug)]
pub(crate) enum Stage {
    // before the first token, and behind `HOA:`
    Start,
    Version,
    // a header or the body is wanted
    Headers,
    // what is wanted of a header: its number, a string with so many behind it, and the parts of `0 t` and `1 Inf(0)`
    StatesNumber,
    StartNumber,
    PropsNumber,
    Strings(u32),
    AcceptanceNumber,
    EveryTruth,
    MarkedInf,
    MarkedOpen,
    MarkedSet,
    MarkedClose,
    // in a header that is ignored
    Ignored,
    // behind `--BODY--`
    Body,
    // a state's number is wanted; behind it; behind its name; in its sets; behind these or a whole edge
    StateNumber,
    BehindNumber,
    BehindName,
    StateSets,
    Edges,
    // in a label, before and behind an operand
    Operand,
    Behind,
    // a target is wanted; behind it; in the sets of an edge
    Target,
    BehindTarget,
    EdgeSets,
    // behind `--END--`
    Done,
}

// which headers stood
#[derive(Clone, Copy)]
pub(crate) struct Stood {
    pub states: bool,
    pub start: bool,
    pub props: bool,
    pub acceptance: bool,
}

// what was read of a text
#[derive(Drop)]
pub(crate) struct Reader {
    pub stage: Stage,
    // which of the headers stood, and what they say; a first state above the limit stands as the limit
    pub stood: Stood,
    pub states: u32,
    pub first: u32,
    pub first_at: u64,
    pub prop_count: u32,
    pub props: Vec<Quoted>,
    pub acceptance: Acceptance,
    // of the label that is being read: the innermost parentheses, those around them, and how many operators there were
    pub level: Level,
    pub outer: Vec<Level>,
    pub operators: u32,
    // the states that stood before, the one that is being read, and whether it is in the set 0
    pub seen: IndexSet<u32>,
    pub from: u32,
    pub in_set: bool,
    pub edges: Vec<BuchiEdge>,
    // the first number that is out of range
    pub fault: Option<u64>,
}

impl Reader {
    // before the first token
    pub(crate) fn new(alloc: Global) -> Reader
        ensures { state_of result ≡ machine.start }
    {
        Reader {
            stage: Stage::Start,
            stood: Stood {
                states: false,
                start: false,
                props: false,
                acceptance: false,
            },
            states: 0,
            first: 0,
            first_at: 0,
            prop_count: 0,
            props: Vec::new(alloc),
            acceptance: Acceptance::Every,
            level: Level::new(),
            outer: Vec::new(alloc),
            operators: 0,
            seen: IndexSet::new(alloc),
            from: 0,
            in_set: false,
            edges: Vec::new(alloc),
            fault: None,
        }
    }

    // a number at this byte is out of range
    fn note(&mut self, at: u64)
        ensures { state_of self.new ≡ noted (state_of self.old) at }
    {
        if self.fault.is_none() {
            self.fault = Some(at);
        }
    }

    // the number, or 0 where it is not below the bound
    fn below(&mut self, bound: u32, digits: &[u8], at: u64) -> u32
        ensures state { state_of self.new ≡ checked bound (value digits.now) (state_of self.old) at }
        ensures number { result ≡ number_below bound (value digits.now) }
    {
        let number = number_up_to(digits, bound);
        if number < bound {
            return number;
        }
        self.note(at);
        0
    }

    // goes on at this stage
    fn go(&mut self, stage: Stage) -> Result<(), HoaRefusal>
        ensures { MatchResult result
            (λ _. state_of self.new ≡ machine.at_stage (state_of self.old) stage)
            (λ _. ⊥) }
    {
        self.stage = stage;
        Ok(())
    }

    // goes on at this stage, where the header did not stand before
    fn want(&mut self, stood: bool, stage: Stage, at: u64) -> Result<(), HoaRefusal>
        ensures { MatchResult result
            (λ _. machine.wanted stood (state_of self.old) stage ≡ Next (state_of self.new))
            (λ e. IsTold e at (machine.wanted stood (state_of self.old) stage)) }
    {
        if stood {
            return Err(HoaRefusal::Syntax { at });
        }
        self.go(stage)
    }

    // goes on behind a token
    pub(crate) fn take(&mut self, token: Token, at: u64) -> Result<(), HoaRefusal>
        ensures { let turn = turn (state_of self.old) (token_of token.entry) in
            MatchResult result (λ _. turn ≡ Next (state_of self.new)) (λ e. IsTold e at turn) }
    {
        match self.stage {
            Stage::Start => self.take_start(token, at),
            Stage::Version => self.take_version(token, at),
            Stage::Headers => self.take_header(token, at),
            Stage::StatesNumber => self.take_states_number(token, at),
            Stage::StartNumber => self.take_start_number(token, at),
            Stage::PropsNumber => self.take_props_number(token, at),
            Stage::Strings(left) => self.take_string(left, token, at),
            Stage::AcceptanceNumber => self.take_acceptance_number(token, at),
            Stage::EveryTruth => self.take_every(token, at),
            Stage::MarkedInf => self.take_inf(token, at),
            Stage::MarkedOpen => self.take_open(token, at),
            Stage::MarkedSet => self.take_set_number(token, at),
            Stage::MarkedClose => self.take_close(token, at),
            Stage::Ignored => self.take_ignored(token, at),
            Stage::Body => self.take_body(token, at),
            Stage::StateNumber => self.take_state_number(token, at),
            Stage::BehindNumber => self.take_behind_number(token, at),
            Stage::BehindName => self.take_behind_name(token, at),
            Stage::StateSets => self.take_state_sets(token, at),
            Stage::Edges => self.take_edges(token, at),
            Stage::Operand => self.take_operand(token, at),
            Stage::Behind => self.take_behind(token, at),
            Stage::Target => self.take_target(token, at),
            Stage::BehindTarget => self.take_behind_target(token, at),
            Stage::EdgeSets => self.take_edge_sets(token, at),
            Stage::Done => Err(HoaRefusal::Syntax { at }),
        }
    }
}
