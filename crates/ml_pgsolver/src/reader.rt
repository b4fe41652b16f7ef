// The reader of game texts, a sign at a time.
ghost use Rattle.std.specs.Prelude.{◌≡◌, length, MatchResult, OnOk};
ghost use Rattle.ml_pgsolver.specs.private.Machine as machine;
ghost use Rattle.ml_pgsolver.specs.private.Machine.{IsTold, closed, next_stage, on_number, on_semicolon, outcome_from, start, step, with_id, with_successor};
ghost use Rattle.ml_pgsolver.specs.private.Rows.{state_of};
ghost use Rattle.ml_pgsolver.specs.private.Signs.{signs_from};

use crate::limits::{MOST_SUCCESSORS, MOST_VERTICES};
use crate::refusal::GameTextRefusal;
use crate::scan::{Numeral, Sign, next_sign};
use indexmap::IndexSet;
use ml_parity::Player;
use std::alloc::{AllocError, Global};

// a vertex that was read: its successors are ids
#[derive(Debug, Drop)]
pub(crate) struct Row {
    pub id: u32,
    pub priority: u32,
    pub owner: Player,
    pub successors: Vec<u64>,
}

// what stands before the successors of a vertex
#[derive(Clone, Copy, Debug)]
pub(crate) struct Head {
    pub id: u32,
    pub priority: u32,
    pub owner: Player,
}

// where in the grammar the reader is
#[derive(Clone, Copy, Debug)]
pub(crate) enum Stage {
    // before the first sign
    Start,
    // behind `parity`, and behind the number there
    HeaderNumber,
    HeaderEnd,
    // behind the header: there has to be a vertex
    FirstVertex,
    // a priority is wanted, behind this id
    Priority(u32),
    // an owner is wanted, behind this id and this priority
    Owner(u32, u32),
    // the first successor is wanted
    First(Head),
    // a successor was read
    Behind(Head),
    // a further successor is wanted
    Further(Head),
    // a name was read: the vertex has to end
    Close(Head),
    // a vertex was read: there may be another one
    NextVertex,
}

// what was read of a text
#[derive(Drop)]
pub(crate) struct Reader {
    pub stage: Stage,
    pub rows: Vec<Row>,
    // the ids of these rows and of the vertex that is being read
    pub ids: IndexSet<u32>,
    // the successors of the vertex that is being read
    pub successors: Vec<u64>,
    // how many successors there are of all
    pub count: usize,
}

// where these stages go at a sign at which nothing is kept
fn next_stage(stage: Stage, sign: Sign) -> Option<Stage>
    ensures { result ≡ next_stage stage sign }
{
    match (stage, sign) {
        (Stage::Start, Sign::Parity) => Some(Stage::HeaderNumber),
        (Stage::Behind(head), Sign::Comma) => Some(Stage::Further(head)),
        (Stage::Behind(head), Sign::Name) => Some(Stage::Close(head)),
        _ => None,
    }
}

impl Reader {
    // before the first sign
    fn new(alloc: Global) -> Reader
        ensures { state_of result ≡ start }
    {
        Reader {
            stage: Stage::Start,
            rows: Vec::new(alloc),
            ids: IndexSet::new(alloc),
            successors: Vec::new(alloc),
            count: 0,
        }
    }

    fn take_id(&mut self, value: Option<u32>, at: u64) -> Result<(), GameTextRefusal>
        ensures { MatchResult result
            (λ _. with_id (state_of self.old) value at ≡ Ok (state_of self.new))
            (λ e. IsTold e (with_id (state_of self.old) value at)) }
    {
        let is_full = self.ids.len() >= MOST_VERTICES;
        let Some(id) = value else {
            return Err(if is_full {
                GameTextRefusal::TooMany { at }
            } else {
                GameTextRefusal::TooLarge { at }
            });
        };
        if is_full {
            return Err(if self.ids.contains(&id) {
                GameTextRefusal::Repeated { at }
            } else {
                GameTextRefusal::TooMany { at }
            });
        }
        if !self.ids.insert(id)? {
            return Err(GameTextRefusal::Repeated { at });
        }
        self.stage = Stage::Priority(id);
        Ok(())
    }

    fn take_successor(
        &mut self,
        head: Head,
        value: Option<u32>,
        at: u64,
    ) -> Result<(), GameTextRefusal>
        ensures { MatchResult result
            (λ _. with_successor (state_of self.old) head value at ≡ Ok (state_of self.new))
            (λ e. IsTold e (with_successor (state_of self.old) head value at)) }
    {
        if self.count >= MOST_SUCCESSORS {
            return Err(GameTextRefusal::TooMany { at });
        }
        let Some(id) = value else {
            return Err(GameTextRefusal::TooLarge { at });
        };
        self.successors.push(u64::from(id))?;
        self.count += 1;
        self.stage = Stage::Behind(head);
        Ok(())
    }

    fn take_number(&mut self, number: Numeral, at: u64) -> Result<(), GameTextRefusal>
        ensures { MatchResult result
            (λ _. on_number self.old.stage (state_of self.old) number at ≡ Ok (state_of self.new))
            (λ e. IsTold e (on_number self.old.stage (state_of self.old) number at)) }
    {
        match self.stage {
            Stage::Start | Stage::FirstVertex | Stage::NextVertex => self.take_id(number.value, at),
            Stage::First(head) | Stage::Further(head) => {
                self.take_successor(head, number.value, at)
            }
            stage => {
                self.stage = stage_behind(stage, number, at)?;
                Ok(())
            }
        }
    }

    // the vertex that was being read is whole
    fn close(&mut self, head: Head) -> Result<(), AllocError>
        ensures { OnOk result (state_of self.new ≡ closed (state_of self.old) head) }
    {
        let alloc = *self.rows.allocator();
        let successors = Vec::from_slice(alloc, &self.successors)?;
        let row = Row {
            id: head.id,
            priority: head.priority,
            owner: head.owner,
            successors,
        };
        self.rows.push(row)?;
        self.successors.clear();
        self.stage = Stage::NextVertex;
        Ok(())
    }

    fn take_semicolon(&mut self, at: u64) -> Result<(), GameTextRefusal>
        ensures { MatchResult result
            (λ _. on_semicolon self.old.stage (state_of self.old) at ≡ Ok (state_of self.new))
            (λ e. IsTold e (on_semicolon self.old.stage (state_of self.old) at)) }
    {
        match self.stage {
            Stage::HeaderEnd => {
                self.stage = Stage::FirstVertex;
                Ok(())
            }
            Stage::Behind(head) | Stage::Close(head) => {
                self.close(head)?;
                Ok(())
            }
            _ => Err(GameTextRefusal::Syntax { at }),
        }
    }

    // goes on behind a sign
    fn take(&mut self, sign: Sign, at: u64) -> Result<(), GameTextRefusal>
        ensures { MatchResult result
            (λ _. step (state_of self.old) sign at ≡ Ok (state_of self.new))
            (λ e. IsTold e (step (state_of self.old) sign at)) }
    {
        match sign {
            Sign::Number(number) => self.take_number(number, at),
            Sign::Semicolon => self.take_semicolon(at),
            Sign::Stray => Err(GameTextRefusal::Syntax { at }),
            _ => match next_stage(self.stage, sign) {
                Some(stage) => {
                    self.stage = stage;
                    Ok(())
                }
                None => Err(GameTextRefusal::Syntax { at }),
            },
        }
    }
}

// the stage behind a number that is kept there
fn stage_behind(stage: Stage, number: Numeral, at: u64) -> Result<Stage, GameTextRefusal>
    ensures { result ≡ machine.stage_behind stage number at }
{
    match stage {
        Stage::HeaderNumber => match number.value {
            Some(_) => Ok(Stage::HeaderEnd),
            None => Err(GameTextRefusal::TooLarge { at }),
        },
        Stage::Priority(id) => match number.value {
            Some(priority) => Ok(Stage::Owner(id, priority)),
            None => Err(GameTextRefusal::TooLarge { at }),
        },
        Stage::Owner(id, priority) => match number.owner {
            Some(owner) => Ok(Stage::First(Head {
                id,
                priority,
                owner,
            })),
            None => Err(GameTextRefusal::Syntax { at }),
        },
        _ => Err(GameTextRefusal::Syntax { at }),
    }
}

// the rows of a text, and their ids
pub(crate) fn read_rows(alloc: Global, text: &[u8]) -> Result<Reader, GameTextRefusal>
    ensures { let out = outcome_from (length text.now) start (signs_from text.now 0) in
        MatchResult result (λ reader. out ≡ Ok (state_of reader)) (λ e. IsTold e out) }
{
    let mut reader = Reader::new(alloc);
    let mut at = 0;
    while let Some(placed) = next_sign(text, at) {
        reader.take(placed.sign, placed.start as u64)?;
        at = placed.end;
    }
    match reader.stage {
        Stage::NextVertex => Ok(reader),
        _ => Err(GameTextRefusal::Syntax {
            at: text.len() as u64,
        }),
    }
}
