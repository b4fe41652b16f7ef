// The reader of solutions, a sign at a time.
ghost use Rattle.std.specs.Prelude.{◌≡◌, ◌≤◌, length, MatchResult, OnOk};
ghost use Rattle.ml_pgsolver.specs.private.EntryMachine as machine;
ghost use Rattle.ml_pgsolver.specs.private.EntryMachine.{entered, entry_step, entries_come, on_entry_number, on_entry_semicolon, state_of, with_vertex, IsEntryTold};
ghost use Rattle.ml_pgsolver.specs.private.Signs.{signs_from};

use crate::limits::MOST_VERTICES;
use crate::refusal::GameTextRefusal;
use crate::scan::{Numeral, Sign, next_sign};
use indexmap::IndexSet;
use ml_parity::Player;
use std::alloc::{AllocError, Global};

// an entry that was read: its numbers are ids
#[derive(Clone, Copy, Debug)]
pub(crate) struct EntryRow {
    pub vertex: u32,
    pub winner: Player,
    pub move_to: Option<u32>,
}

// where in the grammar the reader is
#[derive(Clone, Copy, Debug)]
pub(crate) enum EntryStage {
    // behind the word, and behind the number there
    Header,
    HeaderEnd,
    // an entry may begin
    Vertex,
    // a winner is wanted, behind this vertex
    Winner(u32),
    // a move may stand
    Move(u32, Player),
    // the entry has to end
    Close(u32, Player, u32),
}

// what was read of a solution
#[derive(Drop)]
pub(crate) struct EntryReader {
    pub stage: EntryStage,
    pub rows: Vec<EntryRow>,
    // the vertices of these entries and of the one that is being read
    pub vertices: IndexSet<u32>,
}

impl EntryReader {
    // behind the word
    fn new(alloc: Global) -> EntryReader
        ensures { state_of result ≡ machine.start }
    {
        EntryReader {
            stage: EntryStage::Header,
            rows: Vec::new(alloc),
            vertices: IndexSet::new(alloc),
        }
    }

    fn take_vertex(&mut self, value: Option<u32>, at: u64) -> Result<(), GameTextRefusal>
        ensures { MatchResult result
            (λ _. with_vertex (state_of self.old) value at ≡ Ok (state_of self.new))
            (λ e. IsEntryTold e (with_vertex (state_of self.old) value at)) }
    {
        let is_full = self.vertices.len() >= MOST_VERTICES;
        let Some(vertex) = value else {
            return Err(if is_full {
                GameTextRefusal::TooMany { at }
            } else {
                GameTextRefusal::TooLarge { at }
            });
        };
        if is_full {
            return Err(if self.vertices.contains(&vertex) {
                GameTextRefusal::Repeated { at }
            } else {
                GameTextRefusal::TooMany { at }
            });
        }
        if !self.vertices.insert(vertex)? {
            return Err(GameTextRefusal::Repeated { at });
        }
        self.stage = EntryStage::Winner(vertex);
        Ok(())
    }

    fn take_number(&mut self, number: Numeral, at: u64) -> Result<(), GameTextRefusal>
        ensures { MatchResult result
            (λ _. on_entry_number self.old.stage (state_of self.old) number at ≡ Ok (state_of self.new))
            (λ e. IsEntryTold e (on_entry_number self.old.stage (state_of self.old) number at)) }
    {
        match self.stage {
            EntryStage::Vertex => self.take_vertex(number.value, at),
            stage => {
                self.stage = entry_stage_behind(stage, number, at)?;
                Ok(())
            }
        }
    }

    // the entry that was being read is whole
    fn enter(&mut self, row: EntryRow) -> Result<(), AllocError>
        ensures { OnOk result (state_of self.new ≡ entered (state_of self.old) row) }
    {
        self.rows.push(row)?;
        self.stage = EntryStage::Vertex;
        Ok(())
    }

    fn take_semicolon(&mut self, at: u64) -> Result<(), GameTextRefusal>
        ensures { MatchResult result
            (λ _. on_entry_semicolon self.old.stage (state_of self.old) at ≡ Ok (state_of self.new))
            (λ e. IsEntryTold e (on_entry_semicolon self.old.stage (state_of self.old) at)) }
    {
        match self.stage {
            EntryStage::Header | EntryStage::HeaderEnd => {
                self.stage = EntryStage::Vertex;
                Ok(())
            }
            EntryStage::Move(vertex, winner) => {
                self.enter(EntryRow {
                    vertex,
                    winner,
                    move_to: None,
                })?;
                Ok(())
            }
            EntryStage::Close(vertex, winner, to) => {
                self.enter(EntryRow {
                    vertex,
                    winner,
                    move_to: Some(to),
                })?;
                Ok(())
            }
            _ => Err(GameTextRefusal::Syntax { at }),
        }
    }

    // goes on behind a sign
    fn take(&mut self, sign: Sign, at: u64) -> Result<(), GameTextRefusal>
        ensures { MatchResult result
            (λ _. entry_step (state_of self.old) sign at ≡ Ok (state_of self.new))
            (λ e. IsEntryTold e (entry_step (state_of self.old) sign at)) }
    {
        match sign {
            Sign::Number(number) => self.take_number(number, at),
            Sign::Semicolon => self.take_semicolon(at),
            _ => Err(GameTextRefusal::Syntax { at }),
        }
    }
}

// the stage behind a number that is kept there
fn entry_stage_behind(
    stage: EntryStage,
    number: Numeral,
    at: u64,
) -> Result<EntryStage, GameTextRefusal>
    ensures { result ≡ machine.entry_stage_behind stage number at }
{
    match stage {
        EntryStage::Header => match number.value {
            Some(_) => Ok(EntryStage::HeaderEnd),
            None => Err(GameTextRefusal::TooLarge { at }),
        },
        EntryStage::Winner(vertex) => match number.owner {
            Some(winner) => Ok(EntryStage::Move(vertex, winner)),
            None => Err(GameTextRefusal::Syntax { at }),
        },
        EntryStage::Move(vertex, winner) => match number.value {
            Some(to) => Ok(EntryStage::Close(vertex, winner, to)),
            None => Err(GameTextRefusal::TooLarge { at }),
        },
        _ => Err(GameTextRefusal::Syntax { at }),
    }
}

// the entries of the solution whose tokens begin at the byte `from`
pub(crate) fn read_entries(
    alloc: Global,
    text: &[u8],
    from: usize,
) -> Result<Vec<EntryRow>, GameTextRefusal>
    requires { from ≤ length text.now }
    ensures { let out = entries_come (length text.now) machine.start (signs_from text.now from) in
        MatchResult result
        (λ rows. (s : machine.EntryState) × (out ≡ Ok s) × (s.rows ≡ rows.items))
        (λ e. IsEntryTold e out) }
{
    let mut reader = EntryReader::new(alloc);
    let mut at = from;
    while let Some(placed) = next_sign(text, at) {
        reader.take(placed.sign, placed.start as u64)?;
        at = placed.end;
    }
    match reader.stage {
        EntryStage::Vertex => Ok(reader.rows),
        _ => Err(GameTextRefusal::Syntax {
            at: text.len() as u64,
        }),
    }
}
