// Whether a thread can be ended within so many steps.
use crate::engines::{Engine, Reached};
use crate::leaves::Leaf;
use ml_arrays::NONE;
use ml_base::NoMemory;
use ml_sequent_solver::Outcome;

/// A sequent and a thread of it that is to be ended within so many steps.
#[derive(Drop)]
pub(crate) struct Call {
    sequent: u32,
    thread: u32,
    level: u32,
    /// Whether it is known that it can't be ended at once.
    tried: bool,
    /// The leaf that was found, and the place of the diamond that is tried next.
    leaf: Option<Leaf>,
    next: usize,
}

/// What is to be done with a call.
#[derive(Clone, Copy)]
enum Next {
    /// It is over.
    Over(Reached),
    /// A leaf is to be found.
    Ask,
    /// This one comes first.
    First(u32, u32, u32),
    /// The leaf ends the thread.
    Won,
    /// It goes on.
    GoesOn,
}

impl Call {
    /// The next call on which the leaf rests.
    fn next_step(&mut self) -> Next {
        let Some(leaf) = &self.leaf else {
            return Next::Ask;
        };
        for i in self.next..leaf.gos.len() {
            if let Some(go) = leaf.gos.get(i) {
                let on = go.thread(self.thread);
                if on != NONE {
                    if self.level == 0 {
                        return Next::Over(Reached::Blocked);
                    }
                    self.next = i.saturating_add(1);
                    return Next::First(go.to, on, self.level - 1);
                }
            }
        }
        Next::Won
    }
}

impl<'a> Engine<'a> {
    /// Can a thread be ended within so many steps?
    pub(crate) fn block(
        &mut self,
        sequent: u32,
        thread: u32,
        level: u32,
    ) -> Result<Reached, NoMemory> {
        self.calls.clear();
        let mut last = self.call(sequent, thread, level)?;
        for _ in 0..u64::MAX {
            if self.known.is_out() || last == Some(Reached::Out) {
                return Ok(Reached::Out);
            }
            if self.calls.is_empty() {
                break;
            }
            last = self.go_on(last)?;
        }
        Ok(last.unwrap_or(Reached::Out))
    }

    /// Begins a call, if it isn't over at once.
    fn call(&mut self, sequent: u32, thread: u32, level: u32) -> Result<Option<Reached>, NoMemory> {
        if self.sequents.is_refuted(&mut self.known, sequent) {
            return Ok(Some(Reached::Refuted));
        }
        if self.pairs.is_solved((sequent, thread)) {
            return Ok(Some(Reached::Won));
        }
        let tried = self.known.blocked(thread, self.sequents.nodes(sequent)) > 0;
        self.calls.push(Call {
            sequent,
            thread,
            level,
            tried,
            leaf: None,
            next: 0,
        })?;
        Ok(None)
    }

    /// Goes on with the last call, where the one on which it rests came to this.
    fn go_on(&mut self, last: Option<Reached>) -> Result<Option<Reached>, NoMemory> {
        match self.next_step(last) {
            Next::Over(reached) => {
                let _ = self.calls.pop();
                Ok(Some(reached))
            }
            Next::First(sequent, thread, level) => self.call(sequent, thread, level),
            Next::Won => {
                self.win()?;
                Ok(Some(Reached::Won))
            }
            Next::Ask => self.ask(),
            Next::GoesOn => Ok(None),
        }
    }

    fn next_step(&mut self, last: Option<Reached>) -> Next {
        let Some(call) = self.calls.last_mut() else {
            return Next::Over(Reached::Out);
        };
        match last {
            Some(Reached::Blocked) | Some(Reached::Refuted) => {
                call.leaf = None;
                call.next = 0;
                let sequent = call.sequent;
                if self.sequents.is_refuted(&mut self.known, sequent) {
                    Next::Over(Reached::Refuted)
                } else {
                    Next::GoesOn
                }
            }
            _ => call.next_step(),
        }
    }

    /// The leaf of the last call ends its thread.
    fn win(&mut self) -> Result<(), NoMemory> {
        if let Some(call) = self.calls.pop() {
            let Call {
                sequent,
                thread,
                leaf,
                ..
            } = call;
            if let Some(leaf) = leaf {
                // it may have been ended on the way; then others go on to that
                if !self.pairs.is_solved((sequent, thread)) {
                    self.pairs.solve((sequent, thread), leaf)?;
                }
            }
        }
        Ok(())
    }

    /// Asks for a leaf for the last call.
    fn ask(&mut self) -> Result<Option<Reached>, NoMemory> {
        let Some(call) = self.calls.last_mut() else {
            return Ok(Some(Reached::Out));
        };
        let (sequent, thread, level, tried) = (call.sequent, call.thread, call.level, call.tried);
        call.tried = true;
        if tried && level == 0 {
            let _ = self.calls.pop();
            return Ok(Some(Reached::Blocked));
        }
        match self.query(sequent, thread, level, tried)? {
            Outcome::Out => Ok(Some(Reached::Out)),
            Outcome::Closed => self.take_closed(thread, if tried { level } else { 0 }, tried),
            Outcome::Leaf => self.take_leaf(sequent),
        }
    }

    fn query(
        &mut self,
        sequent: u32,
        thread: u32,
        level: u32,
        tried: bool,
    ) -> Result<Outcome, NoMemory> {
        if tried {
            self.known.set_level(level.saturating_sub(1));
            return self.known.query(self.sequents.nodes(sequent), &[], thread);
        }
        self.known.set_level(NONE);
        self.known
            .query(self.sequents.nodes(sequent), &self.later, thread)
    }

    /// No leaf: for good, or within so many steps.
    fn take_closed(
        &mut self,
        thread: u32,
        level: u32,
        tried: bool,
    ) -> Result<Option<Reached>, NoMemory> {
        if self.known.solver.is_for_good() {
            self.known.learn()?;
            let _ = self.calls.pop();
            return Ok(Some(Reached::Refuted));
        }
        self.known.learn_frame(thread, level)?;
        if tried {
            let _ = self.calls.pop();
            return Ok(Some(Reached::Blocked));
        }
        Ok(None)
    }

    fn take_leaf(&mut self, sequent: u32) -> Result<Option<Reached>, NoMemory> {
        let Some(leaf) = self.leaf(sequent)? else {
            return Ok(Some(Reached::Out));
        };
        if let Some(call) = self.calls.last_mut() {
            call.leaf = Some(leaf);
            call.next = 0;
        }
        Ok(None)
    }
}
