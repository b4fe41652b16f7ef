// A walk depth first over nodes, along a path that is divided into frames: strongly connected parts, once they are done.
ghost use Rattle.std.specs.Prelude.{◌≡◌, ◌<◌, ◌≤◌, ◌↔◌, ℕ, List, [], ◌∷◌, ◌++◌, Option, None, Some, IfOk, OnOk, IsTrue, MatchOption, length, get_or, reverse, drop, All};
ghost use Rattle.ml_lists.specs.Member.{IsMember};
ghost use Rattle.ml_sequent.specs.declared.parts.Frame.{Frame};
ghost use Rattle.ml_sequent.specs.declared.parts.Stage.TheVariants.{New};
ghost use Rattle.ml_sequent.specs.private.ConnectedParts.{stage_of, IsFramed, begun, awaiting, folded, folded_to, all_done, shut, first_frame};

use ml_base::NoMemory;
use std::alloc::Global;
use std::marker::Model;

/// How far a node is.
#[derive(Clone, Copy, Debug, PartialEq, Eq)]
pub(crate) enum Stage {
    /// It was not met yet.
    New,
    /// It stands on the path, at this place.
    On(usize),
    /// Its part is done.
    Done,
}

/// A frame: where its nodes begin on the path, and where what waits of them begins.
#[derive(Clone, Copy, Debug, PartialEq, Eq)]
pub(crate) struct Frame {
    first: usize,
    waits: usize,
}

/// A walk: the path, the targets that wait, the frames of both, and how far each node is. Contracts see the last frame
/// first.
#[derive(Drop)]
pub(crate) struct Parts {
    path: Vec<u32>,
    waiting: Vec<u32>,
    frames: Vec<Frame>,
    stages: Vec<Stage>,
}

impl Model for Parts {
    ghost use Rattle.std.specs.Prelude.{reverse};
    ghost use Rattle.ml_sequent.specs.private.ConnectedParts.{WalkList};

    ghost Value = { WalkList };

    ghost view = { λ a. record { path = a.path.items; waiting = a.waiting.items; frames = reverse a.frames.items; stages = a.stages.items } };
}

impl Parts {
    /// A walk with room for so many nodes.
    pub fn new(alloc: Global, nodes: u32) -> Result<Parts, NoMemory>
        ensures { IfOk result (λ parts. length parts.stages ≡ nodes) }
    {
        Ok(Parts {
            path: Vec::new(alloc),
            waiting: Vec::new(alloc),
            frames: Vec::new(alloc),
            stages: vec![in alloc; Stage::New; nodes as usize]?,
        })
    }

    /// Begins anew, with these nodes new.
    ///
    /// Cost: linear in them.
    pub fn restart(&mut self, nodes: &[u32])
        requires { All (λ n. n < length self.old.stages) nodes.now }
        ensures path { self.new.path ≡ [] }
        ensures waiting { self.new.waiting ≡ [] }
        ensures frames { self.new.frames ≡ [] }
        ensures size { length self.new.stages ≡ length self.old.stages }
        ensures fresh { (n : ℕ) → IsMember n nodes.now → stage_of self.new n ≡ New }
    {
        self.path.clear();
        self.waiting.clear();
        self.frames.clear();
        renew(nodes, &mut self.stages);
    }

    /// How far the node is.
    pub fn stage(&self, node: u32) -> Stage
        requires { node < length self.now.stages }
        ensures { result ≡ stage_of self.now node }
    {
        self.stages[node as usize]
    }

    /// Is nothing left on the path?
    pub fn is_over(&self) -> bool
        ensures { IsTrue result ↔ (self.now.frames ≡ []) }
    {
        self.frames.is_empty()
    }

    /// Takes the last target that waits in the last frame; `None` where none waits there.
    pub fn take(&mut self) -> Option<u32>
        ensures others { self.new ≡ record { path = self.old.path; waiting = self.new.waiting; frames = self.old.frames; stages = self.old.stages } }
        ensures taken { MatchOption
            result
            ((self.new.waiting ≡ self.old.waiting) × ((f : Frame) → first_frame self.old.frames ≡ Some f → length self.old.waiting ≤ f.waits))
            (λ m. (self.old.waiting ≡ self.new.waiting ++ m ∷ []) × ((f : Frame) → first_frame self.old.frames ≡ Some f → f.waits ≤ length self.new.waiting)) }
    {
        let Some(frame) = last_frame(&self.frames) else {
            return None;
        };
        if self.waiting.len() <= frame.waits {
            return None;
        }
        self.waiting.pop()
    }

    /// Joins the frames that begin behind this place to the one before them.
    pub fn fold(&mut self, place: usize)
        ensures { self.new ≡ folded_to place self.old }
    {
        fold_frames(&mut self.frames, place);
    }

    /// Puts a node behind the path, in a frame of its own.
    pub fn begin(&mut self, node: u32) -> Result<(), NoMemory>
        requires { node < length self.old.stages }
        ensures size { length self.new.stages ≡ length self.old.stages }
        ensures begun { OnOk result (self.new ≡ begun node self.old) }
    {
        let first = self.path.len();
        self.frames.push(Frame {
            first,
            waits: self.waiting.len(),
        })?;
        self.path.push(node)?;
        self.stages[node as usize] = Stage::On(first);
        Ok(())
    }

    /// Lets a target wait, in the last frame.
    pub fn await_target(&mut self, target: u32) -> Result<(), NoMemory>
        ensures size { length self.new.stages ≡ length self.old.stages }
        ensures waits { OnOk result (self.new ≡ awaiting (target ∷ []) self.old) }
    {
        self.waiting.push(target)?;
        Ok(())
    }

    /// The nodes of the last frame.
    pub fn last(&self) -> &[u32]
        requires { IsFramed (length self.now.path) (length self.now.waiting) self.now.frames }
        ensures { (f : Frame) → first_frame self.now.frames ≡ Some f → result.now ≡ drop f.first self.now.path }
    {
        match last_frame(&self.frames) {
            Some(frame) => &self.path[frame.first..],
            None => &self.path,
        }
    }

    /// Ends the last frame: its nodes are done, and leave the path.
    pub fn close(&mut self)
        requires framed { IsFramed (length self.old.path) (length self.old.waiting) self.old.frames }
        requires low { All (λ n. n < length self.old.stages) self.old.path }
        ensures size { length self.new.stages ≡ length self.old.stages }
        ensures shut { (f : Frame) (fs : List Frame) → self.old.frames ≡ f ∷ fs → self.new ≡ shut f fs self.old }
    {
        let Some(frame) = self.frames.pop() else {
            return;
        };
        finish(&self.path[frame.first..], &mut self.stages);
        self.path.truncate(frame.first);
    }
}

/// The last frame.
fn last_frame(frames: &[Frame]) -> Option<Frame>
    ensures { result ≡ first_frame (reverse frames.now) }
{
    frames.last().copied()
}

/// Takes away the frames that begin behind a place.
fn fold_frames(frames: &mut Vec<Frame>, place: usize)
    ensures { reverse frames.new.items ≡ folded place (reverse frames.old.items) }
{
    while let Some(frame) = last_frame(frames) {
        if frame.first <= place {
            return;
        }
        let _ = frames.pop();
    }
}

/// Notes that these nodes are new.
fn renew(nodes: &[u32], stages: &mut Vec<Stage>)
    requires { All (λ n. n < length stages.old.items) nodes.now }
    ensures size { length stages.new.items ≡ length stages.old.items }
    ensures fresh { (n : ℕ) → IsMember n nodes.now → get_or stages.new.items n New ≡ New }
{
    for node in nodes {
        stages[*node as usize] = Stage::New;
    }
}

/// Notes that these nodes are done.
fn finish(nodes: &[u32], stages: &mut Vec<Stage>)
    requires { All (λ n. n < length stages.old.items) nodes.now }
    ensures size { length stages.new.items ≡ length stages.old.items }
    ensures done { stages.new.items ≡ all_done nodes.now stages.old.items }
{
    for node in nodes {
        stages[*node as usize] = Stage::Done;
    }
}
