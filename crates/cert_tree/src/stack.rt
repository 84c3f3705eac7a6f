//! Nodes one above the other, each with the cases that wait.

ghost use Rattle.std.specs.Prelude.{◌≡◌, ◌≤◌, ◌<◌, ◌++◌, [], true, length, map, reverse, All, IfOk, OnOk, MatchOption};
ghost use Rattle.cert_base.specs.declared.fact.Fact.{Fact};
ghost use Rattle.cert_tree.specs.Frames.{stacked, stacked_with, AreNested, IsNested, IsFit, FindsCase, IsLatest};
ghost use Rattle.cert_tree.specs.Frames.{HasPut};

use cert_base::{FACT_LIMIT, Fact};
use cert_linear::Trail;
use pop_io::{List, NoMemory};
use std::alloc::Global;

/// A node whose cases are being closed.
#[derive(Drop)]
pub(crate) struct Frame {
    /// The number of facts at the node.
    len: u32,
    /// The cases that wait, in order.
    cases: Vec<List<Fact>>,
}

/// The facts at which a walk stands, and the nodes above it, each with the cases that wait.
#[derive(Drop)]
pub(crate) struct Stack {
    pub(crate) trail: Trail,
    frames: Vec<Frame>,
}

impl Stack {
    /// These cases wait, each with these facts before its own.
    pub(crate) fn new(
        alloc: Global,
        facts: List<Fact>,
        cases: List<List<Fact>>,
    ) -> Result<Stack, NoMemory>
        requires { length facts ≤ FACT_LIMIT }
        ensures waits { IfOk result (λ stack. stacked stack ≡ map (λ own. (0, facts ++ own)) cases) }
        ensures nested { IfOk result IsNested }
    {
        let trail = Trail::new(alloc, facts);
        let mut frames = Vec::new(alloc);
        frames.push(Frame {
            len: trail.len(),
            cases: cases.into_vec(),
        })?;
        Ok(Stack { trail, frames })
    }

    /// The number of nodes.
    pub(crate) fn depth(&self) -> usize
        ensures { result ≡ length self.now.frames.items }
    {
        self.frames.len()
    }

    /// Puts a node at all facts on top, with these cases.
    pub(crate) fn put(&mut self, cases: List<List<Fact>>) -> Result<(), NoMemory>
        ensures { OnOk result (HasPut self.old cases self.new) }
    {
        let len = self.trail.len();
        self.frames.push(Frame {
            len,
            cases: cases.into_vec(),
        })?;
        Ok(())
    }

    /// Goes to the next case that waits, if there is one.
    pub(crate) fn next_case(&mut self) -> Result<bool, NoMemory>
        requires nested { IsNested self.old }
        requires fit { All IsFit (stacked self.old) }
        ensures { IfOk result (FindsCase (stacked self.old) self.new) }
    {
        let Some(frame) = self.next_frame() else {
            return Ok(false);
        };
        self.enter_case(frame)?;
        Ok(true)
    }

    /// Goes to the first case of the latest node.
    fn enter_case(&mut self, frame: Frame) -> Result<(), NoMemory>
        requires some_case { 0 < length frame.cases.items }
        requires within { frame.len ≤ length self.old.trail }
        requires nested { AreNested frame.len (reverse self.old.frames.items) }
        requires fit { All IsFit (stacked_with self.old frame) }
        ensures { OnOk result (FindsCase (stacked_with self.old frame) self.new true) }
    {
        let Frame { len, mut cases } = frame;
        self.trail.cut(len);
        let own = cases.remove(0);
        self.frames.push(Frame { len, cases })?;
        self.trail.append(own)
    }

    /// Takes the frames from the latest node with a case that waits.
    fn next_frame(&mut self) -> Option<Frame>
        requires { IsNested self.old }
        ensures { MatchOption result (stacked self.old ≡ []) (IsLatest (stacked self.old) self.new) }
    {
        while let Some(frame) = self.frames.pop() {
            if !frame.cases.is_empty() {
                return Some(frame);
            }
        }
        None
    }
}
