//! A part of a walk whose cases have facts of their own.

ghost use Rattle.std.specs.Prelude.{◌≡◌, ◌≤◌, if◌then◌else◌, length, All, IfOk, IfErr, OnOk};
ghost use Rattle.cert_base.specs.declared.fact.Fact.{Fact};
ghost use Rattle.cert_base.specs.Closes.{still};
ghost use Rattle.cert_base.specs.Ends.{HaveSamePlaces};
ghost use Rattle.cert_linear.specs.Conditions.{IsOrdered};
ghost use Rattle.cert_tree.specs.Format.{IsWithinFormat};
ghost use Rattle.cert_tree.specs.Rooms.{Opens, depth_in, HasPassed, IsRefusedIn};

use crate::fault::TreeWhy;
use crate::nodes::node_cases;
use crate::size::has_room;
use crate::stack::Stack;
use cert_base::{FACT_LIMIT, Fact, Node, PATH_LIMIT};
use pop_io::{Failure, List, NoMemory};
use pop_leaf::Leaf;
use std::alloc::Global;

/// Cases that speak of the same crowd.
#[derive(Drop)]
pub(crate) struct Room {
    /// The number of nodes above the first one.
    above: usize,
    /// Whether they speak of a crowd before an entry, which need not be terminal.
    is_still: bool,
    pub(crate) stack: Stack,
}

impl Room {
    /// These cases wait, each with these facts before its own.
    pub(crate) fn new(
        alloc: Global,
        above: usize,
        is_still: bool,
        facts: List<Fact>,
        cases: List<List<Fact>>,
    ) -> Result<Room, NoMemory>
        requires { length facts ≤ FACT_LIMIT }
        ensures { IfOk result (Opens above is_still facts cases) }
    {
        let stack = Stack::new(alloc, facts, cases)?;
        Ok(Room {
            above,
            is_still,
            stack,
        })
    }

    /// The number of nodes above the next one, and one more.
    pub(crate) fn depth(&self) -> usize
        requires { self.now.above ≤ PATH_LIMIT }
        ensures { result ≡ depth_in self.now }
    {
        self.above + self.stack.depth()
    }

    /// Passes the node, if it isn't refused: then those of its cases wait that speak of the same crowd.
    pub(crate) fn pass(
        &mut self,
        alloc: Global,
        leaf: &Leaf,
        dead: &Leaf,
        stopped: &Leaf,
        node: &Node,
    ) -> Result<(), Failure<TreeWhy>>
        requires places { HaveSamePlaces leaf.now dead.now }
        requires stopped { stopped.now ≡ still leaf.now }
        requires within { IsWithinFormat node.now }
        requires low { self.old.above ≤ PATH_LIMIT }
        requires ordered { All IsOrdered self.old.stack.trail }
        ensures passed { OnOk result (HasPassed leaf.now dead.now self.old node.now self.new) }
        ensures halts { IfErr result (IsRefusedIn leaf.now dead.now self.old node.now) }
    {
        if self.depth() > PATH_LIMIT {
            return Err(Failure::Fault(TreeWhy::TooDeep));
        }
        let ended = either(self.is_still, stopped, dead);
        let cases = node_cases(alloc, leaf, ended, &mut self.stack.trail, node)?;
        if !has_room(self.stack.trail.as_slice(), cases.as_slice()) {
            return Err(Failure::Fault(TreeWhy::TooManyFacts));
        }
        self.stack.put(cases)?;
        Ok(())
    }
}

fn either<'a>(first: bool, one: &'a Leaf, other: &'a Leaf) -> &'a Leaf
    ensures { result.now ≡ (if first then one.now else other.now) }
{
    if first { one } else { other }
}
