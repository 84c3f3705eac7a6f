//! Where a walk over the nodes of a tree stands.

ghost use Rattle.std.specs.Prelude.{◌≡◌, ◌≤◌, ◌+◌, ◌∷◌, [], ◌++◌, false, reverse, All, IfOk, IfErr, OnOk};
ghost use Rattle.cert_base.specs.declared.node.Node.TheVariants.{First};
ghost use Rattle.cert_base.specs.Closes.{still};
ghost use Rattle.cert_base.specs.Ends.{HaveSamePlaces};
ghost use Rattle.cert_linear.specs.Conditions.{IsOrdered};
ghost use Rattle.cert_tree.specs.Format.{IsWithinFormat};
ghost use Rattle.cert_tree.specs.Refusals.{waits};
ghost use Rattle.cert_tree.specs.Frames.{IsFit};
ghost use Rattle.cert_tree.specs.Rooms.{waiting_in, depth_in, IsSoundIn};
ghost use Rattle.cert_tree.specs.Walks.{waiting, waiting_outside, AreSound, IsSound, FindsPlace, HasEntered};
ghost use Rattle.cert_tree.specs.Walks.{IsRefusedBefore};
ghost use Rattle.cert_tree.specs.Halts.{GoesOn, HaltsAt};

use crate::fault::TreeWhy;
use crate::room::Room;
use crate::size::has_room;
use cert_base::{Fact, Node, PATH_LIMIT};
use cert_traps::{entry_cases, facts_before_entry};
use pop_io::{Failure, List, NoMemory};
use pop_leaf::Leaf;
use std::alloc::Global;
use std::mem;

/// The cases that wait: first those of one room, then those of the rooms that it was entered from, the latest last.
#[derive(Drop)]
pub(crate) struct Walk {
    room: Room,
    outside: Vec<Room>,
}

impl Walk {
    /// The walk at the beginning: one case waits, with these facts and no node above it.
    pub(crate) fn new(alloc: Global, facts: List<Fact>) -> Result<Walk, NoMemory>
        requires { IsFit (0, facts) }
        ensures waits { IfOk result (λ walk. waiting walk ≡ waits 0 false facts ∷ []) }
        ensures sound { IfOk result IsSound }
    {
        let mut cases = Vec::new(alloc);
        cases.push(List::from_vec(Vec::new(alloc)))?;
        let room = Room::new(alloc, 0, false, facts, List::from_vec(cases))?;
        Ok(Walk {
            room,
            outside: Vec::new(alloc),
        })
    }

    /// Passes the next node, if it isn't refused.
    pub(crate) fn visit(
        &mut self,
        alloc: Global,
        leaf: &Leaf,
        dead: &Leaf,
        stopped: &Leaf,
        node: &Node,
    ) -> Result<(), Failure<TreeWhy>>
        requires places { HaveSamePlaces leaf.now dead.now }
        requires stopped { stopped.now ≡ still leaf.now }
        requires within { IsWithinFormat node.now }
        requires sound { IsSound self.old }
        ensures goes_on { OnOk result (GoesOn leaf.now dead.now (waiting self.old) node.now (waiting self.new)) }
        ensures sound { OnOk result (IsSound self.new) }
        ensures halts { IfErr result (HaltsAt leaf.now dead.now (waiting self.old) node.now) }
    {
        if !self.next_case()? {
            return Err(Failure::Fault(TreeWhy::Rest));
        }
        self.room.pass(alloc, leaf, dead, stopped, node)?;
        self.enter_before(alloc, leaf, node)
    }

    /// Enters a room for the cases of a node that speak of a crowd before the end, if there are any.
    fn enter_before(
        &mut self,
        alloc: Global,
        leaf: &Leaf,
        node: &Node,
    ) -> Result<(), Failure<TreeWhy>>
        requires sound { IsSound self.old }
        requires above { 1 ≤ depth_in self.old.room }
        requires low { depth_in self.old.room ≤ PATH_LIMIT + 1 }
        requires ordered { All IsOrdered self.old.room.stack.trail }
        ensures entered { OnOk result (HasEntered leaf.now self.old node.now self.new) }
        ensures sound { OnOk result (IsSound self.new) }
        ensures halts { IfErr result (IsRefusedBefore leaf.now self.old node.now) }
    {
        match node {
            Node::First(set) => self.enter(alloc, leaf, set),
            _ => Ok(()),
        }
    }

    /// Enters a room for the cases of entries of the set, if there are any.
    fn enter(&mut self, alloc: Global, leaf: &Leaf, set: &List<u16>) -> Result<(), Failure<TreeWhy>>
        requires sound { IsSound self.old }
        requires above { 1 ≤ depth_in self.old.room }
        requires low { depth_in self.old.room ≤ PATH_LIMIT + 1 }
        requires ordered { All IsOrdered self.old.room.stack.trail }
        ensures entered { OnOk result (HasEntered leaf.now self.old (First set.now) self.new) }
        ensures sound { OnOk result (IsSound self.new) }
        ensures halts { IfErr result (IsRefusedBefore leaf.now self.old (First set.now)) }
    {
        let cases = entry_cases(alloc, leaf, set)?;
        if cases.as_slice().is_empty() {
            return Ok(());
        }
        let facts = facts_before_entry(alloc, leaf, set, self.room.stack.trail.as_slice())?;
        if !has_room(facts.as_slice(), cases.as_slice()) {
            return Err(Failure::Fault(TreeWhy::TooManyFacts));
        }
        let room = Room::new(alloc, self.room.depth() - 1, true, facts, cases)?;
        self.go_into(room)?;
        Ok(())
    }

    /// Goes into another room, and comes back when nothing waits there.
    fn go_into(&mut self, room: Room) -> Result<(), NoMemory>
        requires sound { IsSound self.old }
        requires inside { IsSoundIn room }
        ensures waits { OnOk result (waiting self.new ≡ waiting_in room ++ waiting self.old) }
        ensures sound { OnOk result (IsSound self.new) }
    {
        let outer = mem::replace(&mut self.room, room);
        self.outside.push(outer)?;
        Ok(())
    }

    /// Goes to the next case that waits, if there is one.
    pub(crate) fn next_case(&mut self) -> Result<bool, NoMemory>
        requires { IsSound self.old }
        ensures { IfOk result (FindsPlace (waiting self.old) self.new) }
    {
        if self.room.stack.next_case()? {
            return Ok(true);
        }
        self.leave_rooms()
    }

    /// Goes to the next case of the rooms outside.
    fn leave_rooms(&mut self) -> Result<bool, NoMemory>
        requires { AreSound (reverse self.old.outside.items) }
        ensures { IfOk result (FindsPlace (waiting_outside self.old) self.new) }
    {
        while let Some(room) = self.outside.pop() {
            self.room = room;
            if self.room.stack.next_case()? {
                return Ok(true);
            }
        }
        Ok(false)
    }
}
