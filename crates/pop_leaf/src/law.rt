//! The law of hushed leaves.

ghost use Rattle.pop_leaf.specs.Laws.{LeavesAreHushed};

/// A hushed leaf is a leaf, its steps are steps of the given one, and its terminal crowds are those in which no kept
/// move is possible. A theorem; the body is empty.
pub fn leaves_are_hushed()
    ensures { LeavesAreHushed }
{}
