//! The law of settlements by goals.

ghost use Rattle.pop_settle.specs.RestLaws.{SettlementsRest};

/// A settlement by the layers that an input chooses ends where every agent outputs the predicate's value for ever, and
/// so does any way to a crowd in which no move of these layers is possible. A theorem; the body is empty.
pub fn settlements_rest()
    ensures { SettlementsRest }
{}
