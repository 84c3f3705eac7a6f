//! Laws of settlements.

ghost use Rattle.pop_settle.specs.Laws.{SettlementsEnd};

/// A settlement is made of steps, is the only one from its crowd, is no longer than the proof's bound for each agent,
/// and leads to a terminal crowd. A theorem; the body is empty.
pub fn settlements_end()
    ensures { SettlementsEnd }
{}
