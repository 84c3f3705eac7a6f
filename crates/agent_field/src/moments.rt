//! What holds between any two atomic steps.

ghost use Rattle.agent_field.specs.Kinds.{EachMomentStands};
ghost use Rattle.agent_field.specs.DrawLaws.{DrawLaws};
ghost use Rattle.agent_field.specs.Plays.{PlaysAreKinds};

/// The field stands at every moment of every run of atomic steps, by any seats in any order. The draw of a ticket
/// adds its meeting to the history, and is a step of the model; every other step leaves the history unchanged.
pub fn each_moment_stands()
    ensures { EachMomentStands }
{}

/// A draw may know more words than those of its pair, and may hold no more shards than theirs.
pub fn draws_beside_a_third()
    ensures { DrawLaws }
{}

/// What the code does to the table's words are steps of the kinds of which `each_moment_stands` speaks: a law for each
/// play. A theorem; the body is empty.
pub fn plays_are_kinds()
    ensures { PlaysAreKinds }
{}
