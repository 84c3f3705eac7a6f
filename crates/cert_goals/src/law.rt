//! The laws of goals.

ghost use Rattle.cert_goals.specs.GoalLaws.{GoalsHold, ValidGoalsHold, FactsWithoutSets};

/// Where each end is within one of the sets, and each set stays: no step leaves the crowds of the goal, and in them the
/// value is every agent's output. A theorem; the body is empty.
pub fn goals_hold()
    ensures { GoalsHold }
{}

/// With a valid goal for each value, from each input steps lead to a crowd in which every agent outputs the predicate's
/// value, and outputs it for ever. A theorem; the body is empty.
pub fn valid_goals_hold()
    ensures { ValidGoalsHold }
{}

/// Where a goal lists no set, the facts of its tree are `base_facts`. A theorem; the body is empty.
pub fn facts_without_sets()
    ensures { FactsWithoutSets }
{}
