//! The law of the crowds of a goal.

ghost use Rattle.theory_sets.specs.Laws.{GoalCrowdsStay};

/// No step leaves a crowd of a guarded set in which no escape is possible, nor an end in a settled set. A theorem; the
/// body is empty.
pub fn goal_crowds_stay()
    ensures { GoalCrowdsStay }
{}
