//! The law of fair executions.

ghost use Rattle.theory_fair.specs.Laws.{FairExecutionsStabilise, FiniteExecutionsExtend, FairAndUnfair};
ghost use Rattle.theory_fair.specs.Laws.{MapsAndMultisets};
ghost use Rattle.theory_fair.specs.OutputStable.{GoalsStabilise, SilentOutputsStabilise};

/// If a terminal crowd can always be reached and each is right, every fair execution from an input stabilises with
/// the predicate's value (Angluin and others 2006). A theorem; the body is empty.
pub fn fair_executions_stabilise()
    ensures { FairExecutionsStabilise }
{}

/// If a terminal crowd can always be reached, each finite execution from an input is the beginning of a fair one:
/// fairness excludes none of them. A theorem; the body is empty.
pub fn finite_executions_extend()
    ensures { FiniteExecutionsExtend }
{}

/// There are fair executions and others: a crowd that stays unchanged is fair if it is terminal, and not if a step
/// leads to another crowd. A theorem; the body is empty.
pub fn standing_crowds()
    ensures { FairAndUnfair }
{}

/// Suppose a terminal crowd can always be reached and each is right. Then an execution that is fair with configurations
/// as maps is fair with them as multisets, from any order of the input's agents. A theorem; the body is empty.
pub fn fair_maps_are_fair_multisets()
    ensures { MapsAndMultisets }
{}

/// For each input, a set of crowds.
pub trait Goal {
    ghost use Rattle.std.specs.Prelude.{ℕ, List};
    ghost use Rattle.pop_leaf.specs.NetModel.{CrowdModel};

    // by the input's counts
    ghost has: { List ℕ → CrowdModel → Type 0 };
}

/// Suppose a goal can always be reached, no step leaves it, and in it every agent outputs the predicate's value. Then
/// the outputs of every fair execution come to rest at that value (Angluin and others 2006). Agents may go on changing.
/// A theorem; the body is empty.
pub fn goals_stabilise<G: Goal>()
    ensures { GoalsStabilise G.has }
{}

/// So for a net whose crowds can always be led to a right terminal one. A theorem; the body is empty.
pub fn silent_outputs_stabilise()
    ensures { SilentOutputsStabilise }
{}
