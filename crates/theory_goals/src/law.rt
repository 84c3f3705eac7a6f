//! The law of leaves with goals.

ghost use Rattle.theory_goals.specs.AnyNet.{FairOfAllKinds};
ghost use Rattle.theory_goals.specs.Flicker.{FlickerIsRight};
ghost use Rattle.theory_goals.specs.Laws.{LeafGoalsJoin, MixedLeavesAreRight};

/// For each leaf and each input, a set of crowds of the leaf.
pub trait LeafGoals {
    ghost use Rattle.std.specs.Prelude.{ℕ, List};

    // by the leaf's number and the input's counts
    ghost has: { ℕ → List ℕ → List ℕ → Type 0 };
}

/// If each leaf has goals for its predicate, the net is stably right for the combination, within the sum of the leaves'
/// bounds. A theorem; the body is empty.
pub fn leaf_goals_join<G: LeafGoals>()
    ensures { LeafGoalsJoin G.has }
{}

/// So for leaves of which some fall silent and others only come to a set that isn't left. A theorem; the body is empty.
pub fn silent_and_stable_leaves()
    ensures { MixedLeavesAreRight }
{}

/// Each finite execution of a net is the beginning of a fair one, and one that is fair for maps is fair for multisets,
/// whether the net ever comes to rest or not. A theorem; the body is empty.
pub fn fairness_of_any_net()
    ensures { FairOfAllKinds }
{}

/// A net that never falls silent, and is stably right: what the laws ask for can be met. A theorem; the body is empty.
pub fn flickering_is_right()
    ensures { FlickerIsRight }
{}
