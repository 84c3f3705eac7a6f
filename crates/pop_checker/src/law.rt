//! Laws of the definitions.

ghost use Rattle.pop_checker.specs.Sound.{IsSound};
ghost use Rattle.pop_checker.specs.Majority.{MajorityComputes};
ghost use Rattle.pop_checker.specs.TameEach.{OneLayerEachIsTame};

/// A valid proof of a well-formed net, with leaf predicates over its variables, shows that the net computes the
/// predicate. A theorem; the body is empty.
pub fn valid_is_right()
    ensures { IsSound }
{}

/// The majority protocol computes `y - x < 0`. A theorem; the body is empty.
pub fn majority_computes()
    ensures { MajorityComputes }
{}

/// Where each leaf has one layer, `are_tame` says yes. A theorem; the body is empty.
pub fn one_layer_each_is_tame()
    ensures { OneLayerEachIsTame }
{}
