//! A compiled net as an example, which of two leaves is smaller, and how small they are.

ghost use Rattle.comp_net.specs.AtLeastTwo.{AtLeastTwoComputes};
ghost use Rattle.comp_net.specs.Smaller.{SmallerLaw, PrefixSmallerLaw};
ghost use Rattle.comp_net.specs.FewStates.{FewStatesLaw};

/// The net that `compile_flocks` builds for `x >= 2` has three states and three moves, and computes it.
/// A theorem; the body is empty.
pub fn at_least_two_computes()
    ensures { AtLeastTwoComputes }
{}

/// Where a succinct net has a flock with an offset, it has fewer states than powers.
/// A theorem; the body is empty.
pub fn flocks_are_smaller()
    ensures { SmallerLaw }
{}

/// Where an atom has a leaf of prefixes, it has fewer states than powers.
/// A theorem; the body is empty.
pub fn prefixes_are_smaller()
    ensures { PrefixSmallerLaw }
{}

/// In a succinct net the leaf of a comparison over n variables, whose numbers have at most d binary digits,
/// has at most 2 d + 5 + (d + 1) n states.
/// A theorem; the body is empty.
pub fn succinct_leaves_are_small()
    ensures { FewStatesLaw }
{}
