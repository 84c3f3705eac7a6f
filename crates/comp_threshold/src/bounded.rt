//! A leaf with the place of its bound.

ghost use Rattle.std.specs.Prelude.{◌≡◌, map, length};
ghost use Rattle.std.specs.List.{range_with_len};
ghost use Rattle.comp_threshold.specs.ThresholdLeaf.{threshold_state_count, threshold_output};

use crate::narrow::Width;
use pop_leaf::Leaf;

/// A leaf of this width, whose outputs have the bound at this place.
#[derive(Clone, Copy)]
pub(crate) struct BoundedLeaf<'a> {
    pub(crate) leaf: &'a Leaf,
    pub(crate) width: Width,
    pub(crate) bound: u16,
    ghost states: { length leaf.now.states ≡ threshold_state_count width.number },
    ghost outputs: { leaf.now.outputs ≡ map (threshold_output width.number bound)
        (range_with_len 0 (threshold_state_count width.number)) },
}
