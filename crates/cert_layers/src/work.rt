//! How much work the test of tame layers is.

ghost use Rattle.std.specs.Prelude.{◌≡◌, ◌≤◌, All, Decides, length, min, sum_by};
ghost use Rattle.pop_leaf.specs.LeafModel.{IsLeaf};
ghost use Rattle.cert_layers.specs.LayerFaults.{AreLayersWithin, Each, IsWeight, ShapedAt};
ghost use Rattle.cert_layers.specs.TameWork.{raises_weights, work_between, tame_work};

use crate::lower::is_higher;
use cert_base::Layer;
use pop_net::Leaf;

/// The most pairs of moves that are compared to tell whether layers are tame.
pub const TAME_WORK_LIMIT: u64 = 100_000_000;

/// Whether the test of tame layers compares no more pairs of moves than it may.
pub(crate) fn is_work_within(leaf: &Leaf, layers: &[Layer]) -> bool
    requires formed { IsLeaf leaf.now }
    requires within { AreLayersWithin layers.now }
    requires shaped { Each (ShapedAt leaf.now layers.now) }
    ensures { Decides result (tame_work leaf.now layers.now ≤ TAME_WORK_LIMIT) }
{
    let mut work = 0u64;
    for i in 0..layers.len() {
        work = work.saturating_add(work_after(leaf, &layers[i], &layers[i + 1..]));
    }
    work <= TAME_WORK_LIMIT
}

/// The pairs of moves for a layer and those after it.
fn work_after(leaf: &Leaf, layer: &Layer, others: &[Layer]) -> u64
    requires formed { IsLeaf leaf.now }
    requires long { length layer.now.weights ≡ length leaf.now.states }
    requires small { All IsWeight layer.now.weights }
    ensures { result ≡ min (sum_by (work_between leaf.now layer.now) others.now) u64.MAX }
{
    let mut work = 0u64;
    for later in others {
        work = work.saturating_add(work_between(leaf, layer, later));
    }
    work
}

/// The moves of a later layer that raise the weights of a layer, times the moves that this one lists.
fn work_between(leaf: &Leaf, layer: &Layer, later: &Layer) -> u64
    requires formed { IsLeaf leaf.now }
    requires long { length layer.now.weights ≡ length leaf.now.states }
    requires small { All IsWeight layer.now.weights }
    ensures { result ≡ min (work_between leaf.now layer.now later.now) u64.MAX }
{
    let weights = layer.weights.as_slice();
    let raising = later
        .moves
        .as_slice()
        .iter()
        .filter(|n| raises_weights(leaf, weights, **n))
        .count();
    (raising as u64).saturating_mul(layer.moves.as_slice().len() as u64)
}

/// Whether a move raises these weights.
fn raises_weights(leaf: &Leaf, weights: &[i64], n: u32) -> bool
    requires formed { IsLeaf leaf.now }
    requires long { length weights.now ≡ length leaf.now.states }
    requires small { All IsWeight weights.now }
    ensures { result ≡ raises_weights leaf.now weights.now n }
{
    if leaf.move_count() <= n {
        return false;
    }
    let taken = leaf.move_at(n);
    !taken.is_silent() && is_higher(weights, taken)
}
