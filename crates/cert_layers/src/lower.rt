//! Whether every move stands in a layer, and lowers its weights.

ghost use Rattle.std.specs.Prelude.{◌≡◌, ◌<◌, ◌+ℤ◌, length, All};
ghost use Rattle.cert_base.specs.ValidLayers.{weight_at};
ghost use Rattle.pop_leaf.specs.FirstFault.{first_below};
ghost use Rattle.pop_leaf.specs.LeafModel.{IsLeaf};
ghost use Rattle.cert_layers.specs.LayerFaults.{IsWeight};
ghost use Rattle.cert_layers.specs.MoveLayers.{AreMoveLayers};
ghost use Rattle.cert_layers.specs.Search.{is_unlisted_move, is_lower_after, is_higher_after, not_lower};

use cert_base::Layer;
use pop_net::{Leaf, Move};

/// The least non-silent move in no layer.
pub(crate) fn first_unlisted(leaf: &Leaf, layer_of_move: &[Option<u16>]) -> Option<u32>
    requires { length layer_of_move.now ≡ length leaf.now.moves }
    ensures { result ≡ first_below (length leaf.now.moves) (is_unlisted_move leaf.now layer_of_move.now) }
{
    (0..leaf.move_count()).find(|t| is_unlisted(leaf, layer_of_move, *t))
}

fn is_unlisted(leaf: &Leaf, layer_of_move: &[Option<u16>], t: u32) -> bool
    requires long { length layer_of_move.now ≡ length leaf.now.moves }
    requires in_range { t < length leaf.now.moves }
    ensures { result ≡ is_unlisted_move leaf.now layer_of_move.now t }
{
    let taken = leaf.move_at(t);
    !taken.is_silent() && layer_of_move[t as usize].is_none()
}

/// The least non-silent move that doesn't lower the weights of its layer.
pub(crate) fn first_not_lower(
    leaf: &Leaf,
    layers: &[Layer],
    layer_of_move: &[Option<u16>],
) -> Option<u32>
    requires formed { IsLeaf leaf.now }
    requires placed { AreMoveLayers leaf.now layers.now layer_of_move.now }
    requires small { All (λ layer. All IsWeight layer.weights) layers.now }
    ensures { result ≡ first_below (length leaf.now.moves) (not_lower leaf.now layers.now layer_of_move.now) }
{
    (0..leaf.move_count()).find(|t| fails_to_lower(leaf, layers, layer_of_move, *t))
}

fn fails_to_lower(leaf: &Leaf, layers: &[Layer], layer_of_move: &[Option<u16>], t: u32) -> bool
    requires formed { IsLeaf leaf.now }
    requires placed { AreMoveLayers leaf.now layers.now layer_of_move.now }
    requires small { All (λ layer. All IsWeight layer.weights) layers.now }
    requires in_range { t < length leaf.now.moves }
    ensures { result ≡ not_lower leaf.now layers.now layer_of_move.now t }
{
    let taken = leaf.move_at(t);
    match layer_of_move[t as usize] {
        None => false,
        Some(i) => { !taken.is_silent() && !is_lower(layers[i as usize].weights.as_slice(), taken) }
    }
}

/// Whether the states that a move brings weigh less than those it takes.
pub(crate) fn is_lower(weights: &[i64], taken: Move) -> bool
    requires small { All IsWeight weights.now }
    requires p_in { taken.p < length weights.now }
    requires q_in { taken.q < length weights.now }
    requires r_in { taken.r < length weights.now }
    requires s_in { taken.s < length weights.now }
    ensures { result ≡ is_lower_after weights.now taken }
{
    pair_weight(weights, taken.r, taken.s) < pair_weight(weights, taken.p, taken.q)
}

/// Whether the states that a move brings weigh more than those it takes.
pub(crate) fn is_higher(weights: &[i64], taken: Move) -> bool
    requires small { All IsWeight weights.now }
    requires p_in { taken.p < length weights.now }
    requires q_in { taken.q < length weights.now }
    requires r_in { taken.r < length weights.now }
    requires s_in { taken.s < length weights.now }
    ensures { result ≡ is_higher_after weights.now taken }
{
    pair_weight(weights, taken.p, taken.q) < pair_weight(weights, taken.r, taken.s)
}

/// The weights of two states together.
pub(crate) fn pair_weight(weights: &[i64], first: u16, second: u16) -> i64
    requires small { All IsWeight weights.now }
    requires first_in { first < length weights.now }
    requires second_in { second < length weights.now }
    ensures { result ≡ (weight_at weights.now first +ℤ weight_at weights.now second) }
{
    let first = weights[first as usize];
    let second = weights[second as usize];
    first + second
}
