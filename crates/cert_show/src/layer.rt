//! The lines of a layer.

ghost use Rattle.std.specs.Prelude.{◌≡◌, ◌<◌, ◌++◌, OnOk, Some, length, All};
ghost use Rattle.cert_show.specs.Lines.{text_of, spaced};
ghost use Rattle.base_lines.specs.Lines.{ended};
ghost use Rattle.cert_show.specs.LeafLines.{layer_lines, all_layer_lines, weight_text, listed_line};
ghost use Rattle.cert_show.specs.Showable.{IsLayerOf};

use crate::lines::{
    push_integer, push_line, push_move_line, push_number_line, push_state, push_text,
};
use crate::list::{Texts, push_all};
use cert_base::Layer;
use pop_io::{List, NoMemory};
use pop_net::Leaf;
use std::alloc::{AllocError, Global};

#[derive(Drop)]
struct Weights<'n> {
    leaf: &'n Leaf,
    layer: &'n Layer,
}

/// The moves that a layer lists.
#[derive(Drop)]
struct Listed<'n> {
    leaf: &'n Leaf,
    layer: &'n Layer,
}

#[derive(Drop)]
struct Layers<'n> {
    leaf: &'n Leaf,
    layers: &'n [Layer],
}

/// Adds a state's name, and its weight.
fn push_weight(out: &mut Vec<u8>, leaf: &Leaf, layer: &Layer, state: u16) -> Result<(), AllocError>
    requires state { state < length leaf.now.states }
    requires layer { IsLayerOf leaf.now layer.now }
    ensures { OnOk result (out.new.items ≡ out.old.items ++ spaced (weight_text leaf.now layer.now state)) }
{
    push_state(out, leaf, state)?;
    push_text(out, ": ")?;
    push_integer(out, layer.weights.as_slice()[state as usize])
}

impl Texts for Weights<'_> {
    ghost use Rattle.std.specs.Prelude.{length};
    ghost use Rattle.cert_show.specs.Lines.{spaced};
    ghost use Rattle.cert_show.specs.LeafLines.{weight_text};
    ghost use Rattle.cert_show.specs.Showable.{IsLayerOf};

    ghost can_push = { λ all. IsLayerOf all.leaf.now all.layer.now };

    ghost size = { λ all. length all.leaf.now.states };

    ghost text = { λ all q. spaced (weight_text all.leaf.now all.layer.now q) };

    fn count(&self) -> usize {
        self.leaf.state_count() as usize
    }

    fn push(&self, _alloc: Global, out: &mut Vec<u8>, i: usize) -> Result<(), NoMemory> {
        let _formed = self.leaf.state_count();
        push_weight(out, self.leaf, self.layer, i as u16)?;
        Ok(())
    }
}

/// Adds the line of a move that a layer lists.
fn push_listed(out: &mut Vec<u8>, leaf: &Leaf, number: u32) -> Result<(), AllocError>
    requires { number < length leaf.now.moves }
    ensures { OnOk result (out.new.items ≡ out.old.items ++ ended (listed_line leaf.now number)) }
{
    let _formed = leaf.state_count();
    push_move_line(out, "lists ", leaf, leaf.move_at(number))
}

impl Texts for Listed<'_> {
    ghost use Rattle.std.specs.Prelude.{length, slice_index_or};
    ghost use Rattle.base_lines.specs.Lines.{ended};
    ghost use Rattle.cert_show.specs.LeafLines.{listed_line};
    ghost use Rattle.cert_show.specs.Showable.{IsLayerOf};

    ghost can_push = { λ all. IsLayerOf all.leaf.now all.layer.now };

    ghost size = { λ all. length all.layer.now.moves };

    ghost text = { λ all i. ended (listed_line all.leaf.now (slice_index_or all.layer.now.moves i 0)) };

    fn count(&self) -> usize {
        self.layer.moves.as_slice().len()
    }

    fn push(&self, _alloc: Global, out: &mut Vec<u8>, i: usize) -> Result<(), NoMemory> {
        push_listed(out, self.leaf, self.layer.moves.as_slice()[i])?;
        Ok(())
    }
}

/// Adds the lines of a layer with its number.
fn push_layer(
    alloc: Global,
    out: &mut Vec<u8>,
    leaf: &Leaf,
    number: u64,
    layer: &Layer,
) -> Result<(), NoMemory>
    requires { IsLayerOf leaf.now layer.now }
    ensures { OnOk result (out.new.items ≡ out.old.items ++ text_of (layer_lines leaf.now number (Some layer.now))) }
{
    push_number_line(out, "layer ", number)?;
    push_line(alloc, out, "weights", &Weights { leaf, layer })?;
    push_all(alloc, out, &Listed { leaf, layer })?;
    Ok(())
}

impl Texts for Layers<'_> {
    ghost use Rattle.std.specs.Prelude.{length, slice_get, All};
    ghost use Rattle.cert_show.specs.Lines.{text_of};
    ghost use Rattle.cert_show.specs.LeafLines.{layer_lines};
    ghost use Rattle.cert_show.specs.Showable.{IsLayerOf};

    ghost can_push = { λ all. All (IsLayerOf all.leaf.now) all.layers.now };

    ghost size = { λ all. length all.layers.now };

    ghost text = { λ all i. text_of (layer_lines all.leaf.now i (slice_get all.layers.now i)) };

    fn count(&self) -> usize {
        self.layers.len()
    }

    fn push(&self, alloc: Global, out: &mut Vec<u8>, i: usize) -> Result<(), NoMemory> {
        push_layer(alloc, out, self.leaf, i as u64, &self.layers[i])
    }
}

/// Adds the lines of all layers, numbered from 0.
pub(crate) fn push_layers(
    alloc: Global,
    out: &mut Vec<u8>,
    leaf: &Leaf,
    layers: &List<Layer>,
) -> Result<(), NoMemory>
    requires { All (IsLayerOf leaf.now) layers.now }
    ensures { OnOk result (out.new.items ≡ out.old.items ++ text_of (all_layer_lines leaf.now layers.now)) }
{
    let layers = layers.as_slice();
    push_all(alloc, out, &Layers { leaf, layers })?;
    Ok(())
}
