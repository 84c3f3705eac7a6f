//! Ranking layers.

ghost use Rattle.std.specs.Prelude.{codes};
ghost use Rattle.serde_json.specs.View.{view};
ghost use Rattle.base_json.specs.Faults.{GivesRead};
ghost use Rattle.base_json.specs.Paths.{path_text};
ghost use Rattle.base_json.specs.Shapes.{member_by};
ghost use Rattle.cert_json.specs.Examined.{layer_moves_at, weights_at, layers_at};

use crate::terms::{index_of, small_of};
use base_json::{FormatFault, Path, ReadItem, each_in, object_of};
use cert_base::{LAYER_LIMIT, Layer};
use pop_io::List;
use pop_net::{MOVE_LIMIT, STATE_LIMIT};
use serde_json::Value;
use std::alloc::Global;

/// Numbers of moves.
#[derive(Clone, Copy)]
struct Moves;

impl ReadItem for Moves {
    ghost use Rattle.std.specs.Prelude.{⊤};
    ghost use Rattle.cert_json.specs.Examined.{index_item};

    type Item = u32;

    ghost can_read = { λ _. ⊤ };

    ghost item_at = { λ _. index_item };

    fn read(
        &self,
        alloc: Global,
        path: &Path<'_>,
        _found: &[u32],
        value: &Value,
    ) -> Result<u32, FormatFault> {
        index_of(alloc, path, value)
    }
}

/// The member `moves`: at most `MOVE_LIMIT` numbers of moves.
fn moves_of(alloc: Global, path: &Path<'_>, value: &Value) -> Result<List<u32>, FormatFault>
    ensures { GivesRead (λ ns. ns) result
        (member_by (path_text path.now) (codes "moves") layer_moves_at (view value.now)) }
{
    each_in(alloc, path, "moves", 0, MOVE_LIMIT, &Moves, value)
}

/// Weights of states.
#[derive(Clone, Copy)]
struct Weights;

impl ReadItem for Weights {
    ghost use Rattle.std.specs.Prelude.{⊤};
    ghost use Rattle.cert_json.specs.Examined.{weight_item};

    type Item = i64;

    ghost can_read = { λ _. ⊤ };

    ghost item_at = { λ _. weight_item };

    fn read(
        &self,
        alloc: Global,
        path: &Path<'_>,
        _found: &[i64],
        value: &Value,
    ) -> Result<i64, FormatFault> {
        small_of(alloc, path, value)
    }
}

/// The member `weights`: at most `STATE_LIMIT` weights.
fn weights_of(alloc: Global, path: &Path<'_>, value: &Value) -> Result<List<i64>, FormatFault>
    ensures { GivesRead (λ ws. ws) result
        (member_by (path_text path.now) (codes "weights") weights_at (view value.now)) }
{
    each_in(alloc, path, "weights", 0, STATE_LIMIT, &Weights, value)
}

#[derive(Clone, Copy)]
struct Layers;

impl ReadItem for Layers {
    ghost use Rattle.std.specs.Prelude.{⊤};
    ghost use Rattle.cert_json.specs.Examined.{layer_item};

    type Item = Layer;

    ghost can_read = { λ _. ⊤ };

    ghost item_at = { λ _. layer_item };

    #[tactic(auto, unfolding(crate::specs::Examined::layer_at))]
    fn read(
        &self,
        alloc: Global,
        path: &Path<'_>,
        _found: &[Layer],
        value: &Value,
    ) -> Result<Layer, FormatFault> {
        object_of(alloc, path, value)?;
        let moves = moves_of(alloc, path, value)?;
        let weights = weights_of(alloc, path, value)?;
        Ok(Layer { moves, weights })
    }
}

/// The member `layers`: at most `LAYER_LIMIT` layers.
pub(crate) fn layers_of(
    alloc: Global,
    path: &Path<'_>,
    value: &Value,
) -> Result<List<Layer>, FormatFault>
    ensures { GivesRead (λ layers. layers) result
        (member_by (path_text path.now) (codes "layers") layers_at (view value.now)) }
{
    each_in(alloc, path, "layers", 0, LAYER_LIMIT, &Layers, value)
}
