//! The moves that layers list.

ghost use Rattle.std.specs.Prelude.{◌≡◌, IfOk};
ghost use Rattle.cert_base.specs.ValidLayers.{moves_of_layers};

use cert_base::Layer;
use std::alloc::{AllocError, Global};

/// All numbers of moves that the layers list, in order.
pub fn listed_moves(alloc: Global, layers: &[Layer]) -> Result<Vec<u32>, AllocError>
    ensures { IfOk result (λ moves. moves.items ≡ moves_of_layers layers.now) }
{
    let mut moves = Vec::new(alloc);
    for layer in layers {
        moves.extend_from_slice(layer.moves.as_slice())?;
    }
    Ok(moves)
}
