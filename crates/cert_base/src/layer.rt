//! A ranking layer of a leaf.

use pop_io::List;

/// Numbers of moves, and one weight per state: each move of the layer lowers the sum of the weights
/// (layered termination of Blondin, Esparza, Jaax, Meyer 2017).
#[derive(Drop)]
pub struct Layer {
    pub moves: List<u32>,
    pub weights: List<i64>,
}
