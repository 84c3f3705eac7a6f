//! Why layers are not valid.

/// The first place at which layers fail: first shapes, then missing layers, then weights, then waking.
#[derive(Clone, Copy, PartialEq, Eq)]
pub enum LayerWhy {
    /// The first layer that doesn't have one weight per state, or lists a number that no move has or was listed before.
    Shape(u32),
    /// The least non-silent move in no layer.
    NoLayer(u32),
    /// The least non-silent move that doesn't lower the weights of its layer.
    NotLower(u32),
    /// The least non-silent move that wakes a move of an earlier layer, and the least such move.
    Wakes(u32, u32),
}
