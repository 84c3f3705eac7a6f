//! The items of a combination.

/// An item of a combination in postfix.
#[derive(Clone, Copy, PartialEq, Eq)]
pub enum Item {
    Leaf(u8),
    Not,
    And,
    Or,
}
