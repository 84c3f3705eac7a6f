//! What a token is.

/// How a sum is compared with a constant.
#[derive(Clone, Copy, PartialEq, Eq)]
pub enum Relation {
    /// `<`
    Less,
    /// `<=`
    AtMost,
    /// `>`
    Greater,
    /// `>=`
    AtLeast,
    /// `=`
    Equal,
    /// `!=`
    Unequal,
}

/// What is at a token's place.
#[derive(Clone, Copy)]
pub enum Kind<'a> {
    /// A word other than `mod`, of any length.
    Name(&'a [u8]),
    /// The digits of a number, of any length.
    Number(&'a [u8]),
    /// `+`
    Plus,
    /// `-`
    Minus,
    /// `*`
    Star,
    /// The sign of a relation.
    Compare(Relation),
    /// `&&`
    And,
    /// `||`
    Or,
    /// `!`
    Not,
    /// `(`
    Open,
    /// `)`
    Close,
    /// The word `mod`.
    Mod,
    /// A byte that begins no token.
    Stray,
}

/// A token and the offset of its first byte.
#[derive(Clone, Copy)]
pub struct Token<'a> {
    /// The offset.
    pub place: u32,
    /// What is there.
    pub kind: Kind<'a>,
}
