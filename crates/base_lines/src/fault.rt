//! Too few or too many lines.

/// The first missing line, or the first too many, counted from 1.
#[derive(Clone, Copy, PartialEq, Eq)]
pub enum LineFault {
    /// There are fewer lines than wanted.
    Missing(u64),
    /// There are more lines than wanted.
    Extra(u64),
}
