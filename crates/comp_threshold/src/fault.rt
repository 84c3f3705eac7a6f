//! Why there is no leaf.

/// The width is over `WIDTH_LIMIT`.
#[derive(Clone, Copy, Debug, PartialEq, Eq)]
pub enum ThresholdFault {
    TooWide(u64),
}
