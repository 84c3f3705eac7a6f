//! The formats of a net's file.

/// The format of nets without helpers.
pub(crate) const PLAIN_FORMAT: u32 = 1;

/// The format of nets with helpers.
pub(crate) const HELPER_FORMAT: u32 = 2;
