//! How many agents a crowd may have.

/// The fewest agents of a crowd.
pub const AGENT_LEAST: u32 = 2;

/// The most agents of a crowd.
pub const AGENT_LIMIT: u32 = 65_536;
