//! Why counts give no crowd.

/// There are fewer agents than `AGENT_LEAST` or more than `AGENT_LIMIT`.
#[derive(Clone, Copy, PartialEq, Eq)]
pub enum CrowdFault {
    /// The sum of the counts and the number of helpers.
    Size(u128),
}
