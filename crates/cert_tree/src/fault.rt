//! Why a tree is refused.

/// The first node that is refused.
#[derive(Clone, Copy, PartialEq, Eq)]
pub struct TreeFault {
    /// The number of the node, or the number of nodes if one is missing.
    pub node: u32,
    pub why: TreeWhy,
}

/// Why a node is refused: the first of several reasons.
#[derive(Clone, Copy, PartialEq, Eq)]
pub enum TreeWhy {
    /// No node is left for a case.
    Missing,
    /// `PATH_LIMIT` nodes or more are above it.
    TooDeep,
    /// A number of a fact, a state or a variable is out of range.
    BadIndex,
    /// No non-silent move takes the state twice.
    NoTwin,
    /// The fact says nothing of a predicate.
    NotOpen,
    /// The facts aren't refuted.
    NotClosed,
    /// A case has more than `FACT_LIMIT` facts.
    TooManyFacts,
    /// The tree was already closed.
    Rest,
}
