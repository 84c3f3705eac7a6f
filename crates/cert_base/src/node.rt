//! A node of a proof's tree.

use crate::fact::{Row, Term};
use pop_io::List;

/// A list of nodes is a tree in preorder: a node that distinguishes cases is followed by one tree for each case
/// (the state equation, traps and siphons of Blondin, Esparza, Jaax, Meyer 2017).
#[derive(Drop)]
pub enum Node {
    /// The sum of the named facts, each times its multiplier, is below 0.
    Linear(List<Term>),
    /// The sum is a multiple of the modulus by its facts, and is none by its constant or by another fact.
    Residue(u32, List<Term>),
    /// The row is above 0, is 0, or is below 0.
    Split(Row),
    /// The state is absent at the end, or it occurs and no state does that it could meet.
    Present(u16),
    /// The state, which can meet itself, occurs at most once.
    Twin(u16),
    /// The states are no trap, were never marked, or are marked at the end.
    Trap(List<u16>),
    /// The states are no siphon, were marked at the start, or were never marked.
    Siphon(List<u16>),
    /// What the fact with this number says of a predicate's parts.
    Open(u32),
    /// A move enters the states, which nobody was in before; or somebody started in them; or nobody was ever in them.
    First(List<u16>),
}
