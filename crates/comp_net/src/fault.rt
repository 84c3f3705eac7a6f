//! Why a predicate is not compiled.

/// The first reason.
#[derive(Clone, Copy, PartialEq, Eq)]
pub enum CompileFault {
    /// It has this many atoms, more than a net may have leaves.
    ManyAtoms(u32),
    /// No range suffices for the numbers of the atom.
    NoRange(u32),
    /// The atom has the width `s`, too much for a leaf.
    TooWide { atom: u32, s: u64 },
    /// The atom's succinct leaf would have this many states, more than a leaf may have.
    ManyStates { atom: u32, states: u64 },
    /// The atom makes a wide leaf, and there are too many atoms for one.
    WideNet(u32),
}
