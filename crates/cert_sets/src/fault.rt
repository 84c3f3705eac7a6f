//! Why sets are not good.

/// The first set that fails, by its place, and why: first outputs, then moves that lead out, then waking.
#[derive(Clone, Copy, PartialEq, Eq)]
pub enum SetFault {
    /// The first state of the set that has another output than the goal's value, or that no state is.
    Output {
        set: u32,
        state: u16,
    },
    /// The least move that leads out of the set and is in no layer, where the set isn't settled.
    Leaves {
        set: u32,
        move_number: u32,
    },
    /// The least move between two agents of the set that wakes one that leads out, and the least such move, where all
    /// that lead out are in layers and the set isn't settled.
    Wakes {
        set: u32,
        move_number: u32,
        woken: u32,
    },
}
