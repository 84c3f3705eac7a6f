//! What moves do to a set of states.

ghost use Rattle.std.specs.Prelude.{◌≡◌, map, IfOk};
ghost use Rattle.pop_leaf.specs.LeafModel.{IsLeaf, IsMoveBelow};
ghost use Rattle.cert_traps.specs.Roles.{passes_role};

use crate::set::StateSet;
use pop_io::NoMemory;
use pop_leaf::{Leaf, Move, STATE_LIMIT};
use std::alloc::Global;

#[derive(Clone, Copy)]
pub(crate) enum Role {
    /// It takes from the set.
    Takes,
    /// It puts into the set.
    Puts,
    /// It takes from the set and doesn't put into it.
    Leaves,
    /// It puts into the set and doesn't take from it.
    Enters,
    /// It takes from the set or puts into it.
    Touches,
}

/// For each move whether it has the role.
pub(crate) fn move_flags(
    alloc: Global,
    leaf: &Leaf,
    set: &StateSet,
    role: Role,
) -> Result<Vec<bool>, NoMemory>
    requires { IsLeaf leaf.now }
    ensures { IfOk result (λ flags. flags.items ≡ map (passes_role set.now role) leaf.now.moves) }
{
    let mut flags = Vec::new(alloc);
    for t in 0..leaf.move_count() {
        flags.push(passes(set, leaf.move_at(t), role))?;
    }
    Ok(flags)
}

/// Whether a move has the role.
pub(crate) fn passes(set: &StateSet, taken: Move, role: Role) -> bool
    requires { IsMoveBelow STATE_LIMIT taken }
    ensures { result ≡ passes_role set.now role taken }
{
    let takes = set.contains(taken.p) || set.contains(taken.q);
    let puts = set.contains(taken.r) || set.contains(taken.s);
    match role {
        Role::Takes => takes,
        Role::Puts => puts,
        Role::Leaves => takes && !puts,
        Role::Enters => puts && !takes,
        Role::Touches => takes || puts,
    }
}
