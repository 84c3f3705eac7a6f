//! The states that a state can meet.

ghost use Rattle.std.specs.Prelude.{◌<◌, length, IfOk};
ghost use Rattle.cert_traps.specs.Partners.{ArePartners};

use cert_base::can_meet;
use pop_io::NoMemory;
use pop_leaf::Leaf;
use std::alloc::Global;

/// For each state, whether a non-silent move takes it together with this state.
pub(crate) fn partners(alloc: Global, leaf: &Leaf, state: u16) -> Result<Vec<bool>, NoMemory>
    requires { state < length leaf.now.states }
    ensures { IfOk result (λ table. ArePartners leaf.now state table.items) }
{
    let mut table = Vec::new(alloc);
    for q in 0..leaf.state_count() {
        table.push(can_meet(leaf, state, q))?;
    }
    Ok(table)
}
