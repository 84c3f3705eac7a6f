//! Settling by goals.

ghost use Rattle.pop_net.specs.Lanes.{AreValid};
ghost use Rattle.pop_settle.specs.SettlesGoals.{CanSettle, SettlesGoals};

use crate::choosing::chosen_proof;
use crate::fault::SettleFault;
use crate::hushing::hushed_net;
use crate::settling::settle;
use crate::take::Settled;
use cert_base::StableProof;
use pop_crowd::Crowd;
use pop_io::Failure;
use pop_net::Net;
use std::alloc::Global;

/// Takes the moves of each leaf's layers, of a leaf with goals those for its predicate's value at the counts, until
/// none can be taken.
pub fn settle_goals(
    alloc: Global,
    net: &Net,
    proof: &StableProof,
    counts: &[u64],
    crowd: Crowd,
) -> Result<Settled, Failure<SettleFault>>
    requires proof { CanSettle net.now proof.now counts.now }
    requires crowd { AreValid net.now crowd }
    ensures { SettlesGoals net.now proof.now counts.now crowd result }
{
    // What the invariant says is known from here on.
    let _formed = net.leaf_count();
    let chosen = chosen_proof(alloc, proof, counts)?;
    let hushed = hushed_net(alloc, net, &chosen)?;
    settle(alloc, &hushed, &chosen, crowd)
}
