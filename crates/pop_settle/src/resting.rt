//! The net whose moves alone decide whether a crowd has come to its answer.

ghost use Rattle.std.specs.Prelude.{◌≡◌, length, IfOk};
ghost use Rattle.cert_base.specs.StableProof.{IsStableProofWithin};
ghost use Rattle.pop_settle.specs.Resting.{resting_net};

use crate::choosing::chosen_proof;
use crate::hushing::hushed_net;
use cert_base::StableProof;
use pop_io::NoMemory;
use pop_net::Net;
use std::alloc::Global;

/// The net in which each leaf keeps the moves of its chosen layers alone, of a leaf with goals those for its
/// predicate's value at the counts. Its states are those of the given net, so a crowd's words mean the same in both.
pub fn resting_net(
    alloc: Global,
    net: &Net,
    proof: &StableProof,
    counts: &[u64],
) -> Result<Net, NoMemory>
    requires within { IsStableProofWithin (length net.now.variables) (length net.now.leaves) proof.now }
    requires counts { length counts.now ≡ length net.now.variables }
    ensures { IfOk result (λ rest. rest ≡ resting_net net.now proof.now counts.now) }
{
    let chosen = chosen_proof(alloc, proof, counts)?;
    hushed_net(alloc, net, &chosen)
}
