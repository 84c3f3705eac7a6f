//! How many takes a proof allows.

ghost use Rattle.std.specs.Prelude.{◌≡◌, ◌*◌, ◌≤◌, length};
ghost use Rattle.pop_leaf.specs.declared.limits.TheConstants.{LEAF_LIMIT as MOST_LEAVES};
ghost use Rattle.pop_crowd.specs.declared.limits.TheConstants.{AGENT_LIMIT as MOST_AGENTS};
ghost use Rattle.cert_base.specs.ProofBound.{proof_bound};
ghost use Rattle.pop_settle.specs.Settling.{AreFewLayers};

use cert_base::Proof;
use cert_layers::bound_of;

/// The bound of all leaves, times the number of agents.
pub(crate) fn most_takes(proof: &Proof, agents: u32) -> u128
    requires leaves { length proof.now.leaves ≤ MOST_LEAVES }
    requires layers { AreFewLayers proof.now }
    requires agents { agents ≤ MOST_AGENTS }
    ensures { result ≡ proof_bound proof.now * agents }
{
    let mut bound = 0;
    for part in proof.leaves.as_slice() {
        bound += bound_of(part.layers.as_slice());
    }
    u128::from(bound) * u128::from(agents)
}
