//! The states that one state's presence rules out.

ghost use Rattle.std.specs.Prelude.{◌≡◌, ◌<◌, ◌++◌, ◌∷◌, ◌==◌, ◌&&◌, not, [], length, All, if◌then◌else◌, IfOk, OnOk};
ghost use Rattle.cert_base.specs.FactsAndCases.{can_meet_in};
ghost use Rattle.comp_trees.specs.LeaderTree.{company_of};

use cert_base::can_meet;
use pop_io::NoMemory;
use pop_leaf::Leaf;
use std::alloc::Global;

/// The other states that can meet this one, in ascending order.
pub fn company(alloc: Global, leaf: &Leaf, state: u16) -> Result<Vec<u16>, NoMemory>
    requires { state < length leaf.now.states }
    ensures states { IfOk result (λ states. states.items ≡ company_of leaf.now state) }
    ensures below { IfOk result (λ states. All (λ q. q < length leaf.now.states) states.items) }
{
    let mut states = Vec::new(alloc);
    for q in 0..leaf.state_count() {
        let passes = is_other(leaf, state, q);
        push_if(&mut states, q, passes)?;
    }
    Ok(states)
}

/// Whether `q` is another state that can be met.
fn is_other(leaf: &Leaf, state: u16, q: u16) -> bool
    requires state { state < length leaf.now.states }
    requires other { q < length leaf.now.states }
    ensures { result ≡ (not (q == state) && can_meet_in leaf.now state q) }
{
    q != state && can_meet(leaf, state, q)
}

fn push_if(states: &mut Vec<u16>, state: u16, passes: bool) -> Result<(), NoMemory>
    ensures { OnOk result (states.new.items ≡ states.old.items ++ (if passes then (state ∷ []) else [])) }
{
    if passes {
        states.push(state)?;
    }
    Ok(())
}
