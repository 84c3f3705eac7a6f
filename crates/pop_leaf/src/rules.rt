//! Which rule a leaf breaks first.

ghost use Rattle.std.specs.Prelude.{◌≡◌, ◌<◌, not, nat_lt, length, IfSome, position};
ghost use Rattle.pop_io.specs.Names.{state_name};
ghost use Rattle.pop_leaf.specs.FirstFault.{is_bad_name, first_bad_name};
ghost use Rattle.pop_leaf.specs.LeafFaults.{fault_of_leaf, is_move_below};

use crate::fault::LeafFault;
use crate::leaf::Move;
use crate::limits::{HELPER_LIMIT, MOVE_LIMIT, STATE_LIMIT};
use pop_io::{Text, VARIABLE_LIMIT, is_among, is_state_name};

pub(crate) fn leaf_fault(
    states: &[Text],
    moves: &[Move],
    inputs: &[u16],
    outputs: &[bool],
    helpers: &[u16],
) -> Option<LeafFault>
    ensures { result
        ≡ fault_of_leaf
        (record {
          states = states.now;
          moves = moves.now;
          inputs = inputs.now;
          outputs = outputs.now;
          helpers = helpers.now;
        }) }
{
    let count = states.len();
    if count < 1 || STATE_LIMIT < count {
        return Some(LeafFault::States(count as u64));
    }
    if let Some(k) = bad_state_name(states) {
        return Some(LeafFault::Name(k as u32));
    }
    if MOVE_LIMIT < moves.len() {
        return Some(LeafFault::Moves(moves.len() as u64));
    }
    if let Some(t) = bad_move(moves, count) {
        return Some(LeafFault::Move(t as u32));
    }
    if inputs.len() < 1 || VARIABLE_LIMIT < inputs.len() {
        return Some(LeafFault::Inputs(inputs.len() as u64));
    }
    if let Some(i) = outside(inputs, count) {
        return Some(LeafFault::Input(i as u32));
    }
    if outputs.len() != count {
        return Some(LeafFault::Outputs(outputs.len() as u64));
    }
    if HELPER_LIMIT < helpers.len() {
        return Some(LeafFault::Helpers(helpers.len() as u64));
    }
    let helper = outside(helpers, count)?;
    Some(LeafFault::Helper(helper as u32))
}

fn bad_state_name(names: &[Text]) -> Option<usize>
    ensures first { result ≡ first_bad_name state_name names.now }
    ensures bound { IfSome result (λ k. k < length names.now) }
{
    (0..names.len()).find(|k| is_bad_state_name(names, *k))
}

fn is_bad_state_name(names: &[Text], k: usize) -> bool
    requires { k < length names.now }
    ensures { result ≡ is_bad_name state_name names.now k }
{
    !is_state_name(names[k].as_str()) || is_among(&names[..k], names[k].as_str().as_bytes())
}

fn bad_move(moves: &[Move], states: usize) -> Option<usize>
    ensures first { result ≡ position (λ t. not (is_move_below states t)) moves.now }
    ensures bound { IfSome result (λ k. k < length moves.now) }
{
    moves.iter().position(|t| !t.is_below(states))
}

/// The place of the first number that no state has.
fn outside(numbers: &[u16], states: usize) -> Option<usize>
    ensures first { result ≡ position (λ q. not (nat_lt q states)) numbers.now }
    ensures bound { IfSome result (λ k. k < length numbers.now) }
{
    numbers.iter().position(|q| !((*q as usize) < states))
}
