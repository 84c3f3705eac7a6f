//! The parts of a leaf's object.

ghost use Rattle.std.specs.Prelude.{◌-◌, ◌≤◌, codes};
ghost use Rattle.serde_json.specs.View.{view};
ghost use Rattle.base_json.specs.Faults.{GivesRead};
ghost use Rattle.base_json.specs.Paths.{path_text};
ghost use Rattle.base_json.specs.Shapes.{member_by, number_at};
ghost use Rattle.net_json.specs.Examined.{move_at, leaf_moves_at, leaf_states_at, outputs_at};

use base_json::{FormatFault, Path, ReadItem, Why, broken, each_in, number_of, truth_of};
use pop_io::List;
use pop_net::{MOVE_LIMIT, Move, STATE_LIMIT};
use serde_json::Value;
use std::alloc::Global;

/// The number of one of `states` states, which are 1 to `STATE_LIMIT`.
fn state_of(
    alloc: Global,
    path: &Path<'_>,
    states: usize,
    value: &Value,
) -> Result<u16, FormatFault>
    requires { (1 ≤ states) × (states ≤ STATE_LIMIT) }
    ensures { GivesRead (λ q. q) result (number_at (path_text path.now) 0 (states - 1) (view value.now)) }
{
    let number = number_of(alloc, path, 0, states as u32 - 1, value)?;
    Ok(number as u16)
}

#[tactic(auto, unfolding(crate::specs::Examined::move_at))]
fn move_of(
    alloc: Global,
    path: &Path<'_>,
    states: usize,
    value: &Value,
) -> Result<Move, FormatFault>
    requires { (1 ≤ states) × (states ≤ STATE_LIMIT) }
    ensures { GivesRead (λ t. t) result (move_at (path_text path.now) states (view value.now)) }
{
    let Some(list) = value.as_array() else {
        return Err(broken(alloc, path, Why::Kind));
    };
    let [p, q, r, s] = list.as_slice() else {
        return Err(broken(alloc, path, Why::Kind));
    };
    let p = state_of(alloc, &Path::Item(path, 0), states, p)?;
    let q = state_of(alloc, &Path::Item(path, 1), states, q)?;
    let r = state_of(alloc, &Path::Item(path, 2), states, r)?;
    let s = state_of(alloc, &Path::Item(path, 3), states, s)?;
    Ok(Move { p, q, r, s })
}

/// Moves of a leaf with so many states.
#[derive(Clone, Copy)]
struct Moves {
    states: usize,
}

impl ReadItem for Moves {
    ghost use Rattle.std.specs.Prelude.{◌≤◌};
    ghost use Rattle.pop_leaf.specs.declared.limits.TheConstants.{STATE_LIMIT};
    ghost use Rattle.net_json.specs.Examined.{move_item};

    type Item = Move;

    ghost can_read = { λ reader. (1 ≤ reader.states) × (reader.states ≤ STATE_LIMIT) };

    ghost item_at = { λ reader. move_item reader.states };

    fn read(
        &self,
        alloc: Global,
        path: &Path<'_>,
        _found: &[Move],
        value: &Value,
    ) -> Result<Move, FormatFault> {
        move_of(alloc, path, self.states, value)
    }
}

/// The member `moves`: at most `MOVE_LIMIT` moves of a leaf with so many states.
pub(crate) fn moves_of(
    alloc: Global,
    path: &Path<'_>,
    states: usize,
    value: &Value,
) -> Result<List<Move>, FormatFault>
    requires { (1 ≤ states) × (states ≤ STATE_LIMIT) }
    ensures { GivesRead (λ ts. ts) result
        (member_by (path_text path.now) (codes "moves") (leaf_moves_at states) (view value.now)) }
{
    let reader = Moves { states };
    each_in(alloc, path, "moves", 0, MOVE_LIMIT, &reader, value)
}

/// Numbers of states of a leaf with so many.
#[derive(Clone, Copy)]
struct States {
    states: usize,
}

impl ReadItem for States {
    ghost use Rattle.std.specs.Prelude.{◌≤◌};
    ghost use Rattle.pop_leaf.specs.declared.limits.TheConstants.{STATE_LIMIT};
    ghost use Rattle.net_json.specs.Examined.{leaf_state_item};

    type Item = u16;

    ghost can_read = { λ reader. (1 ≤ reader.states) × (reader.states ≤ STATE_LIMIT) };

    ghost item_at = { λ reader. leaf_state_item reader.states };

    fn read(
        &self,
        alloc: Global,
        path: &Path<'_>,
        _found: &[u16],
        value: &Value,
    ) -> Result<u16, FormatFault> {
        state_of(alloc, path, self.states, value)
    }
}

/// A member by its name: from `least` to `most` numbers of states.
pub(crate) fn states_of(
    alloc: Global,
    path: &Path<'_>,
    member: &str,
    least: usize,
    most: usize,
    states: usize,
    value: &Value,
) -> Result<List<u16>, FormatFault>
    requires { (1 ≤ states) × (states ≤ STATE_LIMIT) }
    ensures { GivesRead (λ qs. qs) result
        (member_by (path_text path.now) member.now (leaf_states_at least most states) (view value.now)) }
{
    let reader = States { states };
    each_in(alloc, path, member, least, most, &reader, value)
}

/// Outputs of states.
#[derive(Clone, Copy)]
struct Outputs;

impl ReadItem for Outputs {
    ghost use Rattle.std.specs.Prelude.{⊤};
    ghost use Rattle.net_json.specs.Examined.{truth_item};

    type Item = bool;

    ghost can_read = { λ _. ⊤ };

    ghost item_at = { λ _. truth_item };

    fn read(
        &self,
        alloc: Global,
        path: &Path<'_>,
        _found: &[bool],
        value: &Value,
    ) -> Result<bool, FormatFault> {
        truth_of(alloc, path, value)
    }
}

/// The member `output`: one output per state.
pub(crate) fn outputs_of(
    alloc: Global,
    path: &Path<'_>,
    states: usize,
    value: &Value,
) -> Result<List<bool>, FormatFault>
    ensures { GivesRead (λ bs. bs) result
        (member_by (path_text path.now) (codes "output") (outputs_at states) (view value.now)) }
{
    each_in(alloc, path, "output", states, states, &Outputs, value)
}
