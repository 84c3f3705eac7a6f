//! The leaves of a net.

ghost use Rattle.std.specs.Prelude.{◌≡◌, ◌≤◌, codes, length, IfOk};
ghost use Rattle.serde_json.specs.View.{view};
ghost use Rattle.base_json.specs.Faults.{GivesRead};
ghost use Rattle.base_json.specs.Paths.{path_text};
ghost use Rattle.base_json.specs.Shapes.{member_by};
ghost use Rattle.net_json.specs.Examined.{helpers_allowed, helpers_at, leaf_at, leaves_at};
ghost use Rattle.net_json.specs.HelperRange.{IsHelperRange};

use crate::format::PLAIN_FORMAT;
use crate::leaf::{moves_of, outputs_of, states_of};
use crate::names::{NameForm, names_of};
use base_json::{FormatFault, Path, ReadItem, each_in, object_of};
use pop_io::{List, VARIABLE_LIMIT};
use pop_net::{HELPER_LIMIT, LEAF_LIMIT, Leaf, STATE_LIMIT};
use serde_json::Value;
use std::alloc::Global;

/// How many helpers the next leaf may have, from the first number to the second: in the plain format none.
fn helper_range(format: u32, found: &[Leaf]) -> Option<(usize, usize)>
    ensures allowed { result ≡ helpers_allowed format found.now }
    ensures within { IsHelperRange result }
{
    if format == PLAIN_FORMAT {
        return None;
    }
    match found {
        [] => Some((0, HELPER_LIMIT)),
        [first, ..] => {
            let _formed = first.state_count();
            let count = first.helper_count() as usize;
            Some((count, count))
        }
    }
}

/// The helpers of a leaf, if its format has some.
fn helpers_of(
    alloc: Global,
    path: &Path<'_>,
    range: Option<(usize, usize)>,
    states: usize,
    value: &Value,
) -> Result<List<u16>, FormatFault>
    requires { (1 ≤ states) × (states ≤ STATE_LIMIT) }
    ensures { GivesRead (λ qs. qs) result (helpers_at range states (path_text path.now) (view value.now)) }
{
    match range {
        None => Ok(List::from_vec(Vec::new(alloc))),
        Some((least, most)) => states_of(alloc, path, "helpers", least, most, states, value),
    }
}

#[tactic(auto, unfolding(crate::specs::Examined::leaf_at))]
fn leaf_of(
    alloc: Global,
    path: &Path<'_>,
    range: Option<(usize, usize)>,
    variables: usize,
    value: &Value,
) -> Result<Leaf, FormatFault>
    requires variables { (1 ≤ variables) × (variables ≤ VARIABLE_LIMIT) }
    requires range { IsHelperRange range }
    ensures { GivesRead (λ leaf. leaf) result (leaf_at range variables (path_text path.now) (view value.now)) }
{
    object_of(alloc, path, value)?;
    let states = names_of(alloc, path, "states", NameForm::State, STATE_LIMIT, value)?;
    let count = states.as_slice().len();
    let moves = moves_of(alloc, path, count, value)?;
    let inputs = states_of(alloc, path, "input", variables, variables, count, value)?;
    let outputs = outputs_of(alloc, path, count, value)?;
    let helpers = helpers_of(alloc, path, range, count, value)?;
    let leaf = Leaf::of_valid(alloc, states, moves, inputs, outputs, helpers)?;
    Ok(leaf)
}

/// Leaves with so many inputs, of this format.
#[derive(Clone, Copy)]
struct Leaves {
    format: u32,
    variables: usize,
}

impl ReadItem for Leaves {
    ghost use Rattle.std.specs.Prelude.{◌≤◌};
    ghost use Rattle.pop_io.specs.declared.names.TheConstants.{VARIABLE_LIMIT};
    ghost use Rattle.net_json.specs.Examined.{leaf_item};

    type Item = Leaf;

    ghost can_read = { λ reader. (1 ≤ reader.variables) × (reader.variables ≤ VARIABLE_LIMIT) };

    ghost item_at = { λ reader. leaf_item reader.format reader.variables };

    fn read(
        &self,
        alloc: Global,
        path: &Path<'_>,
        found: &[Leaf],
        value: &Value,
    ) -> Result<Leaf, FormatFault> {
        let range = helper_range(self.format, found);
        leaf_of(alloc, path, range, self.variables, value)
    }
}

/// The member `leaves`: 1 to `LEAF_LIMIT` leaves with so many inputs, of this format.
pub(crate) fn leaves_of(
    alloc: Global,
    path: &Path<'_>,
    format: u32,
    variables: usize,
    value: &Value,
) -> Result<List<Leaf>, FormatFault>
    requires { (1 ≤ variables) × (variables ≤ VARIABLE_LIMIT) }
    ensures leaves { GivesRead (λ ls. ls) result
        (member_by (path_text path.now) (codes "leaves") (leaves_at format variables) (view value.now)) }
    ensures count { IfOk result (λ ls. (1 ≤ length ls) × (length ls ≤ LEAF_LIMIT)) }
{
    let reader = Leaves { format, variables };
    each_in(alloc, path, "leaves", 1, LEAF_LIMIT, &reader, value)
}
