//! Reading a net from a JSON value.

ghost use Rattle.std.specs.Prelude.{◌≡◌, [], codes, IfErr, IfOk, None};
ghost use Rattle.serde_json.specs.View.{view};
ghost use Rattle.base_json.specs.Faults.{GivesRead};
ghost use Rattle.base_json.specs.Paths.{path_text};
ghost use Rattle.base_json.specs.Shapes.{member_by, number_at};
ghost use Rattle.pop_leaf.specs.NetModel.{IsNet, NetModel};
ghost use Rattle.pop_net.specs.NetFaults.{first_wide_leaf};
ghost use Rattle.net_json.specs.Examined.{fitting_net, net_at};
ghost use Rattle.net_json.specs.Kept.{IsBroken};
ghost use Rattle.net_json.specs.NetFile.{IsNetFile};

use crate::combine::combine_of;
use crate::format::{HELPER_FORMAT, PLAIN_FORMAT};
use crate::leaves::leaves_of;
use crate::names::{NameForm, names_of};
use base_json::{FormatFault, Path, Why, broken, member_of, number_of, object_of};
use pop_io::{List, Text, VARIABLE_LIMIT};
use pop_net::{Item, Leaf, Net, wide_leaf};
use serde_json::Value;
use std::alloc::Global;

/// The member `format`: the number of one of the formats.
fn format_of(alloc: Global, path: &Path<'_>, value: &Value) -> Result<u32, FormatFault>
    ensures { GivesRead (λ n. n) result
        (member_by (path_text path.now) (codes "format") (λ p. number_at p PLAIN_FORMAT HELPER_FORMAT)
        (view value.now)) }
{
    let format = member_of(alloc, path, "format", value)?;
    let path = Path::Member(path, "format");
    let format = number_of(alloc, &path, PLAIN_FORMAT, HELPER_FORMAT, format)?;
    Ok(format)
}

/// The net of these parts, unless there are too many leaves beside a wide one.
fn fitting(
    alloc: Global,
    path: &Path<'_>,
    vars: List<Text>,
    leaves: List<Leaf>,
    combine: List<Item>,
) -> Result<Net, FormatFault>
    requires { first_wide_leaf leaves ≡ None
        → IsNet (record { variables = vars; leaves = leaves; combine = combine }) }
    ensures { GivesRead (λ net. net) result
        (fitting_net (path_text path.now) (first_wide_leaf leaves)
        (record { variables = vars; leaves = leaves; combine = combine })) }
{
    let leaves_path = Path::Member(path, "leaves");
    match wide_leaf(leaves.as_slice()) {
        Some(i) => Err(broken(alloc, &Path::Item(&leaves_path, i), Why::Shape)),
        None => Ok(Net::of_valid(vars, leaves, combine)),
    }
}

/// `read_net` for a file inside another value: paths begin with this one.
#[tactic(auto, unfolding(crate::specs::Examined::net_at))]
pub fn read_net_at(alloc: Global, path: &Path<'_>, value: &Value) -> Result<Net, FormatFault>
    ensures { GivesRead (λ net. net) result (net_at (path_text path.now) (view value.now)) }
{
    object_of(alloc, path, value)?;
    let format = format_of(alloc, path, value)?;
    let vars = names_of(
        alloc,
        path,
        "vars",
        NameForm::Variable,
        VARIABLE_LIMIT,
        value,
    )?;
    let variables = vars.as_slice().len();
    let leaves = leaves_of(alloc, path, format, variables, value)?;
    let count = leaves.as_slice().len();
    let combine = combine_of(alloc, path, count as u8, value)?;
    fitting(alloc, path, vars, leaves, combine)
}

/// The net of a file, or the first rule that the file breaks, with its path from the file's root.
///
/// Members are examined in the order `format`, `vars`, `leaves`, `combine`; of a leaf `states`, `moves`, `input`,
/// `output`, and in format 2 `helpers`. Each is examined fully before the next is looked for. Other members are
/// ignored. At the end it is checked whether there are too many leaves for a wide one.
pub fn read_net(alloc: Global, value: &Value) -> Result<Net, FormatFault>
    ensures exact { GivesRead (λ net. net) result (net_at [] (view value.now)) }

    // Exactly the files of nets are read, each as its net.
    ensures file { IfOk result (λ net. IsNetFile net (view value.now)) }
    ensures no_file { IfErr result (λ fault. IsBroken fault → (net : NetModel) → IsNetFile net (view value.now) → ⊥) }
{
    read_net_at(alloc, &Path::Root, value)
}
