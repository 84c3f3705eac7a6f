//! The combination of a net.

ghost use Rattle.std.specs.Prelude.{◌≡◌, ◌≤◌, codes, true, Some, IfOk};
ghost use Rattle.serde_json.specs.Find.{as_str};
ghost use Rattle.serde_json.specs.View.{view};
ghost use Rattle.base_json.specs.Faults.{GivesRead};
ghost use Rattle.base_json.specs.Paths.{path_text};
ghost use Rattle.base_json.specs.Shapes.{member_by};
ghost use Rattle.pop_net.specs.NetFaults.{names_below, operands_left};
ghost use Rattle.net_json.specs.Examined.{operand_at, combine_items_at, combine_at};

use base_json::{FormatFault, Path, Why, broken, list_of, member_of, number_of};
use pop_io::List;
use pop_net::{ITEM_LIMIT, Item, OpenTrees};
use serde_json::Value;
use std::alloc::Global;

/// An operator's word, or the number of one of the leaves.
fn operand_of(
    alloc: Global,
    path: &Path<'_>,
    leaves: u8,
    value: &Value,
) -> Result<Item, FormatFault>
    requires { 1 ≤ leaves }
    ensures operand { GivesRead (λ x. x) result
        (operand_at (path_text path.now) leaves (view value.now) (as_str (view value.now))) }
    ensures below { IfOk result (λ item. names_below leaves item ≡ true) }
{
    match value.as_str() {
        Some("not") => Ok(Item::Not),
        Some("and") => Ok(Item::And),
        Some("or") => Ok(Item::Or),
        Some(_) => Err(broken(alloc, path, Why::Name)),
        None => {
            let leaf = number_of(alloc, path, 0, u32::from(leaves) - 1, value)?;
            Ok(Item::Leaf(leaf as u8))
        }
    }
}

/// The items, and how many trees they leave open.
#[tactic(auto, unfolding(crate::specs::Examined::combine_items_at))]
fn items_of(
    alloc: Global,
    path: &Path<'_>,
    leaves: u8,
    value: &Value,
) -> Result<(List<Item>, usize), FormatFault>
    requires { 1 ≤ leaves }
    ensures items { GivesRead (λ r. r.0) result (combine_items_at leaves (path_text path.now) (view value.now)) }
    ensures open { IfOk result (λ r. r.1 ≡ operands_left r.0) }
{
    let list = list_of(alloc, path, 1, ITEM_LIMIT, value)?;
    let mut items = Vec::new(alloc);
    let mut trees = OpenTrees::new();
    for (i, item) in list.iter().enumerate() {
        let operand = operand_of(alloc, &Path::Item(&*path, i), leaves, item)?;
        if !trees.put(leaves, operand) {
            return Err(broken(alloc, &Path::Item(&*path, i), Why::Shape));
        }
        items.push(operand)?;
    }
    Ok((List::from_vec(items), trees.count()))
}

/// The member `combine`: the combination of so many leaves.
#[tactic(auto, unfolding(crate::specs::Examined::combine_at))]
pub(crate) fn combine_of(
    alloc: Global,
    path: &Path<'_>,
    leaves: u8,
    value: &Value,
) -> Result<List<Item>, FormatFault>
    requires { 1 ≤ leaves }
    ensures { GivesRead (λ xs. xs) result
        (member_by (path_text path.now) (codes "combine") (combine_at leaves) (view value.now)) }
{
    let combine = member_of(alloc, path, "combine", value)?;
    let path = Path::Member(path, "combine");
    let (items, open) = items_of(alloc, &path, leaves, combine)?;
    if open != 1 {
        return Err(broken(alloc, &path, Why::Shape));
    }
    Ok(items)
}
