//! A list, item by item.

ghost use Rattle.std.specs.Prelude.{◌≤◌, length, IfOk};
ghost use Rattle.serde_json.specs.View.{view};
ghost use Rattle.base_json.specs.Faults.{GivesRead};
ghost use Rattle.base_json.specs.Paths.{path_text};
ghost use Rattle.base_json.specs.Shapes.{each_at, member_by};

use crate::fault::FormatFault;
use crate::path::Path;
use crate::shape::{list_of, member_of};
use pop_io::List;
use serde_json::Value;
use std::alloc::Global;

/// A reader of the items of a list.
pub trait ReadItem {
    ghost use Rattle.std.specs.Prelude.{ℕ, List as Items, Result};
    ghost use Rattle.serde_json.specs.Data.{Data};
    ghost use Rattle.base_json.specs.Faults.{Fault};

    /// What an item is read as.
    type Item: Drop;

    // when the reader may be used
    ghost can_read: { Self → Type 0 };

    // what an item gives at its path, after those before it
    ghost item_at: { Self → Items ℕ → Items Self.Item → Data → Result Self.Item Fault };

    /// The item at this path, after those that were `found` before it.
    fn read(
        &self,
        alloc: Global,
        path: &Path<'_>,
        found: &[Self::Item],
        value: &Value,
    ) -> Result<Self::Item, FormatFault>
        requires { can_read self.now }
        ensures { GivesRead (λ x. x) result (item_at self.now (path_text path.now) found.now (view value.now)) };
}

/// The items of a list of `least` to `most`, one after the other.
#[tactic(auto, unfolding(crate::specs::Shapes::each_at))]
pub fn each_of<R: ReadItem>(
    alloc: Global,
    path: &Path<'_>,
    least: usize,
    most: usize,
    reader: &R,
    value: &Value,
) -> Result<List<R::Item>, FormatFault>
    requires { R.can_read reader.now }
    ensures items { GivesRead (λ xs. xs) result
        (each_at (R.item_at reader.now) (path_text path.now) least most (view value.now)) }
    ensures count { IfOk result (λ xs. (least ≤ length xs) × (length xs ≤ most)) }
{
    let list = list_of(alloc, path, least, most, value)?;
    let mut items = Vec::new(alloc);
    for (i, item) in list.iter().enumerate() {
        let read = reader.read(alloc, &Path::Item(&*path, i), &items, item)?;
        items.push(read)?;
    }
    Ok(List::from_vec(items))
}

/// The items of a member, a list of `least` to `most`, one after the other.
pub fn each_in<R: ReadItem>(
    alloc: Global,
    path: &Path<'_>,
    member: &str,
    least: usize,
    most: usize,
    reader: &R,
    value: &Value,
) -> Result<List<R::Item>, FormatFault>
    requires { R.can_read reader.now }
    ensures items { GivesRead (λ xs. xs) result (member_by (path_text path.now) member.now
        (λ p. each_at (R.item_at reader.now) p least most) (view value.now)) }
    ensures count { IfOk result (λ xs. (least ≤ length xs) × (length xs ≤ most)) }
{
    let list = member_of(alloc, path, member, value)?;
    each_of(
        alloc,
        &Path::Member(path, member),
        least,
        most,
        reader,
        list,
    )
}
