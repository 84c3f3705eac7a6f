//! A list as JSON text, item by item.

ghost use Rattle.std.specs.Prelude.{◌≡◌, ◌++◌, OnOk};
ghost use Rattle.serde_json.specs.Written.{compact_text, comma_if};
ghost use Rattle.net_json.specs.Written.{list_data};

use pop_io::NoMemory;
use std::alloc::{AllocError, Global};

/// The items of a list, each of which is written by its place.
pub(crate) trait WriteItems {
    ghost use Rattle.std.specs.Prelude.{◌≡◌, ◌<◌, ◌++◌, List as Items, length, OnOk, slice_index_or};
    ghost use Rattle.serde_json.specs.Data.{Data, null};
    ghost use Rattle.serde_json.specs.Written.{compact_text};

    // when they may be written
    ghost can_write: { Self → Type 0 };

    // the items as JSON data
    ghost items: { Self → Items Data };

    /// How many items there are.
    fn count(&self) -> usize
        ensures { result ≡ length (items self.now) };

    /// Adds the text of an item.
    fn write(&self, alloc: Global, out: &mut Vec<u8>, i: usize) -> Result<(), NoMemory>
        requires can { can_write self.now }
        requires within { i < length (items self.now) }
        ensures { OnOk result (out.new.items
            ≡ out.old.items ++ compact_text (slice_index_or (items self.now) i null)) };
}

/// Adds a comma, if this item is a later one.
fn push_comma(out: &mut Vec<u8>, later: bool) -> Result<(), AllocError>
    ensures { OnOk result (out.new.items ≡ out.old.items ++ comma_if later) }
{
    if later {
        out.push(b',')?;
    }
    Ok(())
}

pub(crate) fn write_list<L: WriteItems>(
    alloc: Global,
    out: &mut Vec<u8>,
    list: &L,
) -> Result<(), NoMemory>
    requires { L.can_write list.now }
    ensures { OnOk result (out.new.items ≡ out.old.items ++ compact_text (list_data (L.items list.now))) }
{
    out.push(b'[')?;
    'items: for i in 0..list.count() {
        push_comma(out, 0 < i)?;
        list.write(alloc, out, i)?;
    }
    out.push(b']')?;
    Ok(())
}
