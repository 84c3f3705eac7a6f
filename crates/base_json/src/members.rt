//! Members of an object that is written.

ghost use Rattle.std.specs.Prelude.{◌≡◌, IsOkAnd, OnOk};
ghost use Rattle.serde_json.specs.Data.{put as with_member};
ghost use Rattle.serde_json.specs.View.{view, members_view};

use serde_json::{Map, Value, put};
use std::alloc::{AllocError, Global};

/// Adds a member, unless its value could not be made.
pub fn put_made(
    members: &mut Map<String, Value>,
    alloc: Global,
    name: &str,
    value: Result<Value, AllocError>,
) -> Result<(), AllocError>
    ensures { OnOk result (IsOkAnd value (λ v. members_view members.new.entries
        ≡ with_member name.now (view v) (members_view members.old.entries))) }
{
    put(members, alloc, name, value?)
}
