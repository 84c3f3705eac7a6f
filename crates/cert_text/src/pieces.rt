//! The smallest values as JSON text.

ghost use Rattle.std.specs.Prelude.{◌≡◌, ◌++◌, OnOk};
ghost use Rattle.serde_json.specs.Data.{string, boolean};
ghost use Rattle.serde_json.specs.Written.{compact_text};
ghost use Rattle.cert_json.specs.Written.{integer_data};

use itoa::Buffer;
use pop_io::NoMemory;
use serde_json::Value;
use std::alloc::{AllocError, Global};

/// Adds a text as it is.
pub(crate) fn push_text(out: &mut Vec<u8>, text: &[u8]) -> Result<(), AllocError>
    ensures { OnOk result (out.new.items ≡ out.old.items ++ text.now) }
{
    out.extend_from_slice(text)?;
    Ok(())
}

/// Adds a whole number.
pub(crate) fn push_integer(out: &mut Vec<u8>, n: i64) -> Result<(), AllocError>
    ensures { OnOk result (out.new.items ≡ out.old.items ++ compact_text (integer_data n)) }
{
    out.extend_from_slice(Buffer::new().format(n).as_bytes())?;
    Ok(())
}

/// Adds a text in quotes.
pub(crate) fn push_quoted(alloc: Global, out: &mut Vec<u8>, text: &str) -> Result<(), NoMemory>
    ensures { OnOk result (out.new.items ≡ out.old.items ++ compact_text (string text.now)) }
{
    let quoted = Value::try_from_str(alloc, text)?.to_vec(alloc)?;
    out.extend_from_slice(quoted.as_slice())?;
    Ok(())
}

pub(crate) fn push_truth(out: &mut Vec<u8>, truth: bool) -> Result<(), AllocError>
    ensures { OnOk result (out.new.items ≡ out.old.items ++ compact_text (boolean truth)) }
{
    let text = if truth { "true" } else { "false" };
    out.extend_from_slice(text.as_bytes())?;
    Ok(())
}
