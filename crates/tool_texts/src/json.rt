//! The JSON value of a line.

ghost use Rattle.std.specs.Prelude.{option_map, IfOk};
ghost use Rattle.serde_json.specs.View.{view};
ghost use Rattle.tool_texts.specs.Json.{HasValue};

use serde_json::Value;
use std::alloc::{AllocError, Global};

/// The value that a line is, if it is one.
pub fn value_of(alloc: Global, line: &[u8]) -> Result<Option<Value>, AllocError>
    ensures { IfOk result (λ value. HasValue line.now (option_map view value)) }
{
    match Value::from_slice(alloc, line) {
        Ok(value) => Ok(Some(value)),
        Err(fault) => {
            if fault.is_memory() {
                Err(AllocError)
            } else {
                Ok(None)
            }
        }
    }
}
