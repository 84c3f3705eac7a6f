//! Numbers printed in decimal digits.

ghost use Rattle.std.specs.Prelude.{◌≡◌, ◌++◌, decimal, Some, OnOk, OnErr};
ghost use Rattle.base_lines.specs.Numbers.{printed_number_of};

use itoa::Buffer;
use std::alloc::AllocError;

/// Adds the number in decimal digits.
pub fn push_number(out: &mut Vec<u8>, n: u64) -> Result<(), AllocError>
    ensures ok { OnOk result (out.new.items ≡ out.old.items ++ decimal n) }
    ensures err { OnErr result (out.new.items ≡ out.old.items) }
    // What is printed can be read back.
    ensures read_back { printed_number_of (decimal n) ≡ Some n }
{
    out.extend_from_slice(Buffer::new().format(n).as_bytes())
}

/// Adds a text, and a number in decimal digits.
pub fn push_field(text: &mut Vec<u8>, name: &str, number: u64) -> Result<(), AllocError>
    ensures { OnOk result (text.new.items ≡ text.old.items ++ (name.now ++ decimal number)) }
{
    text.extend_from_slice(name.as_bytes())?;
    push_number(text, number)
}
