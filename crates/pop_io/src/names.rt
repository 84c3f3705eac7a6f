//! The forms of names, and names among others.

ghost use Rattle.std.specs.Prelude.{◌≡◌, position};
ghost use Rattle.std.specs.List.{list_all, list_any};
ghost use Rattle.std.specs.Str.{bytes_eq};
ghost use Rattle.pop_io.specs.Names.{variable_name, state_name, starts_name, is_name_start, is_name_byte, is_printed};

use crate::text::Text;

/// The greatest number of bytes in a name.
pub const NAME_LIMIT: usize = 32;

/// The greatest number of variables of a predicate, and of a net's inputs.
pub const VARIABLE_LIMIT: usize = 16;

/// Whether a text can name a variable: 1 to `NAME_LIMIT` letters, digits and `_`, no digit first, and not `mod`.
/// Allocates nothing.
pub fn is_variable_name(name: &str) -> bool
    ensures { result ≡ variable_name name.now }
{
    let bytes = name.as_bytes();
    has_start(bytes) && has_name_bytes(bytes) && bytes.len() <= NAME_LIMIT && name != "mod"
}

/// Whether a text can name a state: 1 to `NAME_LIMIT` printed bytes, no blank and no `/` among them. Allocates nothing.
pub fn is_state_name(name: &str) -> bool
    ensures { result ≡ state_name name.now }
{
    let bytes = name.as_bytes();
    1 <= bytes.len() && has_printed_bytes(bytes) && bytes.len() <= NAME_LIMIT
}

/// The place of the first of these names that is `name`, counted from 0. Allocates nothing.
pub fn place_of(names: &[Text], name: &[u8]) -> Option<usize>
    ensures { result ≡ position (bytes_eq name.now) names.now }
{
    names
        .iter()
        .position(|other| name == other.as_str().as_bytes())
}

/// Whether `name` is one of these names. Allocates nothing.
pub fn is_among(names: &[Text], name: &[u8]) -> bool
    ensures { result ≡ list_any (bytes_eq name.now) names.now }
{
    names.iter().any(|other| name == other.as_str().as_bytes())
}

fn has_start(name: &[u8]) -> bool
    ensures { result ≡ starts_name name.now }
{
    match name {
        [] => false,
        [first, ..] => begins_name(*first),
    }
}

/// Whether a variable's name can begin with this byte: a letter or `_`.
pub fn begins_name(byte: u8) -> bool
    ensures { result ≡ is_name_start byte }
{
    (b'A' <= byte && byte <= b'Z') || (b'a' <= byte && byte <= b'z') || byte == b'_'
}

/// Whether this byte can be part of a variable's name: a letter, `_` or a digit.
pub fn continues_name(byte: u8) -> bool
    ensures { result ≡ is_name_byte byte }
{
    begins_name(byte) || (b'0' <= byte && byte <= b'9')
}

fn has_name_bytes(name: &[u8]) -> bool
    ensures { result ≡ list_all is_name_byte name.now }
{
    name.iter().all(|byte| continues_name(*byte))
}

fn has_printed_bytes(name: &[u8]) -> bool
    ensures { result ≡ list_all is_printed name.now }
{
    name.iter()
        .all(|byte| 33 <= *byte && *byte <= 126 && *byte != b'/')
}
