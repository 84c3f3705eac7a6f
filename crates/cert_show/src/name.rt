//! Names as a `.pop` file has them.

ghost use Rattle.std.specs.Prelude.{◌≡◌, ◌++◌, OnOk, codes, map};
ghost use Rattle.std.specs.List.{concat, list_all};
ghost use Rattle.cert_show.specs.Lines.{is_plain_byte, is_plain, escape, quoted};

use pop_io::continues_name;
use std::alloc::AllocError;

fn is_plain_byte(byte: u8) -> bool
    ensures { result ≡ is_plain_byte byte }
{
    continues_name(byte)
        || byte == b'\''
        || byte == b'.'
        || byte == b'^'
        || byte == b'~'
        || byte == b'@'
        || byte == b'$'
        || byte == b'%'
        || byte == b'-'
}

fn has_plain_bytes(name: &[u8]) -> bool
    ensures { result ≡ list_all is_plain_byte name.now }
{
    name.iter().all(|byte| is_plain_byte(*byte))
}

fn is_plain(name: &[u8]) -> bool
    ensures { result ≡ is_plain name.now }
{
    match name {
        [] => false,
        [first, ..] => *first != b'-' && has_plain_bytes(name),
    }
}

fn push_byte(out: &mut Vec<u8>, byte: u8) -> Result<(), AllocError>
    ensures { OnOk result (out.new.items ≡ out.old.items ++ escape byte) }
{
    if byte == b'"' || byte == b'\\' {
        out.extend_from_slice(&[b'\\', byte])
    } else {
        out.extend_from_slice(&[byte])
    }
}

fn push_bytes(out: &mut Vec<u8>, bytes: &[u8]) -> Result<(), AllocError>
    ensures { OnOk result (out.new.items ≡ out.old.items ++ concat (map escape bytes.now)) }
{
    for byte in bytes {
        push_byte(out, *byte)?;
    }
    Ok(())
}

fn push_in_quotes(out: &mut Vec<u8>, name: &[u8]) -> Result<(), AllocError>
    ensures { OnOk result
        (out.new.items ≡ out.old.items ++ (codes "\"" ++ (concat (map escape name.now) ++ codes "\""))) }
{
    out.extend_from_slice(b"\"")?;
    push_bytes(out, name)?;
    out.extend_from_slice(b"\"")
}

/// Adds a name: in double quotes, unless it is plain.
pub(crate) fn push_quoted(out: &mut Vec<u8>, name: &str) -> Result<(), AllocError>
    ensures { OnOk result (out.new.items ≡ out.old.items ++ quoted name.now) }
{
    let bytes = name.as_bytes();
    if is_plain(bytes) {
        out.extend_from_slice(bytes)
    } else {
        push_in_quotes(out, bytes)
    }
}
