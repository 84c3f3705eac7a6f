//! Lines, their pieces and numbers.

use base_lines::{
    next_line, number, number_within, printed_number, printed_within, push_number, small_number,
};
use std::test::Fail;

fn same_lines(bytes: &[u8], wanted: &[&[u8]]) -> bool {
    let mut rest = bytes;
    for want in wanted {
        match next_line(rest) {
            Some((line, more)) => {
                if line != *want {
                    return false;
                }
                rest = more;
            }
            None => return false,
        }
    }
    next_line(rest).is_none()
}

// Texts, and their lines.
const LINES: [(&[u8], &[&[u8]]); 7] = [
    (b"", &[]),
    (b"ab\n\nc", &[b"ab", b"", b"c"]),
    (b"ab\n", &[b"ab"]),
    (b"\n", &[b""]),
    (b"a\r\n", &[b"a\r"]),
    (b"a\nb\n", &[b"a", b"b"]),
    (b"a\nb\n\n", &[b"a", b"b", b""]),
];

#[test]
fn cut_at_line_feeds(rt: HostRuntime) {
    for (text, lines) in LINES {
        assert!(rt; same_lines(text, lines), "at {text:?}");
    }
}

// Texts, and the numbers that they are.
const NUMBERS: [(&[u8], Option<u128>); 8] = [
    (b"007", Some(7)),
    (b"0", Some(0)),
    (b"18446744073709551616", Some(18_446_744_073_709_551_616)),
    (b"99999999999999999999", Some(99_999_999_999_999_999_999)),
    (b"000000000000000000001", None),
    (b"", None),
    (b"+1", None),
    (b"1 ", None),
];

// Texts, and whether they are numbers below 2^64, from 1 to 64, in their printed form, and both of these.
const BOUNDED: [(&[u8], bool, bool, bool, bool); 7] = [
    (b"18446744073709551615", true, false, true, false),
    (b"18446744073709551616", false, false, true, false),
    (b"064", true, true, false, false),
    (b"64", true, true, true, true),
    (b"65", true, false, true, false),
    (b"0", true, false, true, false),
    (b"07", true, true, false, false),
];

#[test]
fn numbers_of_digits(rt: HostRuntime) {
    for (text, value) in NUMBERS {
        assert_eq!(rt; number(text), value, "at {text:?}");
    }
}

fn bounds(text: &[u8]) -> (bool, bool, bool, bool) {
    (
        small_number(text).is_some(),
        number_within(text, 1, 64).is_some(),
        printed_number(text).is_some(),
        printed_within(text, 1, 64).is_some(),
    )
}

#[test]
fn numbers_within_bounds(rt: HostRuntime) {
    for (text, small, within, printed, both) in BOUNDED {
        assert!(rt;
            bounds(text) == (small, within, printed, both),
            "at {text:?}"
        );
    }
}

#[test]
fn numbers_printed(rt: HostRuntime) -> Result<(), Fail> {
    let mut out = Vec::new(rt.alloc());
    push_number(&mut out, u64::MAX)?;
    assert_eq!(rt; out.as_slice(), b"18446744073709551615".as_slice());
    Ok(())
}
