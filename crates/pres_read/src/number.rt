//! Numbers within a limit.

ghost use Rattle.std.specs.Prelude.{◌≡◌, ◌≤◌};
ghost use Rattle.pres_ast.specs.declared.limits.TheConstants.{BOUND_LIMIT};
ghost use Rattle.pres_read.specs.Numbers.{value_of_digits, value_within};

/// The number that the digits stand for, if it is at most the limit.
pub(crate) fn number_within(digits: &[u8], limit: u64) -> Option<u64>
    requires { limit ≤ BOUND_LIMIT }
    ensures { result ≡ value_within limit (value_of_digits digits.now) }
{
    let mut value = 0;
    for digit in digits {
        value = value * 10 + u64::from(digit.saturating_sub(b'0'));
        if value > limit {
            return None;
        }
    }
    Some(value)
}
