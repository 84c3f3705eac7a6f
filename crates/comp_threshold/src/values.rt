//! States, values and their places.

ghost use Rattle.std.specs.Prelude.{◌≡◌, ◌<◌, ◌≤◌, nat_abs};
ghost use Rattle.comp_threshold.specs.ThresholdLeaf.{span_of, place_of_value, threshold_place, threshold_follower};

use crate::narrow::Width;

/// How many values a state has. Allocates nothing.
pub(crate) fn span(width: Width) -> u16
    ensures { result ≡ span_of width.number }
{
    2 * width.number + 1
}

/// The place of a value. Allocates nothing.
pub(crate) fn place(width: Width, value: i64) -> u16
    requires within { nat_abs value ≤ width.number }
    ensures { result ≡ place_of_value width.number value }
{
    (value + i64::from(width.number)).unsigned_abs() as u16
}

/// The place of a state's value. Allocates nothing.
pub(crate) fn place_in(width: Width, q: u16) -> u16
    ensures { result ≡ threshold_place width.number q }
{
    let n = span(width);
    if q < n {
        q
    } else if q < n + n {
        q - n
    } else {
        q - (n + n)
    }
}

/// The follower with a bit and the value at a place.
pub(crate) fn follower(width: Width, bit: bool, v: u16) -> u16
    requires place { v < span_of width.number }
    ensures { result ≡ threshold_follower width.number bit v }
{
    let n = span(width);
    if bit { n + n + v } else { n + v }
}
