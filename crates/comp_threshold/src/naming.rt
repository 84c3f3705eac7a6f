//! The names of states.

ghost use Rattle.std.specs.Prelude.{◌≡◌, map, IfOk};
ghost use Rattle.std.specs.List.{range_with_len};
ghost use Rattle.comp_threshold.specs.ThresholdLeaf.{threshold_state_count, threshold_state_name};

use crate::narrow::Width;
use crate::values::{place_in, span};
use pop_io::{List, NoMemory, Text};
use std::alloc::Global;

/// `L`, `f` or `t`, and the value.
fn name_of(alloc: Global, width: Width, q: u16) -> Result<Text, NoMemory>
    ensures { IfOk result (λ name. name ≡ threshold_state_name width.number q) }
{
    let n = span(width);
    let value = i64::from(place_in(width, q)) - i64::from(width.number);
    let text = if q < n {
        format!(in alloc; "L{value}")?
    } else if q < n + n {
        format!(in alloc; "f{value}")?
    } else {
        format!(in alloc; "t{value}")?
    };
    Ok(Text::from_string(text))
}

pub(crate) fn names(alloc: Global, width: Width) -> Result<List<Text>, NoMemory>
    ensures { IfOk result (λ names.
        names ≡ map (threshold_state_name width.number) (range_with_len 0 (threshold_state_count width.number))) }
{
    let mut names = Vec::new(alloc);
    for q in 0..3 * span(width) {
        names.push(name_of(alloc, width, q)?)?;
    }
    Ok(List::from_vec(names))
}
