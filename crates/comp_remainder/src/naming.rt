//! The names of states.

ghost use Rattle.std.specs.Prelude.{◌≡◌, map, IfOk};
ghost use Rattle.std.specs.List.{range_with_len};
ghost use Rattle.comp_remainder.specs.RemainderLeaf.{remainder_state_count, remainder_state_name};

use crate::modulus::Modulus;
use pop_io::{List, NoMemory, Text};
use std::alloc::Global;

/// `N` and the number for a leader, `f` or `t` for a follower.
fn name_of(alloc: Global, modulus: Modulus, q: u16) -> Result<Text, NoMemory>
    ensures { IfOk result (λ name. name ≡ remainder_state_name modulus.number q) }
{
    let modulus = modulus.number;
    let text = if q < modulus {
        format!(in alloc; "N{q}")?
    } else if q == modulus {
        format!(in alloc; "f")?
    } else {
        format!(in alloc; "t")?
    };
    Ok(Text::from_string(text))
}

pub(crate) fn names(alloc: Global, modulus: Modulus) -> Result<List<Text>, NoMemory>
    ensures { IfOk result (λ names.
        names ≡ map (remainder_state_name modulus.number) (range_with_len 0 (remainder_state_count modulus.number))) }
{
    let mut names = Vec::new(alloc);
    for q in 0..modulus.number + 2 {
        names.push(name_of(alloc, modulus, q)?)?;
    }
    Ok(List::from_vec(names))
}
