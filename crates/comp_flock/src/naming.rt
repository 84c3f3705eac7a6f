//! The states' names, which are what they are worth.

ghost use Rattle.std.specs.Prelude.{◌≡◌, ◌≤◌, ◌+◌, map, IfOk};
ghost use Rattle.std.specs.List.{range_with_len};
ghost use Rattle.comp_counting.specs.FullState.{flock_state_count};
ghost use Rattle.comp_flock.specs.CountLeaf.{count_state_name};

use crate::worths::{Worths, worth_in};
use pop_io::{List, NoMemory, Text};
use std::alloc::Global;

fn name_of(alloc: Global, worths: &Worths<'_>, q: u16) -> Result<Text, NoMemory>
    requires state { q ≤ worths.now.k + 1 }
    ensures { IfOk result (λ name. name ≡ count_state_name worths.now.list.now q) }
{
    let worth = worth_in(worths, q);
    Ok(Text::from_string(format!(in alloc; "{worth}")?))
}

/// The names of all states, which are plain decimals.
pub(crate) fn names(alloc: Global, worths: &Worths<'_>) -> Result<List<Text>, NoMemory>
    ensures { IfOk result (λ names. names
        ≡ map (count_state_name worths.now.list.now) (range_with_len 0 (flock_state_count worths.now.k))) }
{
    let mut names = Vec::new(alloc);
    for q in 0..worths.k + 2 {
        names.push(name_of(alloc, worths, q)?)?;
    }
    Ok(List::from_vec(names))
}
