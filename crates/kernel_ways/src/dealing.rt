//! From counts to agents.

ghost use Rattle.std.specs.Prelude.{◌≡◌, sum};

use std::alloc::{AllocError, Global};

/// The agents of these counts, state by state: any order of agents has the same law.
pub fn deal(alloc: Global, counts: &[u32; 256]) -> Result<Vec<u8>, AllocError> {
    let mut crowd = Vec::new(alloc);
    for state in 0..256usize {
        put_many(&mut crowd, state as u8, counts[state])?;
    }
    Ok(crowd)
}

fn put_many(crowd: &mut Vec<u8>, state: u8, many: u32) -> Result<(), AllocError> {
    crowd.reserve(many as usize)?;
    for _ in 0..many {
        crowd.push(state)?;
    }
    Ok(())
}

/// How many agents there are.
pub fn total_of(counts: &[u32; 256]) -> u64
    ensures { result ≡ sum counts.now }
{
    let mut total = 0u64;
    for count in counts {
        total += u64::from(*count);
    }
    total
}
