//! A table that is made line by line.

use kernel_ways::{Cell, Coin, Meet, Outcome, Table};
use std::alloc::{AllocError, Global};

/// A weight and a scale have fewer bits than this, so that the weight of all pairs has fewer than 98.
const SCALE_BITS: u32 = 34;

/// The number as one of a state, if the table has it.
fn state_of(table: &Table, number: u128) -> Option<u8> {
    if number < u128::from(table.states) && number < 256 {
        Some(number as u8)
    } else {
        None
    }
}

/// The number as a share, if it fits.
fn share_of(number: u128) -> Option<u64> {
    if number >> SCALE_BITS == 0 {
        Some(number as u64)
    } else {
        None
    }
}

/// A table of so many states in which nothing changes.
pub fn empty(alloc: Global, states: u128, scale: u128) -> Result<Option<Table>, AllocError> {
    let Some(scale) = share_of(scale) else {
        return Ok(None);
    };
    if states == 0 || 256 < states || scale == 0 {
        return Ok(None);
    }
    let mut cells = Vec::new(alloc);
    for _ in 0..states * states {
        cells.push(Cell::Silent)?;
    }
    Ok(Some(Table {
        states: states as u16,
        outputs: [0; 256],
        cells,
        coins: Vec::new(alloc),
        meets: Vec::new(alloc),
        scale,
    }))
}

/// Notes that a state outputs true.
pub fn add_output(table: &mut Table, numbers: &[u128]) -> Option<()> {
    let [state] = numbers else {
        return None;
    };
    let state = state_of(table, *state)?;
    table.outputs[state as usize] = 1;
    Some(())
}

/// Writes a cell, and lists its meet.
fn add_cell(table: &mut Table, meet: Meet, cell: Cell) -> Result<Option<()>, AllocError> {
    let at = usize::from(meet.first) * usize::from(table.states) + usize::from(meet.second);
    let Some(place) = table.cells.get_mut(at) else {
        return Ok(None);
    };
    *place = cell;
    table.meets.push(meet)?;
    Ok(Some(()))
}

/// The meet of two states by numbers.
fn meet_of(table: &Table, first: u128, second: u128, weight: u128) -> Option<Meet> {
    Some(Meet {
        first: state_of(table, first)?,
        second: state_of(table, second)?,
        weight: share_of(weight)?,
    })
}

/// Adds two states that become two others.
pub fn add_meet(table: &mut Table, numbers: &[u128]) -> Result<Option<()>, AllocError> {
    let [first, second, weight, one, other] = numbers else {
        return Ok(None);
    };
    let made = state_of(table, *one).zip(state_of(table, *other));
    let (Some(meet), Some((one, other))) = (meet_of(table, *first, *second, *weight), made) else {
        return Ok(None);
    };
    if meet.weight != table.scale {
        return Ok(None);
    }
    add_cell(table, meet, Cell::Sure(one, other))
}

/// An outcome by numbers.
fn outcome_of(table: &Table, numbers: &[u128]) -> Option<Outcome> {
    let [first, second, share] = numbers else {
        return None;
    };
    Some(Outcome {
        first: state_of(table, *first)?,
        second: state_of(table, *second)?,
        share: share_of(*share)?,
    })
}

/// The outcomes by numbers, three for each.
fn outcomes_of(
    alloc: Global,
    table: &Table,
    numbers: &[u128],
) -> Result<Option<Vec<Outcome>>, AllocError> {
    let mut outcomes = Vec::new(alloc);
    for part in numbers.chunks(3) {
        let Some(outcome) = outcome_of(table, part) else {
            return Ok(None);
        };
        outcomes.push(outcome)?;
    }
    Ok(Some(outcomes))
}

/// The sum of the shares.
fn shares_of(outcomes: &[Outcome]) -> u64 {
    let mut sum = 0u64;
    for outcome in outcomes {
        sum = sum.saturating_add(outcome.share);
    }
    sum
}

/// Whether a weight is the share of the whole that moves, in units of one over the scale.
fn is_weight(weight: u64, moving: u64, whole: u64, scale: u64) -> bool {
    0 < moving
        && moving <= whole
        && u128::from(weight) * u128::from(whole) == u128::from(moving) * u128::from(scale)
}

/// Adds two states that toss a coin.
pub fn add_coin(
    alloc: Global,
    table: &mut Table,
    numbers: &[u128],
) -> Result<Option<()>, AllocError> {
    let [first, second, weight, whole, rest @ ..] = numbers else {
        return Ok(None);
    };
    let (Some(meet), Some(whole)) = (meet_of(table, *first, *second, *weight), share_of(*whole))
    else {
        return Ok(None);
    };
    let Some(outcomes) = outcomes_of(alloc, table, rest)? else {
        return Ok(None);
    };
    let moving = shares_of(outcomes.as_slice());
    if !is_weight(meet.weight, moving, whole, table.scale) {
        return Ok(None);
    }
    let number = table.coins.len();
    table.coins.push(Coin {
        moving,
        whole,
        outcomes,
    })?;
    add_cell(table, meet, Cell::Coin(number))
}
