//! The reactions of a leaf, looked up by the pair of states.

ghost use Rattle.std.specs.Prelude.{◌≡◌, ◌*◌, ◌≤◌, [], length, All, IfOk};
ghost use Rattle.pop_leaf.specs.LeafModel.{IsMoveBelow};
ghost use Rattle.pop_leaf.specs.ReactionTable.{IsTable, with_reaction};

use crate::leaf::Move;
use crate::limits::STATE_LIMIT;
use pop_io::NoMemory;
use std::alloc::Global;

/// The states after each reaction, for each ordered pair of states, row by row.
pub(crate) fn reaction_table(
    alloc: Global,
    states: usize,
    moves: &[Move],
) -> Result<Vec<(u16, u16)>, NoMemory>
    requires few { states ≤ STATE_LIMIT }
    requires below { All (IsMoveBelow states) moves.now }
    ensures { IfOk result (λ table. IsTable states moves.now table.items) }
{
    let mut table = all_pairs(alloc, states)?;
    // The last write wins, so the first move is entered last.
    for i in 0..moves.len() {
        enter(&mut table, states, moves[moves.len() - 1 - i]);
    }
    Ok(table)
}

/// Each ordered pair of states, row by row.
fn all_pairs(alloc: Global, states: usize) -> Result<Vec<(u16, u16)>, NoMemory>
    requires { states ≤ STATE_LIMIT }
    ensures { IfOk result (λ table. IsTable states [] table.items) }
{
    let count = states * states;
    let mut pairs = Vec::with_capacity(alloc, count)?;
    for k in 0..count {
        pairs.push(((k / states) as u16, (k % states) as u16))?;
    }
    Ok(pairs)
}

/// Enters a move for its two pairs, replacing what was there.
fn enter(table: &mut [(u16, u16)], states: usize, taken: Move)
    requires few { states ≤ STATE_LIMIT }
    requires below { IsMoveBelow states taken }
    requires size { length table.old ≡ states * states }
    ensures { table.new ≡ with_reaction states taken table.old }
{
    if taken.is_silent() {
        return;
    }
    table[taken.q as usize * states + taken.p as usize] = (taken.s, taken.r);
    table[taken.p as usize * states + taken.q as usize] = (taken.r, taken.s);
}
