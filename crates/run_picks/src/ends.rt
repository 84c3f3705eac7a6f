//! Whether a run goes on, and why it ends.

ghost use Rattle.std.specs.Prelude.{◌≡◌, ◌↔◌, true, IfOk};
ghost use Rattle.pop_net.specs.Lanes.{crowd_of, AreValid};
ghost use Rattle.terminal_test.specs.TableNet.{table_net};
ghost use Rattle.run_picks.specs.Ends.{RunGoesOn, IsEndOf};

use crate::alone::End;
use pop_crowd::Crowd;
use pop_io::NoMemory;
use std::alloc::Global;
use terminal_test::PairTable;

/// Whether a further round is made from a crowd. The pair found last is tested first, as by `PairTable::is_terminal`.
pub fn goes_on(
    alloc: Global,
    table: &PairTable,
    crowd: &Crowd,
    left: u64,
    last: &mut Option<(u32, u32)>,
) -> Result<bool, NoMemory>
    requires { AreValid (table_net table.now) crowd.now }
    ensures { IfOk result
        (λ more. (more ≡ true) ↔ RunGoesOn (table_net table.now) (crowd_of (table_net table.now) crowd.now) left) }
{
    if left == 0 {
        return Ok(false);
    }
    let terminal = table.is_terminal(alloc, crowd, last)?;
    Ok(!terminal)
}

/// Why a run ends in a crowd.
pub fn end_of(alloc: Global, table: &PairTable, crowd: &Crowd) -> Result<End, NoMemory>
    requires { AreValid (table_net table.now) crowd.now }
    ensures { IfOk result (IsEndOf (table_net table.now) (crowd_of (table_net table.now) crowd.now)) }
{
    match table.enabled_pair(alloc, crowd)? {
        Some((a, b)) => Ok(End::Open(a, b)),
        None => Ok(End::Terminal),
    }
}
