//! What the rounds of a run on threads have in common.

ghost use Rattle.terminal_test.specs.TableNet.{table_net};
ghost use Rattle.run_picks.specs.SameLanes.{HaveSameLanes};

use pair_workers::RunContext;
use terminal_test::PairTable;

/// A run, and the table of pairs that says whether a crowd is terminal in its net `rest`.
pub(crate) struct WatchContext<'a, G> {
    pub run: &'a RunContext<'a, G>,
    pub table: &'a PairTable<'a>,
    ghost lanes: { HaveSameLanes (table_net table.now) run.now.net.now },
}

impl<G> Drop for WatchContext<'_, G> {
    fn drop(self) {
        let WatchContext { run: _, table: _ } = self;
    }
}
