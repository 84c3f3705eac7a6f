//! What the steps of a replay have in common, and where its `end` stands.

ghost use Rattle.terminal_test.specs.TableNet.{table_net};
ghost use Rattle.run_picks.specs.SameLanes.{HaveSameLanes};

use crate::journal::Journal;
use pop_net::Net;
use run_text::Outcome;
use terminal_test::PairTable;

/// A journal, the net that its agents meet by, the table of pairs that says where its run is over, and what is known
/// there.
#[derive(Clone, Copy)]
pub(crate) struct ReplayContext<'a> {
    pub(crate) net: &'a Net,
    pub(crate) table: &'a PairTable<'a>,
    pub(crate) outcome: Outcome,
    pub(crate) journal: &'a Journal,
    ghost lanes: { HaveSameLanes (table_net table.now) net.now },
}

/// The number of the line `end`, and of a round that might begin there. The round before it lacks a meeting of the
/// worker, if there is one.
#[derive(Clone, Copy)]
pub(crate) struct EndPlace {
    pub(crate) line: u64,
    pub(crate) round: u64,
    pub(crate) lacking: Option<u16>,
}
