//! The table of pairs, for majority.

ghost use Rattle.std.specs.Prelude.{◌≡◌};
ghost use Rattle.pop_net.specs.Lanes.{AreValid};
ghost use Rattle.terminal_test.specs.TableNet.{table_net};

use pop_crowd::Crowd;
use pop_net::Net;
use sample_nets::majority;
use std::alloc::Global;
use std::test::Fail;
use terminal_test::PairTable;

type Pair = Option<(u32, u32)>;

/// The pair of the agents A and B, and that of b and b, to which two meetings lead.
fn pairs(alloc: Global, net: &Net, table: &PairTable, crowd: Crowd) -> Option<(Pair, Pair)>
    requires table { table_net table.now ≡ net.now }
    requires valid { AreValid net.now crowd }
{
    let mut crowd = crowd;
    if crowd.len() != 2 {
        return None;
    }
    let first = table.enabled_pair(alloc, &crowd).ok()?;
    crowd.meet(net, 0, 1);
    crowd.meet(net, 0, 1);
    let crowd = Crowd::of_words(net, crowd.into_words());
    let last = table.enabled_pair(alloc, &crowd).ok()?;
    Some((first, last))
}

fn found(alloc: Global) -> Option<(Pair, Pair)> {
    let net = majority(alloc)?;
    let table = PairTable::new(alloc, &net).ok()?;
    let crowd = Crowd::of_counts(alloc, &net, &[1, 1]).ok()?;
    pairs(alloc, &net, &table, crowd)
}

#[test]
fn pairs_of_majority(rt: HostRuntime) -> Result<(), Fail> {
    let found = found(rt.alloc()).ok_or("two pairs")?;
    assert!(rt; found == (Some((0, 1)), None));
    Ok(())
}
