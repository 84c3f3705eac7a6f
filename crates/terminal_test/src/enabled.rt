//! The least pair of one crowd.

ghost use Rattle.std.specs.Prelude.{◌≡◌, ◌↔◌, None, IfOk, IfSome};
ghost use Rattle.pop_net.specs.Lanes.{crowd_of, AreValid};
ghost use Rattle.pop_leaf.specs.Step.{Step};
ghost use Rattle.pop_leaf.specs.Terminal.{IsTerminal};
ghost use Rattle.terminal_test.specs.Pairs.{IsLeastPair, MovesOn};

use crate::pair_table::PairTable;
use pop_crowd::Crowd;
use pop_io::NoMemory;
use pop_net::Net;
use std::alloc::Global;

/// `None` exactly when the crowd is terminal, else the pair `(a, b)` with `a < b` whose meeting changes a word,
/// the least by `a` and then by `b`. For many crowds of one net, make a `PairTable` once.
pub fn enabled_pair(alloc: Global, net: &Net, crowd: &Crowd) -> Result<Option<(u32, u32)>, NoMemory>
    requires { AreValid net.now crowd.now }
    ensures none { IfOk result (λ found. (found ≡ None) ↔ IsTerminal (Step net.now) (crowd_of net.now crowd.now)) }
    ensures least { IfOk result
        (λ found. IfSome found (λ pair. IsLeastPair net.now (crowd_of net.now crowd.now) pair.0 pair.1)) }
    // If a pair is enabled, a step of the model leads to another crowd.
    ensures moves { IfOk result (λ found. IfSome found (λ _. MovesOn net.now (crowd_of net.now crowd.now))) }
{
    let table = PairTable::new(alloc, net)?;
    table.enabled_pair(alloc, crowd)
}
