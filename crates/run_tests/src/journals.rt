//! The journal of a run whose agents disagree in the end. No command writes one, since each checks its net first.

ghost use Rattle.std.specs.Prelude.{◌≡◌, length, IfSome};

use pair_workers::{End, RunEnd};
use pop_crowd::Crowd;
use pop_io::List;
use pop_journal::{Last, read_journal, verify, write_journal};
use pop_net::{Item, Net};
use run_spec::{RunKind, RunSpec};
use sample_nets::{leaf_of, net_of};
use std::alloc::Global;
use std::test::Fail;

const SPEC: RunSpec = RunSpec {
    workers: 1,
    shards: 16,
    turns: 5,
    seed: 18,
};

const TEXT: &str = "run workers 1 shards 16 turns 5 seed 18\nend\np 1\nq 1\nterminal\n";

/// Two states without a move, whose outputs differ.
fn split(alloc: Global) -> Option<Net>
    ensures { IfSome result (λ net. length net.variables ≡ 2) }
{
    let leaf = leaf_of(alloc, &["p", "q"], &[], &[0, 1], &[true, false], &[])?;
    let leaves = vec![in alloc; leaf].ok()?;
    net_of(alloc, &["x", "y"], leaves, &[Item::Leaf(0)])
}

/// The journal written for a run without a round.
fn written(alloc: Global, net: &Net) -> Option<List<u8>>
    requires { length net.now.variables ≡ 2 }
{
    let end = RunEnd {
        rounds: List::from_vec(Vec::new(alloc)),
        crowd: Crowd::of_counts(alloc, net, &[1, 1]).ok()?,
        end: End::Terminal,
    };
    write_journal(alloc, RunKind::Whole, net, &SPEC, &end, Last::Terminal).ok()
}

#[test]
fn a_journal_is_written(rt: HostRuntime) -> Result<(), Fail> {
    let net = split(rt.alloc()).ok_or("a net")?;
    let text = written(rt.alloc(), &net).ok_or("a text")?;
    assert!(rt; text.as_slice() == TEXT.as_bytes());
    Ok(())
}

/// How many meetings this journal has, if it holds.
fn verified(alloc: Global, net: &Net, text: &[u8]) -> Option<u64>
    requires { length net.now.variables ≡ 2 }
{
    let crowd = Crowd::of_counts(alloc, net, &[1, 1]).ok()?;
    let journal = read_journal(alloc, RunKind::Whole, text, 3, crowd.len()).ok()?;
    verify(alloc, net, crowd, &journal).ok()
}

#[test]
fn agents_that_disagree_hold(rt: HostRuntime) -> Result<(), Fail> {
    let net = split(rt.alloc()).ok_or("a net")?;
    assert!(rt; verified(rt.alloc(), &net, TEXT.as_bytes()) == Some(0));
    Ok(())
}
