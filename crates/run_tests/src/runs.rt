//! A run by one worker, by the call for many.

ghost use Rattle.std.specs.Prelude.{◌≡◌, length};

use pair_workers::{End, run_all};
use pop_crowd::Crowd;
use pop_io::OpenGate;
use pop_net::Net;
use run_spec::RunSpec;
use sample_nets::majority;
use std::alloc::Global;
use std::sync::Wait;
use std::thread::Threads;

/// Whether a run of two agents by one worker ends terminal.
fn one_ends<R: Threads + Wait + Sync>(rt: &R, alloc: Global, net: &Net) -> bool
    requires { length net.now.variables ≡ 2 }
{
    let Ok(crowd) = Crowd::of_counts(alloc, net, &[1, 1]) else {
        return false;
    };
    let spec = RunSpec {
        workers: 1,
        shards: 16,
        turns: 2,
        seed: 0,
    };
    match run_all(rt, alloc, net, crowd, &spec, &OpenGate) {
        Ok(run) => run.end == End::Terminal,
        Err(_) => false,
    }
}

/// The same for majority.
fn majority_ends<R: Threads + Wait + Sync>(rt: &R, alloc: Global) -> bool {
    match majority(alloc) {
        Some(net) => one_ends(rt, alloc, &net),
        None => false,
    }
}

#[test]
fn all_workers_are_one(rt: HostRuntime) {
    assert!(rt; majority_ends(&rt, rt.alloc()));
}
