//! The sizes of the leaves of thresholds.

use cert_base::LeafProof;
use comp_threshold::{ThresholdFault, threshold};
use pop_io::Failure;
use pop_net::Leaf;
use pop_words::read_vars;
use pres_ast::{Pred, Tree};
use pres_read::read_pred;
use std::alloc::Global;
use std::test::Fail;

fn pred(alloc: Global, vars: &str, text: &str) -> Result<Pred, Fail> {
    let names = match read_vars(alloc, vars.as_bytes()) {
        Ok(names) => names,
        Err(_) => return Err("it is a vars line".into()),
    };
    match read_pred(alloc, text.as_bytes(), &names) {
        Ok(pred) => Ok(pred),
        Err(_) => Err("it is a predicate".into()),
    }
}

type Built = Result<(Leaf, LeafProof), Failure<ThresholdFault>>;

/// The leaf of a threshold, with its proof.
fn built(alloc: Global, pred: &Pred) -> Result<Built, Fail> {
    match pred.tree() {
        Tree::Less { coefs, bound } => Ok(threshold(alloc, coefs.as_slice(), *bound)),
        _ => Err("it is a threshold".into()),
    }
}

/// The numbers of states and of moves.
type Size = Result<(u16, u32), ThresholdFault>;

const SIZES: [(&str, &str, Size); 9] = [
    ("vars x", "x < 41", Ok((255, 17936))),
    ("vars x", "x < 42", Ok((261, 18793))),
    ("vars x", "x < 79", Ok((483, 64562))),
    ("vars x", "x < -79", Ok((483, 64562))),
    ("vars x", "x < 80", Err(ThresholdFault::TooWide(81))),
    ("vars x", "x < -80", Err(ThresholdFault::TooWide(81))),
    ("vars x y z", "80*x - 80*y + 0*z < 3", Ok((483, 64562))),
    ("vars x y", "x - 81*y < 3", Err(ThresholdFault::TooWide(81))),
    (
        "vars x",
        "2147483648*x < -1099511627776",
        Err(ThresholdFault::TooWide(1099511627777)),
    ),
];

fn size(built: Built) -> Result<Size, Fail> {
    match built {
        Ok((leaf, _)) => Ok(Ok((leaf.state_count(), leaf.move_count()))),
        Err(Failure::Fault(fault)) => Ok(Err(fault)),
        Err(Failure::NoMemory) => Err("memory ran out".into()),
    }
}

#[test]
fn sizes(rt: HostRuntime) -> Result<(), Fail> {
    let alloc = rt.alloc();
    for (vars, text, want) in SIZES {
        let pred = pred(alloc, vars, text)?;
        assert_eq!(rt; size(built(alloc, &pred)?)?, want, "at {text}");
    }
    Ok(())
}
