//! The pickers with which a run begins.

ghost use Rattle.std.specs.Prelude.{◌≤◌, IfOk};
ghost use Rattle.run_picks.specs.Ends.{AreFirstPickers};

use crate::picker::Picker;
use pop_io::NoMemory;
use run_spec::{RunSpec, SEED_LIMIT};
use std::alloc::Global;

/// The pickers of all workers, none of which has made a pick.
pub fn first_pickers(alloc: Global, spec: &RunSpec) -> Result<Vec<Picker>, NoMemory>
    requires { spec.now.seed ≤ SEED_LIMIT }
    ensures { IfOk result (λ pickers. AreFirstPickers spec.now pickers.items) }
{
    let mut pickers = Vec::new(alloc);
    'workers: for worker in 0..spec.workers {
        pickers.push(Picker::new(spec.seed, worker))?;
    }
    Ok(pickers)
}
