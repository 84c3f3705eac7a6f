//! What is written where a bundle's proof is not valid.

ghost use Rattle.tool_texts.specs.Steps.{Obeys};
ghost use Rattle.tool_rejections.specs.Told.{TellsRejection};

use crate::rejection::rejection_output;
use pop_checker::StableRejected;
use pop_io::Failure;
use std::alloc::Global;
use tool_texts::{Output, Stop};

/// The output for a proof that is not valid.
pub fn rejection_of(alloc: Global, fault: Failure<StableRejected>) -> Result<Output, Stop>
    ensures { Obeys (TellsRejection fault) (λ output. output) result }
{
    match fault {
        Failure::Fault(rejected) => Ok(rejection_output(alloc, rejected)?),
        Failure::NoMemory => Err(Failure::NoMemory),
    }
}
