//! Why a command stops before it has its output.

ghost use Rattle.std.specs.Prelude.{◌≡◌};
ghost use Rattle.tool_texts.specs.Steps.{stop_of};

use crate::refusal::Refusal;
use base_json::FormatFault;
use pop_io::Failure;

/// The input is refused, or memory ran out.
pub type Stop = Failure<Refusal>;

/// The stop at a file that was not read.
pub fn stop_of(fault: FormatFault) -> Stop
    ensures { result ≡ stop_of fault }
{
    match fault {
        FormatFault::Broken { path, why } => Failure::Fault(Refusal::Format(path, why)),
        FormatFault::NoMemory => Failure::NoMemory,
    }
}
