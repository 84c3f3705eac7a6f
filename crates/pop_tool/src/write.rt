//! The one write of a call.

ghost use Rattle.std.specs.Prelude.{◌≡◌, IfOk, MatchResult};
ghost use Rattle.std.specs.Io.KnownBytes.{Keeps};
ghost use Rattle.pop_tool.specs.Written.{IsWritten};

use pop_io::{NoMemory, Sink, write_all};
use tool_texts::{Output, Status};

/// Writes an output, and says how that went.
pub(crate) fn write<K: Sink>(sink: &mut K, output: Result<Output, NoMemory>) -> Status
    requires { IfOk output (λ o. K.accepts sink.old o.text) }
    ensures { MatchResult output
        (λ o. IsWritten o (K.holds sink.old) (K.holds sink.new) (K.faults sink.old) (K.faults sink.new) result)
        (λ _. (result ≡ Status.NoMemory) × Keeps (K.holds sink.old) (K.holds sink.new)) }
{
    match output {
        Ok(output) => match write_all(sink, output.text.as_slice()) {
            Ok(()) => Status::from(output.ending),
            Err(_) => Status::WriteFault,
        },
        Err(_) => Status::NoMemory,
    }
}
