//! The last line of a run that has come to rest.

ghost use Rattle.std.specs.Prelude.{◌≡◌};
ghost use Rattle.tool_bundles.specs.LastOf.{last_of};

use cert_base::StableProof;
use pop_checker::is_silent;
use run_text::Last;

/// The last line of a run with this value of the predicate: `verdict` where each leaf falls silent, else `settled`.
pub fn last_of(proof: &StableProof, value: bool) -> Last
    ensures { result ≡ last_of proof.now value }
{
    if is_silent(proof) {
        Last::Verdict(value)
    } else {
        Last::Settled(value)
    }
}
