//! Whether each leaf falls silent.

ghost use Rattle.std.specs.Prelude.{◌≡◌};
ghost use Rattle.std.specs.List.{list_all};
ghost use Rattle.pop_checker.specs.Silent.{is_silent_part, is_silent};

use cert_base::{StablePart, StableProof};

/// Whether no leaf has goals.
pub fn is_silent(proof: &StableProof) -> bool
    ensures { result ≡ is_silent proof.now }
{
    all_are_silent(proof.leaves.as_slice())
}

fn all_are_silent(parts: &[StablePart]) -> bool
    ensures { result ≡ list_all is_silent_part parts.now }
{
    parts.iter().all(|part| is_silent_part(part))
}

fn is_silent_part(part: &StablePart) -> bool
    ensures { result ≡ is_silent_part part.now }
{
    match part {
        StablePart::Silent(_) => true,
        StablePart::Stable(_) => false,
    }
}
