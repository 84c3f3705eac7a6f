//! The lines of a valid proof.

ghost use Rattle.std.specs.Prelude.{◌≡◌, IfOk};
ghost use Rattle.base_lines.specs.Lines.{ended};
ghost use Rattle.pop_checker.specs.ValidStable.{ValidStableProof, stable_bound};
ghost use Rattle.tool_bundles.specs.Bundles.{IsBundleWithin};
ghost use Rattle.tool_proofs.specs.Certified.{certified_lines, stable_text, AreValidLines};

use base_lines::push_field;
use cert_json::StableBundle;
use pop_checker::{are_tame, is_silent};
use pop_io::NoMemory;
use std::alloc::Global;

/// The line with the bound, and the line of tame layers, if they are.
pub(crate) fn certified_lines(alloc: Global, bound: u64, tame: bool) -> Result<Vec<u8>, NoMemory>
    ensures { IfOk result (λ text. text.items ≡ certified_lines bound tame) }
{
    let mut text = Vec::new(alloc);
    push_field(&mut text, "certified ", bound)?;
    text.extend_from_slice(b"\n")?;
    if tame {
        text.extend_from_slice(b"tame\n")?;
    }
    Ok(text)
}

/// The line of a proof in which some leaf has goals.
pub(crate) fn stable_line(alloc: Global, bound: u64) -> Result<Vec<u8>, NoMemory>
    ensures { IfOk result (λ text. text.items ≡ ended (stable_text bound)) }
{
    let mut text = Vec::new(alloc);
    push_field(&mut text, "stable ", bound)?;
    text.extend_from_slice(b"\n")?;
    Ok(text)
}

/// The lines of a bundle whose proof is valid with this bound.
pub(crate) fn valid_lines(
    alloc: Global,
    bundle: &StableBundle,
    bound: u64,
) -> Result<Vec<u8>, NoMemory>
    requires limits { IsBundleWithin bundle.now }
    requires valid { ValidStableProof bundle.now.net bundle.now.pred bundle.now.proof }
    requires bound { bound ≡ stable_bound bundle.now.proof }
    ensures { IfOk result (λ text. AreValidLines bundle.now.net bundle.now.proof text.items) }
{
    if !is_silent(&bundle.proof) {
        let line = stable_line(alloc, bound)?;
        return Ok(line);
    }
    let tame = are_tame(alloc, &bundle.net, &bundle.proof)?;
    let lines = certified_lines(alloc, bound, tame)?;
    Ok(lines)
}
