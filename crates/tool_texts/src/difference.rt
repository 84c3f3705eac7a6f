//! What is written for a journal that isn't that of a run.

use crate::output::{Ending, Output};
use base_lines::push_number;
use std::alloc::{AllocError, Global};

impl Output {
    ghost use Rattle.std.specs.Prelude.{◌≡◌, IfOk};
    ghost use Rattle.tool_texts.specs.Differences.{difference_output};

    /// The number of the first line that isn't the expected one, what was kept there, and what is expected.
    pub fn of_difference(
        alloc: Global,
        line: u64,
        kept: &[u8],
        found: &[u8],
    ) -> Result<Output, AllocError>
        ensures { IfOk result (λ output.
            output ≡ difference_output (record { line = line; kept = kept.now; found = found.now })) }
    {
        let mut text = Vec::from_slice(alloc, b"differs ")?;
        push_number(&mut text, line)?;
        text.extend_from_slice(b"\nkept: ")?;
        text.extend_from_slice(kept)?;
        text.extend_from_slice(b"\nfound: ")?;
        text.extend_from_slice(found)?;
        text.extend_from_slice(b"\n")?;
        Ok(Output::new(text, Ending::Differs))
    }
}
