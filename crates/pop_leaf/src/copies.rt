//! Copies of lists of texts.

ghost use Rattle.std.specs.Prelude.{◌≡◌, IfOk};

use pop_io::{List, NoMemory, Text};
use std::alloc::Global;

/// An equal list of equal texts.
pub fn copy_texts(alloc: Global, texts: &[Text]) -> Result<List<Text>, NoMemory>
    ensures { IfOk result (λ list. list ≡ texts.now) }
{
    let mut copies = Vec::with_capacity(alloc, texts.len())?;
    for text in texts {
        copies.push(text.copy(alloc)?)?;
    }
    Ok(List::from_vec(copies))
}
