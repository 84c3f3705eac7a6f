//! For each move whether it is kept.

ghost use Rattle.std.specs.Prelude.{◌≡◌, IfOk, false, true, replicate};
ghost use Rattle.std.specs.List.{slice_set};
ghost use Rattle.pop_leaf.specs.Marks.{AreMarks};

use std::alloc::{AllocError, Global};

/// For each number below a count whether it is listed.
pub(crate) fn marks_of(alloc: Global, count: u32, kept: &[u32]) -> Result<Vec<bool>, AllocError>
    ensures { IfOk result (λ marks. AreMarks count kept.now marks.items) }
{
    let mut marks = no_marks(alloc, count)?;
    for number in kept {
        mark(&mut marks, *number);
    }
    Ok(marks)
}

/// Marks a number, unless it is past the last one.
fn mark(marks: &mut Vec<bool>, number: u32)
    ensures { marks.new.items ≡ slice_set marks.old.items number true }
{
    let at = number as usize;
    if at < marks.len() {
        marks[at] = true;
    }
}

fn no_marks(alloc: Global, count: u32) -> Result<Vec<bool>, AllocError>
    ensures { IfOk result (λ marks. marks.items ≡ replicate count false) }
{
    let mut marks = Vec::new(alloc);
    for _number in 0..count {
        marks.push(false)?;
    }
    Ok(marks)
}
