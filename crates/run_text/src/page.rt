//! A page on which lines are put together before they are added to a text.

ghost use Rattle.std.specs.Prelude.{◌≤◌, length};
ghost use Rattle.run_text.specs.declared.limits.TheConstants.{MEETING_ROOM};

use crate::limits::PAGE_SIZE;
use base_lines::Numerals;
use std::alloc::{AllocError, Global};

/// The bytes of a page, which are left changed by each use, and the numerals of a run's agents.
#[derive(Drop)]
pub struct Page {
    pub(crate) numerals: Numerals,
    pub(crate) bytes: Vec<u8>,
    ghost room: { MEETING_ROOM ≤ length bytes.items },
}

impl Page {
    /// A page with this many numerals.
    pub fn new(alloc: Global, kept: u32) -> Result<Page, AllocError> {
        let numerals = Numerals::new(alloc, kept)?;
        let bytes = vec![in alloc; 0; PAGE_SIZE]?;
        Ok(Page { numerals, bytes })
    }
}
