//! How long a meeting line may be, and the page on which lines are put together.

use base_lines::NUMBER_ROOM;

/// The most bytes of a meeting line: three numbers, two spaces, a mark and a line feed.
pub const MEETING_ROOM: usize = 3 * NUMBER_ROOM + 5;

/// The bytes of a page, on which lines are put together.
pub(crate) const PAGE_SIZE: usize = 8_192;
