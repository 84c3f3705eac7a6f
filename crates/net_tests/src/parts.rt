//! Lists that are empty if memory runs out: the faults that tests look for show that.

use pop_io::List;
use sample_nets::list;
use std::alloc::Global;

pub(crate) fn listed<T: Copy>(alloc: Global, items: &[T]) -> List<T> {
    match list(alloc, items) {
        Ok(items) => items,
        Err(_) => List::from_vec(Vec::new(alloc)),
    }
}

/// A list with this item this many times.
pub(crate) fn repeated<T: Copy>(alloc: Global, item: T, times: usize) -> List<T> {
    match vec![in alloc; item; times] {
        Ok(items) => List::from_vec(items),
        Err(_) => List::from_vec(Vec::new(alloc)),
    }
}
