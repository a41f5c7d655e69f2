//! The row and its invariant.

ghost use Rattle.std.specs.Prelude.{◌≡◌, ◌≤◌, true, vec_len};
ghost use Rattle.book.specs.Entries.{ascending};
ghost use Rattle.row.specs.Slots.{entries_of, stored};

use crate::entry::Entry;
use monoid::Monoid;

/// A book that keeps its entries in rising key in one stretch of memory: the first `count` records
/// are the entries, and the others are not read. The memory is the caller's: its length is the
/// capacity, and it is handed back whole, so the count of entries stands beside it.
#[derive(Drop)]
pub struct Row<M: Monoid> {
    pub(crate) memory: Vec<Entry<M::Plain>>,
    pub(crate) count: usize,
    ghost within: { count ≤ vec_len memory },
    ghost small: { count ≤ 2048 },
    ghost rising: { ascending (entries_of stored memory.items count) ≡ true },
}
