//! The calls of a row.

ghost use Rattle.std.specs.Prelude.{◌≡◌, ◌≤◌, min, [], take, vec_len, MatchResult};
ghost use Rattle.book.specs.Entries.{count_below};
ghost use Rattle.row.specs.Rows.{row_entries, row_capacity, Stands, Belongs};
ghost use Rattle.row.specs.Invariant.{is_bounded, is_small, is_rising};

use crate::entry::Entry;
use crate::row::Row;
use crate::slots::{join_values, put_in, take_out};
use book::Book;
use fault::BookFault;
use monoid::Monoid;

/// No row takes more entries.
const MOST: usize = 2048;

impl<M: Monoid> Row<M> {
    /// An empty row in the memory handed over, whatever that held. It takes as many entries as the
    /// memory has records, and at most 2,048.
    pub fn new(memory: Vec<Entry<M::Plain>>) -> Row<M>
        ensures empty { row_entries M.reads result ≡ [] }
        ensures room { row_capacity result ≡ min (vec_len memory) 2048 }
        ensures kept { result.memory ≡ memory }
    {
        Row { memory, count: 0 }
    }

    /// The memory, handed back.
    pub fn into_memory(self) -> Vec<Entry<M::Plain>>
        ensures { result ≡ self.memory }
    {
        self.memory
    }

    /// How many entries the memory takes.
    fn room(&self) -> usize
        ensures { result ≡ row_capacity self.now }
    {
        MOST.min(self.memory.len())
    }

    /// The entries, in rising key.
    fn records(&self) -> &[Entry<M::Plain>]
        ensures { result.now ≡ take self.now.count self.now.memory.items }
    {
        &self.memory[..self.count]
    }

    /// How many keys are less than this one.
    fn place(&self, key: u64) -> usize
        ensures below { result ≡ count_below key (row_entries M.reads self.now) }
        ensures within { result ≤ self.now.count }
    {
        self.records().partition_point(|entry| entry.key < key)
    }

    /// The place of a key, or else the place where it belongs.
    fn find(&self, key: u64) -> Result<usize, usize>
        ensures { MatchResult result (Stands self.now key) (Belongs M.reads self.now key) }
    {
        self.records().binary_search_by_key(&key, |entry| entry.key)
    }
}

impl<M: Monoid> Book for Row<M> {
    type Value = M;

    ghost capacity = { λ r. row_capacity r };

    ghost entries = { λ r. row_entries M.reads r };

    ghost summed = { λ _. Unit {0} };

    ghost bounded = { λ r. is_bounded M.reads r };

    ghost small = { λ r. is_small M.reads r };

    ghost rising = { λ r. is_rising M.reads r };

    fn insert(&mut self, key: u64, value: M) -> Result<(), BookFault> {
        let Err(place) = self.find(key) else {
            return Err(BookFault::KeyHeld);
        };
        let count = self.count;
        if count == self.room() {
            return Err(BookFault::Full);
        }
        let entry = Entry {
            key,
            value: value.plain(),
        };
        put_in(self.memory.slice_mut(..count + 1), place, entry);
        self.count = count + 1;
        Ok(())
    }

    fn remove(&mut self, key: u64) -> Result<M, BookFault> {
        let Ok(place) = self.find(key) else {
            return Err(BookFault::NotHeld);
        };
        let count = self.count;
        let value = M::from_plain(self.memory[place].value);
        self.count = count - 1;
        take_out(self.memory.slice_mut(..count), place);
        Ok(value)
    }

    fn free(&self) -> usize {
        self.room() - self.count
    }

    fn below(&self, key: u64) -> usize {
        self.place(key)
    }

    fn at(&self, n: usize) -> Option<(u64, M)> {
        let record = self.records().get(n)?;
        Some((record.key, M::from_plain(record.value)))
    }

    fn fold(&self, lo: u64, hi: u64) -> M {
        let from = self.place(lo);
        let to = self.place(hi);
        if from < to {
            join_values(&self.records()[from..to])
        } else {
            M::unit()
        }
    }

    fn clear(&mut self) {
        self.count = 0;
    }
}
