//! Books: what keeps entries, a 64-bit key and a monoid's value each, in strictly rising key, and
//! folds any stretch of keys. The meaning of a book is its capacity and the list of its entries.
#![tactic(auto)]

ghost use Rattle.std.specs.Prelude.{◌≡◌, ℕ, ◌-◌, ◌≤◌, true, List, [], length};
ghost use Rattle.std.specs.List.{slice_get};
ghost use Rattle.book.specs.Entries.{ascending, removed, count_below, fold_between};
ghost use Rattle.book.specs.Calls.{insert_answer, after_insert, remove_answer};

use fault::BookFault;
use monoid::Monoid;

mod laws;

pub use laws::{
    between_is_a_stretch, edits_commute, folds_split, insert_adds_one, members_fix_the_list,
    places_count_keys, remove_takes_one, remove_undoes_insert,
};

/// Entries in strictly rising key, at most `capacity` of them. Questions change nothing.
///
/// That the capacity stays is a clause of each call that changes the book, since it compares two
/// states and an invariant speaks of one. That stored folds are right is a member and no ghost field:
/// equality of a monoid's values is not known to be a proposition.
pub trait Book {
    type Value: Monoid;

    /// how many entries it takes; never changes
    ghost capacity: { Self → ℕ };

    /// the entries: key and value
    ghost entries: { Self → List (ℕ × Self.Value) };

    /// every fold that is stored is right: making and `clear` bring this about, every call keeps it
    ghost summed: { Self → Type 0 };

    ghost bounded: { (b : Self) → length (entries b) ≤ capacity b };

    ghost small: { (b : Self) → capacity b ≤ 2048 };

    ghost rising: { (b : Self) → ascending (entries b) ≡ true };

    /// Puts an entry in its place. Refused 20 if the key is held, else 21 if the count equals the
    /// capacity.
    fn insert(&mut self, key: u64, value: Self::Value) -> Result<(), BookFault>
        ensures answer { result ≡ insert_answer (capacity self.old) key (entries self.old) }
        ensures after { entries self.new ≡ after_insert (capacity self.old) key value (entries self.old) }
        ensures kept { capacity self.new ≡ capacity self.old }
        ensures sums { summed self.old → summed self.new };

    /// Takes the entry at a key out, and answers its value. Refused 22 if the key is not held.
    fn remove(&mut self, key: u64) -> Result<Self::Value, BookFault>
        ensures answer { result ≡ remove_answer key (entries self.old) }
        ensures after { entries self.new ≡ removed key (entries self.old) }
        ensures kept { capacity self.new ≡ capacity self.old }
        ensures sums { summed self.old → summed self.new };

    /// How many entries more it takes.
    fn free(&self) -> usize
        ensures { result ≡ capacity self.now - length (entries self.now) };

    /// How many keys are less than this one.
    fn below(&self, key: u64) -> usize
        ensures { result ≡ count_below key (entries self.now) };

    /// The entry at place `n`, counted from 0, or none.
    fn at(&self, n: usize) -> Option<(u64, Self::Value)>
        ensures { result ≡ slice_get (entries self.now) n };

    /// The values of the entries with lo ≤ key < hi, joined from left to right.
    fn fold(&self, lo: u64, hi: u64) -> Self::Value
        ensures { summed self.now → result ≡ fold_between Self.Value.neutral Self.Value.joined lo hi (entries self.now) };

    /// Takes all entries out.
    fn clear(&mut self)
        ensures empty { entries self.new ≡ [] }
        ensures kept { capacity self.new ≡ capacity self.old }
        ensures sums { summed self.new };
}
