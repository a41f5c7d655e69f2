//! Records in memory: putting one in and taking one out at a place, and joining their values.

ghost use Rattle.std.specs.Prelude.{◌≡◌, ◌-◌, ◌<◌, map, length, take};
ghost use Rattle.std.specs.List.{insert as put_in, remove as taken_out};
ghost use Rattle.monoid.specs.Folds.{total};

use crate::entry::Entry;
use monoid::Monoid;

/// Puts a record at a place of a slice whose last slot is free: those from there on move up by one.
pub(crate) fn put_in<P: Copy>(slots: &mut [Entry<P>], place: usize, entry: Entry<P>)
    requires { place < length slots.old }
    ensures { slots.new ≡ put_in (take (length slots.old - 1) slots.old) place entry }
{
    slots[place..].rotate_right(1);
    slots[place] = entry;
}

/// Takes the record at a place out of a slice: those behind it move down by one. The last slot is
/// free, and keeps what it held.
pub(crate) fn take_out<P: Copy>(slots: &mut [Entry<P>], place: usize)
    requires { place < length slots.old }
    ensures { take (length slots.old - 1) slots.new ≡ taken_out slots.old place }
{
    slots.copy_within(place + 1.., place);
}

/// The values of the records, joined from left to right.
pub(crate) fn join_values<M: Monoid>(records: &[Entry<M::Plain>]) -> M
    ensures { result ≡ total M.neutral M.joined (map (λ e. M.reads e.value) records.now) }
{
    let values = records.iter().map(|record| M::from_plain(record.value));
    values.fold(M::unit(), |sofar, value| sofar.join(value))
}
