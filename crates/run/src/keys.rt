//! Keys as numbers, and their fields read back.
//!
//! From the top, a key has the vault, 32 bits of minute, a bit for the kind if there are two, and 16
//! bits of run number. A stop's key serves departures alone, or arrivals alone, and has no such
//! bit. An event's key serves both together, and has 0 for an arrival and 1 for a departure.

ghost use Rattle.std.specs.Prelude.{◌≡◌, ◌*◌, ◌^◌};
ghost use Rattle.run.specs.Keys.{packed, stop_number, event_number, event_departs};

use crate::kinds::Kind;

/// One more than the largest run number that a key takes.
const NUMBERS: u64 = 1 << 16;
/// One more than the largest minute that a key takes.
const MINUTES: u64 = 1 << 32;
/// One more than the largest vault that a key takes.
const VAULTS: u64 = 1 << 8;

/// From a minute's keys to the next minute's.
pub(crate) fn minute_step<K: Kind>() -> u64
    ensures { result ≡ K.COUNT * 2 ^ 16 }
{
    K::COUNT * NUMBERS
}

/// From a vault's keys to the next vault's.
pub(crate) fn vault_step<K: Kind>() -> u64
    ensures { result ≡ K.COUNT * 2 ^ 48 }
{
    MINUTES * minute_step::<K>()
}

/// The first key of a minute in a vault.
pub(crate) fn first_key<K: Kind>(vault: u8, minute: u32) -> u64
    ensures { result ≡ packed K.COUNT vault minute 0 0 }
{
    vault as u64 * vault_step::<K>() + minute as u64 * minute_step::<K>()
}

/// Orders departures by from-vault, start and run number, arrivals by to-vault, arrival minute and
/// run number, and events by vault, minute, arrivals before departures, and run number.
pub fn key<K: Kind>(vault: u8, minute: u32, kind: K, number: u16) -> u64
    ensures { result ≡ K.key vault minute kind number }
{
    first_key::<K>(vault, minute) + kind.place() * NUMBERS + number as u64
}

// A function of unit, count and width for these two would be as long as its calls.

/// The vault of a key.
pub fn vault_of<K: Kind>(key: u64) -> u8
    ensures { result ≡ K.vault key }
{
    (key / vault_step::<K>() % VAULTS) as u8
}

/// The minute of a key.
pub fn minute_of<K: Kind>(key: u64) -> u32
    ensures { result ≡ K.minute key }
{
    (key / minute_step::<K>() % MINUTES) as u32
}

/// The run number of a key, in either layout.
pub fn number_of(key: u64) -> u16
    ensures stop { result ≡ stop_number key }
    ensures event { result ≡ event_number key }
{
    (key % NUMBERS) as u16
}

/// Whether an event's key is a departure's.
pub fn departs(key: u64) -> bool
    ensures { result ≡ event_departs key }
{
    key / NUMBERS % 2 == 1
}
