//! Stretches of keys: those of a vault, and those of some minutes in a vault.

ghost use Rattle.std.specs.Prelude.{◌≡◌};
ghost use Rattle.run.specs.Stretches.{events_to};

use crate::keys::{first_key, minute_step, vault_step};
use crate::kinds::{Event, Kind};

/// The keys from `lo` on that are below `hi`.
#[derive(Clone, Copy, PartialEq, Eq, Debug)]
pub struct Stretch {
    pub lo: u64,
    pub hi: u64,
}

impl Stretch {
    /// All stops, or all events, in a vault.
    pub fn of_vault<K: Kind>(vault: u8) -> Stretch
        ensures { result ≡ K.of_vault vault }
    {
        let lo = first_key::<K>(vault, 0);
        Stretch {
            lo,
            hi: lo + vault_step::<K>(),
        }
    }

    /// The stops, or the events, in a vault from one minute to another, both counted.
    pub fn of_minutes<K: Kind>(vault: u8, first: u32, last: u32) -> Stretch
        ensures { result ≡ K.of_minutes vault first last }
    {
        Stretch {
            lo: first_key::<K>(vault, first),
            hi: first_key::<K>(vault, last) + minute_step::<K>(),
        }
    }

    /// The events in a vault up to a minute, which is counted.
    pub fn events_to(vault: u8, last: u32) -> Stretch
        ensures { result ≡ events_to vault last }
    {
        Stretch::of_minutes::<Event>(vault, 0, last)
    }
}
