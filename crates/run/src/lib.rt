//! A run of the timetable, the check of its times, and the keys under which books keep it.
#![tactic(auto)]

ghost use Rattle.std.specs.Prelude.{◌≡◌};
ghost use Rattle.run.specs.Minutes.{arrival_minute};
ghost use Rattle.run.specs.Keys.{departure_key, arrival_key, departure_event, arrival_event};

mod keys;
mod kinds;
mod laws;
mod stretch;
mod text;
mod times;

pub use keys::{departs, key, minute_of, number_of, vault_of};
pub use kinds::{Event, Kind, Stop};
pub use laws::{keys_keep_order, keys_one_to_one, keys_read_back, stretches_hold};
pub use stretch::Stretch;
pub use times::check_times;

/// A box's ride from one vault to another. In a plan its number is 1 to 1,024, its vaults are the
/// plan's, and its times are lawful; a page may say any numbers.
#[derive(Clone, Copy, PartialEq, Eq, Debug)]
pub struct Run {
    pub number: u16,
    pub from: u8,
    pub to: u8,
    pub start: u32,
    pub end: u32,
    /// a set of sixteen, bit i for fitting i
    pub fittings: u16,
}

impl Run {
    /// The minute at which the arrival counts at the to-vault.
    pub fn arrival_minute(&self) -> u32
        ensures { result ≡ arrival_minute self.now }
    {
        self.end
    }

    // Each of these keys names its own end of the run: an argument for the end would be matched on
    // the same fields.

    /// The departure's key among departures: from-vault, start, number.
    pub fn departure_key(&self) -> u64
        ensures { result ≡ departure_key self.now }
    {
        key(self.from, self.start, Stop, self.number)
    }

    /// The arrival's key among arrivals: to-vault, arrival minute, number.
    pub fn arrival_key(&self) -> u64
        ensures { result ≡ arrival_key self.now }
    {
        key(self.to, self.arrival_minute(), Stop, self.number)
    }

    /// The departure's key among events.
    pub fn departure_event(&self) -> u64
        ensures { result ≡ departure_event self.now }
    {
        key(self.from, self.start, Event::Departure, self.number)
    }

    /// The arrival's key among events.
    pub fn arrival_event(&self) -> u64
        ensures { result ≡ arrival_event self.now }
    {
        key(self.to, self.arrival_minute(), Event::Arrival, self.number)
    }
}

#[cfg(test)]
mod tests;
