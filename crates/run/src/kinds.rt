//! The layouts of keys. They differ in the kinds that a key tells apart.

ghost use Rattle.std.specs.Prelude.{◌≡◌, ℕ, ◌+◌, ◌*◌, ◌/◌, ◌%◌, ◌^◌, ◌<◌, ◌⊎◌};
ghost use Rattle.std.proofs.Common.{rules};
ghost use Rattle.run.specs.Keys.{packed, kind_bit, is_departure};
ghost use Rattle.run.specs.Keys.{stop_key, stop_vault, stop_minute};
ghost use Rattle.run.specs.Keys.{event_key, event_vault, event_minute};
ghost use Rattle.run.specs.Stretches.{stops_of, stops_in, events_of, events_in};
ghost use Rattle.run.specs.declared.stretch.Stretch.{Stretch};

use crate::stretch::Stretch;

/// What a key tells besides vault, minute and run number: one of a few kinds.
pub trait Kind: Copy {
    /// How many kinds there are, one or two.
    const COUNT: u64;

    ghost COUNT: { ℕ };

    /// a kind's place among them, from 0
    ghost place: { Self → ℕ };

    /// the number that a key is
    ghost key: { (vault minute : ℕ) (kind : Self) (number : ℕ) → ℕ };

    /// the vault of a key
    ghost vault: { ℕ → ℕ };

    /// the minute of a key
    ghost minute: { ℕ → ℕ };

    /// the keys of a vault
    ghost of_vault: { ℕ → Stretch };

    /// the keys of a vault and of some minutes
    ghost of_minutes: { (vault first last : ℕ) → Stretch };

    /// The place of this kind among them, from 0.
    fn place(self) -> u64
        ensures { result ≡ place self };

    ghost few: { (COUNT ≡ 1) ⊎ (COUNT ≡ 2) };

    ghost within: { (kind : Self) → place kind < COUNT };

    /// the layout: the members above are those that so many kinds give
    ghost packs: { (v m : ℕ) (kind : Self) (n : ℕ) → key v m kind n ≡ packed COUNT v m (place kind) n };

    ghost reads_vault: { (k : ℕ) → vault k ≡ k / (COUNT * 2 ^ 48) % 2 ^ 8 };

    ghost reads_minute: { (k : ℕ) → minute k ≡ k / (COUNT * 2 ^ 16) % 2 ^ 32 };

    ghost spans_vault: { (v : ℕ) → of_vault v ≡ record { lo = packed COUNT v 0 0 0; hi = packed COUNT (v + 1) 0 0 0 } };

    ghost spans_minutes: { (v first last : ℕ) → of_minutes v first last
        ≡ record { lo = packed COUNT v first 0 0; hi = packed COUNT v (last + 1) 0 0 } };
}

/// A departure among departures, or an arrival among arrivals: there is one kind.
#[derive(Clone, Copy)]
pub struct Stop;

/// An arrival or a departure among both, arrivals first.
#[derive(Clone, Copy)]
pub enum Event {
    Arrival = 0,
    Departure = 1,
}

impl Kind for Stop {
    const COUNT: u64 = 1;

    ghost COUNT = { 1 };

    ghost place = { λ kind. 0 };

    ghost key = { λ vault minute kind number. stop_key vault minute number };

    ghost vault = { stop_vault };

    ghost minute = { stop_minute };

    ghost of_vault = { stops_of };

    ghost of_minutes = { stops_in };

    ghost few = { Prim.search rules };

    ghost within = { Prim.search rules };

    ghost packs = { Prim.search rules };

    ghost reads_vault = { Prim.search rules };

    ghost reads_minute = { Prim.search rules };

    ghost spans_vault = { Prim.search rules };

    ghost spans_minutes = { Prim.search rules };

    fn place(self) -> u64 {
        0
    }
}

impl Kind for Event {
    const COUNT: u64 = 2;

    ghost COUNT = { 2 };

    ghost place = { λ kind. kind_bit (is_departure kind) };

    ghost key = { λ vault minute kind number. event_key vault minute (is_departure kind) number };

    ghost vault = { event_vault };

    ghost minute = { event_minute };

    ghost of_vault = { events_of };

    ghost of_minutes = { events_in };

    ghost few = { Prim.search rules };

    ghost within = { Prim.search rules };

    ghost packs = { Prim.search rules };

    ghost reads_vault = { Prim.search rules };

    ghost reads_minute = { Prim.search rules };

    ghost spans_vault = { Prim.search rules };

    ghost spans_minutes = { Prim.search rules };

    fn place(self) -> u64 {
        self as u64
    }
}
