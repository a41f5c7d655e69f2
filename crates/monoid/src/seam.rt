//! The monoid of seams.

ghost use Rattle.std.specs.Prelude.{◌≡◌, Some};
ghost use Rattle.monoid.specs.Seams.{end_to_end, of_run};
ghost use Rattle.monoid.specs.SeamsLemmas as Seams;

use crate::Semigroup;

/// A vault at a minute.
#[derive(Clone, Copy, PartialEq, Eq)]
pub struct Stop {
    pub vault: u8,
    pub minute: u32,
}

/// Where and when runs begin and end, and whether each of them takes up where the one before ended.
/// A stretch that is not sound has its first and last stop all the same.
#[derive(Clone, Copy, PartialEq, Eq)]
pub struct Stretch {
    pub first: Stop,
    pub last: Stop,
    pub sound: bool,
}

/// What runs come to, in their order: `None` of no run.
pub type Seam = Option<Stretch>;

impl Stretch {
    /// The stretch of one run.
    pub fn of_run(from: u8, start: u32, to: u8, end: u32) -> Stretch
        ensures { Some result ≡ of_run from start to end }
    {
        Stretch {
            first: Stop {
                vault: from,
                minute: start,
            },
            last: Stop {
                vault: to,
                minute: end,
            },
            sound: true,
        }
    }
}

impl Semigroup for Stretch {
    ghost joined = { end_to_end };

    ghost assoc = { Seams.assoc };

    fn join(self, other: Stretch) -> Stretch {
        Stretch {
            first: self.first,
            last: other.last,
            sound: self.sound
                && other.sound
                && self.last.vault == other.first.vault
                && self.last.minute <= other.first.minute,
        }
    }
}
