//! The monoid of deficit summaries.

ghost use Rattle.std.specs.Prelude.{◌≡◌, pos, negsuc, Decides};
ghost use Rattle.monoid.specs.Deficits.{numbers, four, none, join, record_read, Consistent};
ghost use Rattle.monoid.specs.Steps.{departs, arrives, of_step};
ghost use Rattle.monoid.specs.DeficitsLemmas as Deficits;

use crate::{DeficitPlain, DeficitSummary, Monoid, Semigroup};

/// The highest count of a summary that is not overfull.
const MOST: u32 = 65_535;

/// The count of an overfull summary.
const OVERFULL: u32 = 65_536;

// Two constants with names: one function of the step would match it on the same literals.
impl DeficitSummary {
    /// One departure: the level rises by one.
    pub fn departure() -> DeficitSummary
        ensures numbers { numbers result ≡ four 1 (pos 1) 1 1 }
        ensures step { result ≡ of_step departs }
    {
        DeficitSummary {
            count: 1,
            sum: 1,
            peak: 1,
            place: 1,
        }
    }

    /// One arrival: the level falls by one.
    pub fn arrival() -> DeficitSummary
        ensures numbers { numbers result ≡ four 1 (negsuc 0) 0 0 }
        ensures step { result ≡ of_step arrives }
    {
        DeficitSummary {
            count: 1,
            sum: -1,
            peak: 0,
            place: 0,
        }
    }
}

/// Whether a record keeps the summary's invariant. A test and no `TryFrom`: every record reads as
/// some value, so an error would be thrown away at once.
fn is_consistent(p: DeficitPlain) -> bool
    ensures { Decides result (Consistent p) }
{
    if p.count > OVERFULL || p.peak > p.count || p.place > p.count {
        return false;
    }
    if p.sum > p.peak as i32 || p.sum < -(p.count as i32) {
        return false;
    }
    if p.peak == 0 && p.place != 0 {
        return false;
    }
    if p.count == OVERFULL && (p.sum != 0 || p.peak != 0 || p.place != 0) {
        return false;
    }
    true
}

impl Semigroup for DeficitSummary {
    ghost joined = { join };

    ghost assoc = { Deficits.assoc };

    fn join(self, other: DeficitSummary) -> DeficitSummary {
        let count = self.count + other.count;
        if count > MOST {
            return DeficitSummary {
                count: OVERFULL,
                sum: 0,
                peak: 0,
                place: 0,
            };
        }
        let sum = self.sum + other.sum;
        let reach = self.sum + other.peak as i32;
        if self.peak as i32 >= reach {
            return DeficitSummary {
                count,
                sum,
                peak: self.peak,
                place: self.place,
            };
        }
        DeficitSummary {
            count,
            sum,
            peak: reach as u32,
            place: self.count + other.place,
        }
    }
}

impl Monoid for DeficitSummary {
    type Plain = DeficitPlain;

    ghost neutral = { none };

    ghost reads = { record_read };

    ghost written = { numbers };

    ghost left = { Deficits.left };

    ghost right = { Deficits.right };

    ghost back = { Deficits.back };

    fn unit() -> DeficitSummary {
        DeficitSummary {
            count: 0,
            sum: 0,
            peak: 0,
            place: 0,
        }
    }

    fn from_plain(plain: DeficitPlain) -> DeficitSummary {
        if !is_consistent(plain) {
            return <DeficitSummary as Monoid>::unit();
        }
        DeficitSummary {
            count: plain.count,
            sum: plain.sum,
            peak: plain.peak,
            place: plain.place,
        }
    }

    fn plain(self) -> DeficitPlain {
        DeficitPlain {
            count: self.count,
            sum: self.sum,
            peak: self.peak,
            place: self.place,
        }
    }
}
