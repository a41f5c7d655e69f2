//! Monoids: values with a unit and an associative join, kept in memory as plain records, and the
//! one fold that serves them all. Three are here: the deficit summary, fittings and the seam.
#![tactic(auto)]

ghost use Rattle.std.specs.Prelude.{◌≡◌, ◌++◌, map};
ghost use Rattle.monoid.specs.Folds.{total};
ghost use Rattle.monoid.specs.Laws.{RecordsRead, JoinRules, StepsSummed, StepsOverfull, BitsUnited, RunsSeamed};

mod deficit;
mod fittings;
mod seam;
mod semigroup;
mod summary;

pub use fittings::Fittings;
pub use seam::{Seam, Stop, Stretch};
pub use semigroup::Semigroup;
pub use summary::{DeficitPlain, DeficitSummary};

/// A semigroup with a unit. Memory holds a value as a plain record: the one made from a value reads
/// back as that value, and any other reads as some value too. The law `back` ties the two
/// conversions, which are functions of the trait for its sake: std's `From` has no law.
pub trait Monoid: Semigroup {
    type Plain: Copy;

    ghost neutral: { Self };

    ghost reads: { Self.Plain → Self };

    ghost written: { Self → Self.Plain };

    /// The value that changes nothing on either side of a join.
    fn unit() -> Self
        ensures { result ≡ neutral };

    /// The value that a plain record reads as.
    fn from_plain(plain: Self::Plain) -> Self
        ensures { result ≡ reads plain };

    /// The plain record of this value.
    fn plain(self) -> Self::Plain
        ensures { result ≡ written self };

    ghost left: { (x : Self) → Self.joined neutral x ≡ x };

    ghost right: { (x : Self) → Self.joined x neutral ≡ x };

    ghost back: { (x : Self) → reads (written x) ≡ x };
}

/// The values that the records read as, joined from left to right, starting from the unit.
pub fn fold<M: Monoid>(records: &[M::Plain]) -> M
    ensures { result ≡ total M.neutral M.joined (map M.reads records.now) }
{
    let values = records.iter().map(|plain| M::from_plain(*plain));
    values.fold(M::unit(), |sofar, value| sofar.join(value))
}

/// The folds of two stretches, joined: the fold of both, one after the other.
pub fn join_of_folds<M: Monoid>(front: &[M::Plain], back: &[M::Plain]) -> M
    ensures { result ≡ total M.neutral M.joined (map M.reads (front.now ++ back.now)) }
{
    fold::<M>(front).join(fold::<M>(back))
}

/// A deficit record that keeps the summary's invariant reads as its own numbers, any other as the unit.
pub fn records_read()
    ensures { RecordsRead }
{}

/// The join of two deficit summaries, number by number.
pub fn join_rules()
    ensures { JoinRules }
{}

/// Of at most 65,535 departures and arrivals, the fold tells how many they are, the last level, the
/// highest level, and after how many of them it is first reached.
pub fn steps_summed()
    ensures { StepsSummed }
{}

/// The fold of more than 65,535 departures and arrivals is overfull.
pub fn steps_overfull()
    ensures { StepsOverfull }
{}

/// A fitting is in the fold exactly if it is in some record.
pub fn bits_united()
    ensures { BitsUnited }
{}

/// The fold of runs has the first one's start and the last one's end, and is sound exactly if each
/// next run starts in the vault where the one before ended, and not before that end.
pub fn runs_seamed()
    ensures { RunsSeamed }
{}

#[cfg(test)]
mod tests {
    use super::*;

    fn four(count: u32, sum: i32, peak: u32, place: u32) -> DeficitPlain {
        DeficitPlain {
            count,
            sum,
            peak,
            place,
        }
    }

    #[test]
    fn two_steps(rt: HostRuntime) {
        let up = DeficitSummary::departure();
        let down = DeficitSummary::arrival();
        assert!(rt; up.join(down).plain() == four(2, 0, 1, 1));
        assert!(rt; down.join(up).plain() == four(2, 0, 0, 0));
        let records = [down.plain(), up.plain(), up.plain(), down.plain()];
        assert!(rt; fold::<DeficitSummary>(&records).plain() == four(4, 0, 1, 3));
    }

    #[test]
    fn overfull(rt: HostRuntime) {
        let up = DeficitSummary::departure();
        let most = DeficitSummary::from_plain(four(65_535, -3, 7, 9));
        assert!(rt; most.join(up).plain() == four(65_536, 0, 0, 0));
        assert!(rt; up.join(most).plain() == four(65_536, 0, 0, 0));
        assert!(rt; up.join(most.join(up)).plain() == four(65_536, 0, 0, 0));
        assert!(rt; most.join(up).join(up).plain() == four(65_536, 0, 0, 0));
        let fewer = DeficitSummary::from_plain(four(65_534, -3, 7, 9));
        assert!(rt; fewer.join(up).plain() == four(65_535, -2, 7, 9));
    }

    #[test]
    fn broken_records(rt: HostRuntime) {
        assert!(rt; DeficitSummary::from_plain(four(2, 3, 1, 1)).plain() == four(0, 0, 0, 0));
        assert!(rt; DeficitSummary::from_plain(four(2, 0, 0, 1)).plain() == four(0, 0, 0, 0));
        assert!(rt; DeficitSummary::from_plain(four(65_536, 0, 1, 1)).plain() == four(0, 0, 0, 0));
    }

    #[test]
    fn united(rt: HostRuntime) {
        assert!(rt; fold::<Fittings>(&[2, 8, 12]) == Fittings(14));
        assert!(rt; fold::<Fittings>(&[]) == Fittings(0));
    }

    #[test]
    fn seams(rt: HostRuntime) {
        let out = Some(Stretch::of_run(0, 10, 1, 20));
        let home = Some(Stretch::of_run(1, 20, 0, 35));
        let both = Stretch {
            first: Stop {
                vault: 0,
                minute: 10,
            },
            last: Stop {
                vault: 0,
                minute: 35,
            },
            sound: true,
        };
        assert!(rt; fold::<Seam>(&[out, home]) == Some(both));
        let early = Some(Stretch::of_run(1, 19, 0, 35));
        let elsewhere = Some(Stretch::of_run(2, 20, 0, 35));
        let broken = Stretch {
            first: both.first,
            last: both.last,
            sound: false,
        };
        assert!(rt; out.join(early) == Some(broken));
        assert!(rt; out.join(elsewhere) == Some(broken));
        assert!(rt; fold::<Seam>(&[]) == None);
    }
}
