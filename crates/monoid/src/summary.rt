//! The deficit summary and its plain record. The struct has a file of its own, since the
//! definitions that its functions cite name it.

ghost use Rattle.std.specs.Prelude.{◌≡◌, ◌≤◌, pos, neg_ℤ, ◌≤ℤ◌};

/// The four numbers of a deficit summary, as memory holds them: any numbers.
#[derive(Clone, Copy, PartialEq, Eq)]
pub struct DeficitPlain {
    pub count: u32,
    pub sum: i32,
    pub peak: u32,
    pub place: u32,
}

/// What departures and arrivals come to, in their order. A level is the departures so far minus
/// the arrivals so far. Above 65,535 of them the summary is overfull: count 65,536, the rest 0. The
/// facts stand over its own four numbers; of a plain record, which has none, they are a statement.
#[derive(Clone, Copy)]
pub struct DeficitSummary {
    /// how many they are
    pub count: u32,
    /// the last level
    pub sum: i32,
    /// the highest level, that before the first of them (0) included
    pub peak: u32,
    /// after how many of them the highest level is first reached
    pub place: u32,
    ghost few: { count ≤ 65536 },
    ghost low: { neg_ℤ (pos count) ≤ℤ sum },
    ghost under: { sum ≤ℤ pos peak },
    ghost high: { peak ≤ count },
    ghost near: { place ≤ count },
    ghost flat: { (peak ≡ 0 → place ≡ 0) },
    ghost full: { (count ≡ 65536 → (sum ≡ pos 0) × (peak ≡ 0) × (place ≡ 0)) },
}
