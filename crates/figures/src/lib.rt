//! What the folds of a timetable's books tell: needs, levels, fittings, links and seams.
//!
//! Every function here is a law: it does nothing, and its contract is a theorem about every timetable
//! and every list of entries in rising key that holds exactly its events, departures or arrivals.
//! The definitions and statements are in specs/, and docs/THEORY.md tells the argument of each.
#![tactic(auto)]

ghost use Rattle.figures.specs.Laws.{NeedIsRead, LevelIsRead, FittingsAreRead, SeamsTellChains, BlocksAreSound, NumbersAreRead, StopsAreRead, LinksAreRead};
ghost use Rattle.figures.specs.Follows.{BooksFollow};
ghost use Rattle.figures.specs.Table.{WholeTable};
ghost use Rattle.figures.specs.Wrong.{WrongReadings};

/// The fold of a vault's events has the need as its peak, and the event at its place is of the critical minute.
pub fn need_is_read()
    ensures { NeedIsRead }
{}

/// The fold of a vault's events up to a minute has the level as its sum.
pub fn level_is_read()
    ensures { LevelIsRead }
{}

/// The fold of a vault's departures over some minutes is the fittings leaving it then, and that of its arrivals the fittings coming to it.
pub fn fittings_are_read()
    ensures { FittingsAreRead }
{}

/// The fold of the seams of some runs is sound exactly if they are a chain.
pub fn seams_tell_chains()
    ensures { SeamsTellChains }
{}

/// The fold of the seams of a first in, first out block is sound.
pub fn blocks_are_sound()
    ensures { BlocksAreSound }
{}

/// The number of a departure or an arrival is one more than the keys of its vault below its own.
pub fn numbers_are_read()
    ensures { NumbersAreRead }
{}

/// Departure i and arrival i of a vault stand i - 1 places after the first key of the vault, and beyond the last there is none of the vault.
pub fn stops_are_read()
    ensures { StopsAreRead }
{}

/// What a run takes its box from, and what takes its box next, stand in the other book at the number that the first in, first out rule gives.
pub fn links_are_read()
    ensures { LinksAreRead }
{}

/// A run's entries, put into the books of a timetable, make those of the timetable with the run, and taken out, those of the timetable without it.
pub fn books_follow()
    ensures { BooksFollow }
{}

/// The worked table: the two joins of a departure and an arrival, all that is computed of the five runs, and the five runs' needs, levels and fittings as their books answer them.
pub fn worked_table()
    ensures { WholeTable }
{}

/// Wrong wordings of these statements, each refuted by a small timetable.
pub fn wrong_readings()
    ensures { WrongReadings }
{}
