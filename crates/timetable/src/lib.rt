//! The mathematics of the pool: what a timetable needs at each vault, and that first in, first out does with exactly that.
//!
//! Every function here is a law: it does nothing, and its contract is a theorem about every timetable.
//! The definitions and statements are in specs/, and docs/THEORY.md tells the argument of each.
#![tactic(auto)]

ghost use Rattle.timetable.specs.Laws.{OneNeed, OneCriticalMinute, OneAnswer, TotalIsTheSum, SameIsShuffled, NoneWithFewer, OneQueue, FirstInIsThere, NumbersArePlaces, PlacesAreNumbers, FifoSendsTheNeed, BlocksAreChains, FifoCanBeDone, EachBoxOnce, TotalIsTheLeast};
ghost use Rattle.timetable.specs.Links.{EachRunOnce, BlocksAreFixed, OneBefore, OneAfter, LinksUndo, AfterInTime, NeighboursAreLinks, WalkingGivesTheBlock};
ghost use Rattle.timetable.specs.Table.{WorkedTable};
ghost use Rattle.timetable.specs.Wrong.{WrongWordings};

/// Every vault has exactly one need: the highest of 0 and its levels at the minutes at which runs start.
pub fn one_need()
    ensures { OneNeed }
{}

/// A need above 0 has exactly one critical minute, and a run leaves the vault in that minute.
pub fn one_critical_minute()
    ensures { OneCriticalMinute }
{}

/// The question for a need has exactly one answer: the figure, and the critical minute unless it is 0.
pub fn one_answer()
    ensures { OneAnswer }
{}

/// The total is the sum of the needs.
pub fn total_is_the_sum()
    ensures { TotalIsTheSum }
{}

/// Two lists hold the same runs exactly if one is the other put into another order.
pub fn same_is_shuffled()
    ensures { SameIsShuffled }
{}

/// None does with fewer: every way of giving the runs to boxes sends out of every vault at least its need.
pub fn none_with_fewer()
    ensures { NoneWithFewer }
{}

/// The departures of a vault can be put into order in exactly one way, and so can its arrivals.
pub fn one_queue()
    ensures { OneQueue }
{}

/// The arrival that a departure is given exists, and is in time.
pub fn first_in_is_there()
    ensures { FirstInIsThere }
{}

/// The number of a departure or an arrival is its position in the queue of its vault.
pub fn numbers_are_places()
    ensures { NumbersArePlaces }
{}

/// Every run is found in the departures of its from-vault at its departure number, and in the arrivals of its to-vault at its arrival number.
pub fn places_are_numbers()
    ensures { PlacesAreNumbers }
{}

/// First in, first out blocks are a way of giving the runs to boxes, and send out of every vault exactly its need.
pub fn fifo_sends_the_need()
    ensures { FifoSendsTheNeed }
{}

/// Every first in, first out block is a chain, so its seam is sound.
pub fn blocks_are_chains()
    ensures { BlocksAreChains }
{}

/// Every timetable has first in, first out blocks, in the order of the sheet.
pub fn fifo_can_be_done()
    ensures { FifoCanBeDone }
{}

/// Each box of a vault, from 1 to its need, has exactly one block, and no other box has one.
pub fn each_box_once()
    ensures { EachBoxOnce }
{}

/// Each run of the timetable stands in exactly one place of one block, and no other run does.
pub fn each_run_once()
    ensures { EachRunOnce }
{}

/// The relation fixes the blocks: two lists of first in, first out blocks of a timetable, in the order of the sheet, are equal.
pub fn blocks_are_fixed()
    ensures { BlocksAreFixed }
{}

/// Every run of the timetable takes its box from exactly one box that sets out, or from exactly one run that brought it.
pub fn one_before()
    ensures { OneBefore }
{}

/// Every run of the timetable has exactly one run that takes its box next, or none.
pub fn one_after()
    ensures { OneAfter }
{}

/// Before and after undo each other: a run is after another exactly if that one is before it.
pub fn links_undo()
    ensures { LinksUndo }
{}

/// After never goes back in time: the next run starts in the vault that the box has reached, when it has reached it.
pub fn after_in_time()
    ensures { AfterInTime }
{}

/// Neighbours in a block are exactly links, and the first runs of blocks are exactly those that take a box out of its vault.
pub fn neighbours_are_links()
    ensures { NeighboursAreLinks }
{}

/// Walking by after from the first run of a box gives its block, in at most as many steps as there are runs.
pub fn walking_gives_the_block()
    ensures { WalkingGivesTheBlock }
{}

/// The total is the least number of boxes that any way can use, and first in, first out uses that many.
pub fn total_is_the_least()
    ensures { TotalIsTheLeast }
{}

/// The worked table: levels, needs, links, blocks and fittings of the five runs of the example, and the totals that are commonly miscounted, computed against the definitions.
pub fn worked_table()
    ensures { WorkedTable }
{}

/// Twelve wrong wordings of the theorems, each refuted by a small timetable.
pub fn wrong_wordings()
    ensures { WrongWordings }
{}
