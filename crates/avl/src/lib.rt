//! The theorems of the balanced tree, on a pure type: each is the contract of a function that does nothing.
//!
//! A node has the index of a cell, a key, a value and two sides. The definitions and statements are in specs/.
#![tactic(auto)]

ghost use Rattle.avl.specs.Laws.{TurnRestoresBalance, NoNeedlessTurn, InsertKeepsBalance, RemoveKeepsBalance, FirstOutKeepsBalance, FewestEntries, HeightIsLow, OrderIsAscending, TurnKeepsOrder, InsertKeepsOrder, RemoveKeepsOrder, TurnKeepsCells, InsertPutsIn, RemoveTakesOut, FirstComesOut, RemovalOfAnUnheldKeyIsNothing, LookupFinds, CountIsLength, InsertAddsOne, RemoveTakesOne, InsertAddsItsIndex, RemoveFreesTheIndexFound, IndicesStayDistinct, BelowIsCount, PlaceIsNth, KeyStandsAtItsCount, TotalIsFold, TurnKeepsTotal, RangeIsFold, EndsAreFolds, FrontIsFirstEntries, WorkedTrees};
ghost use Rattle.avl.specs.Wrong.{WrongWordings};

/// Two balanced sides whose heights differ by two at most make a balanced tree, which is as high as
/// the higher side or higher by one.
pub fn turn_restores_balance<P>()
    ensures { TurnRestoresBalance P }
{}

/// A node in balance is not turned.
pub fn no_needless_turn<P>()
    ensures { NoNeedlessTurn P }
{}

/// A balanced tree with an entry more is balanced, and as high as it was or higher by one.
pub fn insert_keeps_balance<P>()
    ensures { InsertKeepsBalance P }
{}

/// A balanced tree without a key is balanced, and as high as it was or lower by one.
pub fn remove_keeps_balance<P>()
    ensures { RemoveKeepsBalance P }
{}

/// A balanced tree without its first cell is balanced, and as high as it was or lower by one.
pub fn first_out_keeps_balance<P>()
    ensures { FirstOutKeepsBalance P }
{}

/// A balanced tree has as many entries as the least one of its height, or more.
pub fn fewest_entries<P>()
    ensures { FewestEntries P }
{}

/// A balanced tree of at most 2,048 entries is at most 15 high.
pub fn height_is_low<P>()
    ensures { HeightIsLow P }
{}

/// A tree is in order exactly if its entries have strictly rising keys.
pub fn order_is_ascending<P>()
    ensures { OrderIsAscending P }
{}

/// What is turned stays in order.
pub fn turn_keeps_order<P>()
    ensures { TurnKeepsOrder P }
{}

/// An entry put in at a key that is not held leaves the tree in order.
pub fn insert_keeps_order<P>()
    ensures { InsertKeepsOrder P }
{}

/// A removal leaves the tree in order.
pub fn remove_keeps_order<P>()
    ensures { RemoveKeepsOrder P }
{}

/// What is turned keeps its cells, and their order.
pub fn turn_keeps_cells<P>()
    ensures { TurnKeepsCells P }
{}

/// An insert into a tree in order is the insert into the list of its entries.
pub fn insert_puts_in<P>()
    ensures { InsertPutsIn P }
{}

/// A removal from a tree in order is the removal from the list of its entries.
pub fn remove_takes_out<P>()
    ensures { RemoveTakesOut P }
{}

/// A tree's cells are its first cell and those of the tree without it.
pub fn first_comes_out<P>()
    ensures { FirstComesOut P }
{}

/// The removal of a key that is not held leaves a balanced tree as it is.
pub fn removal_of_an_unheld_key_is_nothing<P>()
    ensures { RemovalOfAnUnheldKeyIsNothing P }
{}

/// A search finds the value at a key, or nothing exactly if the key is not held.
pub fn lookup_finds<P>()
    ensures { LookupFinds P }
{}

/// A tree's count is the number of its entries.
pub fn count_is_length<P>()
    ensures { CountIsLength P }
{}

/// An insert raises the count by one.
pub fn insert_adds_one<P>()
    ensures { InsertAddsOne P }
{}

/// The removal of a held key lowers the count by one.
pub fn remove_takes_one<P>()
    ensures { RemoveTakesOne P }
{}

/// An insert adds the new cell's index, and changes no other.
pub fn insert_adds_its_index<P>()
    ensures { InsertAddsItsIndex P }
{}

/// A removal frees the index that a search for the key finds, and changes no other.
pub fn remove_frees_the_index_found<P>()
    ensures { RemoveFreesTheIndexFound P }
{}

/// Indices stay distinct; one that is in no cell stays in none, and neither is one that was freed.
pub fn indices_stay_distinct<P>()
    ensures { IndicesStayDistinct P }
{}

/// The count of keys below one, found on one way down, is that of the entries.
pub fn below_is_count<P>()
    ensures { BelowIsCount P }
{}

/// What is found by a place on one way down is the entry at that place.
pub fn place_is_nth<P>()
    ensures { PlaceIsNth P }
{}

/// A held key stands at the place that is the count of keys below it.
pub fn key_stands_at_its_count<P>()
    ensures { KeyStandsAtItsCount P }
{}

/// What a cell stores of its tree is the fold of the tree's values in order.
pub fn total_is_fold<M>()
    ensures { TotalIsFold M }
{}

/// What is turned keeps its total.
pub fn turn_keeps_total<M>()
    ensures { TurnKeepsTotal M }
{}

/// The fold of a range, by the totals of whole sides, is the fold of the entries in it.
pub fn range_is_fold<M>()
    ensures { RangeIsFold M }
{}

/// So are the folds of a range without an upper end, and without a lower one.
pub fn ends_are_folds<M>()
    ensures { EndsAreFolds M }
{}

/// The fold of the keys below one is the fold of as many first entries as there are such keys.
pub fn front_is_first_entries<M>()
    ensures { FrontIsFirstEntries M }
{}

/// Small trees, computed: seven keys put in one after another, the top taken out, what is found and
/// what it adds up to, and three keys that want two turns.
pub fn worked_trees()
    ensures { WorkedTrees }
{}

/// Six wrong wordings of these statements do not hold.
pub fn wrong_wordings()
    ensures { WrongWordings }
{}
