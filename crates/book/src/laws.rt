//! The laws of entries, for values of any type.

ghost use Rattle.book.specs.Laws.{MembersFixTheList, InsertAddsOne, RemoveTakesOne, EditsCommute, RemoveUndoesInsert, PlacesCountKeys, BetweenIsAStretch, FoldsSplit};

/// Two books with the same entries hold them in the same order.
pub fn members_fix_the_list<V>()
    ensures { MembersFixTheList V }
{}

/// An insert at a key that is not held adds that entry and changes no other.
pub fn insert_adds_one<V>()
    ensures { InsertAddsOne V }
{}

/// A removal takes the entry at its key out and changes no other.
pub fn remove_takes_one<V>()
    ensures { RemoveTakesOne V }
{}

/// Inserts and removals at different keys give the same entries in any order.
pub fn edits_commute<V>()
    ensures { EditsCommute V }
{}

/// An insert at a key that is not held, and then a removal of the key, is nothing.
pub fn remove_undoes_insert<V>()
    ensures { RemoveUndoesInsert V }
{}

/// What stands at a place has that many keys below it, and a held key stands at that place.
pub fn places_count_keys<V>()
    ensures { PlacesCountKeys V }
{}

/// The entries between two keys stand next to each other.
pub fn between_is_a_stretch<V>()
    ensures { BetweenIsAStretch V }
{}

/// A fold over lo..mid joined with one over mid..hi is the fold over lo..hi.
pub fn folds_split<V>()
    ensures { FoldsSplit V }
{}
