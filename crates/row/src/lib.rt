//! The row: a book that keeps its entries in rising key in one stretch of memory that the caller
//! hands over and gets back.
#![tactic(auto)]

mod calls;
mod entry;
mod row;
mod slots;

pub use entry::Entry;
pub use row::Row;
