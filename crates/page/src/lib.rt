//! Readers of a page, a caller's bytes in three sections: names, runs and edits.
//!
//! A reader is at the names, at the runs, at the edits or at the end, and offers only the records of
//! that section. `check` looks at a whole page, and `name_of` hands out one vault's name.
#![tactic(auto)]

mod reader;
pub mod stage;
mod whole;

pub use page_records::{Cursor, Record, Scan};
pub use reader::{AtEdits, AtEnd, AtNames, AtRuns, Reader, Refused};
pub use whole::{check, name_of};
