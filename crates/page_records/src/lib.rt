//! Counts and records looked at in place on a page: how long they are, where a section ends, which
//! fault they have, and what a record says. The readers of a page stand on this.
#![tactic(auto)]

mod cursor;
mod kind;
mod parts;
mod record;
mod scan;

pub use cursor::Cursor;
pub use record::Record;
pub use scan::{Scan, page_end};
