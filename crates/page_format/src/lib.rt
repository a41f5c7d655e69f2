//! The page format: what a page says, which bytes say it, and how bytes are read back, with the
//! laws that tie the two. The readers of the crate `page` are proved against these definitions.
#![tactic(auto)]

ghost use Rattle.page_format.specs.Laws.{ReadsBack, WritesBack, OneReading, PlacesWithin};

use run::Run;

mod text;

/// A run's new times, as a page says them.
#[derive(Clone, Copy, PartialEq, Eq, Debug)]
pub struct Retime {
    pub run: u16,
    pub start: u32,
    pub end: u32,
}

/// One edit of a page's last section.
#[derive(Clone, Copy, PartialEq, Eq, Debug)]
pub enum Edit {
    Add(Run),
    Cancel(u16),
    Retime(Retime),
}

/// How many records each section of a page has.
#[derive(Clone, Copy, PartialEq, Eq, Debug)]
pub struct Counts {
    pub names: u16,
    pub runs: u16,
    pub edits: u16,
}

/// What a page says is read back from its bytes.
pub fn reads_back()
    ensures { ReadsBack }
{}

/// Bytes that are read whole are the bytes of what they say.
pub fn writes_back()
    ensures { WritesBack }
{}

/// A page has at most one reading.
pub fn one_reading()
    ensures { OneReading }
{}

/// A fault's place lies within the page or at its end.
pub fn places_within()
    ensures { PlacesWithin }
{}
