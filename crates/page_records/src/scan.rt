//! A section of a page, read record by record.

ghost use Rattle.std.specs.Prelude.{◌≡◌, ◌<◌, ◌≤◌, IfOk};
ghost use Rattle.page_format.specs.Grammar.{limit};
ghost use Rattle.page_format.specs.Reading.{at_end};

use crate::cursor::Cursor;
use crate::parts::{count_of, record_of, rest, width};
use crate::record::Record;
use fault::{Located, PageFault, Section};

/// A section of a page, and how far it is read.
#[derive(Clone, Copy)]
pub struct Scan<'a> {
    pub page: &'a [u8],
    pub section: Section,
    pub cursor: Cursor,
}

impl<'a> Scan<'a> {
    ghost use Rattle.page_records.specs.Steps.{counted_at, opening, rest_of};
    ghost use Rattle.page_records.specs.Takes.{Next, Took};

    /// The section whose count stands at a byte, with the cursor at its first record.
    pub fn open(page: &'a [u8], section: Section, start: usize) -> Scan<'a>
        ensures same { (result.page ≡ page.entry) × (result.section ≡ section) }
        ensures first { result.cursor ≡ opening section page.now start }
    {
        let width = width(section);
        let at = if width <= rest(page, start).len() {
            start + width
        } else {
            start
        };
        Scan {
            page,
            section,
            cursor: Cursor { start, read: 0, at },
        }
    }

    // These are inlined, so that where the section is known it is not looked at for each record.

    /// How many records the section has, or the fault of its count.
    #[inline(always)]
    pub fn count(&self) -> Result<u16, Located>
        ensures value { result ≡ counted_at self.now.section self.now.page.now self.now.cursor.start }
        ensures few { IfOk result (λ n. n ≤ limit self.now.section) }
    {
        let section = self.section;
        let start = self.cursor.start;
        let counted = count_of(section, rest(self.page, start));
        counted.map_err(|fault| fault.at(section, 0, start))
    }

    /// Takes the record at the cursor, or tells its fault.
    #[inline(always)]
    fn take(&mut self) -> Result<Record<'a>, Located>
        requires { self.old.cursor.read < 2048 }
        ensures same { (self.new.page ≡ self.old.page) × (self.new.section ≡ self.old.section) }
        ensures took { Took self.old.section self.old.page.now self.old.cursor self.new.cursor result }
    {
        let section = self.section;
        let at = self.cursor.at;
        let number = self.cursor.read + 1;
        let found = record_of(section, rest(self.page, at));
        let (record, size) = found.map_err(|fault| fault.at(section, number, at))?;
        self.cursor = self.cursor.past(size);
        Ok(record)
    }

    /// The next record, none after the last, or the fault, which leaves the cursor where it was.
    #[inline(always)]
    pub fn next(&mut self) -> Result<Option<Record<'a>>, Located>
        ensures same { (self.new.page ≡ self.old.page) × (self.new.section ≡ self.old.section) }
        ensures next { Next self.old.section self.old.page.now self.old.cursor self.new.cursor result }
    {
        if self.count()? <= self.cursor.read {
            return Ok(None);
        }
        self.take().map(Some)
    }

    /// Where the section ends, or its first fault from the cursor on.
    #[inline(always)]
    pub fn end(&self) -> Result<usize, Located>
        ensures { result ≡ rest_of self.now.section self.now.page.now self.now.cursor }
    {
        let count = self.count()?;
        let mut scan = *self;
        for _ in self.cursor.read..count {
            scan.take()?;
        }
        Ok(scan.cursor.at)
    }
}

/// Nothing may follow the last record: where it ends, or the fault of the bytes past it.
pub fn page_end(page: &[u8], at: usize) -> Result<usize, Located>
    ensures { result ≡ at_end page.now at }
{
    if at < page.len() {
        return Err(PageFault::Excess.at(Section::Edits, 0, at));
    }
    Ok(at)
}
