//! The readers: one type for each place in a page, so that a reader offers only the records of the
//! section that it is at.

ghost use Rattle.std.specs.Prelude.{◌≡◌, ℕ, length, Ok, Err, IfOk, IfErr, OnOk};
ghost use Rattle.fault.specs.declared.Section.TheVariants as section;
ghost use Rattle.page_records.specs.Steps.{counted_at, opening, rest_of};
ghost use Rattle.page_records.specs.Takes.{Next};
ghost use Rattle.page.specs.Reads.{Opened, edits_end};

use crate::stage::{Before, Edits, Names, Runs, Stage};
use fault::Located;
use page_records::{Record, Scan, page_end};
use std::marker::PhantomData;

/// A refused step: the fault, and the reader where it was.
#[derive(Drop)]
pub struct Refused<R> {
    pub fault: Located,
    pub reader: R,
}

impl<R: Drop> From<Refused<R>> for Located {
    ghost from_gives = { λ e r. r ≡ e.fault };

    fn from(e: Refused<R>) -> Located {
        e.fault
    }
}

/// A reader at a section of a page.
#[derive(Drop)]
pub struct Reader<'a, S: Stage> {
    scan: Scan<'a>,
    stage: PhantomData<S>,
    ghost here: { scan.section ≡ S.SECTION },
}

/// A reader at the names.
pub type AtNames<'a> = Reader<'a, Names>;

/// A reader at the runs.
pub type AtRuns<'a> = Reader<'a, Runs>;

/// A reader at the edits.
pub type AtEdits<'a> = Reader<'a, Edits>;

/// A reader at the end of a whole page.
#[derive(Drop)]
pub struct AtEnd<'a> {
    page: &'a [u8],
}

impl<'a, S: Stage> Reader<'a, S> {
    /// A reader at the section whose count stands at a byte.
    fn open(page: &'a [u8], start: usize) -> Reader<'a, S>
        ensures same { result.scan.page ≡ page.entry }
        ensures first { result.scan.cursor ≡ opening S.SECTION page.now start }
    {
        Reader {
            scan: Scan::open(page, S::SECTION, start),
            stage: PhantomData,
        }
    }

    /// How many records the page says that the section has, or the fault of that count.
    pub fn count(&self) -> Result<u16, Located>
        ensures { result ≡ counted_at S.SECTION self.now.scan.page.now self.now.scan.cursor.start }
    {
        self.scan.count()
    }

    /// The next record, none after the last, or the fault, which leaves the reader where it was.
    pub fn next(&mut self) -> Result<Option<Record<'a>>, Located>
        ensures same { self.new.scan.page ≡ self.old.scan.page }
        ensures next { Next S.SECTION self.old.scan.page.now self.old.scan.cursor self.new.scan.cursor result }
    {
        self.scan.next()
    }
}

impl<'a, S: Before> Reader<'a, S> {
    /// Checks the records that are left, and moves on to the next section; a fault hands the reader
    /// back.
    pub fn step(self) -> Result<Reader<'a, S::Next>, Refused<Reader<'a, S>>>
        ensures same { IfOk result (λ n. n.scan.page ≡ self.entry.scan.page) }
        ensures opened { IfOk result (λ n. Opened S.SECTION S.Next.SECTION self.entry.scan.page.now self.entry.scan.cursor n.scan.cursor) }
        ensures fault { IfErr result (λ e. rest_of S.SECTION self.entry.scan.page.now self.entry.scan.cursor ≡ Err e.fault) }
        ensures back { IfErr result (λ e. e.reader ≡ self.entry) }
    {
        match self.scan.end() {
            Ok(end) => Ok(Reader::open(self.scan.page, end)),
            Err(fault) => Err(Refused {
                fault,
                reader: self,
            }),
        }
    }
}

impl<'a> Reader<'a, Names> {
    /// A reader at the names of a page, which may be any bytes.
    pub fn new(page: &'a [u8]) -> AtNames<'a>
        ensures same { result.scan.page ≡ page.entry }
        ensures first { result.scan.cursor ≡ opening section.Names page.now 0 }
    {
        Reader::open(page, 0)
    }
}

impl<'a> Reader<'a, Edits> {
    /// Where the edits end that are left, which has to be where the page ends.
    fn end(&self) -> Result<usize, Located>
        ensures { result ≡ edits_end self.now.scan.page.now self.now.scan.cursor }
    {
        let end = self.scan.end()?;
        page_end(self.scan.page, end)
    }

    /// Checks the edits that are left and that no byte follows them; a fault hands the reader back.
    pub fn step(self) -> Result<AtEnd<'a>, Refused<AtEdits<'a>>>
        ensures same { IfOk result (λ n. n.page ≡ self.entry.scan.page) }
        ensures whole { OnOk result ((end : ℕ) × (edits_end self.entry.scan.page.now self.entry.scan.cursor ≡ Ok end)) }
        ensures fault { IfErr result (λ e. edits_end self.entry.scan.page.now self.entry.scan.cursor ≡ Err e.fault) }
        ensures back { IfErr result (λ e. e.reader ≡ self.entry) }
    {
        match self.end() {
            Ok(_) => Ok(AtEnd {
                page: self.scan.page,
            }),
            Err(fault) => Err(Refused {
                fault,
                reader: self,
            }),
        }
    }
}

impl<'a> AtEnd<'a> {
    /// How many bytes the page has.
    pub fn len(&self) -> usize
        ensures { result ≡ length self.now.page.now }
    {
        self.page.len()
    }
}
