//! Counts and records looked at in place: what they are, or which fault they have.

ghost use Rattle.std.specs.Prelude.{◌≡◌, drop};
ghost use Rattle.fault.specs.declared.Section.TheVariants.{Names, Runs, Edits};
ghost use Rattle.page_format.specs.Grammar.{limit, width};
ghost use Rattle.page_format.specs.Reading.{lettered};
ghost use Rattle.page_records.specs.Steps.{counted};
ghost use Rattle.page_records.specs.Takes.{First};

use crate::kind::EditKind;
use crate::record::{ADD, Record};
use fault::{PageFault, Section};

/// The page from a byte on; nothing where the page ends before it.
pub(crate) fn rest<'a>(page: &'a [u8], at: usize) -> &'a [u8]
    ensures { result.now ≡ drop at page.now }
{
    &page[at.min(page.len())..]
}

/// How many bytes the count of a section has.
pub(crate) fn width(section: Section) -> usize
    ensures { result ≡ width section }
{
    match section {
        Section::Names => 1,
        Section::Runs | Section::Edits => 2,
    }
}

/// How many records a section may have.
fn limit(section: Section) -> u16
    ensures { result ≡ limit section }
{
    match section {
        Section::Names => 64,
        Section::Runs => 1024,
        Section::Edits => 2048,
    }
}

/// The count that these bytes begin with, or its fault.
pub(crate) fn count_of(section: Section, s: &[u8]) -> Result<u16, PageFault>
    ensures { result ≡ counted section s.now }
{
    let n = match section {
        Section::Names => u16::from(*s.first().ok_or(PageFault::Short)?),
        Section::Runs | Section::Edits => {
            u16::from_be_bytes(*s.first_chunk().ok_or(PageFault::Short)?)
        }
    };
    if n > limit(section) {
        return Err(PageFault::CountAboveLimit);
    }
    Ok(n)
}

fn is_lettered(bytes: &[u8]) -> bool
    ensures { result ≡ lettered bytes.now }
{
    bytes.iter().all(|b| b.is_ascii_graphic())
}

/// The name that these bytes begin with and its size, or its fault.
fn name<'a>(s: &'a [u8]) -> Result<(Record<'a>, usize), PageFault>
    ensures { First Names s.now result }
{
    let n = usize::from(*s.first().ok_or(PageFault::Short)?);
    if !(1..=24).contains(&n) {
        return Err(PageFault::BadName);
    }
    let part = s.get(1..1 + n).ok_or(PageFault::Short)?;
    if !is_lettered(part) {
        return Err(PageFault::BadName);
    }
    Ok((Record::Name(part), 1 + n))
}

/// The same of a run.
fn run<'a>(s: &'a [u8]) -> Result<(Record<'a>, usize), PageFault>
    ensures { First Runs s.now result }
{
    let part = s.get(..ADD).ok_or(PageFault::Short)?;
    Ok((Record::Add(part), ADD))
}

/// The same of an edit.
fn edit<'a>(s: &'a [u8]) -> Result<(Record<'a>, usize), PageFault>
    ensures { First Edits s.now result }
{
    let kind = EditKind::try_from(*s.first().ok_or(PageFault::Short)?)?;
    let n = kind.size();
    let part = s.get(1..1 + n).ok_or(PageFault::Short)?;
    Ok((kind.record(part), 1 + n))
}

/// The record that these bytes begin with and its size, or its fault. A closure for each section
/// would be made by the same match.
pub(crate) fn record_of<'a>(section: Section, s: &'a [u8]) -> Result<(Record<'a>, usize), PageFault>
    ensures { First section s.now result }
{
    match section {
        Section::Names => name(s),
        Section::Runs => run(s),
        Section::Edits => edit(s),
    }
}
