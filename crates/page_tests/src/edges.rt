//! Each limit and one past it, each truncation, each fault at its first possible place.

use fault::{Located, PageFault, Section};
use page::check;
use page_format::Counts;
use std::alloc::{AllocError, Global};
use std::iter::repeat_n;
use std::process::Abort;
use std::test::Fail;

/// The page is refused so, at that place.
fn refuses(rt: &impl Abort, page: &[u8], fault: Located) {
    assert_eq!(rt; check(page), Err(fault));
}

/// The page has so many records.
fn has(rt: &impl Abort, page: &[u8], names: u16, runs: u16, edits: u16) {
    assert_eq!(rt; check(page), Ok(Counts { names, runs, edits }));
}

/// A page with one name of a length and a letter, and nothing else.
fn one_name(heap: Global, length: u8, letter: u8) -> Result<Vec<u8>, AllocError> {
    let mut page = vec![in heap; 1, length]?;
    page.extend(repeat_n(letter, usize::from(length)))?;
    page.extend_from_slice(&[0; 4])?;
    Ok(page)
}

/// A page with so many names, runs and cancels, and the counts that say so.
fn full_page(heap: Global, names: u8, runs: u16, edits: u16) -> Result<Vec<u8>, AllocError> {
    let mut page = vec![in heap; names]?;
    for _ in 0..names {
        page.extend_from_slice(b"\x01a")?;
    }
    page.extend_from_slice(&runs.to_be_bytes())?;
    page.extend(repeat_n(0, 14 * usize::from(runs)))?;
    page.extend_from_slice(&edits.to_be_bytes())?;
    page.extend(repeat_n(2, 3 * usize::from(edits)))?;
    Ok(page)
}

#[test]
fn counts_at_their_limits(rt: HostRuntime) -> Result<(), Fail> {
    let heap = rt.alloc();
    let high = PageFault::CountAboveLimit;
    has(&rt, &full_page(heap, 0, 0, 0)?, 0, 0, 0);
    has(&rt, &full_page(heap, 64, 1024, 2048)?, 64, 1024, 2048);
    refuses(
        &rt,
        &full_page(heap, 65, 0, 0)?,
        high.at(Section::Names, 0, 0),
    );
    refuses(
        &rt,
        &full_page(heap, 2, 1025, 0)?,
        high.at(Section::Runs, 0, 5),
    );
    refuses(
        &rt,
        &full_page(heap, 0, 2, 2049)?,
        high.at(Section::Edits, 0, 31),
    );
    Ok(())
}

#[test]
fn names_at_their_limits(rt: HostRuntime) -> Result<(), Fail> {
    let heap = rt.alloc();
    has(&rt, &one_name(heap, 1, 33)?, 1, 0, 0);
    has(&rt, &one_name(heap, 24, 126)?, 1, 0, 0);
    refuses(
        &rt,
        &one_name(heap, 0, 97)?,
        PageFault::BadName.at(Section::Names, 1, 1),
    );
    refuses(
        &rt,
        &one_name(heap, 25, 97)?,
        PageFault::BadName.at(Section::Names, 1, 1),
    );
    refuses(
        &rt,
        &one_name(heap, 1, 32)?,
        PageFault::BadName.at(Section::Names, 1, 1),
    );
    refuses(
        &rt,
        &one_name(heap, 24, 127)?,
        PageFault::BadName.at(Section::Names, 1, 1),
    );
    Ok(())
}

/// One name, one run, one cancel: 24 bytes.
const SMALL: &[u8; 24] =
    b"\x01\x01a\x00\x01\x00\x07\x00\x00\x00\x00\x00d\x00\x00\x00\xa0\x00\x01\x00\x01\x02\x00\x07";

/// The section, record and first byte of what is cut where the small page ends after n bytes.
fn cut_at(n: usize) -> (Section, u16, usize) {
    match n {
        0 => (Section::Names, 0, 0),
        1..=2 => (Section::Names, 1, 1),
        3..=4 => (Section::Runs, 0, 3),
        5..=18 => (Section::Runs, 1, 5),
        19..=20 => (Section::Edits, 0, 19),
        _ => (Section::Edits, 1, 21),
    }
}

#[test]
fn every_truncation(rt: HostRuntime) {
    let small: &[u8] = SMALL;
    for n in 0..24 {
        let (section, record, byte) = cut_at(n);
        refuses(
            &rt,
            &small[0..n],
            PageFault::Short.at(section, record, byte),
        );
    }
    has(&rt, small, 1, 1, 1);
}

#[test]
fn each_fault_at_its_first_place(rt: HostRuntime) {
    refuses(&rt, b"", PageFault::Short.at(Section::Names, 0, 0));
    refuses(
        &rt,
        b"A",
        PageFault::CountAboveLimit.at(Section::Names, 0, 0),
    );
    refuses(
        &rt,
        b"\x01\x00",
        PageFault::BadName.at(Section::Names, 1, 1),
    );
    refuses(
        &rt,
        b"\x00\x00\x00\x00\x01\x00",
        PageFault::EditKind.at(Section::Edits, 1, 5),
    );
    refuses(
        &rt,
        b"\x00\x00\x00\x00\x00\x00",
        PageFault::Excess.at(Section::Edits, 0, 5),
    );
}

#[test]
fn length_before_short_and_byte_after(rt: HostRuntime) {
    refuses(
        &rt,
        b"\x01\x19a",
        PageFault::BadName.at(Section::Names, 1, 1),
    );
    refuses(&rt, b"\x01\x18a", PageFault::Short.at(Section::Names, 1, 1));
    refuses(&rt, b"\x01\x18 ", PageFault::Short.at(Section::Names, 1, 1));
    refuses(
        &rt,
        b"\x00\x00\x00\x00\x01\x04",
        PageFault::EditKind.at(Section::Edits, 1, 5),
    );
    refuses(
        &rt,
        b"\x00\x00\x00\x00\x01\x03",
        PageFault::Short.at(Section::Edits, 1, 5),
    );
}

#[test]
fn a_long_input_of_any_content(rt: HostRuntime) -> Result<(), Fail> {
    let mut zeros = Vec::new(rt.alloc());
    zeros.extend(repeat_n(0, 70_000))?;
    refuses(&rt, &zeros, PageFault::Excess.at(Section::Edits, 0, 5));
    let mut ones = Vec::new(rt.alloc());
    ones.extend(repeat_n(255, 70_000))?;
    refuses(
        &rt,
        &ones,
        PageFault::CountAboveLimit.at(Section::Names, 0, 0),
    );
    Ok(())
}
