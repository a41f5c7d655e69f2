//! Readers walked by hand.

use fault::{Located, PageFault, Section};
use page::stage::Before;
use page::{AtEdits, AtNames, Reader, Record, name_of};
use page_format::{Edit, Retime};
use run::Run;
use std::process::Abort;
use std::test::Fail;

/// Names `ab` and `c`, one run, an edit of each kind, and one byte too many.
const PAGE: &[u8; 54] =
    b"\x02\x02ab\x01c\x00\x01\x01\x02\x03\x04\x00\x00\x01\x00\x00\x01\x00\x00\x80\x01\x00\x03\x01\x04\x00\x05\x06\x00\x00\x00\x07\x00\x00\x00\x08\x00\x09\x02\x03\xe8\x03\x00\x01\x00\x00\x00\x09\xff\xff\xff\xff\x00";

/// The reader at the next section.
fn past<'a, S: Before>(reader: Reader<'a, S>) -> Result<Reader<'a, S::Next>, Located> {
    Ok(reader.step()?)
}

fn to_end(edits: AtEdits) -> Result<usize, Located> {
    Ok(edits.step()?.len())
}

/// The next record is this name.
fn names_next(rt: &impl Abort, names: &mut AtNames, name: &[u8]) -> Result<(), Fail> {
    match names.next()? {
        Some(Record::Name(part)) => {
            assert_eq!(rt; part, name);
            Ok(())
        },
        _ => Err(Fail::new("no name")),
    }
}

/// The next record says this edit.
fn edits_next(rt: &impl Abort, edits: &mut AtEdits, edit: Edit) -> Result<(), Fail> {
    match edits.next()? {
        Some(record) => {
            assert_eq!(rt; record.edit(), Some(edit));
            Ok(())
        },
        None => Err(Fail::new("no edit")),
    }
}

#[test]
fn names_in_their_order(rt: HostRuntime) -> Result<(), Fail> {
    let mut names = AtNames::new(PAGE);
    names_next(&rt, &mut names, b"ab")?;
    names_next(&rt, &mut names, b"c")?;
    assert!(rt; names.next()?.is_none());
    assert!(rt; names.next()?.is_none());
    Ok(())
}

#[test]
fn runs_in_their_order(rt: HostRuntime) -> Result<(), Fail> {
    let mut runs = past(AtNames::new(PAGE))?;
    let run = runs.next()?.ok_or("a run")?;
    assert_eq!(rt;
        run.add(),
        Some(Run {
            number: 258,
            from: 3,
            to: 4,
            start: 256,
            end: 65_536,
            fittings: 32_769,
        })
    );
    assert!(rt; runs.next()?.is_none());
    Ok(())
}

#[test]
fn edits_in_their_order(rt: HostRuntime) -> Result<(), Fail> {
    let page: &[u8] = PAGE;
    let mut edits = past(past(AtNames::new(&page[0..53]))?)?;
    edits_next(
        &rt,
        &mut edits,
        Edit::Add(Run {
            number: 1024,
            from: 5,
            to: 6,
            start: 7,
            end: 8,
            fittings: 9,
        }),
    )?;
    edits_next(&rt, &mut edits, Edit::Cancel(1000))?;
    edits_next(
        &rt,
        &mut edits,
        Edit::Retime(Retime {
            run: 1,
            start: 9,
            end: 4_294_967_295,
        }),
    )?;
    assert!(rt; edits.next()?.is_none());
    assert_eq!(rt; to_end(edits)?, 53);
    Ok(())
}

#[test]
fn records_of_another_size_say_nothing(rt: HostRuntime) {
    assert!(rt; Record::Add(b"short").add().is_none());
    assert!(rt; Record::Cancel(b"abc").edit().is_none());
    assert!(rt; Record::Name(b"ab").edit().is_none());
}

#[test]
fn a_refused_step_hands_the_reader_back(rt: HostRuntime) -> Result<(), Fail> {
    let edits = past(past(AtNames::new(PAGE))?)?;
    let Err(refused) = edits.step() else {
        return Err(Fail::new("a byte follows the last record"));
    };
    assert_eq!(rt; refused.fault, PageFault::Excess.at(Section::Edits, 0, 53));
    let mut edits = refused.reader;
    assert!(rt; edits.next()?.is_some());
    Ok(())
}

#[test]
fn a_bad_count_shows_at_each_call(rt: HostRuntime) -> Result<(), Fail> {
    let high = PageFault::CountAboveLimit.at(Section::Names, 0, 0);
    let mut names = AtNames::new(b"A");
    assert!(rt; names.count() == Err(high));
    let Err(fault) = names.next() else {
        return Err(Fail::new("65 names"));
    };
    assert_eq!(rt; fault, high);
    let Err(refused) = names.step() else {
        return Err(Fail::new("65 names"));
    };
    assert_eq!(rt; refused.fault, high);
    Ok(())
}

#[test]
fn a_fault_leaves_the_reader(rt: HostRuntime) -> Result<(), Fail> {
    let mut names = AtNames::new(b"\x02\x01a\x01 \x00\x00\x00\x00");
    names_next(&rt, &mut names, b"a")?;
    for _ in 0..2 {
        let Err(fault) = names.next() else {
            return Err(Fail::new("a space in a name"));
        };
        assert_eq!(rt; fault, PageFault::BadName.at(Section::Names, 2, 3));
    }
    Ok(())
}

/// Vault k has this name, which begins there.
fn is_named(rt: &impl Abort, k: usize, place: usize, name: &[u8]) -> Result<(), Fail> {
    let (at, part) = name_of(PAGE, k).ok_or("a name")?;
    assert_eq!(rt; at, place);
    assert_eq!(rt; part, name);
    Ok(())
}

#[test]
fn names_of_vaults(rt: HostRuntime) -> Result<(), Fail> {
    is_named(&rt, 0, 2, b"ab")?;
    is_named(&rt, 1, 5, b"c")?;
    assert!(rt; name_of(PAGE, 2).is_none());
    assert!(rt; name_of(PAGE, 18_446_744_073_709_551_615).is_none());
    assert!(rt; name_of(b"", 0).is_none());
    assert!(rt;
        name_of(b"\x02\x01a\x01 ", 0).is_none(),
        "a fault in a later name"
    );
    Ok(())
}
