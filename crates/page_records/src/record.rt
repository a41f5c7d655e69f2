//! The records of a page, each as its part of the caller's bytes, and what they say.

ghost use Rattle.std.specs.Prelude.{◌≡◌};
ghost use Rattle.page_format.specs.Reading.{add_of, retime_of};
ghost use Rattle.page_records.specs.Records.{add_in, edit_in};

use page_format::{Edit, Retime};
use run::Run;

/// How many bytes the part of an add has.
pub(crate) const ADD: usize = 14;
/// How many bytes the part of a cancel has.
pub(crate) const CANCEL: usize = 2;
/// How many bytes the part of a retime has.
pub(crate) const RETIME: usize = 10;

/// A record of a page. Each case borrows its part of the page.
#[derive(Clone, Copy)]
pub enum Record<'a> {
    /// a vault's name: its letters
    Name(&'a [u8]),
    /// a run to be added: its fourteen bytes
    Add(&'a [u8]),
    /// a run to be cancelled: the two bytes of its number
    Cancel(&'a [u8]),
    /// a run's new times: the ten bytes of its number, start and end
    Retime(&'a [u8]),
}

fn decode_add(part: &[u8; ADD]) -> Run
    ensures { result ≡ add_of part.now }
{
    let [n0, n1, from, to, s0, s1, s2, s3, e0, e1, e2, e3, f0, f1] = *part;
    Run {
        number: u16::from_be_bytes([n0, n1]),
        from,
        to,
        start: u32::from_be_bytes([s0, s1, s2, s3]),
        end: u32::from_be_bytes([e0, e1, e2, e3]),
        fittings: u16::from_be_bytes([f0, f1]),
    }
}

fn decode_retime(part: &[u8; RETIME]) -> Retime
    ensures { result ≡ retime_of part.now }
{
    let [n0, n1, s0, s1, s2, s3, e0, e1, e2, e3] = *part;
    Retime {
        run: u16::from_be_bytes([n0, n1]),
        start: u32::from_be_bytes([s0, s1, s2, s3]),
        end: u32::from_be_bytes([e0, e1, e2, e3]),
    }
}

impl<'a> Record<'a> {
    /// The run that an add says; none for another record, or for a part that is not fourteen bytes.
    pub fn add(self) -> Option<Run>
        ensures { result ≡ add_in self.entry }
    {
        match self {
            Record::Add(part) => Some(decode_add(part.as_array()?)),
            _ => None,
        }
    }

    /// The edit that an add, a cancel or a retime says; none for a name, or for a part of another
    /// size than its case has.
    pub fn edit(self) -> Option<Edit>
        ensures { result ≡ edit_in self.entry }
    {
        match self {
            Record::Name(_) => None,
            Record::Add(_) => self.add().map(Edit::Add),
            Record::Cancel(part) => Some(Edit::Cancel(u16::from_be_bytes(*part.as_array()?))),
            Record::Retime(part) => Some(Edit::Retime(decode_retime(part.as_array()?))),
        }
    }
}
