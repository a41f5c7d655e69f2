//! The kinds of edits.

ghost use Rattle.std.specs.Prelude.{◌≡◌};
ghost use Rattle.page_format.specs.Reading.{kind_size};
ghost use Rattle.page_records.specs.Kinds.{code_of, Decodes};
ghost use Rattle.page_records.specs.Records.{of_kind};

use crate::record::{ADD, CANCEL, RETIME, Record};
use fault::PageFault;

/// What an edit does.
#[derive(Clone, Copy, PartialEq, Eq, Debug)]
pub(crate) enum EditKind {
    Add,
    Cancel,
    Retime,
}

impl TryFrom<u8> for EditKind {
    type Error = PageFault;

    ghost try_from_gives = { Decodes };

    fn try_from(code: u8) -> Result<EditKind, PageFault> {
        match code {
            1 => Ok(EditKind::Add),
            2 => Ok(EditKind::Cancel),
            3 => Ok(EditKind::Retime),
            _ => Err(PageFault::EditKind),
        }
    }
}

impl EditKind {
    /// How many bytes follow the byte of the kind.
    pub(crate) fn size(self) -> usize
        ensures { result ≡ kind_size (code_of self) }
    {
        match self {
            EditKind::Add => ADD,
            EditKind::Cancel => CANCEL,
            EditKind::Retime => RETIME,
        }
    }

    /// The record of an edit of this kind.
    pub(crate) fn record<'a>(self, part: &'a [u8]) -> Record<'a>
        ensures { result ≡ of_kind (code_of self) part.entry }
    {
        match self {
            EditKind::Add => Record::Add(part),
            EditKind::Cancel => Record::Cancel(part),
            EditKind::Retime => Record::Retime(part),
        }
    }
}
