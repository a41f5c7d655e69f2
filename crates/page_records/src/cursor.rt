ghost use Rattle.std.specs.Prelude.{◌≡◌, ◌+◌, ◌^◌, ◌<◌};
ghost use Rattle.page_records.specs.Steps.{moved};

/// How far a reader has come in its section.
#[derive(Clone, Copy, PartialEq, Eq, Debug)]
pub struct Cursor {
    /// the byte where the section's count stands
    pub start: usize,
    /// how many records the reader has handed out
    pub read: u16,
    /// the byte where the next record begins
    pub at: usize,
}

impl Cursor {
    /// The cursor past a record of this size.
    pub(crate) fn past(self, size: usize) -> Cursor
        requires one_more { self.read + 1 < 2 ^ 16 }
        requires within { self.at + size < 2 ^ 64 }
        ensures { result ≡ moved self size }
    {
        Cursor {
            read: self.read + 1,
            at: self.at + size,
            ..self
        }
    }
}
