//! Every refusal of the engine, in one place: the book's fault, which the plan's carries whole,
//! which the page's carries whole, and where in a page a fault lies.
#![tactic(auto)]

ghost use Rattle.std.specs.Prelude.{◌≡◌, Some};
ghost use Rattle.fault.specs.Numbers.{book_number, plan_number, page_number, section_number, layer_of};
ghost use Rattle.fault.specs.Line.{layer_word, section_word, fault_line};
ghost use Rattle.fault.specs.Places.{located};
ghost use Rattle.fault.specs.Laws.{NumbersDiffer, LayersNest};
ghost use Rattle.fault.specs.declared.PlanFault.TheVariants.{Book};
ghost use Rattle.fault.specs.declared.PageFault.TheVariants.{Plan};

use std::fmt;

/// Why a book refuses. A book keeps entries in rising key.
#[derive(Clone, Copy, PartialEq, Eq, Debug)]
pub enum BookFault {
    /// an insert at a key that the book holds
    KeyHeld = 20,
    /// an insert into a book whose count is its capacity
    Full = 21,
    /// a removal of a key that the book does not hold
    NotHeld = 22,
}

impl BookFault {
    /// The number by which operators know the fault.
    pub fn number(self) -> u8
        ensures { result ≡ book_number self }
    {
        self as u8 // 20, 21 or 22
    }
}

/// Why a plan refuses: for a reason of its own, or with the fault of one of its books.
#[derive(Clone, Copy, PartialEq, Eq, Debug)]
pub enum PlanFault {
    /// 6: a page whose names are not as many as the plan's vaults
    NameCount,
    /// 7: a plan opened with no vault or with more than 64
    VaultCount,
    /// 8: a plan opened twice
    AlreadyOpen,
    /// 10: a run number 0 or above 1,024
    RunNumber,
    /// 11: a vault not below the plan's count
    Vault,
    /// 12: a minute above 16,777,215
    Minute,
    /// 13: an end that is not after its start
    EndNotAfterStart,
    /// 14: the run number is not free
    NotFree,
    /// 15: the run number is not standing
    NotStanding,
    /// 16: the run number is not lifted, or the slip is another plan's
    NotLifted,
    /// 18: a box number 0 or above the vault's need
    BoxNumber,
    /// 19: an output shorter than the text
    OutputShort,
    /// a book's fault, whole
    Book(BookFault),
}

impl PlanFault {
    /// The number by which operators know the fault; of a book's fault, the book's number. A match
    /// and no cast, since a variant carries that fault.
    pub fn number(self) -> u8
        ensures { result ≡ plan_number self }
    {
        match self {
            PlanFault::NameCount => 6,
            PlanFault::VaultCount => 7,
            PlanFault::AlreadyOpen => 8,
            PlanFault::RunNumber => 10,
            PlanFault::Vault => 11,
            PlanFault::Minute => 12,
            PlanFault::EndNotAfterStart => 13,
            PlanFault::NotFree => 14,
            PlanFault::NotStanding => 15,
            PlanFault::NotLifted => 16,
            PlanFault::BoxNumber => 18,
            PlanFault::OutputShort => 19,
            PlanFault::Book(fault) => fault.number(),
        }
    }
}

impl From<BookFault> for PlanFault {
    ghost from_gives = { λ e r. r ≡ Book e };

    fn from(e: BookFault) -> PlanFault {
        PlanFault::Book(e)
    }
}

/// Why a page is refused: for its own bytes, or with the fault of the plan that it was read into.
#[derive(Clone, Copy, PartialEq, Eq, Debug)]
pub enum PageFault {
    /// 1: the page ends before a count or a record is whole
    Short,
    /// 2: a count above its limit
    CountAboveLimit,
    /// 3: a name whose length is not 1 to 24, or with a byte that is not 33 to 126
    BadName,
    /// 4: an edit whose kind is not 1, 2 or 3
    EditKind,
    /// 5: bytes after the last record
    Excess,
    /// a plan's fault, whole
    Plan(PlanFault),
}

impl PageFault {
    /// The number by which operators know the fault; of a plan's fault, the plan's number. A match
    /// and no cast, since a variant carries that fault.
    pub fn number(self) -> u8
        ensures { result ≡ page_number self }
    {
        match self {
            PageFault::Short => 1,
            PageFault::CountAboveLimit => 2,
            PageFault::BadName => 3,
            PageFault::EditKind => 4,
            PageFault::Excess => 5,
            PageFault::Plan(fault) => fault.number(),
        }
    }

    /// The layer that the fault comes from, however deep it is carried.
    pub fn layer(self) -> Layer
        ensures { result ≡ layer_of (page_number self) }
    {
        match self {
            PageFault::Plan(PlanFault::Book(_)) => Layer::Book,
            PageFault::Plan(_) => Layer::Plan,
            _ => Layer::Page,
        }
    }

    /// The fault with where it lies: the section, the record, and the byte where that begins.
    pub fn at(self, section: Section, record: u16, byte: usize) -> Located
        ensures { result ≡ located self section «record» byte }
    {
        Located {
            fault: self,
            place: Place {
                section,
                record,
                byte,
            },
        }
    }
}

impl From<PlanFault> for PageFault {
    ghost from_gives = { λ e r. r ≡ Plan e };

    fn from(e: PlanFault) -> PageFault {
        PageFault::Plan(e)
    }
}

/// The layers that refuse: pages (1 to 5), books (20 to 22), and plans (every other number).
#[derive(Clone, Copy, PartialEq, Eq, Debug)]
pub enum Layer {
    Page,
    Plan,
    Book,
}

/// The layer that a number belongs to.
impl From<u8> for Layer {
    ghost from_gives = { λ n r. r ≡ layer_of n };

    fn from(number: u8) -> Layer {
        match number {
            1..=5 => Layer::Page,
            20..=22 => Layer::Book,
            _ => Layer::Plan,
        }
    }
}

impl fmt::Display for Layer {
    ghost output = { λ x. Some (layer_word x) };

    fn fmt<W: fmt::Write>(&self, f: &mut fmt::Formatter<W>) -> fmt::Result {
        match self {
            Layer::Page => f.write_str("page"),
            Layer::Plan => f.write_str("plan"),
            Layer::Book => f.write_str("book"),
        }
    }
}

/// The three sections of a page, in their order.
#[derive(Clone, Copy, PartialEq, Eq, Debug)]
pub enum Section {
    Names = 1,
    Runs = 2,
    Edits = 3,
}

impl Section {
    /// 1, 2 or 3.
    pub fn number(self) -> u8
        ensures { result ≡ section_number self }
    {
        self as u8 // 1, 2 or 3
    }
}

impl fmt::Display for Section {
    ghost output = { λ x. Some (section_word x) };

    fn fmt<W: fmt::Write>(&self, f: &mut fmt::Formatter<W>) -> fmt::Result {
        match self {
            Section::Names => f.write_str("names"),
            Section::Runs => f.write_str("runs"),
            Section::Edits => f.write_str("edits"),
        }
    }
}

/// Where in a page a fault lies.
#[derive(Clone, Copy, PartialEq, Eq, Debug)]
pub struct Place {
    pub section: Section,
    /// from 1; 0 is the section's count, the opening of a plan, or what follows the last record
    pub record: u16,
    /// where the record, the count or the excess begins
    pub byte: usize,
}

/// A fault and its place.
#[derive(Clone, Copy, PartialEq, Eq, Debug)]
pub struct Located {
    pub fault: PageFault,
    pub place: Place,
}

impl fmt::Display for Located {
    ghost output = { λ x. Some (fault_line x) };

    fn fmt<W: fmt::Write>(&self, f: &mut fmt::Formatter<W>) -> fmt::Result {
        let layer = self.fault.layer();
        let number = self.fault.number();
        let section = self.place.section.number();
        let record = self.place.record;
        let byte = self.place.byte;
        write!(
            f,
            "fault {layer} {number} section {section} record {record} byte {byte}"
        )
    }
}

/// Two faults with one number are one fault, so a number tells which fault it is.
pub fn numbers_differ()
    ensures { NumbersDiffer }
{}

/// A fault carried in another keeps its number, and so its layer.
pub fn layers_nest()
    ensures { LayersNest }
{}
