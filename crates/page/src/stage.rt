//! The sections of a page as types, in their order.

ghost use Rattle.std.specs.Prelude.{◌≡◌, ◌+◌, refl};
ghost use Rattle.fault.specs.Numbers.{section_number};
ghost use Rattle.fault.specs.declared.Section.{Section};
ghost use Rattle.fault.specs.declared.Section.TheVariants as section;

use fault::Section;

/// A section that a reader may be at.
pub trait Stage {
    const SECTION: Section;

    ghost SECTION: { Section };
}

/// A section that another one follows, the next in a page's order.
pub trait Before: Stage {
    type Next: Stage;

    ghost follows: { section_number Self.Next.SECTION ≡ section_number Self.SECTION + 1 };
}

/// The first section.
pub struct Names;

/// The section after the names.
pub struct Runs;

/// The last section.
pub struct Edits;

impl Stage for Names {
    const SECTION: Section = Section::Names;

    ghost SECTION = { section.Names };
}

impl Stage for Runs {
    const SECTION: Section = Section::Runs;

    ghost SECTION = { section.Runs };
}

impl Stage for Edits {
    const SECTION: Section = Section::Edits;

    ghost SECTION = { section.Edits };
}

impl Before for Names {
    type Next = Runs;

    ghost follows = { refl };
}

impl Before for Runs {
    type Next = Edits;

    ghost follows = { refl };
}
