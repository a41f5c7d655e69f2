//! Calls on a whole page.

ghost use Rattle.std.specs.Prelude.{◌≡◌, MatchOption, MatchResult};
ghost use Rattle.page_format.specs.Reading.{reading};
ghost use Rattle.page.specs.Wholes.{section_read, tallied, Encodes, NoPage, NoName, NameAt, Span};

use fault::{Located, Section};
use page_format::Counts;
use page_records::{Scan, page_end};

/// How many records the section has whose count stands at a byte, and where it ends; or its first
/// fault.
fn section(page: &[u8], section: Section, start: usize) -> Result<(u16, usize), Located>
    ensures { result ≡ section_read section page.now start }
{
    let scan = Scan::open(page, section, start);
    Ok((scan.count()?, scan.end()?))
}

/// How many names, runs and edits the page has, or its first fault.
fn tally(page: &[u8]) -> Result<Counts, Located>
    ensures { result ≡ tallied (reading page.now) }
{
    let (names, runs_at) = section(page, Section::Names, 0)?;
    let (runs, edits_at) = section(page, Section::Runs, runs_at)?;
    let (edits, end) = section(page, Section::Edits, edits_at)?;
    page_end(page, end)?;
    Ok(Counts { names, runs, edits })
}

/// Checks a whole page: how many names, runs and edits it has, or its first fault. It accepts just
/// the bytes of lawful pages.
pub fn check(page: &[u8]) -> Result<Counts, Located>
    ensures value { result ≡ tallied (reading page.now) }
    ensures exact { MatchResult result (λ n. Encodes page.now n) (λ e. NoPage page.now e) }
{
    tally(page)
}

/// Where the letters of vault k's name begin, and how many there are; none where the names have a
/// fault or are not more than k. The names are sound, so their lengths are enough to pass them: a
/// scan would check each again.
fn name_span(page: &[u8], k: usize) -> Option<(usize, usize)>
    ensures { MatchOption result (NoName page.now k) (λ x. Span page.now k x.0 x.1) }
{
    let (count, _) = section(page, Section::Names, 0).ok()?;
    if usize::from(count) <= k {
        return None;
    }
    let mut at: usize = 1;
    for _ in 0..k {
        at += 1 + usize::from(page[at]);
    }
    Some((at + 1, usize::from(page[at])))
}

/// The name of vault k as its part of the page, and the byte where that part begins; none where the
/// names have a fault or are not more than k.
pub fn name_of<'a>(page: &'a [u8], k: usize) -> Option<(usize, &'a [u8])>
    ensures { MatchOption result (NoName page.now k) (λ x. NameAt page.now k x.0 x.1.now) }
{
    let (from, size) = name_span(page, k)?;
    Some((from, &page[from..from + size]))
}
