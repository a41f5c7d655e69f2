//! Lists a page: the file named as the argument, or else standard input.
//!
//! A page with a fault is told in one line, and ends the program with status 1.
#![tactic(auto)]

use fault::Located;
use page::stage::Stage;
use page::{AtEdits, AtNames, AtRuns, Reader, Record, Refused, check};
use page_format::Counts;
use std::fmt::Display;
use std::io::Read;
use std::process::ExitCode;
use std::{env, fs, io};

/// Why a page is not listed.
#[derive(Debug, Drop)]
enum Trouble {
    Page(Located),
    Io(io::Error),
    /// what `check` has ruled out
    Unlisted,
}

impl From<Located> for Trouble {
    fn from(e: Located) -> Trouble {
        Trouble::Page(e)
    }
}

impl<R: Drop> From<Refused<R>> for Trouble {
    fn from(e: Refused<R>) -> Trouble {
        Trouble::Page(e.fault)
    }
}

impl From<io::Error> for Trouble {
    fn from(e: io::Error) -> Trouble {
        Trouble::Io(e)
    }
}

/// What is read of the input; a longer one is cut here.
const LONGEST: u64 = 65_536;

/// Reads the first bytes of an input.
fn read_first<R: Read + Drop>(input: R, page: &mut Vec<u8>) -> io::Result<()> {
    input.take(LONGEST).read_to_end(page)?;
    Ok(())
}

/// The first bytes of the file named as the argument, or of standard input.
fn input(rt: &HostRuntime) -> io::Result<Vec<u8>> {
    let mut page = Vec::new(rt.alloc());
    let mut args = env::args(rt)?;
    let _ = args.next();
    match args.next() {
        Some(path) => read_first(fs::open(rt, path)?, &mut page)?,
        None => read_first(rt.stdin(), &mut page)?,
    }
    Ok(page)
}

/// Tells how many records the section has, and then each of them by a line.
fn list<'a, S: Stage, L: FnMut(u16, Record<'a>) -> Result<(), Trouble>>(
    rt: &HostRuntime,
    reader: &mut Reader<'a, S>,
    mut line: L,
) -> Result<(), Trouble>
    requires { L.IsAlwaysCallable line }
{
    let count = reader.count()?;
    let section = S::SECTION;
    println!(rt; "{section} {count}")?;
    for k in 0..count {
        let record = reader.next()?.ok_or(Trouble::Unlisted)?;
        line(k, record)?;
    }
    Ok(())
}

/// A line of what a record says.
fn say<T: Display + Drop>(rt: &HostRuntime, said: Option<T>) -> Result<(), Trouble> {
    let said = said.ok_or(Trouble::Unlisted)?;
    println!(rt; "{said}")?;
    Ok(())
}

/// A line of a vault and its name.
fn say_name(rt: &HostRuntime, k: u16, record: Record) -> Result<(), Trouble> {
    let Record::Name(part) = record else {
        return Err(Trouble::Unlisted);
    };
    let name = std::str::from_utf8(part).map_err(|_| Trouble::Unlisted)?;
    println!(rt; "{k} {name}")?;
    Ok(())
}

fn list_names(rt: &HostRuntime, names: &mut AtNames) -> Result<(), Trouble> {
    list(rt, names, |k, record| say_name(rt, k, record))
}

fn list_runs(rt: &HostRuntime, runs: &mut AtRuns) -> Result<(), Trouble> {
    list(rt, runs, |_, record| say(rt, record.add()))
}

fn list_edits(rt: &HostRuntime, edits: &mut AtEdits) -> Result<(), Trouble> {
    list(rt, edits, |_, record| say(rt, record.edit()))
}

/// Lists a page that `check` found good.
fn list_page(rt: &HostRuntime, page: &[u8], counts: Counts) -> Result<(), Trouble> {
    let mut names = AtNames::new(page);
    list_names(rt, &mut names)?;
    let mut runs = names.step()?;
    list_runs(rt, &mut runs)?;
    let mut edits = runs.step()?;
    list_edits(rt, &mut edits)?;
    let size = edits.step()?.len();
    println!(rt; "page of {size} bytes: {counts}")?;
    Ok(())
}

fn run(rt: &HostRuntime) -> Result<(), Trouble> {
    let page = input(rt)?;
    let counts = check(&page)?;
    list_page(rt, &page, counts)
}

fn main(rt: HostRuntime) -> Result<ExitCode, Trouble> {
    match run(&rt) {
        Ok(()) => Ok(ExitCode::SUCCESS),
        Err(Trouble::Page(fault)) => {
            println!(rt; "{fault}")?;
            Ok(ExitCode::FAILURE)
        }
        Err(Trouble::Io(e)) => {
            eprintln!(rt; "pages: {e}")?;
            Ok(ExitCode::FAILURE)
        }
        Err(Trouble::Unlisted) => Err(Trouble::Unlisted),
    }
}
