//! Checks each page of a table: a line of standard input has a page's bytes in hexadecimal, and a
//! line of standard output says what it is, its size and counts or its first fault.
#![tactic(auto)]

ghost use Rattle.std.specs.Prelude.{◌<◌, IfOk};

use anyhow::anyhow;
use page::check;
use std::io::{BufRead, BufReader};

/// The value of a small hexadecimal digit; std's `to_digit` takes capitals too.
fn digit(c: u8) -> anyhow::Result<u8>
    ensures { IfOk result (λ d. d < 16) }
{
    match c {
        b'0'..=b'9' => Ok(c - b'0'),
        b'a'..=b'f' => Ok(c - b'a' + 10),
        _ => Err(anyhow!("not a hexadecimal digit")),
    }
}

/// The bytes that a line of hexadecimal digits says.
fn decode(rt: &HostRuntime, line: &str) -> anyhow::Result<Vec<u8>> {
    let mut page = Vec::new(rt.alloc());
    let (pairs, rest) = line.as_bytes().as_chunks::<2>();
    for [high, low] in pairs {
        page.push(digit(*high)? * 16 + digit(*low)?)?;
    }
    if let Some(c) = rest.first() {
        digit(*c)?;
        return Err(anyhow!("half a byte"));
    }
    Ok(page)
}

fn tell(rt: &HostRuntime, page: &[u8]) -> anyhow::Result<()> {
    match check(page) {
        Ok(counts) => {
            let size = page.len();
            println!(rt; "page of {size} bytes: {counts}")?;
        }
        Err(fault) => println!(rt; "{fault}")?,
    }
    Ok(())
}

fn run(rt: &HostRuntime) -> anyhow::Result<()> {
    for line in BufReader::new(rt.alloc(), rt.stdin())?.lines(rt.alloc()) {
        let page = decode(rt, line?.as_str())?;
        tell(rt, &page)?;
    }
    Ok(())
}

fn main(rt: HostRuntime) -> anyhow::Result<()> {
    run(&rt)
}
