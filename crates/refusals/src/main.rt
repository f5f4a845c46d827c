// Compares the loader with stored outcomes. A line of standard input has a name, the table's size, the refusal's number (0: accepted) and the
// bytes in hexadecimal.
#![tactic(auto)]

use anyhow::{Context, ensure};
use circuit::{Gate, Literal};
use question::load;
use std::alloc::{AllocError, Global};
use std::io::{BufRead, BufReader};
use vectors::compare;

// What a load comes to.
#[derive(Clone, Copy, PartialEq, Eq, Debug)]
enum Outcome {
    Accepted,
    // by the rule with this number, as the stored lines have it, with the table as it was
    Refused(u8),
    // with the table changed
    Spoiled,
}

impl From<u8> for Outcome {
    fn from(number: u8) -> Self {
        match number {
            0 => Outcome::Accepted,
            _ => Outcome::Refused(number),
        }
    }
}

// By hand and not by a library, which would take capital digits: a stored line has none.
fn digit(b: u8) -> Option<u8> {
    match b {
        b'0'..=b'9' => Some(b - b'0'),
        b'a'..=b'f' => Some(b - b'a' + 10),
        _ => None,
    }
}

fn bytes_of(heap: Global, hex: &str) -> anyhow::Result<Vec<u8>> {
    let mut bytes = Vec::new(heap);
    let mut high = None;
    for b in hex.bytes() {
        let low = digit(b).context("no hexadecimal digit")?;
        high = match high {
            None => Some(low),
            Some(first) => {
                bytes.push(first << 4 | low)?;
                None
            }
        };
    }
    ensure!(high.is_none(), "half a byte");
    Ok(bytes)
}

// An entry that no load leaves where it writes.
fn mark() -> Gate {
    Gate::new(Literal::new(65535), Literal::new(65534))
}

// What a load into a table of marks comes to.
fn try_load(heap: Global, entries: usize, bytes: &[u8]) -> Result<Outcome, AllocError> {
    let mark = mark();
    let table = vec![in heap; mark; entries]?;
    Ok(match load(bytes, table) {
        Ok(_) => Outcome::Accepted,
        Err(rejected) => {
            let table = rejected.table.as_slice();
            if table.len() == entries && table.iter().all(|entry| *entry == mark) {
                Outcome::Refused(rejected.refusal.number())
            } else {
                Outcome::Spoiled
            }
        }
    })
}

// Whether a line's load ends as it says.
fn agrees(heap: Global, line: &str) -> anyhow::Result<bool> {
    let (_, rest) = line.split_once(' ').context("no table size")?;
    let (entries, rest) = rest.split_once(' ').context("no number")?;
    let (number, hex) = rest.split_once(' ').context("no bytes")?;
    let expected = Outcome::from(number.parse::<u8>()?);
    let bytes = bytes_of(heap, hex)?;
    let found = try_load(heap, entries.parse::<usize>()?, bytes.as_slice())?;
    Ok(found == expected)
}

fn main(rt: HostRuntime) -> anyhow::Result<()> {
    let heap = rt.alloc();
    let lines = BufReader::new(heap, rt.stdin())?.lines(heap);
    let tally = compare(&rt, lines, |line| agrees(heap, line))?;
    println!(rt; "{tally}")?;
    Ok(())
}
