// How long it takes to put 4,000 files into an empty row, and to find 4,000 in a full one; the times go to stderr.
#![tactic(auto)]

use std::time::Instant;
use trees::rows::{find, put};

// The path of 40 bytes with a number at its end.
// As it stands: `trees_tests` has one of 64 bytes; a crate for both would be longer than the two.
fn numbered(i: u16) -> [u8; 40] {
    let mut bytes = [97; 40];
    bytes[38..].copy_from_slice(&i.to_be_bytes());
    bytes
}

// The numbers below 4,000 out of order.
fn scattered(i: u16) -> u16 {
    (u32::from(i) * 1237 % 4000) as u16
}

// How many files were put.
fn fill(row: &mut [u64]) -> usize {
    (0..4000u16)
        .filter(|i| put(row, &numbered(scattered(*i)), u64::from(*i)).is_ok())
        .count()
}

// How many files were found.
fn look(row: &[u64]) -> usize {
    (0..4000u16)
        .filter(|i| find(row, &numbered(scattered(*i))).is_some())
        .count()
}

fn main(rt: HostRuntime) -> anyhow::Result<()> {
    let mut row = [0; 41024];
    let start = Instant::now(&rt)?;
    let done = fill(&mut row);
    let time = start.elapsed(&rt)?.as_micros();
    println!(rt; "{done} files put")?;
    eprintln!(rt; "4,000 puts into an empty row: {time} microseconds")?;
    let start = Instant::now(&rt)?;
    let done = look(&row);
    let time = start.elapsed(&rt)?.as_micros();
    println!(rt; "{done} files found")?;
    eprintln!(rt; "4,000 finds in a full row: {time} microseconds")?;
    Ok(())
}
