// Sums of known messages, to be held to the values that another implementation gives (tests/sums.py):
// the standard's published examples, every length up to two blocks and more, and a long message in uneven pieces.
#![tactic(auto)]

use std::{array, io};
use store::hasher::{Hasher, sum};

fn show(rt: &impl Print, name: &str, out: [u8; 32]) -> io::Result<()> {
    print!(rt; "{name} ")?;
    for b in out {
        print!(rt; "{b:02x}")?;
    }
    println!(rt; "")
}

fn published(rt: &impl Print) -> io::Result<()> {
    show(rt, "empty", sum(b""))?;
    show(rt, "abc", sum(b"abc"))?;
    show(
        rt,
        "448 bits",
        sum(b"abcdbcdecdefdefgefghfghighijhijkijkljklmklmnlmnomnopnopq"),
    )?;
    show(
        rt,
        "896 bits",
        sum(
            b"abcdefghbcdefghicdefghijdefghijkefghijklfghijklmghijklmnhijklmnoijklmnopjklmnopqklmnopqrlmnopqrsmnopqrstnopqrstu",
        ),
    )
}

// A million times 'a', in pieces of ten thousand.
fn million(rt: &impl Print) -> io::Result<()> {
    let piece = [b'a'; 10000];
    let mut hasher = Hasher::new();
    for _ in 0..100 {
        hasher.add(&piece);
    }
    show(rt, "million", hasher.finish())
}

// The byte at each place of the message that is cut at every length.
fn pattern() -> [u8; 256] {
    array::from_fn(|i| ((i * 7 + i / 3) % 256) as u8)
}

fn lengths(rt: &impl Print) -> io::Result<()> {
    let row = pattern();
    for n in 0..131 {
        print!(rt; "{n} ")?;
        show(rt, "bytes", sum(&row[..n]))?;
    }
    Ok(())
}

// The pattern's first 0, 1, 2, .. 256 bytes, one piece after the other.
fn pieces(rt: &impl Print) -> io::Result<()> {
    let row = pattern();
    let mut hasher = Hasher::new();
    for n in 0..=256 {
        hasher.add(&row[..n]);
    }
    show(rt, "pieces", hasher.finish())
}

fn main(rt: HostRuntime) -> anyhow::Result<()> {
    published(&rt)?;
    million(&rt)?;
    lengths(&rt)?;
    pieces(&rt)?;
    Ok(())
}
