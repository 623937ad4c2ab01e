// The sum of each file that is named, in the layout of sha256sum: to be run beside it.
#![tactic(auto)]

use std::fs::File;
use std::io::Read;
use std::{env, io};
use store::hasher::Hasher;

fn sum_of(file: &mut File) -> io::Result<[u8; 32]> {
    let mut piece = [0u8; 65536];
    let mut hasher = Hasher::new();
    for _ in 0..u64::MAX {
        let n = file.read(&mut piece)?;
        if n == 0 {
            break;
        }
        hasher.add(&piece[0..n]);
    }
    Ok(hasher.finish())
}

fn main(rt: HostRuntime) -> anyhow::Result<()> {
    for name in env::args(&rt)?.skip(1) {
        let mut file = File::open(&rt, name.as_str())?;
        for b in sum_of(&mut file)? {
            print!(rt; "{b:02x}")?;
        }
        println!(rt; "  {name}")?;
    }
    Ok(())
}
