// A house with as many files as there may be, each of its own path of 64 bytes and of its own bytes.
use crate::answer::{Answer, refused};
use crate::morning::{Id, id_row};
use crate::trial::{Counts, Trial};
use commands::{Command, Refusal};
use pages::told::Told;
use std::alloc::{AllocError, Global};

const PAGES: u64 = 32_768;

const MOST_FILES: u16 = 4_096;

// What tests/ids.py prints.
const MANY: Id = [
    0x4ce8237cd3e4b6f0,
    0x5d64f155adc0809c,
    0xb1c73b733783f6b5,
    0x955232aaa13e4287,
];

const CHANGED: Id = [
    0x20b06713fb8d3cf7,
    0x86bbdb820c43422a,
    0xc6cb4ca6d5417694,
    0x401ee348715a096d,
];

// The path with a number at its end.
fn path(i: u16) -> [u8; 64] {
    let mut bytes = [97; 64];
    bytes[62..].copy_from_slice(&i.to_be_bytes());
    bytes
}

// The numbers below 4,096 out of order.
fn scattered(i: u16) -> u16 {
    (u32::from(i) * 1237 % 4096) as u16
}

fn write(trial: &mut Trial, i: u16, bytes: u64, end: Told) -> Result<(), AllocError> {
    trial.must(Command::WriteFile(&path(i), &bytes.to_be_bytes()), end)
}

// All of them in one commit, with its true id; the next one has two changes, and what differs from that is left.
fn note(heap: Global, trial: &mut Trial) -> Result<(), AllocError> {
    trial.must_answer(
        Command::Commit(0, b"many"),
        &Answer::row(heap, id_row(heap, &MANY, &[])?)?,
    )?;
    trial.must(Command::Commit(0, b"many"), refused(Refusal::NothingToDo))?;
    write(trial, 18, 180_000, Told::Done)?;
    trial.must(Command::DropFile(&path(2_000)), Told::Done)?;
    trial.must_answer(
        Command::Commit(u64::MAX, &[]),
        &Answer::row(heap, id_row(heap, &CHANGED, &[])?)?,
    )?;
    write(trial, 19, 190_000, Told::Done)?;
    trial.must(Command::Leave, Told::Done)?;
    trial.check()
}

// Fills it; then one more is refused, an old one is overwritten, and for one that is dropped another one is written.
pub fn crowd(heap: Global) -> Result<Counts, AllocError> {
    let paths = (0..=MOST_FILES)
        .map(|i| path(i).to_vec(heap))
        .try_collect(heap)?;
    let mut trial = Trial::new(heap, PAGES, 1, paths)?;
    for i in (0..MOST_FILES).map(scattered) {
        write(&mut trial, i, u64::from(i), Told::Done)?;
    }
    let more = path(MOST_FILES);
    let refused = Command::WriteFile(&more, b"more");
    trial.must_refuse(refused, Refusal::TooManyFiles)?;
    write(&mut trial, 17, 170_000, Told::Done)?;
    trial.must(refused, Told::No(10))?;
    trial.must(Command::DropFile(&path(1_000)), Told::Done)?;
    trial.must(refused, Told::Done)?;
    trial.must_refuse(
        Command::WriteFile(&path(1_000), b"back"),
        Refusal::TooManyFiles,
    )?;
    note(heap, &mut trial)?;
    Ok(trial.counts())
}
