// The first hours of a day at one house: what each command answers, with the true ids of its commits.
use crate::answer::{Answer, refused};
use crate::model::BRANCH;
use crate::trial::{Counts, Trial};
use commands::{Command, Refusal};
use pages::bytes::in_eight;
use pages::told::Told;
use std::alloc::{AllocError, Global};

const PAGES: u64 = 2_048;

// The most bytes of a file, and of words.
const MOST_BYTES: usize = 65_535;

// The id of a commit in four numbers, as tests/ids.py prints it.
pub type Id = [u64; 4];

const FIRST: Id = [
    0x396b0c86b9525ae9,
    0xd61123c45266a68b,
    0xba382b51ff7ed817,
    0xd8558c74a2f9a4ea,
];

const SECOND: Id = [
    0x6ae1e9ba0555d018,
    0x848e6aa55e174375,
    0xb346e27d7b7d4f45,
    0xfc1d2544fd8541b0,
];

const NO_WORDS: Id = [
    0x26e06db0751a3dee,
    0x98383260f31b83dd,
    0x3ea4f07505c14490,
    0x521860f8d92428f0,
];

const MOST_WORDS: Id = [
    0x4935ae5bbaf81a79,
    0xf19b40346221f6bb,
    0xabf56366cbb4f7fa,
    0x56612dde5927bc25,
];

const NO_FILES: Id = [
    0x8e4580d2298ed94d,
    0x628b5e87807286ad,
    0xcd0be6612690de49,
    0xb286830da7a7d8ec,
];

const ONE_FILE: Id = [
    0x061496b617f2f885,
    0xea9df4d291e899b0,
    0x535d6f95335d9e23,
    0x29285c5bcb58d1c3,
];

// A row of the log, or with no words of a commit.
pub fn id_row(heap: Global, id: &Id, words: &[u8]) -> Result<Vec<u8>, AllocError> {
    let mut row = Vec::new(heap);
    for number in id {
        row.extend_from_slice(&in_eight(*number))?;
    }
    row.extend_from_slice(words)?;
    Ok(row)
}

// A house, and what it has to answer.
#[derive(Drop)]
struct Hours {
    heap: Global,
    trial: Trial,
}

impl Hours {
    fn done(&mut self, command: Command<'_>) -> Result<(), AllocError> {
        let wanted = Answer::bare(self.heap, Told::Done);
        self.trial.must_answer(command, &wanted)
    }

    fn refused(&mut self, command: Command<'_>, why: Refusal) -> Result<(), AllocError> {
        let wanted = Answer::bare(self.heap, refused(why));
        self.trial.must_answer(command, &wanted)
    }

    fn shows(&mut self, command: Command<'_>, rows: &[&[u8]]) -> Result<(), AllocError> {
        let mut wanted = Answer::bare(self.heap, Told::Done);
        for row in rows {
            wanted.rows.push(row.to_vec(self.heap)?)?;
        }
        self.trial.must_answer(command, &wanted)
    }

    // A commit, which has this id.
    fn notes(&mut self, stamp: u64, words: &[u8], id: &Id) -> Result<(), AllocError> {
        let wanted = Answer::row(self.heap, id_row(self.heap, id, &[])?)?;
        self.trial
            .must_answer(Command::Commit(stamp, words), &wanted)
    }

    // The whole log.
    fn log(&mut self, commits: &[(Id, &[u8])]) -> Result<(), AllocError> {
        let mut wanted = Answer::bare(self.heap, Told::Done);
        for (id, words) in commits {
            wanted.rows.push(id_row(self.heap, id, words)?)?;
        }
        self.trial.must_answer(Command::History, &wanted)
    }

    // Before there is a commit.
    fn dawn(&mut self) -> Result<(), AllocError> {
        self.shows(Command::Status, &[])?;
        self.shows(Command::History, &[])?;
        self.refused(Command::Commit(1, b"first"), Refusal::NothingToDo)?;
        self.refused(Command::ShowFile(BRANCH, b"lock"), Refusal::NotThere)?;
        self.done(Command::WriteFile(b"draft", b"x"))?;
        self.done(Command::Leave)?;
        self.shows(Command::Status, &[])
    }

    fn first_commits(&mut self) -> Result<(), AllocError> {
        self.done(Command::WriteFile(b"lock", b"3.2"))?;
        self.done(Command::WriteFile(b"weir", b"open"))?;
        self.shows(Command::Status, &[b"\x01lock", b"\x01weir"])?;
        self.notes(1, b"first", &FIRST)?;
        self.shows(Command::Status, &[])?;
        self.refused(Command::Commit(1, b"first"), Refusal::NothingToDo)?;
        self.done(Command::WriteFile(b"lock", b"3.4"))?;
        self.done(Command::WriteFile(b"bridge", b"3"))?;
        self.done(Command::DropFile(b"weir"))?;
        self.shows(Command::Status, &[b"\x01bridge", b"\x02lock", b"\x03weir"])?;
        self.shows(Command::ReadFile(b"lock"), &[b"3.4"])?;
        self.shows(Command::ShowFile(BRANCH, b"lock"), &[b"3.2"])?;
        self.shows(Command::ShowFile(BRANCH, b"weir"), &[b"open"])?;
        self.refused(Command::ShowFile(BRANCH, b"bridge"), Refusal::NotThere)?;
        self.refused(Command::ShowFile(b"north", b"lock"), Refusal::NotThere)?;
        self.notes(2, b"north sounding", &SECOND)?;
        self.log(&[(SECOND, b"north sounding"), (FIRST, b"first")])
    }

    // What differs is given up.
    fn leaves(&mut self) -> Result<(), AllocError> {
        self.done(Command::WriteFile(b"weir", b"shut"))?;
        self.done(Command::DropFile(b"lock"))?;
        self.shows(Command::Status, &[b"\x03lock", b"\x01weir"])?;
        self.done(Command::Leave)?;
        self.shows(Command::Status, &[])?;
        self.shows(Command::ReadFile(b"lock"), &[b"3.4"])?;
        self.refused(Command::ReadFile(b"weir"), Refusal::NotThere)?;
        self.refused(Command::Commit(3, b"again"), Refusal::NothingToDo)
    }

    // No bytes and no words at the highest stamp, and then the most of both at the lowest.
    fn extremes(&mut self) -> Result<(), AllocError> {
        let bytes = vec![in self.heap; b'b'; MOST_BYTES]?;
        let words = vec![in self.heap; b'w'; MOST_BYTES]?;
        self.done(Command::WriteFile(b"lock", &[]))?;
        self.shows(Command::ReadFile(b"lock"), &[&[]])?;
        self.notes(u64::MAX, &[], &NO_WORDS)?;
        self.shows(Command::ShowFile(BRANCH, b"lock"), &[&[]])?;
        self.done(Command::WriteFile(b"log", &bytes))?;
        self.notes(0, &words, &MOST_WORDS)?;
        self.shows(Command::ShowFile(BRANCH, b"log"), &[&bytes])?;
        self.done(Command::DropFile(b"lock"))?;
        self.done(Command::DropFile(b"log"))?;
        self.done(Command::DropFile(b"bridge"))?;
        self.notes(7, b"empty", &NO_FILES)?;
        self.shows(Command::Status, &[])?;
        self.refused(Command::ShowFile(BRANCH, b"log"), Refusal::NotThere)?;
        self.done(Command::WriteFile(b"lock", b"3.2"))?;
        self.notes(8, b"one", &ONE_FILE)?;
        self.log(&[
            (ONE_FILE, b"one"),
            (NO_FILES, b"empty"),
            (MOST_WORDS, &words),
            (NO_WORDS, &[]),
            (SECOND, b"north sounding"),
            (FIRST, b"first"),
        ])
    }
}

// All of it, with power that goes and comes in between.
pub fn work(heap: Global) -> Result<Counts, AllocError> {
    let mut paths = Vec::new(heap);
    for path in [&b"bridge"[..], b"lock", b"log", b"weir"] {
        paths.push(path.to_vec(heap)?)?;
    }
    let trial = Trial::new(heap, PAGES, 1, paths)?;
    let mut hours = Hours { heap, trial };
    hours.dawn()?;
    hours.first_commits()?;
    hours.trial.power();
    hours.leaves()?;
    hours.extremes()?;
    hours.trial.power();
    hours.trial.check()?;
    Ok(hours.trial.counts())
}
