// A day in a house of 4,000 sheets: what it takes to write them one by one, to note versions of them and to look at those. Counts go to stdout, times to stderr.
// With no argument the pages are in memory, and there are 30 commits; with one they are in a new file of that name, and there are 300.
#![tactic(auto)]

mod bench;
mod cost;
mod disk;
mod sheets;

use bench::Bench;
use commands::Command;
use cost::Tally;
use disk::Disk;
use sheets::{SHEETS, path, scattered, sheet};
use std::ops::Range;
use std::{env, io};

// How many pages a house has, and how often in its day a sheet is written and that noted: early, and later.
#[derive(Clone, Copy)]
struct Size {
    pages: u64,
    early: u16,
    later: u16,
}

// A quarter of the pages holds the sheets and one version of all their paths for each commit, of 416,256 bytes.
const IN_MEMORY: Size = Size {
    pages: 1 << 17,
    early: 10,
    later: 19,
};

const IN_FILE: Size = Size {
    pages: 1 << 20,
    early: 100,
    later: 199,
};

#[derive(Drop)]
struct Day<'a> {
    rt: &'a HostRuntime,
    bench: Bench<'a>,
    // How many sheets were written.
    edition: u16,
}

impl Day<'_> {
    // A new edition of a sheet.
    fn write(&mut self, i: u16, tally: &mut Tally) -> io::Result<()> {
        let i = scattered(i);
        self.edition = self.edition.wrapping_add(1);
        let sheet = sheet(i, self.edition);
        tally.add(
            self.bench
                .run(Command::WriteFile(&path(i), sheet.as_flattened()))?,
        );
        Ok(())
    }

    fn say(&self, what: &str, tally: Tally) -> io::Result<()> {
        let rt = self.rt;
        let Tally {
            first,
            last,
            all,
            swept,
            count,
        } = tally;
        let uses = all.uses;
        println!(rt; "{what}: {uses}")?;
        if count > 1 {
            let uses = first.uses;
            println!(rt; "{what}, the first: {uses}")?;
            let uses = last.uses;
            println!(rt; "{what}, the last: {uses}")?;
        }
        eprintln!(rt; "{what}: {count} in {all}, first {first}, last {last}, with a sweep {swept}")
    }

    // One command.
    fn one(&mut self, what: &str, command: Command<'_>) -> io::Result<()> {
        let mut tally = Tally::default();
        tally.add(self.bench.run(command)?);
        self.say(what, tally)
    }

    fn writes(&mut self, what: &str, sheets: Range<u16>) -> io::Result<()> {
        let mut tally = Tally::default();
        for i in sheets {
            self.write(i, &mut tally)?;
        }
        self.say(what, tally)
    }

    fn reads(&mut self, what: &str, sheets: Range<u16>) -> io::Result<()> {
        let mut tally = Tally::default();
        for i in sheets {
            let path = path(scattered(i));
            tally.add(self.bench.run(Command::ReadFile(&path))?);
        }
        self.say(what, tally)
    }

    // So often a sheet is written, and that noted.
    fn versions(&mut self, write: &str, commit: &str, sheets: Range<u16>) -> io::Result<()> {
        let mut writes = Tally::default();
        let mut commits = Tally::default();
        for i in sheets {
            self.write(i, &mut writes)?;
            let note = Command::Commit(u64::from(i), b"one sheet");
            commits.add(self.bench.run(note)?);
        }
        self.say(write, writes)?;
        self.say(commit, commits)
    }

    fn spend(&mut self, size: Size) -> io::Result<()> {
        self.writes("import of sheets 1 to 100", 0..100)?;
        self.writes("import of sheets 101 to 1000", 100..1000)?;
        self.writes("import of sheets 1001 to 4000", 1000..SHEETS)?;
        self.reads("read", 0..100)?;
        self.one("status with no commit", Command::Status)?;
        self.one("the first commit", Command::Commit(0, b"all sheets"))?;
        self.versions("early write", "early commit", 0..size.early)?;
        let all = size.early.saturating_add(size.later);
        self.versions("later write", "later commit", size.early..all)?;
        self.one("history", Command::History)?;
        self.one("status with nothing changed", Command::Status)?;
        self.writes("one more write", 0..1)?;
        self.one("status", Command::Status)?;
        self.one("show", Command::ShowFile(b"main", &path(scattered(0))))?;
        self.one("leave", Command::Leave)?;
        self.one("status after leaving", Command::Status)
    }
}

fn main(rt: HostRuntime) -> io::Result<()> {
    let (disk, size) = match env::args(&rt)?.nth(1) {
        None => (Disk::memory(rt.alloc(), IN_MEMORY.pages)?, IN_MEMORY),
        Some(path) => (Disk::file(&rt, path.as_str(), IN_FILE.pages)?, IN_FILE),
    };
    let mut day = Day {
        rt: &rt,
        bench: Bench::new(&rt, disk, size.pages)?,
        edition: 0,
    };
    day.spend(size)
}
