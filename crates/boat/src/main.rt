// A house on a file of pages, with its commands on standard input.
#![tactic(auto)]

mod driver;
mod line;
mod page_file;
mod trouble;
mod unread;

use driver::{Driver, print_row};
use line::{Asked, asked_by};
use page_file::{PageCount, PageFile};
use std::io::{BufRead, BufReader};
use std::process::ExitCode;
use std::{env, fs, io};
use trouble::{Trouble, system};

// The file as it is, or a new one where there is none.
// As it stands: std takes the runtime and the path apart, so a struct of both would be taken apart in each function.
fn file_at(rt: &HostRuntime, path: &str, asked: Option<PageCount>) -> Result<PageFile, Trouble> {
    let found = match fs::metadata(rt, path) {
        Err(error) if error.kind() == io::ErrorKind::NotFound => {
            return new_file(rt, path, asked.unwrap_or_default());
        }
        found => system("find the file", found)?,
    };
    if !found.is_file() {
        return Err(Trouble::NoFile);
    }
    let file = PageFile::open(rt, path)?;
    let held = file.pages();
    match asked {
        Some(asked) if asked.number() != held => Err(Trouble::Differs(held, asked.number())),
        _ => Ok(file),
    }
}

fn new_file(rt: &HostRuntime, path: &str, count: PageCount) -> Result<PageFile, Trouble> {
    let pages = count.number();
    let file = PageFile::make(rt, path, pages)?;
    let said = eprintln!(rt; "boat: {path}: a new file of {pages} pages");
    system("print", said)?;
    Ok(file)
}

// Asks the house with the bytes, and prints how that ended.
fn ask(driver: &mut Driver, bytes: &[u8]) -> Result<(), Trouble> {
    let said = match driver.command(bytes)? {
        Ok(()) => println!(driver.rt; "done"),
        Err(refused) => println!(driver.rt; "{refused}"),
    };
    system("print", said)
}

// Answers one line.
fn answer(driver: &mut Driver, number: u64, line: &[u8]) -> Result<(), Trouble> {
    let rt = driver.rt;
    match asked_by(rt.alloc(), line) {
        Ok(None) => Ok(()),
        Ok(Some(Asked::Run(bytes))) => ask(driver, &bytes),
        Ok(Some(Asked::Spell(bytes))) => print_row(rt, &bytes),
        Err(why) => system("print", println!(rt; "line {number}: {why}")),
    }
}

// Answers each line of standard input.
fn serve(driver: &mut Driver) -> Result<(), Trouble> {
    let rt = driver.rt;
    let input = system("read a line", BufReader::new(rt.alloc(), rt.stdin()))?;
    for (number, line) in (1..=u64::MAX).zip(input.split(rt.alloc(), b'\n')) {
        let line = system("read a line", line)?;
        answer(driver, number, line.as_slice())?;
    }
    Ok(())
}

fn run(rt: &HostRuntime, path: &str, pages: Option<String>) -> Result<(), Trouble> {
    let asked = pages.map(|text| text.parse::<PageCount>()).transpose()?;
    let file = file_at(rt, path, asked)?;
    let mut driver = Driver::start(rt, file)?;
    serve(&mut driver)
}

// Prints what stopped the program and where, and hands it on.
fn report<T: Drop>(rt: &HostRuntime, place: &str, res: Result<T, Trouble>) -> Result<T, Trouble> {
    if let Err(trouble) = &res {
        let _ = eprintln!(rt; "boat: {place}: {trouble}");
    }
    res
}

// Takes the arguments, and serves the house that they name.
fn start(rt: &HostRuntime) -> Result<(), Trouble> {
    let words = system("read the arguments", env::args(rt));
    let mut words = report(rt, "the command line", words)?.skip(1);
    match (words.next(), words.next(), words.next()) {
        (Some(path), pages, None) => {
            let path = path.as_str();
            report(rt, path, run(rt, path, pages))
        }
        _ => {
            let _ = eprintln!(rt; "usage: boat FILE [PAGES]");
            Err(Trouble::Usage)
        }
    }
}

// What stopped the program has been said in one line, so only the status is left to tell.
fn main(rt: HostRuntime) -> ExitCode {
    match start(&rt) {
        Ok(()) => ExitCode::SUCCESS,
        Err(_) => ExitCode::FAILURE,
    }
}
