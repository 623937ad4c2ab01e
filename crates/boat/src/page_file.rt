// A file of pages.
ghost use Rattle.std.specs.Prelude.{◌≡◌, ◌*◌, ◌≤◌, ◌↔◌, IfOk, IsOk};

use crate::trouble::{Trouble, system};
use std::fs::{File, OpenOptions};
use std::io;
use std::io::{Read, Seek, SeekFrom, Write};
use std::path::Path;
use std::str::FromStr;

pub const PAGE: usize = 512;

const FEWEST: u64 = 64;

const MOST: u64 = 1048576;

// How many pages a house has.
#[derive(Clone, Copy)]
pub struct PageCount(u64);

impl PageCount {
    pub fn number(self) -> u64
        ensures { result ≡ self.0 }
    {
        self.0
    }
}

// Where nobody asks for a number.
impl Default for PageCount {
    fn default() -> Self {
        PageCount(4096)
    }
}

impl TryFrom<u64> for PageCount {
    type Error = Trouble;

    ghost try_from_gives = { λ pages res. (IsOk res ↔ ((64 ≤ pages) × (pages ≤ 1048576))) × IfOk res (λ count. count.0 ≡ pages) };

    fn try_from(pages: u64) -> Result<Self, Trouble> {
        if FEWEST <= pages && pages <= MOST {
            Ok(PageCount(pages))
        } else {
            Err(Trouble::Count)
        }
    }
}

impl FromStr for PageCount {
    type Err = Trouble;

    fn from_str(text: &str) -> Result<Self, Trouble> {
        PageCount::try_from(text.parse::<u64>()?)
    }
}

#[derive(Drop)]
pub struct PageFile {
    file: File,
    pages: u64,
}

impl PageFile {
    // A new file of so many pages of zeros, on the disk with its name.
    pub fn make(rt: &HostRuntime, path: &str, pages: u64) -> Result<PageFile, Trouble> {
        let file = system("make the file", File::create_new(rt, path))?;
        system("give the file its length", file.set_len(place_of(pages)))?;
        system("make the file last", file.sync_all())?;
        sync_folder(rt, path)?;
        Ok(PageFile { file, pages })
    }

    // The file that is there, if it is one of pages.
    pub fn open(rt: &HostRuntime, path: &str) -> Result<PageFile, Trouble> {
        let mut how = OpenOptions::new();
        how.read(true).write(true);
        let file = system("open the file", how.open(rt, path))?;
        let found = system("ask for the file's length", file.metadata())?;
        let pages = pages_in(found.len())?;
        Ok(PageFile { file, pages })
    }

    pub fn pages(&self) -> u64 {
        self.pages
    }

    pub fn read_page(&mut self, number: u64, page: &mut [u8; PAGE]) -> io::Result<()> {
        self.file.seek(SeekFrom::Start(place_of(number)))?;
        self.file.read_exact(page)
    }

    // Writes the bytes of a page.
    pub fn write_page(&mut self, number: u64, page: &[u8]) -> io::Result<()> {
        self.file.seek(SeekFrom::Start(place_of(number)))?;
        self.file.write_all(page)
    }

    // Comes back when all that was written is on the disk.
    pub fn sync(&self) -> io::Result<()> {
        self.file.sync_data()
    }
}

// Where a page begins in the file.
fn place_of(number: u64) -> u64
    ensures { number ≤ 1048576 → result ≡ number * 512 }
{
    number.saturating_mul(PAGE as u64)
}

// How many pages a file of so many bytes has, if they are whole and a house can have so many.
fn pages_in(bytes: u64) -> Result<u64, Trouble>
    ensures { IfOk result (λ n. (n * 512 ≡ bytes) × (64 ≤ n) × (n ≤ 1048576)) }
{
    match PageCount::try_from(bytes / PAGE as u64) {
        Ok(count) if bytes % PAGE as u64 == 0 => Ok(count.0),
        _ => Err(Trouble::Size(bytes)),
    }
}

// Makes the file's name last, which its folder keeps.
fn sync_folder(rt: &HostRuntime, path: &str) -> Result<(), Trouble> {
    let folder = match Path::new(path).parent() {
        Some(parent) => parent,
        None => Path::new("/"),
    };
    let text = folder.as_str();
    let opened = File::open(rt, if text.is_empty() { "." } else { text });
    let folder = system("open the file's folder", opened)?;
    system("make the file's name last", folder.sync_all())
}
