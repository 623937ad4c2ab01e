// A device in memory and a house's memory beside it, for trials. The device is proved to be the one of the promise.
#![tactic(auto)]

ghost use Rattle.std.specs.Prelude.{◌≡◌, ◌%◌, ◌<◌, ◌≤◌, List, [], ◌++◌, ◌∷◌, length, IfOk, OnOk, OnErr, MatchOption};
ghost use Rattle.pages.specs.Device.{Device as Held, all_written, blank, flushed, left as left_of, read_page, set_page, stopped};
ghost use Rattle.pages.specs.Lists.{each};
ghost use Rattle.device.specs.Held.{brought, meant};
ghost use Rattle.device.specs.Left.{code, digits};

pub mod desk;

use std::alloc::{AllocError, Global};
use std::fmt;
use std::marker::Model;

pub type Page = [u8; 512];

// What came of a waiting write at a stop.
#[derive(Clone, Copy, Debug, PartialEq, Eq)]
pub enum Left {
    Nothing,
    All,
    FirstHalf,
}

// A number's last digit to the base 3.
impl From<u64> for Left {
    ghost from_gives = { λ n left. code left ≡ n % 3 };

    fn from(n: u64) -> Left {
        match n % 3 {
            0 => Left::Nothing,
            1 => Left::All,
            _ => Left::FirstHalf,
        }
    }
}

// The digit to the base 3.
impl fmt::Display for Left {
    fn fmt<W: fmt::Write>(&self, f: &mut fmt::Formatter<W>) -> fmt::Result {
        f.write_str(match self {
            Left::Nothing => "0",
            Left::All => "1",
            Left::FirstHalf => "2",
        })
    }
}

// What a stop leaves of so many waiting writes: the digits of a number to the base 3, the last one first.
pub fn outcome(heap: Global, number: u64, waiting: usize) -> Result<Vec<Left>, AllocError>
    ensures { IfOk result (λ v. each code v.items ≡ digits waiting number) }
{
    let mut left = Vec::new(heap);
    let mut rest = number;
    for _ in 0..waiting {
        left.push(Left::from(rest))?;
        rest /= 3;
    }
    Ok(left)
}

// A write that waits for a flush.
#[derive(Clone, Copy)]
struct Write {
    at: usize,
    page: Page,
}

// Pages, and the writes that wait, the oldest first. So that a read doesn't go over the queue, `last` has for each page the place in it of the last write to
// the page. Where no write has that place, or one to another page, none to this page waits: so a flush and a stop leave `last` as it is.
#[derive(Drop)]
pub struct Device {
    pages: Vec<Page>,
    queue: Vec<Write>,
    last: Vec<usize>,
}

impl Model for Device {
    ghost use Rattle.pages.specs.Device.{Device as Held};

    ghost Value = { Held };

    ghost use Rattle.std.specs.Prelude.{◌≡◌, length};
    ghost use Rattle.device.specs.Held.{held, LeadsToLast};

    ghost view = { λ d. held d.pages.items d.queue.items };

    ghost invariant = { λ d. (length d.last.items ≡ length d.pages.items) × LeadsToLast d.queue.items d.last.items };
}

// Puts a page into its place, if there is one.
// As it stands: by its index, here, in `bring` and in `write`, since of a row after `get_mut` the library says nothing.
fn set(pages: &mut [Page], at: usize, page: Page)
    ensures { pages.new ≡ set_page pages.old at page }
{
    if at < pages.len() {
        pages[at] = page;
    }
}

// What a write leaves of which so much came in.
fn bring(pages: &mut [Page], write: &Write, left: Left)
    ensures { pages.new ≡ brought pages.old (meant write.now) (code left) }
{
    match left {
        Left::Nothing => {}
        Left::All => set(pages, write.at, write.page),
        Left::FirstHalf => {
            if write.at < pages.len() {
                pages[write.at][0..256].copy_from_slice(&write.page[0..256]);
            }
        }
    }
}

fn bring_all(pages: &mut [Page], queue: &[Write])
    ensures { pages.new ≡ all_written pages.old (each meant queue.now) }
{
    for write in queue {
        set(pages, write.at, write.page);
    }
}

fn bring_some(pages: &mut [Page], queue: &[Write], left: &[Left])
    ensures { pages.new ≡ left_of pages.old (each meant queue.now) (each code left.now) }
{
    for (write, left) in queue.iter().zip(left) {
        bring(pages, write, *left);
    }
}

impl Device {
    // So many pages of zeros, with nothing waiting.
    pub fn blank(heap: Global, pages: usize) -> Result<Device, AllocError>
        ensures { IfOk result (λ d. d ≡ record { pages = blank pages; queue = [] }) }
    {
        Ok(Device {
            pages: vec![in heap; [0u8; 512]; pages]?,
            queue: Vec::new(heap),
            last: vec![in heap; 0usize; pages]?,
        })
    }

    // The same pages, and the same writes waiting.
    // As it stands: no derived `Clone`, of which a clause knows only that each element is a clone.
    pub fn copied(&self) -> Result<Device, AllocError>
        ensures { IfOk result (λ d. d ≡ self.now) }
    {
        let heap = *self.pages.allocator();
        Ok(Device {
            pages: Vec::from_slice(heap, &self.pages)?,
            queue: Vec::from_slice(heap, &self.queue)?,
            last: Vec::from_slice(heap, &self.last)?,
        })
    }

    // How many pages there are.
    pub fn pages(&self) -> usize
        ensures { result ≡ length self.now.pages }
    {
        self.pages.len()
    }

    // How many writes wait.
    pub fn waiting(&self) -> usize
        ensures { result ≡ length self.now.queue }
    {
        self.queue.len()
    }

    // A page as whoever reads sees it, with what waits; none where there is no such page.
    pub fn page(&self, at: usize) -> Option<&Page>
        ensures { MatchOption result (length self.now.pages ≤ at) (λ page. page.now ≡ read_page self.now at) }
    {
        let place = *self.last.get(at)?;
        match self.queue.get(place) {
            Some(write) if write.at == at => Some(&write.page),
            _ => self.pages.get(at),
        }
    }

    // The same, as a copy.
    pub fn read(&self, at: usize) -> Option<Page>
        ensures { MatchOption result (length self.now.pages ≤ at) (λ page. page ≡ read_page self.now at) }
    {
        self.page(at).copied()
    }

    // A write that waits from now on; where there is no memory for it, nothing changes.
    pub fn write(&mut self, at: usize, page: Page) -> Result<(), AllocError>
        ensures ok { OnOk result (self.new ≡ record { pages = self.old.pages; queue = self.old.queue ++ record { at = at; page = page } ∷ [] }) }
        ensures err { OnErr result (self.new ≡ self.old) }
    {
        let place = self.queue.len();
        self.queue.push(Write { at, page })?;
        if at < self.last.len() {
            self.last[at] = place;
        }
        Ok(())
    }

    // All that waits comes in.
    pub fn flush(&mut self)
        ensures { self.new ≡ flushed self.old }
    {
        bring_all(&mut self.pages, &self.queue);
        self.queue.clear();
    }

    // A stop: of each waiting write, in turn, so much came onto its page; what is not said is nothing.
    pub fn stop(&mut self, left: &[Left])
        ensures { self.new ≡ stopped self.old (each code left.now) }
    {
        bring_some(&mut self.pages, &self.queue, left);
        self.queue.clear();
    }
}
