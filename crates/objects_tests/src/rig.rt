// A keeper on its device: its desk, commands, and how often the device was used.
use crate::keeper::Keeper;
use device::desk::Desk;
use device::{Device, Page};
use pages::bytes::number;
use pages::told::{Event, Told};
use pages::words::words_in;
use std::alloc::{AllocError, Global};

// Where a client's memory, and in it the buffer, starts.
const BUFFER_AT: usize = 128;

// What can be said.
#[derive(Clone, Copy)]
pub enum Command {
    Object { at: u64, limit: u64 },
    Lay { page: u64, pages: u64 },
    Publish,
    Sweep,
    Survey { kind: u64, key: [u64; 4] },
}

impl Command {
    // A code and five numbers, as the keeper reads them.
    fn numbers(self) -> [u64; 6] {
        match self {
            Command::Object { at, limit } => [1, at, limit, 0, 0, 0],
            Command::Lay { page, pages } => [2, page, pages, 0, 0, 0],
            Command::Publish => [3, 0, 0, 0, 0, 0],
            Command::Sweep => [5, 0, 0, 0, 0, 0],
            Command::Survey { kind, key } => [6, kind, key[0], key[1], key[2], key[3]],
        }
    }
}

// How often the device was used.
#[derive(Clone, Copy, Default)]
pub struct Uses {
    pub reads: u64,
    pub writes: u64,
    pub flushes: u64,
}

#[derive(Drop)]
pub struct Rig {
    desk: Desk,
    pub device: Device,
    pub uses: Uses,
    // The first two numbers of the row that was shown last.
    pub shown: [u64; 2],
}

// What is read where there is no page.
static BLANK: Page = [0; 512];

fn page_at(device: &Device, at: u64) -> &Page {
    device.page(at as usize).unwrap_or(&BLANK)
}

// A word of the tape.
pub fn word(device: &Device, at: u64) -> u64 {
    let ring = (device.pages() as u64).saturating_sub(1).max(1);
    let page = page_at(device, 1 + at / 64 % ring);
    number(&page[8 * (at % 64) as usize..])
}

// The head's words.
pub fn head(device: &Device) -> [u64; 32] {
    words_in(page_at(device, 0))
}

impl Rig {
    pub fn new(heap: Global, pages: u64) -> Result<Rig, AllocError> {
        let mut rig = Rig {
            desk: Desk::new(heap)?,
            device: Device::blank(heap, pages as usize)?,
            uses: Uses::default(),
            shown: [0, 0],
        };
        rig.power();
        Ok(rig)
    }

    // Power comes.
    pub fn power(&mut self) {
        let _ = self.desk.power::<Keeper>(self.device.pages() as u64);
    }

    // The words of the buffer from a place on.
    pub fn peek(&self, at: usize) -> &[u64] {
        self.desk
            .memory
            .get(at.saturating_add(BUFFER_AT)..)
            .unwrap_or(&[])
    }

    // Puts words into the buffer; what has no room is left out.
    pub fn poke(&mut self, at: usize, words: &[u64]) {
        if let Some(room) = self
            .desk
            .memory
            .as_mut_slice()
            .get_mut(at.saturating_add(BUFFER_AT)..)
        {
            for (cell, word) in room.iter_mut().zip(words) {
                *cell = *word;
            }
        }
    }

    // A command is said.
    pub fn say(&mut self, command: Command) -> Told {
        let text = command.numbers().map(u64::to_be_bytes);
        self.desk.tell::<Keeper>(Event::Said(text.as_flattened()))
    }

    // One act on the device, and what is told after it.
    pub fn act(&mut self, told: Told) -> Result<Told, AllocError> {
        match told {
            Told::Read(k) => {
                self.uses.reads = self.uses.reads.saturating_add(1);
                let page = page_at(&self.device, k);
                return Ok(self.desk.tell::<Keeper>(Event::Page(page)));
            }
            Told::Write(k) => {
                self.uses.writes = self.uses.writes.saturating_add(1);
                self.device.write(k as usize, self.desk.page())?;
            }
            Told::Flush => {
                self.uses.flushes = self.uses.flushes.saturating_add(1);
                self.device.flush();
            }
            Told::Shows(_) => self.shown = words_in(&self.desk.out),
            _ => return Ok(told),
        }
        Ok(self.desk.tell::<Keeper>(Event::Next))
    }

    // A command from its first act to its last: whether it was done.
    pub fn run(&mut self, command: Command) -> Result<bool, AllocError> {
        let mut told = self.say(command);
        for _ in 0..200_000u64 {
            if told == Told::Done {
                return Ok(true);
            }
            told = self.act(told)?;
        }
        Ok(false)
    }
}
