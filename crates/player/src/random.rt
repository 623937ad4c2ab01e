// Random days from a seed.
ghost use Rattle.std.specs.Prelude.{◌<◌};

use crate::day::{LONG_LINE, Setting, Stop, What};
use crate::engine::is_known;
use crate::text::spelled;
use commands::{Command, Kind};
use device::Left;
use plain::houses::Plain;
use std::alloc::{AllocError, Global};

// Among them some that differ in the last of 64 bytes, or by a zero at the end alone.
const PATHS: [&str; 12] = [
    "a",
    "b",
    "c",
    "ab",
    "a/b",
    "a\0",
    "lock",
    "weir",
    "eight-by",
    "eight-byt",
    "a-path-of-sixty-four-bytes-that-is-the-longest-there-can-be-here",
    "a-path-of-sixty-four-bytes-that-is-the-longest-there-can-be-herf",
];

const NAMES: [&str; 6] = ["main", "a", "b", "north", "x", "tag"];

// A row of numbers that depends on nothing but its seed.
#[derive(Clone, Copy)]
pub struct Dice {
    heap: Global,
    state: u64,
}

impl Dice {
    pub fn new(heap: Global, seed: u64) -> Dice {
        Dice { heap, state: seed }
    }

    pub fn next(&mut self) -> u64 {
        self.state = self.state.wrapping_add(0x9e37_79b9_7f4a_7c15);
        let a = (self.state ^ (self.state >> 30)).wrapping_mul(0xbf58_476d_1ce4_e5b9);
        let b = (a ^ (a >> 27)).wrapping_mul(0x94d0_49bb_1331_11eb);
        b ^ (b >> 31)
    }

    // A number below n; 0 where n is 0.
    pub fn below(&mut self, n: u64) -> u64
        ensures { 0 < n → result < n }
    {
        if n == 0 { 0 } else { self.next() % n }
    }

    // How many pages a house has.
    fn pages(&mut self) -> usize {
        [64, 128, 512, 4096][self.below(4) as usize]
    }

    // The houses of a day; in one day of three each has its own number of pages.
    pub fn setting(&mut self) -> Result<Setting, AllocError> {
        let houses = match self.below(20) {
            0 => 16,
            n => 3 + (n % 3) as usize,
        };
        let mut setting = Setting::new(self.heap, houses, self.pages());
        if self.below(3) == 0 {
            for c in 0..houses {
                setting.own_pages.insert(c, self.pages())?;
            }
        }
        Ok(setting)
    }

    fn path(&mut self) -> &'static [u8] {
        PATHS[self.below(12) as usize].as_bytes()
    }

    fn name(&mut self) -> &'static [u8] {
        NAMES[self.below(6) as usize].as_bytes()
    }

    // A name of this house, or of another one, with its number before it.
    fn far_name(&mut self, houses: u64) -> Result<Vec<u8>, AllocError> {
        let mut row = Vec::new(self.heap);
        if self.below(2) == 0 {
            row.push((self.below(houses) % 256) as u8)?;
        }
        row.extend_from_slice(self.name())?;
        Ok(row)
    }

    // How long a text is: mostly short, now and then long enough to fill a house, or about as long as there is room for.
    fn size(&mut self, room: u64) -> u64 {
        match self.below(20) {
            0 => 0,
            1 => 65535,
            2 => self.below(65536),
            3 => self.below(4096),
            4..=6 => self.below(600),
            7 => room
                .saturating_add(1)
                .saturating_sub(self.below(3))
                .min(65535),
            8 => self.below(65).saturating_mul(8),
            _ => self.below(3),
        }
    }

    fn bytes(&mut self, room: u64) -> Result<Vec<u8>, AllocError> {
        let first = self.below(4);
        let size = self.size(room);
        (0..size)
            .map(|i| (i.wrapping_mul(first).wrapping_add(97) % 256) as u8)
            .collect(self.heap)
    }

    // The id of some commit, or bytes that are hardly one.
    fn id(&mut self, plain: &Plain) -> Result<Vec<u8>, AllocError> {
        let k = self.below((plain.book.len() as u64).saturating_add(1));
        let mut row = plain.book.id(k as usize).to_vec(self.heap)?;
        if self.below(10) == 0 {
            row.truncate(31);
        }
        Ok(row)
    }

    // The kind of a command, or none: mostly one that is known, often a write, and rarely `leave`, which empties.
    fn kind(&mut self) -> Option<Kind> {
        if self.below(5) < 2 {
            return Some(Kind::WriteFile);
        }
        for _ in 0..8 {
            let kind = self.any_kind();
            let waits = kind == Some(Kind::Leave) && self.below(4) > 0;
            if kind.is_some_and(is_known) && !waits {
                return kind;
            }
        }
        self.any_kind()
    }

    // The kind of a number below 20: none is of 0.
    fn any_kind(&mut self) -> Option<Kind> {
        Kind::try_from(self.below(20) as u8).ok()
    }

    // The bytes of a command of a kind; where there is none, or where they do not fit, bytes that spell none.
    fn command(
        &mut self,
        plain: &Plain,
        room: u64,
        kind: Option<Kind>,
    ) -> Result<Vec<u8>, AllocError> {
        let Some(kind) = kind else {
            return self.bytes(room);
        };
        let heap = self.heap;
        let houses = plain.houses.len() as u64;
        let text = match kind {
            Kind::WriteFile => {
                let path = self.path();
                // What a new file at a new path weighs beside its bytes.
                let room = room.saturating_sub(128).saturating_sub(path.len() as u64);
                spelled(heap, Command::WriteFile(path, self.bytes(room)?.as_slice()))?
            }
            Kind::DropFile => spelled(heap, Command::DropFile(self.path()))?,
            Kind::Commit => {
                let stamp = self.below(6);
                spelled(heap, Command::Commit(stamp, self.bytes(room)?.as_slice()))?
            }
            Kind::Branch => spelled(heap, Command::Branch(self.name()))?,
            Kind::GoTo => spelled(heap, Command::GoTo(self.name()))?,
            Kind::History => spelled(heap, Command::History)?,
            Kind::ShowFile => {
                let name = self.far_name(houses)?;
                spelled(heap, Command::ShowFile(name.as_slice(), self.path()))?
            }
            Kind::Status => spelled(heap, Command::Status)?,
            Kind::ReadFile => spelled(heap, Command::ReadFile(self.path()))?,
            Kind::Join => spelled(heap, Command::Join(self.far_name(houses)?.as_slice()))?,
            Kind::Settle => spelled(heap, Command::Settle(self.path()))?,
            Kind::Leave => spelled(heap, Command::Leave)?,
            Kind::MoveOnto => spelled(heap, Command::MoveOnto(self.far_name(houses)?.as_slice()))?,
            Kind::Carry => spelled(heap, Command::Carry(self.id(plain)?.as_slice()))?,
            Kind::Forget => spelled(heap, Command::Forget(self.name()))?,
            Kind::Tag => spelled(heap, Command::Tag(self.name()))?,
            Kind::Who => spelled(heap, Command::Who(self.path()))?,
            Kind::Sweep => spelled(heap, Command::Sweep)?,
            Kind::Fetch => spelled(heap, Command::Fetch(self.below(houses.saturating_add(1))))?,
        };
        match text {
            Some(row) => Ok(row),
            None => self.bytes(room),
        }
    }

    // Where power stops, in one item of eight.
    pub fn stop(&mut self) -> Result<Option<Stop>, AllocError> {
        if self.below(8) != 0 {
            return Ok(None);
        }
        let mut left = Vec::new(self.heap);
        for _ in 0..self.below(40) {
            left.push(Left::from(self.below(3)))?;
        }
        let most = [4, 40, 400][self.below(3) as usize];
        let acts = self.below(most);
        Ok(Some(Stop { acts, left }))
    }

    // Which house is next: one time in two the first, so that it comes to sweep.
    pub fn house(&mut self, houses: usize) -> usize {
        if self.below(2) == 0 {
            return 0;
        }
        self.below(houses as u64) as usize
    }

    // A command at a house with so much room, and a line that mostly carries more than any command sends.
    pub fn said(&mut self, plain: &Plain, room: u64) -> Result<What, AllocError> {
        let kind = self.kind();
        let letters = if self.below(4) == 0 {
            self.below(64)
        } else {
            LONG_LINE
        };
        Ok(What::Said(self.command(plain, room, kind)?, letters))
    }
}
