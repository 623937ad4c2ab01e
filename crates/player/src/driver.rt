// A house run act by act beside its device and, for a fetch, another house.
use crate::engine;
use crate::text::Spaced;
use commands::Refusal;
use device::{Device, Left, Page};
use pages::bytes::number;
use pages::cells::CELLS;
use pages::machine::ROW;
use pages::told::{Event, Told};
use std::alloc::{AllocError, Global};
use std::fmt;

// Acts that one who was written to has for its reply.
const REPLY_ACTS: u64 = 16777216;

// Acts that are given to a command; one that takes more is held not to end.
pub const MOST_ACTS: u64 = REPLY_ACTS;

// How a command stands.
#[derive(Clone, Copy, Debug, PartialEq, Eq)]
pub enum End {
    Running,
    Done,
    Refused(Refusal),
    // the house did what no house may do
    Fault,
}

// How a command ended, and what it showed.
#[derive(Clone, PartialEq, Drop)]
pub struct Answer {
    pub end: End,
    pub rows: Vec<Vec<u8>>,
}

// A house's pages, and its memory where it has power.
#[derive(Drop)]
pub struct World {
    pub device: Device,
    memory: Option<Vec<u64>>,
    // the first page of the window, as it was when nothing waited last
    window: u64,
    // flushes that brought in another first page of the window
    pub sweeps: u64,
}

// A house at work, and another one that it may write to, with its number.
#[derive(Drop)]
pub struct Pair {
    pub here: World,
    pub there: Option<(usize, World)>,
}

// What a house is told next.
#[derive(Drop)]
enum Next {
    On {
        house: usize,
        houses: usize,
        pages: usize,
    },
    Said(Vec<u8>),
    Page(Option<Page>),
    GoOn,
    Heard(Vec<u8>),
    Lost,
}

// A command, or the coming of power, on its way: what the house is told next, what the line still carries, and what was shown.
#[derive(Drop)]
pub struct Run {
    next: Next,
    letters: u64,
    out: Vec<u8>,
    showed: Vec<Vec<u8>>,
    pub end: End,
}

impl fmt::Display for End {
    fn fmt<W: fmt::Write>(&self, f: &mut fmt::Formatter<W>) -> fmt::Result {
        match self {
            End::Running => f.write_str("1000"),
            End::Done => f.write_str("0"),
            End::Refused(refusal) => write!(f, "{}", refusal.number()),
            End::Fault => f.write_str("1001"),
        }
    }
}

// How it ended, and a few of the rows.
impl fmt::Display for Answer {
    fn fmt<W: fmt::Write>(&self, f: &mut fmt::Formatter<W>) -> fmt::Result {
        write!(f, "{}", self.end)?;
        for row in self.rows.iter().take(20) {
            write!(f, " [{}]", Spaced(row.as_slice()))?;
        }
        Ok(())
    }
}

impl Answer {
    // One that shows nothing.
    pub fn bare(heap: Global, end: End) -> Answer {
        Answer {
            end,
            rows: Vec::new(heap),
        }
    }
}

// The first page of the window: the first word of the head.
fn window_of(device: &Device) -> u64 {
    device.read(0).map_or(0, |head| number(&head[0..8]))
}

impl World {
    // A house that is to start on these pages.
    pub fn on(device: Device) -> World {
        World {
            window: window_of(&device),
            device,
            memory: None,
            sweeps: 0,
        }
    }

    pub fn new(heap: Global, pages: usize) -> Result<World, AllocError> {
        Ok(World::on(Device::blank(heap, pages)?))
    }

    pub fn is_up(&self) -> bool {
        self.memory.is_some()
    }

    // Memory is all 0 when power comes.
    pub fn wake(&mut self, heap: Global) -> Result<(), AllocError> {
        self.memory = Some(vec![in heap; 0u64; CELLS]?);
        Ok(())
    }

    // Power is gone, and memory with it; of the waiting writes so much is left.
    pub fn stop(&mut self, left: &[Left]) {
        self.device.stop(left);
        self.window = window_of(&self.device);
        self.memory = None;
    }

    // All that waits comes in; a sweep is done where the window begins elsewhere then.
    fn flush(&mut self) {
        self.device.flush();
        let window = window_of(&self.device);
        if window != self.window {
            self.window = window;
            self.sweeps = self.sweeps.saturating_add(1);
        }
    }

    fn step(&mut self, event: Event<'_>, out: &mut [u8]) -> Told {
        match &mut self.memory {
            Some(memory) => engine::step(memory, event, out),
            None => Told::No(0),
        }
    }

    // Whether there is such a page, on which the write waits then.
    fn write(&mut self, at: u64, bytes: &[u8]) -> Result<bool, AllocError> {
        let at = at as usize;
        let Some(page) = bytes.first_chunk::<512>() else {
            return Ok(false);
        };
        if at >= self.device.pages() {
            return Ok(false);
        }
        self.device.write(at, *page)?;
        Ok(true)
    }
}

impl Pair {
    // A house on its own, to which power comes.
    pub fn alone(heap: Global, device: Device) -> Result<Pair, AllocError> {
        let mut here = World::on(device);
        here.wake(heap)?;
        Ok(Pair { here, there: None })
    }
}

impl Next {
    fn event(&self) -> Event<'_> {
        match self {
            Next::On {
                house,
                houses,
                pages,
            } => Event::On {
                house: *house as u64,
                houses: *houses as u64,
                pages: *pages as u64,
            },
            Next::Said(text) => Event::Said(text.as_slice()),
            Next::Page(Some(page)) => Event::Page(page),
            Next::Page(None) => Event::Page(&[]),
            Next::GoOn => Event::Next,
            Next::Heard(letter) => Event::Heard(letter.as_slice()),
            Next::Lost => Event::Lost,
        }
    }
}

impl Run {
    fn new(heap: Global, next: Next, letters: u64) -> Result<Run, AllocError> {
        Ok(Run {
            next,
            letters,
            out: vec![in heap; 0u8; ROW]?,
            showed: Vec::new(heap),
            end: End::Running,
        })
    }

    // Power comes to a house.
    pub fn power(
        heap: Global,
        house: usize,
        houses: usize,
        pages: usize,
    ) -> Result<Run, AllocError> {
        Run::new(
            heap,
            Next::On {
                house,
                houses,
                pages,
            },
            0,
        )
    }

    // A command is said, with a line that carries so many letters.
    pub fn command(heap: Global, text: &[u8], letters: u64) -> Result<Run, AllocError> {
        Run::new(heap, Next::Said(text.to_vec(heap)?), letters)
    }

    fn heap(&self) -> Global {
        *self.out.allocator()
    }

    // How it stands, and what was shown.
    pub fn answer(&self) -> Result<Answer, AllocError> {
        Ok(Answer {
            end: self.end,
            rows: self.showed.clone()?,
        })
    }

    fn step(&mut self, world: &mut World) -> Told {
        world.step(self.next.event(), &mut self.out)
    }

    // The front of what the house laid out.
    fn front(&self, count: u64) -> &[u8] {
        let count = self.out.len().min(count as usize);
        &self.out[0..count]
    }

    // One act of the house, with the house that it may write to.
    fn act(&mut self, pair: &mut Pair) -> Result<Told, AllocError> {
        let told = self.step(&mut pair.here);
        match told {
            Told::Read(at) => self.next = Next::Page(pair.here.device.read(at as usize)),
            Told::Write(at) => {
                if pair.here.write(at, self.out.as_slice())? {
                    self.next = Next::GoOn;
                } else {
                    self.end = End::Fault;
                }
            }
            Told::Flush => {
                pair.here.flush();
                self.next = Next::GoOn;
            }
            Told::Shows(count) => {
                let row = self.front(count).to_vec(self.heap())?;
                self.showed.push(row)?;
                self.next = Next::GoOn;
            }
            Told::Send(to) => self.send(pair, to)?,
            Told::Done => self.end = End::Done,
            Told::No(number) => {
                self.end = match Refusal::try_from(number) {
                    Ok(refusal) => End::Refused(refusal),
                    Err(_) => End::Fault,
                };
            }
        }
        Ok(told)
    }

    // Acts until the run has ended, or so many.
    pub fn drive(&mut self, pair: &mut Pair, most: u64) -> Result<(), AllocError> {
        for _ in 0..most {
            if self.end != End::Running {
                break;
            }
            self.act(pair)?;
        }
        Ok(())
    }

    // Acts up to one that changed the pages, or to the end.
    pub fn drive_on(&mut self, pair: &mut Pair) -> Result<(), AllocError> {
        for _ in 0..MOST_ACTS {
            let told = self.act(pair)?;
            if matches!(told, Told::Write(_) | Told::Flush) || self.end != End::Running {
                break;
            }
        }
        Ok(())
    }

    // A letter to another house, and its reply; no line where that has no power, is another one, or the line carries no more.
    fn send(&mut self, pair: &mut Pair, to: u64) -> Result<(), AllocError> {
        let letter = self.front(to % 4097).to_vec(self.heap())?;
        let reply = match &mut pair.there {
            Some((peer, there)) if there.is_up() && to / 4097 == *peer as u64 && self.letters > 0 =>
                reply_of(there, letter)?,
            _ => {
                self.next = Next::Lost;
                return Ok(());
            }
        };
        match reply {
            Reply::Letter(letter) => {
                self.letters -= 1;
                self.next = Next::Heard(letter);
            }
            Reply::Gone => {
                self.letters = 0;
                self.next = Next::Lost;
            }
            Reply::Cut => self.end = End::Fault,
        }
        Ok(())
    }
}

#[derive(Drop)]
enum Reply {
    Letter(Vec<u8>),
    // it did what is no reply
    Gone,
    // its acts ran out
    Cut,
}

// One who was written to works on the letter until it replies.
fn reply_of(world: &mut World, letter: Vec<u8>) -> Result<Reply, AllocError> {
    let heap = *letter.allocator();
    let mut run = Run::new(heap, Next::Heard(letter), 0)?;
    for _ in 0..REPLY_ACTS {
        match run.step(world) {
            Told::Read(at) => run.next = Next::Page(world.device.read(at as usize)),
            Told::Write(at) => {
                if !world.write(at, run.out.as_slice())? {
                    return Ok(Reply::Gone);
                }
                run.next = Next::GoOn;
            }
            Told::Flush => {
                world.flush();
                run.next = Next::GoOn;
            }
            Told::Send(to) => return Ok(Reply::Letter(run.front(to % 4097).to_vec(heap)?)),
            _ => return Ok(Reply::Gone),
        }
    }
    Ok(Reply::Cut)
}
