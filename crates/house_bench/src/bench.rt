// A house on its pages, which counts how often they are used and how long each command takes.
use crate::cost::Cost;
use crate::disk::Disk;
use commands::{Command, spell};
use device::desk::Desk;
use house::control::Control;
use pages::bytes::number;
use pages::told::{Event, Told};
use std::alloc::{AllocError, Global};
use std::io;
use std::time::Instant;

// The longest spelling: a kind, and two rows with their lengths.
const SPELLING: usize = 65_700;

// More acts than any command takes here.
const MOST_ACTS: u64 = 100_000_000;

fn up(count: &mut u64) {
    *count = count.saturating_add(1);
}

fn since(rt: &HostRuntime, start: Instant) -> io::Result<u64> {
    let micros = start.elapsed(rt)?.as_micros();
    Ok(u64::try_from(micros).unwrap_or(u64::MAX))
}

fn has_ended(told: Told) -> bool {
    matches!(told, Told::Done | Told::No(_))
}

#[derive(Drop)]
pub struct Bench<'a> {
    rt: &'a HostRuntime,
    desk: Desk,
    disk: Disk,
    // Where a command is spelled.
    text: Vec<u8>,
    // The first page of the window, as it was written last.
    window: u64,
    // What the command took so far.
    cost: Cost,
}

impl<'a> Bench<'a> {
    // A new house, to which power came.
    pub fn new(rt: &'a HostRuntime, disk: Disk, pages: u64) -> Result<Bench<'a>, AllocError> {
        let heap: Global = rt.alloc();
        let mut desk = Desk::new(heap)?;
        let _ = desk.power::<Control>(pages);
        Ok(Bench {
            rt,
            desk,
            disk,
            text: vec![in heap; 0u8; SPELLING]?,
            window: 0,
            cost: Cost::default(),
        })
    }

    // A command is said.
    fn say(&mut self, command: Command<'_>) -> Told {
        let size = spell(command, &mut self.text).unwrap_or(0);
        let text = self.text.get(..size).unwrap_or(&[]);
        house::tell(&mut self.desk.memory, Event::Said(text), &mut self.desk.out)
    }

    fn tell(&mut self, event: Event<'_>) -> Told {
        house::tell(&mut self.desk.memory, event, &mut self.desk.out)
    }

    // A write; that of a head whose window begins elsewhere is a sweep.
    fn write(&mut self, k: u64) -> io::Result<()> {
        let page = self.desk.page();
        up(&mut self.cost.uses.writes);
        self.disk.write(k, &page)?;
        let window = number(&page);
        if k == 0 && window != self.window {
            self.window = window;
            up(&mut self.cost.uses.sweeps);
        }
        Ok(())
    }

    fn flush(&mut self) -> io::Result<()> {
        let start = Instant::now(self.rt)?;
        self.disk.flush()?;
        let took = since(self.rt, start)?;
        self.cost.flushing = self.cost.flushing.saturating_add(took);
        up(&mut self.cost.uses.flushes);
        Ok(())
    }

    // One act, and what is told after it.
    fn act(&mut self, told: Told) -> io::Result<Told> {
        match told {
            Told::Read(k) => {
                up(&mut self.cost.uses.reads);
                let page = self.disk.read(k)?;
                return Ok(self.tell(Event::Page(&page)));
            }
            Told::Write(k) => self.write(k)?,
            Told::Flush => self.flush()?,
            Told::Shows(_) => up(&mut self.cost.uses.rows),
            _ => return Ok(told),
        }
        Ok(self.tell(Event::Next))
    }

    // Acts up to the first write, or to the end.
    fn look(&mut self, mut told: Told) -> io::Result<Told> {
        for _ in 0..MOST_ACTS {
            if has_ended(told) || matches!(told, Told::Write(_)) {
                break;
            }
            told = self.act(told)?;
        }
        Ok(told)
    }

    // Acts to the end.
    fn finish(&mut self, mut told: Told) -> io::Result<Told> {
        for _ in 0..MOST_ACTS {
            if has_ended(told) {
                break;
            }
            told = self.act(told)?;
        }
        Ok(told)
    }

    // A command from its first act to its last: what that took.
    pub fn run(&mut self, command: Command<'_>) -> io::Result<Cost> {
        self.cost = Cost::default();
        let start = Instant::now(self.rt)?;
        let told = self.say(command);
        let told = self.look(told)?;
        self.cost.looking = since(self.rt, start)?;
        let told = self.finish(told)?;
        self.cost.all = since(self.rt, start)?;
        self.cost.uses.done = u64::from(told == Told::Done);
        Ok(self.cost)
    }
}
