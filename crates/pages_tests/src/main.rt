// Runs a client that counts against a device in memory, with a stop at every act and every outcome of the waiting writes.
#![tactic(auto)]

mod counter;

use counter::Counter;
use device::desk::Desk;
use device::{Device, outcome};
use pages::bytes::number;
use pages::told::{Event, Told};
use std::alloc::{AllocError, Global};
use std::ops::AddAssign;

// How a command went, as far as it was let run: the number that it showed, and whether it ended.
#[derive(Clone, Copy)]
struct Went {
    shown: Option<u64>,
    ended: bool,
}

// What was seen.
#[derive(Clone, Copy, Default)]
struct Counts {
    stops: u64,
    old: u64,
    new: u64,
    wrong: u64,
}

impl AddAssign for Counts {
    fn add_assign(&mut self, more: Counts) {
        self.stops = self.stops.saturating_add(more.stops);
        self.old = self.old.saturating_add(more.old);
        self.new = self.new.saturating_add(more.new);
        self.wrong = self.wrong.saturating_add(more.wrong);
    }
}

impl Counts {
    // One stop: the number before it, what was shown before it came, and what the next command shows.
    fn note(&mut self, before: u64, seen: Option<u64>, after: Option<u64>) {
        self.stops = self.stops.saturating_add(1);
        if after == Some(before.saturating_add(2)) {
            self.new = self.new.saturating_add(1);
        } else if after == Some(before.saturating_add(1)) && seen.is_none() {
            self.old = self.old.saturating_add(1);
        } else {
            self.wrong = self.wrong.saturating_add(1);
        }
    }
}

// A counting client on a ring of so many pages.
#[derive(Drop)]
struct Ring {
    pages: u64,
    desk: Desk,
}

impl Ring {
    // One act on the device, and what is told after it.
    fn act(&mut self, device: &mut Device, told: Told) -> Result<Told, AllocError> {
        match told {
            Told::Read(k) => {
                let page = device.read(k as usize).unwrap_or([0; 512]);
                return Ok(self.desk.tell::<Counter>(Event::Page(&page)));
            }
            Told::Write(k) => device.write(k as usize, self.desk.page())?,
            Told::Flush => device.flush(),
            Told::Shows(_) => {}
            _ => return Ok(told),
        }
        Ok(self.desk.tell::<Counter>(Event::Next))
    }

    // Power comes, and then a command, for at most so many acts.
    fn run(&mut self, device: &mut Device, most: u64) -> Result<Went, AllocError> {
        let _ = self.desk.power::<Counter>(self.pages);
        let mut shown = None;
        let mut told = self.desk.tell::<Counter>(Event::Said(&[]));
        for _ in 0..most {
            match told {
                Told::Done => return Ok(Went { shown, ended: true }),
                Told::Shows(_) => shown = Some(number(&self.desk.out)),
                _ => {}
            }
            told = self.act(device, told)?;
        }
        Ok(Went {
            shown,
            ended: false,
        })
    }

    // Every outcome of a stop after so many acts, up to four waiting writes: whether the command had ended by then.
    fn stop_after(
        &mut self,
        heap: Global,
        device: &Device,
        before: u64,
        acts: u64,
        counts: &mut Counts,
    ) -> Result<bool, AllocError> {
        let mut cut = device.copied()?;
        let went = self.run(&mut cut, acts)?;
        let waiting = cut.waiting();
        for number in 0..3u64.saturating_pow(waiting.min(4) as u32) {
            let mut left = cut.copied()?;
            left.stop(&outcome(heap, number, waiting)?);
            let after = self.run(&mut left, 64)?;
            counts.note(before, went.shown, after.shown.filter(|_| after.ended));
        }
        Ok(went.ended)
    }
}

// A day on a ring: so many commands, each first with every stop, then whole.
fn day(heap: Global, pages: u64, commands: u64) -> Result<Counts, AllocError> {
    let mut counts = Counts::default();
    let mut ring = Ring {
        pages,
        desk: Desk::new(heap)?,
    };
    let mut device = Device::blank(heap, pages as usize)?;
    for before in 0..commands {
        for acts in 0..64 {
            if ring.stop_after(heap, &device, before, acts, &mut counts)? {
                break;
            }
        }
        ring.run(&mut device, 64)?;
        device.flush();
    }
    Ok(counts)
}

fn main(rt: HostRuntime) -> std::io::Result<()> {
    let mut all = Counts::default();
    for pages in [3, 4, 5, 6, 9, 17] {
        all += day(rt.alloc(), pages, 60)?;
    }
    let Counts {
        stops,
        old,
        new,
        wrong,
    } = all;
    println!(rt;
        "{stops} stops: {old} came up with the old head, {new} with the new one, {wrong} wrong"
    )
}
