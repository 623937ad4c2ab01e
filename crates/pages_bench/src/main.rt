// Lays and looks of 64 KiB through the request machine, on a device in memory: how long a thousand of each take.
#![tactic(auto)]

mod mover;

use device::Page;
use device::desk::Desk;
use mover::Mover;
use pages::told::{Event, Told};
use std::alloc::{AllocError, Global};
use std::time::Instant;

const PAGES: usize = 256;

// A desk, and pages on which each write comes in at once.
#[derive(Drop)]
struct Bench {
    desk: Desk,
    pages: Vec<Page>,
}

impl Bench {
    fn new(heap: Global) -> Result<Bench, AllocError> {
        let mut desk = Desk::new(heap)?;
        let _ = desk.power::<Mover>(PAGES as u64);
        Ok(Bench {
            desk,
            pages: vec![in heap; [0u8; 512]; PAGES]?,
        })
    }

    fn act(&mut self, told: Told) -> Told {
        match told {
            Told::Read(k) => {
                let page = self.pages.get(k as usize).copied().unwrap_or([0; 512]);
                return self.desk.tell::<Mover>(Event::Page(&page));
            }
            Told::Write(k) => {
                if let Some(page) = self.pages.get_mut(k as usize) {
                    *page = self.desk.page();
                }
            }
            _ => {}
        }
        self.desk.tell::<Mover>(Event::Next)
    }

    // A thousand requests: how many acts they took.
    fn thousand(&mut self, text: &[u8]) -> u64 {
        let mut told = self.desk.tell::<Mover>(Event::Said(text));
        for acts in 0..1_000_000u64 {
            if told == Told::Done {
                return acts;
            }
            told = self.act(told);
        }
        0
    }
}

fn main(rt: HostRuntime) -> std::io::Result<()> {
    let mut bench = Bench::new(rt.alloc())?;
    let start = Instant::now(&rt)?;
    let lays = bench.thousand(&[]);
    let laid = start.elapsed(&rt)?.as_micros();
    let start = Instant::now(&rt)?;
    let looks = bench.thousand(&[1]);
    let looked = start.elapsed(&rt)?.as_micros();
    eprintln!(rt; "1000 lays of 64 KiB in {laid} microseconds, 1000 looks of 64 KiB in {looked}")?;
    println!(rt; "{lays} pages written, {looks} pages read")
}
