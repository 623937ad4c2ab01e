// A house's memory, and the row of bytes that is lent to each of its steps.
ghost use Rattle.std.specs.Prelude.{◌≡◌, ◌<◌, length, replicate, take, IfOk};
ghost use Rattle.pages.specs.Engine.{engine, engine_fits, StepTold};
ghost use Rattle.pages.specs.Run.{on};
ghost use Rattle.device.specs.Held.{front_page};
ghost use Rattle.pages.specs.Told.{event_meant};

use crate::Page;
use pages::cells::{CELLS, step};
use pages::machine::{Client, ROW};
use pages::told::{Event, Told};
use std::alloc::{AllocError, Global};

#[derive(Drop)]
pub struct Desk {
    pub memory: Vec<u64>,
    pub out: Vec<u8>,
}

impl Desk {
    pub fn new(heap: Global) -> Result<Desk, AllocError>
        ensures { IfOk result (λ d. (d.memory.items ≡ replicate 262144 0) × (d.out.items ≡ replicate 131072 0)) }
    {
        Ok(Desk {
            memory: vec![in heap; 0u64; CELLS]?,
            out: vec![in heap; 0u8; ROW]?,
        })
    }

    // One step of a client and its machine.
    pub fn tell<C: Client + Drop>(&mut self, event: Event) -> Told
        ensures { StepTold (engine_fits self.old.memory.items self.old.out.items) C.housed self.old.memory.items (event_meant event.entry) self.old.out.items result self.new.memory.items self.new.out.items }
    {
        step::<C>(&mut self.memory, event, &mut self.out)
    }

    // Power comes to a house of so many pages that is on its own: memory is all 0 before.
    pub fn power<C: Client + Drop>(&mut self, pages: u64) -> Told
        ensures { StepTold (engine_fits (replicate (length self.old.memory.items) 0) self.old.out.items) C.housed (replicate (length self.old.memory.items) 0) (on 0 1 pages) self.old.out.items result self.new.memory.items self.new.out.items }
    {
        self.memory.fill(0);
        self.tell::<C>(Event::On {
            house: 0,
            houses: 1,
            pages,
        })
    }

    // The page at the front of the row; zeros where the row is shorter.
    pub fn page(&self) -> Page
        ensures { result ≡ front_page self.now.out.items }
    {
        match self.out.first_chunk() {
            Some(page) => *page,
            None => [0; 512],
        }
    }
}
