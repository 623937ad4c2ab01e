// A house on its device: power, commands, and how often it swept.
use crate::answer::{Answer, Answers};
use commands::{Command, spell};
use device::Device;
use device::desk::Desk;
use house::control::Control;
use pages::bytes::number;
use pages::told::{Event, Told};
use std::alloc::{AllocError, Global};

// The longest spelling: a kind, and two rows with their lengths.
const SPELLING: usize = 65_700;

// More acts than any command takes here.
const MOST_ACTS: u64 = 1_000_000;

// A command on its way: the act that was told last, and what was shown.
#[derive(Drop)]
pub struct Run {
    pub told: Told,
    rows: Vec<Vec<u8>>,
}

impl Run {
    pub fn has_ended(&self) -> bool {
        matches!(self.told, Told::Done | Told::No(_))
    }

    // How it ended.
    pub fn answer(self) -> Answer {
        let Run { told, rows } = self;
        Answer { end: told, rows }
    }
}

#[derive(Drop)]
pub struct Rig {
    heap: Global,
    desk: Desk,
    pub device: Device,
    // Where a command is spelled.
    text: Vec<u8>,
    // The first page of the window, as it was written last.
    window: u64,
    pub sweeps: u64,
}

// The first page of the window of a head.
fn window_of(head: &[u8]) -> u64 {
    number(head.get(0..8).unwrap_or(&[]))
}

impl Rig {
    // A new house, to which power came.
    pub fn new(heap: Global, pages: u64) -> Result<Rig, AllocError> {
        let mut rig = Rig {
            heap,
            desk: Desk::new(heap)?,
            device: Device::blank(heap, pages as usize)?,
            text: vec![in heap; 0u8; SPELLING]?,
            window: 0,
            sweeps: 0,
        };
        rig.power();
        Ok(rig)
    }

    fn tell(&mut self, event: Event<'_>) -> Told {
        house::tell(&mut self.desk.memory, event, &mut self.desk.out)
    }

    // Power comes: one act ends that.
    pub fn power(&mut self) -> Told {
        self.desk.power::<Control>(self.device.pages() as u64)
    }

    // A command is said.
    pub fn say(&mut self, command: Command<'_>) -> Run {
        let size = spell(command, &mut self.text).unwrap_or(0);
        let text = self.text.get(..size).unwrap_or(&[]);
        Run {
            told: house::tell(&mut self.desk.memory, Event::Said(text), &mut self.desk.out),
            rows: Vec::new(self.heap),
        }
    }

    // One act on the device, and what is told after it.
    pub fn act(&mut self, run: &mut Run) -> Result<(), AllocError> {
        match run.told {
            Told::Read(k) => {
                let page = self.device.read(k as usize).unwrap_or([0; 512]);
                run.told = self.tell(Event::Page(&page));
                return Ok(());
            }
            Told::Write(k) => self.write(k)?,
            Told::Flush => self.device.flush(),
            Told::Shows(bytes) => run.rows.push(self.row(bytes)?)?,
            _ => return Ok(()),
        }
        run.told = self.tell(Event::Next);
        Ok(())
    }

    // The row that is shown.
    fn row(&self, bytes: u64) -> Result<Vec<u8>, AllocError> {
        let row = self.desk.out.get(..bytes as usize).unwrap_or(&[]);
        row.to_vec(self.heap)
    }

    // A write; that of a head whose window begins elsewhere is a sweep.
    fn write(&mut self, k: u64) -> Result<(), AllocError> {
        let page = self.desk.page();
        if k == 0 {
            let window = window_of(&page);
            if window != self.window {
                self.window = window;
                self.sweeps = self.sweeps.saturating_add(1);
            }
        }
        self.device.write(k as usize, page)
    }
}

impl Answers for Rig {
    // A command from its first act to its last.
    fn answer(&mut self, command: Command<'_>) -> Result<Answer, AllocError> {
        let mut run = self.say(command);
        for _ in 0..MOST_ACTS {
            if run.has_ended() {
                break;
            }
            self.act(&mut run)?;
        }
        Ok(run.answer())
    }
}
