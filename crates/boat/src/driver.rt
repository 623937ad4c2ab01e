// A house, driven act by act over its file.
use crate::page_file::{PAGE, PageFile};
use crate::trouble::{Refused, Trouble, system};
use house::tell;
use lines::hex;
use pages::cells::CELLS;
use pages::machine::ROW;
use pages::told::{Event, Told};
use std::io::Write;

// More acts than any command makes.
const ACTS: u64 = 1 << 40;

// A house's memory, the row that it writes to, and its pages; and the system, which shows what it tells.
#[derive(Drop)]
pub struct Driver<'a> {
    pub rt: &'a HostRuntime,
    memory: Vec<u64>,
    out: Vec<u8>,
    file: PageFile,
}

impl<'a> Driver<'a> {
    // A house on its own, its power just switched on.
    pub fn start(rt: &'a HostRuntime, file: PageFile) -> Result<Driver<'a>, Trouble> {
        let heap = rt.alloc();
        let memory = vec![in heap; 0u64; CELLS]?;
        let out = vec![in heap; 0u8; ROW]?;
        let power = Event::On {
            house: 0,
            houses: 1,
            pages: file.pages(),
        };
        let mut driver = Driver {
            rt,
            memory,
            out,
            file,
        };
        match driver.run(power)? {
            Ok(()) => Ok(driver),
            Err(refused) => Err(Trouble::Start(refused)),
        }
    }

    // Runs a command to its end, and prints what it shows; says whether the house refused it.
    pub fn command(&mut self, bytes: &[u8]) -> Result<Result<(), Refused>, Trouble> {
        self.run(Event::Said(bytes))
    }

    fn run(&mut self, event: Event) -> Result<Result<(), Refused>, Trouble> {
        let mut told = self.tell(event);
        for _ in 0..ACTS {
            match told {
                Told::Done => return Ok(Ok(())),
                Told::No(number) => return Ok(Err(Refused::try_from(number)?)),
                _ => told = self.act(told)?,
            }
        }
        Err(Trouble::Endless)
    }

    fn tell(&mut self, event: Event) -> Told {
        let memory = self.memory.as_mut_slice();
        let out = self.out.as_mut_slice();
        tell(memory, event, out)
    }

    // Does what the house asks for, and tells it so.
    fn act(&mut self, told: Told) -> Result<Told, Trouble> {
        match told {
            Told::Read(number) => return self.read(number),
            Told::Write(number) => self.write(number)?,
            Told::Flush => system("flush the file", self.file.sync())?,
            Told::Shows(count) => self.show(count)?,
            Told::Send(_) => return Ok(self.tell(Event::Lost)),
            Told::Done | Told::No(_) => {}
        }
        Ok(self.tell(Event::Next))
    }

    // A page that is not there has no bytes.
    fn read(&mut self, number: u64) -> Result<Told, Trouble> {
        let mut page = [0u8; PAGE];
        if number >= self.file.pages() {
            return Ok(self.tell(Event::Page(&[])));
        }
        system("read a page", self.file.read_page(number, &mut page))?;
        Ok(self.tell(Event::Page(&page)))
    }

    fn write(&mut self, number: u64) -> Result<(), Trouble> {
        let Some(page) = self.out.as_slice().get(0..PAGE) else {
            return Err(Trouble::Fault);
        };
        if number >= self.file.pages() {
            return Err(Trouble::Fault);
        }
        system("write a page", self.file.write_page(number, page))
    }

    fn show(&mut self, count: u64) -> Result<(), Trouble> {
        let Some(row) = self.out.as_slice().get(0..count as usize) else {
            return Err(Trouble::Fault);
        };
        print_row(self.rt, row)
    }
}

// Prints a row in hexadecimal, on a line of its own.
pub fn print_row(rt: &HostRuntime, row: &[u8]) -> Result<(), Trouble> {
    let line = hex::line_of(rt.alloc(), row)?;
    system("print", rt.stdout().write_all(line.as_bytes()))
}
