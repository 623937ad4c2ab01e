// A client that counts: it reads a number from the tape, lays it one higher, publishes, and shows it.
ghost use Rattle.std.specs.Prelude.{◌≡◌, ◌≤◌, length, slice_set};
ghost use Rattle.pages.specs.Machine.{asked};
ghost use Rattle.pages_tests.specs.Counter.{counter, counter_client, phase_code, phase_in, recalled, CountsUp};

use pages::machine::{Client, Request};

// What was asked for last.
#[derive(Clone, Copy, Debug, PartialEq, Eq)]
pub enum Phase {
    Resting = 0,
    Recalling = 1,
    Looking = 2,
    Laying = 3,
    Publishing = 4,
    Showing = 5,
}

// A phase as a cell has it.
impl From<u64> for Phase {
    ghost from_gives = { λ cell phase. phase ≡ phase_in cell };

    fn from(cell: u64) -> Phase {
        match cell {
            1 => Phase::Recalling,
            2 => Phase::Looking,
            3 => Phase::Laying,
            4 => Phase::Publishing,
            5 => Phase::Showing,
            _ => Phase::Resting,
        }
    }
}

impl Phase {
    fn code(self) -> u64
        ensures { result ≡ phase_code self }
    {
        self as u64
    }
}

#[derive(Clone, Copy, Debug, PartialEq, Eq)]
pub struct Counter {
    phase: Phase,
    // The number of pages that were laid, as the head says.
    last: u64,
    count: u64,
}

impl Counter {
    // The head is there: the last page that was laid has the number in front.
    fn look(&mut self, memory: &mut [u64]) -> Request
        requires { 2 ≤ length memory.old }
        ensures { asked self.new memory.new result ≡ recalled memory.old }
    {
        let last = memory[1];
        if last == 0 {
            return self.lay(0, 1, memory);
        }
        *self = Counter {
            phase: Phase::Looking,
            last,
            count: 0,
        };
        Request::Look {
            at: (last - 1).saturating_mul(64),
            words: 1,
        }
    }

    // The number is laid on the page behind the last.
    fn lay(&mut self, last: u64, count: u64, memory: &mut [u64]) -> Request
        requires { 2 ≤ length memory.old }
        ensures { asked self.new memory.new result ≡ asked (counter Phase.Laying last count) (slice_set memory.old 0 count) (Request.Lay last 1) }
    {
        *self = Counter {
            phase: Phase::Laying,
            last,
            count,
        };
        memory[0] = count;
        Request::Lay {
            page: last,
            pages: 1,
        }
    }
}

impl Client for Counter {
    ghost housed = { counter_client };

    fn load(cells: &[u64; 120]) -> Counter {
        let [phase, last, count, ..] = *cells;
        Counter {
            phase: Phase::from(phase),
            last,
            count,
        }
    }

    fn save(&self) -> [u64; 120] {
        let mut cells = [0; 120];
        cells[0] = self.phase.code();
        cells[1] = self.last;
        cells[2] = self.count;
        cells
    }

    fn wake(&mut self, house: u64, houses: u64, pages: u64) {
        *self = Counter {
            phase: Phase::Resting,
            last: 0,
            count: 0,
        };
    }

    fn hear(&mut self, memory: &mut [u64], text: &[u8]) -> Request {
        *self = Counter {
            phase: Phase::Recalling,
            last: 0,
            count: 0,
        };
        Request::Recall
    }

    fn resume(&mut self, memory: &mut [u64]) -> Request {
        if memory.len() < 2 {
            return Request::Done;
        }
        match self.phase {
            Phase::Resting => Request::Done,
            Phase::Recalling => self.look(memory),
            Phase::Looking => self.lay(self.last, memory[0].saturating_add(1), memory),
            Phase::Laying => {
                self.phase = Phase::Publishing;
                memory[0] = self.last;
                memory[1] = self.last.saturating_add(1);
                Request::Publish
            }
            Phase::Publishing => {
                self.phase = Phase::Showing;
                memory[0] = self.count;
                Request::Show { bytes: 8 }
            }
            Phase::Showing => Request::Done,
        }
    }
}

// On the tape, whatever stops: the number is as it was or one higher, and at the end it is one higher and shown.
pub fn counts_up()
    ensures { CountsUp }
{}
