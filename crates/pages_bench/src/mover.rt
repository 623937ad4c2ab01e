// A client that lays or looks at 64 KiB again and again, to measure.
ghost use Rattle.pages_bench.specs.Mover.{mover_client};

use pages::machine::{Client, Request};

#[derive(Clone, Copy)]
pub struct Mover {
    // Whether it looks, and how often it goes on.
    looks: bool,
    left: u64,
}

impl Client for Mover {
    ghost housed = { mover_client };

    fn load(cells: &[u64; 120]) -> Mover {
        let [looks, left, ..] = *cells;
        Mover {
            looks: looks != 0,
            left,
        }
    }

    fn save(&self) -> [u64; 120] {
        let mut cells = [0; 120];
        cells[0] = u64::from(self.looks);
        cells[1] = self.left;
        cells
    }

    fn wake(&mut self, house: u64, houses: u64, pages: u64) {}

    fn hear(&mut self, memory: &mut [u64], text: &[u8]) -> Request {
        *self = Mover {
            looks: !text.is_empty(),
            left: 1000,
        };
        self.resume(memory)
    }

    fn resume(&mut self, memory: &mut [u64]) -> Request {
        if self.left == 0 {
            return Request::Done;
        }
        self.left -= 1;
        if self.looks {
            Request::Look { at: 0, words: 8192 }
        } else {
            Request::Lay {
                page: 0,
                pages: 128,
            }
        }
    }
}
