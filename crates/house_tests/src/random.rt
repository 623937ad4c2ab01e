// Numbers and texts that look random, the same on each run.
use pages::bytes::in_eight;
use std::alloc::{AllocError, Global};

#[derive(Clone, Copy)]
pub struct Random {
    state: u64,
    // How many texts there were.
    texts: u64,
}

impl Random {
    pub fn seeded(seed: u64) -> Random {
        Random {
            state: seed.wrapping_mul(0x9e37_79b9_7f4a_7c15).max(1),
            texts: 0,
        }
    }

    // Xorshift.
    fn next(&mut self) -> u64 {
        let mut x = self.state;
        x ^= x << 13;
        x ^= x >> 7;
        x ^= x << 17;
        self.state = x;
        x
    }

    // A number below a bound; 0 if that is 0.
    pub fn below(&mut self, bound: u64) -> u64 {
        if bound == 0 {
            return 0;
        }
        (self.next() >> 11) % bound
    }

    // Once in so many times.
    pub fn once_in(&mut self, times: u64) -> bool {
        self.below(times) == 0
    }

    // So many bytes; from eight on they are like no text before.
    pub fn text(&mut self, heap: Global, size: u64) -> Result<Vec<u8>, AllocError> {
        self.texts = self.texts.saturating_add(1);
        let mut text = in_eight(self.texts).to_vec(heap)?;
        for _ in 8..size {
            text.push((self.next() % 256) as u8)?;
        }
        text.truncate(size as usize);
        Ok(text)
    }
}
