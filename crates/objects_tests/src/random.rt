// Numbers that look random, the same on each run.
ghost use Rattle.std.specs.Prelude.{◌≤◌};

#[derive(Clone, Copy)]
pub struct Random {
    state: u64,
}

impl Random {
    pub fn seeded(seed: u64) -> Random {
        Random {
            state: seed.wrapping_mul(0x9e37_79b9_7f4a_7c15).max(1),
        }
    }

    // Xorshift.
    // As it stands: `player` draws by another rule, and what each program prints hangs on its own.
    pub fn next(&mut self) -> u64 {
        let mut x = self.state;
        x ^= x << 13;
        x ^= x >> 7;
        x ^= x << 17;
        self.state = x;
        x
    }

    // A number below a bound; 0 if that is 0.
    pub fn below(&mut self, bound: u64) -> u64
        ensures { result ≤ bound }
    {
        if bound == 0 {
            return 0;
        }
        (self.next() >> 11) % bound
    }

    // Once in so many times.
    pub fn once_in(&mut self, times: u64) -> bool {
        self.below(times) == 0
    }
}
