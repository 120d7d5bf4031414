ghost use Rattle.std.specs.Prelude.{◌<◌};

/// A small generator of random numbers (xorshift): the same seed gives the same numbers. It stands here, and is not taken from a
/// library, since what the program prints is compared with stored numbers.
#[derive(Clone, Copy)]
pub(crate) struct Random {
    state: u64,
}

impl Random {
    pub(crate) fn new(seed: u64) -> Random {
        Random {
            state: seed.wrapping_mul(0x9e37_79b9_7f4a_7c15) | 1,
        }
    }

    pub(crate) fn next(&mut self) -> u64 {
        let mut x = self.state;
        x ^= x << 12;
        x ^= x >> 25;
        x ^= x << 27;
        self.state = x;
        x.wrapping_mul(0x2545_f491_4f6c_dd1d) >> 11
    }

    /// A number below `n`, or 0 where there is none.
    pub(crate) fn below(&mut self, n: usize) -> usize
        ensures { 0 < n → result < n }
    {
        if n == 0 {
            return 0;
        }
        (self.next() % n as u64) as usize
    }

    /// Yes in so many of 256 cases.
    pub(crate) fn happens(&mut self, of_256: u8) -> bool {
        self.below(256) < usize::from(of_256)
    }

    pub(crate) fn byte(&mut self) -> u8 {
        self.below(256) as u8
    }
}
