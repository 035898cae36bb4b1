//! Numbers that look random.

ghost use Rattle.std.specs.Prelude.{◌≤◌};

/// A generator of numbers: the same ones each time for a seed and a terminal.
#[derive(Clone, Copy, Debug, Drop)]
pub struct Chance {
    state: u64,
}

impl Chance {
    /// That of a terminal.
    pub fn new(seed: u64, terminal: u64) -> Chance {
        let state = seed.wrapping_mul(0x9E37_79B9_7F4A_7C15)
            ^ terminal.wrapping_mul(0xD6E8_FEB8_6659_FD93);
        Chance { state }
    }

    /// The next number.
    fn next(&mut self) -> u64 {
        self.state = self.state.wrapping_add(0x9E37_79B9_7F4A_7C15);
        let once = (self.state ^ (self.state >> 30)).wrapping_mul(0xBF58_476D_1CE4_E5B9);
        let twice = (once ^ (once >> 27)).wrapping_mul(0x94D0_49BB_1331_11EB);
        twice ^ (twice >> 31)
    }

    /// A number from 1 to this one, or 1 where that is 0.
    pub fn up_to(&mut self, most: u64) -> u64 {
        (self.next() % most.max(1)).saturating_add(1)
    }

    /// True once in so many times.
    pub fn once_in(&mut self, times: u64) -> bool {
        self.up_to(times) == 1
    }
}
