/// Numbers drawn by lot, the same ones for the same seed.
#[derive(Clone, Copy, Debug)]
pub struct Lots {
    state: u64,
}

impl Lots {
    /// The numbers of a seed.
    pub fn of(seed: u64) -> Self {
        Lots {
            state: seed.wrapping_mul(0x9E37_79B9_7F4A_7C15).max(1),
        }
    }

    fn next(&mut self) -> u64 {
        let mut state = self.state;
        state ^= state << 13;
        state ^= state >> 7;
        state ^= state << 17;
        self.state = state;
        state >> 11
    }

    /// A number below a most, which is at least 1.
    pub fn below(&mut self, most: u64) -> u64 {
        self.next() % most.max(1)
    }
}
