//! Numbers that follow from a start.

/// A generator of numbers: SplitMix64.
#[derive(Clone, Copy, Debug)]
pub struct Generator {
    state: u64,
    origin: u64,
}

impl Generator {
    /// The generator of one case: the same start, test and case return the same numbers.
    pub fn new(start: u64, test: u64, case: usize) -> Generator {
        let mut state = start;
        for part in [test, case as u64] {
            let mut mixer = Generator { state, origin: 0 };
            state = mixer.word() ^ part;
        }
        Generator {
            state,
            origin: state,
        }
    }

    /// The generator as the case began.
    pub fn again(&self) -> Generator {
        Generator {
            state: self.origin,
            origin: self.origin,
        }
    }

    /// Any 64 bits.
    pub fn word(&mut self) -> u64 {
        self.state = self.state.wrapping_add(0x9e37_79b9_7f4a_7c15);
        let mut z = self.state;
        z = (z ^ (z >> 30)).wrapping_mul(0xbf58_476d_1ce4_e5b9);
        z = (z ^ (z >> 27)).wrapping_mul(0x94d0_49bb_1331_11eb);
        z ^ (z >> 31)
    }

    /// A number below n, and 0 where n is 0.
    pub fn below(&mut self, n: usize) -> usize {
        if n == 0 {
            return 0;
        }
        (self.word() >> 1) as usize % n
    }

    /// A number from low to high, both included, and low where high is less.
    pub fn between(&mut self, low: usize, high: usize) -> usize {
        low + self.below(high.saturating_sub(low).saturating_add(1))
    }

    /// True once in n times.
    pub fn one_in(&mut self, n: usize) -> bool {
        self.below(n) == 0
    }

    /// True half of the time.
    pub fn boolean(&mut self) -> bool {
        self.word() % 2 == 1
    }

    /// Any byte.
    pub fn byte(&mut self) -> u8 {
        (self.word() & 0xff) as u8
    }

    /// Any 128 bits.
    pub fn wide(&mut self) -> u128 {
        (u128::from(self.word()) << 64) | u128::from(self.word())
    }

    /// A window of at most len slots: where it begins and how many it has.
    pub fn window(&mut self, len: usize) -> (usize, usize) {
        let start = self.between(0, len);
        (start, self.between(0, len - start))
    }

    /// Puts items into another order.
    pub fn shuffle<T>(&mut self, items: &mut Vec<T>) {
        for left in (1..items.len()).rev() {
            let index = self.between(0, left);
            items.swap(left, index);
        }
    }
}
