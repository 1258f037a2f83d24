//! Numbers that look random, the same ones in each run.

ghost use Rattle.std.specs.Prelude.{◌<◌};

/// A generator of numbers (splitmix64).
#[derive(Drop)]
pub struct Dice {
    state: u64,
}

impl Dice {
    /// A generator that begins with this seed.
    pub fn new(seed: u64) -> Dice {
        Dice { state: seed }
    }

    /// The next number.
    fn next(&mut self) -> u64 {
        self.state = self.state.wrapping_add(0x9e37_79b9_7f4a_7c15);
        let first = self.state;
        let second = (first ^ (first >> 30)).wrapping_mul(0xbf58_476d_1ce4_e5b9);
        let third = (second ^ (second >> 27)).wrapping_mul(0x94d0_49bb_1331_11eb);
        third ^ (third >> 31)
    }

    /// A number below `count`.
    pub fn below(&mut self, count: usize) -> usize
        requires { 0 < count }
        ensures { result < count }
    {
        (self.next() % count as u64) as usize
    }

    /// Any byte.
    pub fn byte(&mut self) -> u8 {
        self.below(256) as u8
    }
}
