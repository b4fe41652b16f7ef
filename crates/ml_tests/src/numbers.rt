// Numbers that look random.
ghost use Rattle.std.specs.Prelude.{◌≡◌, ◌<◌};
ghost use Rattle.ml_tests.specs.Numbers.{next_state, drawn};

/// A generator of numbers that look random, and are the same in each run from the same seed.
///
/// It is a linear congruential generator modulo 2^64 with the multiplier of Knuth's MMIX, of which the upper half is
/// taken.
#[derive(Clone, Copy)]
pub struct Numbers {
    state: u64,
}

impl Numbers {
    /// The numbers from this seed. O(1).
    pub fn new(seed: u64) -> Numbers
        ensures { result.state ≡ seed }
    {
        Numbers { state: seed }
    }

    /// The next number below a bound, which is at most 2^32 where all numbers shall come. O(1).
    pub fn below(&mut self, bound: u64) -> u64
        requires { 0 < bound }
        ensures state { self.new.state ≡ next_state self.old.state }
        ensures number { result ≡ drawn bound self.old.state }
        ensures below { result < bound }
    {
        self.state = self
            .state
            .wrapping_mul(6_364_136_223_846_793_005)
            .wrapping_add(1_442_695_040_888_963_407);
        (self.state >> 32) % bound
    }
}
