// Numbers that a generator draws.
use rand_core::{Rng, SeedableRng};
use rand_xoshiro::SplitMix64;

/// A generator, which draws the same numbers from the same seed.
#[derive(Drop)]
pub(crate) struct Draws {
    generator: SplitMix64,
}

impl Draws {
    pub(crate) fn new(seed: u64) -> Draws {
        Draws {
            generator: SplitMix64::seed_from_u64(seed),
        }
    }

    /// A number below a limit.
    pub(crate) fn below(&mut self, limit: u64) -> u64 {
        self.generator.next_u64().checked_rem(limit).unwrap_or(0)
    }

    pub(crate) fn is_one_in(&mut self, count: u64) -> bool {
        self.below(count) == 0
    }
}
