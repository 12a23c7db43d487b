//! Seeds for hash tables.

use std::hash::{BuildHasher, FoldHasher, Hasher};
use std::random::RandomSource;

/// The state from which a table of names starts to hash each name. No result of a table depends on it: it only decides
/// which names share a slot. Whoever chooses the names and knows the seed can put all of them into one slot, so a
/// program that reads names from others uses `random`.
#[derive(Clone, Copy, Drop)]
pub struct HashSeed {
    start: FoldHasher,
}

impl HashSeed {
    /// Returns the fixed seed, which is the same in each run.
    pub fn fixed_seed() -> HashSeed {
        HashSeed {
            start: FoldHasher::default(),
        }
    }

    /// Returns the seed that these bytes give. No bytes give the fixed seed.
    pub fn from_bytes(bytes: &[u8]) -> HashSeed {
        let mut seed = HashSeed::fixed_seed();
        if !bytes.is_empty() {
            seed.start.write(bytes);
        }
        seed
    }

    /// Returns a seed from 16 random bytes of the system, or the fixed seed if the system provides none.
    pub fn random<R: RandomSource>(rt: &R) -> HashSeed {
        let mut bytes = [0u8; 16];
        if rt.fill_bytes(&mut bytes).is_ok() {
            HashSeed::from_bytes(&bytes)
        } else {
            HashSeed::fixed_seed()
        }
    }
}

impl BuildHasher for HashSeed {
    type Hasher = FoldHasher;

    ghost build_hasher = { λ seed. seed.start };

    fn build_hasher(&self) -> FoldHasher {
        self.start
    }
}
