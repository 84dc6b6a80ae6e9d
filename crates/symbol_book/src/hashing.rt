//! How ids are hashed.
use std::hash::{BuildHasher, DefaultHasher, RandomState};
use std::random::RandomSource;
use venue_words::NoMemory;

/// What ids are hashed with. Members choose their ids, so a book that works for strangers takes a random seed: no member can
/// then choose ids that fall together. Nothing that a book answers depends on it.
#[derive(Clone, Copy, Drop)]
pub struct HashSeed {
    initial: DefaultHasher,
}

impl HashSeed {
    /// The same seed at every run, for commands that nobody chooses to do harm.
    pub fn fixed() -> HashSeed {
        HashSeed {
            initial: DefaultHasher::new(),
        }
    }

    /// A random seed, of the system's random bytes. Where it gives none, that counts as want of memory.
    pub fn random(rt: &impl RandomSource) -> Result<HashSeed, NoMemory> {
        match RandomState::new(rt) {
            Ok(state) => Ok(HashSeed {
                initial: state.build_hasher(),
            }),
            Err(_) => Err(NoMemory),
        }
    }
}

impl BuildHasher for HashSeed {
    type Hasher = DefaultHasher;

    ghost build_hasher = { λ s. s.initial };

    fn build_hasher(&self) -> DefaultHasher {
        self.initial
    }
}
