//! What the maps of a book hash with.

use std::hash::{BuildHasher, FoldHasher, Hasher};
use std::io;
use std::marker::Model;
use std::random::RandomSource;

/// The keys that the maps of a book hash with (own). Contracts see nothing of them, so to a clause all keys are equal, and
/// no answer can depend on them: they decide how long a search takes.
#[derive(Drop)]
pub struct HashKeys {
    start: HashStart,
}

impl Model for HashKeys {
    ghost Value = { Unit {0} };

    ghost view = { λ _. tt };
}

impl HashKeys {
    /// The keys of a book that is given none, the same in every program. Who knows them can choose ids and prescriptions
    /// that collide.
    pub fn fixed() -> HashKeys {
        HashKeys::from_start(HashStart {
            hasher: FoldHasher::default(),
        })
    }

    /// Keys that nobody knows, from 16 random bytes of `source`.
    ///
    /// # Errors
    /// Those of the source.
    pub fn random(source: &impl RandomSource) -> io::Result<HashKeys> {
        let mut bytes = [0; 16];
        source.fill_bytes(&mut bytes)?;
        let mut hasher = FoldHasher::default();
        hasher.write(&bytes);
        Ok(HashKeys::from_start(HashStart { hasher }))
    }

    /// The same keys.
    pub fn copy(&self) -> HashKeys {
        HashKeys::from_start(self.start)
    }

    /// A hasher that has read these keys, and nothing else.
    pub fn hasher(&self) -> FoldHasher {
        self.start.hasher
    }

    /// The keys of a map.
    pub(crate) fn from_start(start: HashStart) -> HashKeys {
        HashKeys { start }
    }

    /// What makes the hashers of a map with these keys.
    pub(crate) fn start(&self) -> HashStart {
        self.start
    }
}

/// Makes each hasher of a map: one that has read the keys, and nothing of what is looked for.
#[derive(Clone, Copy)]
pub(crate) struct HashStart {
    hasher: FoldHasher,
}

impl BuildHasher for HashStart {
    type Hasher = FoldHasher;

    ghost build_hasher = { λ start. start.hasher };

    fn build_hasher(&self) -> FoldHasher {
        self.hasher
    }
}
