//! A hasher with a key that the caller chooses.
ghost use Rattle.std.specs.Prelude.{◌≡◌};

use std::hash::{BuildHasher, FoldHasher, Hasher};

/// Builds hashers with a key. Without knowledge of the key, names with equal hashes can't be chosen.
#[derive(Clone, Copy)]
pub struct Keyed {
    begun: KeyedHasher,
}

/// The state of a hasher.
#[derive(Clone, Copy)]
pub struct KeyedHasher {
    state: FoldHasher,
}

impl Keyed {
    /// Returns a builder of hashers with this key.
    pub fn new(key: u64) -> Keyed {
        let mut state = FoldHasher::default();
        state.write_u64(key);
        Keyed {
            begun: KeyedHasher { state },
        }
    }
}

impl BuildHasher for Keyed {
    type Hasher = KeyedHasher;

    ghost build_hasher = { λ s. s.begun };

    fn build_hasher(&self) -> KeyedHasher {
        self.begun
    }
}

impl Hasher for KeyedHasher {
    ghost use Rattle.std.specs.Hash.FoldHasher as folding;
    ghost use Rattle.ir_types_interner.specs.Keyed as keyed;

    ghost write = { λ s bytes. record { state = keyed.write s.state bytes } };

    ghost finish = { λ s. folding.finish s.state };

    fn finish(&self) -> u64 {
        self.state.finish()
    }

    fn write(&mut self, bytes: &[u8]) {
        if bytes.len() == 16 {
            self.state.write(&bytes[..8]);
            self.state.write(&bytes[8..]);
        } else {
            self.state.write(bytes);
        }
    }
}
