//! Keyed hashers.

ghost use Rattle.std.specs.Prelude.{◌≡◌};
ghost use Rattle.ir_sets.specs.Keys.{hasher_with, hasher_of_bytes, initial_hasher};

use std::hash::{BuildHasher, DefaultHasher, Hasher};

/// A `BuildHasher` with a key: its hashers compute SipHash-1-3 of the key followed by the value.
///
/// Which values collide in a hash table then depends on the key. For attacker-controlled values the key is the hash of
/// the input that contains them ([`KeyedState::of_bytes`]): whoever changes a value to make it collide with others
/// changes the key as well, and with it all buckets.
#[derive(Clone, Copy)]
pub struct KeyedState {
    initial: DefaultHasher,
}

impl KeyedState {
    /// A hasher state with these two numbers as its key.
    pub fn with_keys(key0: u64, key1: u64) -> KeyedState
        ensures { initial_hasher result ≡ hasher_with key0 key1 }
    {
        let mut initial = DefaultHasher::new();
        initial.write_u64(key0);
        initial.write_u64(key1);
        KeyedState { initial }
    }

    /// A hasher state with a key from bytes: their hash, and the hash of them followed by a byte 0.
    pub fn of_bytes(bytes: &[u8]) -> KeyedState
        ensures { initial_hasher result ≡ hasher_of_bytes bytes.now }
    {
        let mut state = DefaultHasher::new();
        state.write(bytes);
        let key0 = state.finish();
        state.write_u8(0);
        KeyedState::with_keys(key0, state.finish())
    }
}

impl BuildHasher for KeyedState {
    type Hasher = DefaultHasher;

    ghost build_hasher = { initial_hasher };

    fn build_hasher(&self) -> DefaultHasher {
        self.initial
    }
}
