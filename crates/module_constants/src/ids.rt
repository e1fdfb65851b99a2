//! The set of override ids.

ghost use Rattle.std.specs.Prelude.{◌≡◌, ◌<◌, ◌↔◌, ℕ, IsTrue, OnErr, OnOk, IfOk, length, slice_index_or};
ghost use Rattle.std.specs.Int.{bit_at};
ghost use Rattle.module_constants.specs.Ids.{IsNoted, IsSeen};

use std::alloc::{AllocError, Global};

/// The set of ids of overrides: a bitset in 64-bit words, so that inserting an id takes constant time.
#[derive(Drop)]
pub struct OverrideIds {
    words: Vec<u64>,
}

// Whether a bit of a word is set.
fn has_bit(word: u64, bit: u16) -> bool
    requires { bit < 64 }
    ensures { IsTrue result ↔ (bit_at word bit ≡ 1) }
{
    (word >> bit) % 2 == 1
}

// Appends empty words until there is one at an index. The error is out of memory.
fn make_room(words: &mut Vec<u64>, place: usize) -> Result<(), AllocError>
    requires { place < 1024 }
    ensures long { OnOk result (place < length words.new.items) }
    ensures kept { (q : ℕ) → slice_index_or words.new.items q 0 ≡ slice_index_or words.old.items q 0 }
{
    for _ in words.len()..place + 1 {
        words.push(0)?;
    }
    Ok(())
}

impl OverrideIds {
    /// The empty set. It allocates nothing.
    pub fn new(alloc: Global) -> OverrideIds
        ensures { (id : ℕ) → ¬ IsSeen result id }
    {
        OverrideIds {
            words: Vec::new(alloc),
        }
    }

    /// Inserts an id and returns whether it is new. The error is out of memory, and leaves the set unchanged.
    pub fn insert(&mut self, id: u16) -> Result<bool, AllocError>
        ensures noted { IfOk result (IsNoted self.old self.new id) }
        ensures err { OnErr result ((other : ℕ) → IsSeen self.new other ↔ IsSeen self.old other) }
    {
        let place = usize::from(id / 64);
        let bit = id % 64;
        make_room(&mut self.words, place)?;
        let word = self.words[place];
        if has_bit(word, bit) {
            return Ok(false);
        }
        self.words[place] = word | (1 << bit);
        Ok(true)
    }
}
