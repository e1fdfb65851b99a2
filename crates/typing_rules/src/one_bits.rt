//! The one bits of an integer, and list elements selected by them.

ghost use Rattle.std.specs.Prelude.{◌≡◌};
ghost use Rattle.typing_rules.specs.found.Bits.{chosen, one_bits};

use std::marker::Model;

/// The elements of a list at the indices of an integer's one bits, the lowest first. In a contract it is the
/// list of the remaining elements.
#[derive(Drop)]
pub struct Members<'a, T> {
    bits: u64,
    items: &'a [T],
}

impl<'a, T> Model for Members<'a, T> {
    ghost use Rattle.std.specs.Prelude.{List};
    ghost use Rattle.typing_rules.specs.found.Bits.{chosen};

    ghost Value = { List T };

    ghost view = { λ m. chosen m.bits m.items.now };
}

impl<'a, T> Members<'a, T> {
    /// The items at the indices of the one bits.
    pub(crate) const fn new(bits: u64, items: &'a [T]) -> Self
        ensures { result ≡ chosen bits items.now }
    {
        Members { bits, items }
    }
}

impl<'a, T: Copy> Iterator for Members<'a, T> {
    ghost use Rattle.std.specs.Iterator.{YieldsFirst, item_count};

    type Item = T;

    ghost next_gives = { YieldsFirst (λ m. m) };

    ghost remaining = { item_count (λ m. m) };

    fn next(&mut self) -> Option<T> {
        while let Some((first, rest)) = self.items.split_first() {
            let is_one = self.bits % 2 == 1;
            self.bits /= 2;
            self.items = rest;
            if is_one {
                return Some(*first);
            }
        }
        None
    }
}

static POWERS: [u64; 64] = [
    1 << 0,
    1 << 1,
    1 << 2,
    1 << 3,
    1 << 4,
    1 << 5,
    1 << 6,
    1 << 7,
    1 << 8,
    1 << 9,
    1 << 10,
    1 << 11,
    1 << 12,
    1 << 13,
    1 << 14,
    1 << 15,
    1 << 16,
    1 << 17,
    1 << 18,
    1 << 19,
    1 << 20,
    1 << 21,
    1 << 22,
    1 << 23,
    1 << 24,
    1 << 25,
    1 << 26,
    1 << 27,
    1 << 28,
    1 << 29,
    1 << 30,
    1 << 31,
    1 << 32,
    1 << 33,
    1 << 34,
    1 << 35,
    1 << 36,
    1 << 37,
    1 << 38,
    1 << 39,
    1 << 40,
    1 << 41,
    1 << 42,
    1 << 43,
    1 << 44,
    1 << 45,
    1 << 46,
    1 << 47,
    1 << 48,
    1 << 49,
    1 << 50,
    1 << 51,
    1 << 52,
    1 << 53,
    1 << 54,
    1 << 55,
    1 << 56,
    1 << 57,
    1 << 58,
    1 << 59,
    1 << 60,
    1 << 61,
    1 << 62,
    1 << 63,
];

/// The one bits of an integer, each as a power of two, the lowest first (naga's `OneBitsIter`). In a
/// contract it is the list of the remaining ones.
#[derive(Drop)]
pub struct OneBitsIter {
    powers: Members<'static, u64>,
}

impl Model for OneBitsIter {
    ghost use Rattle.std.specs.Prelude.{ℕ, List};

    ghost Value = { List ℕ };

    ghost view = { λ i. i.powers };
}

impl OneBitsIter {
    /// The one bits of `bits` (naga's `OneBitsIter::new`).
    pub const fn new(bits: u64) -> Self
        ensures { result ≡ one_bits bits }
    {
        OneBitsIter {
            powers: Members::new(bits, &POWERS),
        }
    }
}

impl Iterator for OneBitsIter {
    ghost use Rattle.std.specs.Iterator.{YieldsFirst, item_count};

    type Item = u64;

    ghost next_gives = { YieldsFirst (λ i. i) };

    ghost remaining = { item_count (λ i. i) };

    fn next(&mut self) -> Option<u64> {
        self.powers.next()
    }
}
