//! Sets of immediate-data slots.

ghost use Rattle.std.specs.Prelude.{◌≡◌, ◌↔◌, ◌<◌, ◌⊎◌, ℕ, IsTrue};
ghost use Rattle.std.specs.Int.RustNames.{bit_and, bit_or};
ghost use Rattle.module_globals.specs.Slots.{IsIn, Meets};

use std::ops::BitOr;

/// A set of numbers below 64 (naga's `ImmediateSlots`): number `k` denotes the four bytes of immediate data at byte
/// offset `4 * k`. Contracts refer to the number with these bits as `set.0`.
#[derive(Clone, Copy, PartialEq, Eq, Debug)]
pub struct ImmediateSlots(
    /// The bits as an integer.
    pub u64,
);

// The slots below a bound.
#[tactic(auto, using(crate::proofs::Bits::all_below, crate::proofs::Bits::some_below))]
fn below(bound: u64) -> u64
    ensures { (k : ℕ) → k < 64 → IsIn result k ↔ (k < bound) }
{
    if bound >= 64 {
        return u64::MAX;
    }
    (1u64 << bound) - 1
}

impl ImmediateSlots {
    /// The set with these bits.
    pub const fn from_raw(raw: u64) -> Self
        ensures { result.0 ≡ raw }
    {
        ImmediateSlots(raw)
    }

    /// The slots that a range of bytes overlaps. Bytes past the last slot are ignored.
    pub fn from_range(offset: u32, size_bytes: u32) -> Self
        ensures { (k : ℕ) → k < 64 → IsIn result.0 k ↔ Meets offset size_bytes k }
    {
        if size_bytes == 0 {
            return ImmediateSlots(0);
        }
        let end = u64::from(offset) + u64::from(size_bytes);
        let behind = below((end + 3) / 4);
        let before = below(u64::from(offset) / 4);
        ImmediateSlots(behind & !before)
    }

    /// Whether every slot of the other is in this set.
    pub const fn contains(self, other: Self) -> bool
        ensures { IsTrue result ↔ (bit_and self.0 other.0 ≡ other.0) }
    {
        self.0 & other.0 == other.0
    }

    /// The slots that are not in the other.
    pub const fn difference(self, other: Self) -> Self
        ensures { (k : ℕ) → k < 64 → IsIn result.0 k ↔ (IsIn self.0 k × ¬ IsIn other.0 k) }
    {
        ImmediateSlots(self.0 & !other.0)
    }
}

impl BitOr for ImmediateSlots {
    ghost use Rattle.std.specs.Prelude.{◌≡◌};
    ghost use Rattle.std.specs.Int.RustNames.{bit_or};

    type Output = ImmediateSlots;

    ghost bitor_gives = { λ a b r. r.0 ≡ bit_or a.0 b.0 };

    /// The slots of either set.
    fn bitor(self, rhs: ImmediateSlots) -> ImmediateSlots {
        ImmediateSlots(self.0 | rhs.0)
    }
}
