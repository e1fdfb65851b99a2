//! Alignments in bytes.

ghost use Rattle.std.specs.Prelude.{◌≡◌, ◌↔◌, ◌<◌, ◌≤◌, ◌^◌, IsTrue, IsSome, IfSome};
ghost use Rattle.std.specs.Int.{IsPowerOfTwo, ◌∣◌};
ghost use Rattle.typing_layout.specs.judged.Layout.{IsLeastMultiple};
ghost use Rattle.typing_forms.specs.judged.Sizes.{rounded_up};

use ir_kinds::{CooperativeSize, VectorSize};
use std::fmt::{self, Display};
use std::marker::Model;
use std::ops::Mul;

/// An alignment in bytes, a power of two (naga's `Alignment`). In a contract it is that number.
#[derive(Clone, Copy, PartialEq, Eq, PartialOrd, Ord, Hash, Debug)]
pub struct Alignment {
    bytes: u32,
}

impl Model for Alignment {
    ghost use Rattle.std.specs.Prelude.{ℕ};
    ghost use Rattle.std.specs.Int.{IsPowerOfTwo};

    ghost Value = { ℕ };

    ghost view = { λ a. a.bytes };

    ghost invariant = { λ a. IsPowerOfTwo a.bytes };

    ghost inverse = { λ n. record { bytes = n } };
}

impl Alignment {
    /// One byte: every number is a multiple.
    pub const ONE: Self = Alignment { bytes: 1 };
    /// Two bytes.
    pub const TWO: Self = Alignment { bytes: 2 };
    /// Four bytes.
    pub const FOUR: Self = Alignment { bytes: 4 };
    /// Eight bytes.
    pub const EIGHT: Self = Alignment { bytes: 8 };
    /// 16 bytes.
    pub const SIXTEEN: Self = Alignment { bytes: 16 };

    /// The minimum alignment of arrays and structs in uniform buffers.
    pub const MIN_UNIFORM: Self = Self::SIXTEEN;

    /// The alignment of `n` bytes, or `None` if `n` is no power of two.
    #[tactic(auto, using(crate::proofs::Powers::power_from_bit, crate::proofs::Powers::bit_from_power))]
    pub fn new(n: u32) -> Option<Self>
        ensures some { IsSome result ↔ IsPowerOfTwo n }
        ensures value { IfSome result (λ a. a ≡ n) }
    {
        if n.is_power_of_two() {
            Some(Alignment { bytes: n })
        } else {
            None
        }
    }

    /// The alignment of a scalar of this width in bytes. Naga panics if the width is no power of two.
    pub fn from_width(width: u8) -> Self
        requires { IsPowerOfTwo width }
        ensures { result ≡ width }
    {
        Alignment {
            bytes: u32::from(width),
        }
    }

    /// The alignment in bytes.
    pub fn get(self) -> u32
        ensures value { result ≡ self }
        ensures power { IsPowerOfTwo result }
        ensures in_range { (0 < result) × (result ≤ 2147483648) }
    {
        self.bytes
    }

    /// Whether `n` is a multiple of the alignment.
    pub fn is_aligned(&self, n: u32) -> bool
        ensures { IsTrue result ↔ (self.now ∣ n) }
    {
        n % self.get() == 0
    }

    /// `n` rounded up to a multiple of the alignment. Requires that this fits.
    pub fn round_up(&self, n: u32) -> u32
        requires { rounded_up self.now n < 2 ^ 32 }
        ensures { IsLeastMultiple self.now n result }
    {
        let bytes = self.get();
        let rest = n % bytes;
        if rest == 0 { n } else { n + (bytes - rest) }
    }
}

impl Display for Alignment {
    /// Writes the alignment in bytes.
    fn fmt<W: fmt::Write>(&self, f: &mut fmt::Formatter<W>) -> fmt::Result {
        write!(f, "{}", self.get())
    }
}

impl Mul<u32> for Alignment {
    ghost use Rattle.std.specs.Prelude.{◌≡◌, ◌<◌, ◌*◌, ◌^◌};

    type Output = u32;

    ghost can_mul = { λ a n. a * n < 2 ^ 32 };

    ghost mul_gives = { λ a n product. product ≡ a * n };

    /// The alignment times an integer. Requires that this fits.
    fn mul(self, rhs: u32) -> u32 {
        self.bytes * rhs
    }
}

impl Mul for Alignment {
    ghost use Rattle.std.specs.Prelude.{◌≡◌, ◌<◌, ◌*◌, ◌^◌};

    type Output = Alignment;

    ghost can_mul = { λ a b. a * b < 2 ^ 32 };

    ghost mul_gives = { λ a b product. product ≡ a * b };

    /// The product, again a power of two. Requires that this fits.
    #[tactic(auto, using(crate::proofs::Powers::power_of_product))]
    fn mul(self, rhs: Alignment) -> Alignment {
        Alignment {
            bytes: self.bytes * rhs.bytes,
        }
    }
}

impl From<VectorSize> for Alignment {
    ghost use Rattle.std.specs.Prelude.{◌≡◌};
    ghost use Rattle.typing_forms.specs.judged.Sizes.{vector_alignment};

    ghost from_gives = { λ size a. a ≡ vector_alignment size 1 };

    /// The alignment of a vector of one-byte scalars.
    #[tactic(auto, using(crate::proofs::Powers::four))]
    fn from(size: VectorSize) -> Self {
        match size {
            VectorSize::Bi => Alignment::TWO,
            VectorSize::Tri | VectorSize::Quad => Alignment::FOUR,
        }
    }
}

impl From<CooperativeSize> for Alignment {
    ghost use Rattle.std.specs.Prelude.{◌≡◌};
    ghost use Rattle.ir_kinds.specs.judged.Scalars.{cooperative_count};

    ghost from_gives = { λ size a. a ≡ cooperative_count size };

    /// The number of columns or rows, as an alignment in bytes.
    #[tactic(auto, using(crate::proofs::Powers::eight, crate::proofs::Powers::sixteen))]
    fn from(size: CooperativeSize) -> Self {
        match size {
            CooperativeSize::Eight => Alignment::EIGHT,
            CooperativeSize::Sixteen => Alignment::SIXTEEN,
        }
    }
}
