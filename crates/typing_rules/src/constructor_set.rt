//! Sets of constructors: scalar, vectors and matrices by size.

ghost use Rattle.std.specs.Prelude.{◌≡◌, ◌==◌, [], ◌∷◌, length};
ghost use Rattle.typing_forms.specs.IrTypes.{inner_view};
ghost use Rattle.typing_rules.specs.judged.Types.{value_type_of};
ghost use Rattle.typing_rules.specs.found.Bits.{chosen};
ghost use Rattle.typing_rules.specs.found.Members.{sizes_in, single_sizes, size_of};

use crate::one_bits::Members;
use crate::{ConstructorSize, ValueType};
use bitflags::{Flag, Flags, bitflag_items};
use ir_kinds::VectorSize;
use typing_forms::ir_types::TypeInner;

/// A set of constructors (naga's `ConstructorSet`). A contract sees its bits, as `set.0`.
#[derive(Clone, Copy, PartialEq, Eq, Debug)]
pub struct ConstructorSet(
    /// The bits.
    pub u16,
);

bitflag_items! {
    impl ConstructorSet: u16 {
        /// Scalars.
        const SCALAR = 1;
        /// Vectors of two.
        const VEC2 = 2;
        /// Vectors of three.
        const VEC3 = 4;
        /// Vectors of four.
        const VEC4 = 8;
        /// Matrices of two columns and two rows.
        const MAT2X2 = 16;
        /// Matrices of two columns and three rows.
        const MAT2X3 = 32;
        /// Matrices of two columns and four rows.
        const MAT2X4 = 64;
        /// Matrices of three columns and two rows.
        const MAT3X2 = 128;
        /// Matrices of three columns and three rows.
        const MAT3X3 = 256;
        /// Matrices of three columns and four rows.
        const MAT3X4 = 512;
        /// Matrices of four columns and two rows.
        const MAT4X2 = 1024;
        /// Matrices of four columns and three rows.
        const MAT4X3 = 2048;
        /// Matrices of four columns and four rows.
        const MAT4X4 = 4096;
    }
}

impl Flags for ConstructorSet {
    ghost use Rattle.std.specs.Prelude.{⊤};
    ghost use Rattle.typing_rules.specs.found.Words.{constructor_words};

    type Bits = u16;

    ghost exact = { ⊤ };

    ghost table = { constructor_words };

    ghost set_of = { λ s. s.0 };

    fn flags<'a>() -> &'a [Flag<ConstructorSet>] {
        ConstructorSet::FLAGS
    }

    fn bits(&self) -> u16 {
        self.0
    }

    fn from_bits_retain(bits: u16) -> ConstructorSet {
        ConstructorSet(bits)
    }
}

static SIZES: [ConstructorSize; 13] = [
    ConstructorSize::Scalar,
    ConstructorSize::Vector(VectorSize::Bi),
    ConstructorSize::Vector(VectorSize::Tri),
    ConstructorSize::Vector(VectorSize::Quad),
    ConstructorSize::Matrix {
        columns: VectorSize::Bi,
        rows: VectorSize::Bi,
    },
    ConstructorSize::Matrix {
        columns: VectorSize::Bi,
        rows: VectorSize::Tri,
    },
    ConstructorSize::Matrix {
        columns: VectorSize::Bi,
        rows: VectorSize::Quad,
    },
    ConstructorSize::Matrix {
        columns: VectorSize::Tri,
        rows: VectorSize::Bi,
    },
    ConstructorSize::Matrix {
        columns: VectorSize::Tri,
        rows: VectorSize::Tri,
    },
    ConstructorSize::Matrix {
        columns: VectorSize::Tri,
        rows: VectorSize::Quad,
    },
    ConstructorSize::Matrix {
        columns: VectorSize::Quad,
        rows: VectorSize::Bi,
    },
    ConstructorSize::Matrix {
        columns: VectorSize::Quad,
        rows: VectorSize::Tri,
    },
    ConstructorSize::Matrix {
        columns: VectorSize::Quad,
        rows: VectorSize::Quad,
    },
];

static SINGLE_SIZES: [ConstructorSet; 13] = [
    ConstructorSet::SCALAR,
    ConstructorSet::VEC2,
    ConstructorSet::VEC3,
    ConstructorSet::VEC4,
    ConstructorSet::MAT2X2,
    ConstructorSet::MAT2X3,
    ConstructorSet::MAT2X4,
    ConstructorSet::MAT3X2,
    ConstructorSet::MAT3X3,
    ConstructorSet::MAT3X4,
    ConstructorSet::MAT4X2,
    ConstructorSet::MAT4X3,
    ConstructorSet::MAT4X4,
];

impl ConstructorSet {
    /// All vectors.
    pub const VECN: ConstructorSet = ConstructorSet(
        ConstructorSet::VEC2.0 | ConstructorSet::VEC3.0 | ConstructorSet::VEC4.0,
    );
}

impl ConstructorSet {
    /// The singleton set of the constructor of an inner type, and the empty set for a type that is neither a scalar nor a vector
    /// nor a matrix (naga's `ConstructorSet::singleton`).
    pub const fn singleton(inner: &TypeInner) -> ConstructorSet
        ensures { sizes_in result.0 ≡ size_of (value_type_of (inner_view inner.now)) }
    {
        match ValueType::of(inner) {
            Some(given) => ConstructorSet(1 << given.size.place()),
            None => ConstructorSet(0),
        }
    }

    /// Whether the set has exactly one element (naga's `ConstructorSet::is_singleton`).
    pub fn is_singleton(self) -> bool
        ensures { result ≡ (length (sizes_in self.0) == 1) }
    {
        let mut sizes = self.sizes();
        match sizes.next() {
            Some(_) => sizes.next().is_none(),
            None => false,
        }
    }

    /// The constructor in the set (naga's `ConstructorSet::size`). Requires that it has exactly one.
    pub fn size(self) -> ConstructorSize
        requires { length (sizes_in self.0) ≡ 1 }
        ensures { sizes_in self.0 ≡ result ∷ [] }
    {
        match self.sizes().next() {
            Some(size) => size,
            None => unreachable!(),
        }
    }

    /// The constructors in the set, in order.
    pub const fn sizes(self) -> Members<'static, ConstructorSize>
        ensures { result ≡ sizes_in self.0 }
    {
        Members::new(self.0 as u64, &SIZES)
    }

    /// The singleton subsets, in order (naga's `ConstructorSet::members`).
    pub const fn members(self) -> Members<'static, ConstructorSet>
        ensures { result ≡ chosen self.0 single_sizes }
    {
        Members::new(self.0 as u64, &SINGLE_SIZES)
    }
}
