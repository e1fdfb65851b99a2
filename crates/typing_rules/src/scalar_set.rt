//! Sets of scalars.

ghost use Rattle.std.specs.Prelude.{◌≡◌, ◌<◌, Some, filter, is_some, length, map, slice_get};
ghost use Rattle.ir_kinds.specs.judged.Scalars.{same_scalar};
ghost use Rattle.typing_forms.specs.judged.Ranks.{rank};
ghost use Rattle.typing_rules.specs.found.Bits.{chosen, marks};
ghost use Rattle.typing_rules.specs.found.Members.{scalars, scalars_in, single_scalars};

use crate::one_bits::Members;
use bitflags::{Flag, Flags, bitflag_items};
use ir_kinds::{Scalar, ScalarKind};

/// A set of scalars, the preferred ones with the lowest bits (naga's `ScalarSet`). A contract sees its
/// bits, as `set.0`.
#[derive(Clone, Copy, PartialEq, Eq, Debug)]
pub struct ScalarSet(
    /// The bits.
    pub u16,
);

bitflag_items! {
    impl ScalarSet: u16 {
        /// Abstract integers.
        const ABSTRACT_INT = 1;
        /// 32-bit signed integers.
        const I32 = 2;
        /// 32-bit unsigned integers.
        const U32 = 4;
        /// 16-bit signed integers.
        const I16 = 8;
        /// 16-bit unsigned integers.
        const U16 = 16;
        /// 64-bit signed integers.
        const I64 = 32;
        /// 64-bit unsigned integers.
        const U64 = 64;
        /// Abstract floats.
        const ABSTRACT_FLOAT = 128;
        /// 32-bit floats.
        const F32 = 256;
        /// 16-bit floats.
        const F16 = 512;
        /// 64-bit floats.
        const F64 = 1024;
        /// Bools.
        const BOOL = 2048;
    }
}

impl Flags for ScalarSet {
    ghost use Rattle.std.specs.Prelude.{⊤};
    ghost use Rattle.typing_rules.specs.found.Words.{scalar_words};

    type Bits = u16;

    ghost exact = { ⊤ };

    ghost table = { scalar_words };

    ghost set_of = { λ s. s.0 };

    fn flags<'a>() -> &'a [Flag<ScalarSet>] {
        ScalarSet::FLAGS
    }

    fn bits(&self) -> u16 {
        self.0
    }

    fn from_bits_retain(bits: u16) -> ScalarSet {
        ScalarSet(bits)
    }
}

static SCALARS: [Scalar; 12] = [
    Scalar::ABSTRACT_INT,
    Scalar::I32,
    Scalar::U32,
    Scalar::I16,
    Scalar::U16,
    Scalar::I64,
    Scalar::U64,
    Scalar::ABSTRACT_FLOAT,
    Scalar::F32,
    Scalar::F16,
    Scalar::F64,
    Scalar::BOOL,
];

static SINGLE_SCALARS: [ScalarSet; 12] = [
    ScalarSet::ABSTRACT_INT,
    ScalarSet::I32,
    ScalarSet::U32,
    ScalarSet::I16,
    ScalarSet::U16,
    ScalarSet::I64,
    ScalarSet::U64,
    ScalarSet::ABSTRACT_FLOAT,
    ScalarSet::F32,
    ScalarSet::F16,
    ScalarSet::F64,
    ScalarSet::BOOL,
];

impl ScalarSet {
    /// All floats.
    pub const FLOAT: ScalarSet = ScalarSet(
        ScalarSet::ABSTRACT_FLOAT.0 | ScalarSet::F32.0 | ScalarSet::F16.0 | ScalarSet::F64.0,
    );

    /// All integers.
    pub const INTEGER: ScalarSet = ScalarSet(
        ScalarSet::ABSTRACT_INT.0
            | ScalarSet::I32.0
            | ScalarSet::U32.0
            | ScalarSet::I16.0
            | ScalarSet::U16.0
            | ScalarSet::I64.0
            | ScalarSet::U64.0,
    );

    /// All numeric scalars.
    pub const NUMERIC: ScalarSet = ScalarSet(ScalarSet::FLOAT.0 | ScalarSet::INTEGER.0);

    /// The abstract scalars.
    pub const ABSTRACT: ScalarSet = ScalarSet(
        ScalarSet::ABSTRACT_INT.0 | ScalarSet::ABSTRACT_FLOAT.0,
    );

    /// All scalars but the abstract ones.
    pub const CONCRETE: ScalarSet = ScalarSet(
        ScalarSet::CONCRETE_INTEGER.0 | ScalarSet::CONCRETE_FLOAT.0 | ScalarSet::BOOL.0,
    );

    /// All integers but the abstract ones.
    pub const CONCRETE_INTEGER: ScalarSet = ScalarSet(
        ScalarSet::I32.0
            | ScalarSet::U32.0
            | ScalarSet::I16.0
            | ScalarSet::U16.0
            | ScalarSet::I64.0
            | ScalarSet::U64.0,
    );

    /// All floats but the abstract ones.
    pub const CONCRETE_FLOAT: ScalarSet = ScalarSet(
        ScalarSet::F32.0 | ScalarSet::F16.0 | ScalarSet::F64.0,
    );

    /// The floats of functions that naga does not evaluate for abstract floats.
    pub const FLOAT_ABSTRACT_UNIMPLEMENTED: ScalarSet = ScalarSet::CONCRETE_FLOAT;
}

impl ScalarSet {
    /// The singleton set of a scalar, and the empty set for a scalar that is none of the twelve (naga's
    /// `ScalarSet::singleton`).
    pub const fn singleton(scalar: Scalar) -> ScalarSet
        ensures { scalars_in result.0 ≡ filter (same_scalar scalar) scalars }
    {
        match (scalar.kind, scalar.width) {
            (ScalarKind::AbstractInt, 8) => ScalarSet::ABSTRACT_INT,
            (ScalarKind::Sint, 4) => ScalarSet::I32,
            (ScalarKind::Uint, 4) => ScalarSet::U32,
            (ScalarKind::Sint, 2) => ScalarSet::I16,
            (ScalarKind::Uint, 2) => ScalarSet::U16,
            (ScalarKind::Sint, 8) => ScalarSet::I64,
            (ScalarKind::Uint, 8) => ScalarSet::U64,
            (ScalarKind::AbstractFloat, 8) => ScalarSet::ABSTRACT_FLOAT,
            (ScalarKind::Float, 4) => ScalarSet::F32,
            (ScalarKind::Float, 2) => ScalarSet::F16,
            (ScalarKind::Float, 8) => ScalarSet::F64,
            (ScalarKind::Bool, 1) => ScalarSet::BOOL,
            _ => ScalarSet(0),
        }
    }

    /// The scalars that `from` converts to, itself included (naga's `ScalarSet::convertible_from`).
    pub const fn convertible_from(from: Scalar) -> ScalarSet
        ensures members { scalars_in result.0 ≡ filter (λ to. is_some (rank from to)) scalars }
        ensures each { marks result.0 scalars ≡ map (λ to. is_some (rank from to)) scalars }
    {
        match (from.kind, from.width) {
            (ScalarKind::AbstractInt, 8) => ScalarSet::NUMERIC,
            (ScalarKind::AbstractFloat, 8) => ScalarSet::FLOAT,
            _ => ScalarSet::singleton(from),
        }
    }

    /// The preferred scalar (naga's `ScalarSet::most_general_scalar`). Requires that the set has one.
    pub fn most_general_scalar(self) -> Scalar
        requires { 0 < length (scalars_in self.0) }
        ensures { slice_get (scalars_in self.0) 0 ≡ Some result }
    {
        match self.scalars().next() {
            Some(scalar) => scalar,
            None => unreachable!(),
        }
    }

    /// The scalars in the set, the preferred one first.
    pub const fn scalars(self) -> Members<'static, Scalar>
        ensures { result ≡ scalars_in self.0 }
    {
        Members::new(self.0 as u64, &SCALARS)
    }

    /// The singleton subsets, the preferred one first (naga's `ScalarSet::members`).
    pub const fn members(self) -> Members<'static, ScalarSet>
        ensures { result ≡ chosen self.0 single_scalars }
    {
        Members::new(self.0 as u64, &SINGLE_SCALARS)
    }
}
