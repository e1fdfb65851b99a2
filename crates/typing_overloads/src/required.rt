//! What the rules of a pattern require at each argument index, and which of them accept a type there.

ghost use Rattle.std.specs.Prelude.{◌≡◌, ◌==◌, is_some, length, map, slice_get};
ghost use Rattle.typing_rules.specs.judged.MathTable.{vector_of_columns, vector_of_rows};
ghost use Rattle.typing_rules.specs.judged.Types.{constructor_place};
ghost use Rattle.typing_forms.specs.judged.Ranks.{rank};
ghost use Rattle.typing_rules.specs.found.Bits.{marks};
ghost use Rattle.typing_rules.specs.found.Members.{scalars, sizes};
ghost use Rattle.typing_overloads.specs.Products.{required_size, required_scalar, required_by, all_concrete};

use ir_kinds::{Scalar, VectorSize};
use typing_forms::conversion_rank;
use typing_rules::{ConstructorSet, ConstructorSize, Pattern, ScalarSet};

/// The shape that a rule requires.
#[derive(Clone, Copy, Debug)]
pub(crate) enum RequiredSize {
    /// The rule's own shape.
    Same,
    /// A scalar.
    Scalar,
    /// A vector with one component for each column.
    Column,
    /// A vector with one component for each row.
    Row,
}

/// The scalar that a rule requires.
#[derive(Clone, Copy, Debug)]
pub(crate) enum RequiredScalar {
    /// The rule's own scalar.
    Same,
    /// A 32-bit signed integer.
    I32,
    /// A 32-bit unsigned integer.
    U32,
}

/// The type that a rule requires at an argument index.
#[derive(Clone, Copy, Debug)]
pub(crate) struct Required {
    /// Its shape.
    pub size: RequiredSize,
    /// Its scalar.
    pub scalar: RequiredScalar,
}

const OWN: Required = Required {
    size: RequiredSize::Same,
    scalar: RequiredScalar::Same,
};

const FACTOR: Required = Required {
    size: RequiredSize::Scalar,
    scalar: RequiredScalar::Same,
};

const EXPONENT: Required = Required {
    size: RequiredSize::Same,
    scalar: RequiredScalar::I32,
};

const WORD: Required = Required {
    size: RequiredSize::Scalar,
    scalar: RequiredScalar::U32,
};

const COLUMN: Required = Required {
    size: RequiredSize::Column,
    scalar: RequiredScalar::Same,
};

const ROW: Required = Required {
    size: RequiredSize::Row,
    scalar: RequiredScalar::Same,
};

const ONE: [Required; 1] = [OWN];

const TWO: [Required; 2] = [OWN, OWN];

const THREE: [Required; 3] = [OWN, OWN, OWN];

const WITH_SCALAR: [Required; 3] = [OWN, OWN, FACTOR];

const WITH_EXPONENT: [Required; 2] = [OWN, EXPONENT];

const WITH_RANGE: [Required; 3] = [OWN, WORD, WORD];

const TWO_WITH_RANGE: [Required; 4] = [OWN, OWN, WORD, WORD];

const OUTER: [Required; 2] = [COLUMN, ROW];

const ONE_WORD: [Required; 1] = [WORD];

const TWO_WORDS: [Required; 2] = [WORD, WORD];

/// The required types of a pattern, in order.
pub(crate) const fn required_by(pattern: Pattern) -> &'static [Required]
    ensures { result.now ≡ required_by pattern }
{
    match pattern {
        Pattern::Same
        | Pattern::ToScalar
        | Pattern::ToFraction
        | Pattern::ToExponent
        | Pattern::ToTransposed
        | Pattern::ToWord => &ONE,
        Pattern::SameTwo | Pattern::TwoToScalar => &TWO,
        Pattern::SameThree => &THREE,
        Pattern::WithScalar => &WITH_SCALAR,
        Pattern::WithExponent => &WITH_EXPONENT,
        Pattern::WithRange => &WITH_RANGE,
        Pattern::TwoWithRange => &TWO_WITH_RANGE,
        Pattern::ToOuter => &OUTER,
        Pattern::FromWord => &ONE_WORD,
        Pattern::FromTwoWords => &TWO_WORDS,
    }
}

/// The required type of a pattern at an index, counted from 0, or `None` if it has no such argument.
pub(crate) fn required_at(pattern: Pattern, place: usize) -> Option<Required>
    ensures { result ≡ slice_get (required_by pattern) place }
{
    required_by(pattern).get(place).copied()
}

const NO_SCALAR: ScalarSet = ScalarSet(0);

const ALL_SCALARS: ScalarSet = ScalarSet(ScalarSet::NUMERIC.0 | ScalarSet::BOOL.0);

const NO_SIZE: ConstructorSet = ConstructorSet(0);

// All shapes: the thirteen lowest bits.
const ALL_SIZES: ConstructorSet = ConstructorSet(8191);

const TWO_COLUMNS: ConstructorSet = ConstructorSet(
    ConstructorSet::VEC2.0
        | ConstructorSet::MAT2X2.0
        | ConstructorSet::MAT2X3.0
        | ConstructorSet::MAT2X4.0,
);

const THREE_COLUMNS: ConstructorSet = ConstructorSet(
    ConstructorSet::VEC3.0
        | ConstructorSet::MAT3X2.0
        | ConstructorSet::MAT3X3.0
        | ConstructorSet::MAT3X4.0,
);

const FOUR_COLUMNS: ConstructorSet = ConstructorSet(
    ConstructorSet::VEC4.0
        | ConstructorSet::MAT4X2.0
        | ConstructorSet::MAT4X3.0
        | ConstructorSet::MAT4X4.0,
);

const TWO_ROWS: ConstructorSet = ConstructorSet(
    ConstructorSet::VEC2.0
        | ConstructorSet::MAT2X2.0
        | ConstructorSet::MAT3X2.0
        | ConstructorSet::MAT4X2.0,
);

const THREE_ROWS: ConstructorSet = ConstructorSet(
    ConstructorSet::VEC3.0
        | ConstructorSet::MAT2X3.0
        | ConstructorSet::MAT3X3.0
        | ConstructorSet::MAT4X3.0,
);

const FOUR_ROWS: ConstructorSet = ConstructorSet(
    ConstructorSet::VEC4.0
        | ConstructorSet::MAT2X4.0
        | ConstructorSet::MAT3X4.0
        | ConstructorSet::MAT4X4.0,
);

impl RequiredSize {
    /// The shapes of the rules that require the shape `given` at this argument.
    pub const fn taking(self, given: ConstructorSize) -> ConstructorSet
        ensures { marks result.0 sizes ≡ map (λ n. constructor_place given == constructor_place (required_size self n)) sizes }
    {
        match self {
            RequiredSize::Same => ConstructorSet(1 << given.place()),
            RequiredSize::Scalar => all_or_none(given),
            RequiredSize::Column => with_columns(given),
            RequiredSize::Row => with_rows(given),
        }
    }
}

// All shapes if the given shape is a scalar.
const fn all_or_none(given: ConstructorSize) -> ConstructorSet
    ensures { marks result.0 sizes ≡ map (λ n. constructor_place given == 0) sizes }
{
    match given {
        ConstructorSize::Scalar => ALL_SIZES,
        ConstructorSize::Vector(_) | ConstructorSize::Matrix { .. } => NO_SIZE,
    }
}

// The shapes with this many columns.
const fn with_columns(given: ConstructorSize) -> ConstructorSet
    ensures { marks result.0 sizes ≡ map (λ n. constructor_place given == constructor_place (vector_of_columns n)) sizes }
{
    match given {
        ConstructorSize::Scalar => ConstructorSet::SCALAR,
        ConstructorSize::Vector(VectorSize::Bi) => TWO_COLUMNS,
        ConstructorSize::Vector(VectorSize::Tri) => THREE_COLUMNS,
        ConstructorSize::Vector(VectorSize::Quad) => FOUR_COLUMNS,
        ConstructorSize::Matrix { .. } => NO_SIZE,
    }
}

// The shapes with this many rows.
const fn with_rows(given: ConstructorSize) -> ConstructorSet
    ensures { marks result.0 sizes ≡ map (λ n. constructor_place given == constructor_place (vector_of_rows n)) sizes }
{
    match given {
        ConstructorSize::Scalar => ConstructorSet::SCALAR,
        ConstructorSize::Vector(VectorSize::Bi) => TWO_ROWS,
        ConstructorSize::Vector(VectorSize::Tri) => THREE_ROWS,
        ConstructorSize::Vector(VectorSize::Quad) => FOUR_ROWS,
        ConstructorSize::Matrix { .. } => NO_SIZE,
    }
}

impl RequiredScalar {
    /// The scalars of the rules that accept the scalar `given` at this argument.
    pub fn taking(self, given: Scalar) -> ScalarSet
        ensures { marks result.0 scalars ≡ map (λ s. is_some (rank given (required_scalar self s))) scalars }
    {
        match self {
            RequiredScalar::Same => ScalarSet::convertible_from(given),
            RequiredScalar::I32 => all_if(conversion_rank(given, Scalar::I32).is_some()),
            RequiredScalar::U32 => all_if(conversion_rank(given, Scalar::U32).is_some()),
        }
    }
}

// All scalars, or none.
const fn all_if(holds: bool) -> ScalarSet
    ensures { marks result.0 scalars ≡ map (λ s. holds) scalars }
{
    if holds { ALL_SCALARS } else { NO_SCALAR }
}

/// The scalars of the pattern's rules without abstract arguments.
pub(crate) const fn concrete_scalars(pattern: Pattern) -> ScalarSet
    ensures { marks result.0 scalars ≡ map (λ s. all_concrete pattern s) scalars }
{
    match pattern {
        Pattern::FromWord | Pattern::FromTwoWords => ALL_SCALARS,
        Pattern::Same
        | Pattern::SameTwo
        | Pattern::SameThree
        | Pattern::ToScalar
        | Pattern::TwoToScalar
        | Pattern::WithScalar
        | Pattern::WithExponent
        | Pattern::WithRange
        | Pattern::TwoWithRange
        | Pattern::ToFraction
        | Pattern::ToExponent
        | Pattern::ToOuter
        | Pattern::ToTransposed
        | Pattern::ToWord => ScalarSet::CONCRETE,
    }
}
