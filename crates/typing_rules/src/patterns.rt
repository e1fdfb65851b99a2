//! Patterns of rules: a rule from a shape and a scalar.

ghost use Rattle.std.specs.Prelude.{◌≡◌};
ghost use Rattle.typing_rules.specs.judged.Types.{value_type};
ghost use Rattle.typing_rules.specs.judged.MathTable.{vector_size, vector_of_columns, vector_of_rows, transposed, math_rule};

use crate::rules::{Arguments, Conclusion, ConstructorSize, Rule, ValueType};
use ir_kinds::{PredeclaredType, Scalar, VectorSize};

/// The pattern of a rule with a shape and a scalar, which together are the type `x`.
#[derive(Clone, Copy, PartialEq, Eq, Debug)]
pub enum Pattern {
    /// `x` -> `x`.
    Same,
    /// `x`, `x` -> `x`.
    SameTwo,
    /// `x`, `x`, `x` -> `x`.
    SameThree,
    /// `x` -> the scalar of `x`.
    ToScalar,
    /// `x`, `x` -> the scalar of `x`.
    TwoToScalar,
    /// `x`, `x`, the scalar of `x` -> `x`.
    WithScalar,
    /// `x`, a 32-bit signed integer of the same shape -> `x`.
    WithExponent,
    /// `x` and two 32-bit unsigned integers -> `x`.
    WithRange,
    /// `x`, `x` and two 32-bit unsigned integers -> `x`.
    TwoWithRange,
    /// `x` -> the `modf` struct: fractional and whole part.
    ToFraction,
    /// `x` -> the `frexp` struct: fraction and exponent.
    ToExponent,
    /// A vector with one component per column and one with one per row -> the matrix `x` (outer product).
    ToOuter,
    /// A matrix `x` -> its transpose.
    ToTransposed,
    /// `x` -> a 32-bit unsigned integer.
    ToWord,
    /// A 32-bit unsigned integer -> `x`.
    FromWord,
    /// Two 32-bit unsigned integers -> `x`.
    FromTwoWords,
}

const WORD: ValueType = ValueType {
    size: ConstructorSize::Scalar,
    scalar: Scalar::U32,
};

impl ConstructorSize {
    // The size in a predeclared struct's key: none for a scalar.
    const fn vector_size(self) -> Option<VectorSize>
        ensures { result ≡ vector_size self }
    {
        match self {
            ConstructorSize::Vector(size) => Some(size),
            _ => None,
        }
    }

    // A vector with one component for each column.
    const fn column_size(self) -> ConstructorSize
        ensures { result ≡ vector_of_columns self }
    {
        match self {
            ConstructorSize::Matrix { columns, .. } => ConstructorSize::Vector(columns),
            size => size,
        }
    }

    // A vector with one component for each row.
    const fn row_size(self) -> ConstructorSize
        ensures { result ≡ vector_of_rows self }
    {
        match self {
            ConstructorSize::Matrix { rows, .. } => ConstructorSize::Vector(rows),
            size => size,
        }
    }

    // The transposed matrix.
    const fn transposed(self) -> ConstructorSize
        ensures { result ≡ transposed self }
    {
        match self {
            ConstructorSize::Matrix { columns, rows } => ConstructorSize::Matrix {
                columns: rows,
                rows: columns,
            },
            size => size,
        }
    }
}

const fn typed(size: ConstructorSize, scalar: Scalar) -> ValueType
    ensures { result ≡ value_type size scalar }
{
    ValueType { size, scalar }
}

impl Pattern {
    // The types of the rule's arguments.
    const fn arguments(self, size: ConstructorSize, scalar: Scalar) -> Arguments
        ensures { result ≡ (math_rule self size scalar).arguments }
    {
        let x = typed(size, scalar);
        match self {
            Pattern::Same
            | Pattern::ToScalar
            | Pattern::ToFraction
            | Pattern::ToExponent
            | Pattern::ToTransposed
            | Pattern::ToWord => Arguments::One(x),
            Pattern::SameTwo | Pattern::TwoToScalar => Arguments::Two(x, x),
            Pattern::SameThree => Arguments::Three(x, x, x),
            Pattern::WithScalar => Arguments::Three(x, x, typed(ConstructorSize::Scalar, scalar)),
            Pattern::WithExponent => Arguments::Two(x, typed(size, Scalar::I32)),
            Pattern::WithRange => Arguments::Three(x, WORD, WORD),
            Pattern::TwoWithRange => Arguments::Four(x, x, WORD, WORD),
            Pattern::ToOuter => Arguments::Two(
                typed(size.column_size(), scalar),
                typed(size.row_size(), scalar),
            ),
            Pattern::FromWord => Arguments::One(WORD),
            Pattern::FromTwoWords => Arguments::Two(WORD, WORD),
        }
    }

    // The rule's result.
    const fn conclusion(self, size: ConstructorSize, scalar: Scalar) -> Conclusion
        ensures { result ≡ (math_rule self size scalar).conclusion }
    {
        match self {
            Pattern::ToScalar | Pattern::TwoToScalar => {
                Conclusion::Value(typed(ConstructorSize::Scalar, scalar))
            }
            Pattern::ToFraction => Conclusion::Predeclared(PredeclaredType::ModfResult {
                size: size.vector_size(),
                scalar,
            }),
            Pattern::ToExponent => Conclusion::Predeclared(PredeclaredType::FrexpResult {
                size: size.vector_size(),
                scalar,
            }),
            Pattern::ToTransposed => Conclusion::Value(typed(size.transposed(), scalar)),
            Pattern::ToWord => Conclusion::Value(WORD),
            Pattern::Same
            | Pattern::SameTwo
            | Pattern::SameThree
            | Pattern::WithScalar
            | Pattern::WithExponent
            | Pattern::WithRange
            | Pattern::TwoWithRange
            | Pattern::ToOuter
            | Pattern::FromWord
            | Pattern::FromTwoWords => Conclusion::Value(typed(size, scalar)),
        }
    }

    /// The rule with this shape and scalar.
    pub const fn rule(self, size: ConstructorSize, scalar: Scalar) -> Rule
        ensures { result ≡ math_rule self size scalar }
    {
        Rule {
            arguments: self.arguments(size, scalar),
            conclusion: self.conclusion(size, scalar),
        }
    }
}
