//! The table of the math functions, one entry each.

ghost use Rattle.std.specs.Prelude.{◌≡◌};
ghost use Rattle.typing_overloads.specs.Products.{rules_of};
ghost use Rattle.typing_overloads.specs.Rows.{first_row};

use crate::product::Product;
use ir_kinds::MathFunction as Mf;
use typing_rules::{ConstructorSet as C, Pattern, ScalarSet as S};

// All numeric scalars but the unsigned integers.
const SIGNED_NUMBERS: S = S(S::ABSTRACT_INT.0 | S::I32.0 | S::I16.0 | S::I64.0 | S::FLOAT.0);

// Scalars and vectors.
const SHAPES: C = C(C::SCALAR.0 | C::VECN.0);

const SQUARES: C = C(C::MAT2X2.0 | C::MAT3X3.0 | C::MAT4X4.0);

const MATRICES: C = C(
    C::MAT2X2.0
        | C::MAT2X3.0
        | C::MAT2X4.0
        | C::MAT3X2.0
        | C::MAT3X3.0
        | C::MAT3X4.0
        | C::MAT4X2.0
        | C::MAT4X3.0
        | C::MAT4X4.0,
);

const fn over(pattern: Pattern, scalars: S, sizes: C) -> Product
    ensures pattern { result.pattern ≡ pattern }
    ensures scalars { result.scalars ≡ scalars }
    ensures sizes { result.sizes ≡ sizes }
{
    Product {
        pattern,
        scalars,
        sizes,
    }
}

/// The rules of a function. `Mix` has further ones, which blend vectors by a scalar.
pub(crate) const fn row_of(function: Mf) -> Product
    ensures { rules_of result ≡ first_row function }
{
    match function {
        Mf::Abs => over(Pattern::Same, S::NUMERIC, SHAPES),
        Mf::Min | Mf::Max => over(Pattern::SameTwo, S::NUMERIC, SHAPES),
        Mf::Clamp => over(Pattern::SameThree, S::NUMERIC, SHAPES),
        Mf::Sign => over(Pattern::Same, SIGNED_NUMBERS, SHAPES),
        Mf::Saturate
        | Mf::Cos
        | Mf::Cosh
        | Mf::Sin
        | Mf::Sinh
        | Mf::Tan
        | Mf::Tanh
        | Mf::Acos
        | Mf::Asin
        | Mf::Atan
        | Mf::Asinh
        | Mf::Acosh
        | Mf::Atanh
        | Mf::Radians
        | Mf::Degrees
        | Mf::Ceil
        | Mf::Floor
        | Mf::Round
        | Mf::Fract
        | Mf::Trunc
        | Mf::Exp
        | Mf::Exp2
        | Mf::Log
        | Mf::Log2
        | Mf::Sqrt
        | Mf::InverseSqrt => over(Pattern::Same, S::FLOAT, SHAPES),
        Mf::Atan2 | Mf::Pow | Mf::Step => over(Pattern::SameTwo, S::FLOAT, SHAPES),
        Mf::Fma | Mf::SmoothStep | Mf::Mix => over(Pattern::SameThree, S::FLOAT, SHAPES),
        Mf::QuantizeToF16 => over(Pattern::Same, S::F32, SHAPES),
        Mf::CountTrailingZeros
        | Mf::CountLeadingZeros
        | Mf::CountOneBits
        | Mf::ReverseBits
        | Mf::FirstTrailingBit
        | Mf::FirstLeadingBit => over(Pattern::Same, S::CONCRETE_INTEGER, SHAPES),
        Mf::ExtractBits => over(Pattern::WithRange, S::CONCRETE_INTEGER, SHAPES),
        Mf::InsertBits => over(Pattern::TwoWithRange, S::CONCRETE_INTEGER, SHAPES),
        Mf::Dot => over(Pattern::TwoToScalar, S::NUMERIC, C::VECN),
        Mf::Normalize => over(Pattern::Same, S::FLOAT, C::VECN),
        Mf::Reflect => over(Pattern::SameTwo, S::FLOAT, C::VECN),
        Mf::FaceForward => over(Pattern::SameThree, S::FLOAT, C::VECN),
        Mf::Refract => over(Pattern::WithScalar, S::FLOAT, C::VECN),
        Mf::Cross => over(Pattern::SameTwo, S::FLOAT, C::VEC3),
        Mf::Length => over(Pattern::ToScalar, S::FLOAT, SHAPES),
        Mf::Distance => over(Pattern::TwoToScalar, S::FLOAT, SHAPES),
        Mf::Modf => over(Pattern::ToFraction, S::FLOAT, SHAPES),
        Mf::Frexp => over(Pattern::ToExponent, S::FLOAT, SHAPES),
        Mf::Ldexp => over(Pattern::WithExponent, S::FLOAT, SHAPES),
        Mf::Outer => over(Pattern::ToOuter, S::FLOAT, MATRICES),
        Mf::Transpose => over(Pattern::ToTransposed, S::FLOAT, MATRICES),
        Mf::Determinant => over(Pattern::ToScalar, S::FLOAT, SQUARES),
        Mf::Inverse => over(Pattern::Same, S::FLOAT, SQUARES),
        Mf::Pack4x8snorm | Mf::Pack4x8unorm => over(Pattern::ToWord, S::F32, C::VEC4),
        Mf::Pack2x16snorm | Mf::Pack2x16unorm | Mf::Pack2x16float => over(
            Pattern::ToWord,
            S::F32,
            C::VEC2,
        ),
        Mf::Pack4xI8 | Mf::Pack4xI8Clamp => over(Pattern::ToWord, S::I32, C::VEC4),
        Mf::Pack4xU8 | Mf::Pack4xU8Clamp => over(Pattern::ToWord, S::U32, C::VEC4),
        Mf::Unpack4x8snorm | Mf::Unpack4x8unorm => over(Pattern::FromWord, S::F32, C::VEC4),
        Mf::Unpack2x16snorm | Mf::Unpack2x16unorm | Mf::Unpack2x16float => over(
            Pattern::FromWord,
            S::F32,
            C::VEC2,
        ),
        Mf::Unpack4xI8 => over(Pattern::FromWord, S::I32, C::VEC4),
        Mf::Unpack4xU8 => over(Pattern::FromWord, S::U32, C::VEC4),
        Mf::Dot4I8Packed => over(Pattern::FromTwoWords, S::I32, C::SCALAR),
        Mf::Dot4U8Packed => over(Pattern::FromTwoWords, S::U32, C::SCALAR),
    }
}
