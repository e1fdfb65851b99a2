//! Built-in math functions.

ghost use Rattle.std.specs.Prelude.{◌≡◌};
ghost use Rattle.ir_kinds.specs.judged.Maths.{argument_count};

/// A built-in math function (naga's `MathFunction`).
#[derive(Clone, Copy, PartialEq, Eq, Debug)]
pub enum MathFunction {
    /// `abs`: the absolute value.
    Abs,
    /// `min`: the lesser.
    Min,
    /// `max`: the greater.
    Max,
    /// `clamp`: restricted to a range.
    Clamp,
    /// `saturate`: clamped to 0 through 1.
    Saturate,
    /// Cosine.
    Cos,
    /// Hyperbolic cosine.
    Cosh,
    /// Sine.
    Sin,
    /// Hyperbolic sine.
    Sinh,
    /// Tangent.
    Tan,
    /// Hyperbolic tangent.
    Tanh,
    /// The arc cosine.
    Acos,
    /// The arc sine.
    Asin,
    /// The arc tangent.
    Atan,
    /// The arc tangent of a quotient, by the signs of both operands.
    Atan2,
    /// The inverse hyperbolic sine.
    Asinh,
    /// The inverse hyperbolic cosine.
    Acosh,
    /// The inverse hyperbolic tangent.
    Atanh,
    /// Degrees to radians.
    Radians,
    /// Radians to degrees.
    Degrees,
    /// Round up to an integer.
    Ceil,
    /// Round down to an integer.
    Floor,
    /// Round to the nearest integer, ties to even.
    Round,
    /// The fractional part.
    Fract,
    /// Round towards zero.
    Trunc,
    /// The fractional and the integral part, as a struct.
    Modf,
    /// The significand and the exponent, as a struct.
    Frexp,
    /// A float from a significand and an exponent.
    Ldexp,
    /// The exponential, base e.
    Exp,
    /// The exponential, base 2.
    Exp2,
    /// The logarithm, base e.
    Log,
    /// The logarithm, base 2.
    Log2,
    /// The power.
    Pow,
    /// The dot product.
    Dot,
    /// The dot product of four packed signed bytes.
    Dot4I8Packed,
    /// The dot product of four packed unsigned bytes.
    Dot4U8Packed,
    /// The outer product.
    Outer,
    /// The cross product.
    Cross,
    /// The distance of two points.
    Distance,
    /// The length of a vector.
    Length,
    /// The unit vector in the same direction.
    Normalize,
    /// `faceForward`: the vector, negated if it faces away from another.
    FaceForward,
    /// The reflected vector.
    Reflect,
    /// The refracted vector.
    Refract,
    /// The sign: -1, 0 or 1.
    Sign,
    /// Fused multiply-add.
    Fma,
    /// A linear blend of two values.
    Mix,
    /// 0 below the edge, 1 otherwise.
    Step,
    /// Smooth Hermite interpolation between 0 and 1.
    SmoothStep,
    /// The square root.
    Sqrt,
    /// The inverse square root.
    InverseSqrt,
    /// The inverse matrix.
    Inverse,
    /// The transpose of a matrix.
    Transpose,
    /// The determinant of a matrix.
    Determinant,
    /// Rounded to 16-bit float precision.
    QuantizeToF16,
    /// The number of trailing zero bits.
    CountTrailingZeros,
    /// The number of leading zero bits.
    CountLeadingZeros,
    /// The number of one bits.
    CountOneBits,
    /// The bits in reverse order.
    ReverseBits,
    /// A bit field extracted.
    ExtractBits,
    /// A bit field inserted.
    InsertBits,
    /// The index of the lowest one bit.
    FirstTrailingBit,
    /// The index of the highest bit that differs from the sign bit, or of the highest one bit if unsigned.
    FirstLeadingBit,
    /// Four floats packed as signed normalised bytes.
    Pack4x8snorm,
    /// Four floats packed as unsigned normalised bytes.
    Pack4x8unorm,
    /// Two floats packed as signed normalised 16-bit integers.
    Pack2x16snorm,
    /// Two floats packed as unsigned normalised 16-bit integers.
    Pack2x16unorm,
    /// Two floats packed as 16-bit floats.
    Pack2x16float,
    /// Four signed integers packed as bytes.
    Pack4xI8,
    /// Four unsigned integers packed as bytes.
    Pack4xU8,
    /// Four signed integers clamped and packed as bytes.
    Pack4xI8Clamp,
    /// Four unsigned integers clamped and packed as bytes.
    Pack4xU8Clamp,
    /// The inverse of `Pack4x8snorm`.
    Unpack4x8snorm,
    /// The inverse of `Pack4x8unorm`.
    Unpack4x8unorm,
    /// The inverse of `Pack2x16snorm`.
    Unpack2x16snorm,
    /// The inverse of `Pack2x16unorm`.
    Unpack2x16unorm,
    /// The inverse of `Pack2x16float`.
    Unpack2x16float,
    /// The inverse of `Pack4xI8`.
    Unpack4xI8,
    /// The inverse of `Pack4xU8`.
    Unpack4xU8,
}

impl MathFunction {
    /// The number of arguments (naga's `MathFunction::argument_count`).
    pub const fn argument_count(&self) -> usize
        ensures { result ≡ argument_count self.now }
    {
        match *self {
            MathFunction::Min
            | MathFunction::Max
            | MathFunction::Atan2
            | MathFunction::Ldexp
            | MathFunction::Pow
            | MathFunction::Dot
            | MathFunction::Dot4I8Packed
            | MathFunction::Dot4U8Packed
            | MathFunction::Outer
            | MathFunction::Cross
            | MathFunction::Distance
            | MathFunction::Reflect
            | MathFunction::Step => 2,
            MathFunction::Clamp
            | MathFunction::FaceForward
            | MathFunction::Refract
            | MathFunction::Fma
            | MathFunction::Mix
            | MathFunction::SmoothStep
            | MathFunction::ExtractBits => 3,
            MathFunction::InsertBits => 4,
            _ => 1,
        }
    }
}
