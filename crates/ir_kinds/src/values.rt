//! Literals, and the values of switch cases.

ghost use Rattle.std.specs.Prelude.{◌≡◌, option_map, option_and_then, IfSome};
ghost use Rattle.ir_kinds.specs.judged.Values.{literal_scalar, units_of};

use crate::scalars::{Bytes, Scalar, ScalarKind};

// The bits of 1 and of -1 as floats.
const F16_ONE: u16 = 0x3c00;

const F16_MINUS_ONE: u16 = 0xbc00;

const F32_ONE: u32 = 0x3f80_0000;

const F32_MINUS_ONE: u32 = 0xbf80_0000;

const F64_ONE: u64 = 0x3ff0_0000_0000_0000;

const F64_MINUS_ONE: u64 = 0xbff0_0000_0000_0000;

/// A literal (naga's `Literal`). A float is stored as its bits: two floats are equal if their bits are.
#[derive(Clone, Copy, PartialEq, Eq, Debug)]
pub enum Literal {
    /// The bits of a 64-bit float.
    F64(u64),
    /// The bits of a 32-bit float.
    F32(u32),
    /// The bits of a 16-bit float.
    F16(u16),
    /// A 16-bit unsigned integer.
    U16(u16),
    /// A 16-bit signed integer.
    I16(i16),
    /// A 32-bit unsigned integer.
    U32(u32),
    /// A 32-bit signed integer.
    I32(i32),
    /// A 64-bit unsigned integer.
    U64(u64),
    /// A 64-bit signed integer.
    I64(i64),
    /// A boolean.
    Bool(bool),
    /// An abstract integer.
    AbstractInt(i64),
    /// The bits of an abstract float, which is a 64-bit float.
    AbstractFloat(u64),
}

/// The value of a switch case (naga's `SwitchValue`).
#[derive(Clone, Copy, PartialEq, Eq, Debug)]
pub enum SwitchValue {
    /// A 32-bit signed integer.
    I32(i32),
    /// A 32-bit unsigned integer.
    U32(u32),
    /// The default case.
    Default,
}

impl Literal {
    /// The zero of a scalar type (`false` for `Bool`); `None` if no literal has the type
    /// (naga's `Literal::zero`).
    pub const fn zero(scalar: Scalar) -> Option<Self>
        ensures value { result ≡ option_map (λ u. u.as_zero) (units_of scalar) }
        ensures scalar { IfSome result (λ l. literal_scalar l ≡ scalar) }
    {
        match (scalar.kind, scalar.width) {
            (ScalarKind::Sint, 2) => Some(Literal::I16(0)),
            (ScalarKind::Sint, 4) => Some(Literal::I32(0)),
            (ScalarKind::Sint, 8) => Some(Literal::I64(0)),
            (ScalarKind::Uint, 2) => Some(Literal::U16(0)),
            (ScalarKind::Uint, 4) => Some(Literal::U32(0)),
            (ScalarKind::Uint, 8) => Some(Literal::U64(0)),
            (ScalarKind::Float, 2) => Some(Literal::F16(0)),
            (ScalarKind::Float, 4) => Some(Literal::F32(0)),
            (ScalarKind::Float, 8) => Some(Literal::F64(0)),
            (ScalarKind::Bool, 1) => Some(Literal::Bool(false)),
            (ScalarKind::AbstractInt, 8) => Some(Literal::AbstractInt(0)),
            (ScalarKind::AbstractFloat, 8) => Some(Literal::AbstractFloat(0)),
            _ => None,
        }
    }

    /// The one of a scalar type (`true` for `Bool`); `None` if no literal has the type
    /// (naga's `Literal::one`).
    pub const fn one(scalar: Scalar) -> Option<Self>
        ensures value { result ≡ option_map (λ u. u.as_one) (units_of scalar) }
        ensures scalar { IfSome result (λ l. literal_scalar l ≡ scalar) }
    {
        match (scalar.kind, scalar.width) {
            (ScalarKind::Sint, 2) => Some(Literal::I16(1)),
            (ScalarKind::Sint, 4) => Some(Literal::I32(1)),
            (ScalarKind::Sint, 8) => Some(Literal::I64(1)),
            (ScalarKind::Uint, 2) => Some(Literal::U16(1)),
            (ScalarKind::Uint, 4) => Some(Literal::U32(1)),
            (ScalarKind::Uint, 8) => Some(Literal::U64(1)),
            (ScalarKind::Float, 2) => Some(Literal::F16(F16_ONE)),
            (ScalarKind::Float, 4) => Some(Literal::F32(F32_ONE)),
            (ScalarKind::Float, 8) => Some(Literal::F64(F64_ONE)),
            (ScalarKind::Bool, 1) => Some(Literal::Bool(true)),
            (ScalarKind::AbstractInt, 8) => Some(Literal::AbstractInt(1)),
            (ScalarKind::AbstractFloat, 8) => Some(Literal::AbstractFloat(F64_ONE)),
            _ => None,
        }
    }

    /// The minus one of a scalar type; `None` if no literal has the type, for unsigned integers and for
    /// `Bool` (naga's `Literal::minus_one`).
    pub const fn minus_one(scalar: Scalar) -> Option<Self>
        ensures value { result ≡ option_and_then (λ u. u.as_minus_one) (units_of scalar) }
        ensures scalar { IfSome result (λ l. literal_scalar l ≡ scalar) }
    {
        match (scalar.kind, scalar.width) {
            (ScalarKind::Sint, 2) => Some(Literal::I16(-1)),
            (ScalarKind::Sint, 4) => Some(Literal::I32(-1)),
            (ScalarKind::Sint, 8) => Some(Literal::I64(-1)),
            (ScalarKind::Float, 2) => Some(Literal::F16(F16_MINUS_ONE)),
            (ScalarKind::Float, 4) => Some(Literal::F32(F32_MINUS_ONE)),
            (ScalarKind::Float, 8) => Some(Literal::F64(F64_MINUS_ONE)),
            (ScalarKind::AbstractInt, 8) => Some(Literal::AbstractInt(-1)),
            (ScalarKind::AbstractFloat, 8) => Some(Literal::AbstractFloat(F64_MINUS_ONE)),
            _ => None,
        }
    }

    /// The scalar type (naga's `Literal::scalar`).
    pub const fn scalar(&self) -> Scalar
        ensures { result ≡ literal_scalar self.now }
    {
        match *self {
            Literal::F64(_) => Scalar::F64,
            Literal::F32(_) => Scalar::F32,
            Literal::F16(_) => Scalar::F16,
            Literal::U16(_) => Scalar::U16,
            Literal::I16(_) => Scalar::I16,
            Literal::U32(_) => Scalar::U32,
            Literal::I32(_) => Scalar::I32,
            Literal::U64(_) => Scalar::U64,
            Literal::I64(_) => Scalar::I64,
            Literal::Bool(_) => Scalar::BOOL,
            Literal::AbstractInt(_) => Scalar::ABSTRACT_INT,
            Literal::AbstractFloat(_) => Scalar::ABSTRACT_FLOAT,
        }
    }

    /// The width of the type in bytes (naga's `Literal::width`).
    pub const fn width(&self) -> Bytes
        ensures { result ≡ (literal_scalar self.now).width }
    {
        self.scalar().width
    }

    /// The scalar kind (naga's `Literal::scalar_kind`).
    pub const fn scalar_kind(&self) -> ScalarKind
        ensures { result ≡ (literal_scalar self.now).kind }
    {
        self.scalar().kind
    }
}
