// Built-in functions by name.

use crate::effects::{EffectWord, effect_of};
use crate::textures::{TextureWord, texture_of};
use ir_flags::Barrier;
use ir_kinds::{DerivativeAxis, DerivativeControl, MathFunction, RelationalFunction};
use wgsl_words::find;

/// A built-in function.
#[derive(Clone, Copy)]
pub enum FunctionWord {
    /// A math function.
    Math(MathFunction),
    /// `all` or `any`.
    Relational(RelationalFunction),
    /// `select`.
    Select,
    /// `bitcast`.
    Bitcast,
    /// `arrayLength`.
    ArrayLength,
    /// A derivative.
    Derivative(DerivativeAxis, DerivativeControl),
    /// A barrier.
    Barrier(Barrier),
    /// A texture built-in.
    Texture(TextureWord),
    /// `coopLoad`, or `coopLoadT` of rows.
    CooperativeLoad(bool),
    /// A function for atomics, workgroup memory, subgroups, ray queries or cooperative matrices.
    Effect(EffectWord),
}

static MATH: [(&str, MathFunction); 77] = [
    ("abs", MathFunction::Abs),
    ("min", MathFunction::Min),
    ("max", MathFunction::Max),
    ("clamp", MathFunction::Clamp),
    ("saturate", MathFunction::Saturate),
    ("cos", MathFunction::Cos),
    ("cosh", MathFunction::Cosh),
    ("sin", MathFunction::Sin),
    ("sinh", MathFunction::Sinh),
    ("tan", MathFunction::Tan),
    ("tanh", MathFunction::Tanh),
    ("acos", MathFunction::Acos),
    ("asin", MathFunction::Asin),
    ("atan", MathFunction::Atan),
    ("atan2", MathFunction::Atan2),
    ("asinh", MathFunction::Asinh),
    ("acosh", MathFunction::Acosh),
    ("atanh", MathFunction::Atanh),
    ("radians", MathFunction::Radians),
    ("degrees", MathFunction::Degrees),
    ("ceil", MathFunction::Ceil),
    ("floor", MathFunction::Floor),
    ("round", MathFunction::Round),
    ("fract", MathFunction::Fract),
    ("trunc", MathFunction::Trunc),
    ("modf", MathFunction::Modf),
    ("frexp", MathFunction::Frexp),
    ("ldexp", MathFunction::Ldexp),
    ("exp", MathFunction::Exp),
    ("exp2", MathFunction::Exp2),
    ("log", MathFunction::Log),
    ("log2", MathFunction::Log2),
    ("pow", MathFunction::Pow),
    ("dot", MathFunction::Dot),
    ("dot4I8Packed", MathFunction::Dot4I8Packed),
    ("dot4U8Packed", MathFunction::Dot4U8Packed),
    ("cross", MathFunction::Cross),
    ("distance", MathFunction::Distance),
    ("length", MathFunction::Length),
    ("normalize", MathFunction::Normalize),
    ("faceForward", MathFunction::FaceForward),
    ("reflect", MathFunction::Reflect),
    ("refract", MathFunction::Refract),
    ("sign", MathFunction::Sign),
    ("fma", MathFunction::Fma),
    ("mix", MathFunction::Mix),
    ("step", MathFunction::Step),
    ("smoothstep", MathFunction::SmoothStep),
    ("sqrt", MathFunction::Sqrt),
    ("inverseSqrt", MathFunction::InverseSqrt),
    ("transpose", MathFunction::Transpose),
    ("determinant", MathFunction::Determinant),
    ("quantizeToF16", MathFunction::QuantizeToF16),
    ("countTrailingZeros", MathFunction::CountTrailingZeros),
    ("countLeadingZeros", MathFunction::CountLeadingZeros),
    ("countOneBits", MathFunction::CountOneBits),
    ("reverseBits", MathFunction::ReverseBits),
    ("extractBits", MathFunction::ExtractBits),
    ("insertBits", MathFunction::InsertBits),
    ("firstTrailingBit", MathFunction::FirstTrailingBit),
    ("firstLeadingBit", MathFunction::FirstLeadingBit),
    ("pack4x8snorm", MathFunction::Pack4x8snorm),
    ("pack4x8unorm", MathFunction::Pack4x8unorm),
    ("pack2x16snorm", MathFunction::Pack2x16snorm),
    ("pack2x16unorm", MathFunction::Pack2x16unorm),
    ("pack2x16float", MathFunction::Pack2x16float),
    ("pack4xI8", MathFunction::Pack4xI8),
    ("pack4xU8", MathFunction::Pack4xU8),
    ("pack4xI8Clamp", MathFunction::Pack4xI8Clamp),
    ("pack4xU8Clamp", MathFunction::Pack4xU8Clamp),
    ("unpack4x8snorm", MathFunction::Unpack4x8snorm),
    ("unpack4x8unorm", MathFunction::Unpack4x8unorm),
    ("unpack2x16snorm", MathFunction::Unpack2x16snorm),
    ("unpack2x16unorm", MathFunction::Unpack2x16unorm),
    ("unpack2x16float", MathFunction::Unpack2x16float),
    ("unpack4xI8", MathFunction::Unpack4xI8),
    ("unpack4xU8", MathFunction::Unpack4xU8),
];

static FUNCTIONS: [(&str, FunctionWord); 20] = [
    ("all", FunctionWord::Relational(RelationalFunction::All)),
    ("any", FunctionWord::Relational(RelationalFunction::Any)),
    ("select", FunctionWord::Select),
    ("bitcast", FunctionWord::Bitcast),
    ("arrayLength", FunctionWord::ArrayLength),
    (
        "dpdx",
        FunctionWord::Derivative(DerivativeAxis::X, DerivativeControl::None),
    ),
    (
        "dpdxCoarse",
        FunctionWord::Derivative(DerivativeAxis::X, DerivativeControl::Coarse),
    ),
    (
        "dpdxFine",
        FunctionWord::Derivative(DerivativeAxis::X, DerivativeControl::Fine),
    ),
    (
        "dpdy",
        FunctionWord::Derivative(DerivativeAxis::Y, DerivativeControl::None),
    ),
    (
        "dpdyCoarse",
        FunctionWord::Derivative(DerivativeAxis::Y, DerivativeControl::Coarse),
    ),
    (
        "dpdyFine",
        FunctionWord::Derivative(DerivativeAxis::Y, DerivativeControl::Fine),
    ),
    (
        "fwidth",
        FunctionWord::Derivative(DerivativeAxis::Width, DerivativeControl::None),
    ),
    (
        "fwidthCoarse",
        FunctionWord::Derivative(DerivativeAxis::Width, DerivativeControl::Coarse),
    ),
    (
        "fwidthFine",
        FunctionWord::Derivative(DerivativeAxis::Width, DerivativeControl::Fine),
    ),
    ("storageBarrier", FunctionWord::Barrier(Barrier(1))),
    ("workgroupBarrier", FunctionWord::Barrier(Barrier(2))),
    ("subgroupBarrier", FunctionWord::Barrier(Barrier(4))),
    ("textureBarrier", FunctionWord::Barrier(Barrier(8))),
    ("coopLoad", FunctionWord::CooperativeLoad(false)),
    ("coopLoadT", FunctionWord::CooperativeLoad(true)),
];

/// The built-in function with this name.
pub fn function_of(word: &[u8]) -> Option<FunctionWord> {
    if let Some(function) = find(&MATH, word) {
        return Some(FunctionWord::Math(function));
    }
    if let Some(texture) = texture_of(word) {
        return Some(FunctionWord::Texture(texture));
    }
    if let Some(effect) = effect_of(word) {
        return Some(FunctionWord::Effect(effect));
    }
    find(&FUNCTIONS, word)
}
