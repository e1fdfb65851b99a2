// The word tables of expressions and statements.
ghost use Rattle.document_words.specs.Tables.{letters, unary_operators, binary_operators, relational_functions, derivative_axes, derivative_controls, math_functions, subgroup_operations, collective_operations, directions};

use crate::words::Word;
use ir_kinds::{
    BinaryOperator, CollectiveOperation, DerivativeAxis, DerivativeControl, Direction,
    MathFunction, RelationalFunction, SubgroupOperation, SwizzleComponent, UnaryOperator,
};

static LETTERS: [(&str, SwizzleComponent); 4] = [
    ("x", SwizzleComponent::X),
    ("y", SwizzleComponent::Y),
    ("z", SwizzleComponent::Z),
    ("w", SwizzleComponent::W),
];

impl Word for SwizzleComponent {
    ghost table = { letters };

    fn table() -> &'static [(&'static str, SwizzleComponent)] {
        &LETTERS
    }
}

static UNARY_OPERATORS: [(&str, UnaryOperator); 3] = [
    ("Negate", UnaryOperator::Negate),
    ("LogicalNot", UnaryOperator::LogicalNot),
    ("BitwiseNot", UnaryOperator::BitwiseNot),
];

impl Word for UnaryOperator {
    ghost table = { unary_operators };

    fn table() -> &'static [(&'static str, UnaryOperator)] {
        &UNARY_OPERATORS
    }
}

static BINARY_OPERATORS: [(&str, BinaryOperator); 18] = [
    ("Add", BinaryOperator::Add),
    ("Subtract", BinaryOperator::Subtract),
    ("Multiply", BinaryOperator::Multiply),
    ("Divide", BinaryOperator::Divide),
    ("Modulo", BinaryOperator::Modulo),
    ("Equal", BinaryOperator::Equal),
    ("NotEqual", BinaryOperator::NotEqual),
    ("Less", BinaryOperator::Less),
    ("LessEqual", BinaryOperator::LessEqual),
    ("Greater", BinaryOperator::Greater),
    ("GreaterEqual", BinaryOperator::GreaterEqual),
    ("And", BinaryOperator::And),
    ("ExclusiveOr", BinaryOperator::ExclusiveOr),
    ("InclusiveOr", BinaryOperator::InclusiveOr),
    ("LogicalAnd", BinaryOperator::LogicalAnd),
    ("LogicalOr", BinaryOperator::LogicalOr),
    ("ShiftLeft", BinaryOperator::ShiftLeft),
    ("ShiftRight", BinaryOperator::ShiftRight),
];

impl Word for BinaryOperator {
    ghost table = { binary_operators };

    fn table() -> &'static [(&'static str, BinaryOperator)] {
        &BINARY_OPERATORS
    }
}

static RELATIONAL_FUNCTIONS: [(&str, RelationalFunction); 4] = [
    ("All", RelationalFunction::All),
    ("Any", RelationalFunction::Any),
    ("IsNan", RelationalFunction::IsNan),
    ("IsInf", RelationalFunction::IsInf),
];

impl Word for RelationalFunction {
    ghost table = { relational_functions };

    fn table() -> &'static [(&'static str, RelationalFunction)] {
        &RELATIONAL_FUNCTIONS
    }
}

static DERIVATIVE_AXES: [(&str, DerivativeAxis); 3] = [
    ("X", DerivativeAxis::X),
    ("Y", DerivativeAxis::Y),
    ("Width", DerivativeAxis::Width),
];

impl Word for DerivativeAxis {
    ghost table = { derivative_axes };

    fn table() -> &'static [(&'static str, DerivativeAxis)] {
        &DERIVATIVE_AXES
    }
}

static DERIVATIVE_CONTROLS: [(&str, DerivativeControl); 3] = [
    ("Coarse", DerivativeControl::Coarse),
    ("Fine", DerivativeControl::Fine),
    ("None", DerivativeControl::None),
];

impl Word for DerivativeControl {
    ghost table = { derivative_controls };

    fn table() -> &'static [(&'static str, DerivativeControl)] {
        &DERIVATIVE_CONTROLS
    }
}

static MATH_FUNCTIONS: [(&str, MathFunction); 79] = [
    ("Abs", MathFunction::Abs),
    ("Min", MathFunction::Min),
    ("Max", MathFunction::Max),
    ("Clamp", MathFunction::Clamp),
    ("Saturate", MathFunction::Saturate),
    ("Cos", MathFunction::Cos),
    ("Cosh", MathFunction::Cosh),
    ("Sin", MathFunction::Sin),
    ("Sinh", MathFunction::Sinh),
    ("Tan", MathFunction::Tan),
    ("Tanh", MathFunction::Tanh),
    ("Acos", MathFunction::Acos),
    ("Asin", MathFunction::Asin),
    ("Atan", MathFunction::Atan),
    ("Atan2", MathFunction::Atan2),
    ("Asinh", MathFunction::Asinh),
    ("Acosh", MathFunction::Acosh),
    ("Atanh", MathFunction::Atanh),
    ("Radians", MathFunction::Radians),
    ("Degrees", MathFunction::Degrees),
    ("Ceil", MathFunction::Ceil),
    ("Floor", MathFunction::Floor),
    ("Round", MathFunction::Round),
    ("Fract", MathFunction::Fract),
    ("Trunc", MathFunction::Trunc),
    ("Modf", MathFunction::Modf),
    ("Frexp", MathFunction::Frexp),
    ("Ldexp", MathFunction::Ldexp),
    ("Exp", MathFunction::Exp),
    ("Exp2", MathFunction::Exp2),
    ("Log", MathFunction::Log),
    ("Log2", MathFunction::Log2),
    ("Pow", MathFunction::Pow),
    ("Dot", MathFunction::Dot),
    ("Dot4I8Packed", MathFunction::Dot4I8Packed),
    ("Dot4U8Packed", MathFunction::Dot4U8Packed),
    ("Outer", MathFunction::Outer),
    ("Cross", MathFunction::Cross),
    ("Distance", MathFunction::Distance),
    ("Length", MathFunction::Length),
    ("Normalize", MathFunction::Normalize),
    ("FaceForward", MathFunction::FaceForward),
    ("Reflect", MathFunction::Reflect),
    ("Refract", MathFunction::Refract),
    ("Sign", MathFunction::Sign),
    ("Fma", MathFunction::Fma),
    ("Mix", MathFunction::Mix),
    ("Step", MathFunction::Step),
    ("SmoothStep", MathFunction::SmoothStep),
    ("Sqrt", MathFunction::Sqrt),
    ("InverseSqrt", MathFunction::InverseSqrt),
    ("Inverse", MathFunction::Inverse),
    ("Transpose", MathFunction::Transpose),
    ("Determinant", MathFunction::Determinant),
    ("QuantizeToF16", MathFunction::QuantizeToF16),
    ("CountTrailingZeros", MathFunction::CountTrailingZeros),
    ("CountLeadingZeros", MathFunction::CountLeadingZeros),
    ("CountOneBits", MathFunction::CountOneBits),
    ("ReverseBits", MathFunction::ReverseBits),
    ("ExtractBits", MathFunction::ExtractBits),
    ("InsertBits", MathFunction::InsertBits),
    ("FirstTrailingBit", MathFunction::FirstTrailingBit),
    ("FirstLeadingBit", MathFunction::FirstLeadingBit),
    ("Pack4x8snorm", MathFunction::Pack4x8snorm),
    ("Pack4x8unorm", MathFunction::Pack4x8unorm),
    ("Pack2x16snorm", MathFunction::Pack2x16snorm),
    ("Pack2x16unorm", MathFunction::Pack2x16unorm),
    ("Pack2x16float", MathFunction::Pack2x16float),
    ("Pack4xI8", MathFunction::Pack4xI8),
    ("Pack4xU8", MathFunction::Pack4xU8),
    ("Pack4xI8Clamp", MathFunction::Pack4xI8Clamp),
    ("Pack4xU8Clamp", MathFunction::Pack4xU8Clamp),
    ("Unpack4x8snorm", MathFunction::Unpack4x8snorm),
    ("Unpack4x8unorm", MathFunction::Unpack4x8unorm),
    ("Unpack2x16snorm", MathFunction::Unpack2x16snorm),
    ("Unpack2x16unorm", MathFunction::Unpack2x16unorm),
    ("Unpack2x16float", MathFunction::Unpack2x16float),
    ("Unpack4xI8", MathFunction::Unpack4xI8),
    ("Unpack4xU8", MathFunction::Unpack4xU8),
];

impl Word for MathFunction {
    ghost table = { math_functions };

    fn table() -> &'static [(&'static str, MathFunction)] {
        &MATH_FUNCTIONS
    }
}

static SUBGROUP_OPERATIONS: [(&str, SubgroupOperation); 9] = [
    ("All", SubgroupOperation::All),
    ("Any", SubgroupOperation::Any),
    ("Add", SubgroupOperation::Add),
    ("Mul", SubgroupOperation::Mul),
    ("Min", SubgroupOperation::Min),
    ("Max", SubgroupOperation::Max),
    ("And", SubgroupOperation::And),
    ("Or", SubgroupOperation::Or),
    ("Xor", SubgroupOperation::Xor),
];

impl Word for SubgroupOperation {
    ghost table = { subgroup_operations };

    fn table() -> &'static [(&'static str, SubgroupOperation)] {
        &SUBGROUP_OPERATIONS
    }
}

static COLLECTIVE_OPERATIONS: [(&str, CollectiveOperation); 3] = [
    ("Reduce", CollectiveOperation::Reduce),
    ("InclusiveScan", CollectiveOperation::InclusiveScan),
    ("ExclusiveScan", CollectiveOperation::ExclusiveScan),
];

impl Word for CollectiveOperation {
    ghost table = { collective_operations };

    fn table() -> &'static [(&'static str, CollectiveOperation)] {
        &COLLECTIVE_OPERATIONS
    }
}

static DIRECTIONS: [(&str, Direction); 3] = [
    ("X", Direction::X),
    ("Y", Direction::Y),
    ("Diagonal", Direction::Diagonal),
];

impl Word for Direction {
    ghost table = { directions };

    fn table() -> &'static [(&'static str, Direction)] {
        &DIRECTIONS
    }
}
