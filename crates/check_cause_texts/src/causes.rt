//! The text for a broken rule of an expression.

use crate::types::{ScalarText, TypeText, word_of};
use check_causes::{
    AccessCause, AlikeCause, AsCause, BinaryCause, Cause, ProductCause, SelectCause, ShiftCause,
    SwizzleCause,
};
use ir_kinds::BinaryOperator;
use ir_sets::unique_arena::UniqueArena;
use ir_types::{IrType, key};
use std::fmt::{self, Display};
use typing_forms::Form;

/// The types of a module, for writing one of them.
#[derive(Clone, Copy)]
pub struct Types<'a>(
    /// The types.
    pub &'a UniqueArena<IrType, key::IrType>,
);

impl<'a> Types<'a> {
    /// Displays a type.
    pub fn text(self, form: &'a Form) -> TypeText<'a> {
        TypeText {
            types: self.0,
            form,
        }
    }
}

fn write_access<W: fmt::Write>(
    f: &mut fmt::Formatter<W>,
    types: Types<'_>,
    cause: &AccessCause,
) -> fmt::Result {
    match cause {
        AccessCause::NoInteger(given) => {
            write!(
                f,
                "an index must be an integer scalar, and this one is {}",
                types.text(given)
            )
        }
        AccessCause::Negative(index) => {
            write!(f, "an index must not be negative, and this one is {index}")
        }
        AccessCause::Outside { index, parts } => {
            write!(
                f,
                "index {index} is out of bounds, because there are {parts} parts"
            )
        }
    }
}

fn write_select<W: fmt::Write>(
    f: &mut fmt::Formatter<W>,
    types: Types<'_>,
    cause: &SelectCause,
) -> fmt::Result {
    match cause {
        SelectCause::Differ(accept, reject) => write!(
            f,
            "both values must have the same type, and they are {} and {}",
            types.text(accept),
            types.text(reject)
        ),
        SelectCause::NoValue(given) => {
            write!(
                f,
                "the values must be scalars or vectors, and they are {}",
                types.text(given)
            )
        }
        SelectCause::NoCondition(given) => {
            write!(
                f,
                "the condition must be of bool, and it is {}",
                types.text(given)
            )
        }
        SelectCause::Shape(condition, value) => write!(
            f,
            "the condition must be one bool, or a vector of as many as the values have components; it is {}, and they are {}",
            types.text(condition),
            types.text(value)
        ),
    }
}

// The operand types that an operation with equal operand types accepts.
fn taken_by(op: BinaryOperator) -> &'static str {
    match op {
        BinaryOperator::Add | BinaryOperator::Subtract => {
            "numeric scalars, vectors and matrices"
        }
        BinaryOperator::Equal | BinaryOperator::NotEqual => "scalars and vectors",
        BinaryOperator::And | BinaryOperator::InclusiveOr => "operands of integers or bool",
        BinaryOperator::ExclusiveOr => "operands of integers",
        BinaryOperator::LogicalAnd | BinaryOperator::LogicalOr => "bool scalars",
        BinaryOperator::Divide
        | BinaryOperator::Modulo
        | BinaryOperator::Less
        | BinaryOperator::LessEqual
        | BinaryOperator::Greater
        | BinaryOperator::GreaterEqual
        | BinaryOperator::Multiply
        | BinaryOperator::ShiftLeft
        | BinaryOperator::ShiftRight => "numeric scalars and vectors",
    }
}

fn write_alike<W: fmt::Write>(
    f: &mut fmt::Formatter<W>,
    types: Types<'_>,
    op: BinaryOperator,
    cause: &AlikeCause,
) -> fmt::Result {
    let word = word_of(op);
    match cause {
        AlikeCause::Differ(left, right) => write!(
            f,
            "the operands of {word} must have the same type, and they are {} and {}",
            types.text(left),
            types.text(right)
        ),
        AlikeCause::Type(given) => write!(
            f,
            "{word} takes {}, and these operands are {}",
            taken_by(op),
            types.text(given)
        ),
    }
}

// The shapes that can be multiplied.
const PRODUCTS: &str =
    "two vectors have as many components, a vector as many as the matrix on its right has rows or the one on its left has columns, and of two matrices the left one as many columns as the right one has rows";

fn write_product<W: fmt::Write>(
    f: &mut fmt::Formatter<W>,
    types: Types<'_>,
    cause: &ProductCause,
) -> fmt::Result {
    match cause {
        ProductCause::Left(given) | ProductCause::Right(given) => write!(
            f,
            "Multiply takes scalars, vectors and matrices, and one operand is {}",
            types.text(given)
        ),
        ProductCause::Scalars(left, right) => write!(
            f,
            "the operands of Multiply must be made of the same scalar, and they are of {} and {}",
            ScalarText(*left),
            ScalarText(*right)
        ),
        ProductCause::Shapes(left, right) => write!(
            f,
            "{} cannot be multiplied with {}: {PRODUCTS}",
            types.text(left),
            types.text(right)
        ),
    }
}

fn write_shift<W: fmt::Write>(
    f: &mut fmt::Formatter<W>,
    types: Types<'_>,
    op: BinaryOperator,
    cause: &ShiftCause,
) -> fmt::Result {
    match cause {
        ShiftCause::NoInteger(given) => {
            write!(
                f,
                "{} shifts integers, and the left operand is {}",
                word_of(op),
                types.text(given)
            )
        }
        ShiftCause::Amount(given, wanted) => write!(
            f,
            "the shift amount must be {}, as many u32 as there are integers to shift, and it is {}",
            types.text(wanted),
            types.text(given)
        ),
    }
}

fn write_binary<W: fmt::Write>(
    f: &mut fmt::Formatter<W>,
    types: Types<'_>,
    op: BinaryOperator,
    cause: &BinaryCause,
) -> fmt::Result {
    match cause {
        BinaryCause::Alike(cause) => write_alike(f, types, op, cause),
        BinaryCause::Product(cause) => write_product(f, types, cause),
        BinaryCause::Shift(cause) => write_shift(f, types, op, cause),
    }
}

fn write_as<W: fmt::Write>(
    f: &mut fmt::Formatter<W>,
    types: Types<'_>,
    cause: &AsCause,
) -> fmt::Result {
    match cause {
        AsCause::NoScalars(given) => {
            write!(
                f,
                "only scalars, vectors and matrices are converted, and this is {}",
                types.text(given)
            )
        }
        AsCause::NoScalar(scalar) => {
            write!(
                f,
                "there is no {} here, or its capability is missing",
                ScalarText(*scalar)
            )
        }
        AsCause::ToBool => write!(
            f,
            "a bitcast cannot be to bool, because a bool has no bits to take over"
        ),
        AsCause::FromBool => {
            write!(
                f,
                "a bitcast cannot be from bool, because a bool has no bits to take over"
            )
        }
    }
}

fn write_swizzle<W: fmt::Write>(
    f: &mut fmt::Formatter<W>,
    types: Types<'_>,
    cause: &SwizzleCause,
) -> fmt::Result {
    match cause {
        SwizzleCause::NoVector(given) => {
            write!(
                f,
                "a swizzle must be of a vector, and this is one of {}",
                types.text(given)
            )
        }
        SwizzleCause::Letter(letter, size) => write!(
            f,
            "the pattern selects component {}, and the vector has {} components",
            word_of(*letter),
            u32::from(*size)
        ),
    }
}

/// Displays a broken rule.
#[derive(Clone, Copy)]
pub struct CauseText<'a> {
    /// The types of the module.
    pub types: &'a UniqueArena<IrType, key::IrType>,
    /// The broken rule.
    pub cause: &'a Cause,
}

impl Display for CauseText<'_> {
    fn fmt<W: fmt::Write>(&self, f: &mut fmt::Formatter<W>) -> fmt::Result {
        let types = Types(self.types);
        match self.cause {
            Cause::Access(cause) => write_access(f, types, cause),
            Cause::As(cause) => write_as(f, types, cause),
            Cause::ImageLoad(cause) => crate::images::write_load(f, types, cause),
            Cause::ImageQuery(cause) => crate::images::write_query(f, types, cause),
            Cause::ImageSample(cause) => crate::images::write_sample(f, types, cause),
            Cause::Binary(op, cause) => write_binary(f, types, *op, cause),
            Cause::Select(cause) => write_select(f, types, cause),
            Cause::Swizzle(cause) => write_swizzle(f, types, cause),
        }
    }
}
