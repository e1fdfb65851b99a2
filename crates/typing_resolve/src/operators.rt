//! Unary and binary operations.

ghost use Rattle.std.specs.Prelude.{◌≡◌, List, IfOk, Ok};
ghost use Rattle.ir_types.specs.judged.Plain.{PlainType};
ghost use Rattle.spec_expressions.specs.judged.Operators.{truth_of, vector_times, matrix_times, other_times, product, binary_type};
ghost use Rattle.typing_forms.specs.judged.Resolutions.{types_view};
ghost use Rattle.typing_errors.specs.Answers.{form_answer};
ghost use Rattle.typing_errors.specs.Operands.{given_form};

use ir_kinds::{BinaryOperator, Scalar, VectorSize};
use ir_sets::unique_arena::UniqueArena;
use ir_types::{IrType, TypeInner, key};
use spec_expressions::TypingFault;
use std::alloc::{AllocError, Global};
use typing_errors::{Typing, given_again, given_form};
use typing_forms::{Form, TypeResolution};

// Bools in the shape of a value.
pub(crate) fn truth_of(of: Form) -> Typing
    ensures { (types : List PlainType) → form_answer types result ≡ truth_of of }
{
    match of {
        Form::Scalar(_) => Ok(TypeResolution::Value(TypeInner::Scalar(Scalar::BOOL))),
        Form::Vector { size, .. } => Ok(TypeResolution::Value(TypeInner::Vector {
            size,
            scalar: Scalar::BOOL,
        })),
        _ => Err(TypingFault::IncompatibleOperands),
    }
}

// A vector multiplied by the right operand.
fn vector_times(
    alloc: Global,
    types: &UniqueArena<IrType, key::IrType>,
    left: Option<&TypeResolution>,
    right: Form,
) -> Result<Typing, AllocError>
    ensures { IfOk result (λ o. form_answer (types_view types.now) o ≡ vector_times (given_form (types_view types.now) left.entry) right) }
{
    match right {
        Form::Scalar(_) | Form::Vector { .. } => given_again(alloc, types, left),
        Form::Matrix {
            columns,
            scalar,
            ..
        } => {
            Ok(Ok(TypeResolution::Value(TypeInner::Vector {
                size: columns,
                scalar,
            })))
        }
        _ => Ok(Err(TypingFault::IncompatibleOperands)),
    }
}

// A matrix with this many rows multiplied by the right operand.
fn matrix_times(
    alloc: Global,
    types: &UniqueArena<IrType, key::IrType>,
    left: Option<&TypeResolution>,
    rows: VectorSize,
    scalar: Scalar,
    right: Form,
) -> Result<Typing, AllocError>
    ensures { IfOk result (λ o. form_answer (types_view types.now) o ≡ matrix_times (given_form (types_view types.now) left.entry) rows scalar right) }
{
    match right {
        Form::Scalar(_) => given_again(alloc, types, left),
        Form::Vector { .. } => Ok(Ok(TypeResolution::Value(TypeInner::Vector {
            size: rows,
            scalar,
        }))),
        Form::Matrix { columns, .. } => Ok(Ok(TypeResolution::Value(TypeInner::Matrix {
            columns,
            rows,
            scalar,
        }))),
        _ => Ok(Err(TypingFault::IncompatibleOperands)),
    }
}

// Anything else multiplied by the right operand.
fn other_times(
    alloc: Global,
    types: &UniqueArena<IrType, key::IrType>,
    left: Option<&TypeResolution>,
    right: Form,
) -> Result<Typing, AllocError>
    ensures { IfOk result (λ o. form_answer (types_view types.now) o ≡ other_times (given_form (types_view types.now) left.entry) right) }
{
    match right {
        Form::Scalar(_) => given_again(alloc, types, left),
        _ => Ok(Err(TypingFault::IncompatibleOperands)),
    }
}

// The type of a product.
fn product(
    alloc: Global,
    types: &UniqueArena<IrType, key::IrType>,
    left: Option<&TypeResolution>,
    right: Option<&TypeResolution>,
) -> Result<Typing, AllocError>
    ensures { IfOk result (λ o. form_answer (types_view types.now) o
        ≡ product (given_form (types_view types.now) left.entry) (given_form (types_view types.now) right.entry)) }
{
    match given_form(types, left) {
        Form::Scalar(_) => given_again(alloc, types, right),
        Form::Vector { .. } => vector_times(alloc, types, left, given_form(types, right)),
        Form::Matrix { rows, scalar, .. } => {
            matrix_times(alloc, types, left, rows, scalar, given_form(types, right))
        }
        _ => other_times(alloc, types, left, given_form(types, right)),
    }
}

// The type of a binary operation.
pub(crate) fn binary_type(
    alloc: Global,
    types: &UniqueArena<IrType, key::IrType>,
    op: BinaryOperator,
    left: Option<&TypeResolution>,
    right: Option<&TypeResolution>,
) -> Result<Typing, AllocError>
    ensures { IfOk result (λ o. form_answer (types_view types.now) o
        ≡ binary_type op (given_form (types_view types.now) left.entry) (given_form (types_view types.now) right.entry)) }
{
    match op {
        BinaryOperator::Add
        | BinaryOperator::Subtract
        | BinaryOperator::Divide
        | BinaryOperator::Modulo
        | BinaryOperator::And
        | BinaryOperator::ExclusiveOr
        | BinaryOperator::InclusiveOr
        | BinaryOperator::LogicalAnd
        | BinaryOperator::LogicalOr
        | BinaryOperator::ShiftLeft
        | BinaryOperator::ShiftRight => given_again(alloc, types, left),
        BinaryOperator::Multiply => product(alloc, types, left, right),
        BinaryOperator::Equal
        | BinaryOperator::NotEqual
        | BinaryOperator::Less
        | BinaryOperator::LessEqual
        | BinaryOperator::Greater
        | BinaryOperator::GreaterEqual => Ok(truth_of(given_form(types, left))),
    }
}
