//! Whether operations fit the types of their operands.

ghost use Rattle.std.specs.Prelude.{◌≡◌, Some};
ghost use Rattle.ir_types.specs.judged.ExpressionPlain.{expression_view};
ghost use Rattle.function_tiny_lower.specs.Operations.{are_same, fits, fits_in, is_condition, is_float, is_number, is_same, is_truth, is_word, left_fits, takes_one, takes_two, type_given, unary_fits};

use crate::known::{Known, known_of};
use crate::value_type::{ValueType, type_of_form};
use ir_arena::handle::Handle;
use ir_kinds::{BinaryOperator, UnaryOperator};
use ir_types::{Expression, key};
use typing_forms::Form;

// ---- kinds of values

fn is_word(ty: ValueType) -> bool
    ensures { result ≡ is_word ty }
{
    match ty {
        ValueType::U32 => true,
        ValueType::Bool | ValueType::F32 => false,
    }
}

fn is_truth(ty: ValueType) -> bool
    ensures { result ≡ is_truth ty }
{
    match ty {
        ValueType::Bool => true,
        ValueType::U32 | ValueType::F32 => false,
    }
}

fn is_float(ty: ValueType) -> bool
    ensures { result ≡ is_float ty }
{
    match ty {
        ValueType::F32 => true,
        ValueType::U32 | ValueType::Bool => false,
    }
}

fn is_number(ty: ValueType) -> bool
    ensures { result ≡ is_number ty }
{
    match ty {
        ValueType::U32 | ValueType::F32 => true,
        ValueType::Bool => false,
    }
}

fn is_same(left: ValueType, right: ValueType) -> bool
    ensures { result ≡ is_same left right }
{
    match left {
        ValueType::U32 => is_word(right),
        ValueType::Bool => is_truth(right),
        ValueType::F32 => is_float(right),
    }
}

// ---- operators

fn takes_one(op: UnaryOperator, ty: ValueType) -> bool
    ensures { result ≡ takes_one op ty }
{
    match op {
        UnaryOperator::Negate => is_float(ty),
        UnaryOperator::LogicalNot => is_truth(ty),
        UnaryOperator::BitwiseNot => is_word(ty),
    }
}

fn takes_two(op: BinaryOperator, ty: ValueType) -> bool
    ensures { result ≡ takes_two op ty }
{
    match op {
        BinaryOperator::Add
        | BinaryOperator::Subtract
        | BinaryOperator::Multiply
        | BinaryOperator::Divide
        | BinaryOperator::Modulo
        | BinaryOperator::Less
        | BinaryOperator::LessEqual
        | BinaryOperator::Greater
        | BinaryOperator::GreaterEqual => is_number(ty),
        BinaryOperator::Equal | BinaryOperator::NotEqual => true,
        BinaryOperator::And
        | BinaryOperator::ExclusiveOr
        | BinaryOperator::InclusiveOr
        | BinaryOperator::ShiftLeft
        | BinaryOperator::ShiftRight => is_word(ty),
        BinaryOperator::LogicalAnd | BinaryOperator::LogicalOr => is_truth(ty),
    }
}

// ---- operands

// The type of an operand, given the forms of types.
fn type_given(forms: &[Form], operand: Handle<key::Expression>) -> Option<ValueType>
    ensures { result ≡ type_given forms.now operand }
{
    match forms.get(operand.index()) {
        Some(form) => type_of_form(form),
        None => None,
    }
}

fn unary_fits(op: UnaryOperator, ty: Option<ValueType>) -> bool
    ensures { result ≡ unary_fits op ty }
{
    match ty {
        Some(ty) => takes_one(op, ty),
        None => false,
    }
}

fn left_fits(op: BinaryOperator, ty: Option<ValueType>) -> bool
    ensures { result ≡ left_fits op ty }
{
    match ty {
        Some(ty) => takes_two(op, ty),
        None => false,
    }
}

fn is_condition(ty: Option<ValueType>) -> bool
    ensures { result ≡ is_condition ty }
{
    match ty {
        Some(ty) => is_truth(ty),
        None => false,
    }
}

// Whether both have one type.
fn are_same(left: Option<ValueType>, right: Option<ValueType>) -> bool
    ensures { result ≡ are_same left right }
{
    match left {
        Some(left) => match right {
            Some(right) => is_same(left, right),
            None => false,
        },
        None => false,
    }
}

fn fits_in(forms: &[Form], known: &Known) -> bool
    ensures { result ≡ fits_in forms.now (Some known.now) }
{
    match *known {
        Known::Unary { op, expr } => unary_fits(op, type_given(forms, expr)),
        Known::Binary { op, left, right } => {
            let ty = type_given(forms, left);
            left_fits(op, ty) && are_same(ty, type_given(forms, right))
        }
        Known::Select {
            condition,
            accept,
            reject,
        } => {
            is_condition(type_given(forms, condition))
                && are_same(type_given(forms, accept), type_given(forms, reject))
        }
        Known::Literal(_)
        | Known::ZeroValue(_)
        | Known::FunctionArgument(_)
        | Known::CallResult(_) => true,
    }
}

/// Whether an expression is supported and, if it is an operation, fits its operands, given the forms of their types.
pub(crate) fn fits(forms: &[Form], expression: &Expression) -> bool
    ensures { result ≡ fits forms.now (expression_view expression.now) }
{
    match known_of(expression) {
        Some(known) => fits_in(forms, &known),
        None => false,
    }
}
