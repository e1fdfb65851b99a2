//! The type of an expression, given those of earlier ones.

ghost use Rattle.std.specs.Prelude.{◌≡◌, Some, map, option_map};
ghost use Rattle.ir_types.specs.judged.ExpressionPlain.{expression_view};
ghost use Rattle.ir_items.specs.found.View.{function_view, module_view};
ghost use Rattle.function_tiny_lower.specs.Typing.{binary_type, earlier, expression_type, literal_type, type_in};

use crate::known::{Known, known_of};
use crate::lookups::{answer_type, argument_type, type_at};
use crate::value_type::ValueType;
use ir_arena::handle::Handle;
use ir_items::{Function, Module};
use ir_kinds::{BinaryOperator, Literal};
use ir_types::{Expression, key};

fn literal_type(value: Literal) -> Option<ValueType>
    ensures { result ≡ literal_type value }
{
    match value {
        Literal::U32(_) => Some(ValueType::U32),
        Literal::Bool(_) => Some(ValueType::Bool),
        Literal::F32(_) => Some(ValueType::F32),
        Literal::F64(_)
        | Literal::F16(_)
        | Literal::U16(_)
        | Literal::I16(_)
        | Literal::I32(_)
        | Literal::U64(_)
        | Literal::I64(_)
        | Literal::AbstractInt(_)
        | Literal::AbstractFloat(_) => None,
    }
}

// The type of an operation with a left operand of this type.
fn binary_type(op: BinaryOperator, left: ValueType) -> ValueType
    ensures { result ≡ binary_type op left }
{
    match op {
        BinaryOperator::Add
        | BinaryOperator::Subtract
        | BinaryOperator::Multiply
        | BinaryOperator::Divide
        | BinaryOperator::Modulo
        | BinaryOperator::And
        | BinaryOperator::ExclusiveOr
        | BinaryOperator::InclusiveOr
        | BinaryOperator::ShiftLeft
        | BinaryOperator::ShiftRight => left,
        BinaryOperator::Equal
        | BinaryOperator::NotEqual
        | BinaryOperator::Less
        | BinaryOperator::LessEqual
        | BinaryOperator::Greater
        | BinaryOperator::GreaterEqual
        | BinaryOperator::LogicalAnd
        | BinaryOperator::LogicalOr => ValueType::Bool,
    }
}

// The type of an earlier expression.
#[tactic(auto, using(crate::proofs::Typed::earlier_known))]
fn earlier(past: &[ValueType], operand: Handle<key::Expression>) -> Option<ValueType>
    ensures { result ≡ earlier (map Some past.now) operand }
{
    match past.get(operand.index()) {
        Some(ty) => Some(*ty),
        None => None,
    }
}

fn binary(
    past: &[ValueType],
    op: BinaryOperator,
    left: Handle<key::Expression>,
) -> Option<ValueType>
    ensures { result ≡ option_map (binary_type op) (earlier (map Some past.now) left) }
{
    match earlier(past, left) {
        Some(ty) => Some(binary_type(op, ty)),
        None => None,
    }
}

fn type_in(
    module: &Module,
    function: &Function,
    past: &[ValueType],
    known: &Known,
) -> Option<ValueType>
    ensures { result ≡ type_in (module_view «module».now) (function_view function.now) (map Some past.now) known.now }
{
    match *known {
        Known::Literal(value) => literal_type(value),
        Known::ZeroValue(ty) => type_at(&module.types, ty),
        Known::FunctionArgument(place) => argument_type(&module.types, &function.arguments, place),
        Known::Unary { expr, .. } => earlier(past, expr),
        Known::Binary { op, left, .. } => binary(past, op, left),
        Known::Select { accept, .. } => earlier(past, accept),
        Known::CallResult(callee) => answer_type(module, callee),
    }
}

/// The type of an expression, if each earlier one has a type.
pub(crate) fn expression_type(
    module: &Module,
    function: &Function,
    past: &[ValueType],
    expression: &Expression,
) -> Option<ValueType>
    ensures { result ≡ expression_type (module_view «module».now) (function_view function.now) (map Some past.now) (expression_view expression.now) }
{
    match known_of(expression) {
        Some(known) => type_in(module, function, past, &known),
        None => None,
    }
}
