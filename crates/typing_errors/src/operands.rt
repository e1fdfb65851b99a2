//! The operands whose types determine the type of an expression.

ghost use Rattle.std.specs.Prelude.{◌≡◌, List, IfOk, Ok, Some, None, slice_get};
ghost use Rattle.ir_types.specs.judged.ExpressionPlain.{expression_view};
ghost use Rattle.ir_types.specs.judged.Plain.{PlainType};
ghost use Rattle.spec_expressions.specs.judged.Maths.{math_operands};
ghost use Rattle.spec_expressions.specs.judged.Typing.{typing_operands};
ghost use Rattle.spec_expressions.specs.TypingForms.{types_view};
ghost use Rattle.typing_errors.specs.Answers.{form_given, form_answer};
ghost use Rattle.typing_errors.specs.Operands.{given_form};

use ir_arena::handle::Handle;
use ir_types::{Expression, IrType, TypeInner, key};
use spec_expressions::TypingFault;
use spec_expressions::typing_forms::{Form, TypeResolution, UniqueArena, form_of};
use std::alloc::{AllocError, Global};

/// A type, or why there is none.
pub type Typing = Result<TypeResolution, TypingFault>;

/// Up to four operands, in order.
#[derive(Clone, Copy)]
pub struct Operands {
    /// The first, if there is one.
    pub first: Option<Handle<key::Expression>>,
    /// The second, if there is one.
    pub second: Option<Handle<key::Expression>>,
    /// The third, if there is one.
    pub third: Option<Handle<key::Expression>>,
    /// The fourth, if there is one.
    pub fourth: Option<Handle<key::Expression>>,
}

// None.
const NONE: Operands = Operands {
    first: None,
    second: None,
    third: None,
    fourth: None,
};

// One alone.
fn one(first: Handle<key::Expression>) -> Operands
    ensures first { result.first ≡ Some first }
    ensures second { result.second ≡ None }
    ensures third { result.third ≡ None }
    ensures fourth { result.fourth ≡ None }
{
    Operands {
        first: Some(first),
        ..NONE
    }
}

// The operands of a math function.
fn math_operands(
    first: Handle<key::Expression>,
    second: Option<Handle<key::Expression>>,
    third: Option<Handle<key::Expression>>,
    fourth: Option<Handle<key::Expression>>,
) -> Operands
    ensures first { result.first ≡ slice_get (math_operands first second third fourth) 0 }
    ensures second { result.second ≡ slice_get (math_operands first second third fourth) 1 }
    ensures third { result.third ≡ slice_get (math_operands first second third fourth) 2 }
    ensures fourth { result.fourth ≡ slice_get (math_operands first second third fourth) 3 }
{
    match (second, third, fourth) {
        (None, None, None)
        | (Some(_), None, None)
        | (Some(_), Some(_), None)
        | (Some(_), Some(_), Some(_)) => Operands {
            first: Some(first),
            second,
            third,
            fourth,
        },
        (None, Some(_), _) | (None, None, Some(_)) | (Some(_), None, Some(_)) => NONE,
    }
}

/// The operands whose types determine that of the expression.
pub fn operands_of(expression: &Expression) -> Operands
    ensures first { result.first ≡ slice_get (typing_operands (expression_view expression.now)) 0 }
    ensures second { result.second ≡ slice_get (typing_operands (expression_view expression.now)) 1 }
    ensures third { result.third ≡ slice_get (typing_operands (expression_view expression.now)) 2 }
    ensures fourth { result.fourth ≡ slice_get (typing_operands (expression_view expression.now)) 3 }
{
    match *expression {
        Expression::Access { base, .. } | Expression::AccessIndex { base, .. } => one(base),
        Expression::Splat { value, .. } => one(value),
        Expression::Swizzle { vector, .. } => one(vector),
        Expression::Load { pointer } => one(pointer),
        Expression::ImageSample { image, .. }
        | Expression::ImageLoad { image, .. }
        | Expression::ImageQuery { image, .. } => one(image),
        Expression::Unary { expr, .. }
        | Expression::Derivative { expr, .. }
        | Expression::As { expr, .. } => one(expr),
        Expression::Binary { left, right, .. } => Operands {
            first: Some(left),
            second: Some(right),
            ..NONE
        },
        Expression::Select { accept, .. } => one(accept),
        Expression::Relational { argument, .. } => one(argument),
        Expression::Math {
            arg,
            arg1,
            arg2,
            arg3,
            ..
        } => math_operands(arg, arg1, arg2, arg3),
        Expression::CooperativeLoad { block, .. } => one(block.pointer),
        Expression::CooperativeMultiplyAdd { c, .. } => one(c),
        Expression::Literal(_)
        | Expression::Constant(_)
        | Expression::Override(_)
        | Expression::ZeroValue(_)
        | Expression::Compose { .. }
        | Expression::FunctionArgument(_)
        | Expression::GlobalVariable(_)
        | Expression::LocalVariable(_)
        | Expression::CallResult(_)
        | Expression::AtomicResult { .. }
        | Expression::WorkGroupUniformLoadResult { .. }
        | Expression::ArrayLength(_)
        | Expression::RayQueryVertexPositions { .. }
        | Expression::RayQueryProceedResult
        | Expression::RayQueryGetIntersection { .. }
        | Expression::SubgroupBallotResult
        | Expression::SubgroupOperationResult { .. } => NONE,
    }
}

/// The form of an operand's type, if the operand exists.
pub fn given_form(types: &UniqueArena<IrType, key::IrType>, given: Option<&TypeResolution>) -> Form
    ensures { result ≡ given_form (types_view types.now) given.entry }
{
    match given {
        Some(given) => form_of(types, given),
        None => Form::Nothing,
    }
}

// An inner type that is no type: a struct that is not the module's.
fn nothing(alloc: Global) -> TypeResolution
    ensures { (types : List PlainType) → form_given types result ≡ Form.Nothing }
{
    TypeResolution::Value(TypeInner::Struct {
        members: Vec::new(alloc),
        span: 0,
    })
}

/// Clones an operand's type as the type of the expression. The error is out of memory.
pub fn given_again(
    alloc: Global,
    types: &UniqueArena<IrType, key::IrType>,
    given: Option<&TypeResolution>,
) -> Result<Typing, AllocError>
    ensures { IfOk result (λ o. form_answer (types_view types.now) o ≡ Ok (given_form (types_view types.now) given.entry)) }
{
    match given {
        Some(given) => match given.clone(alloc) {
            Ok(copy) => Ok(Ok(copy)),
            Err(error) => Err(error),
        },
        None => Ok(Ok(nothing(alloc))),
    }
}

/// The types of up to four operands, in order.
#[derive(Clone, Copy)]
pub struct Given<'a> {
    /// The type of the first, if there is one.
    pub first: Option<&'a TypeResolution>,
    /// The type of the second, if there is one.
    pub second: Option<&'a TypeResolution>,
    /// The type of the third, if there is one.
    pub third: Option<&'a TypeResolution>,
    /// The type of the fourth, if there is one.
    pub fourth: Option<&'a TypeResolution>,
}
