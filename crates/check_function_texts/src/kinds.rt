//! The requirement of an expression by its kind, for kinds with a single rule.

use crate::scene::Scene;
use check_cause_texts::word_of;
use ir_arena::handle::Handle;
use ir_kinds::{MathFunction, RelationalFunction, UnaryOperator};
use ir_types::{Expression, key};
use std::fmt;

// The required operand type of a unary operation.
const fn of_unary(op: UnaryOperator) -> &'static str {
    match op {
        UnaryOperator::Negate => "signed integers or floats",
        UnaryOperator::LogicalNot => "bool",
        UnaryOperator::BitwiseNot => "integers",
    }
}

// The required argument type of a relational function.
const fn of_relational(fun: RelationalFunction) -> &'static str {
    match fun {
        RelationalFunction::All | RelationalFunction::Any => "a vector of bool",
        RelationalFunction::IsNan | RelationalFunction::IsInf => "a scalar or a vector of floats",
    }
}

// The requirement of an expression without operands.
fn of_others(expression: &Expression) -> &'static str {
    match expression {
        Expression::ZeroValue(_) => "the type must be constructible",
        Expression::FunctionArgument(_) => "the function must have the argument",
        Expression::CallResult(_) => "the function must have a result",
        Expression::AtomicResult { .. } => {
            "the result must have the scalar type of an atomic, or with a comparison be a struct of old_value and exchanged"
        }
        Expression::WorkGroupUniformLoadResult { .. } => {
            "the result must have a sized, constructible type"
        }
        Expression::SubgroupOperationResult { .. } => {
            "the result must be a numeric or bool scalar or vector"
        }
        Expression::RayQueryVertexPositions { .. } => {
            "the operand must be a pointer to a ray query that returns vertices"
        }
        Expression::RayQueryGetIntersection { .. } => {
            "the operand must be a pointer to a ray query"
        }
        Expression::CooperativeLoad { .. } => {
            "the pointer must point to scalars of a cooperative matrix, and the stride must be a u32 scalar"
        }
        Expression::CooperativeMultiplyAdd { .. } => {
            "the operands must have the roles A, B and C, the same scalar, and compatible sizes"
        }
        Expression::Binary { .. } => "the operands must have one type that the operator accepts",
        Expression::Select { .. } => {
            "both values must have the same type, scalars or vectors, and the condition must be bool: a scalar, or a vector of as many components"
        }
        _ => "the expression breaks the rule of its kind",
    }
}

// A single operand that breaks a requirement.
fn write_operand<W: fmt::Write>(
    f: &mut fmt::Formatter<W>,
    scene: &Scene<'_>,
    required: &str,
    operand: Handle<key::Expression>,
) -> fmt::Result {
    write!(f, "{required}")?;
    scene.write_given(f, ", and it is ", operand)
}

// A number of arguments as text.
const fn count(argument: Option<Handle<key::Expression>>) -> usize {
    match argument {
        Some(_) => 1,
        None => 0,
    }
}

// A math function with a wrong number of arguments.
fn write_arity<W: fmt::Write>(
    f: &mut fmt::Formatter<W>,
    fun: MathFunction,
    passed: usize,
) -> fmt::Result {
    let wanted = fun.argument_count();
    let word = word_of(fun);
    write!(
        f,
        "{word} takes {wanted} arguments, and {passed} are passed"
    )
}

// The function, and the type of its first argument.
fn write_first<W: fmt::Write>(
    f: &mut fmt::Formatter<W>,
    scene: &Scene<'_>,
    fun: MathFunction,
    first: Handle<key::Expression>,
) -> fmt::Result {
    write!(f, "{} does not accept ", word_of(fun))?;
    scene.write_given(f, "", first)
}

// The type of an argument, if present.
fn write_further<W: fmt::Write>(
    f: &mut fmt::Formatter<W>,
    scene: &Scene<'_>,
    argument: Option<Handle<key::Expression>>,
) -> fmt::Result {
    match argument {
        Some(argument) => scene.write_given(f, " with ", argument),
        None => Ok(()),
    }
}

/// The arguments of a math function after the first.
#[derive(Clone, Copy)]
struct Further {
    second: Option<Handle<key::Expression>>,
    third: Option<Handle<key::Expression>>,
    fourth: Option<Handle<key::Expression>>,
}

// A math function with wrong argument types.
fn write_math<W: fmt::Write>(
    f: &mut fmt::Formatter<W>,
    scene: &Scene<'_>,
    fun: MathFunction,
    first: Handle<key::Expression>,
    further: &Further,
) -> fmt::Result {
    let passed = count(further.second)
        .saturating_add(count(further.third))
        .saturating_add(count(further.fourth))
        .saturating_add(1);
    if passed != fun.argument_count() {
        return write_arity(f, fun, passed);
    }
    write_first(f, scene, fun, first)?;
    write_further(f, scene, further.second)?;
    write_further(f, scene, further.third)?;
    write_further(f, scene, further.fourth)
}

// The expression at a handle, by the single operand that its rule concerns.
fn write_kind<W: fmt::Write>(
    f: &mut fmt::Formatter<W>,
    scene: &Scene<'_>,
    expression: &Expression,
) -> fmt::Result {
    match *expression {
        Expression::Unary { op, expr } => {
            write!(
                f,
                "the operand of {} must be of {}",
                word_of(op),
                of_unary(op)
            )?;
            scene.write_given(f, ", and it is ", expr)
        }
        Expression::Relational { fun, argument } => {
            write!(
                f,
                "the operand of {} must be {}",
                word_of(fun),
                of_relational(fun)
            )?;
            scene.write_given(f, ", and it is ", argument)
        }
        Expression::Derivative { expr, .. } => {
            write_operand(
                f,
                scene,
                "the operand must be a scalar or a vector of floats",
                expr,
            )
        }
        Expression::Load { pointer } => write_operand(
            f,
            scene,
            "the pointer must point to a sized type that can be stored",
            pointer,
        ),
        Expression::ArrayLength(array) => write_operand(
            f,
            scene,
            "the operand must be a pointer to a dynamically sized array",
            array,
        ),
        Expression::As { expr, .. } => write_operand(
            f,
            scene,
            "only scalars, vectors and matrices are converted",
            expr,
        ),
        Expression::Math {
            fun,
            arg,
            arg1,
            arg2,
            arg3,
        } => {
            let further = Further {
                second: arg1,
                third: arg2,
                fourth: arg3,
            };
            write_math(f, scene, fun, arg, &further)
        }
        _ => write!(f, "{}", of_others(expression)),
    }
}

/// Writes the requirement of the expression at a handle by its kind.
pub(crate) fn write_required<W: fmt::Write>(
    f: &mut fmt::Formatter<W>,
    scene: &Scene<'_>,
    handle: Handle<key::Expression>,
) -> fmt::Result {
    match scene.context.expressions.try_get(handle) {
        Ok(expression) => write_kind(f, scene, expression),
        Err(_) => write!(f, "the expression breaks the rule of its kind"),
    }
}
