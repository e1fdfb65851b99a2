//! Requirement texts for invalid calls, atomic operations and subgroup operations.

use crate::expressions::write_image;
use crate::scene::Scene;
use check_cause_texts::{SetText, space_word};
use ir_arena::handle::Handle;
use ir_types::{Expression, key};
use std::fmt;
use typing_errors::{AtomicError, CallError, ExpressionError, SubgroupError};

// An argument with its own error.
fn write_argument<W: fmt::Write>(
    f: &mut fmt::Formatter<W>,
    scene: &Scene<'_>,
    index: usize,
    source: &ExpressionError,
) -> fmt::Result {
    write!(f, "argument {index}: ")?;
    match source {
        ExpressionError::NotInScope => write!(
            f,
            "it must be emitted, or be the result of a statement, earlier in the same block or in an enclosing one"
        ),
        _ => write_image(f, scene, source),
    }
}

// A result that belongs to another function, or to none.
fn write_result<W: fmt::Write>(
    f: &mut fmt::Formatter<W>,
    scene: &Scene<'_>,
    function: Handle<key::Function>,
    answer: Option<Handle<key::Expression>>,
) -> fmt::Result {
    let place = function.index();
    let Some(answer) = answer else {
        return write!(
            f,
            "functions[{place}] has a result, and the call must have one: a CallResult of that function"
        );
    };
    match scene.context.expressions.try_get(answer) {
        Ok(Expression::CallResult(other)) if other.index() == place => {
            write!(f, "functions[{place}] has no result, and the call has one")
        }
        Ok(Expression::CallResult(other)) => write!(
            f,
            "the result must be a CallResult of functions[{place}], and expressions[{}] is one of functions[{}]",
            answer.index(),
            other.index()
        ),
        _ => write!(
            f,
            "the result must be a CallResult of functions[{place}], and expressions[{}] is not",
            answer.index()
        ),
    }
}

/// Writes the requirement for an invalid call.
pub(crate) fn write_call<W: fmt::Write>(
    f: &mut fmt::Formatter<W>,
    scene: &Scene<'_>,
    function: Handle<key::Function>,
    error: &CallError,
) -> fmt::Result {
    match error {
        CallError::Argument { index, source } => write_argument(f, scene, *index, source),
        CallError::ResultAlreadyInScope(handle) => write!(
            f,
            "expressions[{}] is already in scope, and can come into scope only once",
            handle.index()
        ),
        CallError::ResultAlreadyPopulated(handle) => write!(
            f,
            "expressions[{}] is already the result of another call",
            handle.index()
        ),
        CallError::ArgumentCount { required, seen } => write!(
            f,
            "the function requires {required} arguments, and {seen} are provided"
        ),
        CallError::ArgumentType {
            index,
            required,
            seen_expression,
        } => {
            write!(f, "argument {index} must be ")?;
            scene.write_type(f, *required)?;
            scene.write_given(f, ", and it is ", *seen_expression)
        }
        CallError::ExpressionMismatch(result) => write_result(f, scene, function, *result),
    }
}

/// Writes the requirement for an invalid atomic operation.
pub(crate) fn write_atomic<W: fmt::Write>(
    f: &mut fmt::Formatter<W>,
    scene: &Scene<'_>,
    error: &AtomicError,
) -> fmt::Result {
    match error {
        AtomicError::InvalidPointer(handle) => {
            write!(
                f,
                "an atomic operation must be through a pointer to an atomic, and expressions[{}] is ",
                handle.index()
            )?;
            scene.write_given(f, "", *handle)
        }
        AtomicError::InvalidAddressSpace(space) => write!(
            f,
            "atomic operations are not supported in address space {}",
            space_word(*space)
        ),
        AtomicError::InvalidOperand(handle) => {
            write!(f, "the value must have the scalar type of the atomic")?;
            scene.write_given(f, ", and it is ", *handle)
        }
        AtomicError::InvalidOperator(fun) => {
            write!(f, "{fun:?} is not supported for this atomic type")
        }
        AtomicError::InvalidResultExpression(handle) => write!(
            f,
            "the result must be an AtomicResult, and expressions[{}] is not",
            handle.index()
        ),
        AtomicError::ResultExpressionExchange(_) => write!(
            f,
            "the result is that of a compare-exchange, and this is not one"
        ),
        AtomicError::ResultExpressionNotExchange(_) => write!(
            f,
            "the result must be that of a compare-exchange, because this is one"
        ),
        AtomicError::ResultTypeMismatch(handle) => {
            write!(f, "the result must have the scalar type of the atomic")?;
            scene.write_given(f, ", and it is ", *handle)
        }
        AtomicError::MissingReturnValue => write!(f, "an exchange must have a result"),
        AtomicError::MissingCapability(missing) => {
            write!(f, "the document's capabilities lack {}", SetText(*missing))
        }
        AtomicError::ResultAlreadyPopulated(handle) => write!(
            f,
            "expressions[{}] is already the result of another atomic operation",
            handle.index()
        ),
    }
}

/// Writes the requirement for an invalid subgroup operation.
pub(crate) fn write_subgroup<W: fmt::Write>(
    f: &mut fmt::Formatter<W>,
    scene: &Scene<'_>,
    error: &SubgroupError,
) -> fmt::Result {
    match error {
        SubgroupError::InvalidOperand(handle) => {
            write!(
                f,
                "expressions[{}] does not have a type that the operation accepts",
                handle.index()
            )?;
            scene.write_given(f, "; it is ", *handle)
        }
        SubgroupError::ResultTypeMismatch(handle) => {
            write!(f, "the result must have the type of the operand")?;
            scene.write_given(f, ", and it is ", *handle)
        }
        SubgroupError::UnsupportedOperation(missing) => write!(
            f,
            "the document's subgroup operations lack {}",
            SetText(*missing)
        ),
        SubgroupError::UnknownOperation => write!(
            f,
            "there is no such operation: scans are Add or Mul, and All and Any are reductions"
        ),
        SubgroupError::InvalidInvocationIdExprType(handle) => write!(
            f,
            "the invocation index must be a const-expression, and expressions[{}] is not",
            handle.index()
        ),
    }
}
