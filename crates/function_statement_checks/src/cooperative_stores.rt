//! Stores of cooperative matrices.

ghost use Rattle.std.specs.Prelude.{◌≡◌, ◌↔◌, IsTrue, MatchResult, Some, option_and_then};
ghost use Rattle.ir_types.specs.judged.Plain.{inner_view};
ghost use Rattle.spec_expressions.specs.judged.CooperativeMatrices.{pointed_scalar};
ghost use Rattle.spec_statements.specs.judged.CooperativeStores.{CooperativeStoreOK, matrix_scalar};
ghost use Rattle.function_statement_checks.specs.CooperativeStores.{IsCooperativeFault};
ghost use Rattle.typing_forms.specs.judged.Resolutions.{inner_at};
ghost use Rattle.typing_forms.specs.judged.Parts.{scalar_of};

use crate::context::StatementContext;
use crate::pointers::is_writable;
use ir_arena::handle::Handle;
use ir_kinds::Scalar;
use ir_types::{CooperativeData, TypeInner, key};
use typing_errors::FunctionError;
use typing_forms::Form;

// The scalar of a cooperative matrix.
const fn matrix_scalar(of: Form) -> Option<Scalar>
    ensures { result ≡ matrix_scalar of }
{
    match of {
        Form::CooperativeMatrix { scalar, .. } => Some(scalar),
        Form::Scalar(_)
        | Form::Vector { .. }
        | Form::Matrix { .. }
        | Form::Atomic(_)
        | Form::Pointer { .. }
        | Form::ValuePointer { .. }
        | Form::Array { .. }
        | Form::Struct(_)
        | Form::Image { .. }
        | Form::Sampler { .. }
        | Form::AccelerationStructure { .. }
        | Form::RayQuery { .. }
        | Form::BindingArray { .. }
        | Form::Nothing => None,
    }
}

// The scalar of a scalar, a vector or a matrix.
fn scalar_of(inner: &TypeInner) -> Option<Scalar>
    ensures { result ≡ scalar_of (inner_view inner.now) }
{
    match *inner {
        TypeInner::Scalar(scalar) => Some(scalar),
        TypeInner::Vector { scalar, .. } => Some(scalar),
        TypeInner::Matrix { scalar, .. } => Some(scalar),
        TypeInner::CooperativeMatrix { scalar, .. } => Some(scalar),
        _ => None,
    }
}

// The scalar of the value at a type.
fn scalar_at<C: StatementContext>(context: &C, base: Handle<key::IrType>) -> Option<Scalar>
    ensures { result ≡ option_and_then scalar_of (inner_at (C.seen context.now).m.types base) }
{
    match context.inner_of(base) {
        Some(inner) => scalar_of(inner),
        None => None,
    }
}

// The scalar of a pointer's target.
fn pointed_scalar<C: StatementContext>(context: &C, pointer: Form) -> Option<Scalar>
    ensures { result ≡ pointed_scalar (C.seen context.now).m.types pointer }
{
    match pointer {
        Form::Pointer { base, .. } => scalar_at(context, base),
        Form::ValuePointer { scalar, .. } => Some(scalar),
        _ => None,
    }
}

// Whether a scalar is this one.
fn is_scalar(found: Option<Scalar>, scalar: Scalar) -> bool
    ensures { IsTrue result ↔ (found ≡ Some scalar) }
{
    match found {
        Some(found) => found == scalar,
        None => false,
    }
}

/// Whether a cooperative matrix can be stored through a pointer: its scalars are of the same kind, and writable.
///
/// # Errors
///
/// [`FunctionError::InvalidCooperativeStoreTarget`] for a value that is not a cooperative matrix,
/// [`FunctionError::InvalidCooperativeDataPointer`] for other scalars, or none, and [`FunctionError::InvalidStorePointer`] for
/// a read-only address space.
pub fn check_cooperative_store<C: StatementContext>(
    context: &C,
    target: Handle<key::Expression>,
    place: CooperativeData,
) -> Result<(), FunctionError>
    ensures { MatchResult result
        (λ _. CooperativeStoreOK (C.seen context.now) target place)
        (IsCooperativeFault (C.seen context.now) target place) }
{
    let Some(scalar) = matrix_scalar(context.form_at(target)) else {
        return Err(FunctionError::InvalidCooperativeStoreTarget(target));
    };
    let pointer = place.pointer;
    if !is_scalar(pointed_scalar(context, context.form_at(pointer)), scalar) {
        return Err(FunctionError::InvalidCooperativeDataPointer(pointer));
    }
    if !is_writable(context.form_at(pointer)) {
        return Err(FunctionError::InvalidStorePointer(pointer));
    }
    Ok(())
}
