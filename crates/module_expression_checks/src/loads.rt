//! The checks of `Load` and `ArrayLength`.

ghost use Rattle.std.specs.Prelude.{◌↔◌, IsTrue, MatchResult, Some};
ghost use Rattle.module_context.specs.Refused.{IsRefused};
ghost use Rattle.module_context.specs.OperandView.{scene_in, types_in, IsKnown};
ghost use Rattle.ir_types.specs.judged.Plain.{inner_view};
ghost use Rattle.spec_statements.specs.judged.Loads.{LoadOK, IsRuntimeArray, ArrayLengthOK};
ghost use Rattle.spec_statements.specs.found.Sizes.{IsDynamic};
ghost use Rattle.spec_statements.specs.judged.Scene.{form_among};

use ir_arena::handle::Handle;
use ir_types::{ArraySize, TypeInner, key};
use module_context::{CheckContext, refused_unless};
use typing_errors::ExpressionError;
use typing_forms::Form;

// ---- loads

// Whether the base of a pointer type can be loaded.
fn is_loaded(context: &CheckContext<'_>, pointer: Form) -> bool
    requires { IsKnown context.now }
    ensures { IsTrue result ↔ LoadOK (types_in context.now) pointer }
{
    match pointer {
        Form::Pointer { base, .. } => context.is_data(base) && context.is_sized(base),
        Form::ValuePointer { .. } => true,
        Form::Scalar(_)
        | Form::Vector { .. }
        | Form::Matrix { .. }
        | Form::CooperativeMatrix { .. }
        | Form::Atomic(_)
        | Form::Array { .. }
        | Form::Struct(_)
        | Form::Image { .. }
        | Form::Sampler { .. }
        | Form::AccelerationStructure { .. }
        | Form::RayQuery { .. }
        | Form::BindingArray { .. }
        | Form::Nothing => false,
    }
}

/// Whether the base of a pointer can be loaded: it has the `DATA` and `SIZED` flags.
///
/// # Errors
///
/// [`ExpressionError::Other`] if it can't.
#[tactic(auto, using(module_context::proofs::Refusals::by_test))]
pub fn check_load(
    context: &CheckContext<'_>,
    pointer: Handle<key::Expression>,
) -> Result<(), ExpressionError>
    requires { IsKnown context.now }
    ensures { MatchResult result
        (λ _. LoadOK (types_in context.now) (form_among (scene_in context.now).forms pointer))
        (IsRefused (LoadOK (types_in context.now) (form_among (scene_in context.now).forms pointer))) }
{
    refused_unless(is_loaded(context, context.form_at(pointer)))
}

// ---- lengths

// Whether an array size is runtime-sized.
const fn is_dynamic(size: ArraySize) -> bool
    ensures { IsTrue result ↔ IsDynamic size }
{
    match size {
        ArraySize::Dynamic => true,
        ArraySize::Constant(_) | ArraySize::Pending(_) => false,
    }
}

// Whether a type is a runtime-sized array.
const fn is_runtime_array(inner: &TypeInner) -> bool
    ensures { IsTrue result ↔ IsRuntimeArray (Some (inner_view inner.now)) }
{
    match *inner {
        TypeInner::Array { size, .. } => is_dynamic(size),
        TypeInner::Scalar(_)
        | TypeInner::Vector { .. }
        | TypeInner::Matrix { .. }
        | TypeInner::CooperativeMatrix { .. }
        | TypeInner::Atomic(_)
        | TypeInner::Pointer { .. }
        | TypeInner::ValuePointer { .. }
        | TypeInner::Struct { .. }
        | TypeInner::Image { .. }
        | TypeInner::Sampler { .. }
        | TypeInner::AccelerationStructure { .. }
        | TypeInner::RayQuery { .. }
        | TypeInner::BindingArray { .. } => false,
    }
}

// Whether the base of a pointer type is a runtime-sized array.
fn has_length(context: &CheckContext<'_>, array: Form) -> bool
    ensures { IsTrue result ↔ ArrayLengthOK (types_in context.now) array }
{
    match context.pointed_in(array) {
        Some(inner) => is_runtime_array(inner),
        None => false,
    }
}

/// Whether a pointer is a valid operand of `ArrayLength`: its base is a runtime-sized array.
///
/// # Errors
///
/// [`ExpressionError::Other`] if it is not.
#[tactic(auto, using(module_context::proofs::Refusals::by_test))]
pub fn check_array_length(
    context: &CheckContext<'_>,
    array: Handle<key::Expression>,
) -> Result<(), ExpressionError>
    ensures { MatchResult result
        (λ _. ArrayLengthOK (types_in context.now) (form_among (scene_in context.now).forms array))
        (IsRefused (ArrayLengthOK (types_in context.now) (form_among (scene_in context.now).forms array))) }
{
    refused_unless(has_length(context, context.form_at(array)))
}
