//! Indices of `Access` and `AccessIndex`.

ghost use Rattle.std.specs.Prelude.{◌≡◌, ◌<◌, ◌↔◌, IfSome, IsTrue, MatchResult, Some, option_and_then, option_map, slice_get};
ghost use Rattle.ir_kinds.specs.judged.Scalars.{component_count};
ghost use Rattle.module_context.specs.Refused.{IsRefused};
ghost use Rattle.module_context.specs.OperandView.{scene_in, types_in, expressions_in};
ghost use Rattle.ir_types.specs.judged.Plain.{inner_view};
ghost use Rattle.spec_statements.specs.judged.Access.{element_count, pointed_count, known_length, literal_of, index_of, IsIndexOf, AccessOK, AccessIndexOK};
ghost use Rattle.spec_statements.specs.judged.Scene.{form_among};
ghost use Rattle.typing_forms.specs.judged.Resolutions.{inner_at};

use ir_arena::handle::Handle;
use ir_kinds::{Literal, VectorSize};
use ir_types::{ArraySize, TypeInner, key};
use module_context::{CheckContext, is_integer_scalar, refused_unless};
use typing_errors::ExpressionError;
use typing_forms::{Form, inner_of};

// ---- lengths known from the module

// The number of elements of an array, by its size.
const fn element_count(size: ArraySize) -> Option<u32>
    ensures { result ≡ element_count size }
{
    match size {
        ArraySize::Constant(count) => Some(count),
        ArraySize::Pending(_) | ArraySize::Dynamic => None,
    }
}

// The number of components, if a value is a vector.
fn row_count(size: Option<VectorSize>) -> Option<u32>
    ensures { result ≡ option_map component_count size }
{
    match size {
        Some(size) => Some(u32::from(size)),
        None => None,
    }
}

// The number of parts of a pointer's base type, if known.
fn pointed_count(inner: &TypeInner) -> Option<u32>
    ensures { result ≡ pointed_count (Some (inner_view inner.now)) }
{
    match *inner {
        TypeInner::Vector { size, .. } => Some(u32::from(size)),
        TypeInner::Matrix { columns, .. } => Some(u32::from(columns)),
        TypeInner::Array { size, .. } | TypeInner::BindingArray { size, .. } => element_count(size),
        TypeInner::Scalar(_)
        | TypeInner::CooperativeMatrix { .. }
        | TypeInner::Atomic(_)
        | TypeInner::Pointer { .. }
        | TypeInner::ValuePointer { .. }
        | TypeInner::Struct { .. }
        | TypeInner::Image { .. }
        | TypeInner::Sampler { .. }
        | TypeInner::AccelerationStructure { .. }
        | TypeInner::RayQuery { .. } => None,
    }
}

// The number of parts of the base type of a pointer.
fn length_at(context: &CheckContext<'_>, base: Handle<key::IrType>) -> Option<u32>
    ensures { result ≡ pointed_count (inner_at (types_in context.now) base) }
{
    match inner_of(context.types, base) {
        Some(inner) => pointed_count(inner),
        None => None,
    }
}

// The number of parts of a value, or of the base of a pointer to it.
fn known_length(context: &CheckContext<'_>, of: Form) -> Option<u32>
    ensures { result ≡ known_length (types_in context.now) of }
{
    match of {
        Form::Vector { size, .. } => Some(u32::from(size)),
        Form::Matrix { columns, .. } => Some(u32::from(columns)),
        Form::Array { size, .. } | Form::BindingArray { size, .. } => element_count(size),
        Form::ValuePointer { size, .. } => row_count(size),
        Form::Pointer { base, .. } => length_at(context, base),
        Form::Scalar(_)
        | Form::CooperativeMatrix { .. }
        | Form::Atomic(_)
        | Form::Struct(_)
        | Form::Image { .. }
        | Form::Sampler { .. }
        | Form::AccelerationStructure { .. }
        | Form::RayQuery { .. }
        | Form::Nothing => None,
    }
}

// Whether an index is below the length, if that is known.
const fn is_below(parts: Option<u32>, index: u32) -> bool
    ensures { IsTrue result ↔ IfSome parts (λ many. index < many) }
{
    match parts {
        Some(many) => index < many,
        None => true,
    }
}

// ---- dynamic indices (`Access`)

// Whether a signed integer is an index below a length.
const fn is_signed_index(parts: Option<u32>, index: i32) -> bool
    ensures { IsTrue result ↔ IsIndexOf parts index }
{
    if index < 0 {
        return false;
    }
    is_below(parts, index as u32)
}

// Whether a literal is an index below a length, if it is an integer literal.
const fn is_index(parts: Option<u32>, literal: Literal) -> bool
    ensures { IsTrue result ↔ IfSome (index_of literal) (IsIndexOf parts) }
{
    match literal {
        Literal::I32(index) => is_signed_index(parts, index),
        Literal::U32(index) => is_below(parts, index),
        Literal::F64(_)
        | Literal::F32(_)
        | Literal::F16(_)
        | Literal::U16(_)
        | Literal::I16(_)
        | Literal::U64(_)
        | Literal::I64(_)
        | Literal::Bool(_)
        | Literal::AbstractInt(_)
        | Literal::AbstractFloat(_) => true,
    }
}

// Whether the literal at a handle, if any, is an index below a length.
fn is_within(context: &CheckContext<'_>, parts: Option<u32>, index: Handle<key::Expression>) -> bool
    ensures { IsTrue result
        ↔ IfSome (option_and_then index_of (option_and_then literal_of (slice_get (expressions_in context.now) index))) (IsIndexOf parts) }
{
    match context.literal_at(index) {
        Some(literal) => is_index(parts, literal),
        None => true,
    }
}

// Whether an expression is an index of a value of a type.
fn is_access(context: &CheckContext<'_>, base: Form, index: Handle<key::Expression>) -> bool
    ensures { IsTrue result
        ↔ AccessOK (types_in context.now) base (form_among (scene_in context.now).forms index) (slice_get (expressions_in context.now) index) }
{
    is_integer_scalar(context.form_at(index))
        && is_within(context, known_length(context, base), index)
}

/// Whether an expression may index another: it is an integer, and in bounds if it is a literal.
///
/// # Errors
///
/// [`ExpressionError::Other`] if it may not.
#[tactic(auto, using(module_context::proofs::Refusals::by_test))]
pub fn check_access(
    context: &CheckContext<'_>,
    base: Handle<key::Expression>,
    index: Handle<key::Expression>,
) -> Result<(), ExpressionError>
    ensures { MatchResult result
        (λ _. AccessOK (types_in context.now) (form_among (scene_in context.now).forms base) (form_among (scene_in context.now).forms index) (slice_get (expressions_in context.now) index))
        (IsRefused (AccessOK (types_in context.now) (form_among (scene_in context.now).forms base) (form_among (scene_in context.now).forms index) (slice_get (expressions_in context.now) index))) }
{
    refused_unless(is_access(context, context.form_at(base), index))
}

// ---- static indices (`AccessIndex`)

// Whether an index is in bounds of a type, if the length is known.
fn is_part(context: &CheckContext<'_>, base: Form, index: u32) -> bool
    ensures { IsTrue result ↔ AccessIndexOK (types_in context.now) base index }
{
    is_below(known_length(context, base), index)
}

/// Whether an index is in bounds of an expression, if the length is known.
///
/// # Errors
///
/// [`ExpressionError::Other`] if it is not.
#[tactic(auto, using(module_context::proofs::Refusals::by_test))]
pub fn check_access_index(
    context: &CheckContext<'_>,
    base: Handle<key::Expression>,
    index: u32,
) -> Result<(), ExpressionError>
    ensures { MatchResult result
        (λ _. AccessIndexOK (types_in context.now) (form_among (scene_in context.now).forms base) index)
        (IsRefused (AccessIndexOK (types_in context.now) (form_among (scene_in context.now).forms base) index)) }
{
    refused_unless(is_part(context, context.form_at(base), index))
}
