//! The broken rules of indices.

ghost use Rattle.std.specs.Prelude.{◌≡◌, ◌<◌, ◌↔◌, IfSome, IsTrue, MatchOption, Some, option_and_then, option_map, slice_get};
ghost use Rattle.check_causes.specs.Access.{BrokenAccess, BrokenIndex, BrokenPart, WithinOK};
ghost use Rattle.ir_kinds.specs.judged.Scalars.{component_count};
ghost use Rattle.ir_types.specs.judged.Plain.{inner_view};
ghost use Rattle.module_context.specs.OperandView.{scene_in, types_in, expressions_in};
ghost use Rattle.spec_statements.specs.judged.Access.{element_count, pointed_count, known_length, literal_of, index_of, IsIndexOf, AccessOK, AccessIndexOK};
ghost use Rattle.spec_statements.specs.judged.Scene.{form_among};
ghost use Rattle.typing_forms.specs.judged.Resolutions.{inner_at};

use ir_arena::handle::Handle;
use ir_kinds::{Literal, VectorSize};
use ir_types::{ArraySize, TypeInner, key};
use module_context::{CheckContext, is_integer_scalar};
use typing_forms::{Form, inner_of};

/// A broken rule of an index.
#[derive(Clone, Copy)]
pub enum AccessCause {
    /// The index has this type, which is not an integer scalar.
    NoInteger(Form),
    /// The index is a negative literal.
    Negative(i32),
    /// The index is a literal out of bounds.
    Outside {
        /// The index.
        index: u32,
        /// The length.
        parts: u32,
    },
}

// ---- lengths known from the module

// The number of elements of an array, by its size.
const fn element_count(size: ArraySize) -> Option<u32>
    ensures { result ≡ element_count size }
{
    match size {
        ArraySize::Constant(count) => Some(count),
        ArraySize::Pending(_) | ArraySize::Dynamic => None,
    }
}

// The number of components, if a value is a vector.
fn row_count(size: Option<VectorSize>) -> Option<u32>
    ensures { result ≡ option_map component_count size }
{
    match size {
        Some(size) => Some(u32::from(size)),
        None => None,
    }
}

// The number of parts of a pointer's base type, if known.
fn pointed_count(inner: &TypeInner) -> Option<u32>
    ensures { result ≡ pointed_count (Some (inner_view inner.now)) }
{
    match *inner {
        TypeInner::Vector { size, .. } => Some(u32::from(size)),
        TypeInner::Matrix { columns, .. } => Some(u32::from(columns)),
        TypeInner::Array { size, .. } | TypeInner::BindingArray { size, .. } => element_count(size),
        TypeInner::Scalar(_)
        | TypeInner::CooperativeMatrix { .. }
        | TypeInner::Atomic(_)
        | TypeInner::Pointer { .. }
        | TypeInner::ValuePointer { .. }
        | TypeInner::Struct { .. }
        | TypeInner::Image { .. }
        | TypeInner::Sampler { .. }
        | TypeInner::AccelerationStructure { .. }
        | TypeInner::RayQuery { .. } => None,
    }
}

// The number of parts of the base type of a pointer.
fn length_at(context: &CheckContext<'_>, base: Handle<key::IrType>) -> Option<u32>
    ensures { result ≡ pointed_count (inner_at (types_in context.now) base) }
{
    match inner_of(context.types, base) {
        Some(inner) => pointed_count(inner),
        None => None,
    }
}

// The number of parts of a value, or of the base of a pointer to it.
fn known_length(context: &CheckContext<'_>, of: &Form) -> Option<u32>
    ensures { result ≡ known_length (types_in context.now) of.now }
{
    match *of {
        Form::Vector { size, .. } => Some(u32::from(size)),
        Form::Matrix { columns, .. } => Some(u32::from(columns)),
        Form::Array { size, .. } | Form::BindingArray { size, .. } => element_count(size),
        Form::ValuePointer { size, .. } => row_count(size),
        Form::Pointer { base, .. } => length_at(context, base),
        Form::Scalar(_)
        | Form::CooperativeMatrix { .. }
        | Form::Atomic(_)
        | Form::Struct(_)
        | Form::Image { .. }
        | Form::Sampler { .. }
        | Form::AccelerationStructure { .. }
        | Form::RayQuery { .. }
        | Form::Nothing => None,
    }
}

// ---- dynamic indices (`Access`)

// The rule that an index below a length breaks, if any.
fn broken_part(parts: Option<u32>, index: u32) -> Option<AccessCause>
    ensures { MatchOption result (IfSome parts (λ many. index < many)) (BrokenPart parts index) }
{
    match parts {
        Some(parts) => {
            if index < parts {
                None
            } else {
                Some(AccessCause::Outside { index, parts })
            }
        }
        None => None,
    }
}

// The rule that a signed index breaks, if any.
fn broken_signed(parts: Option<u32>, index: i32) -> Option<AccessCause>
    ensures { MatchOption result (IsIndexOf parts index) (BrokenIndex parts (Some index)) }
{
    if index < 0 {
        return Some(AccessCause::Negative(index));
    }
    broken_part(parts, index as u32)
}

// The rule that a literal index breaks, if it is an integer literal.
fn broken_literal(parts: Option<u32>, literal: Literal) -> Option<AccessCause>
    ensures { MatchOption result (IfSome (index_of literal) (IsIndexOf parts)) (BrokenIndex parts (index_of literal)) }
{
    match literal {
        Literal::I32(index) => broken_signed(parts, index),
        Literal::U32(index) => broken_part(parts, index),
        Literal::F64(_)
        | Literal::F32(_)
        | Literal::F16(_)
        | Literal::U16(_)
        | Literal::I16(_)
        | Literal::U64(_)
        | Literal::I64(_)
        | Literal::Bool(_)
        | Literal::AbstractInt(_)
        | Literal::AbstractFloat(_) => None,
    }
}

// The rule that the literal at a handle, if any, breaks as an index.
fn broken_written(
    context: &CheckContext<'_>,
    parts: Option<u32>,
    index: Handle<key::Expression>,
) -> Option<AccessCause>
    ensures { MatchOption result
        (WithinOK parts (slice_get (expressions_in context.now) index))
        (BrokenIndex parts (option_and_then index_of (option_and_then literal_of (slice_get (expressions_in context.now) index)))) }
{
    match context.literal_at(index) {
        Some(literal) => broken_literal(parts, literal),
        None => None,
    }
}

/// The first broken rule of an index, if any: it is an integer scalar, and in bounds if it is a literal.
pub fn broken_access(
    context: &CheckContext<'_>,
    base: &Form,
    index: Handle<key::Expression>,
) -> Option<AccessCause>
    ensures { MatchOption result
        (AccessOK (types_in context.now) base.now (form_among (scene_in context.now).forms index) (slice_get (expressions_in context.now) index))
        (BrokenAccess (types_in context.now) base.now (form_among (scene_in context.now).forms index) (slice_get (expressions_in context.now) index)) }
{
    let given = context.form_at(index);
    if !is_integer_scalar(given) {
        return Some(AccessCause::NoInteger(context.form_at(index)));
    }
    broken_written(context, known_length(context, base), index)
}

/// The broken rule of a static index, if the length is known and the index is out of bounds.
pub fn broken_access_index(
    context: &CheckContext<'_>,
    base: &Form,
    index: u32,
) -> Option<AccessCause>
    ensures { MatchOption result
        (AccessIndexOK (types_in context.now) base.now index)
        (BrokenPart (known_length (types_in context.now) base.now) index) }
{
    broken_part(known_length(context, base), index)
}
