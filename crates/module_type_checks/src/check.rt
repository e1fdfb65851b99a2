//! The checks of a type of any kind.

ghost use Rattle.std.specs.Prelude.{◌<◌, ◌≤◌, All, length, map, MatchResult};
ghost use Rattle.ir_types.specs.judged.Plain.{inner_view, member_view};
ghost use Rattle.typing_layout.specs.judged.Rules.{TypeOK};
ghost use Rattle.module_type_checks.specs.Checked.{IsInnerOK, AreMembersOK, AreMembersRefused, IsTypeFault};
ghost use Rattle.module_type_checks.specs.Known.{IsKnown, types_in};
ghost use Rattle.typing_layout.specs.found.Faults.{IsInnerFault};
ghost use Rattle.typing_layout.specs.TypingForms.{named_types};

use crate::blends::check_blend;
use crate::images::{check_image, check_query, check_structure};
use crate::references::{check_array, check_binding_array, check_pointer};
use crate::{
    TypeContext, check_atomic, check_cooperative, check_matrix, check_members, check_scalar,
    type_at,
};
use ir_arena::handle::Handle;
use ir_types::{StructMember, TypeInner, key};
use typing_layout::TypeError;

// Whether a struct with these members and this span is valid.
fn check_struct(
    context: &TypeContext<'_>,
    members: &[StructMember],
    span: u32,
) -> Result<(), TypeError>
    requires known { IsKnown context.now }
    requires named { All (λ m. m.ty < length context.now.infos.now) members.now }
    ensures { MatchResult result
        (λ _. AreMembersOK context.now (map member_view members.now) span)
        (AreMembersRefused context.now (map member_view members.now) span) }
{
    match check_members(context, members, span) {
        Ok(()) => check_blend(context, members),
        Err(error) => Err(error),
    }
}

// Whether a `TypeInner` is valid.
fn check_inner(
    context: &TypeContext<'_>,
    handle: Handle<key::IrType>,
    inner: &TypeInner,
) -> Result<(), TypeError>
    requires known { IsKnown context.now }
    requires named { All (λ named. named < length context.now.infos.now) (named_types (inner_view inner.now)) }
    ensures { MatchResult result
        (λ _. IsInnerOK context.now (inner_view inner.now))
        (IsInnerFault context.now.capabilities context.now.overrides_resolved (types_in context.now) handle (inner_view inner.now)) }
{
    match *inner {
        TypeInner::Scalar(scalar)
        | TypeInner::Vector { scalar, .. }
        | TypeInner::ValuePointer { scalar, .. } => check_scalar(context.capabilities, scalar),
        TypeInner::Matrix { scalar, .. } => check_matrix(context.capabilities, scalar),
        TypeInner::CooperativeMatrix { scalar, .. } => {
            check_cooperative(context.capabilities, scalar)
        }
        TypeInner::Atomic(scalar) => check_atomic(context.capabilities, scalar),
        TypeInner::Pointer { base, space } => check_pointer(context, base, space),
        TypeInner::Array { base, size, .. } => check_array(context, handle, base, size),
        TypeInner::Struct {
            ref members,
            ref span,
        } => check_struct(context, members.as_slice(), *span),
        TypeInner::Image {
            dim,
            arrayed,
            class,
        } => check_image(context.capabilities, dim, arrayed, class),
        TypeInner::Sampler { .. } => Ok(()),
        TypeInner::AccelerationStructure { vertex_return } => {
            check_structure(context.capabilities, vertex_return)
        }
        TypeInner::RayQuery { vertex_return } => check_query(context.capabilities, vertex_return),
        TypeInner::BindingArray { base, size } => check_binding_array(context, base, size),
    }
}

/// Whether the type at a handle is valid, given the `TypeInfo`s of earlier types.
///
/// # Errors
///
/// An error of the type, returned only if its condition holds.
pub fn check_type(context: &TypeContext<'_>, handle: Handle<key::IrType>) -> Result<(), TypeError>
    requires known { IsKnown context.now }
    requires before { handle ≤ length context.now.infos.now }
    requires within { handle < length context.now.types.now }
    ensures { MatchResult result
        (λ _. TypeOK context.now.capabilities context.now.overrides_resolved (types_in context.now) handle)
        (IsTypeFault context.now handle) }
{
    check_inner(context, handle, type_at(context.types, handle))
}
