//! Whether types are allowed in immediate data.

ghost use Rattle.std.specs.Prelude.{◌≡◌, ◌<◌, ℕ, All, length, map, MatchResult};
ghost use Rattle.ir_types.specs.judged.Plain.{inner_view, member_view};
ghost use Rattle.module_steps.specs.Layouts.{FitsAt, IsStructAt};
ghost use Rattle.typing_layout.specs.judged.Immediates.{FitsImmediates};
ghost use Rattle.typing_layout.specs.judged.Layout.{tree_scalar};
ghost use Rattle.typing_layout.specs.judged.Tree.{Tree};
ghost use Rattle.typing_layout.specs.judged.View.{tree_by};
ghost use Rattle.module_type_checks.specs.Known.{IsKnown, tree_in};
ghost use Rattle.module_type_checks.specs.Placed.{parts_in, AtPlace};
ghost use Rattle.module_steps.specs.Layouts.{IsScalarFit, IsScalarUnfit};
ghost use Rattle.typing_layout.specs.found.BufferFaults.{IsUnfit};

use ir_arena::handle::Handle;
use ir_kinds::Scalar;
use ir_types::{StructMember, TypeInner, key};
use module_type_checks::{TypeContext, member_at};
use typing_layout::ImmediateError;

// The scalar type of a scalar, vector, matrix or atomic.
fn scalar_of(inner: &TypeInner) -> Option<Scalar>
    ensures { (tree : ℕ → Tree) → result ≡ tree_scalar (tree_by tree (inner_view inner.now)) }
{
    match *inner {
        TypeInner::Scalar(scalar)
        | TypeInner::Vector { scalar, .. }
        | TypeInner::Matrix { scalar, .. }
        | TypeInner::CooperativeMatrix { scalar, .. }
        | TypeInner::Atomic(scalar) => Some(scalar),
        TypeInner::Pointer { .. }
        | TypeInner::ValuePointer { .. }
        | TypeInner::Array { .. }
        | TypeInner::Struct { .. }
        | TypeInner::Image { .. }
        | TypeInner::Sampler { .. }
        | TypeInner::AccelerationStructure { .. }
        | TypeInner::RayQuery { .. }
        | TypeInner::BindingArray { .. } => None,
    }
}

/// The check of a type without elements or members.
pub(crate) fn immediates_of_whole(inner: &TypeInner) -> Result<(), ImmediateError>
    ensures { (tree : ℕ → Tree) → MatchResult result
        (λ _. IsScalarFit (tree_scalar (tree_by tree (inner_view inner.now))))
        (IsScalarUnfit (tree_scalar (tree_by tree (inner_view inner.now)))) }
{
    match scalar_of(inner) {
        Some(scalar) => {
            if scalar.width == 2 {
                return Err(ImmediateError::InvalidScalar(scalar));
            }
            Ok(())
        }
        None => Ok(()),
    }
}

// The check of a member.
fn immediates_of_member(
    context: &TypeContext<'_>,
    handle: Handle<key::IrType>,
    members: &[StructMember],
    place: usize,
) -> Result<(), ImmediateError>
    requires known { IsKnown context.now }
    requires named { All (λ m. m.ty < length context.now.infos.now) members.now }
    requires within { place < length members.now }
    requires own { IsStructAt context.now (map member_view members.now) handle }
    ensures { MatchResult result
        (λ _. AtPlace FitsAt (parts_in context.now (map member_view members.now)) place)
        (IsUnfit (tree_in context.now handle)) }
{
    member_at(context, members, place)
        .facts
        .info
        .immediates_compatibility
}

/// The check of a struct.
pub(crate) fn immediates_of_struct(
    context: &TypeContext<'_>,
    handle: Handle<key::IrType>,
    members: &[StructMember],
) -> Result<(), ImmediateError>
    requires known { IsKnown context.now }
    requires named { All (λ m. m.ty < length context.now.infos.now) members.now }
    requires own { IsStructAt context.now (map member_view members.now) handle }
    ensures { MatchResult result (λ _. FitsImmediates (tree_in context.now handle)) (IsUnfit (tree_in context.now handle)) }
{
    for place in 0..members.len() {
        immediates_of_member(context, handle, members, place)?;
    }
    Ok(())
}
