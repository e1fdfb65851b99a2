//! The varyings of an entry point.

ghost use Rattle.std.specs.Prelude.{◌≡◌, ◌++◌, IfOk, OnOk, is_some, map};
ghost use Rattle.ir_items.specs.found.View.{argument_view};
ghost use Rattle.ir_types.specs.judged.Plain.{member_view};
ghost use Rattle.typing_layout.specs.judged.Flags.{blend_source};
ghost use Rattle.spec_interface.specs.judged.Varyings.{argument_varyings, bound_member, bound_members, bound_value, has_source, unbound, varying, varyings_of};
ghost use Rattle.typing_forms.specs.judged.Resolutions.{inner_at, types_view};

use ir_arena::handle::Handle;
use ir_items::FunctionArgument;
use ir_kinds::Binding;
use ir_sets::unique_arena::UniqueArena;
use ir_types::{IrType, StructMember, TypeInner, key};
use spec_interface::{Bound, Location, Varying};
use std::alloc::{AllocError, Global};
use typing_forms::inner_of;

// A value of a type, with its binding.
const fn bound_value(ty: Handle<key::IrType>, binding: Binding) -> Bound
    ensures { result ≡ bound_value ty binding }
{
    match binding {
        Binding::BuiltIn(built_in) => Bound::BuiltIn { ty, built_in },
        Binding::Location {
            location,
            interpolation,
            sampling,
            blend_src,
            per_primitive,
        } => Bound::Location {
            ty,
            at: Location {
                location,
                interpolation,
                sampling,
                blend_src,
                per_primitive,
            },
        },
    }
}

// The member at a place.
const fn bound_member(place: usize, ty: Handle<key::IrType>, binding: Option<Binding>) -> Bound
    ensures { result ≡ bound_member place ty binding }
{
    match binding {
        Some(binding) => bound_value(ty, binding),
        None => Bound::NoMember { place },
    }
}

// Whether a binding has a blend source.
fn is_source(binding: Option<Binding>) -> bool
    ensures { result ≡ is_some (blend_source binding) }
{
    match binding {
        Some(Binding::Location { blend_src, .. }) => blend_src.is_some(),
        Some(Binding::BuiltIn(_)) | None => false,
    }
}

// Whether a member has a blend source.
fn has_source(members: &[StructMember]) -> bool
    ensures { result ≡ has_source (map member_view members.now) }
{
    for member in members {
        if is_source(member.binding) {
            return true;
        }
    }
    false
}

// Appends the members of a struct, each by itself. The error is out of memory.
fn add_members(
    varyings: &mut Vec<Varying>,
    index: usize,
    members: &[StructMember],
) -> Result<(), AllocError>
    ensures { OnOk result (varyings.new.items ≡ varyings.old.items ++ map (varying index) (bound_members 0 (map member_view members.now))) }
{
    for place in 0..members.len() {
        let member = &members[place];
        let bound = bound_member(place, member.ty, member.binding);
        varyings.push(Varying { index, bound })?;
    }
    Ok(())
}

// Appends a value without a binding. The error is out of memory.
fn add_unbound(
    types: &UniqueArena<IrType, key::IrType>,
    varyings: &mut Vec<Varying>,
    index: usize,
    ty: Handle<key::IrType>,
) -> Result<(), AllocError>
    ensures { OnOk result (varyings.new.items ≡ varyings.old.items ++ map (varying index) (unbound (inner_at (types_view types.now) ty))) }
{
    let bound = match inner_of(types, ty) {
        Some(TypeInner::Struct { members, .. }) => {
            if !has_source(members) {
                return add_members(varyings, index, members);
            }
            Bound::BlendSources
        }
        Some(TypeInner::Scalar(_))
        | Some(TypeInner::Vector { .. })
        | Some(TypeInner::Matrix { .. })
        | Some(TypeInner::CooperativeMatrix { .. })
        | Some(TypeInner::Atomic(_))
        | Some(TypeInner::Pointer { .. })
        | Some(TypeInner::ValuePointer { .. })
        | Some(TypeInner::Array { .. })
        | Some(TypeInner::Image { .. })
        | Some(TypeInner::Sampler { .. })
        | Some(TypeInner::AccelerationStructure { .. })
        | Some(TypeInner::RayQuery { .. })
        | Some(TypeInner::BindingArray { .. })
        | None => Bound::Nothing,
    };
    varyings.push(Varying { index, bound })?;
    Ok(())
}

/// Appends the varyings of one value.
///
/// # Errors
///
/// `AllocError` if out of memory. The list may have some of the varyings then.
pub fn add_value(
    types: &UniqueArena<IrType, key::IrType>,
    varyings: &mut Vec<Varying>,
    index: usize,
    ty: Handle<key::IrType>,
    binding: Option<Binding>,
) -> Result<(), AllocError>
    ensures { OnOk result (varyings.new.items ≡ varyings.old.items ++ varyings_of (types_view types.now) index ty binding) }
{
    match binding {
        Some(binding) => {
            let bound = bound_value(ty, binding);
            varyings.push(Varying { index, bound })?;
            Ok(())
        }
        None => add_unbound(types, varyings, index, ty),
    }
}

/// The varyings of arguments. The error is out of memory.
pub fn argument_varyings(
    alloc: Global,
    types: &UniqueArena<IrType, key::IrType>,
    arguments: &[FunctionArgument],
) -> Result<Vec<Varying>, AllocError>
    ensures { IfOk result (λ found. found.items ≡ argument_varyings (types_view types.now) (map argument_view arguments.now)) }
{
    let mut varyings = Vec::new(alloc);
    for index in 0..arguments.len() {
        let argument = &arguments[index];
        add_value(types, &mut varyings, index, argument.ty, argument.binding)?;
    }
    Ok(varyings)
}
