//! Search for the struct member that an error concerns.

use function_varying_checks::VaryingError;
use ir_arena::handle::Handle;
use ir_kinds::{Binding, BuiltIn, Interpolation};
use ir_sets::unique_arena::UniqueArena;
use ir_types::{IrType, StructMember, TypeInner, key};
use typing_forms::inner_of;
use typing_layout::{TypeError, VaryingError as BlendError};

/// The property of the member that is searched for.
#[derive(Clone, Copy)]
enum Sought {
    /// It has this location.
    Location(u32),
    /// It has a location, and this type.
    Type(Handle<key::IrType>),
    /// It is this built-in value.
    BuiltIn(BuiltIn),
    /// It has a location, without interpolation.
    Plain,
    /// It has a location, and its interpolation is not flat.
    NotFlat,
}

// The member that an error of varyings concerns.
fn sought_by(error: &VaryingError) -> Option<Sought> {
    match error {
        VaryingError::MissingInterpolation => Some(Sought::Plain),
        VaryingError::InvalidInterpolationForInteger => Some(Sought::NotFlat),
        VaryingError::InvalidBuiltInStage(value)
        | VaryingError::InvalidBuiltInType(value, _)
        | VaryingError::DuplicateBuiltIn(value) => Some(Sought::BuiltIn(*value)),
        VaryingError::NotIOShareableType(ty) | VaryingError::InvalidType(ty) => {
            Some(Sought::Type(*ty))
        }
        VaryingError::BindingCollision { location }
        | VaryingError::InvalidBlendSrcIndex { location, .. }
        | VaryingError::InvalidBlendSrcWithOtherBindings { location } => {
            Some(Sought::Location(*location))
        }
        _ => None,
    }
}

// The member that an error of a struct's blend sources concerns.
fn sought_by_blend(error: &BlendError) -> Option<Sought> {
    match error {
        BlendError::NotIOShareableType(ty) => Some(Sought::Type(*ty)),
        BlendError::InvalidBlendSrcIndex { location, .. }
        | BlendError::InvalidBlendSrcWithOtherBindings { location } => {
            Some(Sought::Location(*location))
        }
        _ => None,
    }
}

// Whether a member is the one searched for.
fn is_sought(member: &StructMember, sought: &Sought) -> bool {
    let Some(binding) = member.binding else {
        return false;
    };
    match (binding, *sought) {
        (Binding::BuiltIn(found), Sought::BuiltIn(wanted)) => found == wanted,
        (Binding::Location { location, .. }, Sought::Location(wanted)) => location == wanted,
        (Binding::Location { .. }, Sought::Type(wanted)) => member.ty.index() == wanted.index(),
        (Binding::Location { interpolation, .. }, Sought::Plain) => interpolation.is_none(),
        (Binding::Location { interpolation, .. }, Sought::NotFlat) => {
            interpolation != Some(Interpolation::Flat)
        }
        _ => false,
    }
}

// The first such member.
fn member_among(members: &[StructMember], sought: &Sought) -> Option<usize> {
    for (place, member) in members.iter().enumerate() {
        if is_sought(member, sought) {
            return Some(place);
        }
    }
    None
}

// The member of a type, if that is a struct.
fn member_in(
    types: &UniqueArena<IrType, key::IrType>,
    ty: Handle<key::IrType>,
    sought: &Sought,
) -> Option<usize> {
    match inner_of(types, ty)? {
        TypeInner::Struct { members, .. } => member_among(members, sought),
        _ => None,
    }
}

/// The member of a struct of varyings that the error concerns.
pub(crate) fn varying_member(
    types: &UniqueArena<IrType, key::IrType>,
    ty: Handle<key::IrType>,
    error: &VaryingError,
) -> Option<usize> {
    match error {
        VaryingError::MemberMissingBinding(member) => Some(*member as usize),
        _ => member_in(types, ty, &sought_by(error)?),
    }
}

/// The member of a type that the error concerns.
pub(crate) fn type_member(
    types: &UniqueArena<IrType, key::IrType>,
    ty: Handle<key::IrType>,
    error: &TypeError,
) -> Option<usize> {
    match error {
        TypeError::InvalidData { index, .. }
        | TypeError::InvalidDynamicArray { index, .. }
        | TypeError::MemberOverlap { index, .. }
        | TypeError::MemberOutOfBounds { index, .. } => Some(*index),
        TypeError::InvalidBlendSrc(error) => member_in(types, ty, &sought_by_blend(error)?),
        _ => None,
    }
}
