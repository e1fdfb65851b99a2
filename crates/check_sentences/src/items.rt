//! The requirement text for an invalid item of a module.

use bitflags::Flags;
use check_cause_texts::{ScalarText, SetText, space_word, word_of};
use check_function_texts::{Scene, write_width};
use ir_arena::handle::Handle;
use ir_items::{Constant, GlobalVariable, Override};
use ir_types::{StructMember, TypeInner, key};
use module_constants::{ConstantError, OverrideError};
use module_globals::GlobalVariableError;
use std::fmt;
use typing_forms::{TypeInnerExt, inner_of};
use typing_layout::{
    Disalignment, ImmediateError, LayoutErrorInner, TypeError, TypeFlags, VaryingError,
};

pub(crate) fn write_layout<W: fmt::Write>(
    f: &mut fmt::Formatter<W>,
    error: LayoutErrorInner,
) -> fmt::Result {
    match error {
        LayoutErrorInner::TooLarge => {
            write!(f, "the size of a type must be at most 2147483647 bytes")
        }
        LayoutErrorInner::NonPowerOfTwoWidth => {
            write!(f, "the width of a scalar must be a power of two")
        }
    }
}

// ---- types

fn write_blend<W: fmt::Write>(f: &mut fmt::Formatter<W>, error: &VaryingError) -> fmt::Result {
    match error {
        VaryingError::NotIOShareableType(ty) => write!(
            f,
            "a blend source must be a numeric scalar or vector, and types[{}] is not",
            ty.index()
        ),
        VaryingError::BindingCollisionBlendSrc { blend_src } => {
            write!(f, "only one member can be blend source {blend_src}")
        }
        VaryingError::InvalidBlendSrcIndex {
            location,
            blend_src,
        } => write!(
            f,
            "a blend source must be 0 or 1, at location 0; this is source {blend_src} at location {location}"
        ),
        VaryingError::IncompleteBlendSrcUsage { present_blend_src } => write!(
            f,
            "both blend sources must be present; only source {present_blend_src} is"
        ),
        VaryingError::InvalidBlendSrcWithOtherBindings { location } => write!(
            f,
            "a struct with blend sources cannot have other members with a location; one has location {location}"
        ),
        VaryingError::BlendSrcOutputTypeMismatch {
            blend_src_0_type,
            blend_src_1_type,
        } => write!(
            f,
            "both blend sources must have the same type; they have types[{}] and types[{}]",
            blend_src_0_type.index(),
            blend_src_1_type.index()
        ),
    }
}

// The end offset of a member, if its type is known.
fn end_of(scene: &Scene<'_>, member: &StructMember) -> Option<u64> {
    let inner = inner_of(scene.context.types, member.ty)?;
    Some(u64::from(member.offset).saturating_add(inner.size()))
}

// The end offset of the previous member of a struct.
fn end_before(scene: &Scene<'_>, ty: Handle<key::IrType>, index: usize) -> Option<u64> {
    match inner_of(scene.context.types, ty)? {
        TypeInner::Struct { members, .. } => end_of(scene, members.get(index.checked_sub(1)?)?),
        _ => None,
    }
}

fn write_overlap<W: fmt::Write>(
    f: &mut fmt::Formatter<W>,
    scene: &Scene<'_>,
    ty: Handle<key::IrType>,
    index: usize,
    offset: u32,
) -> fmt::Result {
    write!(
        f,
        "member {index} at offset {offset} overlaps the member before it"
    )?;
    match end_before(scene, ty, index) {
        Some(end) => write!(f, ", which ends at {end}"),
        None => Ok(()),
    }
}

fn write_member<W: fmt::Write>(
    f: &mut fmt::Formatter<W>,
    scene: &Scene<'_>,
    ty: Handle<key::IrType>,
    error: &TypeError,
) -> fmt::Result {
    match error {
        TypeError::InvalidData { index, ty } => write!(
            f,
            "the type of member {index} must be one that can be stored, and types[{}] is not",
            ty.index()
        ),
        TypeError::InvalidDynamicArray { index, .. } => write!(
            f,
            "only the last member of a struct can be a dynamically sized array, and member {index} is not the last"
        ),
        TypeError::MemberOverlap { index, offset } => {
            write_overlap(f, scene, ty, *index, *offset)
        }
        TypeError::MemberOutOfBounds {
            index,
            offset,
            size,
            span,
        } => write!(
            f,
            "member {index} at offset {offset} with size {size} must end within the span {span}"
        ),
        TypeError::EmptyStruct => write!(f, "a struct must have at least one member"),
        TypeError::InvalidBlendSrc(error) => write_blend(f, error),
        _ => write!(
            f,
            "a cooperative matrix must be of f32 or f16; a binding array must be of a struct, an image that is not external, a sampler or an acceleration structure, and its size cannot be an override"
        ),
    }
}

/// Writes the requirement for an invalid type.
pub(crate) fn write_type<W: fmt::Write>(
    f: &mut fmt::Formatter<W>,
    scene: &Scene<'_>,
    ty: Handle<key::IrType>,
    error: &TypeError,
) -> fmt::Result {
    match error {
        TypeError::WidthError(error) => write_width(f, error),
        TypeError::MissingCapability(missing) => {
            write!(f, "the document's capabilities lack {}", SetText(*missing))
        }
        TypeError::InvalidAtomicWidth(..) => write!(
            f,
            "an atomic must be of i32 or u32, or of i64, u64 or f32 under their capabilities"
        ),
        TypeError::InvalidPointerBase(base) => write!(
            f,
            "the base of a pointer must be a type that can be stored, and types[{}] is not",
            base.index()
        ),
        TypeError::InvalidPointerToUnsized { space, .. } => write!(
            f,
            "a pointer to an unsized type must be into Storage, and not into {}",
            space_word(*space)
        ),
        TypeError::InvalidArrayBaseType(base) => write!(
            f,
            "the elements of an array must have a known size and a type that can be stored, and types[{}] is not such a type",
            base.index()
        ),
        TypeError::MatrixElementNotFloat => { write!(f, "the elements of a matrix must be floats") }
        TypeError::UnsupportedImageType { dim, .. } => write!(
            f,
            "an image of dimension {} cannot have this class, or cannot be arrayed",
            word_of(*dim)
        ),
        TypeError::UnresolvedOverride(_) => write!(
            f,
            "once overrides are resolved, no array length can be an override"
        ),
        _ => write_member(f, scene, ty, error),
    }
}

// ---- constants and overrides

// A value whose type is not the declared one.
fn write_initializer<W: fmt::Write>(
    f: &mut fmt::Formatter<W>,
    scene: &Scene<'_>,
    what: &str,
    ty: Handle<key::IrType>,
    value: Handle<key::Expression>,
) -> fmt::Result {
    write!(f, "the initializer must have the type of the {what}, ")?;
    scene.write_type(f, ty)?;
    scene.write_given(f, ", and it is ", value)
}

/// Writes the requirement for an invalid constant.
pub(crate) fn write_constant<W: fmt::Write>(
    f: &mut fmt::Formatter<W>,
    scene: &Scene<'_>,
    constant: Option<&Constant>,
    error: ConstantError,
) -> fmt::Result {
    match error {
        ConstantError::InitializerExprType => write!(
            f,
            "the initializer of a constant must be a const-expression, without overrides"
        ),
        ConstantError::InvalidType => match constant {
            Some(found) => write_initializer(f, scene, "constant", found.ty, found.init),
            None => write!(f, "the initializer must have the type of the constant"),
        },
        ConstantError::NonConstructibleType => {
            write!(f, "the type of a constant must be constructible")
        }
    }
}

// The initializer of an override that has another type.
fn write_override_value<W: fmt::Write>(
    f: &mut fmt::Formatter<W>,
    scene: &Scene<'_>,
    item: Option<&Override>,
) -> fmt::Result {
    if let Some(found) = item {
        if let Some(value) = found.init {
            return write_initializer(f, scene, "override", found.ty, value);
        }
    }
    write!(f, "the initializer must have the type of the override")
}

/// Writes the requirement for an invalid override.
pub(crate) fn write_override<W: fmt::Write>(
    f: &mut fmt::Formatter<W>,
    scene: &Scene<'_>,
    item: Option<&Override>,
    error: OverrideError,
) -> fmt::Result {
    let text = match error {
        OverrideError::InvalidType => return write_override_value(f, scene, item),
        OverrideError::MissingNameAndID => {
            "an override must have a name or an id, by which a pipeline can set it"
        }
        OverrideError::DuplicateID => "no earlier override can have the same id",
        OverrideError::InitializerExprType => {
            "the initializer of an override must be a const-expression or an override-expression"
        }
        OverrideError::NonConstructibleType => "the type of an override must be constructible",
        OverrideError::TypeNotScalar => {
            "the type of an override must be bool, i32, u32, f16, f32 or f64"
        }
        OverrideError::UninitializedOverride => {
            "an override must have a value once overrides are resolved"
        }
    };
    write!(f, "{text}")
}

// ---- variables

fn write_disalignment<W: fmt::Write>(
    f: &mut fmt::Formatter<W>,
    error: &Disalignment,
) -> fmt::Result {
    match error {
        Disalignment::ArrayStride { stride, alignment } => {
            write!(
                f,
                "the array stride {stride} must be a multiple of {alignment}"
            )
        }
        Disalignment::StructSpan { span, alignment } => {
            write!(
                f,
                "the struct span {span} must be a multiple of {alignment}"
            )
        }
        Disalignment::MemberOffset {
            index,
            offset,
            alignment,
        } => write!(
            f,
            "the offset {offset} of member {index} must be a multiple of {alignment}"
        ),
        Disalignment::MemberOffsetAfterStruct {
            index,
            offset,
            expected,
        } => write!(
            f,
            "the offset {offset} of member {index}, which follows a struct, must be at least {expected}"
        ),
        Disalignment::NonHostShareable => write!(
            f,
            "the type must be host-shareable: without bool, pointers, images and samplers inside"
        ),
    }
}

// The meaning of a type flag.
fn flag_words(flag: &str) -> &str {
    match flag {
        "DATA" => "can be stored",
        "SIZED" => "has a known size",
        "COPY" => "can be copied",
        "IO_SHAREABLE" => "goes between stages",
        "HOST_SHAREABLE" => "can be laid out by a host",
        "CREATION_RESOLVED" => "has its size without overrides",
        "ARGUMENT" => "can be passed to functions",
        "CONSTRUCTIBLE" => "can be composed",
        other => other,
    }
}

// The meaning of these type flags.
fn write_flags<W: fmt::Write>(f: &mut fmt::Formatter<W>, set: TypeFlags) -> fmt::Result {
    let mut before = "";
    for flag in TypeFlags::flags() {
        if set.contains(*flag.value()) {
            write!(f, "{before}{}", flag_words(flag.name()))?;
            before = ", ";
        }
    }
    Ok(())
}

// The requirement of a variable for an error without fields.
fn variable_text(error: &GlobalVariableError) -> &'static str {
    match error {
        GlobalVariableError::InitializerExprType => {
            "the initializer of a variable must be a const-expression or an override-expression"
        }
        GlobalVariableError::InitializerType =>
            "the initializer must have the type of the variable",
        GlobalVariableError::StorageAddressSpaceWriteOnlyNotSupported => {
            "a storage buffer that has STORE must have LOAD as well"
        }
        GlobalVariableError::ZeroSizedTaskPayload => "the size of a task payload cannot be zero",
        GlobalVariableError::InvalidMemoryDecorationsAddressSpace => {
            "only variables in Storage can have memory decorations"
        }
        GlobalVariableError::CoherentNotSupported => {
            "the document's capabilities lack MEMORY_DECORATION_COHERENT"
        }
        GlobalVariableError::VolatileNotSupported => {
            "the document's capabilities lack MEMORY_DECORATION_VOLATILE"
        }
        _ => "the item breaks the rule of its kind",
    }
}

// A binding that is not allowed, or a missing one.
fn write_binding<W: fmt::Write>(
    f: &mut fmt::Formatter<W>,
    variable: Option<&GlobalVariable>,
) -> fmt::Result {
    write!(
        f,
        "variables in Uniform, Storage and Handle must have a group and a binding, and no others can"
    )?;
    match variable {
        Some(found) => {
            let has = if found.binding.is_some() {
                "has"
            } else {
                "lacks"
            };
            write!(
                f,
                "; this one lies in {} and {has} them",
                space_word(found.space)
            )
        }
        None => Ok(()),
    }
}

/// Writes the requirement for an invalid global variable.
pub(crate) fn write_variable<W: fmt::Write>(
    f: &mut fmt::Formatter<W>,
    variable: Option<&GlobalVariable>,
    handle: Handle<key::GlobalVariable>,
    error: &GlobalVariableError,
) -> fmt::Result {
    match error {
        GlobalVariableError::InvalidUsage(space) => write!(
            f,
            "global variables in address space {} cannot be used in this way",
            space_word(*space)
        ),
        GlobalVariableError::InvalidType(space) => write!(
            f,
            "a variable of this type cannot be in address space {}",
            space_word(*space)
        ),
        GlobalVariableError::InvalidBindingArray(ty) => write!(
            f,
            "a binding array of types[{}] cannot be in this address space",
            ty.index()
        ),
        GlobalVariableError::MissingTypeFlags { required, seen } => {
            write!(f, "the address space requires a type that ")?;
            write_flags(f, *required)?;
            write!(f, "; this one ")?;
            write_flags(f, *seen)
        }
        GlobalVariableError::UnsupportedCapability(missing) => {
            write!(f, "the document's capabilities lack {}", SetText(*missing))
        }
        GlobalVariableError::Alignment(space, _, error) => {
            write_disalignment(f, error)?;
            write!(
                f,
                "; globals[{}] lies in {}",
                handle.index(),
                space_word(*space)
            )
        }
        GlobalVariableError::InitializerNotAllowed(space) => write!(
            f,
            "only variables in Private can have an initializer, and not those in {}",
            space_word(*space)
        ),
        GlobalVariableError::InvalidImmediateType(ImmediateError::InvalidScalar(scalar)) => {
            write!(
                f,
                "immediate data cannot contain two-byte scalars, such as {}",
                ScalarText(*scalar)
            )
        }
        GlobalVariableError::InvalidBinding => write_binding(f, variable),
        _ => write!(f, "{}", variable_text(error)),
    }
}
