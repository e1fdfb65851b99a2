//! Accesses: components of a value, or pointers to components of a pointer's base type.

ghost use Rattle.std.specs.Prelude.{◌≡◌, List, None, map, option_map, slice_get};
ghost use Rattle.ir_kinds.specs.judged.Scalars.{component_count};
ghost use Rattle.ir_types.specs.judged.Plain.{PlainType, inner_view, member_view};
ghost use Rattle.spec_expressions.specs.judged.Access.{pointer_to, pointed_element, element, access_type, part_in_bounds, member_of, pointed_part, access_index_type};
ghost use Rattle.typing_forms.specs.judged.Forms.{form_in};
ghost use Rattle.typing_forms.specs.judged.Resolutions.{types_view, inner_at};
ghost use Rattle.typing_errors.specs.Answers.{form_given, form_answer};

use ir_arena::handle::Handle;
use ir_kinds::{AddressSpace, Scalar, VectorSize};
use ir_sets::unique_arena::UniqueArena;
use ir_types::{IrType, StructMember, TypeInner, key};
use spec_expressions::TypingFault;
use typing_forms::{Form, TypeResolution, inner_of};

// A pointer to a type of the module.
pub(crate) const fn pointer_to(base: Handle<key::IrType>, space: AddressSpace) -> TypeResolution
    ensures { (types : List PlainType) → form_given types result ≡ pointer_to types base space }
{
    TypeResolution::Value(TypeInner::Pointer { base, space })
}

// A pointer to an element of the pointer's base type.
fn pointed_element(
    types: &UniqueArena<IrType, key::IrType>,
    pointee: Handle<key::IrType>,
    space: AddressSpace,
) -> Option<TypeResolution>
    ensures { option_map (form_given (types_view types.now)) result
        ≡ pointed_element (types_view types.now) space (inner_at (types_view types.now) pointee) }
{
    match inner_of(types, pointee) {
        Some(TypeInner::Matrix { rows, scalar, .. }) => {
            Some(TypeResolution::Value(TypeInner::ValuePointer {
                size: Some(*rows),
                scalar: *scalar,
                space,
            }))
        }
        Some(TypeInner::Array { base, .. } | TypeInner::BindingArray { base, .. }) => {
            Some(pointer_to(*base, space))
        }
        _ => None,
    }
}

// A pointer to a component of a vector of this size, if the pointer's base type is a vector.
fn pointed_component(
    size: Option<VectorSize>,
    scalar: Scalar,
    space: AddressSpace,
) -> Option<TypeResolution>
    ensures { (types : List PlainType) → option_map (form_given types) result ≡ element types (Form.ValuePointer size scalar space) }
{
    match size {
        Some(_) => Some(TypeResolution::Value(TypeInner::ValuePointer {
            size: None,
            scalar,
            space,
        })),
        None => None,
    }
}

// An element of a value; for a pointer, a pointer to the element.
fn element(types: &UniqueArena<IrType, key::IrType>, of: Form) -> Option<TypeResolution>
    ensures { option_map (form_given (types_view types.now)) result ≡ element (types_view types.now) of }
{
    match of {
        Form::Vector { scalar, .. } => Some(TypeResolution::Value(TypeInner::Scalar(scalar))),
        Form::Matrix { rows, scalar, .. } => {
            Some(TypeResolution::Value(TypeInner::Vector { size: rows, scalar }))
        }
        Form::Array { base, .. } | Form::BindingArray { base, .. } => {
            Some(TypeResolution::Handle(base))
        }
        Form::ValuePointer {
            size,
            scalar,
            space,
        } => pointed_component(size, scalar, space),
        Form::Pointer { base, space } => pointed_element(types, base, space),
        _ => None,
    }
}

// The type of a dynamic access (`Access`).
pub(crate) fn access_type(
    types: &UniqueArena<IrType, key::IrType>,
    base: Handle<key::Expression>,
    of: Form,
) -> Result<TypeResolution, TypingFault>
    ensures { form_answer (types_view types.now) result ≡ access_type (types_view types.now) base of }
{
    match element(types, of) {
        Some(found) => Ok(found),
        None => Err(TypingFault::InvalidAccess {
            expr: base,
            indexed: true,
        }),
    }
}

// The type of the member at this index.
fn member_type(members: &[StructMember], index: u32) -> Option<Handle<key::IrType>>
    ensures { result ≡ option_map (λ m. m.ty) (slice_get (map member_view members.now) index) }
{
    match members.get(index as usize) {
        Some(member) => Some(member.ty),
        None => None,
    }
}

// The member of the struct with this handle, or why there is none.
fn member_of(
    types: &UniqueArena<IrType, key::IrType>,
    base: Handle<key::Expression>,
    index: u32,
    handle: Handle<key::IrType>,
) -> Result<TypeResolution, TypingFault>
    ensures { form_answer (types_view types.now) result
        ≡ member_of (types_view types.now) base index (inner_at (types_view types.now) handle) }
{
    match inner_of(types, handle) {
        Some(TypeInner::Struct { members, .. }) => {
            match member_type(members.as_slice(), index) {
                Some(ty) => Ok(TypeResolution::Handle(ty)),
                None => Err(TypingFault::OutOfBoundsIndex { expr: base, index }),
            }
        }
        _ => Err(TypingFault::InvalidAccess {
            expr: base,
            indexed: false,
        }),
    }
}

// A pointer to a component of the pointer's base type.
fn pointed_part(
    types: &UniqueArena<IrType, key::IrType>,
    base: Handle<key::Expression>,
    index: u32,
    pointee: Handle<key::IrType>,
    space: AddressSpace,
) -> Result<TypeResolution, TypingFault>
    ensures { form_answer (types_view types.now) result
        ≡ pointed_part (types_view types.now) base index space (inner_at (types_view types.now) pointee) }
{
    match inner_of(types, pointee) {
        Some(TypeInner::Struct { members, .. }) => {
            match member_type(members.as_slice(), index) {
                Some(ty) => Ok(pointer_to(ty, space)),
                None => Err(TypingFault::OutOfBoundsIndex { expr: base, index }),
            }
        }
        Some(
            TypeInner::Matrix {
                columns,
                rows,
                scalar,
            },
        ) => {
            if index < u32::from(*columns) {
                Ok(TypeResolution::Value(TypeInner::ValuePointer {
                    size: Some(*rows),
                    scalar: *scalar,
                    space,
                }))
            } else {
                Err(TypingFault::OutOfBoundsIndex { expr: base, index })
            }
        }
        Some(
            TypeInner::Array { base: element, .. } | TypeInner::BindingArray { base: element, .. },
        ) => { Ok(pointer_to(*element, space)) }
        _ => Err(TypingFault::InvalidAccess {
            expr: base,
            indexed: false,
        }),
    }
}

// The component, or why the index is out of bounds.
fn one_of(
    base: Handle<key::Expression>,
    index: u32,
    count: VectorSize,
    part: TypeInner,
) -> Result<TypeResolution, TypingFault>
    ensures { (types : List PlainType) → form_answer types result ≡ part_in_bounds base index (component_count count) (form_in types None (inner_view part)) }
{
    if index < u32::from(count) {
        Ok(TypeResolution::Value(part))
    } else {
        Err(TypingFault::OutOfBoundsIndex { expr: base, index })
    }
}

// A pointer to a component of a vector of this size, if the pointer's base type is one, or why there is none.
fn pointed_component_at(
    base: Handle<key::Expression>,
    index: u32,
    size: Option<VectorSize>,
    scalar: Scalar,
    space: AddressSpace,
) -> Result<TypeResolution, TypingFault>
    ensures { (types : List PlainType) → form_answer types result ≡ access_index_type types base index (Form.ValuePointer size scalar space) }
{
    match size {
        Some(size) => one_of(
            base,
            index,
            size,
            TypeInner::ValuePointer {
                size: None,
                scalar,
                space,
            },
        ),
        None => Err(TypingFault::InvalidAccess {
            expr: base,
            indexed: false,
        }),
    }
}

// The type of a constant access (`AccessIndex`).
pub(crate) fn access_index_type(
    types: &UniqueArena<IrType, key::IrType>,
    base: Handle<key::Expression>,
    index: u32,
    of: Form,
) -> Result<TypeResolution, TypingFault>
    ensures { form_answer (types_view types.now) result ≡ access_index_type (types_view types.now) base index of }
{
    match of {
        Form::Vector { size, scalar } => one_of(base, index, size, TypeInner::Scalar(scalar)),
        Form::Matrix {
            columns,
            rows,
            scalar,
        } => one_of(
            base,
            index,
            columns,
            TypeInner::Vector { size: rows, scalar },
        ),
        Form::Array { base: element, .. } | Form::BindingArray { base: element, .. } => {
            Ok(TypeResolution::Handle(element))
        }
        Form::Struct(handle) => member_of(types, base, index, handle),
        Form::ValuePointer {
            size,
            scalar,
            space,
        } => pointed_component_at(base, index, size, scalar, space),
        Form::Pointer {
            base: pointee,
            space,
        } => pointed_part(types, base, index, pointee, space),
        _ => Err(TypingFault::InvalidAccess {
            expr: base,
            indexed: false,
        }),
    }
}
