//! The innermost element types of arrays and the innermost last members of structs.

ghost use Rattle.std.specs.Prelude.{◌≡◌, ◌↔◌, IsTrue, IfSome, IfNone};
ghost use Rattle.ir_kinds.specs.declared.scalars.Scalar.{Scalar};
ghost use Rattle.ir_types.specs.judged.Plain.{PlainInner, inner_view};
ghost use Rattle.typing_forms.specs.judged.Order.{TypesGoBack};
ghost use Rattle.typing_forms.specs.judged.Resolutions.{types_view};
ghost use Rattle.typing_forms.specs.found.Elements.{LeadsTo, base_of, last_of, converted_scalar, HasAbstractScalar, is_runtime_array, ConvertsBy, IsAbstract, IsDynamicallySized};

use crate::inner_of;
use ir_kinds::Scalar;
use ir_sets::unique_arena::UniqueArena;
use ir_types::ir_arena::handle::Handle;
use ir_types::{ArraySize, IrType, TypeInner, key};

// The type of an array's elements.
fn base_of(inner: &TypeInner) -> Option<Handle<key::IrType>>
    ensures { result ≡ base_of (inner_view inner.now) }
{
    match *inner {
        TypeInner::Array { base, .. } => Some(base),
        _ => None,
    }
}

// The type of a struct's last member.
fn last_of(inner: &TypeInner) -> Option<Handle<key::IrType>>
    ensures { result ≡ last_of (inner_view inner.now) }
{
    match *inner {
        TypeInner::Struct { ref members, .. } => {
            match members.get(members.len().saturating_sub(1)) {
                Some(member) => Some(member.ty),
                None => None,
            }
        }
        _ => None,
    }
}

// The innermost element type of nested arrays. `None` if a handle has no type.
fn innermost<'a>(
    types: &'a UniqueArena<IrType, key::IrType>,
    inner: &'a TypeInner,
) -> Option<&'a TypeInner>
    requires { TypesGoBack (types_view types.now) }
    ensures found { IfSome result (λ end. LeadsTo base_of (types_view types.now) (inner_view inner.now) (inner_view end.now)) }
    ensures none { IfNone result ((end : PlainInner) → LeadsTo base_of (types_view types.now) (inner_view inner.now) end → ⊥) }
{
    let mut current = inner;
    while let Some(base) = base_of(current) {
        match inner_of(types, base) {
            Some(element) => current = element,
            None => return None,
        }
    }
    Some(current)
}

// The innermost last member of nested structs. `None` if a handle has no type.
fn innermost_last<'a>(
    types: &'a UniqueArena<IrType, key::IrType>,
    inner: &'a TypeInner,
) -> Option<&'a TypeInner>
    requires { TypesGoBack (types_view types.now) }
    ensures found { IfSome result (λ end. LeadsTo last_of (types_view types.now) (inner_view inner.now) (inner_view end.now)) }
    ensures none { IfNone result ((end : PlainInner) → LeadsTo last_of (types_view types.now) (inner_view inner.now) end → ⊥) }
{
    let mut current = inner;
    while let Some(last) = last_of(current) {
        match inner_of(types, last) {
            Some(member) => current = member,
            None => return None,
        }
    }
    Some(current)
}

// The scalar that a conversion changes.
fn converted_scalar(inner: &TypeInner) -> Option<Scalar>
    ensures { result ≡ converted_scalar (inner_view inner.now) }
{
    match *inner {
        TypeInner::Scalar(scalar)
        | TypeInner::Vector { scalar, .. }
        | TypeInner::Matrix { scalar, .. } => Some(scalar),
        _ => None,
    }
}

// Whether the type holds scalars, and they are abstract.
fn has_abstract_scalar(inner: &TypeInner) -> bool
    ensures { IsTrue result ↔ HasAbstractScalar (inner_view inner.now) }
{
    match *inner {
        TypeInner::Scalar(scalar)
        | TypeInner::Vector { scalar, .. }
        | TypeInner::Matrix { scalar, .. }
        | TypeInner::CooperativeMatrix { scalar, .. }
        | TypeInner::Atomic(scalar) => scalar.is_abstract(),
        _ => false,
    }
}

// Whether the type is a runtime-sized array.
fn is_runtime_array(inner: &TypeInner) -> bool
    ensures { result ≡ is_runtime_array (inner_view inner.now) }
{
    matches!(
        *inner,
        TypeInner::Array {
            size: ArraySize::Dynamic,
            ..
        }
    )
}

// The scalar that a conversion changes, in the elements of arrays at any depth.
pub(crate) fn scalar_for_conversions(
    types: &UniqueArena<IrType, key::IrType>,
    inner: &TypeInner,
) -> Option<Scalar>
    requires { TypesGoBack (types_view types.now) }
    ensures some { IfSome result (ConvertsBy (types_view types.now) (inner_view inner.now)) }
    ensures none { IfNone result ((s : Scalar) → ConvertsBy (types_view types.now) (inner_view inner.now) s → ⊥) }
{
    match innermost(types, inner) {
        Some(element) => converted_scalar(element),
        None => None,
    }
}

// Whether the scalars are abstract, in the elements of arrays at any depth.
pub(crate) fn is_abstract(types: &UniqueArena<IrType, key::IrType>, inner: &TypeInner) -> bool
    requires { TypesGoBack (types_view types.now) }
    ensures { IsTrue result ↔ IsAbstract (types_view types.now) (inner_view inner.now) }
{
    match innermost(types, inner) {
        Some(element) => has_abstract_scalar(element),
        None => false,
    }
}

// Whether the type is a runtime-sized array, or a struct that ends in one.
pub(crate) fn is_dynamically_sized(
    types: &UniqueArena<IrType, key::IrType>,
    inner: &TypeInner,
) -> bool
    requires { TypesGoBack (types_view types.now) }
    ensures { IsTrue result ↔ IsDynamicallySized (types_view types.now) (inner_view inner.now) }
{
    match innermost_last(types, inner) {
        Some(last) => is_runtime_array(last),
        None => false,
    }
}
