//! Methods of types: what a type consists of, and what operations it allows.

ghost use Rattle.std.specs.Prelude.{◌≡◌, ◌↔◌, IsTrue, IfSome, IfNone, IfOk, None, option_map};
ghost use Rattle.ir_kinds.specs.declared.scalars.Scalar.{Scalar};
ghost use Rattle.ir_types.specs.judged.Plain.{PlainInner, inner_view};
ghost use Rattle.typing_forms.specs.judged.Forms.{form_in};
ghost use Rattle.typing_forms.specs.judged.Order.{TypesGoBack};
ghost use Rattle.typing_forms.specs.judged.Ranks.{conversion};
ghost use Rattle.typing_forms.specs.judged.Resolutions.{types_view, resolution_view};
ghost use Rattle.typing_forms.specs.found.Canonical.{canonical, NotBothStructs};
ghost use Rattle.typing_forms.specs.found.Constructible.{IsConstructible};
ghost use Rattle.typing_forms.specs.found.Conversions.{SameShape, Converts};
ghost use Rattle.typing_forms.specs.found.Elements.{ConvertsBy, IsAbstract, IsDynamicallySized};
ghost use Rattle.typing_forms.specs.found.Lengths.{length_of};
ghost use Rattle.typing_forms.specs.judged.Parts.{scalar_of, scalar_kind_of, scalar_width_of, size_and_scalar, components_of, component_at, space_of, pointee_of, points_to_atomic, storage_dimension, dimension_of};
ghost use Rattle.typing_forms.specs.judged.Sizes.{type_size, allowed};

use crate::constructible::is_constructible;
use crate::conversions::automatically_converts_to;
use crate::elements::{is_abstract, is_dynamically_sized, scalar_for_conversions};
use crate::index::{IndexableLength, IndexableLengthError, length_of};
use crate::laws::form_equality;
use crate::sizes::{MAX_TYPE_SIZE, type_size};
use crate::{TypeResolution, form_in, inner_of};
use ir_kinds::{AddressSpace, Bytes, ImageDimension, Scalar, ScalarKind, VectorSize};
use ir_sets::unique_arena::UniqueArena;
use ir_types::{ArraySize, IrType, TypeInner, key};
use std::alloc::{AllocError, Global};

/// Queries on a type (methods of naga's `TypeInner`). A parameter `types` is the module's types.
pub trait TypeInnerExt: Sized {
    /// The inner type.
    ghost made_of: { Self → PlainInner };

    /// The scalar of a scalar, a vector, a matrix or a cooperative matrix (naga's `TypeInner::scalar`).
    fn scalar(&self) -> Option<Scalar>
        ensures { result ≡ scalar_of (made_of self.now) };

    /// The kind of that scalar (naga's `TypeInner::scalar_kind`).
    fn scalar_kind(&self) -> Option<ScalarKind>
        ensures { result ≡ scalar_kind_of (made_of self.now) };

    /// The width of that scalar in bytes (naga's `TypeInner::scalar_width`).
    fn scalar_width(&self) -> Option<Bytes>
        ensures { result ≡ scalar_width_of (made_of self.now) };

    /// The scalar that a conversion changes: that of a scalar, a vector or a matrix, or of the elements of an
    /// array, at any depth (naga's `TypeInner::scalar_for_conversions`).
    fn scalar_for_conversions(&self, types: &UniqueArena<IrType, key::IrType>) -> Option<Scalar>
        requires { TypesGoBack (types_view types.now) }
        ensures some { IfSome result (ConvertsBy (types_view types.now) (made_of self.now)) }
        ensures none { IfNone result ((s : Scalar) → ConvertsBy (types_view types.now) (made_of self.now) s → ⊥) };

    /// The size and the scalar of a vector, or a scalar without a size (naga's `TypeInner::vector_size_and_scalar`).
    fn vector_size_and_scalar(&self) -> Option<(Option<VectorSize>, Scalar)>
        ensures { result ≡ size_and_scalar (made_of self.now) };

    /// The number of components to compose a value from: those of a vector, the columns of a matrix, the elements of an array
    /// of a constant length, the members of a struct (naga's `TypeInner::components`).
    fn components(&self) -> Option<usize>
        ensures { result ≡ components_of (made_of self.now) };

    /// The type of the component at `index` (naga's `TypeInner::component_type`). The components of a
    /// vector, a matrix or an array have one type, so `index` has no effect there; a struct has none past its last
    /// member.
    fn component_type(&self, index: usize) -> Option<TypeResolution>
        ensures { option_map resolution_view result ≡ component_at (made_of self.now) index };

    /// The address space of a pointer (naga's `TypeInner::pointer_space`).
    fn pointer_space(&self) -> Option<AddressSpace>
        ensures { result ≡ space_of (made_of self.now) };

    /// The base type of a pointer (naga's `TypeInner::pointer_base_type`).
    fn pointer_base_type(&self) -> Option<TypeResolution>
        ensures { option_map resolution_view result ≡ pointee_of (made_of self.now) };

    /// Whether it is a pointer to an atomic (naga's `TypeInner::is_atomic_pointer`).
    fn is_atomic_pointer(&self, types: &UniqueArena<IrType, key::IrType>) -> bool
        ensures { result ≡ points_to_atomic (types_view types.now) (made_of self.now) };

    /// The size of a value in bytes, if it is at most [`MAX_TYPE_SIZE`] (naga's `TypeInner::try_size`). An array of unknown
    /// length counts as one element.
    fn try_size(&self) -> Option<u64>
        ensures { result ≡ allowed (type_size (made_of self.now)) };

    /// The size of a value in bytes, however large (naga's `TypeInner::size`). An array of unknown length counts as one
    /// element.
    fn size(&self) -> u64
        ensures { result ≡ type_size (made_of self.now) };

    /// The canonical form of a type that isn't canonical: the value pointer of a pointer to a scalar or a vector (naga's
    /// `TypeInner::canonical_form`).
    fn canonical_form(&self, types: &UniqueArena<IrType, key::IrType>) -> Option<TypeInner>
        ensures { option_map inner_view result ≡ canonical (types_view types.now) (made_of self.now) };

    /// Whether two types, not both structs, are equivalent (naga's `TypeInner::non_struct_equivalent`).
    fn non_struct_equivalent(&self, rhs: &Self, types: &UniqueArena<IrType, key::IrType>) -> bool
        requires { NotBothStructs (made_of self.now) (made_of rhs.now) }
        ensures { IsTrue result
            ↔ (form_in (types_view types.now) None (made_of self.now)
            ≡ form_in (types_view types.now) None (made_of rhs.now)) };

    /// Whether the size is known at run time only: a runtime-sized array, or a struct that ends in one
    /// (naga's `TypeInner::is_dynamically_sized`).
    fn is_dynamically_sized(&self, types: &UniqueArena<IrType, key::IrType>) -> bool
        requires { TypesGoBack (types_view types.now) }
        ensures { IsTrue result ↔ IsDynamicallySized (types_view types.now) (made_of self.now) };

    /// Whether values can be constructed (naga's `TypeInner::is_constructible`). Each type is visited once, which takes
    /// memory for one entry each: the error is out of memory.
    fn is_constructible(
        &self,
        alloc: Global,
        types: &UniqueArena<IrType, key::IrType>,
    ) -> Result<bool, AllocError>
        requires { TypesGoBack (types_view types.now) }
        ensures { IfOk result (λ b. IsTrue b ↔ IsConstructible (types_view types.now) (made_of self.now)) };

    /// Whether values hold abstract numbers of WGSL (naga's `TypeInner::is_abstract`).
    fn is_abstract(&self, types: &UniqueArena<IrType, key::IrType>) -> bool
        requires { TypesGoBack (types_view types.now) }
        ensures { IsTrue result ↔ IsAbstract (types_view types.now) (made_of self.now) };

    /// The source and target scalars of an automatic conversion to the type `goal`, which is not
    /// checked for overflow: the types differ in their scalars only, and the conversion has a rank (naga's
    /// `TypeInner::automatically_converts_to`). Array strides don't matter.
    fn automatically_converts_to(
        &self,
        goal: &Self,
        types: &UniqueArena<IrType, key::IrType>,
    ) -> Option<(Scalar, Scalar)>
        requires { TypesGoBack (types_view types.now) }
        ensures some { IfSome result (λ p. Converts (types_view types.now) (made_of self.now) (made_of goal.now) p.0 p.1) }
        ensures none { IfNone result ((s t : Scalar)
            → SameShape (types_view types.now) (made_of self.now) (made_of goal.now) s t → conversion s t ≡ None) };

    /// The dimension of the storage images that take a value of this type as a coordinate (naga's
    /// `TypeInner::image_storage_coordinates`): an integer `D1`, integer vectors of size two and three `D2` and `D3`.
    fn image_storage_coordinates(&self) -> Option<ImageDimension>
        ensures { result ≡ storage_dimension (made_of self.now) };

    /// The indexable length of the type, or of what a pointer points to (naga's
    /// `TypeInner::indexable_length`).
    ///
    /// # Errors
    ///
    /// [`IndexableLengthError::TypeNotIndexable`] if it can't be indexed, [`IndexableLengthError::Pending`] if the length
    /// depends on an override.
    fn indexable_length(
        &self,
        types: &UniqueArena<IrType, key::IrType>,
    ) -> Result<IndexableLength, IndexableLengthError>
        ensures { result ≡ length_of (types_view types.now) (made_of self.now) };
}

// The dimension of an image with this many integer coordinates.
const fn dimension_of(kind: ScalarKind, dim: ImageDimension) -> Option<ImageDimension>
    ensures { result ≡ dimension_of kind dim }
{
    match kind {
        ScalarKind::Sint | ScalarKind::Uint => Some(dim),
        _ => None,
    }
}

impl TypeInnerExt for TypeInner {
    ghost made_of = { inner_view };

    fn scalar(&self) -> Option<Scalar> {
        match *self {
            TypeInner::Scalar(scalar)
            | TypeInner::Vector { scalar, .. }
            | TypeInner::Matrix { scalar, .. }
            | TypeInner::CooperativeMatrix { scalar, .. } => Some(scalar),
            _ => None,
        }
    }

    fn scalar_kind(&self) -> Option<ScalarKind> {
        match self.scalar() {
            Some(scalar) => Some(scalar.kind),
            None => None,
        }
    }

    fn scalar_width(&self) -> Option<Bytes> {
        match self.scalar() {
            Some(scalar) => Some(scalar.width),
            None => None,
        }
    }

    fn scalar_for_conversions(&self, types: &UniqueArena<IrType, key::IrType>) -> Option<Scalar> {
        scalar_for_conversions(types, self)
    }

    fn vector_size_and_scalar(&self) -> Option<(Option<VectorSize>, Scalar)> {
        match *self {
            TypeInner::Scalar(scalar) => Some((None, scalar)),
            TypeInner::Vector { size, scalar } => Some((Some(size), scalar)),
            _ => None,
        }
    }

    fn components(&self) -> Option<usize> {
        match *self {
            TypeInner::Vector { size, .. } => Some(u32::from(size) as usize),
            TypeInner::Matrix { columns, .. } => Some(u32::from(columns) as usize),
            TypeInner::Array {
                size: ArraySize::Constant(count),
                ..
            } => Some(count as usize),
            TypeInner::Struct { ref members, .. } => Some(members.len()),
            _ => None,
        }
    }

    fn component_type(&self, index: usize) -> Option<TypeResolution> {
        match *self {
            TypeInner::Vector { scalar, .. } => {
                Some(TypeResolution::Value(TypeInner::Scalar(scalar)))
            }
            TypeInner::Matrix { rows, scalar, .. } => {
                Some(TypeResolution::Value(TypeInner::Vector { size: rows, scalar }))
            }
            TypeInner::Array {
                base,
                size: ArraySize::Constant(_),
                ..
            } => Some(TypeResolution::Handle(base)),
            TypeInner::Struct { ref members, .. } => match members.get(index) {
                Some(member) => Some(TypeResolution::Handle(member.ty)),
                None => None,
            },
            _ => None,
        }
    }

    fn pointer_space(&self) -> Option<AddressSpace> {
        match *self {
            TypeInner::Pointer { space, .. } | TypeInner::ValuePointer { space, .. } => Some(space),
            _ => None,
        }
    }

    fn pointer_base_type(&self) -> Option<TypeResolution> {
        match *self {
            TypeInner::Pointer { base, .. } => Some(TypeResolution::Handle(base)),
            TypeInner::ValuePointer {
                size: None,
                scalar,
                ..
            } => Some(TypeResolution::Value(TypeInner::Scalar(scalar))),
            TypeInner::ValuePointer {
                size: Some(size),
                scalar,
                ..
            } => Some(TypeResolution::Value(TypeInner::Vector { size, scalar })),
            _ => None,
        }
    }

    fn is_atomic_pointer(&self, types: &UniqueArena<IrType, key::IrType>) -> bool {
        match *self {
            TypeInner::Pointer { base, .. } => {
                matches!(inner_of(types, base), Some(TypeInner::Atomic(_)))
            }
            _ => false,
        }
    }

    fn try_size(&self) -> Option<u64> {
        let size = type_size(self);
        if size <= MAX_TYPE_SIZE as u64 {
            Some(size)
        } else {
            None
        }
    }

    fn size(&self) -> u64 {
        type_size(self)
    }

    fn canonical_form(&self, types: &UniqueArena<IrType, key::IrType>) -> Option<TypeInner> {
        match *self {
            TypeInner::Pointer { base, space } => match inner_of(types, base) {
                Some(TypeInner::Scalar(scalar)) => Some(TypeInner::ValuePointer {
                    size: None,
                    scalar: *scalar,
                    space,
                }),
                Some(TypeInner::Vector { size, scalar }) => Some(TypeInner::ValuePointer {
                    size: Some(*size),
                    scalar: *scalar,
                    space,
                }),
                _ => None,
            },
            _ => None,
        }
    }

    fn non_struct_equivalent(&self, rhs: &Self, types: &UniqueArena<IrType, key::IrType>) -> bool {
        form_equality(form_in(types, None, self), form_in(types, None, rhs))
    }

    fn is_dynamically_sized(&self, types: &UniqueArena<IrType, key::IrType>) -> bool {
        is_dynamically_sized(types, self)
    }

    fn is_constructible(
        &self,
        alloc: Global,
        types: &UniqueArena<IrType, key::IrType>,
    ) -> Result<bool, AllocError> {
        is_constructible(alloc, types, self)
    }

    fn is_abstract(&self, types: &UniqueArena<IrType, key::IrType>) -> bool {
        is_abstract(types, self)
    }

    fn automatically_converts_to(
        &self,
        goal: &Self,
        types: &UniqueArena<IrType, key::IrType>,
    ) -> Option<(Scalar, Scalar)> {
        automatically_converts_to(types, self, goal)
    }

    fn image_storage_coordinates(&self) -> Option<ImageDimension> {
        match *self {
            TypeInner::Scalar(scalar) => dimension_of(scalar.kind, ImageDimension::D1),
            TypeInner::Vector {
                size: VectorSize::Bi,
                scalar,
            } => dimension_of(scalar.kind, ImageDimension::D2),
            TypeInner::Vector {
                size: VectorSize::Tri,
                scalar,
            } => dimension_of(scalar.kind, ImageDimension::D3),
            _ => None,
        }
    }

    fn indexable_length(
        &self,
        types: &UniqueArena<IrType, key::IrType>,
    ) -> Result<IndexableLength, IndexableLengthError> {
        length_of(types, self)
    }
}
