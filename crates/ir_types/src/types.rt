// Types of the IR.
ghost use Rattle.std.specs.Prelude.{◌≡◌, map, option_map, string_bytes, IfOk};
ghost use Rattle.ir_types.specs.judged.Plain.{member_view, inner_view, type_view};

use crate::key;
use ir_arena::handle::Handle;
use ir_kinds::{
    AddressSpace, Binding, CooperativeRole, CooperativeSize, ImageClass, ImageDimension, Scalar,
    VectorSize,
};
use std::alloc::{AllocError, Global};

/// The size of an array (naga's `ArraySize`).
#[derive(Clone, Copy, PartialEq, Eq, Hash, Debug)]
pub enum ArraySize {
    /// A constant size, at least one.
    Constant(u32),
    /// An override-sized array.
    Pending(Handle<key::Override>),
    /// A runtime-sized array.
    Dynamic,
}

/// A member of a struct (naga's `StructMember`).
#[derive(Clone, PartialEq, Eq, Hash, Debug, Drop)]
pub struct StructMember {
    /// The name in the source, if any.
    pub name: Option<String>,
    /// Its type.
    pub ty: Handle<key::IrType>,
    /// The binding, if it is an input or output of a shader stage.
    pub binding: Option<Binding>,
    /// The offset from the start of the struct, in bytes.
    pub offset: u32,
}

/// The shape of a type (naga's `TypeInner`).
#[derive(Clone, PartialEq, Eq, Hash, Debug, Drop)]
pub enum TypeInner {
    /// A scalar.
    Scalar(Scalar),
    /// A vector.
    Vector {
        /// The number of components.
        size: VectorSize,
        /// The component type.
        scalar: Scalar,
    },
    /// A matrix.
    Matrix {
        /// The number of columns.
        columns: VectorSize,
        /// The number of rows.
        rows: VectorSize,
        /// The component type.
        scalar: Scalar,
    },
    /// A cooperative matrix, which the invocations of a subgroup share.
    CooperativeMatrix {
        /// The number of columns.
        columns: CooperativeSize,
        /// The number of rows.
        rows: CooperativeSize,
        /// The component type.
        scalar: Scalar,
        /// The role in a multiply-add.
        role: CooperativeRole,
    },
    /// An atomic.
    Atomic(Scalar),
    /// A pointer to a type of the module.
    Pointer {
        /// The pointee type.
        base: Handle<key::IrType>,
        /// The address space.
        space: AddressSpace,
    },
    /// A pointer to a scalar or a vector, whose pointee type need not be in the module.
    ValuePointer {
        /// The size of the vector; a scalar if `None`.
        size: Option<VectorSize>,
        /// The scalar type.
        scalar: Scalar,
        /// The address space.
        space: AddressSpace,
    },
    /// An array.
    Array {
        /// The element type.
        base: Handle<key::IrType>,
        /// The size.
        size: ArraySize,
        /// The stride between elements, in bytes.
        stride: u32,
    },
    /// A struct.
    Struct {
        /// The members, in order.
        members: Vec<StructMember>,
        /// The size of the struct, in bytes.
        span: u32,
    },
    /// An image.
    Image {
        /// The dimension.
        dim: ImageDimension,
        /// Whether it is an array of images.
        arrayed: bool,
        /// The class: sampled, depth, external or storage.
        class: ImageClass,
    },
    /// A sampler.
    Sampler {
        /// Whether it is a comparison sampler.
        comparison: bool,
    },
    /// An acceleration structure.
    AccelerationStructure {
        /// Whether ray queries on it may return vertex positions.
        vertex_return: bool,
    },
    /// A ray query.
    RayQuery {
        /// Whether it may return vertex positions.
        vertex_return: bool,
    },
    /// A binding array of resources.
    BindingArray {
        /// The type of an element.
        base: Handle<key::IrType>,
        /// The size.
        size: ArraySize,
    },
}

/// A type with an optional name (naga's `Type`).
#[derive(PartialEq, Eq, Hash, Debug, Drop)]
pub struct IrType {
    /// The name in the source, if any.
    pub name: Option<String>,
    /// The inner type.
    pub inner: TypeInner,
}

/// An equal name in memory of its own. The error is out of memory.
pub fn clone_name(alloc: Global, name: &Option<String>) -> Result<Option<String>, AllocError>
    ensures { IfOk result (λ copy. option_map string_bytes copy ≡ option_map string_bytes name.now) }
{
    match name {
        Some(name) => Ok(Some(String::from_str(alloc, name.as_str())?)),
        None => Ok(None),
    }
}

impl StructMember {
    /// An equal member in memory of its own. The error is out of memory.
    pub fn clone(&self, alloc: Global) -> Result<StructMember, AllocError>
        ensures { IfOk result (λ copy. member_view copy ≡ member_view self.now) }
    {
        Ok(StructMember {
            name: clone_name(alloc, &self.name)?,
            ty: self.ty,
            binding: self.binding,
            offset: self.offset,
        })
    }
}

fn clone_members(alloc: Global, members: &[StructMember]) -> Result<Vec<StructMember>, AllocError>
    ensures { IfOk result (λ copies. map member_view copies.items ≡ map member_view members.now) }
{
    let mut copies = Vec::with_capacity(alloc, members.len())?;
    for member in members {
        copies.push(member.clone(alloc)?)?;
    }
    Ok(copies)
}

impl TypeInner {
    /// An equal inner type in memory of its own. The error is out of memory.
    pub fn clone(&self, alloc: Global) -> Result<TypeInner, AllocError>
        ensures { IfOk result (λ copy. inner_view copy ≡ inner_view self.now) }
    {
        match *self {
            TypeInner::Struct { ref members, span } => Ok(TypeInner::Struct {
                members: clone_members(alloc, members)?,
                span,
            }),
            TypeInner::Scalar(scalar) => Ok(TypeInner::Scalar(scalar)),
            TypeInner::Vector { size, scalar } => Ok(TypeInner::Vector { size, scalar }),
            TypeInner::Matrix {
                columns,
                rows,
                scalar,
            } => Ok(TypeInner::Matrix {
                columns,
                rows,
                scalar,
            }),
            TypeInner::CooperativeMatrix {
                columns,
                rows,
                scalar,
                role,
            } => Ok(TypeInner::CooperativeMatrix {
                columns,
                rows,
                scalar,
                role,
            }),
            TypeInner::Atomic(scalar) => Ok(TypeInner::Atomic(scalar)),
            TypeInner::Pointer { base, space } => Ok(TypeInner::Pointer { base, space }),
            TypeInner::ValuePointer {
                size,
                scalar,
                space,
            } => Ok(TypeInner::ValuePointer {
                size,
                scalar,
                space,
            }),
            TypeInner::Array { base, size, stride } => Ok(TypeInner::Array { base, size, stride }),
            TypeInner::Image {
                dim,
                arrayed,
                class,
            } => Ok(TypeInner::Image {
                dim,
                arrayed,
                class,
            }),
            TypeInner::Sampler { comparison } => Ok(TypeInner::Sampler { comparison }),
            TypeInner::AccelerationStructure { vertex_return } => Ok(
                TypeInner::AccelerationStructure { vertex_return },
            ),
            TypeInner::RayQuery { vertex_return } => Ok(TypeInner::RayQuery { vertex_return }),
            TypeInner::BindingArray { base, size } => Ok(TypeInner::BindingArray { base, size }),
        }
    }
}

impl IrType {
    /// An equal type in memory of its own. The error is out of memory.
    pub fn clone(&self, alloc: Global) -> Result<IrType, AllocError>
        ensures { IfOk result (λ copy. type_view copy ≡ type_view self.now) }
    {
        Ok(IrType {
            name: clone_name(alloc, &self.name)?,
            inner: self.inner.clone(alloc)?,
        })
    }
}
