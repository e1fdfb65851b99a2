// The table of arrays, structs and pointers, and the handles of types.

use crate::builder::{Builder, RayStruct, TypeHandle};
use crate::layout::Layout;
use crate::shapes::Shape;
use ir_kinds::{AddressSpace, PredeclaredType, Scalar};
use ir_types::{ArraySize, IrType, StructMember, TypeInner};
use std::alloc::Global;
use wgsl_text::{Extent, WgslError};
use wgsl_tree::Part;

/// A member of a struct.
#[derive(Clone, Copy)]
pub struct TypeMember {
    /// The index of its name among the words.
    pub name: u32,
    /// Its type.
    pub shape: Shape,
}

/// An array, a struct or a pointer.
#[derive(Clone, Copy)]
pub enum RowKind {
    /// An array: its element type and its size.
    Array(Shape, ArraySize),
    /// A struct: the range of its members in the table.
    Struct(Part),
    /// A binding array, with its element type.
    Bindings(Shape),
    /// A pointer to a type, in an address space.
    Pointer(Shape, AddressSpace),
}

/// An entry of the table.
#[derive(Clone, Copy)]
pub struct Row {
    /// The type.
    pub kind: RowKind,
    /// Its handle.
    pub handle: TypeHandle,
    /// Its memory layout.
    pub layout: Layout,
}

/// The arrays, structs and pointers of a module, in order of creation.
pub struct TypeTable {
    /// The entries.
    pub rows: Vec<Row>,
    /// The members of all structs.
    pub members: Vec<TypeMember>,
    /// The result structs of the built-in functions that the module calls.
    pub predeclared: Vec<(PredeclaredType, Shape)>,
    /// The special types for ray queries that it uses.
    pub rays: Vec<(RayStruct, Shape)>,
}

// Defined explicitly, so that its vectors are freed in a function of this crate wherever it is dropped.
impl Drop for TypeTable {
    fn drop(self) {
        let TypeTable {
            rows: _rows,
            members: _members,
            predeclared: _predeclared,
            rays: _rays,
        } = self;
    }
}

impl TypeTable {
    /// An empty table.
    pub fn new(alloc: Global) -> TypeTable {
        TypeTable {
            rows: Vec::new(alloc),
            members: Vec::new(alloc),
            predeclared: Vec::new(alloc),
            rays: Vec::new(alloc),
        }
    }

    /// The special type for ray queries, if it was created.
    pub fn ray_type(&self, of: RayStruct) -> Option<Shape> {
        for entry in &self.rays {
            if entry.0 == of {
                return Some(entry.1);
            }
        }
        None
    }

    /// The result struct of a built-in function, if it was created.
    pub fn result_struct(&self, of: PredeclaredType) -> Option<Shape> {
        for entry in &self.predeclared {
            if entry.0 == of {
                return Some(entry.1);
            }
        }
        None
    }

    /// The table entry of a type.
    pub fn row(&self, shape: Shape) -> Option<Row> {
        match shape {
            Shape::Row(place) => self.rows.get(place as usize).copied(),
            _ => None,
        }
    }

    /// The memory layout of a type.
    pub fn layout(&self, shape: Shape) -> Layout {
        match shape {
            Shape::Scalar(scalar) | Shape::Atomic(scalar) => Layout::of_scalar(scalar),
            Shape::Vector(size, scalar) => Layout::of_vector(size, scalar),
            Shape::Matrix(columns, rows, scalar) => Layout::of_matrix(columns, rows, scalar),
            Shape::Cooperative(size, scalar, _) => Layout::of_cooperative(size, scalar),
            Shape::Row(_) => match self.row(shape) {
                Some(row) => row.layout,
                None => Layout::NONE,
            },
            Shape::None
            | Shape::Sampler(_)
            | Shape::Image(..)
            | Shape::AccelerationStructure(_)
            | Shape::RayQuery(_) => Layout::NONE,
        }
    }

    /// The handle of a type.
    pub fn handle<B: Builder>(&self, builder: &mut B, shape: Shape, extent: Extent) -> TypeHandle {
        let inner = match shape {
            Shape::Scalar(scalar) => TypeInner::Scalar(scalar),
            Shape::Vector(size, scalar) => TypeInner::Vector { size, scalar },
            Shape::Matrix(columns, rows, scalar) => TypeInner::Matrix {
                columns,
                rows,
                scalar,
            },
            Shape::Atomic(scalar) => TypeInner::Atomic(scalar),
            Shape::Sampler(comparison) => TypeInner::Sampler { comparison },
            Shape::Image(dim, arrayed, class) => TypeInner::Image {
                dim,
                arrayed,
                class,
            },
            Shape::AccelerationStructure(vertex_return) => {
                TypeInner::AccelerationStructure { vertex_return }
            }
            Shape::RayQuery(vertex_return) => TypeInner::RayQuery { vertex_return },
            Shape::Cooperative(size, scalar, role) => TypeInner::CooperativeMatrix {
                columns: size,
                rows: size,
                scalar,
                role,
            },
            Shape::None | Shape::Row(_) => {
                return match self.row(shape) {
                    Some(row) => row.handle,
                    None => {
                        builder.fail(WgslError::malformed("expected a type", extent));
                        crate::builder::no_type()
                    }
                };
            }
        };
        builder.insert(IrType { name: None, inner }, extent)
    }

    /// The leaf scalar of a type: of arrays, that of the innermost elements.
    pub fn leaf(&self, shape: Shape) -> Option<Scalar> {
        let mut inner = shape;
        for _ in 0..256_u32 {
            match self.row(inner) {
                Some(row) => match row.kind {
                    RowKind::Array(element, _) => inner = element,
                    RowKind::Struct(_) | RowKind::Bindings(_) | RowKind::Pointer(..) => return None,
                },
                None => return inner.scalar(),
            }
        }
        None
    }

    /// Whether two types are the same.
    pub fn is_same(&self, left: Shape, right: Shape) -> bool {
        match (self.row(left), self.row(right)) {
            (Some(left), Some(right)) => left.handle.index() == right.handle.index(),
            (None, None) => left == right,
            _ => false,
        }
    }

    // Whether a type is abstract, so that no IR type denotes it.
    fn is_abstract(&self, shape: Shape) -> bool {
        match self.leaf(shape) {
            Some(scalar) => scalar.is_abstract(),
            None => false,
        }
    }

    // Adds an array, struct or pointer.
    fn add<B: Builder>(&mut self, builder: &mut B, row: Row) -> Shape {
        let place = u32::try_from(self.rows.len()).unwrap_or(u32::MAX);
        if self.rows.push(row).is_err() {
            builder.fail(WgslError::MEMORY);
        }
        Shape::Row(place)
    }

    /// Adds an array type.
    pub fn array<B: Builder>(
        &mut self,
        builder: &mut B,
        element: Shape,
        size: &ArraySize,
        extent: Extent,
    ) -> Shape {
        let of_element = self.layout(element);
        let stride = of_element.stride();
        let count = match *size {
            ArraySize::Constant(count) => count,
            ArraySize::Pending(_) | ArraySize::Dynamic => 1,
        };
        let layout = Layout {
            size: stride.saturating_mul(u64::from(count)),
            alignment: of_element.alignment,
        };
        let kind = RowKind::Array(element, *size);
        if self.is_abstract(element) {
            let handle = crate::builder::no_type();
            return self.add(
                builder,
                Row {
                    kind,
                    handle,
                    layout,
                },
            );
        }
        check_size(builder, layout, extent);
        let base = self.handle(builder, element, extent);
        let stride = u32::try_from(stride).unwrap_or(u32::MAX);
        let inner = TypeInner::Array {
            base,
            size: *size,
            stride,
        };
        let handle = builder.insert(IrType { name: None, inner }, extent);
        self.add(
            builder,
            Row {
                kind,
                handle,
                layout,
            },
        )
    }

    /// Adds a binding array type.
    pub fn bindings<B: Builder>(
        &mut self,
        builder: &mut B,
        element: Shape,
        size: &ArraySize,
        extent: Extent,
    ) -> Shape {
        let layout = self.layout(element);
        let base = self.handle(builder, element, extent);
        let inner = TypeInner::BindingArray { base, size: *size };
        let handle = builder.insert(IrType { name: None, inner }, extent);
        let kind = RowKind::Bindings(element);
        self.add(
            builder,
            Row {
                kind,
                handle,
                layout,
            },
        )
    }

    /// Adds a pointer type.
    pub fn pointer<B: Builder>(
        &mut self,
        builder: &mut B,
        to: Shape,
        space: AddressSpace,
        extent: Extent,
    ) -> Shape {
        let base = self.handle(builder, to, extent);
        let inner = TypeInner::Pointer { base, space };
        let handle = builder.insert(IrType { name: None, inner }, extent);
        let kind = RowKind::Pointer(to, space);
        let layout = Layout::NONE;
        self.add(
            builder,
            Row {
                kind,
                handle,
                layout,
            },
        )
    }

    /// Adds a struct type with this name, these members in the IR and in the table, and this layout.
    pub fn structure<B: Builder>(
        &mut self,
        builder: &mut B,
        name: Option<String>,
        built: Vec<StructMember>,
        members: Part,
        layout: Layout,
        extent: Extent,
    ) -> Shape {
        check_size(builder, layout, extent);
        let inner = TypeInner::Struct {
            members: built,
            span: u32::try_from(layout.size).unwrap_or(u32::MAX),
        };
        let handle = builder.insert(IrType { name, inner }, extent);
        let kind = RowKind::Struct(members);
        self.add(
            builder,
            Row {
                kind,
                handle,
                layout,
            },
        )
    }

    /// The member with this name: its index and its type.
    pub fn member(&self, members: Part, name: u32) -> Option<(u32, Shape)> {
        for place in 0..members.count() {
            let at = members.start.saturating_add(place) as usize;
            match self.members.get(at) {
                Some(member) if member.name == name => return Some((place, member.shape)),
                _ => {}
            }
        }
        None
    }
}

// The maximum size of a type in bytes.
const MAX_SIZE: u64 = 2_147_483_647;

// It is an error if a type exceeds the maximum size.
fn check_size<B: Builder>(builder: &mut B, layout: Layout, extent: Extent) {
    if layout.size > MAX_SIZE {
        builder.fail(WgslError::malformed("type is too large", extent));
    }
}
