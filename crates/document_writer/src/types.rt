// Writes types and bindings.

use crate::writer::Writer;
use ir_kinds::{AddressSpace, Binding, BuiltIn, ImageClass, Scalar, VectorSize};
use ir_types::{ArraySize, IrType, StructMember, TypeInner};

impl Writer {
    /// Writes a vector size.
    pub fn size(&mut self, size: VectorSize) {
        self.number(u64::from(u32::from(size)));
    }

    /// Writes an optional size.
    pub fn optional_size(&mut self, size: Option<VectorSize>) {
        self.optional(size.map(u32::from));
    }

    /// Writes a type.
    pub fn ir_type(&mut self, ty: &IrType) {
        self.open();
        self.name(ty.name.as_deref());
        self.open();
        self.inner(&ty.inner);
        self.close();
        self.close();
    }

    // Writes an inner type.
    fn inner(&mut self, inner: &TypeInner) {
        match inner {
            TypeInner::Scalar(scalar) => self.scalar("Scalar", *scalar),
            TypeInner::Vector { size, scalar } => self.vector(*size, *scalar),
            TypeInner::Matrix { .. } => self.matrix(inner),
            TypeInner::Atomic(scalar) => self.scalar("Atomic", *scalar),
            TypeInner::Pointer { base, space } => {
                self.one("Pointer", *base);
                self.space(*space);
            }
            TypeInner::ValuePointer { .. } => self.value_pointer(inner),
            TypeInner::Array { base, size, stride } => {
                self.one("Array", *base);
                self.array_size(*size);
                self.number(u64::from(*stride));
            }
            TypeInner::Struct { members, span } => self.members(members, *span),
            TypeInner::Image { .. } => self.image(inner),
            TypeInner::Sampler { comparison } => self.marked("Sampler", *comparison),
            TypeInner::AccelerationStructure { vertex_return } => {
                self.marked("AccelerationStructure", *vertex_return);
            }
            TypeInner::RayQuery { vertex_return } => self.marked("RayQuery", *vertex_return),
            TypeInner::BindingArray { base, size } => {
                self.one("BindingArray", *base);
                self.array_size(*size);
            }
            TypeInner::CooperativeMatrix { .. } => self.cooperative_matrix(inner),
        }
    }

    fn scalar(&mut self, word: &str, scalar: Scalar) {
        self.word(word);
        self.word_of(scalar);
    }

    fn vector(&mut self, size: VectorSize, scalar: Scalar) {
        self.word("Vector");
        self.size(size);
        self.word_of(scalar);
    }

    fn matrix(&mut self, inner: &TypeInner) {
        let TypeInner::Matrix {
            columns,
            rows,
            scalar,
        } = *inner
        else {
            return;
        };
        self.word("Matrix");
        self.size(columns);
        self.size(rows);
        self.word_of(scalar);
    }

    fn value_pointer(&mut self, inner: &TypeInner) {
        let TypeInner::ValuePointer {
            size,
            scalar,
            space,
        } = *inner
        else {
            return;
        };
        self.word("ValuePointer");
        self.optional_size(size);
        self.word_of(scalar);
        self.space(space);
    }

    fn members(&mut self, members: &[StructMember], span: u32) {
        self.word("Struct");
        self.open();
        for member in members {
            self.member(member);
        }
        self.close();
        self.number(u64::from(span));
    }

    fn image(&mut self, inner: &TypeInner) {
        let TypeInner::Image {
            dim,
            arrayed,
            class,
        } = *inner
        else {
            return;
        };
        self.word("Image");
        self.word_of(dim);
        self.truth(arrayed);
        self.class(class);
    }

    // Writes a tag and a bool.
    fn marked(&mut self, word: &str, value: bool) {
        self.word(word);
        self.truth(value);
    }

    fn cooperative_matrix(&mut self, inner: &TypeInner) {
        let TypeInner::CooperativeMatrix {
            columns,
            rows,
            scalar,
            role,
        } = *inner
        else {
            return;
        };
        self.word("CooperativeMatrix");
        self.number(columns as u64);
        self.number(rows as u64);
        self.word_of(scalar);
        self.word_of(role);
    }

    fn member(&mut self, member: &StructMember) {
        self.open();
        self.name(member.name.as_deref());
        self.handle(member.ty);
        self.binding(member.binding);
        self.number(u64::from(member.offset));
        self.close();
    }

    fn array_size(&mut self, size: ArraySize) {
        match size {
            ArraySize::Constant(count) => {
                self.begin("Constant");
                self.number(u64::from(count));
            }
            ArraySize::Pending(handle) => {
                self.begin("Pending");
                self.handle(handle);
            }
            ArraySize::Dynamic => self.begin("Dynamic"),
        }
        self.close();
    }

    /// Writes an address space.
    pub fn space(&mut self, space: AddressSpace) {
        match space {
            AddressSpace::Storage { access } => {
                self.begin("Storage");
                self.set_of(access);
                self.close();
            }
            other => self.word_of(other),
        }
    }

    fn class(&mut self, class: ImageClass) {
        match class {
            ImageClass::Sampled { kind, multi } => {
                self.begin("Sampled");
                self.word_of(kind);
                self.truth(multi);
            }
            ImageClass::Depth { multi } => {
                self.begin("Depth");
                self.truth(multi);
            }
            ImageClass::External => self.begin("External"),
            ImageClass::Storage { format, access } => {
                self.begin("Storage");
                self.word_of(format);
                self.set_of(access);
            }
        }
        self.close();
    }

    /// Writes a binding, or `null`.
    pub fn binding(&mut self, binding: Option<Binding>) {
        match binding {
            None => return self.null(),
            Some(Binding::BuiltIn(BuiltIn::Position { invariant })) => {
                self.begin("BuiltIn");
                self.word("Position");
                self.truth(invariant);
            }
            Some(Binding::BuiltIn(BuiltIn::Barycentric { perspective })) => {
                self.begin("BuiltIn");
                self.word("Barycentric");
                self.truth(perspective);
            }
            Some(Binding::BuiltIn(built_in)) => {
                self.begin("BuiltIn");
                self.word_of(built_in);
            }
            Some(
                Binding::Location {
                    location,
                    interpolation,
                    sampling,
                    blend_src,
                    per_primitive,
                },
            ) => {
                self.begin("Location");
                self.number(u64::from(location));
                self.maybe_word(interpolation);
                self.maybe_word(sampling);
                self.optional(blend_src);
                self.truth(per_primitive);
            }
        }
        self.close();
    }
}
