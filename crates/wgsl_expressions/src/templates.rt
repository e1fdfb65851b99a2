// Types, type generators and template arguments.

use crate::lowering::Lowering;
use crate::values::{Operand, Value, handle_of};
use ir_arena::handle::Handle;
use ir_flags::{Capabilities, StorageAccess};
use ir_items::Override;
use ir_kinds::{
    AddressSpace, CooperativeRole, CooperativeSize, ImageClass, Literal, Scalar, ScalarKind,
    StorageFormat, VectorSize,
};
use ir_types::ArraySize;
use wgsl_builtins::{
    FunctionWord, RayWord, TextureKind, TypeWord, access_of, format_of, role_of, space_of,
};
use wgsl_text::{Extent, WgslError};
use wgsl_types::{Builder, Shape};

impl<B: Builder> Lowering<B> {
    /// Checks that the extension for a scalar's width is enabled.
    pub fn check_scalar(&mut self, scalar: Option<Scalar>, extent: Extent) {
        let enabled = self.tree.enabled.0;
        match scalar {
            Some(scalar) if scalar == Scalar::F16 => {
                if enabled & Capabilities::SHADER_FLOAT16.0 == 0 {
                    self.wrong("the `f16` enable extension is not enabled", extent);
                }
            }
            Some(scalar) if scalar == Scalar::I16 || scalar == Scalar::U16 => {
                if enabled & Capabilities::SHADER_INT16.0 == 0 {
                    self.wrong("the `wgpu_int16` enable extension is not enabled", extent);
                }
            }
            _ => {}
        }
    }

    /// The type that an operand denotes.
    pub fn type_of(&mut self, operand: &Operand) -> Shape {
        let shape = self.named_type(operand);
        self.check_scalar(shape.scalar(), operand.extent);
        shape
    }

    // The type of an operand that must denote a type.
    fn named_type(&mut self, operand: &Operand) -> Shape {
        let extent = operand.extent;
        match operand.value {
            Value::Type(shape) => shape,
            Value::Maker(TypeWord::Scalar(scalar)) => Shape::Scalar(scalar),
            Value::Maker(TypeWord::VectorOf(size, scalar)) => Shape::Vector(size, scalar),
            Value::Maker(TypeWord::MatrixOf(columns, rows, scalar)) => {
                Shape::Matrix(columns, rows, scalar)
            }
            Value::Maker(TypeWord::Sampler(comparison)) => Shape::Sampler(comparison),
            Value::Maker(TypeWord::Texture(dim, arrayed, kind)) => match kind.plain_class() {
                Some(class) => Shape::Image(dim, arrayed, class),
                None => self.wanting(kind.wanted(), extent),
            },
            Value::Maker(TypeWord::Ray(word)) => self.ray_word(word, false, extent),
            Value::Maker(TypeWord::Cooperative(_)) => {
                self.check_cooperative(extent);
                self.wanting(
                    " needs a template argument specified: `T`, a scalar type",
                    extent,
                )
            }
            Value::Maker(_) => self.wanting(" needs a template argument specified", extent),
            Value::Word(name) => {
                self.undefined(name, extent);
                Shape::None
            }
            _ => {
                self.wrong("unexpected expression", extent);
                Shape::None
            }
        }
    }

    // Checks that the extension for cooperative matrices is enabled.
    fn check_cooperative(&mut self, extent: Extent) {
        if self.tree.enabled.0 & Capabilities::COOPERATIVE_MATRIX.0 == 0 {
            let text = "the `wgpu_cooperative_matrix` enable extension is not enabled";
            self.wrong(text, extent);
        }
    }

    // A cooperative matrix type.
    fn cooperative(&mut self, size: CooperativeSize, of: &[Operand], extent: Extent) -> Shape {
        self.check_cooperative(extent);
        let (Some(scalar), Some(role)) = (of.first(), of.get(1)) else {
            let text = " needs a template argument specified: `Role`, a cooperative matrix role";
            return self.wanting(text, extent);
        };
        match self.type_of(scalar) {
            Shape::Scalar(scalar) => Shape::Cooperative(size, scalar, self.role(role)),
            _ => {
                self.wrong("cooperative scalar type is not supported", scalar.extent);
                Shape::None
            }
        }
    }

    // Reports that a type generator needs a template argument.
    fn wanting(&mut self, text: &'static str, extent: Extent) -> Shape {
        self.fail(WgslError::of_name("", extent, text));
        Shape::None
    }

    // The role of a cooperative matrix that an operand denotes.
    fn role(&mut self, operand: &Operand) -> CooperativeRole {
        let role = match operand.value {
            Value::Word(name) => role_of(self.tree.tokens.word(name)),
            _ => None,
        };
        match role {
            Some(role) => role,
            None => {
                let text = "unknown cooperative matrix role: ";
                self.fail(WgslError::of_name(text, operand.extent, ""));
                CooperativeRole::C
            }
        }
    }

    // The scalar of an operand that must denote a scalar type.
    fn scalar_type(&mut self, operand: &Operand) -> Scalar {
        match self.type_of(operand) {
            Shape::Scalar(scalar) => scalar,
            _ => {
                let error = WgslError::of_name("unknown scalar type: ", operand.extent, "");
                self.fail(error);
                Scalar::U32
            }
        }
    }

    // The size of an array, from its element count operand.
    fn array_size(&mut self, operand: &Operand) -> ArraySize {
        let count = match operand.value {
            Value::Literal(Literal::AbstractInt(count)) => u32::try_from(count).ok(),
            Value::Literal(Literal::I32(count)) => u32::try_from(count).ok(),
            Value::Literal(Literal::U32(count)) => Some(count),
            _ => return self.pending_size(operand),
        };
        match count {
            Some(count) if count > 0 => ArraySize::Constant(count),
            _ => {
                self.wrong("array element count must be positive (> 0)", operand.extent);
                ArraySize::Dynamic
            }
        }
    }

    // The size of an array from an override expression, which becomes an override of its own, named by its source text.
    fn pending_size(&mut self, operand: &Operand) -> ArraySize {
        let extent = operand.extent;
        let scalar = self.scalar_of(operand);
        if scalar != Some(Scalar::I32) && scalar != Some(Scalar::U32) {
            self.wrong(
                "must be a const-expression that resolves to a concrete integer scalar (`u32` or `i32`)",
                extent,
            );
            return ArraySize::Dynamic;
        }
        let number = match operand.value {
            Value::Override(number, _) => number,
            _ if self.builder.is_global() => {
                let (value, shape) = self.value(*operand);
                let ty = self.type_handle(shape, extent);
                let made = Override {
                    name: self.words_at(extent),
                    id: None,
                    ty,
                    init: Some(handle_of(value)),
                };
                self.builder.overridable(made, extent)
            }
            _ => {
                self.unsupported("an array of so many elements", extent);
                0
            }
        };
        ArraySize::Pending(Handle::at(number.min(4_294_967_294) as usize))
    }

    // An array type.
    fn array_type(&mut self, arguments: &[Operand], extent: Extent) -> Shape {
        let Some(element) = arguments.first() else {
            return Shape::None;
        };
        let element = self.type_of(element);
        let size = match arguments.get(1) {
            Some(count) => self.array_size(count),
            None => ArraySize::Dynamic,
        };
        self.table.array(&mut self.builder, element, &size, extent)
    }

    // A binding array type.
    fn bindings_type(&mut self, arguments: &[Operand], extent: Extent) -> Shape {
        if self.tree.enabled.0 & Capabilities::TEXTURE_AND_SAMPLER_BINDING_ARRAY.0 == 0 {
            let text = "the `wgpu_binding_array` enable extension is not enabled";
            self.wrong(text, extent);
        }
        let Some(element) = arguments.first() else {
            return Shape::None;
        };
        let element = self.type_of(element);
        let size = match arguments.get(1) {
            Some(count) => self.array_size(count),
            None => ArraySize::Dynamic,
        };
        self.table
            .bindings(&mut self.builder, element, &size, extent)
    }

    // Checks that the extension for an address space is enabled.
    fn check_space(&mut self, space: AddressSpace, extent: Extent) {
        let enabled = self.tree.enabled.0;
        match space {
            AddressSpace::TaskPayload => {
                if enabled & Capabilities::MESH_SHADER.0 == 0 {
                    let text = "the `wgpu_mesh_shader` enable extension is not enabled";
                    self.wrong(text, extent);
                }
            }
            AddressSpace::RayPayload | AddressSpace::IncomingRayPayload => {
                if enabled & Capabilities::RAY_TRACING_PIPELINE.0 == 0 {
                    let text = "the `wgpu_ray_tracing_pipeline` enable extension is not enabled";
                    self.wrong(text, extent);
                }
            }
            _ => {}
        }
    }

    /// The address space that an operand denotes, with its access mode.
    pub fn space(&mut self, operand: &Operand, access: Option<&Operand>) -> AddressSpace {
        let space = match operand.value {
            Value::Word(name) => space_of(self.tree.tokens.word(name)),
            _ => None,
        };
        let Some(space) = space else {
            self.fail(WgslError::of_name("unknown address space: ", operand.extent, ""));
            return AddressSpace::Private;
        };
        self.check_space(space, operand.extent);
        match (space, access) {
            (AddressSpace::Storage { .. }, Some(access)) => AddressSpace::Storage {
                access: self.access(access),
            },
            (AddressSpace::Storage { .. }, None) => AddressSpace::Storage {
                access: StorageAccess(1),
            },
            (_, Some(access)) => {
                self.wrong("unused expressions for template", access.extent);
                space
            }
            (_, None) => space,
        }
    }

    // The access mode that an operand denotes.
    fn access(&mut self, operand: &Operand) -> StorageAccess {
        let access = match operand.value {
            Value::Word(name) => access_of(self.tree.tokens.word(name)),
            // its name is also that of a type
            Value::Maker(TypeWord::Atomic) => access_of(b"atomic"),
            _ => None,
        };
        match access {
            Some(access) => access,
            None => {
                self.fail(WgslError::of_name("unknown access: ", operand.extent, ""));
                StorageAccess(1)
            }
        }
    }

    // A pointer type.
    fn pointer_type(&mut self, arguments: &[Operand], extent: Extent) -> Shape {
        let (Some(space), Some(to)) = (arguments.first(), arguments.get(1)) else {
            self.wrong(
                "`ptr` needs a template argument specified: `T`, a type",
                extent,
            );
            return Shape::None;
        };
        let space = self.space(space, arguments.get(2));
        let to = self.type_of(to);
        self.table.pointer(&mut self.builder, to, space, extent)
    }

    // The type that a type generator produces from template arguments.
    fn made(&mut self, maker: TypeWord, arguments: &[Operand], extent: Extent) -> Shape {
        let Some(first) = arguments.first() else {
            return Shape::None;
        };
        if let Some(more) = arguments.get(maker.most_arguments()) {
            self.wrong("unused expressions for template", more.extent);
        }
        match maker {
            TypeWord::Vector(size) => Shape::Vector(size, self.scalar_type(first)),
            TypeWord::Matrix(columns, rows) => self.matrix_type(columns, rows, first),
            TypeWord::Array => self.array_type(arguments, extent),
            TypeWord::BindingArray => self.bindings_type(arguments, extent),
            TypeWord::Atomic => Shape::Atomic(self.scalar_type(first)),
            TypeWord::Pointer => self.pointer_type(arguments, extent),
            TypeWord::Texture(dim, arrayed, kind) => {
                let class = self.image_class(kind, arguments, extent);
                Shape::Image(dim, arrayed, class)
            }
            TypeWord::Cooperative(size) => self.cooperative(size, arguments, extent),
            TypeWord::Ray(word) => self.ray_template(word, first, extent),
            TypeWord::Scalar(_)
            | TypeWord::VectorOf(..)
            | TypeWord::MatrixOf(..)
            | TypeWord::Sampler(_) => {
                self.wrong("unused expressions for template", first.extent);
                Shape::None
            }
        }
    }

    // The image class of a texture type with these template arguments.
    fn image_class(
        &mut self,
        kind: TextureKind,
        arguments: &[Operand],
        extent: Extent,
    ) -> ImageClass {
        match (kind, arguments.first()) {
            (TextureKind::Sampled, Some(first)) => self.sampled_class(first, false),
            (TextureKind::Multisampled, Some(first)) => self.sampled_class(first, true),
            (TextureKind::Storage, Some(first)) => {
                let format = self.format(first);
                let access = match arguments.get(1) {
                    Some(access) => self.access(access),
                    None => {
                        let text = " needs a template argument specified: `Access`, an access mode";
                        self.fail(WgslError::of_name("", extent, text));
                        StorageAccess(1)
                    }
                };
                ImageClass::Storage { format, access }
            }
            _ => {
                self.wrong("unexpected template", extent);
                ImageClass::Depth { multi: false }
            }
        }
    }

    // The class of a sampled texture with this template argument.
    fn sampled_class(&mut self, operand: &Operand, multi: bool) -> ImageClass {
        let scalar = self.scalar_type(operand);
        if scalar != Scalar::F32 && scalar != Scalar::I32 && scalar != Scalar::U32 {
            let text = "texture sample type must be one of f32, i32 or u32, but found ";
            self.fail(WgslError::of_name(text, operand.extent, ""));
        }
        let kind = scalar.kind;
        ImageClass::Sampled { kind, multi }
    }

    // The storage format that an operand denotes.
    fn format(&mut self, operand: &Operand) -> StorageFormat {
        let format = match operand.value {
            Value::Word(name) => format_of(self.tree.tokens.word(name)),
            _ => None,
        };
        match format {
            Some(format) => format,
            None => {
                self.fail(WgslError::of_name("unknown storage format: ", operand.extent, ""));
                StorageFormat::R32Uint
            }
        }
    }

    // A ray query type with vertex positions.
    fn ray_template(&mut self, word: RayWord, first: &Operand, extent: Extent) -> Shape {
        let is_vertices = match first.value {
            Value::Word(name) => self.tree.tokens.word(name) == b"vertex_return".as_slice(),
            _ => false,
        };
        if matches!(word, RayWord::Descriptor | RayWord::Intersection) {
            self.wrong("unexpected template", extent);
        } else if !is_vertices {
            self.fail(WgslError::of_name("unknown flag: ", first.extent, ""));
        }
        self.ray_word(word, true, extent)
    }

    // A matrix type.
    fn matrix_type(&mut self, columns: VectorSize, rows: VectorSize, first: &Operand) -> Shape {
        let scalar = self.scalar_type(first);
        if scalar.kind != ScalarKind::Float {
            let text = "matrix scalar type must be floating-point, but found ";
            self.fail(WgslError::of_name(text, first.extent, ""));
        }
        Shape::Matrix(columns, rows, scalar)
    }

    // A built-in function with template arguments: a type.
    fn function_template(
        &mut self,
        word: FunctionWord,
        arguments: &[Operand],
        extent: Extent,
    ) -> Value {
        let Some(first) = arguments.first() else {
            return Value::Nothing;
        };
        let value = match word {
            FunctionWord::Bitcast => Value::Bitcast(self.type_of(first)),
            FunctionWord::CooperativeLoad(row_major) => {
                Value::CooperativeLoad(self.type_of(first), row_major)
            }
            _ => {
                self.wrong("unexpected template", extent);
                Value::Nothing
            }
        };
        if let Some(more) = arguments.get(1) {
            self.wrong("unused expressions for template", more.extent);
        }
        value
    }

    /// Lowers an identifier with this many template arguments.
    pub fn template(&mut self, count: u32, token: u32) {
        let arguments = self.take(count);
        let base = self.pop();
        let extent = base.extent.until(self.extent(token));
        let value = match base.value {
            Value::Maker(maker) => Value::Type(self.made(maker, &arguments, base.extent)),
            Value::BuiltIn(word) => self.function_template(word, &arguments, base.extent),
            Value::Word(name) => {
                self.undefined(name, base.extent);
                Value::Nothing
            }
            _ => {
                self.wrong("unexpected template", base.extent);
                Value::Nothing
            }
        };
        self.push(Operand { value, extent });
    }
}
