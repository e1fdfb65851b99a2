// The declarations of types (section 3.52.6).

use crate::shapes::{ImageShape, Shape, TypeHandle, span_of};
use crate::table::{TypeTable, Types, insert};
use ir_arena::handle::Handle;
use ir_flags::{Capabilities, StorageAccess};
use ir_kinds::{AddressSpace, ImageClass, ImageDimension, Scalar, StorageFormat};
use ir_types::{ArraySize, TypeInner};
use spirv_flow::{DIM_SUBPASS_DATA, Use, Uses};
use spirv_numbers::{numbers, ops};
use spirv_tables::{
    Decorated, Demands, Layout, Scan, dimension, image_format, is_norm16, matrix_layout,
    scalar_layout, scalar_type, vector_layout, vector_size,
};
use spirv_words::{Failure, Feature, Instruction, Listing, Malformed, SpirvError, Unsupported};
use std::alloc::Global;

/// What the declarations of a module are read with.
pub struct Reading {
    /// The allocator.
    pub alloc: Global,
    /// The module.
    pub listing: Listing,
    /// What its variables and arguments are used for.
    pub uses: Uses,
    /// What was found of its types before.
    pub scan: Scan,
}

// Written out, so that a drop anywhere is a call into this crate.
impl Drop for Reading {
    fn drop(self) {
        let Reading {
            alloc: _alloc,
            listing: _listing,
            uses: _uses,
            scan: _scan,
        } = self;
    }
}

impl Reading {
    /// A module whose variables and arguments are used for this.
    pub fn of(alloc: Global, listing: Listing, uses: Uses) -> Result<Reading, SpirvError> {
        match Scan::of_module(alloc, &listing) {
            Ok(scan) => Ok(Reading {
                alloc,
                listing,
                uses,
                scan,
            }),
            Err(error) => Err(error),
        }
    }
}

impl TypeTable {
    /// A type that is not an array or a struct.
    pub fn declare<T: Types>(
        &mut self,
        built: &mut T,
        reading: &Reading,
        instruction: &Instruction,
        demands: &mut Demands,
    ) -> Result<(), SpirvError> {
        let mut failed = Failure::NONE;
        let shape = self.declared(&reading.listing, instruction, &mut failed);
        let inner = match shape {
            Shape::Pointer { class, to } => {
                self.pointer(reading, instruction, class, to, &mut failed)
            }
            _ => inner_of(&shape, demands.fetches_positions()),
        };
        let handle = match (inner, shape) {
            (Some(inner), _) => Some(insert(built, inner, span_of(instruction), &mut failed)),
            (None, Shape::SampledImage(image)) => self.handle(image),
            (None, _) => None,
        };
        if is_norm16_image(&shape) {
            demands.ask(Capabilities::STORAGE_TEXTURE_16BIT_NORM_FORMATS);
        }
        self.set(instruction.id, shape, handle, layout_of(&shape));
        failed.answer(())
    }

    // What a type is that is not an array or a struct.
    fn declared(
        &self,
        listing: &Listing,
        instruction: &Instruction,
        failed: &mut Failure,
    ) -> Shape {
        match instruction.opcode {
            ops::TYPE_VOID => Shape::Void,
            ops::TYPE_FUNCTION => Shape::Function,
            ops::TYPE_SAMPLER => Shape::Sampler,
            ops::TYPE_ACCELERATION_STRUCTURE => Shape::AccelerationStructure,
            ops::TYPE_RAY_QUERY => Shape::RayQuery,
            ops::TYPE_BOOL => Shape::Scalar(Scalar::BOOL),
            ops::TYPE_INT | ops::TYPE_FLOAT => {
                let scalar = scalar_type(listing, instruction);
                Shape::Scalar(failed.take(scalar, Scalar::BOOL))
            }
            ops::TYPE_VECTOR | ops::TYPE_MATRIX | ops::TYPE_POINTER => {
                let second = failed.take(listing.need(instruction, 1), 0);
                let first = listing.operand(instruction, 0).unwrap_or(0);
                self.declared_of(instruction, first, second, failed)
            }
            ops::TYPE_SAMPLED_IMAGE => {
                let image = failed.take(listing.need(instruction, 0), 0);
                match self.need(image, instruction) {
                    Ok(_) => {}
                    Err(error) => failed.fail(error),
                }
                Shape::SampledImage(image)
            }
            ops::TYPE_IMAGE => {
                let of = failed.take(listing.need(instruction, 0), 0);
                match self.shape(of) {
                    Shape::Scalar(scalar) => {
                        Shape::Image(read_image(listing, instruction, scalar, failed))
                    }
                    _ => refused(instruction.unsupported_by(Feature::ImageOfNoNumber), failed),
                }
            }
            _ => refused(instruction.unsupported(), failed),
        }
    }

    // What a vector, a matrix or a pointer with these operands is.
    fn declared_of(
        &self,
        instruction: &Instruction,
        first: u32,
        second: u32,
        failed: &mut Failure,
    ) -> Shape {
        let error = match (instruction.opcode, vector_size(second), self.shape(first)) {
            (ops::TYPE_VECTOR, Some(size), Shape::Scalar(scalar)) => {
                return Shape::Vector {
                    size,
                    scalar,
                    component: first,
                };
            }
            (ops::TYPE_MATRIX, Some(columns), Shape::Vector { size, scalar, .. }) => {
                return Shape::Matrix {
                    columns,
                    rows: size,
                    scalar,
                    column: first,
                };
            }
            (ops::TYPE_POINTER, _, _) if !matches!(self.shape(second), Shape::Nothing) => {
                return Shape::Pointer {
                    class: first,
                    to: second,
                };
            }
            (ops::TYPE_POINTER, _, _) => {
                instruction.unsupported_as(Unsupported::StorageClass(first))
            }
            (ops::TYPE_VECTOR, None, _) => {
                instruction.unsupported_as(Unsupported::VectorSize(second))
            }
            _ => instruction.malformed(Malformed::WrongType),
        };
        refused(error, failed)
    }

    // What the type of a pointer is made of, where it is one to a value.
    fn pointer(
        &self,
        reading: &Reading,
        instruction: &Instruction,
        class: u32,
        to: u32,
        failed: &mut Failure,
    ) -> Option<TypeInner> {
        let is_value = matches!(
            self.shape(to),
            Shape::Scalar(_)
                | Shape::Vector { .. }
                | Shape::Matrix { .. }
                | Shape::Array { binding: false, .. }
                | Shape::Struct { .. }
        );
        if !is_value || class == numbers::CLASS_UNIFORM_CONSTANT || class == numbers::CLASS_IMAGE {
            return None;
        }
        let base = failed.take(self.need(to, instruction), Handle::at(0));
        let Some(space) = space_of(reading, class, to) else {
            failed.fail(instruction.unsupported_as(Unsupported::StorageClass(class)));
            return None;
        };
        Some(TypeInner::Pointer { base, space })
    }

    /// An array whose length is known, or is found when it runs.
    pub fn declare_array<T: Types>(
        &mut self,
        built: &mut T,
        reading: &Reading,
        instruction: &Instruction,
        size: &ArraySize,
    ) -> Result<(), SpirvError> {
        let mut failed = Failure::NONE;
        let element = failed.take(reading.listing.need(instruction, 0), 0);
        let base = failed.take(self.need(element, instruction), Handle::at(0));
        let binding = self.is_resource(reading, instruction, element);
        let (inner, layout) = if binding {
            let (base, size) = resources_of(built, instruction, base, size, &mut failed);
            (TypeInner::BindingArray { base, size }, Layout::NONE)
        } else {
            let size = *size;
            let stride = self.stride(&reading.listing, instruction.id, element);
            let layout = self.array_layout(element, &size, stride);
            (TypeInner::Array { base, size, stride }, layout)
        };
        let handle = insert(built, inner, span_of(instruction), &mut failed);
        let shape = Shape::Array {
            element,
            size: *size,
            binding,
        };
        self.set(instruction.id, shape, Some(handle), layout);
        failed.answer(())
    }

    /// The resources that a type is an array of, or an array of arrays of: what each is, and how many they are together.
    pub fn resources(&self, ty: u32) -> Option<Resources> {
        let mut all = self.elements(ty)?;
        for _ in 0..MAX_DEPTH {
            let Some(inside) = self.elements(all.element) else {
                break;
            };
            all = Resources {
                element: inside.element,
                size: product(&all.size, &inside.size)?,
            };
        }
        Some(all)
    }

    // The elements of an array of resources.
    fn elements(&self, ty: u32) -> Option<Resources> {
        match self.shape(ty) {
            Shape::Array {
                element,
                size,
                binding: true,
            } => Some(Resources { element, size }),
            _ => None,
        }
    }

    // From element to element of an array.
    fn stride(&self, listing: &Listing, id: u32, element: u32) -> u32 {
        match Decorated::of(listing, id, None).array_stride {
            Some(stride) => stride,
            None => {
                let layout = self.layout(element);
                u32::try_from(layout.round(layout.size)).unwrap_or(u32::MAX)
            }
        }
    }

    // How an array lies in memory; one whose length is not known as one of one element.
    fn array_layout(&self, element: u32, size: &ArraySize, stride: u32) -> Layout {
        let of_element = self.layout(element);
        let count = match *size {
            ArraySize::Constant(count) => count,
            ArraySize::Pending(_) | ArraySize::Dynamic => 1,
        };
        Layout {
            size: u64::from(count).saturating_mul(u64::from(stride)),
            alignment: of_element.alignment,
            locations: u64::from(count).saturating_mul(of_element.locations),
        }
    }

    // Whether the elements of an array are resources: images, samplers, blocks that are not between stages, or arrays of those.
    fn is_resource(&self, reading: &Reading, instruction: &Instruction, element: u32) -> bool {
        match self.shape(element) {
            shape if shape.is_handle() => true,
            Shape::Array { binding, .. } => binding,
            Shape::Struct { .. } => {
                let said = Decorated::of(&reading.listing, element, None);
                let is_block = said.block || said.buffer_block;
                is_block && !reading.scan.is_between(instruction.id)
            }
            _ => false,
        }
    }
}

// No type, since this is wrong.
fn refused(error: SpirvError, failed: &mut Failure) -> Shape {
    failed.fail(error);
    Shape::Nothing
}

/// Resources in a row.
#[derive(Clone, Copy)]
pub struct Resources {
    /// The type of one.
    pub element: u32,
    /// Number of parts.
    pub size: ArraySize,
}

// The deepest nesting of arrays (universal limit of the standard).
const MAX_DEPTH: usize = 255;

// How many elements arrays in an array have together, where that is known.
fn product(outer: &ArraySize, inner: &ArraySize) -> Option<ArraySize> {
    match (outer, inner) {
        (ArraySize::Constant(outer), ArraySize::Constant(inner)) => {
            Some(ArraySize::Constant(outer.checked_mul(*inner)?))
        }
        _ => None,
    }
}

// The elements of an array of resources, and how many there are. One of arrays of them is built as one array of all.
fn resources_of<T: Types>(
    built: &T,
    instruction: &Instruction,
    element: TypeHandle,
    count: &ArraySize,
    failed: &mut Failure,
) -> (TypeHandle, ArraySize) {
    let Some(TypeInner::BindingArray { base, size }) = built.inner(element) else {
        return (element, *count);
    };
    match product(count, size) {
        Some(whole) => (*base, whole),
        None => {
            failed.fail(instruction.unsupported_by(Feature::ResourceArrays));
            (*base, *count)
        }
    }
}

// How a value of a type lies in memory that is not an array or a struct.
fn layout_of(shape: &Shape) -> Layout {
    match *shape {
        Shape::Scalar(scalar) => scalar_layout(scalar),
        Shape::Vector { size, scalar, .. } => vector_layout(size, scalar),
        Shape::Matrix {
            columns,
            rows,
            scalar,
            ..
        } => matrix_layout(columns, rows, scalar),
        Shape::Pointer { .. } => POINTER,
        _ => Layout::NONE,
    }
}

// How a pointer lies in memory.
const POINTER: Layout = Layout {
    size: 4,
    alignment: 4,
    locations: 1,
};

// What an image is declared as: dimension, depth, layers, samples, whether sampled or for storage, format.
fn read_image(
    listing: &Listing,
    instruction: &Instruction,
    scalar: Scalar,
    failed: &mut Failure,
) -> ImageShape {
    let number = failed.take(listing.need(instruction, 1), 0);
    let attachment = number == DIM_SUBPASS_DATA;
    let plain = if attachment { numbers::DIM_2_D } else { number };
    let dim = match dimension(plain) {
        Some(dim) => Ok(dim),
        None => Err(instruction.unsupported_as(Unsupported::Dimension(number))),
    };
    let dim = failed.take(dim, ImageDimension::D2);
    let is_storage = failed.take(listing.need(instruction, 5), 0) == 2 && !attachment;
    let format = if is_storage {
        let format = image_format(listing, instruction);
        Some(failed.take(format, StorageFormat::R32Uint))
    } else {
        None
    };
    let multi = listing.operand(instruction, 4) != Some(0);
    let wide = format == Some(StorageFormat::R64Uint);
    if multi && is_storage {
        failed.fail(instruction.unsupported_by(Feature::MultisampledStorage));
    }
    if scalar.width != 4 && !wide {
        failed.fail(instruction.unsupported_by(Feature::ImageWidth));
    }
    ImageShape {
        dim,
        arrayed: listing.operand(instruction, 3) != Some(0),
        multi,
        depth: listing.operand(instruction, 2) == Some(1),
        scalar,
        format,
        attachment,
    }
}

// Whether it is an image whose texels are fractions of 16 bits.
fn is_norm16_image(shape: &Shape) -> bool {
    match shape {
        Shape::Image(
            ImageShape {
                format: Some(format),
                ..
            },
        ) => is_norm16(*format),
        _ => false,
    }
}

// What a number, a vector, a matrix, an image or a sampler is made of, or what is for rays, with the vertices that they hit or not.
fn inner_of(shape: &Shape, vertex_return: bool) -> Option<TypeInner> {
    match *shape {
        Shape::Scalar(scalar) => Some(TypeInner::Scalar(scalar)),
        Shape::Vector { size, scalar, .. } => Some(TypeInner::Vector { size, scalar }),
        Shape::Matrix {
            columns,
            rows,
            scalar,
            ..
        } => Some(TypeInner::Matrix {
            columns,
            rows,
            scalar,
        }),
        Shape::Image(image) => Some(image_inner(&image, Use::NONE, StorageAccess(0))),
        Shape::Sampler => Some(TypeInner::Sampler { comparison: false }),
        Shape::AccelerationStructure => Some(TypeInner::AccelerationStructure { vertex_return }),
        Shape::RayQuery => Some(TypeInner::RayQuery { vertex_return }),
        _ => None,
    }
}

/// What the type of an image is made of that is used so, and may be accessed so where it is for storage.
pub fn image_inner(image: &ImageShape, used: Use, access: StorageAccess) -> TypeInner {
    TypeInner::Image {
        dim: image.dim,
        arrayed: image.arrayed,
        class: image_class(image, used, access),
    }
}

/// The class of an image that is used so.
pub fn image_class(image: &ImageShape, used: Use, access: StorageAccess) -> ImageClass {
    match image.format {
        Some(format) => ImageClass::Storage { format, access },
        None if image.depth || used.compared => ImageClass::Depth { multi: image.multi },
        None => ImageClass::Sampled {
            kind: image.scalar.kind,
            multi: image.multi,
        },
    }
}

/// The space of a storage class, for what points to a type; a storage buffer with all accesses.
pub fn space_of(reading: &Reading, class: u32, to: u32) -> Option<AddressSpace> {
    match class {
        numbers::CLASS_UNIFORM if !reading.scan.is_buffer_block(to) => Some(AddressSpace::Uniform),
        numbers::CLASS_STORAGE_BUFFER | numbers::CLASS_UNIFORM => Some(AddressSpace::Storage {
            access: StorageAccess(0),
        }),
        numbers::CLASS_INPUT | numbers::CLASS_OUTPUT | numbers::CLASS_PRIVATE => {
            Some(AddressSpace::Private)
        }
        numbers::CLASS_WORKGROUP => Some(AddressSpace::WorkGroup),
        numbers::CLASS_TASK_PAYLOAD_WORKGROUP_EXT => Some(AddressSpace::TaskPayload),
        numbers::CLASS_RAY_PAYLOAD_KHR => Some(AddressSpace::RayPayload),
        numbers::CLASS_INCOMING_RAY_PAYLOAD_KHR => Some(AddressSpace::IncomingRayPayload),
        numbers::CLASS_FUNCTION => Some(AddressSpace::Function),
        numbers::CLASS_PUSH_CONSTANT => Some(AddressSpace::Immediate),
        numbers::CLASS_UNIFORM_CONSTANT => Some(AddressSpace::Handle),
        _ => None,
    }
}
