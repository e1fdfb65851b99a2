// Functions.

use crate::lowering::Lowering;
use crate::writing::{Writing, read_in, type_in};
use ir_flags::StorageAccess;
use ir_items::{Expression, FunctionArgument, FunctionResult};
use ir_types::{IrType, TypeInner};
use spirv_declarations::{Knowledge, sampler_name};
use spirv_expressions::{Builder, Emits, Value, keep};
use spirv_flow::{FunctionSteps, Use};
use spirv_functions::assemble;
use spirv_numbers::{numbers, ops};
use spirv_operations::{FunctionBuilder, Names, Slot, Special, root};
use spirv_rays::RayTypes;
use spirv_tables::Decorated;
use spirv_types::{
    ImageShape, ImageUse, Shape, TypeHandle, Types, image_class, image_inner, span_of,
};
use spirv_words::{Failure, Feature, FunctionParts, Instruction, Malformed};

/// The functions of a module, in the IR.
pub struct Lowered<K: Knowledge, T: Types, W: Writing> {
    /// What is known of the module, and what its functions require as well.
    pub known: K,
    /// Its types.
    pub built: T,
    /// Its functions as they are written, callees first.
    pub body: W,
    /// The structs that their expressions give.
    pub special: Vec<Special>,
    /// The types of rays.
    pub rays: RayTypes,
}

/// Builds the functions of a module, unless there was an error. Where the body has recorded an error, the result must not be used.
pub fn lower_functions<K: Knowledge, T: Types, W: Writing>(
    known: K,
    built: T,
    body: W,
    failed: &mut Failure,
) -> Lowered<K, T, W> {
    let alloc = known.reading().alloc;
    let names = Names::new(alloc, known.reading().listing.bound(), failed);
    let mut lowering = Lowering {
        alloc,
        known,
        built,
        body,
        names,
        rays: RayTypes::NONE,
        scope: 0,
    };
    if let Some(error) = failed.first {
        lowering.fail(error);
    }
    lowering.lower_all();
    if let Some(error) = lowering.body.failure() {
        failed.fail(error);
    }
    lowering.finish()
}

impl<K: Knowledge, T: Types, W: Writing> Lowering<K, T, W> {
    // The result.
    fn finish(self) -> Lowered<K, T, W> {
        let Lowering {
            alloc: _,
            known,
            built,
            body,
            names,
            rays,
            scope: _,
        } = self;
        Lowered {
            known,
            built,
            body,
            special: names.finish(),
            rays,
        }
    }

    // Builds all functions.
    fn lower_all(&mut self) {
        for place in 0..self.known.flow().functions.len() {
            if self.has_failed() {
                break;
            }
            let flow = self.known.flow();
            let Some(steps) = flow.functions.get(place).copied() else {
                break;
            };
            if let Some(blocks) = flow.blocks.functions.get(steps.function as usize).copied() {
                self.lower_function(&blocks.parts, &steps);
            }
        }
    }

    // Builds one function.
    fn lower_function(&mut self, parts: &FunctionParts, steps: &FunctionSteps) {
        self.names.begin();
        let start = self.known.reading().listing.at(parts.start);
        let name = self.name_of(start.id);
        let result = match self.shape(start.ty) {
            Shape::Void => None,
            _ => Some(FunctionResult {
                ty: self.built(start.ty, &start),
                binding: None,
            }),
        };
        let arguments = self.take_parameters(parts);
        let body = assemble(self.alloc, self, steps);
        self.body
            .end_function(name, arguments, result, body, span_of(&start));
    }

    // The arguments of a function.
    fn take_parameters(&mut self, parts: &FunctionParts) -> Vec<FunctionArgument> {
        let mut arguments = Vec::new(self.alloc);
        for place in parts.start.saturating_add(1)..parts.end {
            let parameter = self.known.reading().listing.at(place);
            if parameter.opcode == ops::LABEL {
                break;
            }
            if parameter.opcode == ops::FUNCTION_PARAMETER {
                self.take_parameter(&parameter, &mut arguments);
            }
        }
        arguments
    }

    // Adds an argument; returns the expression that it is.
    fn add_argument(
        &mut self,
        operation: &Instruction,
        arguments: &mut Vec<FunctionArgument>,
        name: Option<String>,
        ty: TypeHandle,
    ) -> Value {
        let number = u32::try_from(arguments.len()).unwrap_or(u32::MAX);
        let argument = FunctionArgument {
            name,
            ty,
            binding: None,
        };
        keep(&mut self.body, arguments, argument);
        self.always(Expression::FunctionArgument(number), operation)
    }

    // A parameter: a value, a pointer, an image, a sampler, or an image with a sampler as two arguments.
    fn take_parameter(&mut self, operation: &Instruction, arguments: &mut Vec<FunctionArgument>) {
        let parameter = *operation;
        let (class, ty) = match self.shape(parameter.ty) {
            Shape::Pointer { class, to } => (Some(class), to),
            _ => (None, parameter.ty),
        };
        let leaf = self.shape(ty);
        if matches!(leaf, Shape::Array { binding: true, .. }) {
            self.take_resources(operation);
            return;
        }
        if class == Some(numbers::CLASS_UNIFORM_CONSTANT) || class.is_none() && leaf.is_handle() {
            self.take_handle(operation, arguments, ty);
            return;
        }
        if leaf.is_handle() {
            self.fail(operation.unsupported_by(Feature::ImagePointerArgument));
        }
        let built = self.built(parameter.ty, operation);
        let name = self.name_of(parameter.id);
        let value = self.add_argument(operation, arguments, name, built);
        let slot = if class.is_some() {
            Slot::Pointer(self.add_pointer(root(value, ty)))
        } else {
            Slot::Value {
                value,
                scope: None,
                local: None,
            }
        };
        self.names.set(parameter.id, slot);
    }

    // A parameter that is an array of resources: the variable that every call passes for it, which is no argument here.
    fn take_resources(&mut self, operation: &Instruction) {
        let id = operation.id;
        let reading = self.known.reading();
        let Some(variable) = reading.uses.always_passed(&reading.listing, id) else {
            self.fail(operation.unsupported_by(Feature::ImageArrayArgument));
            return;
        };
        let slot = self.resolve(variable, operation);
        self.names.set(id, slot);
    }

    // A parameter that is an image, a sampler, or both, or an acceleration structure.
    fn take_handle(
        &mut self,
        operation: &Instruction,
        arguments: &mut Vec<FunctionArgument>,
        ty: u32,
    ) {
        let id = operation.id;
        let used = self.known.reading().uses.of(id);
        let shape = self.shape(ty);
        if used.compared && used.sampled && !matches!(shape, Shape::Image(_)) {
            self.fail(operation.unsupported_by(Feature::MixedComparison));
        }
        let slot = match shape {
            Shape::Image(image) => {
                Slot::Pointer(self.take_image(operation, arguments, ty, &image, used))
            }
            Shape::Sampler => Slot::Pointer(self.take_sampler(operation, arguments, ty, false)),
            Shape::AccelerationStructure => {
                let built = self.built(ty, operation);
                let name = self.name_of(id);
                let value = self.add_argument(operation, arguments, name, built);
                Slot::Pointer(self.add_pointer(root(value, ty)))
            }
            Shape::SampledImage(of) => match self.shape(of) {
                Shape::Image(image) => Slot::Pair {
                    image: self.take_image(operation, arguments, ty, &image, used),
                    sampler: self.take_sampler(operation, arguments, ty, true),
                },
                _ => {
                    self.fail(operation.malformed(Malformed::WrongType));
                    Slot::Nothing
                }
            },
            _ => {
                self.fail(operation.unsupported_by(Feature::ImageArrayArgument));
                Slot::Nothing
            }
        };
        self.names.set(id, slot);
    }

    // A parameter that is an image.
    fn take_image(
        &mut self,
        operation: &Instruction,
        arguments: &mut Vec<FunctionArgument>,
        ty: u32,
        image: &ImageShape,
        used: Use,
    ) -> u32 {
        let id = operation.id;
        let mut access = StorageAccess(0);
        if image.format.is_some() {
            let atomic = if used.atomic {
                StorageAccess::ATOMIC.0
            } else {
                0
            };
            let said = Decorated::of(&self.known.reading().listing, id, None);
            access = StorageAccess(said.access().0 | atomic);
        }
        let span = span_of(operation);
        let inner = image_inner(image, used, access);
        let made = self.built.insert(IrType { name: None, inner }, span);
        let built = type_in(&mut self.body, made);
        let name = self.name_of(id);
        let value = self.add_argument(operation, arguments, name, built);
        let mut pointer = root(value, ty);
        pointer.image = Some(ImageUse {
            shape: *image,
            class: image_class(image, used, access),
        });
        self.add_pointer(pointer)
    }

    // A parameter that is a sampler, alone or beside an image.
    fn take_sampler(
        &mut self,
        operation: &Instruction,
        arguments: &mut Vec<FunctionArgument>,
        ty: u32,
        beside: bool,
    ) -> u32 {
        let id = operation.id;
        let comparison = self.known.reading().uses.of(id).compared;
        let span = span_of(operation);
        let inner = TypeInner::Sampler { comparison };
        let made = self.built.insert(IrType { name: None, inner }, span);
        let built = type_in(&mut self.body, made);
        let name = if beside {
            let name = sampler_name(self.alloc, &self.known.reading().listing, id);
            read_in(&mut self.body, name.map(Some))
        } else {
            self.name_of(id)
        };
        let value = self.add_argument(operation, arguments, name, built);
        self.add_pointer(root(value, ty))
    }
}
