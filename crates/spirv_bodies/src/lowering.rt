// A function that is being built out of its instructions.

use crate::writing::Writing;
use ir_items::Expression;
use spirv_constants::{Known, Made, named};
use spirv_declarations::{Knowledge, MeshPart};
use spirv_expressions::{Builder, Emits, Value, keep, refuse};
use spirv_flow::is_chain;
use spirv_operations::{FunctionBuilder, MeshPlace, Names, Pointer, PointerStep, Slot};
use spirv_rays::RayTypes;
use spirv_types::{Types, span_of};
use spirv_words::{Feature, Instruction, Malformed, SpirvError, Unsupported};
use std::alloc::Global;

/// What functions are built with, one after the other.
pub struct Lowering<K: Knowledge, T: Types, W: Writing> {
    pub(crate) alloc: Global,
    /// What is known of the module.
    pub known: K,
    /// Its types.
    pub built: T,
    /// The function that is built.
    pub body: W,
    /// What its ids are, and its pointers.
    pub names: Names,
    /// The types of rays, once they are built.
    pub rays: RayTypes,
    // the scope that is built
    pub(crate) scope: u32,
}

// The parts of a composite: the first, and how many.
fn parts_of(made: &Made) -> Option<(u32, u32)> {
    match made {
        Made::Parts { first, count } => Some((*first, *count)),
        Made::Nothing | Made::Constant(_) | Made::Override(_) => None,
    }
}

// How deep composites of specialization constants may nest.
const MAX_DEPTH: u32 = 32;

impl<K: Knowledge, T: Types, W: Writing> Lowering<K, T, W> {
    /// Whether what is in a scope is so here.
    pub(crate) fn reaches(&self, scope: Option<u32>) -> bool {
        match scope {
            None => true,
            Some(scope) => self.known.flow().steps.scopes.reaches(scope, self.scope),
        }
    }

    /// The expression of the constant or variable with this id, made once a function.
    pub(crate) fn name(
        &mut self,
        id: u32,
        expression: Expression,
        operation: &Instruction,
    ) -> Value {
        if let Some(value) = self.names.named(id) {
            return value;
        }
        let value = self.body.place(expression, span_of(operation));
        self.names.set_named(id, value);
        value
    }

    /// The expression of the sampler beside an image.
    pub(crate) fn name_sampler(
        &mut self,
        id: u32,
        expression: Expression,
        operation: &Instruction,
    ) -> Value {
        if let Some(value) = self.names.sampler(id) {
            return value;
        }
        let value = self.body.place(expression, span_of(operation));
        self.names.set_sampler(id, value);
        value
    }

    // The value of a known constant.
    #[cycle(constants)]
    fn constant_value(
        &mut self,
        id: u32,
        known: Option<Known>,
        operation: &Instruction,
        depth: u32,
    ) -> Option<Value> {
        let known = known?;
        if let Some(expression) = named(&known.made) {
            return Some(self.name(id, expression, operation));
        }
        let (first, count) = parts_of(&known.made)?;
        Some(self.composite(known.ty, first, count, operation, depth))
    }

    // A composite of constants, composed here.
    #[cycle(constants)]
    fn composite(
        &mut self,
        ty: u32,
        first: u32,
        count: u32,
        operation: &Instruction,
        depth: u32,
    ) -> Value {
        let Some(depth) = depth.checked_sub(1) else {
            return refuse(
                &mut self.body,
                operation.unsupported_by(Feature::DeepComposite),
            );
        };
        let mut components = Vec::new(self.alloc);
        for place in 0..count {
            if self.has_failed() {
                break;
            }
            let part = self.known.declared().constants.part(first, place);
            let known = self.known.declared().constants.of_part(part);
            match self.constant_value(part, known, operation, depth) {
                Some(value) => keep(&mut self.body, &mut components, value),
                None => self.body.fail(operation.malformed(Malformed::NoConstant)),
            }
        }
        let ty = self.built(ty, operation);
        self.emit(Expression::Compose { ty, components }, operation)
    }

    /// The value of an id that is a constant or a value of the function, and no pointer.
    pub fn plain_value(&mut self, id: u32, operation: &Instruction) -> Option<Value> {
        let Slot::Value {
            value,
            scope,
            local,
        } = self.names.slot(id)
        else {
            let known = self.known.declared().constants.of(id);
            return self.constant_value(id, known, operation, MAX_DEPTH);
        };
        if self.reaches(scope) {
            return Some(value);
        }
        match local {
            Some(pointer) => Some(self.emit(Expression::Load { pointer }, operation)),
            None => Some(refuse(
                &mut self.body,
                operation.unsupported_by(Feature::ValueOutOfScope),
            )),
        }
    }

    // The pointer to what a mesh stage gives by a variable, in the variable at this place that holds all of it: its vertices, or
    // after them its primitives.
    pub(crate) fn given_in(
        &mut self,
        place: u32,
        outputs: Pointer,
        part: MeshPart,
        operation: &Instruction,
    ) -> u32 {
        let step = PointerStep::Index(u32::from(part.of_primitive));
        let mut given = outputs;
        given.base = Some(place);
        given.step = step;
        given.value = self.step(outputs.value, step, operation);
        given.scope = Some(self.scope);
        given.mesh = MeshPlace::Members(part.first);
        self.add_pointer(given)
    }

    /// The error for an id that is neither a value nor a pointer here.
    pub(crate) fn missing(&self, id: u32, operation: &Instruction) -> SpirvError {
        match self.known.reading().listing.definition(id) {
            None => operation.malformed(Malformed::Undefined),
            Some(made) if is_chain(made.opcode) => operation.malformed(Malformed::NoPointer),
            Some(made) => operation.unsupported_as(Unsupported::ValueOf(made.opcode)),
        }
    }
}
