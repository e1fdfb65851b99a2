// Memory, and pointers to images (sections 3.52.8 and 3.52.10).

use crate::builder::{FunctionBuilder, PointerStep, Slot, root};
use crate::pointers::{chain, load, store_into};
use ir_arena::span::Span;
use ir_blocks::Statement;
use ir_types::Expression;
use spirv_expressions::{Value, component_count, need, part_of};
use spirv_numbers::ops;
use spirv_types::{Shape, span_of};
use spirv_words::{Feature, Instruction, Malformed, SpirvError};
use std::alloc::AllocError;

/// Translates an operation on memory; returns false for other operations.
pub fn memory<L: FunctionBuilder>(lowering: &mut L, operation: &Instruction) -> bool {
    match operation.opcode {
        ops::VARIABLE => declare_local(lowering, operation),
        ops::LOAD => load_value(lowering, operation),
        ops::STORE => store(lowering, operation),
        ops::COPY_MEMORY => copy_memory(lowering, operation),
        ops::ACCESS_CHAIN | ops::IN_BOUNDS_ACCESS_CHAIN => chain(lowering, operation, false),
        ops::COPY_OBJECT => copy_object(lowering, operation),
        ops::COMPOSITE_EXTRACT if lowering.shape(operation.ty).is_handle() => {
            chain(lowering, operation, true)
        }
        ops::ARRAY_LENGTH => array_length(lowering, operation),
        ops::IMAGE_TEXEL_POINTER => point_at_texel(lowering, operation),
        ops::SAMPLED_IMAGE => combine(lowering, operation),
        ops::IMAGE => {
            let id = need(lowering, operation, 0);
            let place = lowering.pointer(id, operation);
            lowering.set(operation.id, Slot::Pointer(place));
        }
        ops::UNDEF => undefined(lowering, operation),
        _ => return false,
    }
    true
}

// A texel of an image.
fn point_at_texel<L: FunctionBuilder>(lowering: &mut L, operation: &Instruction) {
    let image = need(lowering, operation, 0);
    let coordinate = need(lowering, operation, 1);
    lowering.set(operation.id, Slot::Texel { image, coordinate });
}

// A local variable.
fn declare_local<L: FunctionBuilder>(lowering: &mut L, operation: &Instruction) {
    let instruction = *operation;
    let Shape::Pointer { to, .. } = lowering.shape(instruction.ty) else {
        lowering.fail(operation.malformed(Malformed::NoPointer));
        return;
    };
    let shape = lowering.shape(to);
    if shape.is_handle() || matches!(shape, Shape::Pointer { .. }) {
        lowering.fail(operation.unsupported());
        return;
    }
    let ty = lowering.built(to, operation);
    let init = match lowering.given(operation, 1) {
        Some(id) => Some(lowering.value(id, operation)),
        None => None,
    };
    let name = lowering.name_of(instruction.id);
    let span = span_of(&instruction);
    let value = lowering.local(name, ty, init, span);
    let place = lowering.add_pointer(root(value, to));
    lowering.set(instruction.id, Slot::Pointer(place));
}

// Loads through a pointer; an image, a sampler or an array of those stays a pointer.
fn load_value<L: FunctionBuilder>(lowering: &mut L, operation: &Instruction) {
    let id = operation.id;
    let shape = lowering.shape(operation.ty);
    let from = need(lowering, operation, 0);
    let slot = lowering.resolve(from, operation);
    if is_resource(lowering, &shape) || matches!(slot, Slot::Pair { .. }) {
        lowering.set(id, slot);
        return;
    }
    let Slot::Pointer(place) = slot else {
        lowering.fail(operation.malformed(Malformed::NoPointer));
        return;
    };
    if matches!(
        shape,
        Shape::Pointer { .. } | Shape::Array { binding: true, .. }
    ) {
        lowering.fail(operation.unsupported());
        return;
    }
    let value = load(lowering, place, operation);
    lowering.define(operation, value)
}

// Whether it is an image, a sampler or an array of those.
fn is_resource<L: FunctionBuilder>(lowering: &L, shape: &Shape) -> bool {
    match shape {
        Shape::Array {
            element,
            binding: true,
            ..
        } => lowering.shape(*element).is_handle(),
        other => other.is_handle(),
    }
}

// Stores a value through a pointer.
fn store<L: FunctionBuilder>(lowering: &mut L, operation: &Instruction) {
    let to = need(lowering, operation, 0);
    let Slot::Pointer(place) = lowering.resolve(to, operation) else {
        lowering.fail(operation.unsupported_by(Feature::StoreOfPair));
        return;
    };
    let from = need(lowering, operation, 1);
    let value = lowering.value(from, operation);
    match lowering.pointer_at(place, operation).column {
        Some(column) => store_column(lowering, operation, place, column, value),
        None => store_into(lowering, place, value, operation),
    }
}

// Stores a column of a row-major matrix, component by component.
fn store_column<L: FunctionBuilder>(
    lowering: &mut L,
    operation: &Instruction,
    place: u32,
    column: PointerStep,
    vector: Value,
) {
    let matrix = lowering.way(place, operation);
    let ty = lowering.pointer_at(place, operation).ty;
    let count = component_count(lowering.shape(ty));
    let first = lowering.pointer_at(place, operation).split.unwrap_or(0);
    for index in 0..count {
        let row = part_of(lowering, operation, matrix, first.saturating_add(index));
        let pointer = lowering.step(row, column, operation);
        let value = part_of(lowering, operation, vector, index);
        lowering.add(Statement::Store { pointer, value }, operation);
    }
}

// `OpCopyMemory`.
fn copy_memory<L: FunctionBuilder>(lowering: &mut L, operation: &Instruction) {
    let from = need(lowering, operation, 1);
    let from = lowering.pointer(from, operation);
    let to = need(lowering, operation, 0);
    let to = lowering.pointer(to, operation);
    let value = load(lowering, from, operation);
    store_into(lowering, to, value, operation);
}

// An alias of another id.
fn copy_object<L: FunctionBuilder>(lowering: &mut L, operation: &Instruction) {
    let id = need(lowering, operation, 0);
    let shape = lowering.shape(lowering.type_of(id));
    if shape.is_handle() || matches!(shape, Shape::Pointer { .. }) {
        let slot = lowering.resolve(id, operation);
        lowering.set(operation.id, slot);
        return;
    }
    let value = lowering.value(id, operation);
    lowering.define(operation, value)
}

// `OpArrayLength`.
fn array_length<L: FunctionBuilder>(lowering: &mut L, operation: &Instruction) {
    let id = need(lowering, operation, 0);
    let member = need(lowering, operation, 1);
    let place = lowering.pointer(id, operation);
    let block = lowering.way(place, operation);
    let ty = lowering.pointer_at(place, operation).ty;
    let index = match lowering.part(ty, member) {
        Some(part) => part.index,
        None => member,
    };
    let array = part_of(lowering, operation, block, index);
    let value = lowering.emit(Expression::ArrayLength(array), operation);
    lowering.define(operation, value);
}

// An image with a sampler.
fn combine<L: FunctionBuilder>(lowering: &mut L, operation: &Instruction) {
    let image = need(lowering, operation, 0);
    let image = lowering.pointer(image, operation);
    let sampler = need(lowering, operation, 1);
    let sampler = lowering.pointer(sampler, operation);
    lowering.set(operation.id, Slot::Pair { image, sampler });
}

// An undefined value.
fn undefined<L: FunctionBuilder>(lowering: &mut L, operation: &Instruction) {
    let ty = lowering.built(operation.ty, operation);
    let value = lowering.always(Expression::ZeroValue(ty), operation);
    lowering.set(
        operation.id,
        Slot::Value {
            value,
            scope: None,
            local: None,
        },
    );
}

/// A name that was made, if there was memory for it.
pub fn made_name<L: FunctionBuilder>(
    lowering: &mut L,
    name: Result<String, AllocError>,
) -> Option<String> {
    match name {
        Ok(name) => Some(name),
        Err(_) => {
            lowering.fail(SpirvError::Memory);
            None
        }
    }
}

/// The local of an `OpPhi`, made at its first use.
pub fn phi_local<L: FunctionBuilder>(lowering: &mut L, phi: u32, operation: &Instruction) -> Value {
    if let Some(local) = lowering.named_before(phi) {
        return local;
    }
    let ty = lowering.type_of(phi);
    let ty = lowering.built(ty, operation);
    let name = format!(in lowering.alloc(); "phi_{phi}");
    let name = made_name(lowering, name);
    let local = lowering.local(name, ty, None, Span::UNDEFINED);
    lowering.set_named(phi, local);
    local
}
