// Calls of functions.

use crate::builder::{FunctionBuilder, MeshPlace, Slot};
use ir_arena::handle::{Handle, NonMaxU32};
use ir_blocks::Statement;
use ir_types::Expression;
use spirv_expressions::{Value, keep, need, refuse};
use spirv_types::Shape;
use spirv_words::{Feature, Instruction, Malformed};

/// A call of a function that was built before.
pub fn call_function<L: FunctionBuilder>(lowering: &mut L, operation: &Instruction) {
    let mut arguments = Vec::new(lowering.alloc());
    for place in 1..lowering.given_count(operation) {
        let id = need(lowering, operation, place);
        let [first, second] = argument(lowering, id, operation);
        if let Some(value) = first {
            keep(lowering, &mut arguments, value);
        }
        if let Some(value) = second {
            keep(lowering, &mut arguments, value);
        }
    }
    let callee = need(lowering, operation, 0);
    let place = lowering
        .flow()
        .order
        .place_of(callee)
        .and_then(NonMaxU32::new);
    let Some(place) = place else {
        lowering.fail(operation.malformed(Malformed::NoFunction));
        return;
    };
    let function = Handle::new(place);
    if matches!(lowering.shape(operation.ty), Shape::Void) {
        let call = Statement::Call {
            function,
            arguments,
            result: None,
        };
        return lowering.add(call, operation);
    }
    let value = lowering.always(Expression::CallResult(function), operation);
    let call = Statement::Call {
        function,
        arguments,
        result: Some(value),
    };
    lowering.add(call, operation);
    lowering.define(operation, value)
}

// The values passed for an argument: two for a combined image and sampler.
fn argument<L: FunctionBuilder>(
    lowering: &mut L,
    id: u32,
    operation: &Instruction,
) -> [Option<Value>; 2] {
    if is_resources(lowering, id) {
        return [None, None];
    }
    let is_value = matches!(lowering.slot(id), Slot::Value { .. });
    if is_value || lowering.is_known(id) {
        return [Some(lowering.value(id, operation)), None];
    }
    match lowering.resolve(id, operation) {
        Slot::Pair { image, sampler } => {
            let image = pointer(lowering, image, operation);
            let sampler = pointer(lowering, sampler, operation);
            [Some(image), Some(sampler)]
        }
        Slot::Pointer(place) => [Some(pointer(lowering, place, operation)), None],
        Slot::Nothing | Slot::Value { .. } | Slot::Texel { .. } => {
            lowering.fail(operation.malformed(Malformed::NoValue));
            [None, None]
        }
    }
}

// Whether an argument is an array of resources, which the callee accesses as a global variable.
fn is_resources<L: FunctionBuilder>(lowering: &L, id: u32) -> bool {
    match lowering.shape(lowering.type_of(id)) {
        Shape::Pointer { to, .. } => {
            matches!(lowering.shape(to), Shape::Array { binding: true, .. })
        }
        _ => false,
    }
}

// A pointer that is passed; none to matrices that are stored row by row.
fn pointer<L: FunctionBuilder>(lowering: &mut L, place: u32, operation: &Instruction) -> Value {
    let pointer = lowering.pointer_at(place, operation);
    let is_matrix = matches!(
        lowering.shape(pointer.ty),
        Shape::Vector { .. } | Shape::Matrix { .. } | Shape::Array { .. }
    );
    if pointer.resources.is_some() {
        return refuse(
            lowering,
            operation.unsupported_by(Feature::ImageArrayArgument),
        );
    }
    if !matches!(pointer.mesh, MeshPlace::Plain) {
        return refuse(lowering, operation.unsupported_by(Feature::MeshWhole));
    }
    if pointer.column.is_some() || !pointer.stored.is_plain() && is_matrix {
        let instruction = operation;
        let error = pointer
            .stored
            .unsupported(instruction, Feature::RowMajorArgument);
        return refuse(lowering, error);
    }
    lowering.way(place, operation)
}
