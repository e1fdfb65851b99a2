// Rays (the extensions ray_query, ray_tracing_position_fetch and ray_tracing).

use ir_blocks::{RayPipelineFunction, RayQueryFunction, Statement};
use ir_kinds::ScalarKind;
use ir_types::Expression;
use spirv_expressions::{Value, compose, keep, need, no_type, operand, refuse, signed};
use spirv_numbers::{numbers, ops};
use spirv_operations::FunctionBuilder;
use spirv_rays::found;
use spirv_types::{Shape, span_of};
use spirv_words::{Feature, Instruction};

/// Translates an instruction on a ray query.
pub fn ray_query<L: FunctionBuilder>(lowering: &mut L, operation: &Instruction) {
    let query = query_of(lowering, operation);
    // the result types of queries must exist
    let _ = lowering.rays();
    let fun = match operation.opcode {
        ops::RAY_QUERY_INITIALIZE => {
            let (acceleration_structure, descriptor) = ray_of(lowering, operation, 1, 4);
            RayQueryFunction::Initialize {
                acceleration_structure,
                descriptor,
            }
        }
        ops::RAY_QUERY_TERMINATE => RayQueryFunction::Terminate,
        ops::RAY_QUERY_GENERATE_INTERSECTION => {
            let hit_t = operand(lowering, operation, 1);
            RayQueryFunction::GenerateIntersection { hit_t }
        }
        ops::RAY_QUERY_CONFIRM_INTERSECTION => RayQueryFunction::ConfirmIntersection,
        ops::RAY_QUERY_PROCEED => {
            let result = lowering.always(Expression::RayQueryProceedResult, operation);
            let fun = RayQueryFunction::Proceed { result };
            lowering.add(Statement::RayQuery { query, fun }, operation);
            return lowering.define(operation, result);
        }
        _ => match found(lowering, operation, query) {
            Some(value) => return lowering.define(operation, value),
            None => return lowering.fail(operation.unsupported()),
        },
    };
    lowering.add(Statement::RayQuery { query, fun }, operation);
}

// The query: a local variable, or a private one used in this function alone, which becomes a local.
fn query_of<L: FunctionBuilder>(lowering: &mut L, operation: &Instruction) -> Value {
    let id = need(lowering, operation, 0);
    if let Some(local) = lowering.named_before(id) {
        return local;
    }
    let made = lowering.reading().listing.defined(id);
    let own = match lowering.shape(made.ty) {
        Shape::Pointer { class, to } if made.opcode == ops::VARIABLE => Some((class, to)),
        _ => None,
    };
    match own {
        Some((numbers::CLASS_FUNCTION, _)) => {
            let place = lowering.pointer(id, operation);
            lowering.way(place, operation)
        }
        Some((numbers::CLASS_PRIVATE, to)) if !lowering.is_named(id) => {
            let ty = lowering.built(to, operation);
            let name = lowering.name_of(id);
            let local = lowering.local(name, ty, None, span_of(&made));
            lowering.set_named(id, local);
            local
        }
        _ => refuse(
            lowering,
            operation.unsupported_by(Feature::RayQueryVariable),
        ),
    }
}

// The acceleration structure at an operand index, and the ray: its flags and mask after it, and from another index on its origin, the least
// distance of a hit, its direction and the greatest distance.
fn ray_of<L: FunctionBuilder>(
    lowering: &mut L,
    operation: &Instruction,
    structure: usize,
    origin: usize,
) -> (Value, Value) {
    let descriptor = lowering.rays().descriptor;
    let id = need(lowering, operation, structure);
    let place = lowering.pointer(id, operation);
    let traced_in = lowering.way(place, operation);
    let mut components = Vec::new(lowering.alloc());
    for after in [1usize, 2] {
        let place = structure.saturating_add(after);
        let word = signed(lowering, operation, place, ScalarKind::Uint);
        keep(lowering, &mut components, word);
    }
    for after in [1usize, 3, 0, 2] {
        let value = operand(lowering, operation, origin.saturating_add(after));
        keep(lowering, &mut components, value);
    }
    let ty = descriptor.unwrap_or(no_type());
    (traced_in, compose(lowering, operation, ty, components))
}

/// `OpTraceRayKHR` in the one form that the IR has: without offset, stride and miss index.
pub fn trace_ray<L: FunctionBuilder>(lowering: &mut L, operation: &Instruction) {
    for place in [3usize, 4, 5] {
        let id = need(lowering, operation, place);
        if lowering.constant(id) != Some(0) {
            lowering.fail(operation.unsupported_by(Feature::ShaderBindingTable));
        }
    }
    let (acceleration_structure, descriptor) = ray_of(lowering, operation, 0, 6);
    let payload = need(lowering, operation, 10);
    let place = lowering.pointer(payload, operation);
    let trace = RayPipelineFunction::TraceRay {
        acceleration_structure,
        descriptor,
        payload: lowering.way(place, operation),
    };
    lowering.add(Statement::RayPipelineFunction(trace), operation);
}
