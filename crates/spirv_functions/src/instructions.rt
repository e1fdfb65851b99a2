// Translates an instruction of a block.

use crate::extended::extended;
use crate::groups::{barrier, group, is_group};
use crate::mesh::set_outputs;
use crate::rays::{ray_query, trace_ray};
use ir_types::Expression;
use spirv_expressions::{Value, arithmetic, composite};
use spirv_flow::is_atomic;
use spirv_images::image_operation;
use spirv_math::{conversion, wide};
use spirv_numbers::ops;
use spirv_operations::{FunctionBuilder, atomic, call_function, memory, phi_local, store_texel};
use spirv_words::Instruction;

// The first and the last opcode that reads a ray query.
const GET_RAY_T_MIN: u16 = 6016;

const GET_WORLD_TO_OBJECT: u16 = 6032;

/// Translates an instruction.
pub fn lower<L: FunctionBuilder>(lowering: &mut L, operation: &Instruction) {
    match operation.opcode {
        ops::NOP | ops::LINE | ops::NO_LINE | ops::SELECTION_MERGE | ops::LOOP_MERGE => {}
        ops::PHI => {
            let pointer = phi_local(lowering, operation.id, operation);
            let value = lowering.emit(Expression::Load { pointer }, operation);
            lowering.define(operation, value)
        }
        ops::FUNCTION_CALL => call_function(lowering, operation),
        ops::EXT_INST => extended(lowering, operation),
        ops::IMAGE_WRITE => store_texel(lowering, operation),
        ops::CONTROL_BARRIER | ops::MEMORY_BARRIER => barrier(lowering, operation),
        ops::SET_MESH_OUTPUTS_EXT => set_outputs(lowering, operation),
        ops::TRACE_RAY_KHR => trace_ray(lowering, operation),
        opcode if is_atomic(opcode) => atomic(lowering, operation),
        opcode if is_group(opcode) => group(lowering, operation),
        ops::RAY_QUERY_INITIALIZE..=ops::RAY_QUERY_GET_INTERSECTION_TYPE
        | ops::RAY_QUERY_GET_TRIANGLE_VERTEX_POSITIONS
        | GET_RAY_T_MIN..=GET_WORLD_TO_OBJECT => ray_query(lowering, operation),
        _ => {
            if memory(lowering, operation) {
                return;
            }
            match computed(lowering, operation) {
                Some(value) => lowering.define(operation, value),
                None => lowering.fail(operation.unsupported()),
            }
        }
    }
}

// The value of an instruction without effects; `None` for others.
fn computed<L: FunctionBuilder>(lowering: &mut L, operation: &Instruction) -> Option<Value> {
    if let Some(value) = composite(lowering, operation) {
        return Some(value);
    }
    if let Some(value) = arithmetic(lowering, operation) {
        return Some(value);
    }
    if let Some(value) = wide(lowering, operation) {
        return Some(value);
    }
    if let Some(value) = conversion(lowering, operation) {
        return Some(value);
    }
    image_operation(lowering, operation)
}
