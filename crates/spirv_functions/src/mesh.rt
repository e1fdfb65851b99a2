// The counts that task and mesh stages set (extension mesh_shader).

use ir_blocks::Statement;
use ir_kinds::{Scalar, VectorSize};
use spirv_expressions::{compose, keep, operand, part_of};
use spirv_flow::{MESH_OUTPUTS, MESH_TASKS};
use spirv_operations::FunctionBuilder;
use spirv_words::Instruction;

// The members of a mesh output with the numbers of vertices and primitives.
const VERTEX_COUNT: u32 = 2;

const PRIMITIVE_COUNT: u32 = 3;

/// Sets the numbers of vertices and primitives.
pub fn set_outputs<L: FunctionBuilder>(lowering: &mut L, operation: &Instruction) {
    let outputs = lowering.pointer(MESH_OUTPUTS, operation);
    for (place, member) in [(0, VERTEX_COUNT), (1, PRIMITIVE_COUNT)] {
        let value = operand(lowering, operation, place);
        let base = lowering.way(outputs, operation);
        let pointer = part_of(lowering, operation, base, member);
        lowering.add(Statement::Store { pointer, value }, operation);
    }
}

/// Sets the number of mesh workgroups to launch, in three dimensions.
pub fn emit_tasks<L: FunctionBuilder>(lowering: &mut L, operation: &Instruction) {
    let mut components = Vec::new(lowering.alloc());
    for place in 0..3 {
        let count = operand(lowering, operation, place);
        keep(lowering, &mut components, count);
    }
    let ty = lowering.vector(Some(VectorSize::Tri), Scalar::U32);
    let value = compose(lowering, operation, ty, components);
    let tasks = lowering.pointer(MESH_TASKS, operation);
    let pointer = lowering.way(tasks, operation);
    lowering.add(Statement::Store { pointer, value }, operation);
}
