// Ray query functions.

use crate::arguments::{argument, check_count, handle, pointed};
use ir_blocks::{RayPipelineFunction, RayQueryFunction, Statement};
use ir_kinds::Scalar;
use ir_types::Expression;
use wgsl_builtins::RayFunction;
use wgsl_expressions::{Lowering, Operand, Value, handle_of};
use wgsl_text::Extent;
use wgsl_types::{Builder, ExpressionHandle, RayStruct, Shape};

// The ray query that the first argument points to.
fn query_of<B: Builder>(
    lowering: &mut Lowering<B>,
    arguments: &[Operand],
    count: usize,
    extent: Extent,
) -> Option<ExpressionHandle> {
    if !check_count(lowering, arguments, count, extent) {
        return None;
    }
    let first = argument(arguments, 0);
    if let Some(pointee) = pointed(lowering, first) {
        if matches!(pointee.shape, Shape::RayQuery(_)) {
            return Some(handle_of(pointee.number));
        }
    }
    lowering.wrong(
        "ray query operation is done on a pointer to a non-ray-query",
        first.extent,
    );
    None
}

// The number of arguments of a function.
fn count_of(function: RayFunction) -> usize {
    match function {
        RayFunction::Initialize => 3,
        RayFunction::GenerateIntersection => 2,
        _ => 1,
    }
}

// A ray query statement without a result.
fn act<B: Builder>(
    lowering: &mut Lowering<B>,
    query: ExpressionHandle,
    fun: RayQueryFunction,
    extent: Extent,
) -> Operand {
    lowering
        .builder
        .statement(Statement::RayQuery { query, fun }, extent);
    Operand {
        value: Value::Nothing,
        extent,
    }
}

// `rayQueryInitialize`.
fn initialize<B: Builder>(
    lowering: &mut Lowering<B>,
    query: ExpressionHandle,
    arguments: &[Operand],
    extent: Extent,
) -> Operand {
    let acceleration_structure = handle(lowering, arguments, 1);
    let descriptor = handle(lowering, arguments, 2);
    let _ = lowering.ray_type(RayStruct::Descriptor, extent);
    let fun = RayQueryFunction::Initialize {
        acceleration_structure,
        descriptor,
    };
    act(lowering, query, fun, extent)
}

// `rayQueryProceed`.
fn proceed<B: Builder>(
    lowering: &mut Lowering<B>,
    query: ExpressionHandle,
    extent: Extent,
) -> Operand {
    let number = lowering.place(Expression::RayQueryProceedResult, extent);
    let fun = RayQueryFunction::Proceed {
        result: handle_of(number),
    };
    let _ = act(lowering, query, fun, extent);
    Operand::computed(number, Shape::Scalar(Scalar::BOOL), extent)
}

// `traceRay`.
fn trace<B: Builder>(lowering: &mut Lowering<B>, arguments: &[Operand], extent: Extent) -> Operand {
    if !check_count(lowering, arguments, 3, extent) {
        return Operand::NOTHING;
    }
    let acceleration_structure = handle(lowering, arguments, 0);
    let descriptor = handle(lowering, arguments, 1);
    let payload = handle(lowering, arguments, 2);
    let _ = lowering.ray_type(RayStruct::Descriptor, extent);
    let fun = RayPipelineFunction::TraceRay {
        acceleration_structure,
        descriptor,
        payload,
    };
    lowering
        .builder
        .statement(Statement::RayPipelineFunction(fun), extent);
    Operand {
        value: Value::Nothing,
        extent,
    }
}

// Lowers a call of a ray query function, or of `traceRay`.
pub(crate) fn ray<B: Builder>(
    lowering: &mut Lowering<B>,
    function: RayFunction,
    arguments: &[Operand],
    extent: Extent,
) -> Operand {
    if matches!(function, RayFunction::Trace) {
        return trace(lowering, arguments, extent);
    }
    let Some(query) = query_of(lowering, arguments, count_of(function), extent) else {
        return Operand::NOTHING;
    };
    match function {
        RayFunction::Initialize => initialize(lowering, query, arguments, extent),
        RayFunction::Proceed => proceed(lowering, query, extent),
        RayFunction::GenerateIntersection => {
            let hit_t = handle(lowering, arguments, 1);
            let fun = RayQueryFunction::GenerateIntersection { hit_t };
            act(lowering, query, fun, extent)
        }
        RayFunction::ConfirmIntersection => {
            act(
                lowering,
                query,
                RayQueryFunction::ConfirmIntersection,
                extent,
            )
        }
        RayFunction::Terminate => act(lowering, query, RayQueryFunction::Terminate, extent),
        RayFunction::Intersection(committed) => {
            let shape = lowering.ray_type(RayStruct::Intersection, extent);
            let found = Expression::RayQueryGetIntersection { query, committed };
            Operand::computed(lowering.compute(found, extent), shape, extent)
        }
        RayFunction::Trace => Operand::NOTHING,
        RayFunction::Vertices(committed) => {
            let shape = lowering.ray_type(RayStruct::Vertices, extent);
            let found = Expression::RayQueryVertexPositions { query, committed };
            Operand::computed(lowering.compute(found, extent), shape, extent)
        }
    }
}
