// Cooperative matrix functions.

use crate::arguments::{argument, check_count, handle, pointed};
use ir_blocks::Statement;
use ir_kinds::{CooperativeSize, Literal, Scalar};
use ir_types::{CooperativeData, Expression};
use wgsl_expressions::{Lowering, Operand, Value, handle_of};
use wgsl_text::Extent;
use wgsl_types::{Builder, Shape, side_of};

// Whether a call has this many arguments, or a stride after them. It is an error if not.
fn check_strided<B: Builder>(
    lowering: &mut Lowering<B>,
    arguments: &[Operand],
    count: usize,
    extent: Extent,
) -> bool {
    let has_stride = arguments.len() == count.saturating_add(1);
    has_stride || check_count(lowering, arguments, count, extent)
}

// The memory of a load or store: the pointer is the argument at `place`, and the stride the next one. Without it, the stride is the
// number of the matrix's rows, or columns.
fn memory<B: Builder>(
    lowering: &mut Lowering<B>,
    arguments: &[Operand],
    place: usize,
    size: CooperativeSize,
    row_major: bool,
    extent: Extent,
) -> CooperativeData {
    let pointer = handle(lowering, arguments, place);
    let stride = match arguments.get(place.saturating_add(1)) {
        Some(stride) => lowering.value_as(*stride, Scalar::U32).0,
        None => lowering.place(Expression::Literal(Literal::U32(side_of(size))), extent),
    };
    CooperativeData {
        pointer,
        stride: handle_of(stride),
        row_major,
    }
}

/// Lowers a call of `coopLoad`, or of `coopLoadT` of rows, with this template argument. The arguments were loaded.
pub fn cooperative_load<B: Builder>(
    lowering: &mut Lowering<B>,
    of: Shape,
    row_major: bool,
    arguments: &[Operand],
    extent: Extent,
) -> Operand {
    let Shape::Cooperative(size, scalar, role) = of else {
        let text = "cooperative load should have a generic type for coop_mat";
        lowering.wrong(text, extent);
        return Operand::NOTHING;
    };
    if !check_strided(lowering, arguments, 1, extent) {
        return Operand::NOTHING;
    }
    // the scalar is that of the memory
    let pointee = pointed(lowering, argument(arguments, 0));
    let loaded = match pointee {
        Some(pointee) => pointee.shape.scalar().unwrap_or(scalar),
        None => scalar,
    };
    let block = memory(lowering, arguments, 0, size, row_major, extent);
    let load = Expression::CooperativeLoad {
        columns: size,
        rows: size,
        role,
        block,
    };
    let shape = Shape::Cooperative(size, loaded, role);
    Operand::computed(lowering.compute(load, extent), shape, extent)
}

// `coopStore`, or `coopStoreT` of rows.
pub(crate) fn store<B: Builder>(
    lowering: &mut Lowering<B>,
    row_major: bool,
    arguments: &[Operand],
    extent: Extent,
) -> Operand {
    if !check_strided(lowering, arguments, 2, extent) {
        return Operand::NOTHING;
    }
    let first = argument(arguments, 0);
    let (target, shape) = lowering.value(first);
    let Shape::Cooperative(size, _, _) = shape else {
        lowering.wrong("Invalid target type for a cooperative store", first.extent);
        return Operand::NOTHING;
    };
    let block = memory(lowering, arguments, 1, size, row_major, extent);
    let store = Statement::CooperativeStore {
        target: handle_of(target),
        block,
    };
    lowering.builder.statement(store, extent);
    Operand {
        value: Value::Nothing,
        extent,
    }
}

// `coopMultiplyAdd`: its result has the type of the addend.
pub(crate) fn multiply_add<B: Builder>(
    lowering: &mut Lowering<B>,
    arguments: &[Operand],
    extent: Extent,
) -> Operand {
    if !check_count(lowering, arguments, 3, extent) {
        return Operand::NOTHING;
    }
    let a = handle(lowering, arguments, 0);
    let b = handle(lowering, arguments, 1);
    let (addend, shape) = lowering.value(argument(arguments, 2));
    let c = handle_of(addend);
    let sum = lowering.compute(Expression::CooperativeMultiplyAdd { a, b, c }, extent);
    Operand::computed(sum, shape, extent)
}
