// Arguments of built-in functions.

use ir_kinds::{AddressSpace, Scalar};
use wgsl_expressions::{Lowering, Operand, Value, handle_of};
use wgsl_text::Extent;
use wgsl_types::{Builder, ExpressionHandle, RowKind, Shape};

// The memory view that a pointer argument points to.
#[derive(Clone, Copy)]
pub(crate) struct Pointee {
    // the expression of the pointer
    pub number: u32,
    // the store type
    pub shape: Shape,
    // the address space
    pub space: AddressSpace,
}

// The argument at this index; a placeholder if there are fewer arguments.
pub(crate) fn argument(arguments: &[Operand], place: usize) -> Operand {
    arguments.get(place).copied().unwrap_or(Operand::NOTHING)
}

// The expression of an argument.
pub(crate) fn handle<B: Builder>(
    lowering: &mut Lowering<B>,
    arguments: &[Operand],
    place: usize,
) -> ExpressionHandle {
    handle_of(lowering.value(argument(arguments, place)).0)
}

// Whether a call has this many arguments. It is an error if not.
pub(crate) fn check_count<B: Builder>(
    lowering: &mut Lowering<B>,
    arguments: &[Operand],
    count: usize,
    extent: Extent,
) -> bool {
    let is_right = arguments.len() == count;
    if !is_right {
        lowering.wrong("wrong number of arguments", extent);
    }
    is_right
}

// The memory view of an argument, if it is a pointer.
pub(crate) fn pointed<B: Builder>(lowering: &Lowering<B>, argument: Operand) -> Option<Pointee> {
    let Value::Computed(number, shape) = argument.value else {
        return None;
    };
    let row = lowering.table.row(shape)?;
    match row.kind {
        RowKind::Pointer(shape, space) => Some(Pointee {
            number,
            shape,
            space,
        }),
        _ => None,
    }
}

// An argument converted to this scalar. It is an error if its own scalar does not convert.
pub(crate) fn converted<B: Builder>(
    lowering: &mut Lowering<B>,
    argument: Operand,
    to: Scalar,
) -> (u32, Shape) {
    let made = lowering.value_as(argument, to);
    match made.1.scalar() {
        Some(scalar) if scalar != to => lowering.wrong(
            "automatic conversions cannot convert elements of this type to the required one",
            argument.extent,
        ),
        _ => {}
    }
    made
}
