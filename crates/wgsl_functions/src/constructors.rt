// Value constructors.

use crate::known::{known_inferred, known_value, known_zero};
use ir_kinds::{Scalar, VectorSize};
use ir_types::{ArraySize, Expression};
use wgsl_builtins::TypeWord;
use wgsl_expressions::{Lowering, Operand, Value, handle_of};
use wgsl_text::{Extent, Failure};
use wgsl_tree::Part;
use wgsl_types::{Builder, RowKind, Shape};

// A `Compose` of these components.
fn compose<B: Builder>(
    lowering: &mut Lowering<B>,
    shape: Shape,
    numbers: &[u32],
    extent: Extent,
) -> Operand {
    let mut components = Vec::new(lowering.alloc);
    let mut failed = Failure::NONE;
    for number in numbers {
        failed.push(&mut components, handle_of(*number));
    }
    lowering.join(&failed);
    let ty = lowering.type_handle(shape, extent);
    let number = lowering.compute(Expression::Compose { ty, components }, extent);
    Operand::computed(number, shape, extent)
}

// The expressions of arguments, converted to this scalar if there is a conversion.
fn numbers<B: Builder>(lowering: &mut Lowering<B>, arguments: &[Operand], to: Scalar) -> Vec<u32> {
    let mut numbers = Vec::new(lowering.alloc);
    let mut failed = Failure::NONE;
    for argument in arguments {
        let number = lowering.value_as(*argument, to).0;
        failed.push(&mut numbers, number);
    }
    lowering.join(&failed);
    numbers
}

// A scalar constructor: an explicit conversion.
fn convert<B: Builder>(
    lowering: &mut Lowering<B>,
    argument: Operand,
    wanted: Shape,
    to: Scalar,
    extent: Extent,
) -> Operand {
    let argument = lowering.load(argument);
    let converted = Operand {
        value: argument.value,
        extent,
    };
    let (value, shape) = lowering.value_as(converted, to);
    if shape.with_scalar(to) != wanted {
        lowering.wrong("cannot cast a value of this type", argument.extent);
    }
    let converted = Expression::As {
        expr: handle_of(value),
        kind: to.kind,
        convert: Some(to.width),
    };
    Operand::computed(
        lowering.compute(converted, extent),
        shape.with_scalar(to),
        extent,
    )
}

// A vector constructor with one argument: a conversion of a vector, or a splatted scalar.
fn vector_of_one<B: Builder>(
    lowering: &mut Lowering<B>,
    size: VectorSize,
    to: Scalar,
    argument: Operand,
    extent: Extent,
) -> Operand {
    let (value, shape) = lowering.value_as(argument, to);
    if let Shape::Vector(other, scalar) = shape {
        if other != size {
            lowering.wrong(
                "cannot cast a vector to one of another size",
                argument.extent,
            );
        }
        let loaded = Operand::computed(value, Shape::Vector(other, scalar), argument.extent);
        return convert(lowering, loaded, Shape::Vector(size, to), to, extent);
    }
    let value = handle_of(value);
    let splat = lowering.compute(Expression::Splat { size, value }, extent);
    Operand::computed(splat, Shape::Vector(size, to), extent)
}

// A matrix constructor from scalars, column by column.
fn matrix<B: Builder>(
    lowering: &mut Lowering<B>,
    columns: VectorSize,
    rows: VectorSize,
    to: Scalar,
    arguments: &[Operand],
    extent: Extent,
) -> Operand {
    let numbers = numbers(lowering, arguments, to);
    let rows_count = u32::from(rows) as usize;
    let is_scalars = match arguments.first() {
        Some(first) => is_scalar(lowering, first),
        None => false,
    };
    let shape = Shape::Matrix(columns, rows, to);
    if !is_scalars {
        return compose(lowering, shape, &numbers, extent);
    }
    let mut made = Vec::new(lowering.alloc);
    let mut failed = Failure::NONE;
    let mut start: usize = 0;
    for _ in 0..u32::from(columns) {
        let end = start.saturating_add(rows_count);
        let column = numbers.get(start..end).unwrap_or(&[]);
        let column = compose(lowering, Shape::Vector(rows, to), column, extent);
        if let Value::Computed(number, _) = column.value {
            failed.push(&mut made, number);
        }
        start = end;
    }
    if start != numbers.len() {
        lowering.wrong("invalid number of components for a matrix", extent);
    }
    lowering.join(&failed);
    compose(lowering, shape, &made, extent)
}

// Whether an operand is a scalar.
fn is_scalar<B: Builder>(lowering: &Lowering<B>, operand: &Operand) -> bool {
    matches!(
        operand.value,
        Value::Literal(_)
            | Value::Computed(_, Shape::Scalar(_))
            | Value::Override(_, Shape::Scalar(_))
            | Value::Place(_, Shape::Scalar(_), _)
    )
}

// A struct constructor from its members.
fn structure<B: Builder>(
    lowering: &mut Lowering<B>,
    shape: Shape,
    members: Part,
    arguments: &[Operand],
    extent: Extent,
) -> Operand {
    let mut numbers = Vec::new(lowering.alloc);
    let mut failed = Failure::NONE;
    let mut place = members.start;
    for argument in arguments {
        let wanted = match lowering.table.members.get(place as usize) {
            Some(member) if place < members.end => member.shape,
            _ => Shape::None,
        };
        let number = lowering.value_for(*argument, wanted);
        failed.push(&mut numbers, number);
        place = place.saturating_add(1);
    }
    lowering.join(&failed);
    compose(lowering, shape, &numbers, extent)
}

// An array constructor from its elements.
fn array<B: Builder>(
    lowering: &mut Lowering<B>,
    shape: Shape,
    element: Shape,
    arguments: &[Operand],
    extent: Extent,
) -> Operand {
    let mut numbers = Vec::new(lowering.alloc);
    let mut failed = Failure::NONE;
    for argument in arguments {
        let number = lowering.value_for(*argument, element);
        failed.push(&mut numbers, number);
    }
    lowering.join(&failed);
    compose(lowering, shape, &numbers, extent)
}

// The zero value of a type.
fn zero<B: Builder>(lowering: &mut Lowering<B>, shape: Shape, extent: Extent) -> Operand {
    if is_opaque(lowering, shape) {
        return not_constructible(lowering, extent);
    }
    known_zero(lowering, shape, extent)
}

/// Lowers a constructor of this type.
pub(crate) fn construct<B: Builder>(
    lowering: &mut Lowering<B>,
    shape: Shape,
    arguments: &[Operand],
    extent: Extent,
) -> Operand {
    let Some(first) = arguments.first() else {
        return zero(lowering, shape, extent);
    };
    if let Some(known) = known_value(lowering, shape, arguments, extent) {
        return known;
    }
    match shape {
        Shape::Scalar(to) => {
            if let Some(more) = arguments.get(1) {
                lowering.wrong("unexpected components", more.extent);
            }
            convert(lowering, *first, shape, to, extent)
        }
        Shape::Vector(size, to) if arguments.len() == 1 => {
            vector_of_one(lowering, size, to, *first, extent)
        }
        Shape::Vector(_, to) => {
            let numbers = numbers(lowering, arguments, to);
            compose(lowering, shape, &numbers, extent)
        }
        Shape::Matrix(_, _, to) if arguments.len() == 1 => {
            convert(lowering, *first, shape, to, extent)
        }
        Shape::Matrix(columns, rows, to) => matrix(lowering, columns, rows, to, arguments, extent),
        _ => match lowering.table.row(shape) {
            Some(row) => match row.kind {
                RowKind::Struct(members) => structure(lowering, shape, members, arguments, extent),
                RowKind::Array(element, _) => array(lowering, shape, element, arguments, extent),
                RowKind::Bindings(_) | RowKind::Pointer(..) => not_constructible(lowering, extent),
            },
            None => not_constructible(lowering, extent),
        },
    }
}

// Whether the type has no zero value because it is opaque.
fn is_opaque<B: Builder>(lowering: &Lowering<B>, shape: Shape) -> bool {
    match shape {
        Shape::Atomic(_) | Shape::Sampler(_) | Shape::Image(..) => true,
        _ => match lowering.table.row(shape) {
            Some(row) => matches!(row.kind, RowKind::Bindings(_) | RowKind::Pointer(..)),
            None => false,
        },
    }
}

// Reports that the type is not constructible.
fn not_constructible<B: Builder>(lowering: &mut Lowering<B>, extent: Extent) -> Operand {
    lowering.wrong("the type is not constructible", extent);
    Operand::NOTHING
}

// The common scalar of the arguments: the first concrete one, or the concretized abstract one.
fn consensus<B: Builder>(lowering: &Lowering<B>, arguments: &[Operand]) -> Scalar {
    let mut found = Scalar::I32;
    for argument in arguments {
        match lowering.scalar_of(argument) {
            Some(scalar) if !scalar.is_abstract() => return scalar,
            Some(scalar) if scalar == Scalar::ABSTRACT_FLOAT => found = Scalar::F32,
            _ => {}
        }
    }
    found
}

/// Lowers a constructor of a type generator, which infers the type from the arguments.
pub(crate) fn infer<B: Builder>(
    lowering: &mut Lowering<B>,
    maker: TypeWord,
    arguments: &[Operand],
    extent: Extent,
) -> Operand {
    if let Some(known) = known_inferred(lowering, maker, arguments, extent) {
        return known;
    }
    match maker {
        TypeWord::Vector(size) if !arguments.is_empty() => {
            let scalar = consensus(lowering, arguments);
            construct(lowering, Shape::Vector(size, scalar), arguments, extent)
        }
        TypeWord::Matrix(columns, rows) if !arguments.is_empty() => {
            let scalar = match consensus(lowering, arguments) {
                scalar if scalar == Scalar::I32 => Scalar::F32,
                scalar => scalar,
            };
            construct(
                lowering,
                Shape::Matrix(columns, rows, scalar),
                arguments,
                extent,
            )
        }
        TypeWord::Array if !arguments.is_empty() => infer_array(lowering, arguments, extent),
        _ => {
            let operand = Operand {
                value: Value::Maker(maker),
                extent,
            };
            let shape = lowering.type_of(&operand);
            construct(lowering, shape, arguments, extent)
        }
    }
}

// An array constructor that infers its element type.
fn infer_array<B: Builder>(
    lowering: &mut Lowering<B>,
    arguments: &[Operand],
    extent: Extent,
) -> Operand {
    let scalar = consensus(lowering, arguments);
    let element = match arguments.first() {
        Some(first) => lowering.value_as(*first, scalar).1,
        None => Shape::None,
    };
    let count = u32::try_from(arguments.len()).unwrap_or(u32::MAX);
    let size = ArraySize::Constant(count.max(1));
    let shape = lowering
        .table
        .array(&mut lowering.builder, element, &size, extent);
    array(lowering, shape, element, arguments, extent)
}
