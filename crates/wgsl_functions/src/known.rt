// Constant evaluation of value constructors.

use ir_kinds::{Literal, Scalar, VectorSize};
use ir_types::ArraySize;
use wgsl_builtins::TypeWord;
use wgsl_constants::{Known, Lanes};
use wgsl_convert::{ColumnStep, UNFIT, concretized};
use wgsl_expressions::{Lowering, Operand};
use wgsl_text::{Extent, Failure};
use wgsl_tree::Part;
use wgsl_types::{Builder, RowKind, Shape};

// Whether all arguments are constant.
fn are_known<B: Builder>(lowering: &Lowering<B>, arguments: &[Operand]) -> bool {
    for argument in arguments {
        if lowering.known_of(argument).is_none() {
            return false;
        }
    }
    !arguments.is_empty()
}

// A vector constructor from these components.
fn vector<B: Builder>(
    lowering: &Lowering<B>,
    size: VectorSize,
    to: Scalar,
    arguments: &[Operand],
) -> Option<Lanes> {
    let mut made = Lanes::of(Some(size), Literal::Bool(false));
    let mut count: u32 = 0;
    for argument in arguments {
        let lanes = lowering.lanes_of(argument)?.converted(to)?;
        for place in 0..lanes.count() {
            made.set(count, lanes.lane(place));
            count = count.saturating_add(1);
        }
    }
    if count == u32::from(size) {
        Some(made)
    } else {
        None
    }
}

// A vector constructor with one argument: a splatted scalar, or a conversion of a vector.
fn vector_of_one<B: Builder>(
    lowering: &Lowering<B>,
    size: VectorSize,
    to: Scalar,
    argument: &Operand,
) -> Option<Lanes> {
    let lanes = lowering.lanes_of(argument)?;
    match lanes.size {
        None => Some(Lanes::of(Some(size), lanes.converted(to)?.lane(0))),
        Some(other) if other == size => lanes.cast(to),
        Some(_) => None,
    }
}

// A matrix constructor from columns, or from scalars column by column.
fn matrix<B: Builder>(
    lowering: &mut Lowering<B>,
    columns: VectorSize,
    rows: VectorSize,
    to: Scalar,
    arguments: &[Operand],
) -> Option<Known> {
    let wide = u32::from(columns) as usize;
    let high = u32::from(rows) as usize;
    let each = if arguments.len() == wide { 1 } else { high };
    if arguments.len() != wide.saturating_mul(each) {
        return None;
    }
    let mut places: [u32; 4] = [0, 0, 0, 0];
    let mut start: usize = 0;
    for index in 0..wide {
        let end = start.saturating_add(each);
        let column = arguments.get(start..end).unwrap_or(&[]);
        let lanes = vector(lowering, rows, to, column)?;
        let known = lowering.store.of_lanes(&lanes);
        if let Some(slot) = places.get_mut(index) {
            *slot = lowering.store.place(known);
        }
        start = end;
    }
    let used = places.get(..wide).unwrap_or(&[]);
    Some(
        lowering
            .store
            .composite(Shape::Matrix(columns, rows, to), used),
    )
}

// An array constructor from its elements.
fn array<B: Builder>(
    lowering: &mut Lowering<B>,
    shape: Shape,
    element: Shape,
    arguments: &[Operand],
) -> Option<Known> {
    let mut places = Vec::new(lowering.alloc);
    let mut failed = Failure::NONE;
    for argument in arguments {
        let place = lowering.known_for(argument, element)?;
        failed.push(&mut places, place);
    }
    lowering.join(&failed);
    Some(lowering.store.composite(shape, &places))
}

// A struct constructor from its members.
fn structure<B: Builder>(
    lowering: &mut Lowering<B>,
    shape: Shape,
    members: Part,
    arguments: &[Operand],
) -> Option<Known> {
    if members.count() as usize != arguments.len() {
        return None;
    }
    let mut places = Vec::new(lowering.alloc);
    let mut failed = Failure::NONE;
    let mut at = members.start;
    for argument in arguments {
        let wanted = match lowering.table.members.get(at as usize) {
            Some(member) => member.shape,
            None => Shape::None,
        };
        let place = lowering.known_for(argument, wanted)?;
        failed.push(&mut places, place);
        at = at.saturating_add(1);
    }
    lowering.join(&failed);
    Some(lowering.store.composite(shape, &places))
}

// A constructor of a struct or an array.
fn of_row<B: Builder>(
    lowering: &mut Lowering<B>,
    shape: Shape,
    arguments: &[Operand],
) -> Option<Known> {
    match lowering.table.row(shape)?.kind {
        RowKind::Struct(members) => structure(lowering, shape, members, arguments),
        RowKind::Array(element, ArraySize::Constant(count)) if count as usize == arguments.len() =>
            { array(lowering, shape, element, arguments) }
        RowKind::Array(..) | RowKind::Bindings(_) | RowKind::Pointer(..) => None,
    }
}

/// Evaluates a constructor on constants, if it can.
pub(crate) fn known_value<B: Builder>(
    lowering: &mut Lowering<B>,
    shape: Shape,
    arguments: &[Operand],
    extent: Extent,
) -> Option<Operand> {
    if !are_known(lowering, arguments) {
        return None;
    }
    let first = arguments.first()?;
    let known = match shape {
        Shape::Scalar(to) if arguments.len() == 1 => {
            let lanes = lowering.lanes_of(first)?;
            if lanes.size.is_some() {
                return None;
            }
            match lanes.cast(to) {
                Some(made) => lowering.store.of_lanes(&made),
                None if lanes.scalar() == Scalar::ABSTRACT_INT => {
                    lowering.wrong(UNFIT, extent);
                    return Some(Operand::NOTHING);
                }
                None => {
                    let value = lowering.stays(extent)?;
                    return Some(Operand { value, extent });
                }
            }
        }
        Shape::Vector(size, to) => {
            let lanes = if arguments.len() == 1 {
                vector_of_one(lowering, size, to, first)?
            } else {
                vector(lowering, size, to, arguments)?
            };
            lowering.store.of_lanes(&lanes)
        }
        Shape::Matrix(columns, rows, to) if arguments.len() == 1 => {
            let known = lowering.known_of(first)?;
            match known {
                Known::Whole(_, Shape::Matrix(wide, high, _)) if wide == columns && high == rows =>
                    {
                        let value = lowering.of_columns(&ColumnStep::Cast(to), known, extent)?;
                        return Some(Operand { value, extent });
                    }
                _ => return None,
            }
        }
        Shape::Matrix(columns, rows, to) => matrix(lowering, columns, rows, to, arguments)?,
        _ => of_row(lowering, shape, arguments)?,
    };
    let value = lowering.value_of(known);
    Some(Operand { value, extent })
}

// The common scalar of the arguments: the first concrete one, or an abstract one.
fn common<B: Builder>(lowering: &Lowering<B>, arguments: &[Operand]) -> Option<Scalar> {
    let mut found = None;
    for argument in arguments {
        let scalar = lowering.scalar_of(argument)?;
        if !scalar.is_abstract() {
            return Some(scalar);
        }
        if found.is_none() || scalar == Scalar::ABSTRACT_FLOAT {
            found = Some(scalar);
        }
    }
    found
}

// The inferred element type of an array constructor.
fn element_of<B: Builder>(
    lowering: &mut Lowering<B>,
    arguments: &[Operand],
    extent: Extent,
) -> Option<Shape> {
    let first = arguments.first()?;
    let (place, shape) = match lowering.known_of(first)? {
        Known::Scalar(_) => return Some(Shape::Scalar(common(lowering, arguments)?)),
        Known::Whole(place, shape) => (place, shape),
    };
    let Some(leaf) = lowering.table.leaf(shape) else {
        return Some(shape);
    };
    let scalar = common(lowering, arguments)?;
    if lowering.table.row(shape).is_none() {
        return Some(shape.with_scalar(scalar));
    }
    if !leaf.is_abstract() || leaf == scalar {
        return Some(shape);
    }
    // abstract arrays with another scalar are concretized
    let concrete = match scalar {
        scalar if scalar == Scalar::ABSTRACT_FLOAT => Scalar::F32,
        scalar if scalar.is_abstract() => lowering.store.concrete(place),
        scalar => scalar,
    };
    let made = concretized(
        lowering.alloc,
        &mut lowering.store,
        &mut lowering.table,
        &mut lowering.builder,
        place,
        concrete,
        extent,
    );
    match lowering.store.known(made) {
        Known::Whole(_, shape) => Some(shape),
        Known::Scalar(_) => None,
    }
}

/// Evaluates a constructor of a type generator on constants; the type is inferred from them.
pub(crate) fn known_inferred<B: Builder>(
    lowering: &mut Lowering<B>,
    maker: TypeWord,
    arguments: &[Operand],
    extent: Extent,
) -> Option<Operand> {
    if !are_known(lowering, arguments) {
        return None;
    }
    let shape = match maker {
        TypeWord::Vector(size) => Shape::Vector(size, common(lowering, arguments)?),
        TypeWord::Matrix(columns, rows) => match common(lowering, arguments)? {
            scalar if scalar == Scalar::ABSTRACT_INT => {
                Shape::Matrix(columns, rows, Scalar::ABSTRACT_FLOAT)
            }
            scalar => Shape::Matrix(columns, rows, scalar),
        },
        TypeWord::Array => {
            let element = element_of(lowering, arguments, extent)?;
            let count = u32::try_from(arguments.len()).ok()?;
            let size = ArraySize::Constant(count);
            lowering
                .table
                .array(&mut lowering.builder, element, &size, extent)
        }
        _ => return None,
    };
    known_value(lowering, shape, arguments, extent)
}

/// The zero value of a type, as a constant.
pub(crate) fn known_zero<B: Builder>(
    lowering: &mut Lowering<B>,
    shape: Shape,
    extent: Extent,
) -> Operand {
    let known = lowering.store.zero(shape);
    let value = lowering.value_of(known);
    Operand { value, extent }
}
