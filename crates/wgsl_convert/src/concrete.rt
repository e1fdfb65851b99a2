// Concretization of constants and their lowering to the IR.

use crate::values::{handle_of, number_of};
use crate::walk::{Task, Walk};
use ir_arena::handle::Handle;
use ir_kinds::{Literal, Scalar, ScalarKind};
use ir_types::Expression;
use std::alloc::Global;
use wgsl_constants::{Known, Node, Store};
use wgsl_text::{Extent, WgslError};
use wgsl_types::{Builder, RowKind, Shape, TypeTable};
use wgsl_values::{concrete_scalar, converted};

/// The message for a value that is not representable in a type.
pub const UNFIT: &str = "the concrete type cannot represent the abstract value accurately";

// Whether there is no automatic conversion between the scalar types, whatever the value.
pub(crate) fn is_lossy(from: Scalar, to: Scalar) -> bool {
    match from.kind {
        ScalarKind::AbstractInt => to.kind == ScalarKind::Bool,
        _ => !matches!(to.kind, ScalarKind::Float | ScalarKind::AbstractFloat),
    }
}

/// The scalar that a constant gets for this expected scalar: its own if it does not convert.
pub fn target_of(literal: Literal, to: Scalar) -> Scalar {
    let from = literal.scalar();
    if !from.is_abstract() {
        return from;
    }
    if to.is_abstract() || is_lossy(from, to) {
        return concrete_scalar(literal);
    }
    to
}

/// Lowers a constant scalar, converted to this type; returns its expression.
pub fn literal_as<B: Builder>(
    builder: &mut B,
    literal: Literal,
    to: Scalar,
    extent: Extent,
) -> u32 {
    let from = literal.scalar();
    let made = match converted(literal, to) {
        Some(literal) => Some(literal),
        None if from.is_abstract() && !is_lossy(from, to) => None,
        None => converted(literal, concrete_scalar(literal)),
    };
    match made {
        Some(literal) => number_of(builder.place(Expression::Literal(literal), extent)),
        None => {
            builder.fail(WgslError::malformed(UNFIT, extent));
            0
        }
    }
}

// Whether a type is abstract.
fn is_abstract(table: &TypeTable, shape: Shape) -> bool {
    match table.leaf(shape) {
        Some(scalar) => scalar.is_abstract(),
        None => false,
    }
}

// The type of a constant in the store.
pub(crate) fn shape_at(store: &Store, place: u32) -> Shape {
    match store.known(place) {
        Known::Scalar(literal) => Shape::Scalar(literal.scalar()),
        Known::Whole(_, shape) => shape,
    }
}

// A constant scalar converted to this type.
fn converted_literal<B: Builder>(
    store: &mut Store,
    builder: &mut B,
    literal: Literal,
    to: Scalar,
    extent: Extent,
) -> u32 {
    match converted(literal, to) {
        Some(literal) => store.literal(literal),
        None => {
            builder.fail(WgslError::malformed(UNFIT, extent));
            0
        }
    }
}

// The type of a value with another scalar; for an array, the type of its last component is the element type.
fn converted_shape<B: Builder>(
    store: &Store,
    table: &mut TypeTable,
    builder: &mut B,
    shape: Shape,
    to: Scalar,
    last: Option<u32>,
    extent: Extent,
) -> Shape {
    let Some(row) = table.row(shape) else {
        return shape.with_scalar(to);
    };
    match (row.kind, last) {
        (RowKind::Array(_, size), Some(place)) => {
            let element = shape_at(store, place);
            table.array(builder, element, &size, extent)
        }
        _ => shape,
    }
}

// One step of a conversion.
fn convert<B: Builder>(
    walk: &mut Walk,
    store: &mut Store,
    table: &mut TypeTable,
    builder: &mut B,
    task: Task,
    to: Scalar,
    extent: Extent,
) {
    let place = match task {
        Task::Leave(shape, count) => {
            let places = walk.last(count);
            let last = places.last().copied();
            let shape = converted_shape(store, table, builder, shape, to, last, extent);
            let known = store.composite(shape, &places);
            store.place(known)
        }
        Task::Enter(place) => match store.node(place) {
            Node::Literal(literal) if literal.scalar().is_abstract() => {
                converted_literal(store, builder, literal, to, extent)
            }
            Node::Zero(shape) if is_abstract(table, shape) => {
                let known = store.zero(shape.with_scalar(to));
                store.place(known)
            }
            Node::Composite(shape, part) if is_abstract(table, shape) => {
                walk.enter(store, shape, part);
                return;
            }
            _ => place,
        },
    };
    walk.push(place);
}

// Reports the failure of a walk.
fn join<B: Builder>(builder: &mut B, walk: &Walk, store: &Store) {
    if let Some(error) = walk.failed.first {
        builder.fail(error);
    }
    if let Some(error) = store.failed.first {
        builder.fail(error);
    }
}

/// Converts the abstract scalars of a constant to this type; returns its index.
pub fn concretized<B: Builder>(
    alloc: Global,
    store: &mut Store,
    table: &mut TypeTable,
    builder: &mut B,
    place: u32,
    to: Scalar,
    extent: Extent,
) -> u32 {
    let mut walk = Walk::new(alloc, place);
    for _ in 0..u32::MAX {
        join(builder, &walk, store);
        if builder.has_failed() {
            break;
        }
        let Some(task) = walk.next() else {
            break;
        };
        convert(&mut walk, store, table, builder, task, to, extent);
    }
    walk.end()
}

// Adds a composite of these components.
fn composed<B: Builder>(
    walk: &mut Walk,
    table: &TypeTable,
    builder: &mut B,
    shape: Shape,
    count: u32,
    extent: Extent,
) -> u32 {
    let numbers = walk.last(count);
    let mut components = Vec::new(walk.alloc);
    for number in numbers.iter() {
        walk.failed.push(&mut components, handle_of(*number));
    }
    let ty = table.handle(builder, shape, extent);
    number_of(builder.compute(Expression::Compose { ty, components }, extent))
}

// One step of lowering a constant to the IR.
fn materialize<B: Builder>(
    walk: &mut Walk,
    store: &Store,
    table: &TypeTable,
    builder: &mut B,
    task: Task,
    extent: Extent,
) {
    let number = match task {
        Task::Leave(shape, count) => composed(walk, table, builder, shape, count, extent),
        Task::Enter(place) => match store.named(place) {
            Node::Literal(literal) => {
                number_of(builder.place(Expression::Literal(literal), extent))
            }
            Node::Zero(shape) => {
                let ty = table.handle(builder, shape, extent);
                number_of(builder.place(Expression::ZeroValue(ty), extent))
            }
            Node::Named(number, _) => {
                let handle = Handle::at(number.min(4_294_967_294) as usize);
                number_of(builder.place(Expression::Constant(handle), extent))
            }
            Node::Composite(shape, part) => {
                walk.enter(store, shape, part);
                return;
            }
        },
    };
    walk.push(number);
}

// Lowers a concrete constant to the IR; returns its expression.
fn materialized<B: Builder>(
    alloc: Global,
    store: &Store,
    table: &TypeTable,
    builder: &mut B,
    place: u32,
    extent: Extent,
) -> u32 {
    let mut walk = Walk::new(alloc, place);
    for _ in 0..u32::MAX {
        join(builder, &walk, store);
        if builder.has_failed() {
            break;
        }
        let Some(task) = walk.next() else {
            break;
        };
        materialize(&mut walk, store, table, builder, task, extent);
    }
    walk.end()
}

/// Lowers a composite constant to the IR; its scalars are converted to this type if there is a conversion.
pub fn whole_as<B: Builder>(
    alloc: Global,
    store: &mut Store,
    table: &mut TypeTable,
    builder: &mut B,
    place: u32,
    to: Scalar,
    extent: Extent,
) -> (u32, Shape) {
    let mut at = place;
    if let Some(from) = table.leaf(shape_at(store, place)) {
        if from.is_abstract() {
            let target = if to.is_abstract() || is_lossy(from, to) {
                store.concrete(place)
            } else {
                to
            };
            at = concretized(alloc, store, table, builder, place, target, extent);
        }
    }
    let number = materialized(alloc, store, table, builder, at, extent);
    (number, shape_at(store, at))
}
