// Binary operators with a constant matrix.

use ir_kinds::{BinaryOperator, Literal, MathFunction, Scalar, VectorSize};
use wgsl_constants::{Evaluated, Known, Lanes, Store, combine, geometric};
use wgsl_types::Shape;

// A column of a matrix, converted to this scalar type.
fn column(store: &mut Store, matrix: Known, index: u32, to: Scalar) -> Option<Lanes> {
    let Known::Whole(place, Shape::Matrix(_, rows, scalar)) = matrix else {
        return None;
    };
    let found = store.element(place, index, Shape::Vector(rows, scalar))?;
    store.lanes(found)?.converted(to)
}

// The product of a matrix and a vector: the sum of the columns, each times a component.
fn by_vector(
    store: &mut Store,
    matrix: Known,
    columns: VectorSize,
    vector: &Lanes,
    to: Scalar,
) -> Evaluated {
    let mut sum = Evaluated::Open;
    for index in 0..u32::from(columns) {
        let Some(column) = column(store, matrix, index, to) else {
            return Evaluated::Open;
        };
        let factor = Lanes::of_scalar(vector.lane(index));
        let product = combine(BinaryOperator::Multiply, &column, &factor);
        sum = match (sum, product) {
            (Evaluated::Made(sum), Evaluated::Made(product)) => {
                combine(BinaryOperator::Add, &sum, &product)
            }
            (Evaluated::Wrong(text), _) => Evaluated::Wrong(text),
            (_, other) => other,
        };
    }
    sum
}

// The product of a vector and a matrix: its dot product with each column.
fn by_matrix(
    store: &mut Store,
    vector: &Lanes,
    matrix: Known,
    columns: VectorSize,
    to: Scalar,
) -> Evaluated {
    let mut made = Lanes::of(Some(columns), Literal::Bool(false));
    for index in 0..u32::from(columns) {
        let Some(column) = column(store, matrix, index, to) else {
            return Evaluated::Open;
        };
        match geometric(MathFunction::Dot, vector, Some(column)) {
            Evaluated::Made(lane) => made.set(index, lane.lane(0)),
            other => return other,
        }
    }
    Evaluated::Made(made)
}

// A column of the sum, difference or product of two matrices.
fn column_of(
    store: &mut Store,
    operator: BinaryOperator,
    left: Known,
    columns: VectorSize,
    right: Known,
    index: u32,
    to: Scalar,
) -> Evaluated {
    let Some(other) = column(store, right, index, to) else {
        return Evaluated::Open;
    };
    if operator == BinaryOperator::Multiply {
        return by_vector(store, left, columns, &other, to);
    }
    match column(store, left, index, to) {
        Some(own) => combine(operator, &own, &other),
        None => Evaluated::Open,
    }
}

// A matrix whose columns are those of an operator on two matrices.
fn composed(
    store: &mut Store,
    operator: BinaryOperator,
    left: Known,
    inner: VectorSize,
    right: Known,
    made: (VectorSize, VectorSize),
    to: Scalar,
) -> Result<Known, Evaluated> {
    let (columns, rows) = made;
    let mut places: [u32; 4] = [0, 0, 0, 0];
    for index in 0..u32::from(columns) {
        match column_of(store, operator, left, inner, right, index, to) {
            Evaluated::Made(lanes) => {
                let known = store.of_lanes(&lanes);
                if let Some(slot) = places.get_mut(index as usize) {
                    *slot = store.place(known);
                }
            }
            other => return Err(other),
        }
    }
    let used = places.get(..u32::from(columns) as usize).unwrap_or(&[]);
    Ok(store.composite(Shape::Matrix(columns, rows, to), used))
}

// The components of a constant vector, converted to this scalar type.
fn vector_of(store: &Store, known: Known, to: Scalar) -> Option<Lanes> {
    store.lanes(known)?.converted(to)
}

// A vector as a constant, or why there is none.
fn settled(store: &mut Store, evaluated: Evaluated) -> Result<Known, Evaluated> {
    match evaluated {
        Evaluated::Made(lanes) => Ok(store.of_lanes(&lanes)),
        other => Err(other),
    }
}

// The type of a constant.
fn shape_of(known: Known) -> Shape {
    match known {
        Known::Scalar(literal) => Shape::Scalar(literal.scalar()),
        Known::Whole(_, shape) => shape,
    }
}

// The product of two constants, one of them a matrix and neither a scalar.
fn product(store: &mut Store, left: Known, right: Known, to: Scalar) -> Result<Known, Evaluated> {
    match (shape_of(left), shape_of(right)) {
        (Shape::Matrix(columns, _, _), Shape::Vector(size, _)) if size == columns => {
            let Some(vector) = vector_of(store, right, to) else {
                return Err(Evaluated::Open);
            };
            let made = by_vector(store, left, columns, &vector, to);
            settled(store, made)
        }
        (Shape::Vector(size, _), Shape::Matrix(columns, rows, _)) if size == rows => {
            let Some(vector) = vector_of(store, left, to) else {
                return Err(Evaluated::Open);
            };
            let made = by_matrix(store, &vector, right, columns, to);
            settled(store, made)
        }
        (Shape::Matrix(inner, rows, _), Shape::Matrix(columns, other, _)) if inner == other => {
            let made = (columns, rows);
            composed(
                store,
                BinaryOperator::Multiply,
                left,
                inner,
                right,
                made,
                to,
            )
        }
        _ => Err(Evaluated::Open),
    }
}

/// Evaluates a binary operator on two constants with this common scalar type, one of them a matrix and neither a scalar: the result, or
/// why there is none.
pub fn of_matrices(
    store: &mut Store,
    operator: BinaryOperator,
    left: Known,
    right: Known,
    to: Scalar,
) -> Result<Known, Evaluated> {
    match operator {
        BinaryOperator::Multiply => product(store, left, right, to),
        BinaryOperator::Add | BinaryOperator::Subtract => match (shape_of(left), shape_of(right)) {
            (Shape::Matrix(columns, rows, _), Shape::Matrix(wide, high, _))
                if columns == wide && rows == high => {
                let made = (columns, rows);
                composed(store, operator, left, columns, right, made, to)
            }
            _ => Err(Evaluated::Open),
        },
        _ => Err(Evaluated::Open),
    }
}
