// Operations on the columns of a constant matrix.

use ir_kinds::{BinaryOperator, Scalar, UnaryOperator};
use wgsl_constants::{Evaluated, Known, Lanes, Store, combine, negate};
use wgsl_types::Shape;

/// The operation on each column of a matrix.
#[derive(Clone, Copy)]
pub enum ColumnStep {
    /// A unary operator.
    Unary(UnaryOperator),
    /// A binary operator with this left operand.
    Left(BinaryOperator, Lanes),
    /// A binary operator with this right operand.
    Right(BinaryOperator, Lanes),
    /// A conversion to another scalar type.
    Cast(Scalar),
}

impl ColumnStep {
    fn of(&self, column: &Lanes) -> Evaluated {
        match *self {
            ColumnStep::Unary(operator) => negate(operator, column),
            ColumnStep::Left(operator, left) => combine(operator, &left, column),
            ColumnStep::Right(operator, right) => combine(operator, column, &right),
            ColumnStep::Cast(scalar) => match column.cast(scalar) {
                Some(made) => Evaluated::Made(made),
                None => Evaluated::Open,
            },
        }
    }
}

/// Evaluates an operation on the columns of a matrix: the result, or why there is none.
pub fn by_columns(store: &mut Store, step: &ColumnStep, known: Known) -> Result<Known, Evaluated> {
    let Known::Whole(place, Shape::Matrix(columns, rows, scalar)) = known else {
        return Err(Evaluated::Open);
    };
    let mut places: [u32; 4] = [0, 0, 0, 0];
    let mut made_of = scalar;
    for index in 0..u32::from(columns) {
        let column = store.element(place, index, Shape::Vector(rows, scalar));
        let lanes = match column {
            Some(column) => store.lanes(column),
            None => None,
        };
        let Some(lanes) = lanes else {
            return Err(Evaluated::Open);
        };
        let made = match step.of(&lanes) {
            Evaluated::Made(made) => made,
            other => return Err(other),
        };
        made_of = made.scalar();
        let column = store.of_lanes(&made);
        if let Some(slot) = places.get_mut(index as usize) {
            *slot = store.place(column);
        }
    }
    let used = places.get(..u32::from(columns) as usize).unwrap_or(&[]);
    Ok(store.composite(Shape::Matrix(columns, rows, made_of), used))
}
