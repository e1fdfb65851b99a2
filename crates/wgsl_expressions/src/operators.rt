// Lowers unary and binary operators.

use crate::lowering::Lowering;
use crate::values::{Operand, Value, handle_of};
use ir_kinds::{BinaryOperator, Scalar, ScalarKind, UnaryOperator};
use ir_types::Expression;
use wgsl_constants::{Known, Lanes, combine, negate};
use wgsl_convert::{ColumnStep, of_matrices};
use wgsl_text::Extent;
use wgsl_types::{Builder, Shape, common, is_shift, result_of, splats};

impl<B: Builder> Lowering<B> {
    // Evaluates a unary operator on a constant.
    fn known_unary(
        &mut self,
        op: UnaryOperator,
        operand: &Operand,
        extent: Extent,
    ) -> Option<Value> {
        let known = self.known_of(operand)?;
        match self.store.lanes(known) {
            Some(lanes) => self.settled(negate(op, &lanes), extent),
            None => self.of_columns(&ColumnStep::Unary(op), known, extent),
        }
    }

    /// Lowers a unary operator.
    pub fn unary(&mut self, op: UnaryOperator, token: u32) {
        let popped = self.pop();
        let operand = self.load(popped);
        let extent = self.extent(token).until(operand.extent);
        let value = match self.known_unary(op, &operand, extent) {
            Some(value) => value,
            None => {
                let (value, shape) = self.value(operand);
                let expr = handle_of(value);
                Value::Computed(self.compute(Expression::Unary { op, expr }, extent), shape)
            }
        };
        self.push(Operand { value, extent });
    }

    // Two constant scalars or vectors, converted to operand types that the operator accepts.
    fn known_pair(
        &self,
        op: BinaryOperator,
        left: &Lanes,
        right: &Lanes,
    ) -> Option<(Lanes, Lanes)> {
        if is_shift(op) {
            return Some((*left, right.converted(Scalar::U32)?));
        }
        let scalar = common(left.scalar(), right.scalar())?;
        Some((left.converted(scalar)?, right.converted(scalar)?))
    }

    // Evaluates a binary operator on two constants.
    fn known_binary(
        &mut self,
        op: BinaryOperator,
        left: &Operand,
        right: &Operand,
        extent: Extent,
    ) -> Option<Value> {
        let (first, second) = (self.known_of(left)?, self.known_of(right)?);
        let is_product = matches!(op, BinaryOperator::Multiply);
        match (self.store.lanes(first), self.store.lanes(second)) {
            (Some(first), Some(second)) => match self.known_pair(op, &first, &second) {
                Some((first, second)) => self.settled(combine(op, &first, &second), extent),
                None => self.stays(extent),
            },
            (Some(scalar), None) if is_product && scalar.size.is_none() => {
                match scalar.converted(self.scalar_of(right)?) {
                    Some(scalar) => self.of_columns(&ColumnStep::Left(op, scalar), second, extent),
                    None => self.stays(extent),
                }
            }
            (None, Some(scalar)) if is_product && scalar.size.is_none() => {
                match scalar.converted(self.scalar_of(left)?) {
                    Some(scalar) => self.of_columns(&ColumnStep::Right(op, scalar), first, extent),
                    None => self.stays(extent),
                }
            }
            _ => match common(self.scalar_of(left)?, self.scalar_of(right)?) {
                Some(scalar) => self.known_matrices(op, first, second, scalar, extent),
                None => self.stays(extent),
            },
        }
    }

    // Evaluates a binary operator on two constants, one of them a matrix and neither a scalar.
    fn known_matrices(
        &mut self,
        op: BinaryOperator,
        first: Known,
        second: Known,
        scalar: Scalar,
        extent: Extent,
    ) -> Option<Value> {
        match of_matrices(&mut self.store, op, first, second, scalar) {
            Ok(made) => Some(self.value_of(made)),
            Err(evaluated) => self.settled(evaluated, extent),
        }
    }

    // The common scalar of both operands.
    fn common_of(&self, left: &Operand, right: &Operand) -> Option<Scalar> {
        let (Some(from), Some(to)) = (self.scalar_of(left), self.scalar_of(right)) else {
            return None;
        };
        match common(from, to) {
            Some(scalar) if scalar.is_abstract() => {
                if scalar.kind == ScalarKind::AbstractFloat {
                    Some(Scalar::F32)
                } else {
                    self.concrete_of(left)
                }
            }
            scalar => scalar,
        }
    }

    // Both operands converted to their common scalar.
    fn both(
        &mut self,
        op: BinaryOperator,
        left: Operand,
        right: Operand,
    ) -> ((u32, Shape), (u32, Shape)) {
        if is_shift(op) {
            let moved = self.value(left);
            return (moved, self.value_as(right, Scalar::U32));
        }
        match self.common_of(&left, &right) {
            Some(scalar) => {
                let left = self.value_as(left, scalar);
                (left, self.value_as(right, scalar))
            }
            None => {
                let left = self.value(left);
                (left, self.value(right))
            }
        }
    }

    // Splats a scalar to a vector.
    fn splat_as(&mut self, value: (u32, Shape), beside: Shape, extent: Extent) -> (u32, Shape) {
        match (value.1, beside) {
            (Shape::Scalar(scalar), Shape::Vector(size, _)) => {
                let value = handle_of(value.0);
                let splat = self.compute(Expression::Splat { size, value }, extent);
                (splat, Shape::Vector(size, scalar))
            }
            _ => value,
        }
    }

    /// Lowers a binary operator on two run-time operands.
    pub fn combine(&mut self, op: BinaryOperator, left: Operand, right: Operand) -> Operand {
        let extent = left.extent.until(right.extent);
        if let Some(value) = self.known_binary(op, &left, &right, extent) {
            return Operand { value, extent };
        }
        let (mut first, mut second) = self.both(op, left, right);
        if splats(op) {
            first = self.splat_as(first, second.1, extent);
            second = self.splat_as(second, first.1, extent);
        }
        let shape = result_of(op, first.1, second.1);
        let binary = Expression::Binary {
            op,
            left: handle_of(first.0),
            right: handle_of(second.0),
        };
        Operand::computed(self.compute(binary, extent), shape, extent)
    }

    /// Lowers a binary operator.
    pub fn binary(&mut self, op: BinaryOperator) {
        let right = self.pop();
        let left = self.pop();
        let left = self.load(left);
        let right = self.load(right);
        let made = self.combine(op, left, right);
        self.push(made);
    }
}
