// `&&` and `||`: the right operand is evaluated only if the left one does not decide the result.

use crate::lowering::{Lowering, Skipped};
use crate::values::{Operand, Value, handle_of, number_of};
use ir_blocks::Statement;
use ir_items::LocalVariable;
use ir_kinds::{BinaryOperator, Literal, Scalar, UnaryOperator};
use ir_types::Expression;
use wgsl_text::Extent;
use wgsl_tree::{Step, StepKind};
use wgsl_types::{Builder, Shape};

impl<B: Builder> Lowering<B> {
    // Begins to skip the right operand in a constant expression, if the left one decides the result; returns whether it does.
    fn decides(&mut self, left: &Operand, or: bool) -> bool {
        let is_decided = match left.value {
            Value::Literal(literal) => self.skips && literal == Literal::Bool(or),
            _ => false,
        };
        if is_decided {
            self.skipped = Some(Skipped {
                value: or,
                extent: left.extent,
                depth: 1,
            });
        }
        is_decided
    }

    /// Lowers the part between the operands of `||`, or else of `&&`.
    pub fn between(&mut self, or: bool, token: u32) {
        let popped = self.pop();
        let left = self.load(popped);
        let extent = self.extent(token);
        if self.decides(&left, or) {
            return;
        }
        if matches!(left.value, Value::Literal(_)) || self.builder.is_global() {
            self.push(left);
            self.push(Operand {
                value: Value::PendingLiteral,
                extent,
            });
            return;
        }
        let (value, _) = self.value(left);
        let mut condition = value;
        if or {
            let negated = Expression::Unary {
                op: UnaryOperator::LogicalNot,
                expr: handle_of(value),
            };
            condition = self.compute(negated, left.extent);
        }
        let ty = self.type_handle(Shape::Scalar(Scalar::BOOL), extent);
        let local = LocalVariable {
            name: None,
            ty,
            init: None,
        };
        let pointer = number_of(self.builder.local(local, extent));
        self.push(Operand::computed(condition, Shape::Scalar(Scalar::BOOL), left.extent));
        self.push(Operand {
            value: Value::Pending(pointer),
            extent,
        });
        self.builder.open();
        self.set_level(self.level.saturating_add(1), extent);
    }

    /// Skips a step of a right operand that is not evaluated; returns whether it does. After the last one, the result is pushed.
    pub fn skip(&mut self, step: Step) -> bool {
        let Some(skipped) = self.skipped else {
            return false;
        };
        let depth = match step.kind {
            StepKind::Between(_) => skipped.depth.saturating_add(1),
            StepKind::Logical(_) => skipped.depth.saturating_sub(1),
            _ => skipped.depth,
        };
        let extent = Extent {
            start: skipped.extent.start,
            end: skipped.extent.end.max(self.extent(step.token).end),
        };
        if depth > 0 {
            self.skipped = Some(Skipped {
                value: skipped.value,
                extent,
                depth,
            });
            return true;
        }
        self.skipped = None;
        self.push(Operand {
            value: Value::Literal(Literal::Bool(skipped.value)),
            extent,
        });
        true
    }

    // Stores the result in the current block.
    fn store(&mut self, pointer: u32, value: u32, extent: Extent) {
        let store = Statement::Store {
            pointer: handle_of(pointer),
            value: handle_of(value),
        };
        self.builder.statement(store, extent);
    }

    /// Lowers the part after the second operand.
    pub fn logical(&mut self, or: bool) {
        let popped = self.pop();
        let right = self.load(popped);
        let between = self.pop();
        let left = self.pop();
        let extent = left.extent.until(right.extent);
        let Value::Pending(pointer) = between.value else {
            let op = if or {
                BinaryOperator::LogicalOr
            } else {
                BinaryOperator::LogicalAnd
            };
            let made = self.combine(op, left, right);
            self.push(made);
            return;
        };
        let (condition, _) = self.value(left);
        let (value, _) = self.value(right);
        self.store(pointer, value, extent);
        self.level = self.level.saturating_sub(1);
        let accept = self.builder.close();
        self.builder.open();
        let decided = self.place(Expression::Literal(Literal::Bool(or)), extent);
        self.store(pointer, decided, extent);
        let reject = self.builder.close();
        let chosen = Statement::If {
            condition: handle_of(condition),
            accept,
            reject,
        };
        self.builder.statement(chosen, extent);
        let pointer = handle_of(pointer);
        let loaded = self.compute(Expression::Load { pointer }, extent);
        self.push(Operand::computed(loaded, Shape::Scalar(Scalar::BOOL), extent));
    }
}
