// Sets of a subgroup's invocations, as words that are computed with one span.

use crate::builder::{Emits, Value, keep};
use ir_arena::span::Span;
use ir_kinds::{BinaryOperator, Literal, VectorSize};
use ir_types::Expression;
use spirv_types::TypeHandle;
use std::alloc::Global;

/// Computes words with this span.
#[derive(Clone, Copy)]
pub struct Words {
    /// The allocator.
    pub alloc: Global,
    /// The span.
    pub span: Span,
}

impl Words {
    /// A word.
    pub fn word<E: Emits>(&self, body: &mut E, word: u32) -> Value {
        body.place(Expression::Literal(Literal::U32(word)), self.span)
    }

    /// An operator of two values.
    pub fn binary<E: Emits>(
        &self,
        body: &mut E,
        op: BinaryOperator,
        left: Value,
        right: Value,
    ) -> Value {
        body.compute(Expression::Binary { op, left, right }, self.span)
    }

    // A vector of four equal words.
    fn four<E: Emits>(&self, body: &mut E, value: Value) -> Value {
        let size = VectorSize::Quad;
        body.compute(Expression::Splat { size, value }, self.span)
    }

    fn select<E: Emits>(
        &self,
        body: &mut E,
        condition: Value,
        accept: Value,
        reject: Value,
    ) -> Value {
        let select = Expression::Select {
            condition,
            accept,
            reject,
        };
        body.compute(select, self.span)
    }

    // The words 0, 1, 2 and 3.
    fn indices<E: Emits>(&self, body: &mut E, ty: TypeHandle) -> Value {
        let mut components = Vec::new(self.alloc);
        for index in 0..4u32 {
            let part = self.word(body, index);
            keep(body, &mut components, part);
        }
        body.compute(Expression::Compose { ty, components }, self.span)
    }

    /// The mask of all invocations below one, in four words of this type.
    pub fn below<E: Emits>(&self, body: &mut E, ty: TypeHandle, at: Value) -> Value {
        let five = self.word(body, 5);
        let last = self.word(body, 31);
        let one = self.word(body, 1);
        let zero = self.word(body, 0);
        let full = self.word(body, u32::MAX);
        let indices = self.indices(body, ty);
        let index = self.binary(body, BinaryOperator::ShiftRight, at, five);
        let place = self.binary(body, BinaryOperator::And, at, last);
        let bit = self.binary(body, BinaryOperator::ShiftLeft, one, place);
        let lower = self.binary(body, BinaryOperator::Subtract, bit, one);
        let index = self.four(body, index);
        let lower = self.four(body, lower);
        let none = self.four(body, zero);
        let all = self.four(body, full);
        let here = self.binary(body, BinaryOperator::Equal, index, indices);
        let rest = self.select(body, here, lower, none);
        let before = self.binary(body, BinaryOperator::Greater, index, indices);
        self.select(body, before, all, rest)
    }
}
