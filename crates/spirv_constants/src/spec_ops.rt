// Specialization constants computed by `OpSpecConstantOp`: a vector component by component, because an override is a scalar.

use crate::constants::{ConstantTable, Constants, Kind};
use crate::known::{ExpressionHandle, Known, NOTHING};
use crate::operations::{Operation, Step, Steps, expression_of};
use ir_arena::handle::Handle;
use spirv_numbers::ops;
use spirv_types::{Reading, Shape, TypeTable, span_of};
use spirv_words::{Instruction, SpirvError};
use std::alloc::Global;

impl<C: Constants> ConstantTable<C> {
    /// A computed specialization constant: an override without an id, or a composite of such.
    pub fn declare_operation(
        &mut self,
        reading: &Reading,
        types: &TypeTable,
        instruction: &Instruction,
    ) -> Result<(), SpirvError> {
        let number = self.failed.take(reading.listing.need(instruction, 0), 0);
        let opcode = u16::try_from(number).unwrap_or(u16::MAX);
        let operands = reading.listing.operands_from(instruction, 1);
        match opcode {
            ops::COMPOSITE_EXTRACT => self.extract(types, instruction, operands),
            ops::COMPOSITE_INSERT => self.insert(reading, types, instruction, operands),
            ops::VECTOR_SHUFFLE => self.shuffle(reading, types, instruction, operands),
            _ => self.compute_all(reading, types, instruction, opcode, operands),
        }
        self.failed.answer(())
    }

    // An operation on numbers or bools, component by component.
    fn compute_all(
        &mut self,
        reading: &Reading,
        types: &TypeTable,
        instruction: &Instruction,
        opcode: u16,
        operands: &[u32],
    ) {
        let shape = types.shape(instruction.ty);
        let mut operation = Operation::of(instruction, opcode, &shape, &mut self.failed);
        operation.count = operands.len().min(3);
        let Some(size) = shape.size() else {
            self.compute(reading, types, &operation, operands, instruction.id);
            return;
        };
        let mut parts = Vec::new(reading.alloc);
        for place in 0..u32::from(size) {
            operation.component = Some(place);
            let part = self.known.add(NOTHING, &mut self.failed);
            self.compute(reading, types, &operation, operands, part);
            self.failed.push(&mut parts, part);
        }
        let ty = types.need(instruction.ty, instruction);
        let ty = self.failed.take(ty, Handle::at(0));
        self.put_composite(reading, instruction, ty, &parts);
    }

    // The operands of an operation on one component: the component of each vector, and each scalar as it is.
    fn operands_at(
        &mut self,
        types: &TypeTable,
        instruction: &Instruction,
        operands: &[u32],
        component: Option<u32>,
    ) -> [u32; 3] {
        let mut all = [0, 0, 0];
        let mut place = 0usize;
        for operand in &mut all {
            if let Some(id) = operands.get(place).copied() {
                let known = self.failed.take(self.known.need(id, instruction), 0);
                *operand = match (types.shape(self.known.at(known).ty), component) {
                    (Shape::Vector { .. }, Some(component)) => {
                        self.constant_in(types, id, component, instruction)
                    }
                    _ => known,
                };
            }
            place = place.saturating_add(1);
        }
        all
    }

    // An operation on scalars, at this index among the known constants: computed where possible if all operands are constants, else an
    // override.
    fn compute(
        &mut self,
        reading: &Reading,
        types: &TypeTable,
        whole: &Operation,
        operands: &[u32],
        place: u32,
    ) {
        let mut operation = *whole;
        let instruction = &whole.instruction;
        operation.operands = self.operands_at(types, instruction, operands, whole.component);
        if let Some(chosen) = operation.chosen(&self.known) {
            self.known.set_same(place, chosen);
            return;
        }
        let value = operation.fold(types, &self.known);
        let ty = types.need(operation.ty, instruction);
        let ty = self.failed.take(ty, Handle::at(0));
        let literal = operation.literal(&self.known, value);
        let kind = match literal {
            Some(_) => Kind::Constant,
            None => Kind::Override(None),
        };
        let steps = operation.steps(reading.alloc, types, &self.known, literal);
        let init = self.build_steps(reading.alloc, instruction, &steps);
        let name = match operation.name(reading) {
            Ok(name) => Some(name),
            Err(error) => {
                self.failed.fail(error);
                None
            }
        };
        let made = self.make(kind, name, ty, init, span_of(instruction));
        self.known.set(place, Known::of(made, operation.ty, value));
    }

    // Adds the global expressions of an operation's translation.
    fn build_steps(
        &mut self,
        alloc: Global,
        instruction: &Instruction,
        steps: &Steps,
    ) -> ExpressionHandle {
        let mut made = Vec::new(alloc);
        let mut last = Handle::at(0);
        for step in &steps.all {
            if let Some(expression) = expression_of(step, &made) {
                last = self.build(expression, span_of(instruction));
            } else if let Step::Constant(id) = *step {
                last = self.part_expression(id, instruction);
            }
            self.failed.push(&mut made, last);
        }
        if let Some(error) = steps.failed.first {
            self.failed.fail(error);
        }
        last
    }
}
