// Composite constants and their parts.

use crate::constants::{ConstantTable, Constants, Kind};
use crate::known::{ExpressionHandle, Inside, Known, count_parts};
use ir_arena::handle::Handle;
use ir_types::Expression;
use spirv_types::{Reading, TypeHandle, TypeTable, span_of};
use spirv_words::{Feature, Instruction};
use std::alloc::Global;

// The most parts of a constant into which `OpCompositeInsert` puts one.
const MAX_PARTS: u32 = 1024;

// A part of a constant.
#[derive(Clone, Copy)]
struct Place {
    constant: u32,
    index: u32,
}

impl<C: Constants> ConstantTable<C> {
    // The global expressions of these constants.
    pub(crate) fn expressions_of_parts(
        &mut self,
        alloc: Global,
        ids: &[u32],
        instruction: &Instruction,
    ) -> Vec<ExpressionHandle> {
        let mut all = Vec::new(alloc);
        for id in ids {
            let part = self.part_expression(*id, instruction);
            self.failed.push(&mut all, part);
        }
        all
    }

    // A composite constant: a constant of the module where all its parts are constants, else kept as its parts.
    pub(crate) fn put_composite(
        &mut self,
        reading: &Reading,
        instruction: &Instruction,
        ty: TypeHandle,
        parts: &[u32],
    ) {
        let mut known = self.compose(reading.alloc, instruction, ty, parts, instruction.ty);
        match known.expression {
            Some(init) if self.known.are_constants(parts) => {
                known.expression = None;
                self.put(reading, instruction, ty, init, known);
            }
            _ => self.known.set(instruction.id, known),
        }
    }

    // A composite of this type with these parts.
    fn compose(
        &mut self,
        alloc: Global,
        instruction: &Instruction,
        built: TypeHandle,
        parts: &[u32],
        ty: u32,
    ) -> Known {
        let components = self.expressions_of_parts(alloc, parts, instruction);
        let compose = Expression::Compose {
            ty: built,
            components,
        };
        let init = self.build(compose, span_of(instruction));
        let first = self.known.add_parts(parts, &mut self.failed);
        Known::of_parts(first, parts.len(), ty, init)
    }

    // The constant that is a part of another one. A part of a null is a null, added as a constant.
    pub(crate) fn constant_in(
        &mut self,
        types: &TypeTable,
        id: u32,
        index: u32,
        instruction: &Instruction,
    ) -> u32 {
        let inside = self.known.inside(types, id, index, instruction);
        match self.failed.take(inside, Inside::Constant(0)) {
            Inside::Constant(part) => part,
            Inside::Null(part) => {
                let ty = self
                    .failed
                    .take(types.need(part, instruction), Handle::at(0));
                let span = span_of(instruction);
                let init = self.build(Expression::ZeroValue(ty), span);
                let made = self.make(Kind::Constant, None, ty, init, span);
                self.known.add(Known::null(made, part), &mut self.failed)
            }
        }
    }

    // A part of a composite.
    pub(crate) fn extract(
        &mut self,
        types: &TypeTable,
        instruction: &Instruction,
        operands: &[u32],
    ) {
        let mut at = self
            .known
            .operand(instruction, operands, 0, &mut self.failed);
        for index in operands.get(1..).unwrap_or(&[]) {
            at = self.constant_in(types, at, *index, instruction);
        }
        self.known.set_same(instruction.id, at);
    }

    // A composite with another part.
    pub(crate) fn insert(
        &mut self,
        reading: &Reading,
        types: &TypeTable,
        instruction: &Instruction,
        operands: &[u32],
    ) {
        let mut made = self
            .known
            .operand(instruction, operands, 0, &mut self.failed);
        let mut at = self
            .known
            .operand(instruction, operands, 1, &mut self.failed);
        let mut around = Vec::new(reading.alloc);
        for index in operands.get(2..).unwrap_or(&[]) {
            let place = Place {
                constant: at,
                index: *index,
            };
            if self.failed.first.is_some() {
                break;
            }
            self.failed.push(&mut around, place);
            at = self.constant_in(types, at, *index, instruction);
        }
        for place in around.iter().rev() {
            if self.failed.first.is_some() {
                break;
            }
            made = self.replaced(reading.alloc, types, instruction, place, made);
        }
        self.known.set_same(instruction.id, made);
    }

    // The composite with this constant as the part at an index, added as a constant.
    fn replaced(
        &mut self,
        alloc: Global,
        types: &TypeTable,
        instruction: &Instruction,
        place: &Place,
        made: u32,
    ) -> u32 {
        let ty = self.known.at(place.constant).ty;
        let count = count_parts(types, ty);
        if count > MAX_PARTS {
            self.failed
                .fail(instruction.unsupported_by(Feature::LargeInsert));
            return 0;
        }
        let mut parts = Vec::new(alloc);
        for index in 0..count {
            if self.failed.first.is_some() {
                break;
            }
            let part = if index == place.index {
                made
            } else {
                self.constant_in(types, place.constant, index, instruction)
            };
            self.failed.push(&mut parts, part);
        }
        let handle = self.failed.take(types.need(ty, instruction), Handle::at(0));
        let known = self.compose(alloc, instruction, handle, &parts, ty);
        self.known.add(known, &mut self.failed)
    }

    // Components of two vectors.
    pub(crate) fn shuffle(
        &mut self,
        reading: &Reading,
        types: &TypeTable,
        instruction: &Instruction,
        operands: &[u32],
    ) {
        let first = self
            .known
            .operand(instruction, operands, 0, &mut self.failed);
        let second = self
            .known
            .operand(instruction, operands, 1, &mut self.failed);
        let count = count_parts(types, self.known.at(first).ty);
        let mut parts = Vec::new(reading.alloc);
        for component in operands.get(2..).unwrap_or(&[]) {
            let (of, index) = match component.checked_sub(count) {
                // undefined: any value is allowed
                Some(_) if *component == u32::MAX => (first, 0),
                Some(index) => (second, index),
                None => (first, *component),
            };
            let part = self.constant_in(types, of, index, instruction);
            self.failed.push(&mut parts, part);
        }
        let ty = self
            .failed
            .take(types.need(instruction.ty, instruction), Handle::at(0));
        self.put_composite(reading, instruction, ty, &parts);
    }
}
