// How instructions change the function under construction.

use crate::lowering::Lowering;
use crate::writing::{Writing, fail_in, read_in, type_in};
use ir_arena::span::Span;
use ir_flags::{Capabilities, SubgroupOperationSet};
use ir_items::{Block, Expression, LocalVariable, Statement};
use ir_kinds::{BinaryOperator, Literal, PredeclaredType, Scalar, ScalarKind, VectorSize};
use spirv_constants::Made;
use spirv_declarations::Knowledge;
use spirv_expressions::{Builder, Emits, ImageValue, Value, keep, no_type, no_value, refuse};
use spirv_flow::Flow;
use spirv_operations::{
    FunctionBuilder, MeshPlace, NO_IMAGE, Pointer, PointerStep, Slot, no_pointer,
};
use spirv_rays::RayTypes;
use spirv_types::{
    MatrixShape, MemberShape, MeshMember, Reading, Shape, Stored, TypeHandle, Types, packed_line,
    span_of, stored_matrix, vector_type,
};
use spirv_words::{Failure, Feature, Instruction, Malformed, SpirvError};
use std::alloc::Global;

// The most access steps from a variable to a pointer (universal limit of the standard).
const MAX_STEPS: usize = 255;

impl<K: Knowledge, T: Types, W: Writing> Emits for Lowering<K, T, W> {
    fn fail(&mut self, error: SpirvError) {
        self.body.fail(error);
    }

    fn compute(&mut self, expression: Expression, span: Span) -> Value {
        self.body.compute(expression, span)
    }

    fn place(&mut self, expression: Expression, span: Span) -> Value {
        self.body.place(expression, span)
    }
}

impl<K: Knowledge, T: Types, W: Writing> Builder for Lowering<K, T, W> {
    fn alloc(&self) -> Global {
        self.alloc
    }

    fn has_failed(&self) -> bool {
        self.body.failure().is_some()
    }

    fn given(&self, operation: &Instruction, place: usize) -> Option<u32> {
        self.known.reading().listing.operand(operation, place)
    }

    fn given_count(&self, operation: &Instruction) -> usize {
        self.known.reading().listing.operands(operation).len()
    }

    fn shape(&self, ty: u32) -> Shape {
        self.known.declared().types.shape(ty)
    }

    fn part(&self, ty: u32, index: u32) -> Option<MemberShape> {
        self.known.declared().types.part(ty, index)
    }

    fn type_of(&self, id: u32) -> u32 {
        match self.known.reading().listing.definition(id) {
            Some(made) => made.ty,
            None => 0,
        }
    }

    fn built(&mut self, ty: u32, operation: &Instruction) -> TypeHandle {
        match (
            self.known.declared().types.handle(ty),
            self.known.declared().types.shape(ty),
        ) {
            (Some(handle), _) => handle,
            (None, Shape::Nothing) => {
                self.body.fail(operation.malformed(Malformed::NoType));
                no_type()
            }
            (None, _) => {
                self.body.fail(operation.unsupported());
                no_type()
            }
        }
    }

    fn vector(&mut self, size: Option<VectorSize>, scalar: Scalar) -> TypeHandle {
        let made = vector_type(&mut self.built, size, scalar);
        type_in(&mut self.body, made)
    }

    fn stored_matrix(&mut self, matrix: &MatrixShape, stored: Stored) -> TypeHandle {
        let made = stored_matrix(&mut self.built, matrix, stored);
        type_in(&mut self.body, made)
    }

    fn packed_line(&mut self, length: VectorSize, scalar: Scalar) -> TypeHandle {
        let made = packed_line(&mut self.built, length, scalar);
        type_in(&mut self.body, made)
    }

    fn is_constant(&self, id: u32) -> bool {
        match self.known.declared().constants.of(id) {
            Some(known) => matches!(known.made, Made::Constant(_)),
            None => false,
        }
    }

    fn constant(&self, id: u32) -> Option<i64> {
        self.known.declared().constants.of(id)?.value
    }

    fn value(&mut self, id: u32, operation: &Instruction) -> Value {
        if self.has_failed() {
            return no_value();
        }
        if let Some(value) = self.plain_value(id, operation) {
            return value;
        }
        if matches!(self.names.slot(id), Slot::Pair { .. }) {
            return refuse(
                &mut self.body,
                operation.unsupported_by(Feature::PairAsValue),
            );
        }
        let place = self.pointer(id, operation);
        self.way(place, operation)
    }

    fn image(&mut self, id: u32, operation: &Instruction) -> ImageValue {
        let place = self.pointer(id, operation);
        let image = self.pointer_at(place, operation).image;
        let value = self.way(place, operation);
        if image.is_none() {
            self.body.fail(operation.malformed(Malformed::WrongType));
        }
        let image = image.unwrap_or(NO_IMAGE);
        ImageValue {
            value,
            shape: image.shape,
            class: image.class,
        }
    }

    fn sampler(&mut self, id: u32, operation: &Instruction) -> Value {
        match self.resolve(id, operation) {
            Slot::Pair { sampler, .. } => self.way(sampler, operation),
            _ => refuse(&mut self.body, operation.unsupported_by(Feature::NoSampler)),
        }
    }

    fn emit(&mut self, expression: Expression, operation: &Instruction) -> Value {
        self.body.compute(expression, span_of(operation))
    }

    fn literal(&mut self, literal: Literal, operation: &Instruction) -> Value {
        self.always(Expression::Literal(literal), operation)
    }
}

// An index into all resources of an array of arrays.
#[derive(Clone, Copy)]
enum WholeIndex {
    Fixed(u32),
    Computed(Value),
}

impl<K: Knowledge, T: Types, W: Writing> Lowering<K, T, W> {
    // The index into all resources of an array of arrays: the steps to the array at this place, each by how many resources it
    // counts, and the last one.
    fn whole_index(
        &mut self,
        place: u32,
        last: PointerStep,
        operation: &Instruction,
    ) -> WholeIndex {
        let mut whole = self.counted(last, 1, operation);
        let mut at = place;
        for _ in 0..MAX_STEPS {
            let pointer = self.pointer_at(at, operation);
            let (Some(count), Some(base)) = (pointer.resources, pointer.base) else {
                break;
            };
            let more = self.counted(pointer.step, count, operation);
            whole = self.sum(more, whole, operation);
            at = base;
        }
        whole
    }

    // An index that counts so many.
    fn counted(&mut self, step: PointerStep, count: u32, operation: &Instruction) -> WholeIndex {
        let id = match step {
            PointerStep::Root => return WholeIndex::Fixed(0),
            PointerStep::Index(index) => {
                return WholeIndex::Fixed(index.saturating_mul(count));
            }
            PointerStep::Dynamic(id) => id,
        };
        let Some(mut value) = self.plain_value(id, operation) else {
            self.body.fail(operation.malformed(Malformed::NoValue));
            return WholeIndex::Fixed(0);
        };
        let ty = self.type_of(id);
        let is_word = matches!(
            self.shape(ty),
            Shape::Scalar(Scalar {
                kind: ScalarKind::Uint,
                width: 4
            })
        );
        if !is_word {
            let word = Expression::As {
                expr: value,
                kind: ScalarKind::Uint,
                convert: Some(4),
            };
            value = self.emit(word, operation);
        }
        if count == 1 {
            return WholeIndex::Computed(value);
        }
        let right = self.literal(Literal::U32(count), operation);
        let product = Expression::Binary {
            op: BinaryOperator::Multiply,
            left: value,
            right,
        };
        WholeIndex::Computed(self.emit(product, operation))
    }

    // The sum of two such indexes.
    fn sum(&mut self, left: WholeIndex, right: WholeIndex, operation: &Instruction) -> WholeIndex {
        if let (WholeIndex::Fixed(left), WholeIndex::Fixed(right)) = (left, right) {
            return WholeIndex::Fixed(left.saturating_add(right));
        }
        let left = self.index_value(left, operation);
        let right = self.index_value(right, operation);
        let op = BinaryOperator::Add;
        WholeIndex::Computed(self.emit(Expression::Binary { op, left, right }, operation))
    }

    fn index_value(&mut self, index: WholeIndex, operation: &Instruction) -> Value {
        match index {
            WholeIndex::Fixed(index) => self.literal(Literal::U32(index), operation),
            WholeIndex::Computed(value) => value,
        }
    }
}

impl<K: Knowledge, T: Types, W: Writing> FunctionBuilder for Lowering<K, T, W> {
    fn name_of(&mut self, id: u32) -> Option<String> {
        let name = self.known.reading().listing.name(self.alloc, id, None);
        read_in(&mut self.body, name)
    }

    fn reading(&self) -> &Reading {
        self.known.reading()
    }

    fn flow(&self) -> &Flow {
        self.known.flow()
    }

    fn is_known(&self, id: u32) -> bool {
        self.known.declared().constants.of(id).is_some()
    }

    fn slot(&self, id: u32) -> Slot {
        self.names.slot(id)
    }

    fn set(&mut self, id: u32, slot: Slot) {
        self.names.set(id, slot);
    }

    fn resolve(&mut self, id: u32, operation: &Instruction) -> Slot {
        match self.names.slot(id) {
            Slot::Nothing | Slot::Value { .. } => {}
            slot => return slot,
        }
        let Some(variable) = self.known.declared().variables.of(id) else {
            let error = self.missing(id, operation);
            self.body.fail(error);
            return Slot::Nothing;
        };
        let value = self.name(id, Expression::GlobalVariable(variable.handle), operation);
        let is_rebuilt = self.known.declared().types.handle(variable.ty) != Some(variable.built);
        let pointer = Pointer {
            base: None,
            step: PointerStep::Root,
            value,
            scope: None,
            ty: variable.ty,
            image: variable.image,
            stored: Stored::PLAIN,
            column: None,
            split: None,
            resources: None,
            rebuilt: if is_rebuilt {
                Some(variable.built)
            } else {
                None
            },
            mesh: MeshPlace::Plain,
        };
        let image = self.add_pointer(pointer);
        if let Some(part) = variable.mesh {
            return Slot::Pointer(self.given_in(image, pointer, part, operation));
        }
        let Some(sampler) = variable.sampler else {
            return Slot::Pointer(image);
        };
        let mut beside = pointer;
        beside.value = self.name_sampler(id, Expression::GlobalVariable(sampler), operation);
        beside.image = None;
        let sampler = self.add_pointer(beside);
        Slot::Pair { image, sampler }
    }

    fn pointer(&mut self, id: u32, operation: &Instruction) -> u32 {
        match self.resolve(id, operation) {
            Slot::Pointer(place) => place,
            Slot::Pair { image, .. } => image,
            Slot::Nothing | Slot::Value { .. } | Slot::Texel { .. } => {
                self.body.fail(operation.malformed(Malformed::NoPointer));
                0
            }
        }
    }

    fn pointer_at(&mut self, place: u32, operation: &Instruction) -> Pointer {
        match self.names.pointer(place) {
            Some(pointer) => pointer,
            None => {
                self.body.fail(operation.malformed(Malformed::NoPointer));
                no_pointer()
            }
        }
    }

    fn add_pointer(&mut self, pointer: Pointer) -> u32 {
        match self.names.add(pointer, pointer.rebuilt) {
            Ok(place) => place,
            Err(error) => {
                self.body.fail(error);
                0
            }
        }
    }

    fn way(&mut self, place: u32, operation: &Instruction) -> Value {
        let mut above = Vec::new(self.alloc);
        let mut at = place;
        let mut value = None;
        for _ in 0..MAX_STEPS {
            let pointer = self.pointer_at(at, operation);
            if self.reaches(pointer.scope) {
                value = Some(pointer.value);
                break;
            }
            keep(&mut self.body, &mut above, at);
            match pointer.base {
                Some(base) => at = base,
                None => return refuse(
                    &mut self.body,
                    operation.unsupported_by(Feature::PointerOutOfScope),
                ),
            }
        }
        let Some(mut value) = value else {
            return refuse(
                &mut self.body,
                operation.unsupported_by(Feature::LongPointer),
            );
        };
        for place in above.iter().rev() {
            let pointer = self.pointer_at(*place, operation);
            value = match (pointer.resources, pointer.base) {
                (Some(_), _) => value,
                (None, Some(base)) => self.step_from(base, value, pointer.step, operation),
                (None, None) => self.step(value, pointer.step, operation),
            };
            self.names.renew(*place, value, Some(self.scope));
        }
        value
    }

    fn step_from(
        &mut self,
        place: u32,
        base: Value,
        step: PointerStep,
        operation: &Instruction,
    ) -> Value {
        if self.pointer_at(place, operation).resources.is_none() {
            return self.step(base, step, operation);
        }
        match self.whole_index(place, step, operation) {
            WholeIndex::Fixed(index) => self.emit(
                Expression::AccessIndex { base, index },
                operation,
            ),
            WholeIndex::Computed(index) => self.emit(Expression::Access { base, index }, operation),
        }
    }

    fn step(&mut self, base: Value, step: PointerStep, operation: &Instruction) -> Value {
        match step {
            PointerStep::Root => base,
            PointerStep::Index(index) => self.emit(
                Expression::AccessIndex { base, index },
                operation,
            ),
            PointerStep::Dynamic(id) => match self.plain_value(id, operation) {
                Some(index) => self.emit(Expression::Access { base, index }, operation),
                None => refuse(&mut self.body, operation.malformed(Malformed::NoValue)),
            },
        }
    }

    fn mesh_member(&self, place: u32) -> Option<MeshMember> {
        self.known.declared().variables.mesh_member(place)
    }

    fn scope(&self) -> u32 {
        self.scope
    }

    fn enter(&mut self, scope: u32) {
        self.scope = scope;
    }

    fn define(&mut self, operation: &Instruction, value: Value) {
        let id = operation.id;
        let span = span_of(operation);
        let local = if self.known.flow().kept.is_kept(id) {
            let ty = self.built(operation.ty, operation);
            let pointer = self.local(None, ty, None, span);
            self.body
                .statement(Statement::Store { pointer, value }, span);
            Some(pointer)
        } else {
            None
        };
        let slot = Slot::Value {
            value,
            scope: Some(self.scope),
            local,
        };
        self.names.set(id, slot);
    }

    fn always(&mut self, expression: Expression, operation: &Instruction) -> Value {
        self.body.place(expression, span_of(operation))
    }

    fn named_before(&self, id: u32) -> Option<Value> {
        self.names.named(id)
    }

    fn is_named(&self, id: u32) -> bool {
        self.names.is_named(id)
    }

    fn set_named(&mut self, id: u32, value: Value) {
        self.names.set_named(id, value);
    }

    fn predeclared(&mut self, of: PredeclaredType) -> TypeHandle {
        self.special_type(of)
    }

    fn rays(&mut self) -> RayTypes {
        if self.rays.descriptor.is_none() {
            let mut failed = Failure::NONE;
            self.rays = RayTypes::of(self.alloc, &mut self.built, &mut failed);
            fail_in(&mut self.body, &failed);
        }
        self.rays
    }

    fn require_operations(&mut self, operations: SubgroupOperationSet) {
        self.require(Capabilities::SUBGROUP);
        let before = self.known.demands().operations;
        self.known.demands().operations = SubgroupOperationSet(before.0 | operations.0);
    }

    fn require(&mut self, capability: Capabilities) {
        self.known.demands().ask(capability);
    }

    fn local(
        &mut self,
        name: Option<String>,
        ty: TypeHandle,
        init: Option<Value>,
        span: Span,
    ) -> Value {
        self.body.local(LocalVariable { name, ty, init }, span)
    }

    fn add(&mut self, statement: Statement, operation: &Instruction) {
        self.body.statement(statement, span_of(operation));
    }

    fn open(&mut self) {
        self.body.open();
    }

    fn close(&mut self) -> Block {
        self.body.close()
    }

    fn flush(&mut self) {
        self.body.flush();
    }
}
