// Constants and specialization constants (section 3.52.7).

use crate::known::{ExpressionHandle, Known, KnownConstants, Made, named};
use ir_arena::handle::Handle;
use ir_arena::span::Span;
use ir_kinds::Literal;
use ir_types::{Expression, key};
use spirv_numbers::ops;
use spirv_tables::{Decorated, literal, value_of};
use spirv_types::{Reading, Shape, TypeHandle, TypeTable, span_of};
use spirv_words::{Failure, Instruction, Listing, Malformed, SpirvError, Unsupported};
use std::alloc::Global;
use std::collections::BTreeMap;

/// Builds the constants of a module and their expressions.
pub trait Constants {
    /// A constant.
    fn constant(
        &mut self,
        name: Option<String>,
        ty: TypeHandle,
        init: ExpressionHandle,
        span: Span,
    ) -> Result<Handle<key::Constant>, SpirvError>;

    /// An override, by its id where it has one.
    fn overridable(
        &mut self,
        name: Option<String>,
        id: Option<u16>,
        ty: TypeHandle,
        init: ExpressionHandle,
        span: Span,
    ) -> Result<Handle<key::Override>, SpirvError>;

    /// An expression of the module.
    fn expression(
        &mut self,
        expression: Expression,
        span: Span,
    ) -> Result<ExpressionHandle, SpirvError>;
}

/// The constants of a module: those built, and what each id of one means. After the first error every declaration fails.
pub struct ConstantTable<C: Constants> {
    /// The constants built so far.
    pub built: C,
    /// The meaning of each id.
    pub known: KnownConstants,
    // the first specialization constant with each number
    numbered: BTreeMap<u16, u32>,
    // the first error
    pub(crate) failed: Failure,
}

// How a constant is represented.
#[derive(Clone, Copy)]
pub(crate) enum Kind {
    Constant,
    // by its id where it has one
    Override(Option<u16>),
}

impl<C: Constants> ConstantTable<C> {
    /// No constants yet, with ids below the bound.
    pub fn new(alloc: Global, bound: usize, built: C, failed: &mut Failure) -> ConstantTable<C> {
        ConstantTable {
            built,
            known: KnownConstants::new(alloc, bound, failed),
            numbered: BTreeMap::new(alloc),
            failed: Failure::NONE,
        }
    }

    /// The meaning of each id, and the constants built.
    pub fn finish(self) -> (KnownConstants, C) {
        let ConstantTable {
            built,
            known,
            numbered: _,
            failed: _,
        } = self;
        (known, built)
    }

    /// An expression of the module.
    pub fn add(
        &mut self,
        expression: Expression,
        span: Span,
    ) -> Result<ExpressionHandle, SpirvError> {
        let handle = self.build(expression, span);
        self.failed.answer(handle)
    }

    // The same.
    pub(crate) fn build(&mut self, expression: Expression, span: Span) -> ExpressionHandle {
        let made = self.built.expression(expression, span);
        self.failed.take(made, Handle::at(0))
    }

    /// The global expression of a constant.
    pub fn expression(
        &mut self,
        id: u32,
        instruction: &Instruction,
    ) -> Result<ExpressionHandle, SpirvError> {
        self.failed.take(self.known.need(id, instruction), 0);
        let handle = self.part_expression(id, instruction);
        self.failed.answer(handle)
    }

    // The same for a part of a constant.
    pub(crate) fn part_expression(
        &mut self,
        id: u32,
        instruction: &Instruction,
    ) -> ExpressionHandle {
        let mut known = self.known.at(id);
        if let Some(handle) = known.expression {
            return handle;
        }
        let Some(expression) = named(&known.made) else {
            self.failed
                .fail(instruction.malformed(Malformed::NoConstant));
            return Handle::at(0);
        };
        let handle = self.build(expression, span_of(instruction));
        known.expression = Some(handle);
        self.known.set(id, known);
        handle
    }

    // A constant of the module, or an override.
    pub(crate) fn make(
        &mut self,
        kind: Kind,
        name: Option<String>,
        ty: TypeHandle,
        init: ExpressionHandle,
        span: Span,
    ) -> Made {
        let made = match kind {
            Kind::Constant => match self.built.constant(name, ty, init, span) {
                Ok(handle) => Ok(Made::Constant(handle)),
                Err(error) => Err(error),
            },
            Kind::Override(id) => match self.built.overridable(name, id, ty, init, span) {
                Ok(handle) => Ok(Made::Override(handle)),
                Err(error) => Err(error),
            },
        };
        self.failed.take(made, Made::Nothing)
    }

    // A known constant, or an override where it is decorated as one.
    pub(crate) fn put(
        &mut self,
        reading: &Reading,
        instruction: &Instruction,
        ty: TypeHandle,
        init: ExpressionHandle,
        known: Known,
    ) {
        let kind = self
            .failed
            .take(kind_of(&reading.listing, instruction), Kind::Constant);
        if let Kind::Override(Some(number)) = kind {
            if let Some(first) = self.numbered.get(&number).copied() {
                return self.put_again(instruction, number, first, known.value);
            }
            if self.numbered.insert(number, instruction.id).is_err() {
                self.failed.fail(SpirvError::Memory);
            }
        }
        let name = reading.listing.name(reading.alloc, instruction.id, None);
        let name = self.failed.take(name, None);
        let mut known = known;
        known.made = self.make(kind, name, ty, init, span_of(instruction));
        self.known.set(instruction.id, known);
    }

    // A specialization constant whose `SpecId` occurred before: the earlier one, where types and defaults are equal.
    fn put_again(
        &mut self,
        instruction: &Instruction,
        number: u16,
        first: u32,
        value: Option<i64>,
    ) {
        let before = self.known.at(first);
        if before.ty != instruction.ty || before.value != value || value.is_none() {
            let what = Unsupported::SpecId(u32::from(number));
            self.failed.fail(instruction.unsupported_as(what));
        }
        self.known.set_same(instruction.id, first);
    }

    /// A declared constant, except those that `OpSpecConstantOp` computes.
    pub fn declare(
        &mut self,
        reading: &Reading,
        types: &TypeTable,
        instruction: &Instruction,
    ) -> Result<(), SpirvError> {
        let ty = types.need(instruction.ty, instruction);
        let ty = self.failed.take(ty, Handle::at(0));
        let is_composite = matches!(
            instruction.opcode,
            ops::CONSTANT_COMPOSITE | ops::SPEC_CONSTANT_COMPOSITE
        );
        if is_composite {
            let parts = reading.listing.operands(instruction);
            self.failed
                .take(self.known.need_all(parts, instruction), ());
            self.put_composite(reading, instruction, ty, parts);
        } else {
            let shape = types.shape(instruction.ty);
            let literal = literal_of(&reading.listing, instruction, shape, &mut self.failed);
            let (init, known) = match literal {
                Some(literal) => {
                    let known = Known::of(Made::Nothing, instruction.ty, value_of(literal));
                    (Expression::Literal(literal), known)
                }
                None => (
                    Expression::ZeroValue(ty),
                    Known::null(Made::Nothing, instruction.ty),
                ),
            };
            let init = self.build(init, span_of(instruction));
            self.put(reading, instruction, ty, init, known);
        }
        self.failed.answer(())
    }

    /// The global expressions of these constants.
    pub fn expressions_of(
        &mut self,
        alloc: Global,
        ids: &[u32],
        instruction: &Instruction,
    ) -> Result<Vec<ExpressionHandle>, SpirvError> {
        self.failed.take(self.known.need_all(ids, instruction), ());
        let all = self.expressions_of_parts(alloc, ids, instruction);
        self.failed.answer(all)
    }
}

// How the constant of an instruction is represented.
fn kind_of(listing: &Listing, instruction: &Instruction) -> Result<Kind, SpirvError> {
    match Decorated::of(listing, instruction.id, None).spec_id {
        Some(number) => match u16::try_from(number) {
            Ok(id) => Ok(Kind::Override(Some(id))),
            Err(_) => Err(instruction.unsupported_as(Unsupported::SpecId(number))),
        },
        None => Ok(Kind::Constant),
    }
}

// The literal of a scalar constant; `None` for a null.
fn literal_of(
    listing: &Listing,
    instruction: &Instruction,
    shape: Shape,
    failed: &mut Failure,
) -> Option<Literal> {
    match instruction.opcode {
        ops::CONSTANT_TRUE | ops::SPEC_CONSTANT_TRUE => return Some(Literal::Bool(true)),
        ops::CONSTANT_FALSE | ops::SPEC_CONSTANT_FALSE => return Some(Literal::Bool(false)),
        ops::CONSTANT | ops::SPEC_CONSTANT => {}
        ops::CONSTANT_NULL | ops::UNDEF
            if !shape.is_handle() && !matches!(shape, Shape::Pointer { .. }) => {
            return None;
        }
        _ => {
            failed.fail(instruction.unsupported());
            return None;
        }
    }
    let made = match shape {
        Shape::Scalar(scalar) => {
            let low = u64::from(failed.take(listing.need(instruction, 0), 0));
            let high = u64::from(listing.operand(instruction, 1).unwrap_or(0));
            literal(scalar, low + high * 4294967296)
        }
        _ => None,
    };
    if made.is_none() {
        failed.fail(instruction.malformed(Malformed::WrongType));
    }
    made
}
