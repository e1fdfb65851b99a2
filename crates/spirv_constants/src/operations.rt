// Operations on scalar constants, as expressions.

use crate::known::{ExpressionHandle, KnownConstants, Made};
use ir_arena::handle::Handle;
use ir_kinds::{BinaryOperator, Literal, MathFunction, Scalar, ScalarKind, UnaryOperator};
use ir_types::Expression;
use spirv_numbers::ops;
use spirv_tables::operators::{COMPARISONS, INTEGER, LOGIC, SHIFTS, find_operator, find_signed};
use spirv_tables::{folded, literal};
use spirv_types::{Reading, Shape, TypeTable, numbered};
use spirv_words::{Failure, Instruction, Malformed, SpirvError, Unsupported};
use std::alloc::Global;

// An operation on scalars.
#[derive(Clone, Copy)]
pub(crate) struct Operation {
    pub instruction: Instruction,
    pub opcode: u16,
    // its operands, and their number
    pub operands: [u32; 3],
    pub count: usize,
    // the type of the result, and its scalar
    pub ty: u32,
    pub scalar: Scalar,
    // which component of the result it is
    pub component: Option<u32>,
}

// One expression of an operation's translation. Operands refer to earlier ones by index.
#[derive(Clone, Copy)]
pub(crate) enum Step {
    // the expression of this constant
    Constant(u32),
    Literal(Literal),
    Unary(UnaryOperator, usize),
    Quantized(usize),
    // converted to a scalar of this kind and width; a bitcast where only the sign differs
    As(usize, Scalar),
    Binary(BinaryOperator, usize, usize),
    Select([usize; 3]),
}

// The expressions of an operation's translation, the last of which is its result, and the error, if any.
#[derive(Drop)]
pub(crate) struct Steps {
    pub all: Vec<Step>,
    pub failed: Failure,
}

impl Steps {
    // Adds an expression, unless there was an error, and returns its index.
    fn add(&mut self, step: Step) -> usize {
        let place = self.all.len();
        if self.failed.first.is_none() {
            self.failed.push(&mut self.all, step);
        }
        place
    }
}

// A binary operation: the kind of its operands, whether the second is a shift count, and the kind of its result.
#[derive(Clone, Copy)]
pub(crate) struct Binary {
    pub op: BinaryOperator,
    pub kind: ScalarKind,
    pub shifts: bool,
    pub gives: ScalarKind,
}

impl Binary {
    // One with operands of this kind.
    pub(crate) fn of(op: BinaryOperator, kind: ScalarKind, gives: ScalarKind) -> Binary {
        Binary {
            op,
            kind,
            shifts: false,
            gives,
        }
    }
}

impl Operation {
    // An operation with a result of this shape, or for one component of it; its operands are set later.
    pub(crate) fn of(
        instruction: &Instruction,
        opcode: u16,
        shape: &Shape,
        failed: &mut Failure,
    ) -> Operation {
        let (scalar, ty) = match *shape {
            Shape::Scalar(scalar) => (scalar, instruction.ty),
            Shape::Vector {
                scalar,
                component,
                ..
            } => (scalar, component),
            _ => {
                let what = Unsupported::SpecOperation(opcode);
                failed.fail(instruction.unsupported_as(what));
                (Scalar::BOOL, 0)
            }
        };
        Operation {
            instruction: *instruction,
            opcode,
            operands: [0, 0, 0],
            count: 0,
            ty,
            scalar,
            component: None,
        }
    }

    // The error that this is not translated.
    pub(crate) fn unsupported(&self) -> SpirvError {
        self.instruction
            .unsupported_as(Unsupported::SpecOperation(self.opcode))
    }

    // The operand at this index.
    fn operand(&self, place: usize, failed: &mut Failure) -> u32 {
        match self.operands.get(place) {
            Some(id) if place < self.count => *id,
            _ => {
                failed.fail(self.instruction.malformed(Malformed::MissingOperand));
                0
            }
        }
    }

    // The name of its result, or of one component of it.
    pub(crate) fn name(&self, reading: &Reading) -> Result<String, SpirvError> {
        let id = self.instruction.id;
        let whole = match reading.listing.name(reading.alloc, id, None) {
            Ok(Some(name)) => Ok(name),
            Ok(None) => numbered(reading.alloc, "spec_op", id),
            Err(error) => Err(error),
        };
        match (whole, self.component) {
            (Ok(name), Some(component)) => numbered(reading.alloc, &name, component),
            (whole, _) => whole,
        }
    }

    // The resulting literal, where all operands are constants and it could be computed.
    pub(crate) fn literal(&self, known: &KnownConstants, value: Option<i64>) -> Option<Literal> {
        let operands = self.operands.get(..self.count).unwrap_or(&[]);
        match (value, self.scalar.kind) {
            (Some(_), _) if !known.are_constants(operands) => None,
            (Some(value), ScalarKind::Bool) => Some(Literal::Bool(value != 0)),
            (Some(value), _) => literal(self.scalar, value.cast_unsigned()),
            (None, _) => None,
        }
    }

    // The constant selected by a constant condition.
    pub(crate) fn chosen(&self, known: &KnownConstants) -> Option<u32> {
        let [condition, accept, reject] = self.operands;
        let condition = known.at(condition);
        match (self.opcode, condition.made, condition.value) {
            (ops::SELECT, Made::Constant(_), Some(0)) => Some(reject),
            (ops::SELECT, Made::Constant(_), Some(_)) => Some(accept),
            _ => None,
        }
    }

    // Its value with the default values, where it can be computed here.
    pub(crate) fn fold(&self, types: &TypeTable, known: &KnownConstants) -> Option<i64> {
        let [first, second, third] = self.operands;
        match (
            self.value(known, first, 0),
            self.value(known, second, 1),
            self.value(known, third, 2),
            scalar_of(types, known, first),
        ) {
            (Some(one), Some(two), Some(three), Some(from)) => {
                folded(self.opcode, self.scalar, from, [one, two, three])
            }
            _ => None,
        }
    }

    // The value of the operand at a place; 0 where there is none.
    fn value(&self, known: &KnownConstants, id: u32, place: usize) -> Option<i64> {
        if place < self.count {
            known.at(id).value
        } else {
            Some(0)
        }
    }

    // Its translation as this literal, if there is one.
    pub(crate) fn steps(
        &self,
        alloc: Global,
        types: &TypeTable,
        known: &KnownConstants,
        literal: Option<Literal>,
    ) -> Steps {
        let mut steps = Steps {
            all: Vec::new(alloc),
            failed: Failure::NONE,
        };
        match (literal, self.opcode) {
            (Some(literal), _) => {
                steps.add(Step::Literal(literal));
            }
            (None, ops::S_MOD) => self.add_modulo(types, known, &mut steps),
            (None, ops::SELECT) => self.add_choice(&mut steps),
            (None, _) => match binary_of(types, known, self, &mut steps.failed) {
                Some(binary) => {
                    let left = self.add_operand(types, known, 0, binary.kind, &mut steps);
                    let right = if binary.shifts {
                        self.add_count(types, known, &mut steps)
                    } else {
                        self.add_operand(types, known, 1, binary.kind, &mut steps)
                    };
                    let made = steps.add(Step::Binary(binary.op, left, right));
                    self.add_cast(made, binary.gives, &mut steps);
                }
                None => self.add_unary(types, known, &mut steps),
            },
        }
        steps
    }

    // The scalar of the operand at this index.
    fn scalar_at(
        &self,
        types: &TypeTable,
        known: &KnownConstants,
        place: usize,
        failed: &mut Failure,
    ) -> Scalar {
        let id = self.operand(place, failed);
        match scalar_of(types, known, id) {
            Some(scalar) => scalar,
            None => {
                failed.fail(self.instruction.malformed(Malformed::NoConstant));
                Scalar::U32
            }
        }
    }

    // The operand at this index, converted to this kind.
    fn add_operand(
        &self,
        types: &TypeTable,
        known: &KnownConstants,
        place: usize,
        kind: ScalarKind,
        steps: &mut Steps,
    ) -> usize {
        let from = self.scalar_at(types, known, place, &mut steps.failed);
        let to = Scalar {
            kind,
            width: from.width,
        };
        self.add_operand_as(known, place, from, to, steps)
    }

    // The second operand as `u32`, the type of a shift count.
    fn add_count(&self, types: &TypeTable, known: &KnownConstants, steps: &mut Steps) -> usize {
        let from = self.scalar_at(types, known, 1, &mut steps.failed);
        self.add_operand_as(known, 1, from, Scalar::U32, steps)
    }

    // The operand at this index, converted from one scalar to another; a constant becomes a literal.
    fn add_operand_as(
        &self,
        known: &KnownConstants,
        place: usize,
        from: Scalar,
        to: Scalar,
        steps: &mut Steps,
    ) -> usize {
        let id = self.operand(place, &mut steps.failed);
        let value = known.at(id).value.unwrap_or(0);
        match literal(to, value.cast_unsigned()) {
            _ if from == to => steps.add(Step::Constant(id)),
            Some(literal) if known.is_constant(id) => steps.add(Step::Literal(literal)),
            _ => {
                let operand = steps.add(Step::Constant(id));
                steps.add(Step::As(operand, to))
            }
        }
    }

    // A value of this kind, bitcast to the result's.
    fn add_cast(&self, made: usize, from: ScalarKind, steps: &mut Steps) {
        if from != self.scalar.kind {
            steps.add(Step::As(made, self.scalar));
        }
    }

    // The remainder with the sign of the divisor: x % y, plus y where the remainder is not 0 and has the other sign.
    fn add_modulo(&self, types: &TypeTable, known: &KnownConstants, steps: &mut Steps) {
        let kind = ScalarKind::Sint;
        let signed = Scalar {
            kind,
            width: self.scalar.width,
        };
        let Some(literal) = literal(signed, 0) else {
            steps.failed.fail(self.unsupported());
            return;
        };
        let zero = steps.add(Step::Literal(literal));
        let whole = self.add_operand(types, known, 0, kind, steps);
        let divisor = self.add_operand(types, known, 1, kind, steps);
        let left = steps.add(Step::Binary(BinaryOperator::Modulo, whole, divisor));
        let right = self.add_operand(types, known, 1, kind, steps);
        let differs = steps.add(Step::Binary(BinaryOperator::ExclusiveOr, left, right));
        let is_other = steps.add(Step::Binary(BinaryOperator::Less, differs, zero));
        let is_some = steps.add(Step::Binary(BinaryOperator::NotEqual, left, zero));
        let both = steps.add(Step::Binary(BinaryOperator::LogicalAnd, is_other, is_some));
        let more = steps.add(Step::Binary(BinaryOperator::Add, left, right));
        let chosen = steps.add(Step::Select([both, more, left]));
        self.add_cast(chosen, kind, steps);
    }

    // A select.
    fn add_choice(&self, steps: &mut Steps) {
        let mut parts = [0, 0, 0];
        let mut place = 0usize;
        for part in &mut parts {
            let id = self.operand(place, &mut steps.failed);
            *part = steps.add(Step::Constant(id));
            place = place.saturating_add(1);
        }
        steps.add(Step::Select(parts));
    }

    // An operation of one operand.
    fn add_unary(&self, types: &TypeTable, known: &KnownConstants, steps: &mut Steps) {
        let (kind, operator) = match self.opcode {
            ops::LOGICAL_NOT => (self.scalar.kind, Some(UnaryOperator::LogicalNot)),
            ops::F_NEGATE => (self.scalar.kind, Some(UnaryOperator::Negate)),
            ops::NOT => (self.scalar.kind, Some(UnaryOperator::BitwiseNot)),
            ops::S_NEGATE => (ScalarKind::Sint, Some(UnaryOperator::Negate)),
            ops::S_CONVERT => (ScalarKind::Sint, None),
            ops::U_CONVERT => (ScalarKind::Uint, None),
            ops::F_CONVERT | ops::QUANTIZE_TO_F16 => (ScalarKind::Float, None),
            _ => {
                steps.failed.fail(self.unsupported());
                return;
            }
        };
        let operand = self.add_operand(types, known, 0, kind, steps);
        let made = match operator {
            Some(operator) => steps.add(Step::Unary(operator, operand)),
            None if self.opcode == ops::QUANTIZE_TO_F16 => steps.add(Step::Quantized(operand)),
            None => steps.add(Step::As(operand, self.scalar)),
        };
        if self.opcode == ops::S_NEGATE {
            self.add_cast(made, kind, steps);
        }
    }
}

// The scalar of a constant.
fn scalar_of(types: &TypeTable, known: &KnownConstants, id: u32) -> Option<Scalar> {
    types.shape(known.at(id).ty).scalar()
}

// The binary operation, if it is one.
fn binary_of(
    types: &TypeTable,
    known: &KnownConstants,
    operation: &Operation,
    failed: &mut Failure,
) -> Option<Binary> {
    let (opcode, gives) = (operation.opcode, operation.scalar.kind);
    if let Some((op, sign)) = find_signed(&INTEGER, opcode) {
        let kind = sign.unwrap_or(gives);
        return Some(Binary::of(op, kind, kind));
    }
    if let Some((op, sign)) = find_signed(&COMPARISONS, opcode) {
        let first = operation.operand(0, failed);
        let kind = match (sign, scalar_of(types, known, first)) {
            (Some(kind), _) => kind,
            (None, Some(scalar)) => scalar.kind,
            (None, None) => {
                failed.fail(operation.unsupported());
                gives
            }
        };
        return Some(Binary::of(op, kind, gives));
    }
    if let Some((op, sign)) = find_signed(&SHIFTS, opcode) {
        let kind = sign.unwrap_or(gives);
        return Some(Binary {
            op,
            kind,
            shifts: true,
            gives: kind,
        });
    }
    match find_operator(&LOGIC, opcode) {
        Some(op) if gives == ScalarKind::Bool => Some(Binary::of(op, gives, gives)),
        _ => None,
    }
}

// The expression of a step, given those of the steps before; `None` for a constant, which has its own.
pub(crate) fn expression_of(step: &Step, made: &[ExpressionHandle]) -> Option<Expression> {
    match *step {
        Step::Constant(_) => None,
        Step::Literal(literal) => Some(Expression::Literal(literal)),
        Step::Unary(op, expr) => Some(Expression::Unary {
            op,
            expr: made_at(made, expr),
        }),
        Step::Quantized(arg) => Some(Expression::Math {
            fun: MathFunction::QuantizeToF16,
            arg: made_at(made, arg),
            arg1: None,
            arg2: None,
            arg3: None,
        }),
        Step::As(expr, to) => Some(Expression::As {
            expr: made_at(made, expr),
            kind: to.kind,
            convert: Some(to.width),
        }),
        Step::Binary(op, left, right) => Some(Expression::Binary {
            op,
            left: made_at(made, left),
            right: made_at(made, right),
        }),
        Step::Select(parts) => {
            let [condition, accept, reject] = parts;
            Some(Expression::Select {
                condition: made_at(made, condition),
                accept: made_at(made, accept),
                reject: made_at(made, reject),
            })
        }
    }
}

// The expression made of the step at this index.
fn made_at(made: &[ExpressionHandle], place: usize) -> ExpressionHandle {
    match made.get(place) {
        Some(handle) => *handle,
        None => Handle::at(0),
    }
}
