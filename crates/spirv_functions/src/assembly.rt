// Steps become blocks of statements.

use crate::instructions::lower;
use crate::mesh::emit_tasks;
use ir_arena::span::Span;
use ir_blocks::{Block, Statement, SwitchCase};
use ir_kinds::{Literal, Scalar, SwitchValue, UnaryOperator};
use ir_types::Expression;
use spirv_expressions::{Value, keep, need, refuse};
use spirv_flow::{BreakIf, Case, CaseBody, Choice, FunctionSteps, Step};
use spirv_math::selector_of;
use spirv_numbers::ops;
use spirv_operations::{FunctionBuilder, made_name, phi_local};
use spirv_words::{Feature, Instruction, Malformed, SpirvError};
use std::alloc::Global;
use std::collections::BTreeMap;

// What is open around a step.
#[derive(Clone, Copy)]
enum Frame {
    // an if on this condition
    If(Value),
    Loop,
    Switch(OpenSwitch),
}

// A switch that is not ended.
#[derive(Clone, Copy)]
struct OpenSwitch {
    selector: Value,
    // whether its values are signed
    signed: bool,
    // the case that comes next, and the one after the last
    next: u32,
    end: u32,
    // the step after it
    after: u32,
    // its first case among those that are done
    first: usize,
    block: u32,
}

// Steps on their way to blocks.
#[derive(Drop)]
struct Assembly {
    frames: Vec<Frame>,
    // the first blocks of what is open
    done: Vec<Block>,
    cases: Vec<SwitchCase>,
    // the operand of the end of the block that was lowered last
    value: Option<Value>,
    // the flags of loops that are left from a switch in them
    flags: BTreeMap<u32, Value>,
}

/// The body of a function; of no use where something was wrong.
pub fn assemble<L: FunctionBuilder>(
    alloc: Global,
    lowering: &mut L,
    steps: &FunctionSteps,
) -> Block {
    let mut assembly = Assembly {
        frames: Vec::new(alloc),
        done: Vec::new(alloc),
        cases: Vec::new(alloc),
        value: None,
        flags: BTreeMap::new(alloc),
    };
    lowering.open();
    let mut at = steps.first;
    // each step is taken once
    for _ in steps.first..steps.end {
        if at >= steps.end || lowering.has_failed() {
            break;
        }
        at = assembly.take(lowering, at);
    }
    lowering.close()
}

// The end of a block.
fn end_of<L: FunctionBuilder>(lowering: &L, block: u32) -> Instruction {
    match lowering.flow().blocks.get(block) {
        Some(block) => lowering.reading().listing.at(block.end),
        None => Instruction::NONE,
    }
}

// The case at this place.
fn case_at<L: FunctionBuilder>(lowering: &mut L, place: u32) -> Case {
    match lowering.flow().steps.cases.get(place as usize) {
        Some(case) => *case,
        None => {
            lowering.fail(unbalanced());
            Case {
                choice: Choice::Default,
                body: CaseBody::Empty,
                falls_through: false,
            }
        }
    }
}

impl Assembly {
    // Takes a step. Returns the next one.
    fn take<L: FunctionBuilder>(&mut self, lowering: &mut L, at: u32) -> u32 {
        let next = at.saturating_add(1);
        let Some(step) = lowering.flow().steps.steps.get(at as usize).copied() else {
            return next;
        };
        match step {
            Step::Block(block) => self.value = lower_block(lowering, block),
            Step::If(block) => {
                let condition = self.need(lowering, block);
                self.begin(lowering, Frame::If(condition));
            }
            Step::Else | Step::Continuing => {
                let part = lowering.close();
                keep(lowering, &mut self.done, part);
                lowering.open();
            }
            Step::EndIf => self.end_if(lowering),
            Step::Loop => self.begin(lowering, Frame::Loop),
            Step::EndLoop(condition) => self.end_loop(lowering, condition),
            Step::Switch {
                block,
                first,
                count,
                after,
            } => {
                self.begin_switch(lowering, block, first, count, after);
                return self.next_case(lowering, next);
            }
            Step::EndCase => return self.end_case(lowering, next),
            Step::SetFlag(token) => self.set_flag(lowering, token, true),
            Step::ClearFlag(token) => self.set_flag(lowering, token, false),
            Step::BreakIfFlag(token) => self.break_if_flag(lowering, token),
            Step::Break => push(lowering, Statement::Break),
            Step::Continue => push(lowering, Statement::Continue),
            Step::Kill => push(lowering, Statement::Kill),
            Step::Return(block) => self.end_function(lowering, block),
        }
        next
    }

    // Begins an if or a loop.
    fn begin<L: FunctionBuilder>(&mut self, lowering: &mut L, frame: Frame) {
        keep(lowering, &mut self.frames, frame);
        lowering.open();
    }

    // The pointer to the flag of a loop.
    fn flag<L: FunctionBuilder>(&mut self, lowering: &mut L, token: u32) -> Value {
        if let Some(pointer) = self.flags.get(&token) {
            return *pointer;
        }
        let ty = lowering.vector(None, Scalar::BOOL);
        let name = format!(in lowering.alloc(); "leaves_{token}");
        let name = made_name(lowering, name);
        let pointer = lowering.local(name, ty, None, Span::UNDEFINED);
        if self.flags.insert(token, pointer).is_err() {
            lowering.fail(SpirvError::Memory);
        }
        pointer
    }

    // Sets the flag of a loop, or takes it back.
    fn set_flag<L: FunctionBuilder>(&mut self, lowering: &mut L, token: u32, set: bool) {
        let pointer = self.flag(lowering, token);
        let literal = Expression::Literal(Literal::Bool(set));
        let value = lowering.always(literal, &Instruction::NONE);
        push(lowering, Statement::Store { pointer, value })
    }

    // Leaves the nearest loop or switch where the flag of a loop is set.
    fn break_if_flag<L: FunctionBuilder>(&mut self, lowering: &mut L, token: u32) {
        let pointer = self.flag(lowering, token);
        let condition = lowering.emit(Expression::Load { pointer }, &Instruction::NONE);
        lowering.open();
        push(lowering, Statement::Break);
        let accept = lowering.close();
        lowering.open();
        let reject = lowering.close();
        push(
            lowering,
            Statement::If {
                condition,
                accept,
                reject,
            },
        )
    }

    // The operand of the end of the block that was lowered last.
    fn need<L: FunctionBuilder>(&self, lowering: &mut L, block: u32) -> Value {
        match self.value {
            Some(value) => value,
            None => refuse(
                lowering,
                end_of(lowering, block).malformed(Malformed::MissingOperand),
            ),
        }
    }

    fn end_if<L: FunctionBuilder>(&mut self, lowering: &mut L) {
        let reject = lowering.close();
        let condition = match self.frames.pop() {
            Some(frame) => condition_of(&frame),
            None => None,
        };
        let (Some(condition), Some(accept)) = (condition, self.done.pop()) else {
            lowering.fail(unbalanced());
            return;
        };
        push(
            lowering,
            Statement::If {
                condition,
                accept,
                reject,
            },
        )
    }

    fn end_loop<L: FunctionBuilder>(&mut self, lowering: &mut L, condition: Option<BreakIf>) {
        let break_if = match condition {
            Some(condition) => Some(self.break_if(lowering, condition)),
            None => None,
        };
        let continuing = lowering.close();
        match (self.frames.pop(), self.done.pop()) {
            (Some(Frame::Loop), Some(body)) => push(
                lowering,
                Statement::Loop {
                    body,
                    continuing,
                    break_if,
                },
            ),
            _ => lowering.fail(unbalanced()),
        }
    }

    // The condition that leaves a loop.
    fn break_if<L: FunctionBuilder>(&mut self, lowering: &mut L, condition: BreakIf) -> Value {
        let expr = self.need(lowering, condition.block);
        if !condition.negated {
            return expr;
        }
        let end = end_of(lowering, condition.block);
        let op = UnaryOperator::LogicalNot;
        lowering.emit(Expression::Unary { op, expr }, &end)
    }

    fn begin_switch<L: FunctionBuilder>(
        &mut self,
        lowering: &mut L,
        block: u32,
        first: u32,
        count: u32,
        after: u32,
    ) {
        let value = self.need(lowering, block);
        let end = end_of(lowering, block);
        let (selector, signed) = selector_of(lowering, &end, value);
        let open = OpenSwitch {
            selector,
            signed,
            next: first,
            end: first.saturating_add(count),
            after,
            first: self.cases.len(),
            block,
        };
        keep(lowering, &mut self.frames, Frame::Switch(open));
    }

    // Goes on with the next case of the innermost switch, or ends it. Returns the next step.
    fn next_case<L: FunctionBuilder>(&mut self, lowering: &mut L, after: u32) -> u32 {
        let Some(Frame::Switch(open)) = self.frames.last().copied() else {
            return after;
        };
        for number in open.next..open.end {
            let case = case_at(lowering, number);
            match case.body {
                CaseBody::Steps(at) => {
                    if let Some(Frame::Switch(open)) = self.frames.last_mut() {
                        open.next = number;
                    }
                    lowering.open();
                    return at;
                }
                CaseBody::Empty => {
                    lowering.open();
                    self.add_case(lowering, &case, open.signed);
                }
                CaseBody::Break => {
                    lowering.open();
                    push(lowering, Statement::Break);
                    self.add_case(lowering, &case, open.signed);
                }
            }
        }
        self.end_switch(lowering, &open)
    }

    // Ends the case whose body was lowered. Returns the next step.
    fn end_case<L: FunctionBuilder>(&mut self, lowering: &mut L, after: u32) -> u32 {
        let Some(Frame::Switch(open)) = self.frames.last().copied() else {
            lowering.fail(unbalanced());
            return after;
        };
        let case = case_at(lowering, open.next);
        if let Some(Frame::Switch(open)) = self.frames.last_mut() {
            open.next = open.next.saturating_add(1);
        }
        self.add_case(lowering, &case, open.signed);
        self.next_case(lowering, after)
    }

    // A case whose body is the innermost block.
    fn add_case<L: FunctionBuilder>(&mut self, lowering: &mut L, case: &Case, signed: bool) {
        let value = match case.choice {
            Choice::Word(word) if signed => SwitchValue::I32(word.cast_signed()),
            Choice::Word(word) => SwitchValue::U32(word),
            Choice::Default => SwitchValue::Default,
        };
        let body = lowering.close();
        keep(
            lowering,
            &mut self.cases,
            SwitchCase {
                value,
                body,
                fall_through: case.falls_through,
            },
        );
    }

    fn end_switch<L: FunctionBuilder>(&mut self, lowering: &mut L, open: &OpenSwitch) -> u32 {
        let _ = self.frames.pop();
        let first = open.first.min(self.cases.len());
        let end = end_of(lowering, open.block);
        match self.cases.split_off(first) {
            Ok(cases) => {
                let switch = Statement::Switch {
                    selector: open.selector,
                    cases,
                };
                lowering.add(switch, &end);
            }
            Err(_) => lowering.fail(SpirvError::Memory),
        }
        open.after
    }

    fn end_function<L: FunctionBuilder>(&mut self, lowering: &mut L, block: u32) {
        let end = end_of(lowering, block);
        let value = if end.opcode == ops::RETURN_VALUE {
            Some(self.need(lowering, block))
        } else {
            None
        };
        lowering.add(Statement::Return { value }, &end)
    }
}

// The condition of an if.
fn condition_of(frame: &Frame) -> Option<Value> {
    match frame {
        Frame::If(condition) => Some(*condition),
        Frame::Loop | Frame::Switch(_) => None,
    }
}

// Steps that do not fit together, which the walk over blocks does not make.
fn unbalanced() -> SpirvError {
    SpirvError::untranslated(Feature::ControlFlow, 0)
}

// A statement that no instruction is alone.
fn push<L: FunctionBuilder>(lowering: &mut L, statement: Statement) {
    lowering.add(statement, &Instruction::NONE)
}

// The instructions of a block, and what goes from it into others. Returns the operand of its end.
fn lower_block<L: FunctionBuilder>(lowering: &mut L, number: u32) -> Option<Value> {
    let flow = lowering.flow();
    let scope = flow.steps.scopes.of_block(number).unwrap_or(0);
    let Some(block) = flow.blocks.get(number) else {
        lowering.fail(unbalanced());
        return None;
    };
    lowering.enter(scope);
    for place in block.first..block.end {
        if lowering.has_failed() {
            break;
        }
        let instruction = lowering.reading().listing.at(place);
        lower(lowering, &instruction);
    }
    let end = lowering.reading().listing.at(block.end);
    let value = match end.opcode {
        ops::BRANCH_CONDITIONAL | ops::SWITCH | ops::RETURN_VALUE => {
            let id = need(lowering, &end, 0);
            Some(lowering.value(id, &end))
        }
        ops::EMIT_MESH_TASKS_EXT => {
            emit_tasks(lowering, &end);
            None
        }
        _ => None,
    };
    lowering.flush();
    for place in 0..lowering.flow().kept.from_block(number).len() {
        let incoming = lowering.flow().kept.incoming_at(number, place);
        if let Some(incoming) = incoming {
            store_incoming(lowering, &end, incoming.phi, incoming.value);
        }
    }
    value
}

// What an `OpPhi` becomes when it comes from this block.
fn store_incoming<L: FunctionBuilder>(
    lowering: &mut L,
    operation: &Instruction,
    phi: u32,
    id: u32,
) {
    let pointer = phi_local(lowering, phi, operation);
    let value = lowering.value(id, operation);
    lowering.add(Statement::Store { pointer, value }, operation)
}
