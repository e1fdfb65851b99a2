// The steps of statements.

use crate::declarations::{bind, constant, variable};
use crate::effects::{assertion, assign, call, compound, count, give, phony, target};
use crate::flow::{Around, Flow, Open};
use crate::loops::{
    choose, continuing, end_block, end_choice, end_loop, ends_if, otherwise, test, update,
};
use crate::switches;
use ir_blocks::Statement;
use ir_kinds::BinaryOperator;
use wgsl_expressions::Lowering;
use wgsl_functions::lower_step;
use wgsl_text::Failure;
use wgsl_tree::{Part, Step, StepKind};
use wgsl_types::{Builder, Shape};

impl Flow {
    // Lowers a step if it is a declaration, an assignment or a call; returns whether it is.
    fn simple<B: Builder>(&mut self, lowering: &mut Lowering<B>, step: Step) -> bool {
        match step.kind {
            StepKind::Let(typed) => bind(lowering, self, typed, step.token),
            StepKind::Const(typed) => constant(lowering, typed, step.token),
            StepKind::Var {
                templates,
                typed,
                init,
            } => variable(lowering, self, templates, typed, init, step.token),
            StepKind::ConstAssert => assertion(lowering),
            StepKind::Assign => assign(lowering),
            StepKind::Target => target(lowering),
            StepKind::Compound(operator) => compound(lowering, operator),
            StepKind::Increase => count(lowering, BinaryOperator::Add, step.token),
            StepKind::Decrease => count(lowering, BinaryOperator::Subtract, step.token),
            StepKind::Phony => phony(lowering),
            StepKind::CallStatement(arguments) => call(lowering, arguments, step.token),
            _ => return false,
        }
        true
    }

    // Lowers a step if it is `return`, `break`, `continue` or `discard`; returns whether it is.
    fn jump<B: Builder>(&mut self, lowering: &mut Lowering<B>, step: Step) -> bool {
        let extent = lowering.extent(step.token);
        match step.kind {
            StepKind::Break => lowering.builder.statement(Statement::Break, extent),
            StepKind::Continue => lowering.builder.statement(Statement::Continue, extent),
            StepKind::Discard => lowering.builder.statement(Statement::Kill, extent),
            StepKind::Return(has_value) => give(lowering, self.gives, has_value, extent),
            _ => return false,
        }
        true
    }

    // Lowers a step that opens or closes blocks.
    fn structured<B: Builder>(&mut self, lowering: &mut Lowering<B>, step: Step) {
        let extent = lowering.extent(step.token);
        match step.kind {
            StepKind::If => choose(lowering, self, extent),
            StepKind::Else => otherwise(lowering, self),
            StepKind::Block => {
                self.push(lowering, Around::Block, extent);
                lowering.builder.open();
            }
            StepKind::Loop => {
                self.push(lowering, Around::Loop, extent);
                lowering.builder.open();
            }
            StepKind::Continuing => continuing(lowering, self),
            StepKind::BreakIf => ends_if(lowering, self),
            StepKind::While => {
                self.push(lowering, Around::While, extent);
                lowering.builder.open();
            }
            StepKind::WhileTest => test(lowering, true, extent),
            StepKind::For => self.push(lowering, Around::For(false), extent),
            StepKind::ForLoop => lowering.builder.open(),
            StepKind::ForTest(has_test) => test(lowering, has_test, extent),
            StepKind::ForUpdate => update(lowering, self),
            StepKind::End => self.end(lowering),
            _ => self.switching(lowering, step),
        }
    }

    // Lowers a step of a `switch`.
    fn switching<B: Builder>(&mut self, lowering: &mut Lowering<B>, step: Step) {
        let extent = lowering.extent(step.token);
        match step.kind {
            StepKind::Switch => switches::select(lowering, self, extent),
            StepKind::CaseValue => switches::value(lowering, self),
            StepKind::CaseDefault => switches::default(lowering, self),
            StepKind::CaseBody => switches::body(lowering, self, extent),
            _ => {}
        }
    }

    // Closes the innermost open statement.
    fn end<B: Builder>(&mut self, lowering: &mut Lowering<B>) {
        let Some(Open { around, extent, .. }) = self.pop() else {
            return;
        };
        lowering.level = self.level();
        match around {
            Around::Block => end_block(lowering, extent),
            Around::If(condition) => end_choice(lowering, condition, false, extent),
            Around::Else(condition) => end_choice(lowering, condition, true, extent),
            Around::Loop => end_loop(lowering, false, None, extent),
            Around::Continuing(ends) => end_loop(lowering, true, ends, extent),
            Around::While => {
                end_block(lowering, extent);
                end_loop(lowering, false, None, extent);
            }
            Around::For(_) => end_loop(lowering, true, None, extent),
            Around::Switch(selector, start) => {
                switches::end(lowering, self, &selector, start, extent);
            }
            Around::Case => {}
        }
        if matches!(
            around,
            Around::Loop | Around::Continuing(_) | Around::While | Around::For(_)
        ) {
            self.loops = self.loops.saturating_sub(1);
        }
    }
}

/// Lowers the body of a function with this result type from its steps.
pub fn lower_body<B: Builder>(lowering: &mut Lowering<B>, part: Part, gives: Shape) {
    let mut flow = Flow {
        open: Vec::new(lowering.alloc),
        cases: Vec::new(lowering.alloc),
        lets: Vec::new(lowering.alloc),
        gives,
        loops: 0,
    };
    for place in part.start..part.end {
        if lowering.has_failed() {
            break;
        }
        let Some(step) = lowering.step_at(place) else {
            break;
        };
        if lower_step(lowering, step) || flow.simple(lowering, step) || flow.jump(lowering, step) {
            continue;
        }
        flow.structured(lowering, step);
        let mut failed = Failure::NONE;
        lowering.scopes.follow(step.kind, &mut failed);
        lowering.join(&failed);
    }
}
