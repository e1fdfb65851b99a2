// `if` statements and loops.

use crate::flow::{Around, Flow, Open};
use ir_blocks::Statement;
use wgsl_expressions::{Lowering, handle_of};
use wgsl_text::{Extent, Failure};
use wgsl_types::Builder;

impl Flow {
    // Pushes an open statement.
    pub(crate) fn push<B: Builder>(
        &mut self,
        lowering: &mut Lowering<B>,
        around: Around,
        extent: Extent,
    ) {
        let mut failed = Failure::NONE;
        let level = self.level_in(around);
        lowering.set_level(level, extent);
        let open = Open {
            around,
            extent,
            level,
        };
        failed.push(&mut self.open, open);
        if matches!(around, Around::Loop | Around::While | Around::For(_)) {
            self.loops = self.loops.saturating_add(1);
        }
        lowering.join(&failed);
    }
}

// Pops the condition.
pub(crate) fn condition<B: Builder>(lowering: &mut Lowering<B>) -> u32 {
    let operand = lowering.pop();
    lowering.value(operand).0
}

// Opens an `if` and its accept block.
pub(crate) fn choose<B: Builder>(lowering: &mut Lowering<B>, flow: &mut Flow, extent: Extent) {
    let condition = condition(lowering);
    flow.push(lowering, Around::If(condition), extent);
    lowering.builder.open();
}

// Opens the reject block of an `if`.
pub(crate) fn otherwise<B: Builder>(lowering: &mut Lowering<B>, flow: &mut Flow) {
    if let Some(open) = flow.pop() {
        if let Around::If(condition) = open.around {
            flow.push(lowering, Around::Else(condition), open.extent);
        }
    }
    lowering.builder.open();
}

// Closes an `if`, with both blocks or only the first one open.
pub(crate) fn end_choice<B: Builder>(
    lowering: &mut Lowering<B>,
    condition: u32,
    has_both: bool,
    extent: Extent,
) {
    if !has_both {
        lowering.builder.open();
    }
    let reject = lowering.builder.close();
    let accept = lowering.builder.close();
    let chosen = Statement::If {
        condition: handle_of(condition),
        accept,
        reject,
    };
    lowering.builder.statement(chosen, extent);
}

// Closes a block statement.
pub(crate) fn end_block<B: Builder>(lowering: &mut Lowering<B>, extent: Extent) {
    let block = lowering.builder.close();
    lowering.builder.statement(Statement::Block(block), extent);
}

// Closes a loop, with both its body and its `continuing` block open, or only the body.
pub(crate) fn end_loop<B: Builder>(
    lowering: &mut Lowering<B>,
    has_continuing: bool,
    ends: Option<u32>,
    extent: Extent,
) {
    if !has_continuing {
        lowering.builder.open();
    }
    let continuing = lowering.builder.close();
    let body = lowering.builder.close();
    let break_if = match ends {
        Some(number) => Some(handle_of(number)),
        None => None,
    };
    let made = Statement::Loop {
        body,
        continuing,
        break_if,
    };
    lowering.builder.statement(made, extent);
}

// Emits a break if the condition on the stack is false; then opens the body.
pub(crate) fn test<B: Builder>(lowering: &mut Lowering<B>, has_test: bool, extent: Extent) {
    if has_test {
        let condition = condition(lowering);
        lowering.builder.open();
        lowering.builder.open();
        lowering.builder.statement(Statement::Break, extent);
        end_choice(lowering, condition, true, extent);
    }
    lowering.builder.open();
}

// Opens the `continuing` block of a loop.
pub(crate) fn continuing<B: Builder>(lowering: &mut Lowering<B>, flow: &mut Flow) {
    if let Some(open) = flow.pop() {
        flow.push(lowering, Around::Continuing(None), open.extent);
    }
    lowering.builder.open();
}

// `break if`.
pub(crate) fn ends_if<B: Builder>(lowering: &mut Lowering<B>, flow: &mut Flow) {
    let condition = condition(lowering);
    if let Some(open) = flow.pop() {
        flow.push(lowering, Around::Continuing(Some(condition)), open.extent);
    }
}

// Opens the `continuing` block of a `for` loop, for its update.
pub(crate) fn update<B: Builder>(lowering: &mut Lowering<B>, flow: &mut Flow) {
    if let Some(open) = flow.pop() {
        end_block(lowering, open.extent);
        flow.loops = flow.loops.saturating_sub(1);
        flow.push(lowering, Around::For(true), open.extent);
    }
    lowering.builder.open();
}
