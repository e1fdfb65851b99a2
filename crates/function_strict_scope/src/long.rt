//! The number of expressions that a body emits.

use ir_arena::range::Range;
use ir_blocks::plain_operation;
use ir_items::{Block, Function, Statement, SwitchCase, key};

// The average number of emissions of an expression above which the index of operands is built.
const OFTEN: usize = 8;

// The length of a range.
fn range_len(range: &Range<key::Expression>) -> usize {
    let bounds = range.index_range();
    bounds.end.saturating_sub(bounds.start) as usize
}

// How many expressions the cases of a switch emit.
#[cycle(emitted)]
fn emitted_in_cases(cases: &[SwitchCase]) -> usize {
    let mut total: usize = 0;
    for case in cases {
        total = total.saturating_add(emitted_in(&case.body));
    }
    total
}

// The number that a statement emits, including inner blocks.
#[cycle(emitted)]
fn emitted_at(statement: &Statement) -> usize {
    match statement {
        Statement::Emit(range) => range_len(range),
        Statement::Block(block) => emitted_in(block),
        Statement::If { accept, reject, .. } => {
            let first = emitted_in(accept);
            first.saturating_add(emitted_in(reject))
        }
        Statement::Switch { cases, .. } => emitted_in_cases(cases),
        Statement::Loop {
            body,
            continuing,
            ..
        } => {
            let first = emitted_in(body);
            first.saturating_add(emitted_in(continuing))
        }
        Statement::Break
        | Statement::Continue
        | Statement::Return { .. }
        | Statement::Kill
        | Statement::Call { .. }
        | plain_operation!() => 0,
    }
}

// The number that the statements of a block emit.
#[cycle(emitted)]
fn emitted_in(block: &Block) -> usize {
    let mut total: usize = 0;
    for statement in block.as_slice() {
        total = total.saturating_add(emitted_at(statement));
    }
    total
}

/// Whether a function's body emits many times as many expressions as the function has. No contract depends on it: it only
/// selects the faster way.
pub fn emits_often(function: &Function) -> bool {
    let emitted = emitted_in(&function.body);
    emitted / OFTEN > function.expressions.len()
}
