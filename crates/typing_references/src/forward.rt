//! Forward dependencies.

ghost use Rattle.std.specs.Prelude.{◌≡◌, option_and_then, map};
ghost use Rattle.std.specs.Option.{MatchOption};
ghost use Rattle.ir_arena.specs.judged.Handles.{handles_from};
ghost use Rattle.ir_types.specs.judged.ExpressionPlain.{expression_view};
ghost use Rattle.ir_items.specs.found.GlobalView.{values_of, node_view};
ghost use Rattle.ir_items.specs.found.View.{function_view};
ghost use Rattle.typing_references.specs.Faults.{operand_forward, callee_forward, function_of, expression_forward, callees_forward, parent_forward, IsForwardOperand, IsForwardCallee, IsForwardParent};
ghost use Rattle.typing_references.specs.First.{first_of};
ghost use Rattle.ir_items.specs.found.Filters.{ParentsPrecede};
ghost use Rattle.spec_expressions.specs.judged.FunctionHandles.{OperandsPrecede, CalleesPrecede};

use crate::expressions::item_of;
use crate::fault::HandleFault;
use crate::lists::operand_past;
use crate::statements::callee_of;
use crate::walk::{StatementLook, first_in};
use ir_arena::arena::Arena;
use ir_arena::handle::Handle;
use ir_items::{DiagnosticFilterNode, Expression, Function, Statement, key};
use spec_expressions::{ItemKind, Target};

// The fault of an operand that does not come before the expression at an index, if there is one.
fn operand_forward(expression: &Expression, index: usize) -> Option<HandleFault>
    ensures { result ≡ operand_forward index (expression_view expression.now) }
{
    match operand_past(expression, index) {
        Some(operand) => Some(HandleFault::Forward {
            kind: ItemKind::Expression,
            index,
            depends_on: operand.index(),
        }),
        None => None,
    }
}

fn operands_with_handles(expressions: &Arena<Expression, key::Expression>) -> Option<HandleFault>
    ensures { result ≡ first_of (λ h. operand_forward h.0 (expression_view h.1)) (handles_from 0 expressions.now) }
{
    for (handle, expression) in expressions.iter() {
        if let Some(fault) = operand_forward(expression, handle.index()) {
            return Some(fault);
        }
    }
    None
}

/// The fault of an operand that does not come before its expression, if there is one.
pub fn forward_operand(expressions: &Arena<Expression, key::Expression>) -> Option<HandleFault>
    ensures { MatchOption result (OperandsPrecede (map expression_view (values_of expressions.now))) (IsForwardOperand (map expression_view (values_of expressions.now))) }
{
    operands_with_handles(expressions)
}

// The function that an item is, if it is one.
fn function_of(item: Target) -> Option<Handle<key::Function>>
    ensures { result ≡ function_of item }
{
    match item {
        Target::Function(function) => Some(function),
        Target::Type(_)
        | Target::Constant(_)
        | Target::Override(_)
        | Target::GlobalVariable(_)
        | Target::LocalVariable(_)
        | Target::DiagnosticFilter(_) => None,
    }
}

// The fault of a function that the one at an index refers to, and that does not come before it.
fn callee_forward(caller: usize, callee: Option<Handle<key::Function>>) -> Option<HandleFault>
    ensures { result ≡ option_and_then (callee_forward caller) callee }
{
    match callee {
        Some(callee) => if callee.index() < caller {
            None
        } else {
            Some(HandleFault::Forward {
                kind: ItemKind::Function,
                index: caller,
                depends_on: callee.index(),
            })
        },
        None => None,
    }
}

fn expression_forward(caller: usize, expression: &Expression) -> Option<HandleFault>
    ensures { result ≡ expression_forward caller (expression_view expression.now) }
{
    match item_of(expression) {
        Some(item) => callee_forward(caller, function_of(item)),
        None => None,
    }
}

fn expressions_with_handles(
    expressions: &Arena<Expression, key::Expression>,
    caller: usize,
) -> Option<HandleFault>
    ensures { result ≡ first_of (λ h. expression_forward caller (expression_view h.1)) (handles_from 0 expressions.now) }
{
    for (_, expression) in expressions.iter() {
        if let Some(fault) = expression_forward(caller, expression) {
            return Some(fault);
        }
    }
    None
}

#[tactic(auto, using(crate::proofs::Entries::handles_first))]
fn expressions_forward(
    expressions: &Arena<Expression, key::Expression>,
    caller: usize,
) -> Option<HandleFault>
    ensures { result ≡ first_of (expression_forward caller) (map expression_view (values_of expressions.now)) }
{
    expressions_with_handles(expressions, caller)
}

// Searches statements for calls of functions that don't come before the caller.
#[derive(Drop)]
struct Forward {
    caller: usize,
}

impl StatementLook<HandleFault> for Forward {
    ghost use Rattle.typing_references.specs.Faults.{statement_forward};

    ghost look = { λ t s. statement_forward t.caller s };

    fn look(&self, statement: &Statement) -> Option<HandleFault> {
        callee_forward(self.caller, callee_of(statement))
    }
}

fn callees_forward(function: &Function, caller: usize) -> Option<HandleFault>
    ensures { result ≡ callees_forward caller (function_view function.now) }
{
    if let Some(fault) = expressions_forward(&function.expressions, caller) {
        return Some(fault);
    }
    let forward = Forward { caller };
    first_in(&forward, &function.body)
}

/// The fault of a function that is referred to, by a call or by a call result, in the function at the index
/// `caller`, and does not come before it; if there is one.
pub fn forward_callee(function: &Function, caller: usize) -> Option<HandleFault>
    ensures { MatchOption result (CalleesPrecede caller (function_view function.now)) (IsForwardCallee caller (function_view function.now)) }
{
    callees_forward(function, caller)
}

// The fault of a parent that does not come before the filter at an index, if there is one.
fn parent_forward(node: &DiagnosticFilterNode, index: usize) -> Option<HandleFault>
    ensures { result ≡ parent_forward index (node_view node.now) }
{
    match node.parent {
        Some(parent) => if parent.index() < index {
            None
        } else {
            Some(HandleFault::Forward {
                kind: ItemKind::DiagnosticFilter,
                index,
                depends_on: parent.index(),
            })
        },
        None => None,
    }
}

fn parents_with_handles(
    filters: &Arena<DiagnosticFilterNode, key::DiagnosticFilterNode>,
) -> Option<HandleFault>
    ensures { result ≡ first_of (λ h. parent_forward h.0 (node_view h.1)) (handles_from 0 filters.now) }
{
    for (handle, node) in filters.iter() {
        if let Some(fault) = parent_forward(node, handle.index()) {
            return Some(fault);
        }
    }
    None
}

/// The fault of a parent that does not come before its diagnostic filter, if there is one.
pub fn forward_parent(
    filters: &Arena<DiagnosticFilterNode, key::DiagnosticFilterNode>,
) -> Option<HandleFault>
    ensures { MatchOption result (ParentsPrecede (map node_view (values_of filters.now))) (IsForwardParent (map node_view (values_of filters.now))) }
{
    parents_with_handles(filters)
}
