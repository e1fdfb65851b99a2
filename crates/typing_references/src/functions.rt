//! Handle errors of a function.

ghost use Rattle.std.specs.Prelude.{◌≡◌, option_and_then, option_map, map};
ghost use Rattle.std.specs.Option.{MatchOption};
ghost use Rattle.ir_arena.specs.judged.Handles.{handles_from};
ghost use Rattle.ir_types.specs.judged.ExpressionPlain.{expression_view};
ghost use Rattle.ir_items.specs.found.GlobalView.{values_of};
ghost use Rattle.ir_items.specs.found.View.{argument_view, local_view, function_view, module_view};
ghost use Rattle.typing_references.specs.Faults.{missing, range_out, expression_missing, statement_missing, argument_missing, local_missing, signature_missing, function_missing, IsMissingFault};
ghost use Rattle.typing_references.specs.First.{first_of, emitted_view};
ghost use Rattle.spec_expressions.specs.judged.FunctionHandles.{HandlesInRange};
ghost use Rattle.spec_expressions.specs.declared.item.ItemKind.TheVariants as kind;

use crate::bounds::{Bounds, absent};
use crate::expressions::item_of;
use crate::fault::HandleFault;
use crate::lists::{operand_past, statement_operand_past};
use crate::statements::{callee_of, range_of, result_of};
use crate::walk::{StatementLook, first_in};
use ir_arena::arena::Arena;
use ir_arena::handle::Handle;
use ir_arena::range::Range;
use ir_items::{
    DiagnosticFilterNode, Expression, Function, FunctionArgument, FunctionResult, LocalVariable,
    Module, Statement, key,
};
use spec_expressions::Target;

/// The fault of an item or operand of an expression, if it does not exist.
pub fn expression_missing(expression: &Expression, bounds: &Bounds) -> Option<HandleFault>
    ensures { result ≡ expression_missing bounds.now (expression_view expression.now) }
{
    if let Some(fault) = bounds.missing_if(item_of(expression)) {
        return Some(fault);
    }
    absent(operand_past(expression, bounds.expressions))
}

fn expressions_with_handles(
    expressions: &Arena<Expression, key::Expression>,
    bounds: &Bounds,
) -> Option<HandleFault>
    ensures { result ≡ first_of (λ h. expression_missing bounds.now (expression_view h.1)) (handles_from 0 expressions.now) }
{
    for (_, expression) in expressions.iter() {
        if let Some(fault) = expression_missing(expression, bounds) {
            return Some(fault);
        }
    }
    None
}

#[tactic(auto, using(crate::proofs::Entries::handles_first))]
fn expressions_missing(
    expressions: &Arena<Expression, key::Expression>,
    bounds: &Bounds,
) -> Option<HandleFault>
    ensures { result ≡ first_of (expression_missing bounds.now) (map expression_view (values_of expressions.now)) }
{
    expressions_with_handles(expressions, bounds)
}

fn local_missing(local: &LocalVariable, bounds: &Bounds) -> Option<HandleFault>
    ensures { result ≡ local_missing bounds.now (local_view local.now) }
{
    if let Some(fault) = bounds.missing_item(Target::Type(local.ty)) {
        return Some(fault);
    }
    bounds.missing_expression_if(local.init)
}

fn locals_with_handles(
    locals: &Arena<LocalVariable, key::LocalVariable>,
    bounds: &Bounds,
) -> Option<HandleFault>
    ensures { result ≡ first_of (λ h. local_missing bounds.now (local_view h.1)) (handles_from 0 locals.now) }
{
    for (_, local) in locals.iter() {
        if let Some(fault) = local_missing(local, bounds) {
            return Some(fault);
        }
    }
    None
}

#[tactic(auto, using(crate::proofs::Entries::handles_first))]
fn locals_missing(
    locals: &Arena<LocalVariable, key::LocalVariable>,
    bounds: &Bounds,
) -> Option<HandleFault>
    ensures { result ≡ first_of (local_missing bounds.now) (map local_view (values_of locals.now)) }
{
    locals_with_handles(locals, bounds)
}

fn arguments_missing(arguments: &[FunctionArgument], bounds: &Bounds) -> Option<HandleFault>
    ensures { result ≡ first_of (argument_missing bounds.now) (map argument_view arguments.now) }
{
    for argument in arguments {
        if let Some(fault) = bounds.missing_item(Target::Type(argument.ty)) {
            return Some(fault);
        }
    }
    None
}

fn answer_missing(answer: &Option<FunctionResult>, bounds: &Bounds) -> Option<HandleFault>
    ensures { result ≡ option_and_then (λ r. missing kind.Type bounds.now.types r.ty) answer.now }
{
    match answer {
        Some(answer) => bounds.missing_item(Target::Type(answer.ty)),
        None => None,
    }
}

fn leaf_missing(
    leaf: Option<Handle<key::DiagnosticFilterNode>>,
    bounds: &Bounds,
) -> Option<HandleFault>
    ensures { result ≡ option_and_then (missing kind.DiagnosticFilter bounds.now.filters) leaf }
{
    match leaf {
        Some(leaf) => bounds.missing_item(Target::DiagnosticFilter(leaf)),
        None => None,
    }
}

fn signature_missing(function: &Function, bounds: &Bounds) -> Option<HandleFault>
    ensures { result ≡ signature_missing bounds.now (function_view function.now) }
{
    if let Some(fault) = arguments_missing(&function.arguments, bounds) {
        return Some(fault);
    }
    if let Some(fault) = answer_missing(&function.result, bounds) {
        return Some(fault);
    }
    leaf_missing(function.diagnostic_filter_leaf, bounds)
}

// The fault of the range that a statement emits, if it emits one.
fn range_out(range: Option<Range<key::Expression>>, there: usize) -> Option<HandleFault>
    ensures { result ≡ option_and_then (range_out there) (option_map emitted_view range) }
{
    match range {
        Some(range) => {
            let bounds = range.index_range();
            if bounds.start <= bounds.end && bounds.end as usize <= there {
                None
            } else {
                Some(HandleFault::Range {
                    first: bounds.start,
                    end: bounds.end,
                })
            }
        }
        None => None,
    }
}

fn callee_missing(callee: Option<Handle<key::Function>>, bounds: &Bounds) -> Option<HandleFault>
    ensures { result ≡ option_and_then (missing kind.Function bounds.now.functions) callee }
{
    match callee {
        Some(callee) => bounds.missing_item(Target::Function(callee)),
        None => None,
    }
}

// Searches statements for handles of items that don't exist.
#[derive(Drop)]
struct Missing {
    bounds: Bounds,
}

impl StatementLook<HandleFault> for Missing {
    ghost use Rattle.typing_references.specs.Faults.{statement_missing};

    ghost look = { λ t s. statement_missing t.bounds s };

    fn look(&self, statement: &Statement) -> Option<HandleFault> {
        let there = self.bounds.expressions;
        if let Some(fault) = absent(statement_operand_past(statement, there)) {
            return Some(fault);
        }
        if let Some(fault) = self.bounds.missing_expression_if(result_of(statement)) {
            return Some(fault);
        }
        if let Some(fault) = range_out(range_of(statement), there) {
            return Some(fault);
        }
        callee_missing(callee_of(statement), &self.bounds)
    }
}

fn function_missing(function: &Function, bounds: Bounds) -> Option<HandleFault>
    ensures { result ≡ function_missing bounds (function_view function.now) }
{
    if let Some(fault) = signature_missing(function, &bounds) {
        return Some(fault);
    }
    if let Some(fault) = locals_missing(&function.local_variables, &bounds) {
        return Some(fault);
    }
    if let Some(fault) = expressions_missing(&function.expressions, &bounds) {
        return Some(fault);
    }
    let missing = Missing { bounds };
    first_in(&missing, &function.body)
}

/// The fault of an item that the function refers to, if it does not exist: types of its arguments, its result and its variables,
/// the variables' initializers, its diagnostic filter, and the items that its expressions and its statements refer to, result
/// expressions included. Handles are not followed.
pub fn missing_in_function(function: &Function, module: &Module) -> Option<HandleFault>
    ensures { MatchOption result (HandlesInRange (module_view «module».now) (function_view function.now)) (IsMissingFault (module_view «module».now) (function_view function.now)) }
{
    function_missing(function, Bounds::of(function, module))
}
