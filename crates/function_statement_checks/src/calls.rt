//! Calls.

ghost use Rattle.std.specs.Prelude.{◌≡◌, ◌↔◌, ◌<◌, ℕ, Option, IfNone, IfSome, IsTrue, MatchResult, length, option_map, slice_get};
ghost use Rattle.ir_types.specs.judged.ExpressionPlain.{expression_view, plain};
ghost use Rattle.ir_types.specs.declared.expressions.Expression.TheVariants as x;
ghost use Rattle.ir_items.specs.found.View.{argument_view, function_view};
ghost use Rattle.spec_statements.specs.judged.Calls.{CallOK, CallResultOK};
ghost use Rattle.function_statement_checks.specs.Calls.{PassesAt, IsCallError, IsCallFault};

use crate::context::StatementContext;
use ir_arena::handle::Handle;
use ir_items::{Function, FunctionArgument};
use ir_types::{Expression, key};
use module_context::are_same;
use typing_errors::{CallError, FunctionError};

// The argument of a function at an index.
#[tactic(auto, using(crate::proofs::CallLemmas::declared))]
fn declared_at(callee: &Function, place: usize) -> Option<&FunctionArgument>
    ensures { option_map (λ found. argument_view found.now) result ≡ slice_get (function_view callee.now).arguments place }
{
    callee.arguments.get(place)
}

// The error of the argument passed at an index.
fn argument_fault<C: StatementContext>(
    context: &C,
    callee: &Function,
    arguments: &[Handle<key::Expression>],
    place: usize,
) -> Option<CallError>
    ensures none { IfNone result (PassesAt (C.seen context.now) (function_view callee.now) arguments.now place) }
    ensures found { IfSome result (λ e. (function : ℕ) (answered : Option ℕ) → IsCallError (C.seen context.now) function (function_view callee.now) arguments.now answered e) }
{
    let seen_expression = *arguments.get(place)?;
    let argument = declared_at(callee, place)?;
    if are_same(
        context.form_at(seen_expression),
        context.form_of(argument.ty),
    ) {
        return None;
    }
    Some(CallError::ArgumentType {
        index: place,
        required: argument.ty,
        seen_expression,
    })
}

// The error of the first argument of another type.
fn arguments_fault<C: StatementContext>(
    context: &C,
    callee: &Function,
    arguments: &[Handle<key::Expression>],
) -> Option<CallError>
    ensures none { IfNone result ((place : ℕ) → PassesAt (C.seen context.now) (function_view callee.now) arguments.now place) }
    ensures found { IfSome result (λ e. (function : ℕ) (answered : Option ℕ) → IsCallError (C.seen context.now) function (function_view callee.now) arguments.now answered e) }
{
    for place in 0..arguments.len() {
        if let Some(error) = argument_fault(context, callee, arguments, place) {
            return Some(error);
        }
    }
    None
}

// Whether an expression is the `CallResult` of a function.
fn is_answer_of(expression: &Expression, function: Handle<key::Function>) -> bool
    ensures { IsTrue result ↔ (expression_view expression.now ≡ plain (x.CallResult function)) }
{
    match *expression {
        Expression::CallResult(callee) => callee == function,
        _ => false,
    }
}

// Whether a call has a result exactly if the function has one, and it is that of the function.
fn is_answered<C: StatementContext>(
    context: &C,
    function: Handle<key::Function>,
    callee: &Function,
    answered: &Option<Handle<key::Expression>>,
) -> bool
    ensures { IsTrue result ↔ CallResultOK (C.seen context.now) function (function_view callee.now) answered.now }
{
    match *answered {
        None => callee.result.is_none(),
        Some(expr) => match context.expression_at(expr) {
            Some(expression) => callee.result.is_some() && is_answer_of(expression, function),
            None => false,
        },
    }
}

/// Whether a call passes the declared arguments of its function, and has its `CallResult`. A call of a missing function is not
/// refused here: that it exists, and takes as many arguments, is checked before.
///
/// # Errors
///
/// [`FunctionError::InvalidCall`] with [`CallError::ArgumentType`] for an argument of another type (the first, which no clause
/// states), or with [`CallError::ExpressionMismatch`] if the result is not a `CallResult` of the function, or exists exactly if
/// it should not.
pub fn check_call<C: StatementContext>(
    context: &C,
    function: Handle<key::Function>,
    arguments: &[Handle<key::Expression>],
    answered: Option<Handle<key::Expression>>,
) -> Result<(), FunctionError>
    ensures { MatchResult result
        (λ _. function < length (C.seen context.now).m.functions → CallOK (C.seen context.now) function arguments.now answered)
        (IsCallFault (C.seen context.now) function arguments.now answered) }
{
    let Some(callee) = context.function_at(function) else {
        return Ok(());
    };
    if let Some(error) = arguments_fault(context, callee, arguments) {
        return Err(FunctionError::InvalidCall { function, error });
    }
    if is_answered(context, function, callee, &answered) {
        return Ok(());
    }
    Err(FunctionError::InvalidCall {
        function,
        error: CallError::ExpressionMismatch(answered),
    })
}
