//! The values of `Return`.

ghost use Rattle.std.specs.Prelude.{◌≡◌, ◌↔◌, IsTrue, MatchResult};
ghost use Rattle.spec_statements.specs.judged.Returns.{ReturnOK};
ghost use Rattle.function_statement_checks.specs.Returns.{IsReturnFault};

use crate::context::StatementContext;
use ir_arena::handle::Handle;
use ir_types::key;
use module_context::are_same;
use typing_errors::FunctionError;

// Whether a returned value matches the function's result.
fn is_answer<C: StatementContext>(context: &C, value: &Option<Handle<key::Expression>>) -> bool
    ensures { IsTrue result ↔ ReturnOK (C.seen context.now) value.now }
{
    match (*value, context.result()) {
        (None, None) => true,
        (Some(value), Some(answer)) => are_same(context.form_at(value), context.form_of(answer.ty)),
        (None, Some(_)) | (Some(_), None) => false,
    }
}

/// Whether a `Return` has a value exactly if the function has a result, and it has its type.
///
/// # Errors
///
/// [`FunctionError::InvalidReturnType`] if not.
pub fn check_return<C: StatementContext>(
    context: &C,
    value: Option<Handle<key::Expression>>,
) -> Result<(), FunctionError>
    ensures { MatchResult result
        (λ _. ReturnOK (C.seen context.now) value)
        (IsReturnFault (C.seen context.now) value) }
{
    if is_answer(context, &value) {
        return Ok(());
    }
    Err(FunctionError::InvalidReturnType {
        expression: value,
        expected_ty: context.result().map(|answer| answer.ty),
    })
}
