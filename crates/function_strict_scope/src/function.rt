//! The strict scope of a function's body.

ghost use Rattle.std.specs.Prelude.{◌≡◌, [], IfErr, IfOk, OnOk};
ghost use Rattle.ir_blocks.specs.judged.Places.{Place};
ghost use Rattle.ir_items.specs.judged.Plain.{PlainFunction};
ghost use Rattle.ir_items.specs.found.View.{function_view};
ghost use Rattle.ir_places.specs.Paths.{IsPlaced};
ghost use Rattle.spec_statements.specs.judged.Scope.{ScopeOK};
ghost use Rattle.spec_statements.specs.judged.Strict.{StrictOK};
ghost use Rattle.function_strict_scope.specs.Faults.{IsStrictFaultAt, IsStrictRefusalAt};
ghost use Rattle.function_strict_scope.specs.Walked.{IfFault};

use crate::error::StrictError;
use crate::pairs::begin;
use crate::walk::check_block;
use function_body_checks::ExpressionList;
use ir_items::Function;
use ir_places::Trail;
use ir_types::refusal::Refusal;
use ir_types::with_span::WithSpan;
use std::alloc::Global;
use typing_errors::{CallError, ExpressionError, FunctionError};

// The function's error for the error of the walk.
fn refused(alloc: Global, error: StrictError) -> Refusal<FunctionError>
    ensures { (f : PlainFunction) (p : Place) → IfFault error (λ e. IsStrictFaultAt f e p) → IsStrictRefusalAt f result p }
{
    let error = match error {
        StrictError::Memory(error) => return Refusal::Memory(error),
        StrictError::Unknown(handle) => FunctionError::Expression {
            handle,
            source: ExpressionError::NotInScope,
        },
        StrictError::UnknownArgument { function, index } => {
            let source = ExpressionError::NotInScope;
            let error = CallError::Argument { index, source };
            FunctionError::InvalidCall { function, error }
        }
        StrictError::Known(handle) => FunctionError::ExpressionAlreadyInScope(handle),
        StrictError::OtherAnswer(handle) => FunctionError::StrictResultMismatch(handle),
    };
    Refusal::Fault(WithSpan::new(alloc, error))
}

/// Whether every operand of a function's statements, of its loop conditions and of its emitted expressions is in strict scope
/// where it is used, and the results of `Proceed` and ballots have their own kinds. This check is this library's own, under the
/// flag `STRICT_SCOPE`, after the scope check.
///
/// # Errors
///
/// An error of a statement at the place of the trail (the first in text order, which no clause states):
/// [`FunctionError::Expression`] with `NotInScope` for an operand, [`FunctionError::InvalidCall`] with `Argument` for an
/// argument, [`FunctionError::StrictResultMismatch`] for the result of a `Proceed` or a ballot. [`Refusal::Memory`] if out of
/// memory. If the function fails the scope check, the error may be of another kind.
pub fn check_strict(
    alloc: Global,
    trail: &mut Trail,
    function: &Function,
) -> Result<(), Refusal<FunctionError>>
    ensures strict { OnOk result (StrictOK (function_view function.now)) }
    ensures fault { ScopeOK (function_view function.now) → IfErr result (λ r. IsPlaced trail.new (IsStrictRefusalAt (function_view function.now) r)) }
{
    let mut live = begin(alloc, function)?;
    let mut sure = ExpressionList::new(alloc, function.expressions.len())?;
    match check_block(function, &mut sure, &mut live, trail, &function.body) {
        Ok(_) => Ok(()),
        Err(error) => Err(refused(alloc, error)),
    }
}
