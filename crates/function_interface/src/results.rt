//! The result of a function.

ghost use Rattle.std.specs.Prelude.{IfSome, MatchResult};
ghost use Rattle.function_interface.specs.Results.{IsResultFault};
ghost use Rattle.function_interface.specs.Reported.{AreReported};
ghost use Rattle.spec_statements.specs.judged.Interfaces.{ResultOK};
ghost use Rattle.function_statement_checks.specs.View.{context_view};

use crate::flags::is_constructible;
use function_statement_checks::BlockContext;
use typing_errors::FunctionError;
use typing_layout::TypeInfo;

/// Whether the result of a function is valid, if it has one. `infos` has the `TypeInfo`s of the module; `entry` is whether the
/// function is an entry point's, whose result alone has a binding.
///
/// # Errors
///
/// [`FunctionError::NonConstructibleReturnType`] for a type that is not constructible, and
/// [`FunctionError::PipelineOutputRegularFunction`] for a binding in a function that is not an entry point's.
pub fn check_result(
    context: &BlockContext<'_>,
    infos: &[TypeInfo],
    entry: bool,
) -> Result<(), FunctionError>
    requires { AreReported (context_view context.now).m.types infos.now }
    ensures { MatchResult result
        (λ _. IfSome (context_view context.now).f.result (ResultOK (context_view context.now).m entry))
        (IsResultFault (context_view context.now) entry) }
{
    match context.function.result {
        None => Ok(()),
        Some(answer) => {
            if !is_constructible(infos, answer.ty) {
                return Err(FunctionError::NonConstructibleReturnType);
            }
            if !entry && answer.binding.is_some() {
                return Err(FunctionError::PipelineOutputRegularFunction);
            }
            Ok(())
        }
    }
}
