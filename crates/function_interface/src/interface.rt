//! The local variables, the arguments and the result of a function.

ghost use Rattle.std.specs.Prelude.{MatchResult};
ghost use Rattle.function_interface.specs.Interfaces.{IsInterfaceFault};
ghost use Rattle.function_interface.specs.Refusals.{IsRefusal};
ghost use Rattle.function_interface.specs.Reported.{AreReported};
ghost use Rattle.spec_statements.specs.judged.Interfaces.{InterfaceOK};
ghost use Rattle.function_statement_checks.specs.View.{context_view, IsKnown};

use crate::arguments::check_arguments;
use crate::locals::check_locals;
use crate::results::check_result;
use function_statement_checks::BlockContext;
use ir_types::refusal::Refusal;
use ir_types::with_span::WithSpan;
use std::alloc::Global;
use typing_errors::FunctionError;
use typing_layout::TypeInfo;

/// Whether the local variables, the arguments and the result of a function are valid, in this order (the first part of naga's
/// `validate_function`). `infos` has the `TypeInfo`s of the module; `entry` is whether the function is an entry point's.
///
/// # Errors
///
/// [`Refusal::Fault`] for the first invalid part, and in it for the first item: the errors of [`check_locals`],
/// [`check_arguments`] and [`check_result`]. [`Refusal::Memory`] if there is no memory for a name.
///
/// [`check_locals`]: crate::check_locals [`check_arguments`]: crate::check_arguments [`check_result`]: crate::check_result
pub fn check_interface(
    alloc: Global,
    context: &BlockContext<'_>,
    infos: &[TypeInfo],
    entry: bool,
) -> Result<(), Refusal<FunctionError>>
    requires known { IsKnown context.now }
    requires told { AreReported (context_view context.now).m.types infos.now }
    ensures { MatchResult result
        (λ _. InterfaceOK (context_view context.now) entry)
        (IsRefusal (InterfaceOK (context_view context.now) entry) (IsInterfaceFault (context_view context.now) entry)) }
{
    match check_locals(alloc, context, infos) {
        Ok(()) => {}
        Err(refusal) => return Err(refusal),
    }
    match check_arguments(alloc, context, infos, entry) {
        Ok(()) => {}
        Err(refusal) => return Err(refusal),
    }
    match check_result(context, infos, entry) {
        Ok(()) => Ok(()),
        Err(error) => Err(Refusal::Fault(WithSpan::new(alloc, error))),
    }
}
