//! Switches.

ghost use Rattle.std.specs.Prelude.{◌≡◌, MatchResult, map};
ghost use Rattle.ir_blocks.specs.found.View.{case_view, cases_of};
ghost use Rattle.spec_statements.specs.judged.BlockContext.{form_at};
ghost use Rattle.spec_statements.specs.judged.Switches.{SwitchOK};
ghost use Rattle.function_statements.specs.Switches.{Selects, IsSelectorFault, IsSwitchRefusal};

use function_statement_checks::{StatementContext, cases_fault};
use ir_arena::handle::Handle;
use ir_blocks::SwitchCase;
use ir_kinds::ScalarKind;
use ir_types::key;
use ir_types::refusal::Refusal;
use ir_types::with_span::WithSpan;
use module_context::{is_integer, shaped_of};
use std::alloc::Global;
use typing_errors::FunctionError;

// The integer kind of a selector.
fn check_selector<C: StatementContext>(
    context: &C,
    selector: Handle<key::Expression>,
) -> Result<ScalarKind, FunctionError>
    ensures { MatchResult result
        (Selects (form_at (C.seen context.now) selector))
        (IsSelectorFault (C.seen context.now) selector) }
{
    match shaped_of(context.form_at(selector)) {
        Some(shaped) => {
            if is_integer(shaped.scalar.kind) {
                Ok(shaped.scalar.kind)
            } else {
                Err(FunctionError::InvalidSwitchType(selector))
            }
        }
        None => Err(FunctionError::InvalidSwitchType(selector)),
    }
}

/// Whether a switch is valid: its selector is of integers, in any shape; the values of the cases have its kind and are
/// distinct, there is a default, and the last case does not fall through. The time is that of sorting the values.
///
/// # Errors
///
/// [`FunctionError::InvalidSwitchType`] for the selector; for the values [`FunctionError::ConflictingCaseType`] for another
/// kind, and [`FunctionError::ConflictingSwitchCase`] or [`FunctionError::MultipleDefaultCases`] for one that occurs twice;
/// [`FunctionError::MissingDefaultCase`] and [`FunctionError::LastCaseFallTrough`]. [`Refusal::Memory`] if there is no memory
/// for the values.
pub fn check_switch<C: StatementContext>(
    alloc: Global,
    context: &C,
    selector: Handle<key::Expression>,
    cases: &[SwitchCase],
) -> Result<(), Refusal<FunctionError>>
    ensures { MatchResult result
        (λ _. SwitchOK (form_at (C.seen context.now) selector) (cases_of (map case_view cases.now)))
        (IsSwitchRefusal (C.seen context.now) selector (cases_of (map case_view cases.now))) }
{
    match check_selector(context, selector) {
        Err(error) => Err(Refusal::Fault(WithSpan::new(alloc, error))),
        Ok(kind) => match cases_fault(alloc, kind, cases) {
            Err(error) => Err(Refusal::Memory(error)),
            Ok(None) => Ok(()),
            Ok(Some(error)) => Err(Refusal::Fault(WithSpan::new(alloc, error))),
        },
    }
}
